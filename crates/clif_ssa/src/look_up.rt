//! The machine that looks a variable up in blocks: the tables of the construction with two stacks, of calls and of results.
ghost use Rattle.std.specs.Prelude.{◌≡◌, ◌<◌, List, [], ◌∷◌, Some, length, OnOk, IfOk, Contains, ◌-◌, ◌*◌, true};
ghost use Rattle.clif_ir.specs.Body.{value_at};
ghost use Rattle.clif_ssa.specs.Constructs.{TellsMore};
ghost use Rattle.clif_ssa.specs.Counted.{finishes, AreBelow, StepCounts, StepStops};
ghost use Rattle.clif_ssa.specs.Pools.{types_of, SealingIsFull, UseIsFull};
ghost use Rattle.clif_records.specs.Pages.{HasNoPage, page_number};
ghost use Rattle.clif_records.specs.declared.tables.Pending.{Pending};
ghost use Rattle.clif_ssa.specs.Structure.{LooksOnce};
ghost use Rattle.clif_ssa.specs.LookUp.{LooksUp, MakesCall, CompletesParameter};
ghost use Rattle.clif_ssa.specs.Running.{stage, with_call, CallsFit, CompletesAll, MakesAll, ToComplete};
ghost use Rattle.clif_ssa.specs.Steps.{StepEnds, StepKeeps, StepLeaves, StepPools};
ghost use Rattle.clif_ssa.specs.Ssa.{NamesExist};

use crate::ending::finish_look_up;
use crate::ssa_tables::{Reached, SsaTables};
use clif_ir::Function;
use clif_records::Variable;
use clif_records::look_up::{Call, LookUp};
use clif_records::passed::PassedBlocks;
use clif_records::tables::Pending;
use clif_types::{Block, BuildError, Type, Value};

impl SsaTables {
    /// Looks a variable up in a block. `has_no_page` tells whether the variable is known to have no page with the
    /// block's cell. `passed` is the room of the walk, and holds the blocks that it passed then.
    #[inline(always)]
    pub(crate) fn look_up_in(
        &mut self,
        func: &mut Function,
        variable: Variable,
        ty: Type,
        block: Block,
        has_no_page: bool,
        passed: &mut PassedBlocks,
        look_up: &mut LookUp,
    ) -> Result<(), BuildError>
        requires exists { block < length func.old.blocks }
        requires named { NamesExist func.old self.old }
        requires no_page { has_no_page ≡ true
            → HasNoPage self.old.records variable (page_number block) }
        ensures looks { OnOk result (LooksUp variable ty block (stage func.old self.old look_up.old)
            (stage func.new self.new look_up.new)) }
        ensures keeps { StepKeeps variable ty func.old self.old func.new self.new }
        ensures tells { OnOk result (TellsMore func.old func.new look_up.old.zeros
            look_up.new.zeros) }
        ensures ends { StepEnds (UseIsFull ty) func.new result }
        ensures stops { StepStops 0 func.old self.old func.new self.new result }
    {
        func.law_consistent();
        let reached = self.walk(func, variable, block, has_no_page, passed)?;
        let Reached { block, recorded } = reached;
        let value = self.record_or_parameter(func, variable, ty, block, recorded, look_up)?;
        self.variables
            .set_each(variable, passed.as_slice(), block, value)
    }

    /// Makes calls until none is left, and returns the one result.
    #[inline(always)]
    pub(crate) fn make_calls(
        &mut self,
        func: &mut Function,
        variable: Variable,
        ty: Type,
        passed: &mut PassedBlocks,
        look_up: &mut LookUp,
    ) -> Result<Value, BuildError>
        requires named { NamesExist func.old self.old }
        requires calls_fit { CallsFit ty func.old self.old look_up.old }
        ensures made { IfOk result (λ v. MakesAll variable ty
            (stage func.old self.old look_up.old) v (stage func.new self.new look_up.new)) }
        ensures keeps { StepKeeps variable ty func.old self.old func.new self.new }
        ensures tells { OnOk result (TellsMore func.old func.new look_up.old.zeros
            look_up.new.zeros) }
        ensures exists { IfOk result (λ v. v < length func.new.values) }
        ensures ends { StepEnds (UseIsFull ty) func.new result }
        ensures counts { StepCounts (◌<◌ variable) (finishes look_up.old.calls) func.old self.old
            func.new self.new result }
    {
        while let Some(call) = look_up.next_call() {
            self.make_call(func, variable, ty, call, passed, look_up)?;
        }
        Ok(look_up.take_result())
    }

    // Makes one call.
    #[inline(always)]
    fn make_call(
        &mut self,
        func: &mut Function,
        variable: Variable,
        ty: Type,
        call: Call,
        passed: &mut PassedBlocks,
        look_up: &mut LookUp,
    ) -> Result<(), BuildError>
        requires named { NamesExist func.old self.old }
        requires calls_fit { CallsFit ty func.old self.old (with_call call look_up.old) }
        ensures made { OnOk result (MakesCall variable ty (stage func.old self.old
            (with_call call look_up.old)) (stage func.new self.new look_up.new)) }
        ensures fits { OnOk result (CallsFit ty func.new self.new look_up.new) }
        ensures keeps { StepKeeps variable ty func.old self.old func.new self.new }
        ensures tells { OnOk result (TellsMore func.old func.new look_up.old.zeros
            look_up.new.zeros) }
        ensures ends { StepEnds (UseIsFull ty) func.new result }
        ensures stops { StepStops (2 * finishes (call ∷ [])) func.old self.old func.new self.new
            result }
    {
        match call {
            Call::UseVar(branch) => {
                func.law_consistent();
                let Some(block) = func.inst_block(branch) else {
                    unreachable!()
                };
                self.look_up_in(func, variable, ty, block, false, passed, look_up)
            }
            Call::FinishPredecessorsLookup(param, block) => {
                let predecessors = self.blocks.predecessors(block);
                finish_look_up(func, predecessors, param, block, look_up)
            }
        }
    }

    // Completes a parameter that waited in a block: looks its variable up in the predecessors.
    fn complete_parameter(
        &mut self,
        func: &mut Function,
        block: Block,
        waiting: Pending,
        passed: &mut PassedBlocks,
        look_up: &mut LookUp,
    ) -> Result<(), BuildError>
        requires named { NamesExist func.old self.old }
        requires param_exists { waiting.param < length func.old.values }
        requires idle { (look_up.old.calls ≡ []) × (look_up.old.results ≡ []) }
        ensures completes { OnOk result (CompletesParameter waiting.variable
            (value_at func.old waiting.param).ty waiting.param block
            (stage func.old self.old look_up.old) (stage func.new self.new look_up.new)) }
        ensures idle { OnOk result ((look_up.new.calls ≡ []) × (look_up.new.results ≡ [])) }
        ensures leaves { StepLeaves func.old self.old func.new self.new }
        ensures pools { StepPools ((value_at func.old waiting.param).ty ∷ []) func.old self.old
            func.new self.new }
        ensures tells { OnOk result (TellsMore func.old func.new look_up.old.zeros
            look_up.new.zeros) }
        ensures looks_once { (rest : List Pending) → ToComplete self.old block (waiting ∷ rest)
            → ToComplete self.new block rest }
        ensures ends { StepEnds (UseIsFull (value_at func.old waiting.param).ty) func.new result }
        ensures counts { StepCounts (◌<◌ waiting.variable) 1 func.old self.old func.new self.new
            result }
    {
        let Pending { variable, param } = waiting;
        let ty = func.value_type(param);
        self.begin_look_up(variable, param, block, look_up)?;
        let _value = self.make_calls(func, variable, ty, passed, look_up)?;
        Ok(())
    }

    /// Completes parameters that waited in a block, in order.
    pub(crate) fn complete_all(
        &mut self,
        func: &mut Function,
        block: Block,
        waiting: &[Pending],
        passed: &mut PassedBlocks,
        look_up: &mut LookUp,
    ) -> Result<(), BuildError>
        requires named { NamesExist func.old self.old }
        requires params_exist { (p : Pending) → Contains waiting.now p
            → p.param < length func.old.values }
        requires idle { (look_up.old.calls ≡ []) × (look_up.old.results ≡ []) }
        ensures completes { OnOk result (CompletesAll block waiting.now
            (stage func.old self.old look_up.old) (stage func.new self.new look_up.new)) }
        ensures leaves { StepLeaves func.old self.old func.new self.new }
        ensures pools { StepPools (types_of func.old waiting.now) func.old self.old func.new
            self.new }
        ensures tells { OnOk result (TellsMore func.old func.new look_up.old.zeros
            look_up.new.zeros) }
        ensures looks_once { ToComplete self.old block waiting.now → LooksOnce self.new }
        ensures ends { StepEnds (SealingIsFull (Contains
            (types_of func.old waiting.now))) func.new result }
        ensures counts { StepCounts (λ variables. AreBelow variables waiting.now)
            (length waiting.now) func.old self.old func.new self.new result }
    {
        for pending in waiting.iter() {
            self.complete_parameter(func, block, *pending, passed, look_up)?;
        }
        Ok(())
    }
}
