//! What the construction knows, and the changes that a look-up makes of it.
ghost use Rattle.std.specs.Prelude.{◌≡◌, ◌≢◌, ◌<◌, ◌+◌, ◌*◌, ◌↔◌, ◌++◌, ◌⊎◌, [], IsTrue, length, Some, None, true, false, Contains, OnOk, OnErr, IfOk, IfSome};
ghost use Rattle.clif_ir.specs.Changes.{with_param};
ghost use Rattle.clif_ssa.specs.Constructs.{OnlyConstructs, TellsMore, TellsZeros};
ghost use Rattle.clif_records.specs.Pages.{HasNoPage, page_number};
ghost use Rattle.clif_records.specs.Tables.{is_yes};
ghost use Rattle.clif_ssa.specs.Ssa.{no_state, MayBind, record_of, sealed_of, predecessors_of, completed, completing_blocks, CountsEach, HasMore, Named, Records, KnowsNoMore, SameRecords, SameBlocks, SamePredecessors, SameLookups, CountsLookup};
ghost use Rattle.clif_ssa.specs.Counted.{AddsAtMost, StepCounts, StepStops};
ghost use Rattle.clif_ssa.specs.Moving.{LeadsOnce};
ghost use Rattle.clif_ssa.specs.Limits.{ConstructionIsFull};
ghost use Rattle.clif_records.specs.declared.tables.Pending.{Pending};
ghost use Rattle.clif_ssa.specs.Structure.{LooksOnce};
ghost use Rattle.clif_ssa.specs.Pools.{types_of, MayPoolAll, SealingIsFull, UseIsFull};
ghost use Rattle.clif_ssa.specs.Running.{stage, Got, ToComplete};
ghost use Rattle.clif_ssa.specs.Steps.{StepKeeps, StepEnds, UsesLocally};
ghost use Rattle.clif_records.specs.Stacks.{calls_for};
ghost use Rattle.clif_records.specs.Tracking.{with_binding};
ghost use Rattle.clif_ssa.specs.LookUp.{single_predecessor, WalksTo};

use crate::zeros::replace_by_zero;
use clif_ir::Function;
use clif_records::look_up::LookUp;
use clif_records::passed::PassedBlocks;
use clif_records::tables::{BlockTable, Pending, VariableTable};
use clif_records::tracking::Tracking;
use clif_records::{SideEffects, Variable};
use clif_types::{Block, BuildError, Inst, Type, Value};
use std::alloc::Global;
use std::marker::Model;

/// Where a walk ended.
#[derive(Clone, Copy, Debug)]
pub struct Reached {
    pub block: Block,
    /// The record of the variable there.
    pub recorded: Option<Value>,
}

/// What the construction knows of each variable in each block, and of each block.
#[derive(Debug)]
pub struct SsaTables {
    pub(crate) variables: VariableTable,
    pub(crate) blocks: BlockTable,
    pub(crate) tracking: Tracking,
}

// By hand: a derived one is proved anew at each way out of a function that holds such a value.
impl Drop for SsaTables {
    fn drop(self) {
        let SsaTables {
            variables: _,
            blocks: _,
            tracking: _,
        } = self;
    }
}

impl Model for SsaTables {
    ghost use Rattle.clif_ssa.specs.Ssa.{SsaState, ssa_state_code};

    ghost Value = { SsaState };

    ghost coded = { ssa_state_code };

    ghost view = { λ s. record { records = s.variables; blocks = s.blocks; tracking = s.tracking } };
}

impl SsaTables {
    /// Nothing is known.
    pub(crate) fn new(alloc: Global) -> Self
        ensures { result ≡ no_state }
    {
        SsaTables {
            variables: VariableTable::new(alloc),
            blocks: BlockTable::new(alloc),
            tracking: Tracking::new(alloc),
        }
    }

    /// Forgets everything. It keeps the room of the blocks and of the records, and gives back that of the sets.
    pub(crate) fn clear(&mut self, alloc: Global)
        ensures { self.new ≡ no_state }
    {
        self.variables.clear();
        self.blocks.clear();
        self.tracking = Tracking::new(alloc);
    }

    /// Whether nothing is known.
    pub(crate) fn is_empty(&self) -> bool
        ensures { IsTrue result ↔ (self.now ≡ no_state) }
    {
        self.variables.is_empty() && self.blocks.is_empty() && self.tracking.is_empty()
    }

    /// Puts a branch behind those that lead to a block, unless it is one of them.
    pub(crate) fn lead_once(&mut self, block: Block, branch: Inst) -> Result<(), BuildError>
        ensures ok { OnOk result (LeadsOnce self.old self.new block branch) }
        ensures err { OnErr result (SamePredecessors self.old self.new) }
        ensures records { self.new.records ≡ self.old.records }
        ensures blocks { SameBlocks self.old self.new }
        ensures tracking { self.new.tracking ≡ self.old.tracking }
        ensures no_more { KnowsNoMore self.old self.new (block + 1) }
        ensures only_memory { OnErr result (result ≡ Err BuildError.Memory) }
    {
        if self.blocks.predecessors(block).contains(&branch) {
            return Ok(());
        }
        self.blocks.declare_predecessor(block, branch)
    }

    /// Whether a block is unsealed or nothing leads to it.
    pub(crate) fn is_local(&self, block: Block) -> bool
        ensures yes { IsTrue result → is_yes (sealed_of self.now block) ≡ true
            → predecessors_of self.now block ≡ [] }
        ensures no { result ≡ false → (is_yes (sealed_of self.now block) ≡ true)
            × (predecessors_of self.now block ≢ []) }
    {
        !self.blocks.is_sealed(block) || self.blocks.predecessors(block).is_empty()
    }

    /// Records a value for a variable in a block, and for stack maps, if the variable is marked. After an
    /// error each record is as it was, and stack maps may need the value.
    #[inline(always)]
    pub(crate) fn record(
        &mut self,
        variable: Variable,
        block: Block,
        value: Value,
    ) -> Result<(), BuildError>
        ensures ok { OnOk result (Records self.old self.new variable block value) }
        ensures err { OnErr result (SameRecords self.old self.new) }
        ensures lookups { SameLookups self.old self.new }
        ensures blocks { self.new.blocks ≡ self.old.blocks }
        ensures tracking { OnOk result (self.new.tracking ≡ with_binding self.old.tracking variable
            value) }
        ensures refused { OnErr result (MayBind self.old self.new variable value) }
        ensures only_memory { OnErr result (result ≡ Err BuildError.Memory) }
    {
        self.tracking.bind(variable, value)?;
        self.variables.set(variable, block, value)
    }

    /// The block from which alone control comes to a sealed block, by one branch.
    pub(crate) fn single_predecessor(&self, func: &Function, block: Block) -> Option<Block>
        requires { Named func.now self.now }
        ensures exact { result ≡ single_predecessor func.now self.now block }
        ensures exists { IfSome result (λ b. b < length func.now.blocks) }
        ensures known { result ≢ None → block < length self.now.blocks }
    {
        func.law_consistent();
        match self.blocks.sealed_predecessors(block) {
            [branch] => func.inst_block(*branch),
            _ => None,
        }
    }

    #[tactic(auto, using(crate::proofs::Walks::walk_rules))]
    /// Walks from a block along single predecessors, as long as the variable isn't recorded and no block
    /// comes again, and answers the block that is reached. `passed` holds the blocks passed then. `has_no_page` tells
    /// whether the variable is known to have no page with a cell of the first block. The only error is `Memory`.
    #[inline(always)]
    pub(crate) fn walk(
        &self,
        func: &Function,
        variable: Variable,
        block: Block,
        has_no_page: bool,
        passed: &mut PassedBlocks,
    ) -> Result<Reached, BuildError>
        requires exists { block < length func.now.blocks }
        requires named { Named func.now self.now }
        requires no_page { has_no_page ≡ true
            → HasNoPage self.now.records variable (page_number block) }
        ensures ok { IfOk result
            (λ r. WalksTo func.now self.now variable block passed.new r.block) }
        ensures exists { IfOk result (λ r. r.block < length func.now.blocks) }
        ensures recorded { IfOk result (λ r. r.recorded ≡ record_of self.now variable r.block) }
        ensures only_memory { OnErr result (result ≡ Err BuildError.Memory) }
    {
        passed.clear();
        let mut reached = block;
        let mut at_hand = self
            .variables
            .page_unless_none(variable, reached, has_no_page);
        let mut recorded = self.variables.get_beside(variable, reached, &mut at_hand);
        while recorded.is_none() {
            let Some(before) = self.single_predecessor(func, reached) else {
                break;
            };
            if passed.contains(reached) {
                break;
            }
            passed.push(reached)?;
            reached = before;
            recorded = self.variables.get_beside(variable, reached, &mut at_hand);
        }
        Ok(Reached {
            block: reached,
            recorded,
        })
    }

    /// Begins the look-up of a variable in the predecessors of a block, for a parameter of it.
    #[inline(always)]
    pub(crate) fn begin_look_up(
        &mut self,
        variable: Variable,
        param: Value,
        block: Block,
        look_up: &mut LookUp,
    ) -> Result<(), BuildError>
        ensures counted { OnOk result (CountsLookup self.old self.new variable block) }
        ensures counts { SameLookups self.old self.new
            ⊎ CountsLookup self.old self.new variable block }
        ensures records { SameRecords self.old self.new }
        ensures blocks { self.new.blocks ≡ self.old.blocks }
        ensures tracking { self.new.tracking ≡ self.old.tracking }
        ensures look_up { OnOk result (look_up.new ≡ record look_up.old {
          calls = calls_for
              (predecessors_of self.old block) param block ++ look_up.old.calls;
        }) }
        ensures only_memory { OnErr result (result ≡ Err BuildError.Memory) }
    {
        self.variables.count_lookup(variable, block)?;
        look_up.begin(self.blocks.predecessors(block), param, block)
    }

    // Appends a parameter for a variable to a block that doesn't record it, and records it.
    #[inline(always)]
    fn new_parameter(
        &mut self,
        func: &mut Function,
        variable: Variable,
        ty: Type,
        block: Block,
    ) -> Result<Value, BuildError>
        requires exists { block < length func.old.blocks }
        requires unrecorded { record_of self.old variable block ≡ None }
        ensures number { IfOk result (λ v. v ≡ length func.old.values) }
        ensures function { OnOk result (func.new ≡ with_param func.old block ty) }
        ensures records { OnOk result (Records self.old self.new variable block
            (length func.old.values)) }
        ensures tracking { OnOk result (self.new.tracking ≡ with_binding self.old.tracking variable
            (length func.old.values)) }
        ensures blocks { self.new.blocks ≡ self.old.blocks }
        ensures lookups { SameLookups self.old self.new }
        ensures keeps { StepKeeps variable ty func.old self.old func.new self.new }
        ensures ends { StepEnds (UseIsFull ty) func.new result }
        ensures stops { StepStops 0 func.old self.old func.new self.new result }
    {
        let param = func.append_block_param(block, ty)?;
        self.record(variable, block, param)?;
        Ok(param)
    }

    /// The value of a variable that isn't recorded in a block which is unsealed or has no predecessors.
    pub(crate) fn use_locally(
        &mut self,
        alloc: Global,
        func: &mut Function,
        variable: Variable,
        ty: Type,
        block: Block,
    ) -> Result<(Value, SideEffects), BuildError>
        requires exists { block < length func.old.blocks }
        requires unrecorded { record_of self.old variable block ≡ None }
        ensures used { UsesLocally variable ty block func.old self.old func.new self.new result }
        ensures keeps { StepKeeps variable ty func.old self.old func.new self.new }
        ensures ends { StepEnds (UseIsFull ty) func.new result }
        ensures counts { StepCounts (◌<◌ variable) 0 func.old self.old func.new self.new result }
    {
        let param = self.new_parameter(func, variable, ty, block)?;
        let mut side_effects = SideEffects::new(alloc);
        if self.blocks.is_sealed(block) {
            self.variables.count_lookup(variable, block)?;
            let zero = replace_by_zero(func, param, &mut side_effects)?;
            return Ok((zero, side_effects));
        }
        self.blocks.wait(block, variable, param)?;
        Ok((param, side_effects))
    }

    /// Completes parameters that waited in a block to which nothing leads, in order.
    pub(crate) fn complete_locally(
        &mut self,
        alloc: Global,
        func: &mut Function,
        block: Block,
        waiting: &[Pending],
    ) -> Result<SideEffects, BuildError>
        ensures function { OnOk result (func.new ≡ completed func.old waiting.now) }
        ensures told { IfOk result (λ r. r.instructions_added_to_blocks.items ≡ completing_blocks
            func.old waiting.now) }
        ensures records { SameRecords self.old self.new }
        ensures tracking { self.new.tracking ≡ self.old.tracking }
        ensures counted { OnOk result (CountsEach self.old self.new block waiting.now) }
        ensures blocks { self.new.blocks ≡ self.old.blocks }
        ensures looks_once { ToComplete self.old block waiting.now → LooksOnce self.new }
        ensures more { HasMore func.old func.new }
        ensures constructs { OnlyConstructs func.old func.new }
        ensures tells { IfOk result (λ r. TellsZeros func.old func.new
            r.instructions_added_to_blocks.items) }
        ensures at_most { AddsAtMost (2 * length waiting.now) func.old func.new }
        ensures full { result ≡ Err BuildError.Full → ConstructionIsFull func.new }
        ensures pools { ((p : Pending) → Contains waiting.now p → p.param < length func.old.values)
            → MayPoolAll (types_of func.old waiting.now) func.old.tables func.new.tables }
        ensures full_waiting { ((p : Pending) → Contains waiting.now p
            → p.param < length func.old.values) → result ≡ Err BuildError.Full
            → SealingIsFull (Contains (types_of func.old waiting.now)) func.new }
        ensures never_failed { result ≢ Err BuildError.Failed }
    {
        let mut side_effects = SideEffects::new(alloc);
        for pending in waiting.iter() {
            let Pending { variable, param } = *pending;
            self.variables.count_lookup(variable, block)?;
            replace_by_zero(func, param, &mut side_effects)?;
        }
        Ok(side_effects)
    }

    /// Appends a parameter for a variable to a block that doesn't record it, and records it. In an
    /// unsealed block it waits, and is a result; in a sealed one the look-up in its predecessors begins.
    pub(crate) fn add_parameter(
        &mut self,
        func: &mut Function,
        variable: Variable,
        ty: Type,
        block: Block,
        look_up: &mut LookUp,
    ) -> Result<Value, BuildError>
        requires exists { block < length func.old.blocks }
        requires unrecorded { record_of self.old variable block ≡ None }
        ensures got { IfOk result (λ v. Got variable ty block v
            (stage func.old self.old look_up.old) (stage func.new self.new look_up.new)) }
        ensures keeps { StepKeeps variable ty func.old self.old func.new self.new }
        ensures tells { OnOk result (TellsMore func.old func.new look_up.old.zeros
            look_up.new.zeros) }
        ensures ends { StepEnds (UseIsFull ty) func.new result }
        ensures stops { StepStops 0 func.old self.old func.new self.new result }
    {
        let param = self.new_parameter(func, variable, ty, block)?;
        if self.blocks.is_sealed(block) {
            self.begin_look_up(variable, param, block, look_up)?;
            return Ok(param);
        }
        look_up.push_result(param)?;
        self.blocks.wait(block, variable, param)?;
        Ok(param)
    }

    /// The record of a variable in a block, which is a result then, or where there is none a new parameter
    /// of the block.
    #[inline(always)]
    pub(crate) fn record_or_parameter(
        &mut self,
        func: &mut Function,
        variable: Variable,
        ty: Type,
        block: Block,
        recorded: Option<Value>,
        look_up: &mut LookUp,
    ) -> Result<Value, BuildError>
        requires exists { block < length func.old.blocks }
        requires at_hand { recorded ≡ record_of self.old variable block }
        ensures got { IfOk result (λ v. Got variable ty block v
            (stage func.old self.old look_up.old) (stage func.new self.new look_up.new)) }
        ensures keeps { StepKeeps variable ty func.old self.old func.new self.new }
        ensures tells { OnOk result (TellsMore func.old func.new look_up.old.zeros
            look_up.new.zeros) }
        ensures ends { StepEnds (UseIsFull ty) func.new result }
        ensures stops { StepStops 0 func.old self.old func.new self.new result }
    {
        if let Some(value) = recorded {
            look_up.push_result(value)?;
            return Ok(value);
        }
        self.add_parameter(func, variable, ty, block, look_up)
    }
}
