//! What is kept while a function is built, and used again for the next one.
ghost use Rattle.clif_builder.specs.Clear.{IsClear};
ghost use Rattle.std.specs.Prelude.{◌≡◌, ◌==◌, ◌≢◌, ◌↔◌, ◌<◌, ◌-◌, ◌^◌, ◌++◌, [], ◌∷◌, ℕ, List, IsTrue, length, OnOk, OnErr, IfOk, slice_index_or, slice_get, IfSome, None, true, false, ◌+◌, if◌then◌else◌, Contains};

use crate::error::FinalizeError;
use clif_ir::{BlockCall, Function};
use clif_regions::Callback;
use clif_spiller::SafepointSpiller;
use clif_ssa::{SSABuilder, Variable};
use clif_types::{Block, BuildError, EntityRef, EntitySet, Inst, Type, Value};
use std::alloc::Global;
use std::marker::Model;

/// How far a block has come.
#[derive(Clone, Copy, Debug, PartialEq, Eq)]
pub enum BlockStatus {
    /// Nothing was made in it.
    Empty,
    /// Something was made in it, and no terminator.
    Partial,
    /// A terminator was appended.
    Filled,
}

/// The status of each block, by its number. What is past the end is empty.
#[derive(Debug, Drop)]
pub struct StatusTable {
    statuses: Vec<BlockStatus>,
}

impl Model for StatusTable {
    ghost use Rattle.std.specs.Prelude.{List};
    ghost use Rattle.clif_builder.specs.declared.context.BlockStatus.{BlockStatus};

    ghost Value = { List BlockStatus };

    ghost view = { λ t. t.statuses.items };
}

impl StatusTable {
    /// No block.
    pub fn new(alloc: Global) -> Self
        ensures { result ≡ [] }
    {
        StatusTable {
            statuses: Vec::new(alloc),
        }
    }

    /// Forgets all blocks, and keeps the memory.
    pub fn clear(&mut self)
        ensures { self.new ≡ [] }
    {
        self.statuses.clear();
    }

    /// Whether no status was ever set.
    pub fn is_empty(&self) -> bool
        ensures { IsTrue result ↔ (self.now ≡ []) }
    {
        self.statuses.is_empty()
    }

    /// The status of a block.
    pub fn get(&self, block: Block) -> BlockStatus
        ensures { result ≡ slice_index_or self.now block BlockStatus.Empty }
    {
        match self.statuses.get(block.index()) {
            Some(status) => *status,
            None => BlockStatus::Empty,
        }
    }

    /// Sets the status of a block.
    ///
    /// # Errors
    ///
    /// `Memory`, where memory is refused. Each status is as it was then.
    pub fn set(&mut self, block: Block, status: BlockStatus) -> Result<(), BuildError>
        ensures ok { OnOk result ((b : ℕ) → slice_index_or self.new b BlockStatus.Empty ≡
            (if b == block then status else slice_index_or self.old b BlockStatus.Empty)) }
        ensures err { OnErr result ((b : ℕ) → slice_index_or self.new b BlockStatus.Empty ≡
            slice_index_or self.old b BlockStatus.Empty) }
        ensures only_memory { OnErr result (result ≡ Err BuildError.Memory) }
    {
        let missing = (block.index() + 1).saturating_sub(self.statuses.len());
        for _ in 0..missing {
            self.statuses.push(BlockStatus::Empty)?;
        }
        self.statuses[block.index()] = status;
        Ok(())
    }
}

/// What a context keeps of the function that is built: all but the callback for alias regions.
pub struct ContextParts {
    pub(crate) alloc: Global,
    pub(crate) ssa: SSABuilder,
    pub(crate) status: StatusTable,
    pub(crate) variables: Vec<Type>,
    // Those that a call used or assigned.
    touched: EntitySet<Variable>,
    // It keeps its memory from one function to the next, and each run begins by forgetting the last one.
    safepoints: SafepointSpiller,
}

// By hand: a derived one is proved anew at each way out of a function that holds such a value.
impl Drop for ContextParts {
    fn drop(self) {
        let ContextParts {
            alloc: _,
            ssa: _,
            status: _,
            variables: _,
            touched: _,
            safepoints: _,
        } = self;
    }
}

impl Model for ContextParts {
    ghost use Rattle.std.specs.Prelude.{length, ◌<◌, ◌^◌};
    ghost use Rattle.clif_builder.specs.Context.{ContextState, context_code};

    ghost Value = { ContextState };

    ghost coded = { context_code };

    ghost view = { λ c. record { ssa = c.ssa; status = c.status; variables = c.variables.items; touched = c.touched } };

    ghost invariant = { λ c. length c.variables.items < 2 ^ 32 };
}

impl ContextParts {
    ghost use Rattle.clif_builder.specs.Context.{Begins, SameVariables, SetsStatus, TouchesVariable, empty_context, is_untouched, status_of};
    ghost use Rattle.clif_builder.specs.Construction.{IsUse, IsSealing, IsSealingAll, IsDeclared, SealsAlone};
    ghost use Rattle.clif_ir.specs.Body.{Body, empty_function};
    ghost use Rattle.clif_instructions.specs.Edges.{targets};
    ghost use Rattle.clif_instructions.specs.Members.{Stands};
    ghost use Rattle.clif_ssa.specs.Moving.{MovesBranch};
    ghost use Rattle.clif_records.specs.Stacks.{no_look_up};
    ghost use Rattle.clif_records.specs.Tracking.{recorded_of, with_binding, with_mark, with_recorded};
    ghost use Rattle.clif_builder.specs.Tracking.{RecordedFits, with_tracking};
    ghost use Rattle.clif_builder.specs.Ending.{TellsSpill};
    ghost use Rattle.clif_spiller.specs.Regions.{SpillsAndAsks};
    ghost use Rattle.clif_ssa.specs.LookUp.{UsesVariable};
    ghost use Rattle.clif_ssa.specs.Running.{stage, found};
    ghost use Rattle.clif_ssa.specs.Sealing.{SealsBelow, SealsByLookUp};
    ghost use Rattle.clif_ssa.specs.Ssa.{record_of, sealed_of, predecessors_of, completed, HasMore, IsLocal, NamesExist, Records, RecordsStay, SameBlocks, SamePredecessors, SameRecords, Seals, Waits, Zeroes};
    ghost use Rattle.clif_ssa.specs.Zeros.{steps_before};
    ghost use Rattle.clif_ssa.specs.Pools.{types_of, MayPool, MayPoolAll, MayPoolWaiting, SealingIsFull, UseIsFull, WaitsWithType};
    ghost use Rattle.clif_ssa.specs.Structure.{LooksOnce};
    ghost use Rattle.clif_ssa.specs.Constructs.{OnlyConstructs};
    ghost use Rattle.clif_ssa.specs.Counted.{StepCounts, WaitsBelow};
    ghost use Rattle.clif_records.specs.Tables.{is_yes, pending_of};

    /// Nothing is kept yet.
    pub fn new(alloc: Global) -> Self
        ensures { result ≡ empty_context }
    {
        ContextParts {
            alloc,
            ssa: SSABuilder::new(alloc),
            status: StatusTable::new(alloc),
            variables: Vec::new(alloc),
            touched: EntitySet::new(alloc),
            safepoints: SafepointSpiller::new(alloc),
        }
    }

    /// Forgets everything. It keeps the room of blocks and variables, and gives back the memory of the records and of the sets.
    pub(crate) fn clear(&mut self)
        ensures { self.new ≡ empty_context }
    {
        self.ssa.clear();
        self.status.clear();
        self.variables.clear();
        self.touched = EntitySet::new(self.alloc);
    }

    /// Whether nothing is kept.
    pub fn is_empty(&self) -> bool
        ensures { IsTrue result ↔ (self.now ≡ empty_context) }
    {
        self.ssa.is_empty()
            && self.status.is_empty()
            && self.variables.is_empty()
            && self.touched.is_empty()
    }

    /// Says how far a block has come.
    #[inline(always)]
    pub(crate) fn set_status(&mut self, block: Block, status: BlockStatus) -> Result<(), BuildError>
        ensures ok { OnOk result (SetsStatus self.old self.new block status) }
        ensures ssa { self.new.ssa ≡ self.old.ssa }
        ensures variables { SameVariables self.old self.new }
        ensures only_memory { OnErr result (result ≡ Err BuildError.Memory) }
    {
        self.status.set(block, status)
    }

    #[tactic(auto, using(crate::proofs::Declaring::declare_rules))]
    /// Makes a block known.
    #[inline(always)]
    pub(crate) fn declare_block(&mut self, block: Block) -> Result<(), BuildError>
        ensures records { self.new.ssa.records ≡ self.old.ssa.records }
        ensures blocks { SameBlocks self.old.ssa self.new.ssa }
        ensures predecessors { SamePredecessors self.old.ssa self.new.ssa }
        ensures names { (f : Body) → NamesExist f self.old.ssa → NamesExist f self.new.ssa }
        ensures tracking { self.new.ssa.tracking ≡ self.old.ssa.tracking }
        ensures status { self.new.status ≡ self.old.status }
        ensures variables { SameVariables self.old self.new }
        ensures looks_once { LooksOnce self.old.ssa → LooksOnce self.new.ssa }
        ensures known { OnOk result (block < length self.new.ssa.blocks) }
        ensures only_memory { OnErr result (result ≡ Err BuildError.Memory) }
    {
        self.ssa.declare_block(block)
    }

    /// Makes a variable of this type.
    pub(crate) fn declare_var(&mut self, ty: Type) -> Result<Variable, BuildError>
        ensures ok { OnOk result (self.new ≡ record self.old
            { variables = self.old.variables ++ ty ∷ [] }) }
        ensures ssa { self.new.ssa ≡ self.old.ssa }
        ensures number { IfOk result (λ v. v ≡ length self.old.variables) }
        ensures full { result ≡ Err BuildError.Full → length self.old.variables ≡ 2 ^ 32 - 1 }
        ensures never_failed { result ≢ Err BuildError.Failed }
        ensures err { OnErr result (self.new ≡ self.old) }
    {
        let number = self.variables.len();
        if number >= 0xffff_ffff {
            return Err(BuildError::Full);
        }
        self.variables.push(ty)?;
        Ok(Variable::new(number))
    }

    /// The type of a variable, if it is declared.
    pub(crate) fn var_type(&self, variable: Variable) -> Option<Type>
        ensures { result ≡ slice_get self.now.variables variable }
    {
        self.variables.get(variable.index()).copied()
    }

    /// Whether a variable is declared, and no call used or assigned it.
    pub(crate) fn is_untouched(&self, variable: Variable) -> bool
        ensures { result ≡ is_untouched self.now variable }
    {
        self.var_type(variable).is_some() && !self.touched.contains(variable)
    }

    /// Marks a variable. After an error nothing has changed.
    pub(crate) fn mark_var(&mut self, variable: Variable) -> Result<(), BuildError>
        ensures ok { OnOk result (self.new ≡ with_tracking self.old
            (with_mark self.old.ssa.tracking variable)) }
        ensures err { OnErr result (self.new ≡ self.old) }
        ensures only_memory { OnErr result (result ≡ Err BuildError.Memory) }
    {
        self.ssa.mark_var_needs_stack_map(variable)
    }

    /// Records a value for stack maps. After an error nothing has changed.
    pub(crate) fn record_value(&mut self, value: Value) -> Result<(), BuildError>
        ensures ok { OnOk result (self.new ≡ with_tracking self.old
            (with_recorded self.old.ssa.tracking value)) }
        ensures err { OnErr result (self.new ≡ self.old) }
        ensures only_memory { OnErr result (result ≡ Err BuildError.Memory) }
    {
        self.ssa.stack_map_values_mut().insert(value)?;
        Ok(())
    }

    /// Spills the recorded values that are live across calls that are reached, and makes stack maps. `pointer` is the type of
    /// addresses; `region` is asked for the alias region of each access, if there is one. After an error the function is empty:
    /// what was spilled so far is of no use.
    pub(crate) fn spill(
        &mut self,
        func: &mut Function,
        pointer: Type,
        region: &Option<Callback>,
    ) -> Result<(), FinalizeError>
        requires { RecordedFits func.old (recorded_of self.old.ssa.tracking) }
        ensures answer { TellsSpill result }
        ensures spilled { OnOk result (SpillsAndAsks func.old
            (recorded_of self.old.ssa.tracking) pointer
            region.now (λ c. post (c.ask.vtable, c.ask.value)) func.new) }
        ensures emptied { OnErr result (func.new ≡ empty_function) }
        ensures context { self.new ≡ self.old }
    {
        match self
            .safepoints
            .run(func, self.ssa.stack_map_values(), pointer, region)
        {
            Ok(()) => Ok(()),
            Err(error) => {
                *func = Function::new(self.alloc);
                Err(FinalizeError::from(error))
            }
        }
    }

    #[tactic(auto, using(crate::proofs::Named::names_rules))]
    /// Records that a variable has a value in a block from here on. Stack maps need the value, if the
    /// variable is marked.
    #[inline(always)]
    pub(crate) fn def_var(
        &mut self,
        variable: Variable,
        value: Value,
        block: Block,
    ) -> Result<(), BuildError>
        ensures ok { OnOk result (Records self.old.ssa self.new.ssa variable block value) }
        ensures tracking { OnOk result (self.new.ssa.tracking ≡ with_binding self.old.ssa.tracking
            variable value) }
        ensures blocks { self.new.ssa.blocks ≡ self.old.ssa.blocks }
        ensures names { (f : Body) → value < length f.values → NamesExist f self.old.ssa
            → NamesExist f self.new.ssa }
        ensures looks_once { LooksOnce self.old.ssa → LooksOnce self.new.ssa }
        ensures status { self.new.status ≡ self.old.status }
        ensures variables { self.new.variables ≡ self.old.variables }
        ensures touches { OnOk result (TouchesVariable self.old self.new variable) }
        ensures only_memory { OnErr result (result ≡ Err BuildError.Memory) }
    {
        self.touched.insert(variable)?;
        self.ssa.def_var(variable, value, block)
    }

    #[tactic(auto, using(crate::proofs::Statuses::status_rules))]
    /// The value of a variable of type `ty` in a block. Blocks that get a zero are begun.
    #[inline(always)]
    pub(crate) fn use_var(
        &mut self,
        func: &mut Function,
        variable: Variable,
        ty: Type,
        block: Block,
    ) -> Result<Value, BuildError>
        requires exists { block < length func.old.blocks }
        requires named { NamesExist func.old self.old.ssa }
        ensures known { IfSome (record_of self.old.ssa variable block) (λ v. OnOk result
            ((func.new ≡ func.old) × (self.new.ssa ≡ self.old.ssa)) × IfOk result (λ w. w ≡ v)) }
        ensures waits { record_of self.old.ssa variable block ≡ None
            → is_yes (sealed_of self.old.ssa block) ≡ false
            → OnOk result (Waits self.old.ssa self.new.ssa func.old func.new variable ty block)
            × IfOk result (λ w. w ≡ length func.old.values) }
        ensures zero { record_of self.old.ssa variable block ≡ None
            → is_yes (sealed_of self.old.ssa block) ≡ true → predecessors_of self.old.ssa block ≡ []
            → OnOk result (Zeroes self.old.ssa self.new.ssa func.old func.new variable ty block)
            × IfOk result (λ w. w ≡ length func.old.values + 1 + steps_before ty) }
        ensures is_use { IfOk result (λ w. (told : List ℕ)
            × IsUse func.old self.old.ssa func.new self.new.ssa variable ty block w told
            × Begins self.old self.new told) }
        ensures names { NamesExist func.new self.new.ssa }
        ensures exists { IfOk result (λ w. w < length func.new.values) }
        ensures looks_once { LooksOnce self.old.ssa → LooksOnce self.new.ssa }
        ensures more { HasMore func.old func.new }
        ensures variables { self.new.variables ≡ self.old.variables }
        ensures touches { OnOk result (TouchesVariable self.old self.new variable) }
        ensures constructs { OnlyConstructs func.old func.new }
        ensures counts { StepCounts (◌<◌ variable) 0 func.old self.old.ssa func.new self.new.ssa
            result }
        ensures pools { MayPool ty func.old.tables func.new.tables }
        ensures full { result ≡ Err BuildError.Full → UseIsFull ty func.new }
        ensures never_failed { result ≢ Err BuildError.Failed }
    {
        self.touched.insert(variable)?;
        let (value, side_effects) = self.ssa.use_var(func, variable, ty, block)?;
        self.begin_all(side_effects.instructions_added_to_blocks.as_slice())?;
        Ok(value)
    }

    #[tactic(auto, using(crate::proofs::Statuses::status_rules))]
    /// Seals a block. Blocks that get a zero are begun.
    pub(crate) fn seal_block(&mut self, block: Block, func: &mut Function) -> Result<(), BuildError>
        requires named { NamesExist func.old self.old.ssa }
        ensures sealed { predecessors_of self.old.ssa block ≡ []
            → OnOk result (Seals self.old.ssa self.new.ssa block) }
        ensures records { predecessors_of self.old.ssa block ≡ []
            → SameRecords self.old.ssa self.new.ssa }
        ensures function { predecessors_of self.old.ssa block ≡ []
            → OnOk result (func.new ≡ completed func.old (pending_of
            (sealed_of self.old.ssa block))) }
        ensures is_sealing { OnOk result ((told : List ℕ)
            × IsSealing func.old self.old.ssa func.new self.new.ssa block told
            × Begins self.old self.new told) }
        ensures alone { pending_of (sealed_of self.old.ssa block) ≡ []
            → OnOk result (SealsAlone func.old self.old.ssa func.new self.new.ssa block) }
        ensures names { NamesExist func.new self.new.ssa }
        ensures looks_once { LooksOnce self.old.ssa → LooksOnce self.new.ssa }
        ensures more { HasMore func.old func.new }
        ensures stay { RecordsStay self.old.ssa self.new.ssa }
        ensures variables { SameVariables self.old self.new }
        ensures constructs { OnlyConstructs func.old func.new }
        ensures counts { block < length func.old.blocks → StepCounts
            (λ variables. WaitsBelow variables self.old.ssa) 0 func.old self.old.ssa func.new
            self.new.ssa result }
        ensures pools { MayPoolAll (types_of func.old (pending_of
            (sealed_of self.old.ssa block))) func.old.tables func.new.tables }
        ensures full { result ≡ Err BuildError.Full
            → SealingIsFull (Contains (types_of func.old (pending_of
            (sealed_of self.old.ssa block)))) func.new }
        ensures never_full { pending_of (sealed_of self.old.ssa block) ≡ []
            → result ≢ Err BuildError.Full }
        ensures never_failed { result ≢ Err BuildError.Failed }
    {
        let side_effects = self.ssa.seal_block(block, func)?;
        self.begin_all(side_effects.instructions_added_to_blocks.as_slice())
    }

    #[tactic(auto, using(crate::proofs::Statuses::status_rules))]
    /// Seals each block of the function that isn't sealed, by rising number. Blocks that get a zero are begun.
    pub(crate) fn seal_all_blocks(&mut self, func: &mut Function) -> Result<(), BuildError>
        requires named { NamesExist func.old self.old.ssa }
        ensures is_sealing { OnOk result ((told : List ℕ)
            × IsSealingAll func.old self.old.ssa func.new self.new.ssa told
            × Begins self.old self.new told) }
        ensures names { NamesExist func.new self.new.ssa }
        ensures looks_once { LooksOnce self.old.ssa → LooksOnce self.new.ssa }
        ensures more { HasMore func.old func.new }
        ensures stay { RecordsStay self.old.ssa self.new.ssa }
        ensures variables { SameVariables self.old self.new }
        ensures constructs { OnlyConstructs func.old func.new }
        ensures counts { StepCounts (λ variables. WaitsBelow variables self.old.ssa) 0 func.old
            self.old.ssa func.new self.new.ssa result }
        ensures pools { MayPoolWaiting func.old self.old.ssa func.new.tables }
        ensures full { result ≡ Err BuildError.Full
            → SealingIsFull (WaitsWithType func.old self.old.ssa) func.new }
        ensures never_failed { result ≢ Err BuildError.Failed }
    {
        let side_effects = self.ssa.seal_all_blocks(func)?;
        self.begin_all(side_effects.instructions_added_to_blocks.as_slice())
    }

    /// Lets each edge of a branch to one block go to another one, both of which are unsealed.
    pub(crate) fn move_branch(
        &mut self,
        inst: Inst,
        from: Block,
        to: Block,
        func: &mut Function,
    ) -> Result<(), BuildError>
        requires inst_exists { inst < length func.old.insts }
        requires target_exists { to < length func.old.blocks }
        requires from_unsealed { is_yes (sealed_of self.old.ssa from) ≡ false }
        requires to_unsealed { is_yes (sealed_of self.old.ssa to) ≡ false }
        requires leads { Stands inst (predecessors_of self.old.ssa from) }
        ensures moved { OnOk result (MovesBranch func.old self.old.ssa func.new self.new.ssa inst
            from to) }
        ensures err { OnErr result ((func.new ≡ func.old)
            × SamePredecessors self.old.ssa self.new.ssa) }
        ensures records { self.new.ssa.records ≡ self.old.ssa.records }
        ensures tracking { self.new.ssa.tracking ≡ self.old.ssa.tracking }
        ensures blocks { SameBlocks self.old.ssa self.new.ssa }
        ensures status { self.new.status ≡ self.old.status }
        ensures variables { SameVariables self.old self.new }
        ensures looks_once { LooksOnce self.old.ssa → LooksOnce self.new.ssa }
        ensures only_memory { OnErr result (result ≡ Err BuildError.Memory) }
    {
        self.ssa.move_branch(func, inst, from, to)
    }

    #[tactic(auto, using(crate::proofs::Declaring::declare_rules))]
    /// Says that a new branch with these edges leads to the target of each, once.
    pub(crate) fn declare_successors(
        &mut self,
        inst: Inst,
        edges: &[BlockCall],
    ) -> Result<(), BuildError>
        requires unsealed { (b : ℕ) → Contains (targets edges.now) b
            → is_yes (sealed_of self.old.ssa b) ≡ false }
        requires new_branch { (b : ℕ) → Contains (predecessors_of self.old.ssa b) inst → ⊥ }
        ensures ok { OnOk result (IsDeclared self.old.ssa inst (targets edges.now) self.new.ssa) }
        ensures none { edges.now ≡ [] → self.new.ssa ≡ self.old.ssa }
        ensures names { (f : Body) → inst < length f.insts → NamesExist f self.old.ssa
            → NamesExist f self.new.ssa }
        ensures looks_once { LooksOnce self.old.ssa → LooksOnce self.new.ssa }
        ensures status { self.new.status ≡ self.old.status }
        ensures variables { SameVariables self.old self.new }
        ensures only_memory { OnErr result (result ≡ Err BuildError.Memory) }
    {
        for edge in edges.iter() {
            if !self.ssa.is_last_predecessor(edge.block, inst) {
                self.ssa.declare_block_predecessor(edge.block, inst)?;
            }
        }
        Ok(())
    }

    #[tactic(auto, using(crate::proofs::Statuses::status_rules))]
    // Says of each of these blocks in which nothing was made that something was.
    #[inline(always)]
    fn begin_all(&mut self, blocks: &[Block]) -> Result<(), BuildError>
        ensures status { OnOk result (Begins self.old self.new blocks.now) }
        ensures ssa { self.new.ssa ≡ self.old.ssa }
        ensures variables { SameVariables self.old self.new }
        ensures only_memory { OnErr result (result ≡ Err BuildError.Memory) }
    {
        for block in blocks.iter() {
            if self.status.get(*block) == BlockStatus::Empty {
                self.set_status(*block, BlockStatus::Partial)?;
            }
        }
        Ok(())
    }
}

/// What is kept while a function is built, and used again for the next one.
///
/// It is cleared by `finalize`, and keeps its memory.
pub struct FunctionBuilderContext<R = Callback> {
    pub(crate) parts: ContextParts,
    // What is asked for the alias regions of accesses to spilled values, if the caller gave it.
    pub(crate) region: Option<R>,
}

// By hand, as that of its parts.
impl<R: Drop> Drop for FunctionBuilderContext<R> {
    fn drop(self) {
        let FunctionBuilderContext {
            parts: _,
            region: _,
        } = self;
    }
}

impl FunctionBuilderContext {
    /// A context for a first function.
    pub fn new(alloc: Global) -> Self
        ensures { IsClear result }
    {
        FunctionBuilderContext {
            parts: ContextParts::new(alloc),
            region: None,
        }
    }

    /// Whether the context is as a new one. A callback that a builder was given and no `finalize` has dropped counts, too.
    pub fn is_empty(&self) -> bool
        ensures { IsTrue result ↔ IsClear self.now }
    {
        self.parts.is_empty() && self.region.is_none()
    }

    /// Forgets everything, the callback too.
    pub(crate) fn clear(&mut self)
        ensures { IsClear self.new }
    {
        self.parts.clear();
        self.region = None;
    }
}
