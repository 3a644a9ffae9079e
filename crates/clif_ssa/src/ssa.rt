//! The builder of SSA form.
ghost use Rattle.std.specs.Prelude.{◌≡◌, ◌≢◌, ◌<◌, ◌≤◌, ◌==◌, ◌↔◌, ◌⊎◌, [], ◌∷◌, ℕ, Bool, IsTrue, Some, None, true, false, length, OnOk, OnErr, IfOk, IfSome, Contains, ◌+◌, ◌-◌, slice_get};
ghost use Rattle.std.specs.FinMap as map;
ghost use Rattle.clif_ir.specs.Body.{Body, block_at};
ghost use Rattle.clif_instructions.specs.Members.{Stands};
ghost use Rattle.clif_ssa.specs.Constructs.{OnlyConstructs, TellsZeros};
ghost use Rattle.clif_ssa.specs.Counted.{StepCounts, WaitsBelow};
ghost use Rattle.clif_ssa.specs.Limits.{ConstructionIsFull};
ghost use Rattle.clif_ssa.specs.Moving.{MovesBranch};
ghost use Rattle.clif_ssa.specs.Pools.{types_of, MayPool, MayPoolAll, MayPoolWaiting, SealingIsFull, UseIsFull, WaitsWithType};
ghost use Rattle.clif_records.specs.Tables.{is_yes, pending_of};
ghost use Rattle.clif_paths.specs.Places.{start};
ghost use Rattle.clif_paths.specs.Blocks.{Blocks, last_place, with_write};
ghost use Rattle.clif_ssa.specs.Own.{Own};
ghost use Rattle.clif_ssa.specs.Sound.{Describes, PassesOwn, Keeps, KeepsAndKnows, SparesIfEntry, has_entry, args_of, edge_target, edges_at};
ghost use Rattle.clif_ssa.specs.SoundLaws.{DescribesSoundly, IsOpen};
ghost use Rattle.clif_ssa.specs.Structure.{HasRecordOf, LooksOnce, LosesWaiting, Remembers};
ghost use Rattle.clif_ssa.specs.Structured.{HasType, Structured, VariableTypes};
ghost use Rattle.clif_records.specs.Stacks.{no_look_up};
ghost use Rattle.clif_records.specs.Tracking.{recorded_of, with_binding, with_mark};
ghost use Rattle.std.specs.Borrow.{sem};
ghost use Rattle.clif_ssa.specs.Lending.{lends_builder_recorded};
ghost use Rattle.clif_ssa.specs.LookUp.{branch_block, UsesVariable};
ghost use Rattle.clif_ssa.specs.Running.{stage, found};
ghost use Rattle.clif_ssa.specs.Sealing.{SealsBelow, SealsOne, SealsLocally, SealsByLookUp};
ghost use Rattle.clif_ssa.specs.Steps.{SealAllGives, SealAllKeeps, SealAllMakes, SealBlockGives, SealKeeps, SealMakes, StepEnds, StepLeaves, StepPools, UseGives, UseMakes};
ghost use Rattle.clif_ssa.specs.Tracked.{TracksMade};
ghost use Rattle.clif_ssa.specs.Zeros.{steps_before};
ghost use Rattle.clif_ssa.specs.Within.{HoldsBranches, HoldsWaiting, StaysWithin};
ghost use Rattle.clif_ssa.specs.Ssa.{no_state, record_of, sealed_of, predecessors_of, lookups_of, CountsLookup, Declares, HasMore, IsLocal, MayBind, Named, NamesExist, Records, KnowsNoMore, RecordsStay, Removes, SamePredecessors, SameBlocks, SameLookups, SameRecords, SealedStays, Waits, Zeroes};

use crate::ssa_tables::SsaTables;
use clif_ir::Function;
use clif_records::look_up::LookUp;
use clif_records::passed::PassedBlocks;
use clif_records::{SideEffects, Variable};
use clif_types::{Block, BuildError, EntityRef, EntitySet, Inst, Type, Value};
use std::alloc::Global;
use std::marker::Model;

/// The builder of SSA form: which value each variable has in each block.
#[derive(Debug)]
pub struct SSABuilder {
    alloc: Global,
    // What is known. A step of a look-up changes it together with the rooms below, which clauses don't see.
    tables: SsaTables,
    // The blocks that the last walk passed: room that each walk uses again.
    passed: PassedBlocks,
    // The stacks of the last look-up: room that each one uses again.
    look_up: LookUp,
}

// By hand: a derived one is proved anew at each way out of a function that holds such a value.
impl Drop for SSABuilder {
    fn drop(self) {
        let SSABuilder {
            alloc: _,
            tables: _,
            passed: _,
            look_up: _,
        } = self;
    }
}

impl Model for SSABuilder {
    ghost use Rattle.clif_ssa.specs.Ssa.{SsaState, ssa_state_code};

    ghost Value = { SsaState };

    ghost coded = { ssa_state_code };

    ghost view = { λ s. s.tables };
}

impl SSABuilder {
    /// A builder that knows nothing.
    pub fn new(alloc: Global) -> Self
        ensures nothing { result ≡ no_state }
        ensures looks_once { LooksOnce result }
    {
        SSABuilder {
            alloc,
            tables: SsaTables::new(alloc),
            passed: PassedBlocks::new(alloc),
            look_up: LookUp::new(alloc),
        }
    }

    /// Forgets everything. It keeps the room of the blocks and of the records, and gives back that of the sets.
    pub fn clear(&mut self)
        ensures nothing { self.new ≡ no_state }
        ensures looks_once { LooksOnce self.new }
    {
        self.tables.clear(self.alloc);
    }

    /// Whether the builder knows nothing, as a new one.
    pub fn is_empty(&self) -> bool
        ensures { IsTrue result ↔ (self.now ≡ no_state) }
    {
        self.tables.is_empty()
    }

    /// Makes a block known, which is unsealed unless it was sealed before.
    ///
    /// # Errors
    ///
    /// `Memory`, where memory is refused.
    pub fn declare_block(&mut self, block: Block) -> Result<(), BuildError>
        ensures records { self.new.records ≡ self.old.records }
        ensures blocks { (b : ℕ) → sealed_of self.new b ≡ sealed_of self.old b }
        ensures predecessors { SamePredecessors self.old self.new }
        ensures tracking { self.new.tracking ≡ self.old.tracking }
        ensures described { (own : Own) (f : Body) (tables : Blocks)
            → Describes own f self.old [] tables → Describes own f self.new [] tables }
        ensures remembers { (f : Body) (x b : ℕ) → Remembers x b f self.old f self.new }
        ensures looks_once { LooksOnce self.old → LooksOnce self.new }
        ensures structured { (types : VariableTypes) (own : Own) (f : Body)
            → Structured types own f self.old [] → Structured types own f self.new [] }
        ensures known { OnOk result (block < length self.new.blocks) }
        ensures no_more { KnowsNoMore self.old self.new (block + 1) }
        ensures only_memory { OnErr result (result ≡ Err BuildError.Memory) }
    {
        self.tables.blocks.declare(block)
    }

    /// Puts a branch behind those that lead to a block, which isn't sealed. A branch is declared once for each block
    /// to which it leads, when it is made.
    ///
    /// # Errors
    ///
    /// `Memory`, where memory is refused. The branches that lead to each block are as they were then.
    pub fn declare_block_predecessor(&mut self, block: Block, inst: Inst) -> Result<(), BuildError>
        requires { is_yes (sealed_of self.old block) ≡ false }
        ensures ok { OnOk result (Declares self.old self.new block inst) }
        ensures err { OnErr result (SamePredecessors self.old self.new) }
        ensures records { self.new.records ≡ self.old.records }
        ensures blocks { SameBlocks self.old self.new }
        ensures tracking { self.new.tracking ≡ self.old.tracking }
        ensures described { (own : Own) (f : Body) (tables : Blocks) → inst < length f.insts
            → has_entry f.layout ≡ true → ((j : ℕ) → Contains (predecessors_of self.old block) j
            → branch_block f j ≢ branch_block f inst) → PassesOwn own f block inst
            → DescribesSoundly own f self.old tables
            → OnOk result (DescribesSoundly own f self.new tables) }
        ensures looks_once { LooksOnce self.old → LooksOnce self.new }
        ensures structured { (types : VariableTypes) (own : Own) (f : Body) → inst < length f.insts
            → ((j : ℕ) → Contains (predecessors_of self.old block) j → j ≢ inst) → ((k : ℕ)
            → edge_target f inst k ≡ Some block → args_of (slice_get
            (edges_at f inst) k) ≡ own.passed inst k) → Structured types own f self.old []
            → OnOk result (Structured types own f self.new []) }
        ensures no_more { KnowsNoMore self.old self.new (block + 1) }
        ensures only_memory { OnErr result (result ≡ Err BuildError.Memory) }
    {
        self.tables.blocks.declare_predecessor(block, inst)
    }

    /// Takes a branch away from those that lead to a block, which isn't sealed; the others keep their
    /// order.
    pub fn remove_block_predecessor(&mut self, block: Block, inst: Inst)
        requires unsealed { is_yes (sealed_of self.old block) ≡ false }
        requires declared { Stands inst (predecessors_of self.old block) }
        ensures removed { Removes self.old self.new block inst }
        ensures records { self.new.records ≡ self.old.records }
        ensures blocks { SameBlocks self.old self.new }
        ensures tracking { self.new.tracking ≡ self.old.tracking }
        ensures described { (own : Own) (f : Body) (tables : Blocks)
            → DescribesSoundly own f self.old tables → DescribesSoundly own f self.new tables }
        ensures looks_once { LooksOnce self.old → LooksOnce self.new }
        ensures structured { (types : VariableTypes) (own : Own) (f : Body)
            → Structured types own f self.old [] → Structured types own f self.new [] }
        ensures no_more { length self.new.blocks ≤ length self.old.blocks }
    {
        self.tables.blocks.remove_predecessor(block, inst);
    }

    /// Moves a branch from a block to another one, both of which aren't sealed: each of its edges to `from` goes to
    /// `to`, and passes what it passed.
    ///
    /// The branch is put behind those that lead to `to`, unless it is one of them, and is taken away from those that
    /// lead to `from`; the others keep their order. Where both are one block nothing changes.
    ///
    /// # Errors
    ///
    /// `Memory`, where memory is refused. The function and the branches that lead to each block are as they were
    /// then.
    pub fn move_branch(
        &mut self,
        func: &mut Function,
        inst: Inst,
        from: Block,
        to: Block,
    ) -> Result<(), BuildError>
        requires inst_exists { inst < length func.old.insts }
        requires target_exists { to < length func.old.blocks }
        requires from_unsealed { is_yes (sealed_of self.old from) ≡ false }
        requires to_unsealed { is_yes (sealed_of self.old to) ≡ false }
        requires leads { Stands inst (predecessors_of self.old from) }
        ensures ok { OnOk result (MovesBranch func.old self.old func.new self.new inst from to) }
        ensures err { OnErr result ((func.new ≡ func.old) × SamePredecessors self.old self.new) }
        ensures records { self.new.records ≡ self.old.records }
        ensures blocks { SameBlocks self.old self.new }
        ensures tracking { self.new.tracking ≡ self.old.tracking }
        ensures described { (own : Own) (tables : Blocks) → PassesOwn own func.old from inst
            → PassesOwn own func.old to inst → ((j : ℕ) → Contains (predecessors_of self.old to) j
            → j ≢ inst → branch_block func.old j ≢ branch_block func.old inst)
            → DescribesSoundly own func.old self.old tables
            → OnOk result (DescribesSoundly own func.new self.new tables) }
        ensures structured { (types : VariableTypes) (own : Own) → ((k : ℕ)
            → edge_target func.old inst k ≡ Some to
            → args_of (slice_get (edges_at func.old inst) k) ≡ own.passed inst k)
            → Structured types own func.old self.old []
            → OnOk result (Structured types own func.new self.new []) }
        ensures looks_once { LooksOnce self.old → LooksOnce self.new }
        ensures no_more { KnowsNoMore self.old self.new (to + 1) }
        ensures only_memory { OnErr result (result ≡ Err BuildError.Memory) }
    {
        func.law_consistent();
        self.move_leads(func, inst, from, to)
    }

    // Moves the edges of a branch, and what is known of them.
    fn move_leads(
        &mut self,
        func: &mut Function,
        inst: Inst,
        from: Block,
        to: Block,
    ) -> Result<(), BuildError>
        requires inst_exists { inst < length func.old.insts }
        requires target_exists { to < length func.old.blocks }
        requires leads { Stands inst (predecessors_of self.old from) }
        ensures ok { OnOk result (MovesBranch func.old self.old func.new self.new inst from to) }
        ensures err { OnErr result ((func.new ≡ func.old) × SamePredecessors self.old self.new) }
        ensures records { self.new.records ≡ self.old.records }
        ensures blocks { SameBlocks self.old self.new }
        ensures tracking { self.new.tracking ≡ self.old.tracking }
        ensures looks_once { LooksOnce self.old → LooksOnce self.new }
        ensures no_more { KnowsNoMore self.old self.new (to + 1) }
        ensures only_memory { OnErr result (result ≡ Err BuildError.Memory) }
    {
        if from == to {
            return Ok(());
        }
        self.tables.lead_once(to, inst)?;
        func.change_branch_target(inst, from, to);
        self.tables.blocks.remove_predecessor(from, inst);
        Ok(())
    }

    /// Whether any branch leads to a block.
    pub fn has_any_predecessors(&self, block: Block) -> bool
        ensures { IsTrue result ↔ (predecessors_of self.now block ≢ []) }
    {
        !self.tables.blocks.predecessors(block).is_empty()
    }

    /// Whether this branch leads to a block.
    pub fn leads_to(&self, inst: Inst, block: Block) -> bool
        ensures { IsTrue result ↔ Stands inst (predecessors_of self.now block) }
    {
        self.tables.blocks.predecessors(block).contains(&inst)
    }

    /// Whether this branch is the one that was declared last at a block.
    ///
    /// A new branch with several edges to one block is declared there once, and so is known by this at each
    /// of its later edges.
    pub fn is_last_predecessor(&self, block: Block, inst: Inst) -> bool
        ensures { IsTrue result ↔ (slice_get (predecessors_of self.now block) (length
            (predecessors_of self.now block) - 1) ≡ Some inst) }
    {
        match self.tables.blocks.predecessors(block).last() {
            Some(last) => *last == inst,
            None => false,
        }
    }

    /// In how many pairs of a variable and a block something is recorded: a value, or a count of look-ups.
    pub fn records(&self) -> usize
        ensures { result ≡ map.len self.now.records }
    {
        self.tables.variables.records()
    }

    /// How many look-ups of a variable in the predecessors of a block began.
    pub fn lookups(&self, variable: Variable, block: Block) -> u32
        ensures { result ≡ lookups_of self.now variable block }
    {
        self.tables.variables.lookups(variable, block)
    }

    /// Whether a block is sealed.
    pub fn is_sealed(&self, block: Block) -> bool
        ensures { result ≡ is_yes (sealed_of self.now block) }
    {
        self.tables.blocks.is_sealed(block)
    }

    /// Records that a variable has a value in a block from here on. Stack maps need the value, if the variable is
    /// marked.
    ///
    /// # Errors
    ///
    /// `Memory`, where memory is refused. Each record is as it was then, and stack maps may need the value.
    #[inline(always)]
    pub fn def_var(
        &mut self,
        variable: Variable,
        value: Value,
        block: Block,
    ) -> Result<(), BuildError>
        ensures ok { OnOk result (Records self.old self.new variable block value) }
        ensures err { OnErr result (SameRecords self.old self.new) }
        ensures tracking { OnOk result (self.new.tracking ≡ with_binding self.old.tracking variable
            value) }
        ensures refused { OnErr result (MayBind self.old self.new variable value) }
        ensures blocks { self.new.blocks ≡ self.old.blocks }
        ensures lookups { SameLookups self.old self.new }
        ensures keeps { (own : Own) (f : Body) (tables : Blocks) (n : ℕ)
            → DescribesSoundly own f self.old tables → IsOpen f self.old block
            → tables.answer n ≡ value → (tables.naming n).home ≢ start
            → tables.assigned (last_place tables block) variable ≡ None
            → OnOk result (DescribesSoundly own f self.new (with_write tables block variable n)) }
        ensures remembers { (f : Body) (x b : ℕ) → (x ≡ variable → b ≡ block → ⊥)
            → OnOk result (Remembers x b f self.old f self.new) }
        ensures looks_once { LooksOnce self.old → LooksOnce self.new }
        ensures structured { (types : VariableTypes) (own : Own) (f : Body)
            → HasType f value (types variable) → Structured types own f self.old []
            → OnOk result (Structured types own f self.new []) }
        ensures only_memory { OnErr result (result ≡ Err BuildError.Memory) }
    {
        self.tables.record(variable, block, value)
    }

    /// Marks a variable: stack maps need each value that it gets from here on, by an assignment or as a parameter
    /// that is made for it.
    ///
    /// # Errors
    ///
    /// `Memory`, where memory is refused. Nothing has changed then.
    pub fn mark_var_needs_stack_map(&mut self, variable: Variable) -> Result<(), BuildError>
        ensures ok { OnOk result (self.new ≡ record self.old
            { tracking = with_mark self.old.tracking variable }) }
        ensures err { OnErr result (self.new ≡ self.old) }
        ensures only_memory { OnErr result (result ≡ Err BuildError.Memory) }
    {
        self.tables.tracking.mark(variable)
    }

    /// The values that stack maps need.
    pub fn stack_map_values(&self) -> &EntitySet<Value>
        ensures { result.now ≡ recorded_of self.now.tracking }
    {
        self.tables.tracking.recorded()
    }

    /// The values that stack maps need, to which more may be added.
    pub fn stack_map_values_mut(&mut self) -> &mut EntitySet<Value>
        ensures* writes_back { sem 𝓛 (lends_builder_recorded self.entry result) }
        ensures value { result.now ≡ recorded_of self.old.tracking }
    {
        self.tables.tracking.recorded_mut()
    }

    /// The value of a variable of type `ty` in a block.
    ///
    /// Where none is recorded, the walk goes from the block along single predecessors of sealed blocks to one that
    /// has a record, which is copied to the blocks passed. Where it can go no further, or would pass a block again, a
    /// parameter is appended to the block reached and recorded. In an unsealed block it is the answer, and waits
    /// until the block is sealed. In a sealed one the predecessors are looked up at once: where one value comes from
    /// them the parameter becomes another name of it, and where none does, of a zero. Stack maps need each parameter
    /// that is made, if the variable is marked, and no zero.
    ///
    /// # Errors
    ///
    /// `Memory`, where memory is refused, or `Full`, where a table of the function has no number left for a parameter
    /// or a zero.
    pub fn use_var(
        &mut self,
        func: &mut Function,
        variable: Variable,
        ty: Type,
        block: Block,
    ) -> Result<(Value, SideEffects), BuildError>
        requires exists { block < length func.old.blocks }
        requires named { Named func.old self.old }
        ensures makes { UseMakes variable ty block func.old self.old func.new self.new result }
        ensures gives { IfOk result (λ r. UseGives variable ty block func.old self.old func.new
            self.new r.0 r.1.instructions_added_to_blocks.items) }
        ensures leaves { StepLeaves func.old self.old func.new self.new }
        ensures looks_once { LooksOnce self.old → LooksOnce self.new }
        ensures pools { MayPool ty func.old.tables func.new.tables }
        ensures ends { StepEnds (UseIsFull ty) func.new result }
        ensures counts { StepCounts (◌<◌ variable) 0 func.old self.old func.new self.new result }
    {
        func.law_consistent();
        let searched = self.tables.variables.search(variable, block);
        if let Some(value) = searched.value {
            return Ok((value, SideEffects::new(self.alloc)));
        }
        if self.tables.is_local(block) {
            return self
                .tables
                .use_locally(self.alloc, func, variable, ty, block);
        }
        self.look_up.clear();
        self.tables.look_up_in(
            func,
            variable,
            ty,
            block,
            searched.has_no_page,
            &mut self.passed,
            &mut self.look_up,
        )?;
        let value = self
            .tables
            .make_calls(func, variable, ty, &mut self.passed, &mut self.look_up)?;
        let instructions_added_to_blocks = self.look_up.take_zeros();
        Ok((
            value,
            SideEffects {
                instructions_added_to_blocks,
            },
        ))
    }

    // Seals a block, and completes what waits in it.
    fn seal_one_block(
        &mut self,
        block: Block,
        func: &mut Function,
    ) -> Result<SideEffects, BuildError>
        requires named { Named func.old self.old }
        ensures makes { SealMakes block func.old self.old func.new self.new result }
        ensures keeps { SealKeeps block func.old self.old func.new self.new }
        ensures pools { NamesExist func.old self.old
            → StepPools (types_of func.old (pending_of
            (sealed_of self.old block))) func.old self.old func.new self.new }
        ensures full_waiting { NamesExist func.old self.old → result ≡ Err BuildError.Full
            → SealingIsFull (Contains (types_of func.old (pending_of
            (sealed_of self.old block)))) func.new }
        ensures ends { StepEnds ConstructionIsFull func.new result }
        ensures never_full { pending_of (sealed_of self.old block) ≡ []
            → result ≢ Err BuildError.Full }
        ensures counts { block < length func.old.blocks → StepCounts
            (λ variables. WaitsBelow variables self.old) 0 func.old self.old func.new self.new
            result }
    {
        let waiting = self.tables.blocks.seal(block)?;
        if waiting.as_slice().is_empty() {
            return Ok(SideEffects::new(self.alloc));
        }
        if self.tables.blocks.predecessors(block).is_empty() {
            return self
                .tables
                .complete_locally(self.alloc, func, block, waiting.as_slice());
        }
        self.look_up.clear();
        self.tables.complete_all(
            func,
            block,
            waiting.as_slice(),
            &mut self.passed,
            &mut self.look_up,
        )?;
        let instructions_added_to_blocks = self.look_up.take_zeros();
        Ok(SideEffects {
            instructions_added_to_blocks,
        })
    }

    /// Seals a block: all branches that lead to it are declared. Each parameter that waits in it is completed, in the
    /// order in which they were made: its variable is looked up in the predecessors. A block that is sealed stays as
    /// it is.
    ///
    /// # Errors
    ///
    /// `Memory`, where memory is refused, or `Full`, where a table of the function has no number left for a parameter
    /// or a zero. The block is sealed or as it was then.
    pub fn seal_block(
        &mut self,
        block: Block,
        func: &mut Function,
    ) -> Result<SideEffects, BuildError>
        requires named { Named func.old self.old }
        ensures makes { SealMakes block func.old self.old func.new self.new result }
        ensures gives { SealBlockGives block func.old self.old func.new self.new result }
        ensures keeps { SealKeeps block func.old self.old func.new self.new }
        ensures parameters { predecessors_of self.old block ≡ []
            → OnOk result (LosesWaiting func.old func.new (pending_of (sealed_of self.old block))) }
        ensures pools { NamesExist func.old self.old
            → MayPoolAll (types_of func.old (pending_of
            (sealed_of self.old block))) func.old.tables func.new.tables }
        ensures full { NamesExist func.old self.old → result ≡ Err BuildError.Full
            → SealingIsFull (Contains (types_of func.old (pending_of
            (sealed_of self.old block)))) func.new }
        ensures never_full { pending_of (sealed_of self.old block) ≡ []
            → result ≢ Err BuildError.Full }
        ensures ends { StepEnds ConstructionIsFull func.new result }
        ensures counts { block < length func.old.blocks → StepCounts
            (λ variables. WaitsBelow variables self.old) 0 func.old self.old func.new self.new
            result }
    {
        func.law_consistent();
        let told = self.seal_one_block(block, func);
        func.law_consistent();
        told
    }

    /// Seals all blocks of the function that aren't sealed, by rising number.
    ///
    /// # Errors
    ///
    /// Those of [`SSABuilder::seal_block`].
    pub fn seal_all_blocks(&mut self, func: &mut Function) -> Result<SideEffects, BuildError>
        requires named { Named func.old self.old }
        ensures makes { SealAllMakes func.old self.old func.new self.new result }
        ensures gives { SealAllGives func.old self.old func.new self.new result }
        ensures keeps { SealAllKeeps func.old self.old func.new self.new }
        ensures pools { NamesExist func.old self.old
            → MayPoolWaiting func.old self.old func.new.tables }
        ensures full { NamesExist func.old self.old → result ≡ Err BuildError.Full
            → SealingIsFull (WaitsWithType func.old self.old) func.new }
        ensures ends { StepEnds ConstructionIsFull func.new result }
        ensures counts { StepCounts (λ variables. WaitsBelow variables self.old) 0 func.old self.old
            func.new self.new result }
    {
        let mut side_effects = SideEffects::new(self.alloc);
        for number in 0..func.block_count() {
            let block = Block::new(number);
            func.law_consistent();
            let told = self.seal_one_block(block, func)?;
            side_effects.append(&told)?;
        }
        Ok(side_effects)
    }
}
