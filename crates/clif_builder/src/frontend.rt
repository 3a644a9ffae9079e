//! The builder of a function.
ghost use Rattle.std.specs.Prelude.{◌≡◌, ◌≢◌, ◌<◌, ◌-◌, ◌^◌, ◌+◌, ◌++◌, ◌∷◌, [], ◌==◌, ℕ, List, IsTrue, ◌↔◌, option_map, OnOk, OnErr, IfOk, IfSome, IsSome, is_err, Some, None, true, false, length, slice_index, slice_get, EachIndex, Contains};
ghost use Rattle.clif_builder.specs.GoesOn.{GoesOn, GoesOnWhere, IsUnassigned, succeeded};
ghost use Rattle.clif_builder.specs.Uses.{UsesVariable};
ghost use Rattle.clif_builder.specs.Seals.{SealingLeaves, SealsBlock};
ghost use Rattle.clif_builder.specs.Clear.{IsClear};
ghost use Rattle.clif_ssa.specs.Counted.{StepCounts};
ghost use Rattle.clif_builder.specs.Context.{Begins, IsFresh, SameVariables, SetsStatus, TouchesVariable, begun, status_of};
ghost use Rattle.clif_builder.specs.Growth.{Grows, HasRecordIn, RemembersIn};
ghost use Rattle.clif_builder.specs.Construction.{IsUse, IsSealing, IsSealingAll, SealsAlone, SealsAtMost};
ghost use Rattle.clif_builder.specs.Calls.{IsCall, IsTold, answered};
ghost use Rattle.clif_builder.specs.Order.{IsUntouched};
ghost use Rattle.clif_builder.specs.Tracking.{TracksBinding};
ghost use Rattle.clif_builder.specs.Builder.{KeepsAllButRegion, with_position, with_srcloc, is_unreachable, is_free, HasCurrent, Uses, UsesIn};
ghost use Rattle.clif_types.specs.Types.{is_type};
ghost use Rattle.clif_ssa.specs.Pools.{types_of, MayPool, MayPoolAll, MayPoolWaiting, SealingIsFull, UseIsFull, WaitsWithType};
ghost use Rattle.clif_ssa.specs.Structure.{LooksOnce};
ghost use Rattle.clif_ssa.specs.Constructs.{OnlyConstructs};
ghost use Rattle.clif_records.specs.Tables.{is_yes, pending_of};
ghost use Rattle.clif_ssa.specs.Ssa.{no_srcloc, sealed_of, predecessors_of, completed, NamesExist, Records, RecordsStay, SealedStays, SameBlocks, SamePredecessors, SameRecords, Seals};
ghost use Rattle.clif_ir.specs.Body.{inst_at, value_at};
ghost use Rattle.clif_ir.specs.Changes.{with_block, inserted_in};
ghost use Rattle.clif_meaning.specs.Name.{Name};
ghost use Rattle.clif_meaning.specs.View.{view_of};
ghost use Rattle.clif_meaning.specs.Typing.{EdgesMatch};
ghost use Rattle.clif_meaning.specs.Premises.{CallersEdgesMatch};
ghost use Rattle.clif_simulation.specs.Structure.{KeepsNoParameter, NoneWaits};
ghost use Rattle.clif_meaning.specs.Request.{AnsweredCall, script_of, CreateBlock, SwitchToBlock, SealBlock, SealAllBlocks, DeclareVar, DefVar, UseVar};
ghost use Rattle.clif_types.specs.Signature.{SignatureShape};
ghost use Rattle.clif_builder.specs.StandsFor.{StandsFor};
ghost use Rattle.clif_builder.specs.Ledger.{AgreesWithLedger, NamesBlock, NamesValue};

use crate::builder::FunctionBuilder;
use crate::context::{BlockStatus, ContextParts, FunctionBuilderContext};
use clif_ir::Function;
use clif_regions::{Callback, RegionOf};
use clif_ssa::Variable;
use clif_types::{Block, BuildError, Inst, SourceLoc, Type, Value};

impl<'a> FunctionBuilder<'a> {
    /// Starts building `func`.
    ///
    /// `func` must be fresh from one of its makers, and `ctx` empty, as it is when new and again after
    /// [`FunctionBuilder::finalize`] ([`FunctionBuilderContext::is_empty`] tests it). Keep one context for many
    /// functions: its memory is used again.
    ///
    /// ```
    /// let mut func = Function::with_name_signature(alloc, name, signature);
    /// let mut ctx = FunctionBuilderContext::new(alloc);
    /// let mut builder = FunctionBuilder::new(&mut func, &mut ctx);
    /// ```
    pub fn new(func: &'a mut Function, ctx: &'a mut FunctionBuilderContext) -> Self
        requires fresh { IsFresh func.old }
        requires empty { IsClear ctx.old }
        ensures builder { (named : _) × (result ≡ record {
          func = func.entry;
          ctx = ctx.entry;
          position = None;
          srcloc = no_srcloc;
          failed = false;
          named = named;
        }) }
        ensures ledger { AgreesWithLedger [] result }
        ensures stands { StandsFor func.old.signature [] result }
        ensures looks_once { LooksOnce result.ctx.now.parts.ssa }
    {
        FunctionBuilder {
            func,
            ctx,
            position: None,
            srcloc: SourceLoc::new(u32::MAX),
            failed: false,
        }
    }

    /// Has `finalize` ask `ask` for the alias region of each access that it inserts for spilled values, in the order of
    /// insertion: with the function's set of regions, to which `ask` may add, the type of what is stored or loaded, the
    /// stack slot, and 0. The access names then the region that is returned, if one is.
    ///
    /// It replaces what an earlier call gave, and is dropped by [`FunctionBuilder::finalize`]; a builder that is dropped
    /// without leaves it in the context. `ask` may be called with every argument. It takes no memory and can't fail.
    pub fn make_stack_map_alias_region(&mut self, ask: RegionOf)
        requires callable { RegionOf.IsAlwaysCallable ask }
        ensures asks { option_map (λ c. c.ask) self.new.ctx.now.region ≡ Some ask }
        ensures keeps { KeepsAllButRegion self.old self.new }
        ensures ledger { (calls : List AnsweredCall) → AgreesWithLedger calls self.old
            → AgreesWithLedger calls self.new }
        ensures stands { (signature : SignatureShape) (calls : List AnsweredCall)
            → StandsFor signature calls self.old → StandsFor signature calls self.new }
        ensures goes_on { GoesOn self.old self.new succeeded }
    {
        self.ctx.region = Some(Callback::new(ask));
    }
}

impl<'a, R> FunctionBuilder<'a, R> {
    /// The function built so far, for reading. Nothing outside the builder writes it.
    pub fn func(&self) -> &Function
        ensures { result.now ≡ self.now.func.now }
    {
        self.func
    }

    /// Whether an earlier call met refused memory or a full table, so that calls answer `Failed`.
    pub fn has_failed(&self) -> bool
        ensures { result ≡ self.now.failed }
    {
        self.failed
    }

    /// The block that instructions are appended to, if [`FunctionBuilder::switch_to_block`] was called.
    pub fn current_block(&self) -> Option<Block>
        ensures { result ≡ self.now.position }
    {
        self.position
    }

    /// Whether a block is sealed: whether the builder was told that all of its predecessors are known.
    pub fn is_sealed(&self, block: Block) -> bool
        ensures { result ≡ is_yes (sealed_of self.now.ctx.now.parts.ssa block) }
    {
        let ctx = &self.ctx.parts;
        ctx.ssa.is_sealed(block)
    }

    /// Whether a block has its terminator. Nothing can be appended to it then.
    pub fn is_filled(&self, block: Block) -> bool
        ensures { IsTrue result ↔ (status_of self.now.ctx.now.parts block ≡ BlockStatus.Filled) }
    {
        let ctx = &self.ctx.parts;
        ctx.status.get(block) == BlockStatus::Filled
    }

    /// Whether a block is pristine: no instruction was appended to it, no variable used in it, and
    /// [`FunctionBuilder::ensure_inserted_block`] wasn't called for it. Only a pristine block takes parameters.
    pub fn is_pristine(&self, block: Block) -> bool
        ensures { IsTrue result ↔ (status_of self.now.ctx.now.parts block ≡ BlockStatus.Empty) }
    {
        let ctx = &self.ctx.parts;
        ctx.status.get(block) == BlockStatus::Empty
    }

    /// Whether a branch that was built so far leads to a block.
    pub fn has_any_predecessors(&self, block: Block) -> bool
        ensures { IsTrue result ↔ (predecessors_of self.now.ctx.now.parts.ssa block ≢ []) }
    {
        let ctx = &self.ctx.parts;
        ctx.ssa.has_any_predecessors(block)
    }

    /// Whether control can't reach the current block: the layout isn't empty, and the current block isn't
    /// its first one, is sealed, and has no predecessor.
    ///
    /// A front end may stop translating such a block, since no code that is built in it ever runs. There has
    /// to be a current block ([`FunctionBuilder::current_block`]).
    pub fn is_unreachable(&self) -> bool
        requires { IsSome self.now.position }
        ensures { IfSome self.now.position (λ block. result ≡ is_unreachable self.now.func.now
            self.now.ctx.now.parts block) }
    {
        let Some(block) = self.position else {
            return false;
        };
        match self.func.entry_block() {
            None => false,
            Some(entry) => {
                entry != block && self.is_sealed(block) && !self.has_any_predecessors(block)
            }
        }
    }

    /// The results of an instruction, in order. The instruction has to exist.
    pub fn inst_results(&self, inst: Inst) -> &[Value]
        requires { inst < length self.now.func.now.insts }
        ensures exact { result.now ≡ (inst_at self.now.func.now inst).results }
        ensures exist { EachIndex result.now (λ k. slice_index result.now k < length
            self.now.func.now.values) }
    {
        self.func.inst_results(inst)
    }

    /// Makes `block` the current block: instructions, uses and assignments go there from now on.
    ///
    /// `block` must not have its terminator yet ([`FunctionBuilder::is_filled`]), and the block that was current
    /// must be one that can be left: filled, pristine, or unreachable. It takes no memory and can't fail.
    /// The block enters the layout only once something is made in it, so blocks are printed in the order in
    /// which they were begun.
    pub fn switch_to_block(&mut self, block: Block)
        requires exists { block < length self.old.func.now.blocks }
        requires unfilled { status_of self.old.ctx.now.parts block ≢ BlockStatus.Filled }
        requires free { IsTrue (is_free self.old) }
        ensures builder { self.new ≡ with_position self.old block }
        ensures ledger { (calls : List AnsweredCall) (name : Name) → AgreesWithLedger calls self.old
            → NamesBlock calls name block → AgreesWithLedger (calls ++ answered
            (SwitchToBlock name) [] ∷ []) self.new }
        ensures stands { (signature : SignatureShape) (calls : List AnsweredCall) (name : Name)
            → StandsFor signature calls self.old → NamesBlock calls name block
            → StandsFor signature (calls ++ answered (SwitchToBlock name) [] ∷ []) self.new }
        ensures remembers { (x b : ℕ) → RemembersIn x b self.old self.new }
        ensures current { HasCurrent self.new }
    {
        self.position = Some(block);
    }

    /// Sets the source place that each instruction gets from now on, until it is set again. It says where in the source
    /// an instruction comes from: an offset, say, or a number of a list of places; the builder keeps it as it is given.
    /// [`Function::srcloc`] reads it back.
    ///
    /// The default place, `SourceLoc::new(u32::MAX)`, stands for none, as at first. Zeros that the builder makes for
    /// variables without an assignment have none. It takes no memory and can't fail.
    pub fn set_srcloc(&mut self, srcloc: SourceLoc)
        ensures builder { self.new ≡ with_srcloc self.old srcloc }
        ensures ledger { (calls : List AnsweredCall) → AgreesWithLedger calls self.old
            → AgreesWithLedger calls self.new }
        ensures stands { (signature : SignatureShape) (calls : List AnsweredCall)
            → StandsFor signature calls self.old → StandsFor signature calls self.new }
        ensures goes_on { GoesOn self.old self.new succeeded }
    {
        self.srcloc = srcloc;
    }

    /// The source place that instructions get now.
    pub fn srcloc(&self) -> SourceLoc
        ensures { result ≡ self.now.srcloc }
    {
        self.srcloc
    }

    /// Makes a new block. It isn't sealed, is pristine, and isn't in the layout until something is made in it.
    ///
    /// Blocks are numbered from 0 on.
    ///
    /// # Errors
    ///
    /// `Memory`, where memory is refused, `Full`, where there are 2^32 - 1 blocks, and `Failed` after an error of an
    /// earlier call. The builder has failed then: every later call that returns a `Result` returns `Failed`. Where
    /// memory was refused, the function may have one block more.
    pub fn create_block(&mut self) -> Result<Block, BuildError>
        ensures call { IsCall self.old self.new result }
        ensures function { OnOk result (self.new.func.now ≡ with_block self.old.func.now) }
        ensures number { IfOk result (λ b. b ≡ length self.old.func.now.blocks) }
        ensures records { self.new.ctx.now.parts.ssa.records ≡ self.old.ctx.now.parts.ssa.records }
        ensures sealed { SameBlocks self.old.ctx.now.parts.ssa self.new.ctx.now.parts.ssa }
        ensures predecessors { SamePredecessors self.old.ctx.now.parts.ssa
            self.new.ctx.now.parts.ssa }
        ensures tracking { self.new.ctx.now.parts.ssa.tracking ≡
            self.old.ctx.now.parts.ssa.tracking }
        ensures untouched { IfOk result (IsUntouched self.new.ctx.now.parts) }
        ensures status { self.new.ctx.now.parts.status ≡ self.old.ctx.now.parts.status }
        ensures variables { self.new.ctx.now.parts.variables ≡ self.old.ctx.now.parts.variables }
        ensures full { result ≡ Err BuildError.Full → length self.old.func.now.blocks ≡ 2 ^ 32 - 1 }
        ensures full_stays { result ≡ Err BuildError.Full → self.new.func.now ≡ self.old.func.now }
        ensures told { IsTold self.old self.new result
            (λ _. Unit {0})
            (λ block. answered CreateBlock (block ∷ [])) }
        ensures known { IfOk result (λ b. b < length self.new.ctx.now.parts.ssa.blocks) }
        ensures exists { IfOk result (λ b. b < length self.new.func.now.blocks) }
        ensures goes_on { GoesOn self.old self.new result }
    {
        if self.failed {
            return Err(BuildError::Failed);
        }
        let made = make_block(self.func, &mut self.ctx.parts);
        self.failed = made.is_err();
        made
    }

    /// Tells the builder that all predecessors of a block are known: no branch to it will be built anymore.
    ///
    /// Seal a block as soon as its last predecessor has its branch; a loop's header, once the jump back to it is
    /// built. A variable that was used in the block before has a pending parameter, which is completed now, in the
    /// order in which the parameters were made. If no value or a single one comes from the predecessors, the
    /// parameter becomes an alias of it (of a zero, if none does); otherwise it stays, and each edge to the block
    /// passes its argument.
    ///
    /// A block is sealed once ([`FunctionBuilder::is_sealed`] tests it). If it is sealed too early, a branch to it
    /// can't be built later; if it is never sealed, [`FunctionBuilder::finalize`] returns `Unsealed`.
    ///
    /// # Errors
    ///
    /// `Memory`, where memory is refused, `Full`, where there is no number left for a parameter or a zero, and
    /// `Failed` after an error of an earlier call. The builder has failed then; the function may have got some of the
    /// parameters' arguments.
    pub fn seal_block(&mut self, block: Block) -> Result<(), BuildError>
        requires exists { block < length self.old.func.now.blocks }
        requires unsealed { is_yes (sealed_of self.old.ctx.now.parts.ssa block) ≡ false }
        ensures call { IsCall self.old self.new result }
        ensures pools { MayPoolAll (types_of self.old.func.now (pending_of
            (sealed_of self.old.ctx.now.parts.ssa block))) self.old.func.now.tables
            self.new.func.now.tables }
        ensures full { result ≡ Err BuildError.Full
            → SealingIsFull (Contains (types_of self.old.func.now (pending_of
            (sealed_of self.old.ctx.now.parts.ssa block)))) self.new.func.now }
        ensures never_full { pending_of (sealed_of self.old.ctx.now.parts.ssa block) ≡ []
            → result ≢ Err BuildError.Full }
        ensures told { (name : Name) → IsTold self.old self.new result
            (λ calls. NamesBlock calls name block)
            (λ _. answered (SealBlock name) []) }
        ensures parameters { (signature : SignatureShape) (calls : List AnsweredCall)
            → StandsFor signature calls self.new → KeepsNoParameter calls self.new.func.now
            self.new.ctx.now.parts.ssa }
        ensures edges_match { (signature : SignatureShape) (calls : List AnsweredCall)
            → StandsFor signature calls self.new → NoneWaits self.new.ctx.now.parts.ssa
            → CallersEdgesMatch (script_of calls) → EdgesMatch (view_of self.new.func.now) }
        ensures goes_on { GoesOn self.old self.new result }
        ensures seals { SealsBlock block self.old self.new result }
        ensures leaves { SealingLeaves self.old self.new result }
    {
        if self.failed {
            return Err(BuildError::Failed);
        }
        self.func.law_consistent();
        let sealed = self.ctx.parts.seal_block(block, self.func);
        self.func.law_consistent();
        self.failed = sealed.is_err();
        sealed
    }

    /// Seals each block that isn't sealed, by rising number: [`FunctionBuilder::seal_block`] for front ends that
    /// don't know when a block has its last predecessor. Call it once all branches are built.
    ///
    /// The function means the same, but it may have parameters that earlier sealing would have spared.
    ///
    /// # Errors
    ///
    /// Those of [`FunctionBuilder::seal_block`].
    pub fn seal_all_blocks(&mut self) -> Result<(), BuildError>
        ensures call { IsCall self.old self.new result }
        ensures sealed { OnOk result ((b : ℕ) → b < length self.new.func.now.blocks
            → is_yes (sealed_of self.new.ctx.now.parts.ssa b) ≡ true) }
        ensures is_sealing { OnOk result ((told : List ℕ)
            × IsSealingAll self.old.func.now self.old.ctx.now.parts.ssa self.new.func.now
            self.new.ctx.now.parts.ssa told × Begins self.old.ctx.now.parts self.new.ctx.now.parts
            told) }
        ensures pools { MayPoolWaiting self.old.func.now self.old.ctx.now.parts.ssa
            self.new.func.now.tables }
        ensures full { result ≡ Err BuildError.Full
            → SealingIsFull (WaitsWithType self.old.func.now self.old.ctx.now.parts.ssa)
            self.new.func.now }
        ensures told { IsTold self.old self.new result
            (λ _. Unit {0})
            (λ _. answered SealAllBlocks []) }
        ensures parameters { (signature : SignatureShape) (calls : List AnsweredCall)
            → StandsFor signature calls self.new → KeepsNoParameter calls self.new.func.now
            self.new.ctx.now.parts.ssa }
        ensures edges_match { (signature : SignatureShape) (calls : List AnsweredCall)
            → StandsFor signature calls self.new → CallersEdgesMatch (script_of calls)
            → OnOk result (EdgesMatch (view_of self.new.func.now)) }
        ensures goes_on { GoesOn self.old self.new result }
        ensures leaves { SealingLeaves self.old self.new result }
    {
        if self.failed {
            return Err(BuildError::Failed);
        }
        self.func.law_consistent();
        let sealed = self.ctx.parts.seal_all_blocks(self.func);
        self.func.law_consistent();
        self.failed = sealed.is_err();
        sealed
    }

    /// Declares a variable of the source language, and returns its number: 0, 1, and so on.
    ///
    /// A variable is assigned by [`FunctionBuilder::def_var`] and read by [`FunctionBuilder::use_var`], in any block;
    /// the builder finds the values and block parameters that this takes in SSA form. A variable that is read before
    /// it is assigned is zero. Its type is any but `Invalid`.
    ///
    /// # Errors
    ///
    /// `Memory`, where memory is refused, `Full`, where there are 2^32 - 1 variables, and `Failed` after an error of
    /// an earlier call. The builder has failed then.
    pub fn declare_var(&mut self, ty: Type) -> Result<Variable, BuildError>
        requires { IsTrue (is_type ty) }
        ensures call { IsCall self.old self.new result }
        ensures function { self.new.func.now ≡ self.old.func.now }
        ensures variables { OnOk result (self.new.ctx.now.parts ≡ record self.old.ctx.now.parts
            { variables = self.old.ctx.now.parts.variables ++ ty ∷ [] }) }
        ensures number { IfOk result (λ v. v ≡ length self.old.ctx.now.parts.variables) }
        ensures full { result ≡ Err BuildError.Full
            → length self.old.ctx.now.parts.variables ≡ 2 ^ 32 - 1 }
        ensures told { IsTold self.old self.new result
            (λ _. Unit {0})
            (λ variable. answered (DeclareVar ty) (variable ∷ [])) }
        ensures goes_on { GoesOn self.old self.new result }
    {
        if self.failed {
            return Err(BuildError::Failed);
        }
        let declared = self.ctx.parts.declare_var(ty);
        self.failed = declared.is_err();
        declared
    }

    /// Assigns a value to a variable, from this point of the current block on. Stack maps need the value, if the
    /// variable is marked ([`FunctionBuilder::declare_var_needs_stack_map`]).
    ///
    /// The variable is declared, and its type is the value's. There is a current block, which isn't filled. An
    /// assignment makes no instruction.
    ///
    /// # Errors
    ///
    /// `Memory`, where memory is refused, and `Failed` after an error of an earlier call. The variable is what it was
    /// then, and the builder has failed.
    pub fn def_var(&mut self, variable: Variable, value: Value) -> Result<(), BuildError>
        requires current { HasCurrent self.old }
        requires declared { variable < length self.old.ctx.now.parts.variables }
        requires value_exists { value < length self.old.func.now.values }
        requires same_type { slice_get self.old.ctx.now.parts.variables variable ≡ Some
            (value_at self.old.func.now value).ty }
        ensures call { IsCall self.old self.new result }
        ensures function { self.new.func.now ≡ self.old.func.now }
        ensures records { IfSome self.old.position (λ block. OnOk result
            (Records self.old.ctx.now.parts.ssa self.new.ctx.now.parts.ssa variable block value)) }
        ensures tracks { OnOk result (TracksBinding self.old.ctx.now.parts self.new.ctx.now.parts
            variable value) }
        ensures sealed { self.new.ctx.now.parts.ssa.blocks ≡ self.old.ctx.now.parts.ssa.blocks }
        ensures status { self.new.ctx.now.parts.status ≡ self.old.ctx.now.parts.status }
        ensures variables { self.new.ctx.now.parts.variables ≡ self.old.ctx.now.parts.variables }
        ensures never_full { result ≢ Err BuildError.Full }
        ensures told { (name : Name) → IsTold self.old self.new result
            (λ calls. NamesValue calls name value)
            (λ _. answered (DefVar variable name) []) }
        ensures goes_on { GoesOnWhere (IsUnassigned self.old variable) self.old self.new result }
    {
        if self.failed {
            return Err(BuildError::Failed);
        }
        let Some(block) = self.position else {
            unreachable!();
        };
        self.func.law_consistent();
        let recorded = self.ctx.parts.def_var(variable, value, block);
        self.failed = recorded.is_err();
        recorded
    }

    /// The value that a variable has at this point of the current block.
    ///
    /// The last value that was assigned in the block is returned. Without one, the builder looks through the
    /// predecessors. In a block that isn't sealed they aren't all known, so the block gets a pending parameter for
    /// the variable, which is returned and is completed by [`FunctionBuilder::seal_block`]. In a sealed block the
    /// predecessors are searched at once, back along single predecessors as far as these are sealed; a parameter
    /// stays only where different values meet, and a zero is put where no value comes.
    ///
    /// The variable is declared. There is a current block, which isn't filled. The value stays good: use it wherever
    /// the block's code goes on, and ask again in other blocks.
    ///
    /// ```
    /// let before = builder.use_var(total)?;
    /// let two = builder.ins().iconst(I32, 2)?;
    /// let sum = builder.ins().iadd(before, two)?;
    /// builder.def_var(total, sum)?;
    /// ```
    ///
    /// # Errors
    ///
    /// `Memory`, where memory is refused, `Full`, where there is no number left for a parameter or a zero, and
    /// `Failed` after an error of an earlier call. The builder has failed then.
    pub fn use_var(&mut self, variable: Variable) -> Result<Value, BuildError>
        requires current { HasCurrent self.old }
        requires declared { variable < length self.old.ctx.now.parts.variables }
        ensures call { IsCall self.old self.new result }
        ensures told { IsTold self.old self.new result
            (λ _. Unit {0})
            (λ value. answered (UseVar variable) (value ∷ [])) }
        ensures parameters { (signature : SignatureShape) (calls : List AnsweredCall)
            → StandsFor signature calls self.new → KeepsNoParameter calls self.new.func.now
            self.new.ctx.now.parts.ssa }
        ensures goes_on { GoesOn self.old self.new result }
        ensures used { UsesVariable Some variable self.old self.new result }
    {
        if self.failed {
            return Err(BuildError::Failed);
        }
        let Some(block) = self.position else {
            unreachable!();
        };
        let Some(ty) = self.ctx.parts.var_type(variable) else {
            unreachable!();
        };
        self.func.law_consistent();
        let used = use_variable(self.func, &mut self.ctx.parts, variable, ty, block);
        self.func.law_consistent();
        self.failed = used.is_err();
        used
    }
}

#[tactic(auto, using(crate::proofs::Named::names_rules))]
// Brings a block into the layout, where something is made in it.
#[inline(always)]
pub(crate) fn begin_block(
    func: &mut Function,
    ctx: &mut ContextParts,
    block: Block,
) -> Result<(), BuildError>
    requires { block < length func.old.blocks }
    ensures function { OnOk result (func.new ≡ inserted_in func.old block) }
    ensures status { OnOk result (SetsStatus ctx.old ctx.new block (begun
        (status_of ctx.old block))) }
    ensures tables { func.new.tables ≡ func.old.tables }
    ensures ssa { ctx.new.ssa ≡ ctx.old.ssa }
    ensures names { NamesExist func.old ctx.old.ssa → NamesExist func.new ctx.new.ssa }
    ensures variables { SameVariables ctx.old ctx.new }
    ensures only_memory { OnErr result (result ≡ Err BuildError.Memory) }
{
    func.ensure_block_inserted(block)?;
    match ctx.status.get(block) {
        BlockStatus::Empty => ctx.set_status(block, BlockStatus::Partial),
        BlockStatus::Partial | BlockStatus::Filled => Ok(()),
    }
}

// The value of a variable of type `ty` in a block.
fn use_variable(
    func: &mut Function,
    ctx: &mut ContextParts,
    variable: Variable,
    ty: Type,
    block: Block,
) -> Result<Value, BuildError>
    requires exists { block < length func.old.blocks }
    requires named { NamesExist func.old ctx.old.ssa }
    ensures uses { IfOk result (UsesIn func.old ctx.old func.new ctx.new variable ty block) }
    ensures is_use { IfOk result (λ value. (told : List ℕ)
        × IsUse (inserted_in func.old block) ctx.old.ssa func.new ctx.new.ssa variable ty block
        value told × Begins ctx.old ctx.new (block ∷ told)) }
    ensures names { NamesExist func.new ctx.new.ssa }
    ensures exists { IfOk result (λ value. value < length func.new.values) }
    ensures looks_once { LooksOnce ctx.old.ssa → LooksOnce ctx.new.ssa }
    ensures variables { ctx.new.variables ≡ ctx.old.variables }
    ensures touches { OnOk result (TouchesVariable ctx.old ctx.new variable) }
    ensures pools { MayPool ty func.old.tables func.new.tables }
    ensures full { result ≡ Err BuildError.Full → UseIsFull ty func.new }
    ensures constructs { result ≡ Err BuildError.Full →
        OnlyConstructs (inserted_in func.old block) func.new }
    ensures counts { StepCounts (◌<◌ variable) 0 func.old ctx.old.ssa func.new ctx.new.ssa result }
    ensures never_failed { result ≢ Err BuildError.Failed }
{
    begin_block(func, ctx, block)?;
    ctx.use_var(func, variable, ty, block)
}

#[tactic(auto, using(crate::proofs::Named::names_rules))]
// Makes a block, and makes it known to the construction of SSA form.
fn make_block(func: &mut Function, ctx: &mut ContextParts) -> Result<Block, BuildError>
    ensures function { OnOk result (func.new ≡ with_block func.old) }
    ensures number { IfOk result (λ b. b ≡ length func.old.blocks) }
    ensures records { ctx.new.ssa.records ≡ ctx.old.ssa.records }
    ensures sealed { SameBlocks ctx.old.ssa ctx.new.ssa }
    ensures predecessors { SamePredecessors ctx.old.ssa ctx.new.ssa }
    ensures names { NamesExist func.old ctx.old.ssa → NamesExist func.new ctx.new.ssa }
    ensures looks_once { LooksOnce ctx.old.ssa → LooksOnce ctx.new.ssa }
    ensures tracking { ctx.new.ssa.tracking ≡ ctx.old.ssa.tracking }
    ensures status { ctx.new.status ≡ ctx.old.status }
    ensures variables { SameVariables ctx.old ctx.new }
    ensures full { result ≡ Err BuildError.Full → length func.old.blocks ≡ 2 ^ 32 - 1 }
    ensures full_stays { result ≡ Err BuildError.Full → func.new ≡ func.old }
    ensures never_failed { result ≢ Err BuildError.Failed }
    ensures known { IfOk result (λ b. b < length ctx.new.ssa.blocks) }
    ensures exists { IfOk result (λ b. b < length func.new.blocks) }
    ensures grows { OnOk result (Grows func.old func.new) }
{
    let block = func.create_block()?;
    ctx.declare_block(block)?;
    Ok(block)
}
