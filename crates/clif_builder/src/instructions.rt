//! How a builder makes instructions at the end of its current block.
ghost use Rattle.std.specs.Prelude.{◌≡◌, ◌≢◌, ◌<◌, ◌∷◌, [], IfOk, Err, false, length, slice_index, EachIndex, All};
ghost use Rattle.std.proofs.Common.{refl};
ghost use Rattle.std.proofs.Math.Nat.{lt_of_lt_of_le};
ghost use Rattle.clif_ir.specs.Body.{value_at};
ghost use Rattle.clif_ir.specs.Changes.{HasNoRoom};
ghost use Rattle.clif_ir.specs.Consistent.{EntryExists, ValueExists};
ghost use Rattle.clif_instructions.specs.Instruction.{contexts, entries_of, operands, destinations, is_branch};
ghost use Rattle.clif_tables.specs.Callees.{count_of_results};
ghost use Rattle.clif_instructions.specs.Edges.{targets};
ghost use Rattle.clif_ssa.specs.Ssa.{NamesExist};
ghost use Rattle.clif_ssa.specs.Structure.{LooksOnce};
ghost use Rattle.clif_builder.specs.Builder.{HasCurrent, CanLead, CanLeadIn, AppendsIn};
ghost use Rattle.clif_builder.specs.Built.{Builds, BuildsPair, BuildsValue, OnlyLaidOut};
ghost use Rattle.clif_builder.specs.Construction.{IsDeclared};
ghost use Rattle.clif_builder.specs.Context.{SameVariables};
ghost use Rattle.clif_builder.specs.Entries.{MayServe, MayServeTry, PoolsConstant, TakesExceptionTable, TakesJumpTable};
ghost use Rattle.std.proofs.lemmas.Option.{slice_get_within as pooled_below};

use crate::builder::FunctionBuilder;
use crate::context::{BlockStatus, ContextParts};
use crate::frontend::begin_block;
use clif_inst_builder::{InstBuilderBase, both_values};
use clif_instructions::insert_at::InsertAt;
use clif_ir::{ExceptionTargets, Function, InstructionData, JumpTableData};
use clif_types::{
    Block, BuildError, Constant, ExceptionTable, Inst, JumpTable, SourceLoc, Type, Value,
};
use std::alloc::Global;

/// What [`FunctionBuilder::ins`] lends: the builder itself, whose methods make instructions.
pub type FuncInstBuilder<'short, 'long> = &'short mut FunctionBuilder<'long>;

impl<'a> FunctionBuilder<'a> {
    /// Lends the builder for one instruction, which is appended to the current block: `builder.ins().iadd(x, y)?`.
    /// [`crate::InstBuilder`] has the instructions.
    ///
    /// There is a current block, which isn't filled. The block enters the layout with its first instruction.
    pub fn ins<'short>(&'short mut self) -> FuncInstBuilder<'short, 'a>
        requires { HasCurrent self.old }
        ensures same { result.ghost_name ≡ self.entry.ghost_name }
        ensures builder { result.now ≡ self.old }
    {
        self
    }

    /// Lends the builder at the end of the current block, as upstream's cursor stands there:
    /// `builder.cursor().ins().iadd(x, y)?`. Use it for instructions that neither branch nor end the block.
    ///
    /// There is a current block, which isn't filled. The block enters the layout with its first instruction; where
    /// it is to stand there without one, call [`FunctionBuilder::ensure_inserted_block`].
    pub fn cursor<'short>(&'short mut self) -> FuncInstBuilder<'short, 'a>
        requires { HasCurrent self.old }
        ensures same { result.ghost_name ≡ self.entry.ghost_name }
        ensures builder { result.now ≡ self.old }
    {
        self
    }
}

impl<'a, R> InstBuilderBase for FunctionBuilder<'a, R> {
    type ValueAnswer = Result<Value, BuildError>;

    type PairAnswer = Result<(Value, Value), BuildError>;

    type InstAnswer = Result<Inst, BuildError>;

    ghost asks = { λ condition. condition };

    ghost answer_value = { λ made. made };

    ghost answer_inst = { λ made. made };

    ghost value_in = { λ answer. answer };

    ghost can_build = { HasCurrent };

    ghost has_value = { λ b value. value < length b.func.now.values };

    ghost has_entry = { λ b entry. EntryExists b.func.now.tables entry };

    ghost can_lead = { CanLead };

    ghost type_of = { λ b value. (value_at b.func.now value).ty };

    ghost pools = { PoolsConstant };

    ghost has_jump_table = { MayServe };

    ghost takes = { TakesJumpTable };

    ghost has_exception_table = { MayServeTry };

    ghost takes_exception = { TakesExceptionTable };

    ghost builds = { Builds };

    ghost builds_value = { BuildsValue };

    ghost builds_like = { λ old new shape x answer.
        BuildsValue old new shape (value_at old.func.now x).ty answer };

    ghost builds_pair = { λ old new shape x answer.
        BuildsPair old new shape (value_at old.func.now x).ty answer };

    ghost answer_is = { λ answer. refl };

    ghost like_is_value = { λ old new shape x answer built. built };

    ghost builds_on = { λ old new shape ty value built. built.current };

    ghost built_exists = { λ old new shape ty value built. built.exists };

    ghost others_exist = { λ old new shape ty value built other here.
        lt_of_lt_of_le here built.grows.0 };

    ghost entries_stay = { λ old new shape ty value built entry here.
        built.grows.7 entry here };

    ghost pooled_exists = { λ old new bytes constant pooled.
        pooled_below new.func.now.tables.constants constant bytes pooled.found };

    ghost pooled_builds = { λ old new bytes constant pooled current.
        pooled.sets.current current };

    ghost taken_leads = { λ old new table edges taken serves. taken.can_be_named serves };

    ghost taken_values = { λ old new table edges taken value here.
        lt_of_lt_of_le here taken.sets.grows.0 };

    ghost taken_builds = { λ old new table edges taken current. taken.sets.current current };

    ghost exception_can_be_named = { λ old new table exception taken serves.
        taken.can_be_named serves };

    ghost exception_values = { λ old new table exception taken value here.
        lt_of_lt_of_le here taken.sets.grows.0 };

    ghost exception_entries = { λ old new table exception taken entry here.
        taken.sets.grows.6 entry here };

    ghost exception_builds = { λ old new table exception taken current.
        taken.sets.current current };

    fn answer_value(made: Result<Value, BuildError>) -> Result<Value, BuildError>
        ensures { result ≡ made }
    {
        made
    }

    fn answer_inst(made: Result<Inst, BuildError>) -> Result<Inst, BuildError>
        ensures { result ≡ made }
    {
        made
    }

    fn value_in(answer: Result<Value, BuildError>) -> Result<Value, BuildError>
        ensures { result ≡ answer }
    {
        answer
    }

    fn value_type(&self, value: Value) -> Type {
        self.func.value_type(value)
    }

    fn allocator(&self) -> Global {
        let ctx = &self.ctx.parts;
        ctx.alloc
    }

    fn pool_constant(&mut self, bytes: &[u8]) -> Result<Constant, BuildError> {
        if self.failed {
            return Err(BuildError::Failed);
        }
        self.func.law_consistent();
        let pooled = self.func.pool_constant(bytes);
        self.failed = pooled.is_err();
        pooled
    }

    fn take_jump_table(&mut self, table: JumpTable) -> Result<JumpTableData, BuildError> {
        if self.failed {
            return Err(BuildError::Failed);
        }
        self.func.law_consistent();
        let Some(edges) = self.func.take_jump_table(table) else {
            unreachable!();
        };
        Ok(edges)
    }

    fn take_exception_table(
        &mut self,
        table: ExceptionTable,
    ) -> Result<ExceptionTargets, BuildError> {
        if self.failed {
            return Err(BuildError::Failed);
        }
        self.func.law_consistent();
        let Some(exception) = self.func.take_exception_table(table) else {
            unreachable!();
        };
        Ok(exception)
    }

    fn build(&mut self, shape: InstructionData, ctrl_type: Type) -> Result<Inst, BuildError> {
        if self.failed {
            return Err(BuildError::Failed);
        }
        let Some(block) = self.position else {
            unreachable!();
        };
        self.func.law_consistent();
        let built = append(
            self.func,
            &mut self.ctx.parts,
            block,
            shape,
            ctrl_type,
            self.srcloc,
        );
        self.failed = built.is_err();
        built
    }

    fn build_value(
        &mut self,
        shape: InstructionData,
        ctrl_type: Type,
    ) -> Result<Value, BuildError> {
        let inst = self.build(shape, ctrl_type)?;
        Ok(self.func.inst_results(inst)[0])
    }

    fn build_like(&mut self, shape: InstructionData, like: Value) -> Result<Value, BuildError> {
        let ty = self.func.value_type(like);
        self.build_value(shape, ty)
    }

    fn build_pair(
        &mut self,
        shape: InstructionData,
        like: Value,
    ) -> Result<(Value, Value), BuildError> {
        let ty = self.func.value_type(like);
        let inst = self.build(shape, ty)?;
        Ok(both_values(self.func.inst_results(inst)))
    }

    fn refuse(&mut self) -> BuildError {
        if self.failed {
            return BuildError::Failed;
        }
        self.failed = true;
        BuildError::Memory
    }
}

// Appends an instruction with a source place to a block, which is filled then if the instruction is a terminator; a branch becomes a
// predecessor of its targets.
#[inline(always)]
fn append(
    func: &mut Function,
    ctx: &mut ContextParts,
    block: Block,
    shape: InstructionData,
    ctrl_type: Type,
    srcloc: SourceLoc,
) -> Result<Inst, BuildError>
    requires block_exists { block < length func.old.blocks }
    requires named { NamesExist func.old ctx.old.ssa }
    requires operands_exist { EachIndex (operands shape) (λ k. slice_index
        (operands shape) k < length func.old.values) }
    requires contexts_exist { All (ValueExists func.old) (contexts shape) }
    requires edges { All (CanLeadIn func.old ctx.old) (destinations shape) }
    requires entries_exist { All (EntryExists func.old.tables) (entries_of shape) }
    ensures appends { IfOk result (AppendsIn srcloc func.old ctx.old func.new ctx.new block shape
        ctrl_type) }
    ensures declares { IfOk result (λ inst. IsDeclared ctx.old.ssa inst (targets
        (destinations shape)) ctx.new.ssa) }
    ensures ssa { is_branch shape ≡ false → ctx.new.ssa ≡ ctx.old.ssa }
    ensures names { NamesExist func.new ctx.new.ssa }
    ensures looks_once { LooksOnce ctx.old.ssa → LooksOnce ctx.new.ssa }
    ensures variables { SameVariables ctx.old ctx.new }
    ensures full { result ≡ Err BuildError.Full → HasNoRoom func.old
        (count_of_results func.old.tables shape) }
    ensures full_stays { result ≡ Err BuildError.Full → OnlyLaidOut func.old func.new }
    ensures never_failed { result ≢ Err BuildError.Failed }
{
    begin_block(func, ctx, block)?;
    let ends = shape.is_terminator();
    let inst = func.insert_inst(block, InsertAt::Back, shape, ctrl_type, srcloc)?;
    if ends {
        ctx.set_status(block, BlockStatus::Filled)?;
        ctx.declare_successors(inst, func.inst_data(inst).branch_destination())?;
    }
    Ok(inst)
}
