//! The cursor, and how it makes instructions.
ghost use Rattle.std.specs.Prelude.{◌≡◌, ◌<◌, ◌∷◌, [], length};
ghost use Rattle.std.proofs.Common.{refl, subst, sym};
ghost use Rattle.std.proofs.Math.Nat.{lt_of_lt_of_le};
ghost use Rattle.clif_tables.specs.Lists.{TableLists};
ghost use Rattle.clif_ir.specs.Body.{value_at};
ghost use Rattle.clif_ir.specs.Consistent.{EdgeExists, EntryExists};
ghost use Rattle.clif_inst_builder.specs.Served.{exception_tables, jump_tables};
ghost use Rattle.clif_cursor.specs.Cursor.{CanAppend, Builds, BuildsPair, BuildsValue, is_filled, MayServe, PoolsConstant, Takes};

use clif_inst_builder::{InstBuilderBase, both_values};
use clif_instructions::insert_at::InsertAt;
use clif_ir::{ExceptionTargets, Function, InstructionData, JumpTableData};
use clif_types::{
    Block, BuildError, Constant, ExceptionTable, Inst, JumpTable, SourceLoc, Type, Value,
};
use std::alloc::Global;

/// Appends instructions to a block of a function, one after the other.
///
/// It changes nothing but the function, and that only by the instructions: the layout stays, and no predecessor is
/// recorded anywhere. So it is for a function that is made by the calls of `clif_ir` alone, and not for one that a
/// `FunctionBuilder` builds. It appends nothing behind a terminator: what is to stand before one is put there by
/// [`Function::insert_inst_before`].
#[derive(Drop)]
pub struct FuncCursor<'f> {
    func: &'f mut Function,
    block: Block,
    srcloc: SourceLoc,
}

impl<'f> FuncCursor<'f> {
    /// A cursor at the end of `block`. Its instructions have no source place until [`FuncCursor::set_srcloc`] gives
    /// them one.
    pub fn new(func: &'f mut Function, block: Block) -> Self
        requires { block < length func.old.blocks }
        ensures { result ≡ record { func = func.entry; block = block; srcloc = u32.MAX } }
    {
        FuncCursor {
            func,
            block,
            srcloc: SourceLoc::new(u32::MAX),
        }
    }

    /// The function, for reading.
    pub fn func(&self) -> &Function
        ensures { result.now ≡ self.now.func.now }
    {
        self.func
    }

    /// The block that instructions are appended to.
    pub fn current_block(&self) -> Block
        ensures { result ≡ self.now.block }
    {
        self.block
    }

    /// Whether the last instruction of the block is its terminator, behind which nothing may be appended.
    pub fn is_filled(&self) -> bool
        requires { self.now.block < length self.now.func.now.blocks }
        ensures { result ≡ is_filled self.now.func.now self.now.block }
    {
        match self.func.last_inst(self.block) {
            Some(inst) => self.func.inst_data(inst).is_terminator(),
            None => false,
        }
    }

    /// Goes to the end of another block.
    pub fn goto_bottom(&mut self, block: Block)
        requires { block < length self.old.func.now.blocks }
        ensures { self.new ≡ record self.old { block = block } }
    {
        self.block = block;
    }

    /// Gives the instructions that are appended from now on this source place.
    pub fn set_srcloc(&mut self, srcloc: SourceLoc)
        ensures { self.new ≡ record self.old { srcloc = srcloc } }
    {
        self.srcloc = srcloc;
    }

    /// Lends the cursor for one instruction: `cursor.ins().iadd(x, y)?`. [`crate::InstBuilder`] has the instructions.
    ///
    /// The block has no terminator so far.
    pub fn ins<'short>(&'short mut self) -> &'short mut FuncCursor<'f>
        requires { CanAppend self.old }
        ensures same { result.ghost_name ≡ self.entry.ghost_name }
        ensures cursor { result.now ≡ self.old }
    {
        self
    }
}

impl<'f> InstBuilderBase for FuncCursor<'f> {
    type ValueAnswer = Result<Value, BuildError>;

    type PairAnswer = Result<(Value, Value), BuildError>;

    type InstAnswer = Result<Inst, BuildError>;

    ghost asks = { λ condition. condition };

    ghost answer_value = { λ made. made };

    ghost answer_inst = { λ made. made };

    ghost value_in = { λ answer. answer };

    ghost can_build = { CanAppend };

    ghost has_value = { λ c value. value < length c.func.now.values };

    ghost has_entry = { λ c entry. EntryExists c.func.now.tables entry };

    ghost can_lead = { λ c edge. EdgeExists c.func.now edge };

    ghost type_of = { λ c value. (value_at c.func.now value).ty };

    ghost pools = { PoolsConstant };

    ghost has_jump_table = { MayServe jump_tables };

    ghost takes = { Takes jump_tables };

    ghost has_exception_table = { MayServe exception_tables };

    ghost takes_exception = { Takes exception_tables };

    ghost builds = { Builds };

    ghost builds_value = { BuildsValue };

    ghost builds_like = { λ old new shape x answer.
        BuildsValue old new shape (value_at old.func.now x).ty answer };

    ghost builds_pair = { λ old new shape x answer.
        BuildsPair old new shape (value_at old.func.now x).ty answer };

    ghost answer_is = { λ answer. refl };

    ghost like_is_value = { λ old new shape x answer built. built };

    ghost builds_on = { λ old new shape ty value built. built.current };

    ghost built_exists = { λ old new shape ty value built. built.exists };

    ghost others_exist = { λ old new shape ty value built other here.
        lt_of_lt_of_le here built.grows };

    ghost entries_stay = { λ old new shape ty value built entry here.
        subst (λ (t : TableLists). EntryExists t entry) (sym built.tables) here };

    ghost pooled_exists = { λ old new bytes constant pooled. pooled.exists };

    ghost pooled_builds = { λ old new bytes constant pooled current.
        pooled.current current };

    ghost taken_leads = { λ old new table edges taken serves. taken.can_be_named serves };

    ghost taken_values = { λ old new table edges taken value here.
        subst (λ n. value < n) (sym taken.same_values) here };

    ghost taken_builds = { λ old new table edges taken current. taken.current current };

    ghost exception_can_be_named = { λ old new table exception taken serves.
        taken.can_be_named serves };

    ghost exception_values = { λ old new table exception taken value here.
        subst (λ n. value < n) (sym taken.same_values) here };

    ghost exception_entries = { λ old new table exception taken entry here.
        taken.entries entry here };

    ghost exception_builds = { λ old new table exception taken current.
        taken.current current };

    fn answer_value(made: Result<Value, BuildError>) -> Result<Value, BuildError>
        ensures { result ≡ made }
    {
        made
    }

    fn answer_inst(made: Result<Inst, BuildError>) -> Result<Inst, BuildError>
        ensures { result ≡ made }
    {
        made
    }

    fn value_in(answer: Result<Value, BuildError>) -> Result<Value, BuildError>
        ensures { result ≡ answer }
    {
        answer
    }

    fn value_type(&self, value: Value) -> Type {
        self.func.value_type(value)
    }

    fn allocator(&self) -> Global {
        self.func.allocator()
    }

    fn pool_constant(&mut self, bytes: &[u8]) -> Result<Constant, BuildError> {
        self.func.pool_constant(bytes)
    }

    fn take_jump_table(&mut self, table: JumpTable) -> Result<JumpTableData, BuildError> {
        let Some(edges) = self.func.take_jump_table(table) else {
            unreachable!();
        };
        Ok(edges)
    }

    fn take_exception_table(
        &mut self,
        table: ExceptionTable,
    ) -> Result<ExceptionTargets, BuildError> {
        let Some(exception) = self.func.take_exception_table(table) else {
            unreachable!();
        };
        Ok(exception)
    }

    fn build(&mut self, shape: InstructionData, ctrl_type: Type) -> Result<Inst, BuildError> {
        self.func
            .insert_inst(self.block, InsertAt::Back, shape, ctrl_type, self.srcloc)
    }

    fn build_value(
        &mut self,
        shape: InstructionData,
        ctrl_type: Type,
    ) -> Result<Value, BuildError> {
        let inst = self.build(shape, ctrl_type)?;
        Ok(self.func.inst_results(inst)[0])
    }

    fn build_like(&mut self, shape: InstructionData, like: Value) -> Result<Value, BuildError> {
        let ty = self.func.value_type(like);
        self.build_value(shape, ty)
    }

    fn build_pair(
        &mut self,
        shape: InstructionData,
        like: Value,
    ) -> Result<(Value, Value), BuildError> {
        let ty = self.func.value_type(like);
        let inst = self.build(shape, ty)?;
        Ok(both_values(self.func.inst_results(inst)))
    }

    fn refuse(&mut self) -> BuildError {
        BuildError::Memory
    }
}
