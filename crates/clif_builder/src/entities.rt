//! The builder's calls that make stack slots, signatures, functions, global values, jump tables and exception tables.
ghost use Rattle.std.specs.Prelude.{◌≡◌, ◌<◌, length, slice_get, option_copied};
ghost use Rattle.clif_tables.specs.Entries.{AStackSlot, ADynamicStackSlot, AGlobalValue, ASignature, AFunction};
ghost use Rattle.clif_builder.specs.Entries.{CreatesExceptionTable, CreatesJumpTable, MakesEdge, MakesEntry};

use crate::builder::FunctionBuilder;
use clif_instructions::block_call::{BlockArg, BlockCall};
use clif_ir::{ExceptionTableData, JumpTableData};
use clif_types::{
    Block, BuildError, DynamicStackSlot, DynamicStackSlotData, ExceptionTable, ExtFuncData,
    FuncRef, GlobalValue, GlobalValueData, JumpTable, SigRef, Signature, StackSlot, StackSlotData,
};

impl<'a, R> FunctionBuilder<'a, R> {
    /// Makes a stack slot of a fixed size in the function, and returns its number: `ss0`, `ss1`, and so on.
    ///
    /// It may be made at any time.
    ///
    /// # Errors
    ///
    /// `Memory`, where memory is refused, `Full`, where there are 2^32 - 1 such entries, and `Failed` after an error
    /// of an earlier call. The function is as it was then, and the builder has failed.
    pub fn create_sized_stack_slot(&mut self, slot: StackSlotData) -> Result<StackSlot, BuildError>
        ensures { MakesEntry (AStackSlot slot) self.old self.new result }
    {
        if self.failed {
            return Err(BuildError::Failed);
        }
        self.func.law_consistent();
        let made = self.func.create_sized_stack_slot(slot);
        self.failed = made.is_err();
        made
    }

    /// Makes a stack slot whose size is known only when the program runs: `dss0`, `dss1`, and so on.
    ///
    /// # Errors
    ///
    /// Those of [`FunctionBuilder::create_sized_stack_slot`].
    pub fn create_dynamic_stack_slot(
        &mut self,
        slot: DynamicStackSlotData,
    ) -> Result<DynamicStackSlot, BuildError>
        ensures { MakesEntry (ADynamicStackSlot slot) self.old self.new result }
    {
        if self.failed {
            return Err(BuildError::Failed);
        }
        self.func.law_consistent();
        let made = self.func.create_dynamic_stack_slot(slot);
        self.failed = made.is_err();
        made
    }

    /// Makes a global value: `gv0`, `gv1`, and so on.
    ///
    /// # Errors
    ///
    /// Those of [`FunctionBuilder::create_sized_stack_slot`].
    pub fn create_global_value(&mut self, value: GlobalValueData) -> Result<GlobalValue, BuildError>
        ensures { MakesEntry (AGlobalValue value) self.old self.new result }
    {
        if self.failed {
            return Err(BuildError::Failed);
        }
        self.func.law_consistent();
        let made = self.func.create_global_value(value);
        self.failed = made.is_err();
        made
    }

    /// Imports a signature, with which functions can be imported: `sig0`, `sig1`, and so on. Equal signatures get
    /// numbers of their own.
    ///
    /// # Errors
    ///
    /// Those of [`FunctionBuilder::create_sized_stack_slot`].
    pub fn import_signature(&mut self, signature: Signature) -> Result<SigRef, BuildError>
        ensures { MakesEntry (ASignature signature) self.old self.new result }
    {
        if self.failed {
            return Err(BuildError::Failed);
        }
        self.func.law_consistent();
        let made = self.func.import_signature(signature);
        self.failed = made.is_err();
        made
    }

    /// Imports a function: `fn0`, `fn1`, and so on. Equal functions get numbers of their own.
    ///
    /// Its signature was imported ([`FunctionBuilder::signature`] tells).
    ///
    /// # Errors
    ///
    /// Those of [`FunctionBuilder::create_sized_stack_slot`].
    pub fn import_function(&mut self, function: ExtFuncData) -> Result<FuncRef, BuildError>
        requires signature_exists { function.signature < length
            self.old.func.now.tables.signatures }
        ensures { MakesEntry (AFunction function) self.old self.new result }
    {
        if self.failed {
            return Err(BuildError::Failed);
        }
        self.func.law_consistent();
        let made = self.func.import_function(function);
        self.failed = made.is_err();
        made
    }

    /// The edge to a block that passes these arguments to its parameters, in order, for a jump table or an exception
    /// table: nothing is made in the function.
    ///
    /// # Errors
    ///
    /// `Memory`, where memory is refused, and `Failed` after an error of an earlier call. The builder has failed
    /// then.
    pub fn block_call(&mut self, block: Block, args: &[BlockArg]) -> Result<BlockCall, BuildError>
        ensures { MakesEdge block args.now self.old self.new result }
    {
        if self.failed {
            return Err(BuildError::Failed);
        }
        self.func.law_consistent();
        let ctx = &self.ctx.parts;
        let edge = BlockCall::new(ctx.alloc, block, args);
        self.failed = edge.is_err();
        edge
    }

    /// Makes a jump table, for one `br_table`: its default and its entries are edges, of which [`block_call`] makes
    /// one.
    ///
    /// No branch is made, and what the edges name is asked for only by the `br_table`.
    ///
    /// # Errors
    ///
    /// Those of [`FunctionBuilder::create_sized_stack_slot`].
    ///
    /// [`block_call`]: FunctionBuilder::block_call
    pub fn create_jump_table(&mut self, table: JumpTableData) -> Result<JumpTable, BuildError>
        ensures { CreatesJumpTable table self.old self.new result }
    {
        if self.failed {
            return Err(BuildError::Failed);
        }
        self.func.law_consistent();
        let made = self.func.create_jump_table(table);
        self.failed = made.is_err();
        made
    }

    /// Makes an exception table, for one `try_call` or `try_call_indirect`: the signature of the call, the edge along
    /// which it goes when it returns, and the items, which say along which edge it goes when it throws.
    /// [`block_call`] makes the edges, and the signature was imported.
    ///
    /// No branch is made, and what else the table names is asked for only by the try call.
    ///
    /// # Errors
    ///
    /// Those of [`FunctionBuilder::create_sized_stack_slot`].
    ///
    /// [`block_call`]: FunctionBuilder::block_call
    pub fn create_exception_table(
        &mut self,
        table: ExceptionTableData,
    ) -> Result<ExceptionTable, BuildError>
        requires imported { table.sig < length self.old.func.now.tables.signatures }
        ensures { CreatesExceptionTable table self.old self.new result }
    {
        if self.failed {
            return Err(BuildError::Failed);
        }
        self.func.law_consistent();
        let made = self.func.create_exception_table(table);
        self.failed = made.is_err();
        made
    }

    /// An imported signature, if there is one of this number.
    pub fn signature(&self, signature: SigRef) -> Option<&Signature>
        ensures { option_copied result ≡ slice_get self.now.func.now.tables.signatures signature }
    {
        self.func.tables().signature(signature)
    }
}
