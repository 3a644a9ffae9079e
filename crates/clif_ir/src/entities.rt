//! The tables of a function beside those of its values, instructions and blocks: stack slots, signatures,
//! functions, constants and so on.
//!
//! Each call that makes an entry gives it the next number of its table. Its errors are `Memory`, and `Full`
//! exactly where the table holds 2^32 - 1 entries; the function is then as it was.
ghost use Rattle.std.specs.Prelude.{◌≡◌, ◌<◌, ◌↔◌, length, slice_get, All, IsTrue};
ghost use Rattle.std.specs.Borrow.{sem};
ghost use Rattle.clif_tables.specs.Entries.{AStackSlot, ADynamicStackSlot, AGlobalValue, ASignature, AFunction};
ghost use Rattle.clif_instructions.specs.ExceptionTables.{exception_shape};
ghost use Rattle.clif_tables.specs.Lists.{unserved, with_constant, with_exception_table, with_exception_table_served, with_jump_table, with_table_served};
ghost use Rattle.clif_tables.specs.Makes.{MakesEntry, Pools};
ghost use Rattle.clif_instructions.specs.Instruction.{entries_of};
ghost use Rattle.clif_ir.specs.Changes.{with_tables};
ghost use Rattle.clif_ir.specs.Consistent.{EntryExists};
ghost use Rattle.clif_ir.specs.Entries.{MakesIn};
ghost use Rattle.clif_ir.specs.Lends.{lends_regions};

use crate::function::Function;
use clif_instructions::instructions::InstructionData;
use clif_tables::{ExceptionTableData, ExceptionTargets, JumpTableData, Tables};
use clif_types::{
    AliasRegionSet, BuildError, Constant, DynamicStackSlot, DynamicStackSlotData, EntityRef,
    ExceptionTable, ExtFuncData, FuncRef, GlobalValue, GlobalValueData, JumpTable, SigRef,
    Signature, StackSlot, StackSlotData,
};

impl Function {
    /// The tables, for reading.
    pub fn tables(&self) -> &Tables
        ensures { result.now ≡ self.now.tables }
    {
        &self.tables
    }

    /// Whether the entries of tables exist that an instruction of this shape names.
    pub fn has_entries(&self, shape: &InstructionData) -> bool
        ensures { IsTrue result ↔ All (EntryExists self.now.tables) (entries_of shape.now) }
    {
        match shape {
            InstructionData::StackLoad { slot, .. } | InstructionData::StackStore { slot, .. } => {
                slot.index() < self.tables.stack_slot_count()
            }
            InstructionData::UnaryConst { constant, .. } => {
                constant.index() < self.tables.constant_count()
            }
            InstructionData::Call { func_ref, .. } => self.has_function(*func_ref),
            InstructionData::CallIndirect { sig_ref, .. } => self.has_signature(*sig_ref),
            InstructionData::TryCall {
                func_ref,
                exception,
                ..
            } => self.has_function(*func_ref) && self.has_signature(exception.signature()),
            InstructionData::TryCallIndirect { exception, .. } => {
                self.has_signature(exception.signature())
            }
            _ => true,
        }
    }

    // Whether a function of this number was imported.
    fn has_function(&self, function: FuncRef) -> bool
        ensures { IsTrue result ↔ (function < length self.now.tables.functions) }
    {
        function.index() < self.tables.function_count()
    }

    // Whether a signature of this number was imported.
    fn has_signature(&self, sig: SigRef) -> bool
        ensures { IsTrue result ↔ (sig < length self.now.tables.signatures) }
    {
        sig.index() < self.tables.signature_count()
    }

    /// The set of alias regions, which may be changed.
    pub fn alias_regions_mut(&mut self) -> &mut AliasRegionSet
        ensures* writes_back { sem 𝓛 (lends_regions self.entry result) }
        ensures value { result.now ≡ self.old.tables.alias_regions }
    {
        self.tables.alias_regions_mut()
    }

    /// Makes a stack slot.
    ///
    /// # Errors
    ///
    /// `Memory`, where memory is refused, or `Full`, where the table has 2^32 - 1 entries. All is as it was then.
    pub fn create_sized_stack_slot(&mut self, slot: StackSlotData) -> Result<StackSlot, BuildError>
        ensures { MakesIn (AStackSlot slot) self.old self.new result }
    {
        self.tables.create_sized_stack_slot(slot)
    }

    /// Makes a stack slot whose size is known only when the program runs.
    ///
    /// # Errors
    ///
    /// `Memory`, where memory is refused, or `Full`, where the table has 2^32 - 1 entries. All is as it was then.
    pub fn create_dynamic_stack_slot(
        &mut self,
        slot: DynamicStackSlotData,
    ) -> Result<DynamicStackSlot, BuildError>
        ensures { MakesIn (ADynamicStackSlot slot) self.old self.new result }
    {
        self.tables.create_dynamic_stack_slot(slot)
    }

    /// Makes a global value.
    ///
    /// # Errors
    ///
    /// `Memory`, where memory is refused, or `Full`, where the table has 2^32 - 1 entries. All is as it was then.
    pub fn create_global_value(&mut self, value: GlobalValueData) -> Result<GlobalValue, BuildError>
        ensures { MakesIn (AGlobalValue value) self.old self.new result }
    {
        self.tables.create_global_value(value)
    }

    /// Imports a signature, as a new one also where there is an equal one.
    ///
    /// # Errors
    ///
    /// `Memory`, where memory is refused, or `Full`, where the table has 2^32 - 1 entries. All is as it was then.
    pub fn import_signature(&mut self, signature: Signature) -> Result<SigRef, BuildError>
        ensures { MakesIn (ASignature signature) self.old self.new result }
    {
        self.tables.import_signature(signature)
    }

    /// Imports a function, as a new one also where there is an equal one. Its signature was imported.
    ///
    /// # Errors
    ///
    /// `Memory`, where memory is refused, or `Full`, where the table has 2^32 - 1 entries. All is as it was then.
    pub fn import_function(&mut self, function: ExtFuncData) -> Result<FuncRef, BuildError>
        requires signature_exists { function.signature < length self.old.tables.signatures }
        ensures { MakesIn (AFunction function) self.old self.new result }
    {
        self.tables.import_function(function)
    }

    /// The constant of these bytes, the lowest first. It is made if there is none: equal bytes are one constant.
    ///
    /// # Errors
    ///
    /// `Memory`, where memory is refused, or `Full`, where there are 2^32 - 1 other constants. All is as it was then.
    pub fn pool_constant(&mut self, bytes: &[u8]) -> Result<Constant, BuildError>
        ensures { Pools bytes.now self.old.tables.constants self.old self.new
            (with_tables self.old (with_constant self.old.tables bytes.now)) result }
    {
        self.tables.pool_constant(bytes)
    }

    /// Makes a jump table, which serves no instruction so far.
    ///
    /// # Errors
    ///
    /// `Memory`, where memory is refused, or `Full`, where the table has 2^32 - 1 entries. All is as it was then.
    pub fn create_jump_table(&mut self, table: JumpTableData) -> Result<JumpTable, BuildError>
        ensures { MakesEntry (λ number. number) (length self.old.tables.jump_tables) self.old self.new
            (with_tables self.old (with_jump_table self.old.tables table)) result }
    {
        self.tables.create_jump_table(table)
    }

    /// Takes the edges of a jump table for the instruction that it serves from now on, if there is a table of this
    /// number that serves none so far.
    pub fn take_jump_table(&mut self, table: JumpTable) -> Option<JumpTableData>
        ensures taken { result ≡ unserved (slice_get self.old.tables.jump_tables table) }
        ensures served { self.new ≡ with_tables self.old (with_table_served self.old.tables table) }
    {
        self.tables.take_jump_table(table)
    }

    /// Makes an exception table, which serves no instruction so far.
    ///
    /// # Errors
    ///
    /// `Memory`, where memory is refused, or `Full`, where the table has 2^32 - 1 entries. All is as it was then.
    pub fn create_exception_table(
        &mut self,
        table: ExceptionTableData,
    ) -> Result<ExceptionTable, BuildError>
        ensures { MakesEntry (λ number. number) (length self.old.tables.exception_tables) self.old self.new
            (with_tables self.old (with_exception_table self.old.tables (exception_shape table))) result }
    {
        self.tables.create_exception_table(table)
    }

    /// Takes an exception table for the instruction that it serves from now on, if there is a table of this number
    /// that serves none so far.
    pub fn take_exception_table(&mut self, table: ExceptionTable) -> Option<ExceptionTargets>
        ensures taken { result ≡ unserved (slice_get self.old.tables.exception_tables table) }
        ensures served { self.new ≡ with_tables self.old (with_exception_table_served self.old.tables table) }
    {
        self.tables.take_exception_table(table)
    }
}
