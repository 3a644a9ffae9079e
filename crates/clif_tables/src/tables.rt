//! The tables together.
ghost use Rattle.std.specs.Prelude.{◌≡◌, ◌<◌, ◌^◌, length, slice_get, option_copied, OnErr, OnOk};
ghost use Rattle.std.specs.Borrow.{sem};
ghost use Rattle.clif_tables.specs.Makes.{Makes, Pools};
ghost use Rattle.clif_tables.specs.Lends.{lends_regions};
ghost use Rattle.clif_instructions.specs.ExceptionTables.{exception_shape};
ghost use Rattle.clif_tables.specs.Lists.{no_entries, with_stack_slot, with_dynamic_stack_slot, with_global_value, with_signature, with_function, with_constant, with_jump_table, with_exception_table, with_exception_table_served, with_table_served, unserved, stack_map_at, with_stack_map, labels_at, with_labels_collected, with_label};

use crate::constants::{ConstantData, ConstantPool};
use crate::labels::{ValueLabelStart, ValueLabels};
use crate::primary_map::PrimaryMap;
use crate::stack_maps::StackMaps;
use clif_instructions::exception_table::{ExceptionTableData, ExceptionTargets};
use clif_instructions::jump_table::JumpTableData;
use clif_types::{
    AliasRegionSet, BuildError, Constant, DynamicStackSlot, DynamicStackSlotData, EntityRef,
    ExceptionTable, ExtFuncData, FuncRef, GlobalValue, GlobalValueData, Inst, JumpTable, SigRef,
    Signature, StackSlot, StackSlotData, UserStackMapEntry, Value,
};
use std::alloc::Global;
use std::marker::Model;

/// The tables of a function beside those of its values, instructions and blocks.
///
/// A call that makes an entry gives it the next number of its table. Its errors are `Memory`, and `Full`
/// exactly where the table holds 2^32 - 1 entries; the tables are then as they were.
pub struct Tables {
    alloc: Global,
    pub(crate) stack_slots: PrimaryMap<StackSlot, StackSlotData>,
    pub(crate) dynamic_stack_slots: PrimaryMap<DynamicStackSlot, DynamicStackSlotData>,
    pub(crate) global_values: PrimaryMap<GlobalValue, GlobalValueData>,
    pub(crate) alias_regions: AliasRegionSet,
    pub(crate) signatures: PrimaryMap<SigRef, Signature>,
    pub(crate) functions: PrimaryMap<FuncRef, ExtFuncData>,
    pub(crate) constants: ConstantPool,
    jump_tables: PrimaryMap<JumpTable, Option<JumpTableData>>,
    exception_tables: PrimaryMap<ExceptionTable, Option<ExceptionTargets>>,
    stack_maps: StackMaps,
    // `None` while labels aren't collected
    value_labels: Option<ValueLabels>,
}

impl Model for Tables {
    ghost use Rattle.clif_tables.specs.Lists.{TableLists};

    ghost Value = { TableLists };

    ghost view = { λ t. record {
      stack_slots = t.stack_slots;
      dynamic_stack_slots = t.dynamic_stack_slots;
      global_values = t.global_values;
      alias_regions = t.alias_regions;
      signatures = t.signatures;
      functions = t.functions;
      constants = t.constants;
      jump_tables = t.jump_tables;
      exception_tables = t.exception_tables;
      stack_maps = t.stack_maps;
      value_labels = t.value_labels;
    } };
}

// Written by hand, so that whoever drops tables meets one call and not the fields.
impl Drop for Tables {
    fn drop(self) {
        let Tables {
            alloc: _,
            stack_slots: _,
            dynamic_stack_slots: _,
            global_values: _,
            alias_regions: _,
            signatures: _,
            functions: _,
            constants: _,
            jump_tables: _,
            exception_tables: _,
            stack_maps: _,
            value_labels: _,
        } = self;
    }
}

impl Tables {
    /// Tables without entries.
    pub fn new(alloc: Global) -> Tables
        ensures { result ≡ no_entries }
    {
        Tables {
            alloc,
            stack_slots: PrimaryMap::new(alloc),
            dynamic_stack_slots: PrimaryMap::new(alloc),
            global_values: PrimaryMap::new(alloc),
            alias_regions: AliasRegionSet::new(alloc),
            signatures: PrimaryMap::new(alloc),
            functions: PrimaryMap::new(alloc),
            constants: ConstantPool::new(alloc),
            jump_tables: PrimaryMap::new(alloc),
            exception_tables: PrimaryMap::new(alloc),
            stack_maps: StackMaps::new(alloc),
            value_labels: None,
        }
    }

    /// Makes a stack slot.
    ///
    /// # Errors
    ///
    /// `Memory`, where memory is refused, or `Full`, where the table has 2^32 - 1 entries. All is as it was then.
    pub fn create_sized_stack_slot(&mut self, slot: StackSlotData) -> Result<StackSlot, BuildError>
        ensures { Makes (length self.old.stack_slots) self.old self.new (with_stack_slot self.old slot) result }
    {
        self.stack_slots.push(slot)
    }

    /// Makes a stack slot whose size is known only when the program runs.
    ///
    /// # Errors
    ///
    /// `Memory`, where memory is refused, or `Full`, where the table has 2^32 - 1 entries. All is as it was then.
    pub fn create_dynamic_stack_slot(
        &mut self,
        slot: DynamicStackSlotData,
    ) -> Result<DynamicStackSlot, BuildError>
        ensures { Makes (length self.old.dynamic_stack_slots) self.old self.new
            (with_dynamic_stack_slot self.old slot) result }
    {
        self.dynamic_stack_slots.push(slot)
    }

    /// Makes a global value.
    ///
    /// # Errors
    ///
    /// `Memory`, where memory is refused, or `Full`, where the table has 2^32 - 1 entries. All is as it was then.
    pub fn create_global_value(&mut self, value: GlobalValueData) -> Result<GlobalValue, BuildError>
        ensures { Makes (length self.old.global_values) self.old self.new (with_global_value self.old value) result }
    {
        self.global_values.push(value)
    }

    /// Imports a signature, as a new one also where there is an equal one.
    ///
    /// # Errors
    ///
    /// `Memory`, where memory is refused, or `Full`, where the table has 2^32 - 1 entries. All is as it was then.
    pub fn import_signature(&mut self, signature: Signature) -> Result<SigRef, BuildError>
        ensures { Makes (length self.old.signatures) self.old self.new (with_signature self.old signature) result }
    {
        self.signatures.push(signature)
    }

    /// Imports a function, as a new one also where there is an equal one.
    ///
    /// # Errors
    ///
    /// `Memory`, where memory is refused, or `Full`, where the table has 2^32 - 1 entries. All is as it was then.
    pub fn import_function(&mut self, function: ExtFuncData) -> Result<FuncRef, BuildError>
        ensures { Makes (length self.old.functions) self.old self.new (with_function self.old function) result }
    {
        self.functions.push(function)
    }

    /// The constant of these bytes, the lowest first. It is made if there is none: equal bytes are one constant.
    ///
    /// # Errors
    ///
    /// `Memory`, where memory is refused, or `Full`, where there are 2^32 - 1 other constants. All is as it was then.
    pub fn pool_constant(&mut self, bytes: &[u8]) -> Result<Constant, BuildError>
        ensures { Pools bytes.now self.old.constants self.old self.new (with_constant self.old bytes.now) result }
    {
        self.constants.insert(bytes)
    }

    /// Makes a jump table, which serves no instruction so far.
    ///
    /// # Errors
    ///
    /// `Memory`, where memory is refused, or `Full`, where the table has 2^32 - 1 entries. All is as it was then.
    pub fn create_jump_table(&mut self, table: JumpTableData) -> Result<JumpTable, BuildError>
        ensures { Makes (length self.old.jump_tables) self.old self.new (with_jump_table self.old table) result }
    {
        self.jump_tables.push(Some(table))
    }

    /// Makes an exception table, which serves no instruction so far.
    ///
    /// # Errors
    ///
    /// `Memory`, where memory is refused, or `Full`, where the table has 2^32 - 1 entries. All is as it was then.
    pub fn create_exception_table(
        &mut self,
        table: ExceptionTableData,
    ) -> Result<ExceptionTable, BuildError>
        ensures { Makes (length self.old.exception_tables) self.old self.new (with_exception_table self.old (exception_shape table)) result }
    {
        self.exception_tables.check_room()?;
        let targets = ExceptionTargets::new(self.alloc, table)?;
        self.exception_tables.push(Some(targets))
    }

    /// The regions, to which more may be added.
    pub fn alias_regions_mut(&mut self) -> &mut AliasRegionSet
        ensures* writes_back { sem 𝓛 (lends_regions self.entry result) }
        ensures value { result.now ≡ self.old.alias_regions }
    {
        &mut self.alias_regions
    }

    /// The regions of memory.
    pub fn alias_regions(&self) -> &AliasRegionSet
        ensures { result.now ≡ self.now.alias_regions }
    {
        &self.alias_regions
    }

    /// A stack slot, if there is one of this number.
    pub fn stack_slot(&self, slot: StackSlot) -> Option<&StackSlotData>
        ensures { option_copied result ≡ slice_get self.now.stack_slots slot }
    {
        self.stack_slots.get(slot)
    }

    /// A stack slot whose size is known only when the program runs, if there is one of this number.
    pub fn dynamic_stack_slot(&self, slot: DynamicStackSlot) -> Option<&DynamicStackSlotData>
        ensures { option_copied result ≡ slice_get self.now.dynamic_stack_slots slot }
    {
        self.dynamic_stack_slots.get(slot)
    }

    /// A global value, if there is one of this number.
    pub fn global_value(&self, value: GlobalValue) -> Option<&GlobalValueData>
        ensures { option_copied result ≡ slice_get self.now.global_values value }
    {
        self.global_values.get(value)
    }

    /// An imported signature, if there is one of this number.
    pub fn signature(&self, signature: SigRef) -> Option<&Signature>
        ensures { option_copied result ≡ slice_get self.now.signatures signature }
    {
        self.signatures.get(signature)
    }

    /// An imported function, if there is one of this number.
    pub fn function(&self, function: FuncRef) -> Option<&ExtFuncData>
        ensures { option_copied result ≡ slice_get self.now.functions function }
    {
        self.functions.get(function)
    }

    /// The bytes of a constant, if there is one of this number.
    pub fn constant(&self, constant: Constant) -> Option<&ConstantData>
        ensures { option_copied result ≡ slice_get self.now.constants constant }
    {
        self.constants.get(constant)
    }

    /// The edges of a jump table, if there is one of this number that serves no instruction so far.
    pub fn jump_table(&self, table: JumpTable) -> Option<&JumpTableData>
        ensures { option_copied result ≡ unserved (slice_get self.now.jump_tables table) }
    {
        self.jump_tables.get(table)?.as_ref()
    }

    /// Takes the edges of a jump table for the instruction that it serves from now on, if there is a table of this
    /// number that serves none so far.
    pub fn take_jump_table(&mut self, table: JumpTable) -> Option<JumpTableData>
        ensures taken { result ≡ unserved (slice_get self.old.jump_tables table) }
        ensures served { self.new ≡ with_table_served self.old table }
    {
        if table.index() >= self.jump_tables.len() {
            return None;
        }
        self.jump_tables.entry_mut(table).take()
    }

    /// An exception table, if there is one of this number that serves no instruction so far.
    pub fn exception_table(&self, table: ExceptionTable) -> Option<&ExceptionTargets>
        ensures { option_copied result ≡ unserved (slice_get self.now.exception_tables table) }
    {
        self.exception_tables.get(table)?.as_ref()
    }

    /// Takes an exception table for the instruction that it serves from now on, if there is a table of this number
    /// that serves none so far.
    pub fn take_exception_table(&mut self, table: ExceptionTable) -> Option<ExceptionTargets>
        ensures taken { result ≡ unserved (slice_get self.old.exception_tables table) }
        ensures served { self.new ≡ with_exception_table_served self.old table }
    {
        if table.index() >= self.exception_tables.len() {
            return None;
        }
        self.exception_tables.entry_mut(table).take()
    }

    /// The stack map of an instruction, which is empty where it has none.
    pub fn stack_map(&self, inst: Inst) -> &[UserStackMapEntry]
        ensures { result.now ≡ stack_map_at self.now inst }
    {
        self.stack_maps.get(inst)
    }

    /// Gives an instruction a stack map, in place of the one that it had. An empty one reads as none.
    ///
    /// # Errors
    ///
    /// `Memory`; nothing is changed then.
    pub fn set_stack_map(
        &mut self,
        inst: Inst,
        map: Vec<UserStackMapEntry>,
    ) -> Result<(), BuildError>
        ensures ok { OnOk result (self.new ≡ with_stack_map self.old inst map.items) }
        ensures err { OnErr result (self.new ≡ self.old) }
        ensures only_memory { OnErr result (result ≡ Err BuildError.Memory) }
    {
        self.stack_maps.set(inst, map)
    }

    /// Collects labels of values from now on. Where they are collected already, nothing changes.
    pub fn collect_debug_info(&mut self)
        ensures { self.new ≡ with_labels_collected self.old }
    {
        if self.value_labels.is_none() {
            self.value_labels = Some(ValueLabels::new(self.alloc));
        }
    }

    /// Gives a value one label more. Where labels aren't collected, nothing is kept, and the answer is `Ok`.
    ///
    /// # Errors
    ///
    /// `Memory`; nothing is changed then.
    pub fn set_val_label(&mut self, value: Value, start: ValueLabelStart) -> Result<(), BuildError>
        ensures ok { OnOk result (self.new ≡ with_label self.old value start) }
        ensures err { OnErr result (self.new ≡ self.old) }
        ensures only_memory { OnErr result (result ≡ Err BuildError.Memory) }
    {
        match &mut self.value_labels {
            Some(labels) => labels.push(value, start),
            None => Ok(()),
        }
    }

    /// The labels of a value, in the order of the calls that set them; none where none was kept.
    pub fn value_labels(&self, value: Value) -> &[ValueLabelStart]
        ensures { result.now ≡ labels_at self.now value }
    {
        match &self.value_labels {
            Some(labels) => labels.get(value),
            None => &[],
        }
    }

    /// How many stack slots there are.
    pub fn stack_slot_count(&self) -> usize
        ensures exact { result ≡ length self.now.stack_slots }
        ensures fits { result < 2 ^ 32 }
    {
        self.stack_slots.len()
    }

    /// How many dynamic stack slots there are.
    pub fn dynamic_stack_slot_count(&self) -> usize
        ensures exact { result ≡ length self.now.dynamic_stack_slots }
        ensures fits { result < 2 ^ 32 }
    {
        self.dynamic_stack_slots.len()
    }

    /// How many global values there are.
    pub fn global_value_count(&self) -> usize
        ensures exact { result ≡ length self.now.global_values }
        ensures fits { result < 2 ^ 32 }
    {
        self.global_values.len()
    }

    /// How many imported signatures there are.
    pub fn signature_count(&self) -> usize
        ensures exact { result ≡ length self.now.signatures }
        ensures fits { result < 2 ^ 32 }
    {
        self.signatures.len()
    }

    /// How many imported functions there are.
    pub fn function_count(&self) -> usize
        ensures exact { result ≡ length self.now.functions }
        ensures fits { result < 2 ^ 32 }
    {
        self.functions.len()
    }

    /// How many constants there are.
    pub fn constant_count(&self) -> usize
        ensures exact { result ≡ length self.now.constants }
        ensures fits { result < 2 ^ 32 }
    {
        self.constants.len()
    }

    /// How many jump tables there are.
    pub fn jump_table_count(&self) -> usize
        ensures exact { result ≡ length self.now.jump_tables }
        ensures fits { result < 2 ^ 32 }
    {
        self.jump_tables.len()
    }

    /// How many exception tables there are.
    pub fn exception_table_count(&self) -> usize
        ensures exact { result ≡ length self.now.exception_tables }
        ensures fits { result < 2 ^ 32 }
    {
        self.exception_tables.len()
    }
}
