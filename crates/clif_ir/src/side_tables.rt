//! What a function keeps for some of its instructions and values: stack maps, and labels for debuggers.
ghost use Rattle.std.specs.Prelude.{◌≡◌, ◌<◌, length, OnOk, OnErr};
ghost use Rattle.clif_tables.specs.Entries.{NamesSlots};
ghost use Rattle.clif_tables.specs.Lists.{labels_at, stack_map_at, with_label, with_labels_collected, with_stack_map};
ghost use Rattle.clif_ir.specs.Changes.{with_tables};

use crate::function::Function;
use clif_tables::ValueLabelStart;
use clif_types::{BuildError, Inst, UserStackMapEntry, Value};

impl Function {
    /// The stack map of an instruction: the places in stack slots that hold references while it calls out. It is empty
    /// where none was set.
    pub fn stack_map(&self, inst: Inst) -> &[UserStackMapEntry]
        requires { inst < length self.now.insts }
        ensures { result.now ≡ stack_map_at self.now.tables inst }
    {
        self.tables.stack_map(inst)
    }

    /// Gives an instruction this stack map, in place of the one that it had.
    ///
    /// # Errors
    ///
    /// `Memory`, where memory is refused. The function is as it was then.
    pub fn set_stack_map(
        &mut self,
        inst: Inst,
        map: Vec<UserStackMapEntry>,
    ) -> Result<(), BuildError>
        requires inst_exists { inst < length self.old.insts }
        requires slots_exist { NamesSlots self.old.tables map.items }
        ensures ok { OnOk result (self.new ≡
            with_tables self.old (with_stack_map self.old.tables inst map.items)) }
        ensures only_memory { OnErr result (result ≡ Err BuildError.Memory) }
        ensures err { OnErr result (self.new ≡ self.old) }
    {
        self.tables.set_stack_map(inst, map)
    }

    /// Keeps the labels that values are given from now on. Those that are kept already stay.
    pub fn collect_debug_info(&mut self)
        ensures { self.new ≡ with_tables self.old (with_labels_collected self.old.tables) }
    {
        self.tables.collect_debug_info();
    }

    /// Gives a value a label from a source place on, behind those that it has; nothing is kept where labels aren't
    /// collected.
    ///
    /// # Errors
    ///
    /// `Memory`, where memory is refused. The function is as it was then.
    pub fn set_val_label(&mut self, value: Value, start: ValueLabelStart) -> Result<(), BuildError>
        requires value_exists { value < length self.old.values }
        ensures ok { OnOk result (self.new ≡
            with_tables self.old (with_label self.old.tables value start)) }
        ensures only_memory { OnErr result (result ≡ Err BuildError.Memory) }
        ensures err { OnErr result (self.new ≡ self.old) }
    {
        self.tables.set_val_label(value, start)
    }

    /// The labels of a value, in the order in which they were given.
    pub fn value_labels(&self, value: Value) -> &[ValueLabelStart]
        requires { value < length self.now.values }
        ensures { result.now ≡ labels_at self.now.tables value }
    {
        self.tables.value_labels(value)
    }
}
