//! Whether what try calls name as their contexts exists.
ghost use Rattle.std.specs.Prelude.{◌↔◌, All, IsTrue};
ghost use Rattle.std.specs.List.{flat_map};
ghost use Rattle.clif_instructions.specs.ExceptionTables.{item_context};
ghost use Rattle.clif_instructions.specs.Instruction.{contexts};
ghost use Rattle.clif_ir.specs.Consistent.{ValueExists};

use crate::function::Function;
use clif_instructions::exception_table::ExceptionItem;
use clif_instructions::instructions::InstructionData;
use clif_types::EntityRef;

// Whether the value exists that an item names as a context, if it names one.
fn has_context(func: &Function, item: ExceptionItem) -> bool
    ensures { IsTrue result ↔ All (ValueExists func.now) (item_context item) }
{
    match item {
        ExceptionItem::Context(value) => value.index() < func.value_count(),
        ExceptionItem::Tag(_) | ExceptionItem::Default => true,
    }
}

// Whether the values exist that items name as contexts.
fn has_contexts_of(func: &Function, items: &[ExceptionItem]) -> bool
    ensures { IsTrue result ↔ All (ValueExists func.now) (flat_map item_context items.now) }
{
    for place in 0..items.len() {
        if !has_context(func, items[place]) {
            return false;
        }
    }
    true
}

impl Function {
    /// Whether the values exist that an instruction of this shape names as contexts, as a try call does.
    pub fn has_contexts(&self, shape: &InstructionData) -> bool
        ensures { IsTrue result ↔ All (ValueExists self.now) (contexts shape.now) }
    {
        match shape.exception_targets() {
            Some(exception) => has_contexts_of(self, exception.items()),
            None => true,
        }
    }
}
