//! The entries of tables that the names of a script lead to.
ghost use Rattle.std.specs.Prelude.{◌≡◌};
ghost use Rattle.clif_resolution.specs.Entries.{ExceptionTables, Functions, JumpTables, Signatures, StackSlots, entry_of};

use crate::answers::{Answer, Entry};
use clif_calls::Name;
use clif_types::{ExceptionTable, FuncRef, JumpTable, SigRef, StackSlot};

/// The stack slot that a name leads to.
pub fn stack_slot_named(answers: &[Answer], name: Name) -> Option<StackSlot>
    ensures { result ≡ entry_of StackSlots answers.now name }
{
    match answers.get(name.place) {
        Some(Answer::Entry(Entry::StackSlot(slot))) if name.answer == 0 => Some(*slot),
        _ => None,
    }
}

/// The signature that a name leads to.
pub fn signature_named(answers: &[Answer], name: Name) -> Option<SigRef>
    ensures { result ≡ entry_of Signatures answers.now name }
{
    match answers.get(name.place) {
        Some(Answer::Entry(Entry::Signature(signature))) if name.answer == 0 => Some(*signature),
        _ => None,
    }
}

/// The function that a name leads to.
pub fn function_named(answers: &[Answer], name: Name) -> Option<FuncRef>
    ensures { result ≡ entry_of Functions answers.now name }
{
    match answers.get(name.place) {
        Some(Answer::Entry(Entry::Function(function))) if name.answer == 0 => Some(*function),
        _ => None,
    }
}

/// The jump table that a name leads to.
pub fn jump_table_named(answers: &[Answer], name: Name) -> Option<JumpTable>
    ensures { result ≡ entry_of JumpTables answers.now name }
{
    match answers.get(name.place) {
        Some(Answer::Entry(Entry::JumpTable(table))) if name.answer == 0 => Some(*table),
        _ => None,
    }
}

/// The exception table that a name leads to.
pub fn exception_table_named(answers: &[Answer], name: Name) -> Option<ExceptionTable>
    ensures { result ≡ entry_of ExceptionTables answers.now name }
{
    match answers.get(name.place) {
        Some(Answer::Entry(Entry::ExceptionTable(table))) if name.answer == 0 => Some(*table),
        _ => None,
    }
}
