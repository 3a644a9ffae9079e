//! The calls of a script that make entries of tables, each made on a builder if its condition holds.
ghost use Rattle.std.specs.Prelude.{◌≡◌, IsTrue};
ghost use Rattle.clif_builder.specs.Entries.{MakesEntry};
ghost use Rattle.clif_meaning.specs.Acceptance as acceptance;
ghost use Rattle.clif_resolution.specs.Answers.{Finds};
ghost use Rattle.clif_resolution.specs.Entries.{numbers_at};
ghost use Rattle.clif_replay.specs.Entries.{entry_in, entry_new, function_in};
ghost use Rattle.clif_replay.specs.Makes.{AppendsEntry, MakesCall};
ghost use Rattle.clif_replay.specs.Ready.{IsSound};

use clif_builder::FunctionBuilder;
use clif_calls::{Call, EntryCall, ImportedFunction};
use clif_resolution::{Answer, CallError, Condition, Entry, has_signature, signature_named};
use clif_types::{
    BuildError, DynamicStackSlotData, ExtFuncData, GlobalValueData, Signature, StackSlotData,
};

// How many shifts of an alignment there are: it is at most 2^31 bytes.
const ALIGN_SHIFTS: u8 = 32;

// An entry that is to be made.
#[derive(Drop)]
enum NewEntry {
    StackSlot(StackSlotData),
    DynamicStackSlot(DynamicStackSlotData),
    GlobalValue(GlobalValueData),
    Signature(Signature),
    Function(ExtFuncData),
}

// Makes an entry, where it may be made.
pub(crate) fn make_entry(
    builder: &mut FunctionBuilder<'_>,
    answers: &[Answer],
    call: &EntryCall,
) -> Result<Answer, CallError>
    requires { IsSound builder.old answers.now }
    ensures { MakesCall (Call.Entry call.now) builder.old builder.new answers.now result }
{
    let entry = entry_found(builder, answers, call)?;
    let made = append(builder, entry)?;
    Ok(Answer::Entry(made))
}

// The entry that a call makes, where it may be made: the alignment of a stack slot isn't too great, and the signature of a function was
// imported.
fn entry_found(
    builder: &FunctionBuilder<'_>,
    answers: &[Answer],
    call: &EntryCall,
) -> Result<NewEntry, CallError>
    ensures { Finds
        (λ found. entry_new found ≡ entry_in (numbers_at builder.now.func.now answers.now) call.now)
        (acceptance.can_make builder.now.func.now.tables
        (entry_in (numbers_at builder.now.func.now answers.now) call.now)) result }
{
    match call {
        EntryCall::CreateSizedStackSlot { size, align_shift } => {
            if *align_shift >= ALIGN_SHIFTS {
                return Err(CallError::Misuse(Condition::Alignment(*align_shift)));
            }
            Ok(NewEntry::StackSlot(StackSlotData::new(*size, *align_shift)))
        }
        EntryCall::CreateDynamicStackSlot(slot) => Ok(NewEntry::DynamicStackSlot(*slot)),
        EntryCall::CreateGlobalValue(value) => Ok(NewEntry::GlobalValue(value.clone()?)),
        EntryCall::ImportSignature(signature) => Ok(NewEntry::Signature(signature.clone()?)),
        EntryCall::ImportFunction(function) => function_found(builder, answers, function),
    }
}

// The function that is imported, if its signature was.
fn function_found(
    builder: &FunctionBuilder<'_>,
    answers: &[Answer],
    function: &ImportedFunction,
) -> Result<NewEntry, CallError>
    ensures { Finds
        (λ found. entry_new found ≡ function_in (numbers_at builder.now.func.now answers.now)
        function.now)
        (acceptance.can_make builder.now.func.now.tables
        (function_in (numbers_at builder.now.func.now answers.now) function.now)) result }
{
    let Some(signature) = signature_named(answers, function.signature) else {
        return Err(CallError::Misuse(Condition::NoSignature(function.signature)));
    };
    if !has_signature(builder, signature) {
        return Err(CallError::Misuse(Condition::NoSignature(function.signature)));
    }
    let name = function.name.clone()?;
    Ok(NewEntry::Function(ExtFuncData {
        name,
        signature,
        colocated: function.colocated,
        patchable: function.patchable,
    }))
}

// Puts an entry that may be made at the end of its table.
fn append(builder: &mut FunctionBuilder<'_>, entry: NewEntry) -> Result<Entry, BuildError>
    requires { IsTrue (acceptance.can_make builder.old.func.now.tables (entry_new entry)) }
    ensures { AppendsEntry (entry_new entry) builder.old builder.new result }
{
    match entry {
        NewEntry::StackSlot(slot) => match builder.create_sized_stack_slot(slot) {
            Ok(slot) => Ok(Entry::StackSlot(slot)),
            Err(error) => Err(error),
        },
        NewEntry::DynamicStackSlot(slot) => match builder.create_dynamic_stack_slot(slot) {
            Ok(_) => Ok(Entry::Unnamed),
            Err(error) => Err(error),
        },
        NewEntry::GlobalValue(value) => match builder.create_global_value(value) {
            Ok(_) => Ok(Entry::Unnamed),
            Err(error) => Err(error),
        },
        NewEntry::Signature(signature) => match builder.import_signature(signature) {
            Ok(signature) => Ok(Entry::Signature(signature)),
            Err(error) => Err(error),
        },
        NewEntry::Function(function) => match builder.import_function(function) {
            Ok(function) => Ok(Entry::Function(function)),
            Err(error) => Err(error),
        },
    }
}
