//! The switch of a script, made on a builder if its condition holds.
ghost use Rattle.std.specs.Prelude.{◌≡◌, ◌⊎◌, ◌<◌, length, true, false, IfErr, IfOk, IsTrue};
ghost use Rattle.std.specs.List.{list_all};
ghost use Rattle.clif_builder.specs.Builder.{is_free};
ghost use Rattle.clif_replay.specs.Cases.{are_twice, are_targets, can_switch_on, cases_at, switch_told};
ghost use Rattle.clif_replay.specs.Emits.{MakesSwitch};
ghost use Rattle.clif_replay.specs.Ready.{IsSound};
ghost use Rattle.clif_resolution.specs.Answers.{block_of};
ghost use Rattle.clif_resolution.specs.Conditions.{is_target};
ghost use Rattle.clif_resolution.specs.declared.answers.CallError.TheVariants as CallError;

use clif_builder::FunctionBuilder;
use clif_calls::{Name, SwitchEntry};
use clif_resolution::{
    Answer, CallError, Condition, block_named, current_fault, has_current, may_seal, value_named,
};
use clif_switch::{Switch, SwitchError};
use clif_switch_calls::laws::refusals_are_of_keys;
use clif_types::Value;

// A switch, in a current unfilled block, of an integer, to blocks that aren't sealed.
pub(crate) fn make_switch(
    builder: &mut FunctionBuilder<'_>,
    answers: &[Answer],
    entries: &[SwitchEntry],
    value: Name,
    otherwise: Name,
) -> Result<Answer, CallError>
    requires { IsSound builder.old answers.now }
    ensures { MakesSwitch entries.now value otherwise builder.old builder.new answers.now result }
{
    refusals_are_of_keys();
    let Some(val) = value_named(builder.func(), answers, value) else {
        return Err(CallError::Misuse(Condition::NoValue(value)));
    };
    let Some(other) = block_named(answers, otherwise) else {
        return Err(CallError::Misuse(Condition::NoBlock(otherwise)));
    };
    if !may_switch(builder, answers, entries, val, otherwise) {
        return Err(CallError::Misuse(switch_fault(builder, answers, entries, val, otherwise)));
    }
    let switch = switch_of(builder, answers, entries)?;
    match switch.emit(builder, val, other) {
        Ok(()) => Ok(Answer::Nothing),
        Err(error) => Err(told(error)),
    }
}

// Whether a switch of a value may be made: in a current unfilled block, of an integer, to blocks that aren't sealed.
fn may_switch(
    builder: &FunctionBuilder<'_>,
    answers: &[Answer],
    entries: &[SwitchEntry],
    val: Value,
    otherwise: Name,
) -> bool
    requires { val < length builder.now.func.now.values }
    ensures { result ≡ can_switch_on builder.now answers.now entries.now val otherwise }
{
    has_current(builder)
        && builder.func().value_type(val).is_int()
        && may_target(builder, answers, otherwise)
        && may_target_all(builder, answers, entries)
}

// Why it may not be made: the first condition that doesn't hold.
fn switch_fault(
    builder: &FunctionBuilder<'_>,
    answers: &[Answer],
    entries: &[SwitchEntry],
    val: Value,
    otherwise: Name,
) -> Condition
    requires { val < length builder.now.func.now.values }
{
    if !has_current(builder) {
        return current_fault(builder);
    }
    if !builder.func().value_type(val).is_int() {
        return Condition::NoInteger(val);
    }
    if may_target(builder, answers, otherwise) {
        for entry in entries.iter() {
            if !may_target(builder, answers, entry.block) {
                return target_fault(answers, entry.block);
            }
        }
    }
    target_fault(answers, otherwise)
}

// Why a switch may not lead to what a name leads to.
fn target_fault(answers: &[Answer], name: Name) -> Condition {
    match block_named(answers, name) {
        Some(block) => Condition::Sealed(block),
        None => Condition::NoBlock(name),
    }
}

// Whether a name leads to a block that isn't sealed.
fn may_target(builder: &FunctionBuilder<'_>, answers: &[Answer], name: Name) -> bool
    ensures { result ≡ is_target builder.now (block_of answers.now name) }
{
    match block_named(answers, name) {
        Some(block) => may_seal(builder, block),
        None => false,
    }
}

// Whether each entry leads to such a block.
fn may_target_all(
    builder: &FunctionBuilder<'_>,
    answers: &[Answer],
    entries: &[SwitchEntry],
) -> bool
    ensures { result ≡ are_targets builder.now answers.now entries.now }
{
    for entry in entries.iter() {
        if !may_target(builder, answers, entry.block) {
            return false;
        }
    }
    true
}

// The switch with these entries, of which each leads to a block: refused where a key comes twice.
fn switch_of(
    builder: &FunctionBuilder<'_>,
    answers: &[Answer],
    entries: &[SwitchEntry],
) -> Result<Switch, CallError>
    requires { are_targets builder.now answers.now entries.now ≡ true }
    ensures ok { IfOk result (λ switch. switch ≡ cases_at answers.now entries.now) }
    ensures once { IfOk result (λ switch. are_twice entries.now ≡ false) }
    ensures err { IfErr result (λ error.
        ((why : Condition) × (error ≡ CallError.Refused why) × (are_twice entries.now ≡ true))
        ⊎ (error ≡ CallError.Memory)) }
{
    let mut switch = Switch::new(builder.func().allocator());
    for entry in entries.iter() {
        let Some(block) = block_named(answers, entry.block) else {
            return Err(CallError::Misuse(Condition::NoBlock(entry.block)));
        };
        if let Err(error) = switch.set_entry(entry.key, block) {
            return Err(told(error));
        }
    }
    Ok(switch)
}

// How a refusal of the switch is told.
fn told(error: SwitchError) -> CallError
    ensures { result ≡ switch_told error }
{
    match error {
        SwitchError::Build(error) => CallError::from(error),
        SwitchError::SetTwice(key) => CallError::Refused(Condition::KeyTwice(key)),
        SwitchError::KeyTooWide { ty, max } => CallError::Refused(Condition::KeyTooWide(ty, max)),
        SwitchError::TableTooLong => CallError::Refused(Condition::TableTooLong),
    }
}
