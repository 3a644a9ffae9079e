//! The calls of a script that ask for stack maps, each made on a builder if its condition holds.
ghost use Rattle.std.specs.Prelude.{◌≡◌, ◌<◌, false, length};
ghost use Rattle.clif_meaning.specs.Acceptance.{fits_stack_map};
ghost use Rattle.clif_replay.specs.Makes.{MakesCall};
ghost use Rattle.clif_replay.specs.Ready.{IsSound, can_mark, can_record};

use clif_builder::FunctionBuilder;
use clif_builder::laws::ledger_is_read_by_number;
use clif_calls::{Call, Name};
use clif_records::Variable;
use clif_resolution::{Answer, CallError, Condition, value_named};
use clif_stack_slots::SlotSize;
use clif_types::{Type, Value};
use std::convert::TryFrom;

// `declare_var_needs_stack_map(variable)`, of a variable that was neither used nor assigned so far, and whose type fits.
pub(crate) fn declare_var_needs_stack_map(
    builder: &mut FunctionBuilder<'_>,
    answers: &[Answer],
    variable: Variable,
) -> Result<Answer, CallError>
    requires { IsSound builder.old answers.now }
    ensures { MakesCall (Call.DeclareVarNeedsStackMap variable)
        builder.old builder.new answers.now result }
{
    ledger_is_read_by_number();
    if !may_mark(builder, variable) {
        return Err(CallError::Misuse(mark_fault(builder, variable)));
    }
    builder.declare_var_needs_stack_map(variable)?;
    Ok(Answer::Nothing)
}

// `declare_value_needs_stack_map(value)`, of a value whose type fits.
pub(crate) fn declare_value_needs_stack_map(
    builder: &mut FunctionBuilder<'_>,
    answers: &[Answer],
    name: Name,
) -> Result<Answer, CallError>
    requires { IsSound builder.old answers.now }
    ensures { MakesCall (Call.DeclareValueNeedsStackMap name)
        builder.old builder.new answers.now result }
{
    let Some(value) = value_named(builder.func(), answers, name) else {
        return Err(CallError::Misuse(Condition::NoValue(name)));
    };
    if !may_record(builder, value) {
        return Err(CallError::Misuse(record_fault(builder, value)));
    }
    builder.declare_value_needs_stack_map(value)?;
    Ok(Answer::Nothing)
}

// Whether stack maps may be asked for a variable.
fn may_mark(builder: &FunctionBuilder<'_>, variable: Variable) -> bool
    requires { builder.now.failed ≡ false }
    ensures { result ≡ can_mark builder.now variable }
{
    match builder.variable_type(variable) {
        Some(ty) => fits_stack_map(ty) && builder.is_untouched(variable),
        None => false,
    }
}

// Why they may not: the variable isn't declared, or was used or assigned, or its type doesn't fit.
fn mark_fault(builder: &FunctionBuilder<'_>, variable: Variable) -> Condition {
    match builder.variable_type(variable) {
        Some(ty) if !fits_stack_map(ty) => Condition::NoRoom(ty),
        Some(_) => Condition::Touched(variable),
        None => Condition::NoVariable(variable),
    }
}

// Whether stack maps may be asked for a value.
fn may_record(builder: &FunctionBuilder<'_>, value: Value) -> bool
    requires { value < length builder.now.func.now.values }
    ensures { result ≡ can_record builder.now value }
{
    fits_stack_map(builder.func().value_type(value))
}

// That stack maps may not be asked for a value, since its type doesn't fit.
fn record_fault(builder: &FunctionBuilder<'_>, value: Value) -> Condition
    requires { value < length builder.now.func.now.values }
{
    Condition::NoRoom(builder.func().value_type(value))
}

// Whether a stack map has room for a value of a type.
fn fits_stack_map(ty: Type) -> bool
    ensures { result ≡ fits_stack_map ty }
{
    SlotSize::try_from(ty).is_ok()
}
