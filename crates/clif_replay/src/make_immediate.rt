//! The instructions of a script with a constant as an operand, each made on a builder if its condition holds.
ghost use Rattle.std.specs.Prelude.{◌≡◌, ◌<◌, length, IsTrue};
ghost use Rattle.clif_types.specs.Types.{is_int};
ghost use Rattle.clif_builder.specs.Builder.{HasCurrent};
ghost use Rattle.clif_expansion.specs.ScriptCall.{has_64_bits};
ghost use Rattle.clif_constant_calls.specs.Stands.{type_in};
ghost use Rattle.clif_replay.specs.Emits.{BuildsEmission, MakesEmission, can_take_constant, constant_in};
ghost use Rattle.clif_replay.specs.Requests.{operand_in};
ghost use Rattle.clif_replay.specs.Ready.{IsSound};

use crate::make::one_value;
use clif_builder::{ConstantOperands, FunctionBuilder};
use clif_calls::{ImmediateCall, Name};
use clif_constant_calls::laws::constant_operands_stand;
use clif_regions::Callback;
use clif_resolution::{Answer, CallError, Condition, current_fault, has_current, value_named};
use clif_types::{BuildError, Value};

// An instruction with a constant as an operand, in a current unfilled block, of an integer.
pub(crate) fn make_immediate(
    builder: &mut FunctionBuilder<'_>,
    answers: &[Answer],
    call: ImmediateCall,
) -> Result<Answer, CallError>
    requires { IsSound builder.old answers.now }
    ensures { MakesEmission call builder.old builder.new answers.now result }
{
    constant_operands_stand::<Callback>();
    let name = operand_in(call);
    let Some(x) = value_named(builder.func(), answers, name) else {
        return Err(CallError::Misuse(Condition::NoValue(name)));
    };
    if !may_take_constant(builder, x) {
        return Err(CallError::Misuse(constant_fault(builder, x)));
    }
    let value = emit(builder, call, x)?;
    Ok(one_value(value))
}

// The name of the operand.
fn operand_in(call: ImmediateCall) -> Name
    ensures { result ≡ operand_in call }
{
    match call {
        ImmediateCall::IaddImmS { x, .. } | ImmediateCall::IcmpImmS { x, .. } => x,
    }
}

// Whether a value may be an operand beside a constant: in a current unfilled block, if it is an integer.
fn may_take_constant(builder: &FunctionBuilder<'_>, x: Value) -> bool
    requires { x < length builder.now.func.now.values }
    ensures { result ≡ can_take_constant builder.now x }
{
    has_current(builder) && builder.func().value_type(x).is_int()
}

// Why it may not: there is no current block, or the value isn't an integer.
fn constant_fault(builder: &FunctionBuilder<'_>, x: Value) -> Condition {
    if has_current(builder) {
        Condition::NoInteger(x)
    } else {
        current_fault(builder)
    }
}

// The constant, which has 64 bits, and then the instruction on a value and it.
fn emit(
    builder: &mut FunctionBuilder<'_>,
    call: ImmediateCall,
    x: Value,
) -> Result<Value, BuildError>
    requires current { HasCurrent builder.old }
    requires exists { x < length builder.old.func.now.values }
    requires integer { IsTrue (is_int (type_in builder.old x)) }
    ensures built { BuildsEmission call x builder.old builder.new result }
    ensures number { IsTrue (has_64_bits (constant_in call)) }
{
    match call {
        ImmediateCall::IaddImmS { imm, .. } => builder.ins().iadd_imm_s(x, imm),
        ImmediateCall::IcmpImmS { cond, imm, .. } => builder.ins().icmp_imm_s(cond, x, imm),
    }
}
