//! The instruction that a plan asks for, found with what its names lead to.
ghost use Rattle.std.specs.Prelude.{◌≡◌, ◌<◌, ◌-◌, length, Err};
ghost use Rattle.clif_ir.specs.Body.{value_at};
ghost use Rattle.clif_instructions.specs.Instruction.{operands};
ghost use Rattle.clif_meaning.specs.Acceptance.{can_operate};
ghost use Rattle.clif_resolution.specs.Answers.{Finds, AnswersExist};
ghost use Rattle.clif_resolution.specs.Entries.{Numbers};
ghost use Rattle.clif_resolution.specs.Plans.{FindsPlan, IsPlanned, ValuesExist, can_make, operation_in};

use crate::answers::{Answer, CallError};
use crate::condition::Condition;
use crate::conditions::{current_fault, has_current};
use crate::entries::stack_slot_named;
use crate::names::{edge_named, one_value, three_values, two_edges, two_values, values_named};
use clif_builder::FunctionBuilder;
use clif_calls::{Edge, Name, Plan};
use clif_ir::{Function, InstructionData};
use clif_opcodes::{
    BinaryOpcode, CondTrapOpcode, ConvertOpcode, Demand, FloatConstOpcode, Opcode, StackOpcode,
    UnaryOpcode,
};
use clif_types::{IntCC, MemFlagsData, TrapCode, Type, Value};

/// An instruction, before it is made: its shape and its controlling type.
#[derive(Drop)]
pub struct Planned {
    /// its shape
    pub shape: InstructionData,
    /// its controlling type
    pub ty: Type,
}

/// The instruction of this plan, where it may be made.
///
/// # Errors
///
/// `Misuse`, where a name leads to no such answer or a condition doesn't hold; or memory is refused.
pub fn plan_found(
    builder: &FunctionBuilder<'_>,
    answers: &[Answer],
    plan: &Plan<'_>,
) -> Result<Planned, CallError>
    requires answers { AnswersExist builder.now.func.now answers.now }
    requires values { ValuesExist builder.now answers.now }
    ensures { Finds (λ p. IsPlanned builder.now answers.now plan.now p.shape p.ty)
        (can_make builder.now answers.now plan.now) result }
{
    if !has_current(builder) {
        return Err(CallError::Misuse(current_fault(builder)));
    }
    let planned = shaped(builder, answers, plan)?;
    if !can_operate(plan, planned.ty) {
        let opcode = planned.shape.opcode();
        return Err(CallError::Misuse(Condition::MadeAt(opcode, planned.ty)));
    }
    if !builder.func().has_entries(&planned.shape) {
        return Err(CallError::Misuse(Condition::NoEntry));
    }
    Ok(planned)
}

// Whether what the instruction does may be done at this type.
fn can_operate(plan: &Plan<'_>, ty: Type) -> bool
    ensures { (numbers : Numbers) → result ≡ can_operate (operation_in numbers plan.now) ty }
{
    match plan {
        Plan::UnaryImm { .. } => ty.is_int(),
        Plan::Convert { opcode, .. } => Opcode::Convert(*opcode).typing().demand.is_met(ty),
        Plan::Concat { .. } => Demand::ADoubled.is_met(ty),
        Plan::Split { .. } => Demand::AHalved.is_met(ty),
        Plan::Load { .. } => ty.is_valid(),
        Plan::StackLoad { .. } => ty.is_valid(),
        _ => true,
    }
}

// The instruction of this plan, with what its names lead to: an arm a format.
fn shaped(
    builder: &FunctionBuilder<'_>,
    answers: &[Answer],
    plan: &Plan<'_>,
) -> Result<Planned, CallError>
    requires answers { AnswersExist builder.now.func.now answers.now }
    requires values { ValuesExist builder.now answers.now }
    ensures { FindsPlan builder.now answers.now plan.now result }
{
    match plan {
        Plan::UnaryImm { ty, imm } => {
            let shape = InstructionData::UnaryImm { imm: *imm };
            Ok(Planned { shape, ty: *ty })
        }
        Plan::UnaryIeee { opcode, bits } => Ok(float(*opcode, *bits)),
        Plan::Unary { opcode, arg } => unary(builder, answers, *opcode, *arg),
        Plan::Binary { opcode, args } => binary(builder, answers, *opcode, args),
        Plan::Convert { opcode, ty, arg } => convert(builder, answers, *opcode, *ty, *arg),
        Plan::Concat { args } => concat(builder, answers, args),
        Plan::Split { arg } => split(builder, answers, *arg),
        Plan::IntCompare { cond, args } => compare(builder, answers, *cond, args),
        Plan::Ternary { args } => ternary(builder, answers, args),
        Plan::Load {
            flags,
            ty,
            arg,
            offset,
        } => load(builder, answers, flags, *ty, *arg, *offset),
        Plan::Store {
            flags,
            args,
            offset,
        } => store(builder, answers, flags, args, *offset),
        Plan::StackLoad {
            opcode,
            ty,
            slot,
            offset,
        } => at_slot(builder, answers, *opcode, *ty, *slot, *offset),
        Plan::StackStore { arg, slot, offset } => {
            stack_store(builder, answers, *arg, *slot, *offset)
        }
        Plan::CondTrap { opcode, arg, code } => cond_trap(builder, answers, *opcode, *arg, *code),
        Plan::Jump { destination } => jump(builder, answers, destination),
        Plan::Brif {
            condition,
            block_then,
            block_else,
        } => brif(builder, answers, *condition, block_then, block_else),
        Plan::MultiAry { args } => multi_ary(builder, answers, args),
        Plan::Trap { code } => Ok(untyped(InstructionData::Trap { code: *code })),
    }
}

// An operation on one value, which is made at its type.
fn unary(
    builder: &FunctionBuilder<'_>,
    answers: &[Answer],
    opcode: UnaryOpcode,
    arg: Name,
) -> Result<Planned, CallError>
    requires answers { AnswersExist builder.now.func.now answers.now }
    requires values { ValuesExist builder.now answers.now }
    ensures { FindsPlan builder.now answers.now (Plan.Unary opcode arg) result }
{
    let func = builder.func();
    let arg = one_value(func, answers, arg)?;
    Ok(like(func, InstructionData::Unary { opcode, arg }, arg))
}

// An operation on two values, which is made at the type of the first.
fn binary(
    builder: &FunctionBuilder<'_>,
    answers: &[Answer],
    opcode: BinaryOpcode,
    args: &[Name; 2],
) -> Result<Planned, CallError>
    requires answers { AnswersExist builder.now.func.now answers.now }
    requires values { ValuesExist builder.now answers.now }
    ensures { FindsPlan builder.now answers.now (Plan.Binary opcode args.now) result }
{
    let func = builder.func();
    let (x, y) = two_values(func, answers, args)?;
    let args = [x, y];
    Ok(like(func, InstructionData::Binary { opcode, args }, x))
}

// A comparison of two values, which is made at the type of the first.
fn compare(
    builder: &FunctionBuilder<'_>,
    answers: &[Answer],
    cond: IntCC,
    args: &[Name; 2],
) -> Result<Planned, CallError>
    requires answers { AnswersExist builder.now.func.now answers.now }
    requires values { ValuesExist builder.now answers.now }
    ensures { FindsPlan builder.now answers.now (Plan.IntCompare cond args.now) result }
{
    let func = builder.func();
    let (x, y) = two_values(func, answers, args)?;
    let args = [x, y];
    Ok(like(func, InstructionData::IntCompare { cond, args }, x))
}

// Two halves, put together at the type of the first.
fn concat(
    builder: &FunctionBuilder<'_>,
    answers: &[Answer],
    args: &[Name; 2],
) -> Result<Planned, CallError>
    requires answers { AnswersExist builder.now.func.now answers.now }
    requires values { ValuesExist builder.now answers.now }
    ensures { FindsPlan builder.now answers.now (Plan.Concat args.now) result }
{
    let func = builder.func();
    let (x, y) = two_values(func, answers, args)?;
    let args = [x, y];
    Ok(like(func, InstructionData::Concat { args }, x))
}

// An integer that is split into its halves, at its type.
fn split(builder: &FunctionBuilder<'_>, answers: &[Answer], arg: Name) -> Result<Planned, CallError>
    requires answers { AnswersExist builder.now.func.now answers.now }
    requires values { ValuesExist builder.now answers.now }
    ensures { FindsPlan builder.now answers.now (Plan.Split arg) result }
{
    let func = builder.func();
    let arg = one_value(func, answers, arg)?;
    Ok(like(func, InstructionData::Split { arg }, arg))
}

// A conversion of one value, which is made at a type that is given.
fn convert(
    builder: &FunctionBuilder<'_>,
    answers: &[Answer],
    opcode: ConvertOpcode,
    ty: Type,
    arg: Name,
) -> Result<Planned, CallError>
    requires answers { AnswersExist builder.now.func.now answers.now }
    requires values { ValuesExist builder.now answers.now }
    ensures { FindsPlan builder.now answers.now (Plan.Convert opcode ty arg) result }
{
    let arg = one_value(builder.func(), answers, arg)?;
    Ok(given(InstructionData::Convert { opcode, arg }, ty))
}

// A choice between two values, which is made at the type of the second operand.
fn ternary(
    builder: &FunctionBuilder<'_>,
    answers: &[Answer],
    args: &[Name; 3],
) -> Result<Planned, CallError>
    requires answers { AnswersExist builder.now.func.now answers.now }
    requires values { ValuesExist builder.now answers.now }
    ensures { FindsPlan builder.now answers.now (Plan.Ternary args.now) result }
{
    let func = builder.func();
    let (test, x, y) = three_values(func, answers, args)?;
    let args = [test, x, y];
    Ok(like(func, InstructionData::Ternary { args }, x))
}

// A load from an address, which is made at a type that is given.
fn load(
    builder: &FunctionBuilder<'_>,
    answers: &[Answer],
    flags: &MemFlagsData,
    ty: Type,
    arg: Name,
    offset: i32,
) -> Result<Planned, CallError>
    requires answers { AnswersExist builder.now.func.now answers.now }
    requires values { ValuesExist builder.now answers.now }
    ensures { FindsPlan builder.now answers.now (Plan.Load flags.now ty arg offset) result }
{
    let arg = one_value(builder.func(), answers, arg)?;
    let flags = *flags;
    Ok(given(InstructionData::Load { flags, arg, offset }, ty))
}

// A store of a value at an address.
fn store(
    builder: &FunctionBuilder<'_>,
    answers: &[Answer],
    flags: &MemFlagsData,
    args: &[Name; 2],
    offset: i32,
) -> Result<Planned, CallError>
    requires answers { AnswersExist builder.now.func.now answers.now }
    requires values { ValuesExist builder.now answers.now }
    ensures { FindsPlan builder.now answers.now (Plan.Store flags.now args.now offset) result }
{
    let (x, address) = two_values(builder.func(), answers, args)?;
    let flags = *flags;
    let args = [x, address];
    Ok(untyped(InstructionData::Store {
        flags,
        args,
        offset,
    }))
}

// The address of a stack slot, or a load from it, which are made at a type that is given.
fn at_slot(
    builder: &FunctionBuilder<'_>,
    answers: &[Answer],
    opcode: StackOpcode,
    ty: Type,
    name: Name,
    offset: i32,
) -> Result<Planned, CallError>
    requires answers { AnswersExist builder.now.func.now answers.now }
    requires values { ValuesExist builder.now answers.now }
    ensures { FindsPlan builder.now answers.now (Plan.StackLoad opcode ty name offset) result }
{
    let Some(slot) = stack_slot_named(answers, name) else {
        return Err(CallError::Misuse(Condition::NoSlot(name)));
    };
    let shape = InstructionData::StackLoad {
        opcode,
        slot,
        offset,
    };
    Ok(given(shape, ty))
}

// A store of a value into a stack slot.
fn stack_store(
    builder: &FunctionBuilder<'_>,
    answers: &[Answer],
    arg: Name,
    name: Name,
    offset: i32,
) -> Result<Planned, CallError>
    requires answers { AnswersExist builder.now.func.now answers.now }
    requires values { ValuesExist builder.now answers.now }
    ensures { FindsPlan builder.now answers.now (Plan.StackStore arg name offset) result }
{
    let Some(slot) = stack_slot_named(answers, name) else {
        return Err(CallError::Misuse(Condition::NoSlot(name)));
    };
    let arg = one_value(builder.func(), answers, arg)?;
    Ok(untyped(InstructionData::StackStore { arg, slot, offset }))
}

// A trap under a condition.
fn cond_trap(
    builder: &FunctionBuilder<'_>,
    answers: &[Answer],
    opcode: CondTrapOpcode,
    arg: Name,
    code: TrapCode,
) -> Result<Planned, CallError>
    requires answers { AnswersExist builder.now.func.now answers.now }
    requires values { ValuesExist builder.now answers.now }
    ensures { FindsPlan builder.now answers.now (Plan.CondTrap opcode arg code) result }
{
    let arg = one_value(builder.func(), answers, arg)?;
    Ok(untyped(InstructionData::CondTrap { opcode, arg, code }))
}

// A jump along an edge.
fn jump(
    builder: &FunctionBuilder<'_>,
    answers: &[Answer],
    destination: &Edge,
) -> Result<Planned, CallError>
    requires answers { AnswersExist builder.now.func.now answers.now }
    requires values { ValuesExist builder.now answers.now }
    ensures { FindsPlan builder.now answers.now (Plan.Jump destination.entry) result }
{
    let destination = edge_named(builder, answers, destination)?;
    Ok(untyped(InstructionData::Jump { destination }))
}

// A branch along one of two edges.
fn brif(
    builder: &FunctionBuilder<'_>,
    answers: &[Answer],
    condition: Name,
    block_then: &Edge,
    block_else: &Edge,
) -> Result<Planned, CallError>
    requires answers { AnswersExist builder.now.func.now answers.now }
    requires values { ValuesExist builder.now answers.now }
    ensures { FindsPlan builder.now answers.now (Plan.Brif condition block_then.entry block_else.entry) result }
{
    let arg = one_value(builder.func(), answers, condition)?;
    let blocks = two_edges(builder, answers, block_then, block_else)?;
    Ok(untyped(InstructionData::Brif { arg, blocks }))
}

// The end of the function, with these values.
fn multi_ary(
    builder: &FunctionBuilder<'_>,
    answers: &[Answer],
    args: &[Name],
) -> Result<Planned, CallError>
    requires answers { AnswersExist builder.now.func.now answers.now }
    requires values { ValuesExist builder.now answers.now }
    ensures { FindsPlan builder.now answers.now (Plan.MultiAry args.entry) result }
{
    let args = values_named(builder.func(), answers, args)?;
    Ok(untyped(InstructionData::MultiAry { args }))
}

// An instruction that is made at the type of one of its operands.
fn like(func: &Function, shape: InstructionData, x: Value) -> Planned
    requires { x < length func.now.values }
    ensures { result ≡ record { shape = shape; ty = (value_at func.now x).ty } }
{
    let ty = func.value_type(x);
    Planned { shape, ty }
}

// An instruction that is made at a type that is given.
fn given(shape: InstructionData, ty: Type) -> Planned
    ensures { result ≡ record { shape = shape; ty = ty } }
{
    Planned { shape, ty }
}

// The bits of a float, of a type that the opcode tells.
fn float(opcode: FloatConstOpcode, bits: u64) -> Planned
    ensures { result ≡ record { shape = InstructionData.UnaryIeee opcode bits; ty = Type.Invalid } }
{
    untyped(InstructionData::UnaryIeee { opcode, bits })
}

// An instruction of which no type is given: it has no results, or its opcode tells their type.
fn untyped(shape: InstructionData) -> Planned
    ensures { result ≡ record { shape = shape; ty = Type.Invalid } }
{
    Planned {
        shape,
        ty: Type::Invalid,
    }
}
