//! Instructions that neither branch nor end their block: their names, and what follows these, by format.
ghost use Rattle.std.specs.Prelude.{◌≡◌, ◌++◌, IfOk, IfSome, codes};
ghost use Rattle.clif_opcodes.specs.Names.{binary_name, cond_trap_name, convert_name, float_const_name, opcode_name, stack_name, unary_name};
ghost use Rattle.clif_text.specs.Reading.{ReadsStraight};

use clif_arguments::args::Args;
use clif_arguments::refusals::unknown_type;
use clif_calls::{PlainInstruction, StraightInstruction};
use clif_opcodes::{
    BinaryOpcode, CondTrapOpcode, ConvertOpcode, FloatConstOpcode, Opcode, PooledConstOpcode,
    StackOpcode, UnaryOpcode,
};
use clif_words::error::{Expected, Fault, LineError};
use clif_words::types::type_named;
use std::alloc::Global;

// The instructions that neither branch nor end their block: a row each.
const PLAIN_OPCODES: [Opcode; 36] = [
    Opcode::Iconst,
    Opcode::FloatConst(FloatConstOpcode::F16const),
    Opcode::FloatConst(FloatConstOpcode::F32const),
    Opcode::FloatConst(FloatConstOpcode::F64const),
    Opcode::PooledConst(PooledConstOpcode::F128const),
    Opcode::PooledConst(PooledConstOpcode::Vconst),
    Opcode::Unary(UnaryOpcode::Ineg),
    Opcode::Unary(UnaryOpcode::Bnot),
    Opcode::Binary(BinaryOpcode::Iadd),
    Opcode::Binary(BinaryOpcode::Isub),
    Opcode::Binary(BinaryOpcode::Imul),
    Opcode::Binary(BinaryOpcode::Band),
    Opcode::Binary(BinaryOpcode::Bor),
    Opcode::Binary(BinaryOpcode::Bxor),
    Opcode::Binary(BinaryOpcode::Ishl),
    Opcode::Binary(BinaryOpcode::Ushr),
    Opcode::Binary(BinaryOpcode::Sshr),
    Opcode::Binary(BinaryOpcode::Udiv),
    Opcode::Binary(BinaryOpcode::Sdiv),
    Opcode::Binary(BinaryOpcode::Urem),
    Opcode::Binary(BinaryOpcode::Srem),
    Opcode::Convert(ConvertOpcode::Splat),
    Opcode::Convert(ConvertOpcode::Uextend),
    Opcode::Convert(ConvertOpcode::Sextend),
    Opcode::Convert(ConvertOpcode::Ireduce),
    Opcode::Iconcat,
    Opcode::Isplit,
    Opcode::Icmp,
    Opcode::Select,
    Opcode::Load,
    Opcode::Store,
    Opcode::Stack(StackOpcode::StackAddr),
    Opcode::Stack(StackOpcode::StackLoad),
    Opcode::StackStore,
    Opcode::CondTrap(CondTrapOpcode::Trapz),
    Opcode::CondTrap(CondTrapOpcode::Trapnz),
];

/// The opcode of this name, of an instruction that neither branches nor ends its block.
pub(crate) fn opcode_named(name: &str) -> Option<Opcode>
    ensures { IfSome result (λ opcode. name.now ≡ opcode_name opcode) }
{
    for opcode in PLAIN_OPCODES.iter() {
        if opcode.name() == name {
            return Some(*opcode);
        }
    }
    None
}

/// The instruction with this name and no type behind it.
pub(crate) fn read_untyped_call<'a>(
    alloc: Global,
    head: &'a str,
    opcode: Opcode,
    args: &mut Args<'_, 'a>,
) -> Result<StraightInstruction, LineError<'a>>
    requires { head.now ≡ opcode_name opcode }
    ensures { IfOk result (ReadsStraight args.old args.new head.now) }
{
    match opcode {
        Opcode::Unary(opcode) => read_unary_call(head, opcode, args),
        Opcode::Binary(opcode) => read_binary_call(head, opcode, args),
        Opcode::FloatConst(opcode) => read_float_const_call(head, opcode, args),
        Opcode::CondTrap(opcode) => read_cond_trap_call(head, opcode, args),
        Opcode::PooledConst(PooledConstOpcode::F128const) => {
            read_f128const_call(alloc, head, args)
        }
        Opcode::Iconcat => read_iconcat_call(head, args),
        Opcode::Isplit => read_isplit_call(head, args),
        Opcode::Icmp => read_icmp_call(head, args),
        Opcode::Select => read_select_call(head, args),
        Opcode::Store => read_store_call(head, args),
        Opcode::StackStore => read_stack_store_call(head, args),
        _ => Err(LineError::Fault(Fault::NoType)),
    }
}

/// The instruction with this name and this type behind it.
pub(crate) fn read_typed_call<'a>(
    alloc: Global,
    head: &'a str,
    opcode: Opcode,
    suffix: &'a str,
    args: &mut Args<'_, 'a>,
) -> Result<StraightInstruction, LineError<'a>>
    requires { head.now ≡ opcode_name opcode ++ (codes "." ++ suffix.now) }
    ensures { IfOk result (ReadsStraight args.old args.new head.now) }
{
    match opcode {
        Opcode::Iconst => read_iconst_call(head, suffix, args),
        Opcode::Load => read_load_call(head, suffix, args),
        Opcode::PooledConst(PooledConstOpcode::Vconst) => {
            read_vconst_call(alloc, head, suffix, args)
        }
        Opcode::Convert(opcode) => read_convert_call(head, opcode, suffix, args),
        Opcode::Stack(opcode) => read_stack_call(head, opcode, suffix, args),
        _ => Err(LineError::Fault(Fault::UnknownCall(head))),
    }
}

// The call `iconst`, whose name is followed by its type.
fn read_iconst_call<'a>(
    head: &'a str,
    suffix: &'a str,
    args: &mut Args<'_, 'a>,
) -> Result<StraightInstruction, LineError<'a>>
    requires { head.now ≡ codes "iconst" ++ (codes "." ++ suffix.now) }
    ensures { IfOk result (ReadsStraight args.old args.new head.now) }
{
    let Some(ty) = type_named(suffix) else {
        return Err(unknown_type(suffix, Expected::Type));
    };
    let imm = args.number()?;
    Ok(StraightInstruction::Plain(PlainInstruction::Iconst { ty, imm }))
}

// The call with this name, an instruction of one value.
fn read_unary_call<'a>(
    head: &'a str,
    opcode: UnaryOpcode,
    args: &mut Args<'_, 'a>,
) -> Result<StraightInstruction, LineError<'a>>
    requires { head.now ≡ unary_name opcode }
    ensures { IfOk result (ReadsStraight args.old args.new head.now) }
{
    let x = args.value()?;
    Ok(StraightInstruction::Plain(PlainInstruction::unary(opcode, x)))
}

// The same for an instruction of two values.
fn read_binary_call<'a>(
    head: &'a str,
    opcode: BinaryOpcode,
    args: &mut Args<'_, 'a>,
) -> Result<StraightInstruction, LineError<'a>>
    requires { head.now ≡ binary_name opcode }
    ensures { IfOk result (ReadsStraight args.old args.new head.now) }
{
    let (x, y) = args.two_values()?;
    Ok(StraightInstruction::Plain(PlainInstruction::binary(opcode, x, y)))
}

// The same for `iconcat`.
fn read_iconcat_call<'a>(
    head: &'a str,
    args: &mut Args<'_, 'a>,
) -> Result<StraightInstruction, LineError<'a>>
    requires { head.now ≡ codes "iconcat" }
    ensures { IfOk result (ReadsStraight args.old args.new head.now) }
{
    let (x, y) = args.two_values()?;
    Ok(StraightInstruction::Plain(PlainInstruction::Iconcat { x, y }))
}

// The same for `isplit`.
fn read_isplit_call<'a>(
    head: &'a str,
    args: &mut Args<'_, 'a>,
) -> Result<StraightInstruction, LineError<'a>>
    requires { head.now ≡ codes "isplit" }
    ensures { IfOk result (ReadsStraight args.old args.new head.now) }
{
    let x = args.value()?;
    Ok(StraightInstruction::Plain(PlainInstruction::Isplit { x }))
}

// The same for `icmp`.
fn read_icmp_call<'a>(
    head: &'a str,
    args: &mut Args<'_, 'a>,
) -> Result<StraightInstruction, LineError<'a>>
    requires { head.now ≡ codes "icmp" }
    ensures { IfOk result (ReadsStraight args.old args.new head.now) }
{
    let cond = args.condition()?;
    let (x, y) = args.two_values()?;
    Ok(StraightInstruction::Plain(PlainInstruction::Icmp { cond, x, y }))
}

// The same for `select`.
fn read_select_call<'a>(
    head: &'a str,
    args: &mut Args<'_, 'a>,
) -> Result<StraightInstruction, LineError<'a>>
    requires { head.now ≡ codes "select" }
    ensures { IfOk result (ReadsStraight args.old args.new head.now) }
{
    let c = args.value()?;
    let (x, y) = args.two_values()?;
    Ok(StraightInstruction::Plain(PlainInstruction::Select { c, x, y }))
}

// The same for an instruction of one value, whose name is followed by its result type.
fn read_convert_call<'a>(
    head: &'a str,
    opcode: ConvertOpcode,
    suffix: &'a str,
    args: &mut Args<'_, 'a>,
) -> Result<StraightInstruction, LineError<'a>>
    requires { head.now ≡ convert_name opcode ++ (codes "." ++ suffix.now) }
    ensures { IfOk result (ReadsStraight args.old args.new head.now) }
{
    let Some(ty) = type_named(suffix) else {
        return Err(unknown_type(suffix, Expected::Type));
    };
    let x = args.value()?;
    Ok(StraightInstruction::Plain(PlainInstruction::convert(opcode, ty, x)))
}

// The bits of a constant with this opcode, where they should stand.
fn bits_of(opcode: FloatConstOpcode) -> Expected {
    match opcode {
        FloatConstOpcode::F16const => Expected::F16Bits,
        FloatConstOpcode::F32const => Expected::F32Bits,
        FloatConstOpcode::F64const => Expected::F64Bits,
    }
}

// The same for a float constant.
fn read_float_const_call<'a>(
    head: &'a str,
    opcode: FloatConstOpcode,
    args: &mut Args<'_, 'a>,
) -> Result<StraightInstruction, LineError<'a>>
    requires { head.now ≡ float_const_name opcode }
    ensures { IfOk result (ReadsStraight args.old args.new head.now) }
{
    let expected = bits_of(opcode);
    let bits = args.magnitude(expected)?;
    match PlainInstruction::float_const(opcode, bits) {
        Some(constant) => Ok(StraightInstruction::Plain(constant)),
        None => Err(LineError::wanted(expected)),
    }
}

// The same for `f128const`.
fn read_f128const_call<'a>(
    alloc: Global,
    head: &'a str,
    args: &mut Args<'_, 'a>,
) -> Result<StraightInstruction, LineError<'a>>
    requires { head.now ≡ codes "f128const" }
    ensures { IfOk result (ReadsStraight args.old args.new head.now) }
{
    let bytes = args.bytes(alloc)?;
    Ok(StraightInstruction::F128const { bytes })
}

// The same for `vconst`, whose name is followed by its result type.
fn read_vconst_call<'a>(
    alloc: Global,
    head: &'a str,
    suffix: &'a str,
    args: &mut Args<'_, 'a>,
) -> Result<StraightInstruction, LineError<'a>>
    requires { head.now ≡ codes "vconst" ++ (codes "." ++ suffix.now) }
    ensures { IfOk result (ReadsStraight args.old args.new head.now) }
{
    let Some(ty) = type_named(suffix) else {
        return Err(unknown_type(suffix, Expected::Type));
    };
    let bytes = args.bytes(alloc)?;
    Ok(StraightInstruction::Vconst { ty, bytes })
}

// The same for `load`, whose name is followed by the type of what is loaded.
fn read_load_call<'a>(
    head: &'a str,
    suffix: &'a str,
    args: &mut Args<'_, 'a>,
) -> Result<StraightInstruction, LineError<'a>>
    requires { head.now ≡ codes "load" ++ (codes "." ++ suffix.now) }
    ensures { IfOk result (ReadsStraight args.old args.new head.now) }
{
    let Some(ty) = type_named(suffix) else {
        return Err(unknown_type(suffix, Expected::Type));
    };
    let flags = args.flags();
    let p = args.value()?;
    let offset = args.last_offset()?;
    Ok(StraightInstruction::Plain(PlainInstruction::Load {
        ty,
        flags,
        p,
        offset,
    }))
}

// The same for `store`.
fn read_store_call<'a>(
    head: &'a str,
    args: &mut Args<'_, 'a>,
) -> Result<StraightInstruction, LineError<'a>>
    requires { head.now ≡ codes "store" }
    ensures { IfOk result (ReadsStraight args.old args.new head.now) }
{
    let flags = args.flags();
    let (x, p) = args.two_values()?;
    let offset = args.last_offset()?;
    Ok(StraightInstruction::Plain(PlainInstruction::Store {
        flags,
        x,
        p,
        offset,
    }))
}

// The same for an instruction at a place in a stack slot, whose name is followed by its result type.
fn read_stack_call<'a>(
    head: &'a str,
    opcode: StackOpcode,
    suffix: &'a str,
    args: &mut Args<'_, 'a>,
) -> Result<StraightInstruction, LineError<'a>>
    requires { head.now ≡ stack_name opcode ++ (codes "." ++ suffix.now) }
    ensures { IfOk result (ReadsStraight args.old args.new head.now) }
{
    let Some(ty) = type_named(suffix) else {
        return Err(unknown_type(suffix, Expected::Type));
    };
    let slot = args.slot()?;
    let offset = args.last_offset()?;
    Ok(StraightInstruction::Plain(PlainInstruction::stack(opcode, ty, slot, offset)))
}

// The same for `stack_store`.
fn read_stack_store_call<'a>(
    head: &'a str,
    args: &mut Args<'_, 'a>,
) -> Result<StraightInstruction, LineError<'a>>
    requires { head.now ≡ codes "stack_store" }
    ensures { IfOk result (ReadsStraight args.old args.new head.now) }
{
    let x = args.value()?;
    let slot = args.slot()?;
    let offset = args.last_offset()?;
    Ok(StraightInstruction::Plain(PlainInstruction::StackStore { x, slot, offset }))
}

// The same for a trap under a condition.
fn read_cond_trap_call<'a>(
    head: &'a str,
    opcode: CondTrapOpcode,
    args: &mut Args<'_, 'a>,
) -> Result<StraightInstruction, LineError<'a>>
    requires { head.now ≡ cond_trap_name opcode }
    ensures { IfOk result (ReadsStraight args.old args.new head.now) }
{
    let c = args.value()?;
    let code = args.trap_code()?;
    Ok(StraightInstruction::Plain(PlainInstruction::cond_trap(opcode, c, code)))
}
