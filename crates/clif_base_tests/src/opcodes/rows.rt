//! What each instruction is: its name, operands and results.
#![tactic(auto)]

use crate::opcodes::support::{FIRST, Leaving, Plain, T, TO_T, are_leaving, are_plain};
use clif_opcodes::{
    BinaryOpcode, CondTrapOpcode, Control, ConvertOpcode, Demand, FloatConstOpcode, Opcode,
    OperandKind, OtherOperands, PooledConstOpcode, ResultKind, StackOpcode, UnaryOpcode,
};
use clif_types::types::{F16, F32, F64, F128, I8, I32};
use std::test::Fail;

// An instruction whose result has the type that is given.
fn given(
    opcode: Opcode,
    name: &'static str,
    demand: Demand,
    operands: &'static [OperandKind],
) -> Plain {
    Plain {
        opcode,
        name,
        demand,
        control: Control::Given,
        operands,
        results: TO_T,
    }
}

// Arithmetic of two operands of one type, or of a value and an amount.
fn arithmetic(opcode: BinaryOpcode, name: &'static str, second: OperandKind) -> Plain {
    let operands: &'static [OperandKind] = if second == T {
        &[T, T]
    } else {
        &[T, OperandKind::AnInteger]
    };
    Plain {
        opcode: Opcode::Binary(opcode),
        name,
        demand: Demand::AnInteger,
        control: FIRST,
        operands,
        results: TO_T,
    }
}

// A constant of one type.
fn constant(opcode: Opcode, name: &'static str, results: &'static [ResultKind]) -> Plain {
    Plain {
        opcode,
        name,
        demand: Demand::Nothing,
        control: Control::Absent,
        operands: &[],
        results,
    }
}

// An instruction without results.
fn effect(
    opcode: Opcode,
    name: &'static str,
    demand: Demand,
    operands: &'static [OperandKind],
) -> Plain {
    Plain {
        opcode,
        name,
        demand,
        control: FIRST,
        operands,
        results: &[],
    }
}

#[test]
fn constants(rt: HostRuntime) -> Result<(), Fail> {
    let rows = [
        given(Opcode::Iconst, "iconst", Demand::AnInteger, &[]),
        constant(
            Opcode::FloatConst(FloatConstOpcode::F16const),
            "f16const",
            &[ResultKind::Exactly(F16)],
        ),
        constant(
            Opcode::FloatConst(FloatConstOpcode::F32const),
            "f32const",
            &[ResultKind::Exactly(F32)],
        ),
        constant(
            Opcode::FloatConst(FloatConstOpcode::F64const),
            "f64const",
            &[ResultKind::Exactly(F64)],
        ),
        constant(
            Opcode::PooledConst(PooledConstOpcode::F128const),
            "f128const",
            &[ResultKind::Exactly(F128)],
        ),
        given(
            Opcode::PooledConst(PooledConstOpcode::Vconst),
            "vconst",
            Demand::AVector,
            &[],
        ),
    ];
    are_plain(&rt, &rows);
    Ok(())
}

#[test]
fn of_one_operand(rt: HostRuntime) -> Result<(), Fail> {
    let rows = [
        Plain {
            opcode: Opcode::Unary(UnaryOpcode::Ineg),
            name: "ineg",
            demand: Demand::AnInteger,
            control: FIRST,
            operands: &[T],
            results: TO_T,
        },
        Plain {
            opcode: Opcode::Unary(UnaryOpcode::Bnot),
            name: "bnot",
            demand: Demand::AnInteger,
            control: FIRST,
            operands: &[T],
            results: TO_T,
        },
        given(
            Opcode::Convert(ConvertOpcode::Splat),
            "splat",
            Demand::AVector,
            &[OperandKind::Lane],
        ),
        given(
            Opcode::Convert(ConvertOpcode::Uextend),
            "uextend",
            Demand::AnInteger,
            &[OperandKind::Narrower],
        ),
        given(
            Opcode::Convert(ConvertOpcode::Sextend),
            "sextend",
            Demand::AnInteger,
            &[OperandKind::Narrower],
        ),
        given(
            Opcode::Convert(ConvertOpcode::Ireduce),
            "ireduce",
            Demand::AnInteger,
            &[OperandKind::Wider],
        ),
        Plain {
            opcode: Opcode::Isplit,
            name: "isplit",
            demand: Demand::AHalved,
            control: FIRST,
            operands: &[T],
            results: &[ResultKind::Half, ResultKind::Half],
        },
    ];
    are_plain(&rt, &rows);
    Ok(())
}

#[test]
fn of_two_operands(rt: HostRuntime) -> Result<(), Fail> {
    let rows = [
        arithmetic(BinaryOpcode::Iadd, "iadd", T),
        arithmetic(BinaryOpcode::Isub, "isub", T),
        arithmetic(BinaryOpcode::Imul, "imul", T),
        arithmetic(BinaryOpcode::Band, "band", T),
        arithmetic(BinaryOpcode::Bor, "bor", T),
        arithmetic(BinaryOpcode::Bxor, "bxor", T),
        arithmetic(BinaryOpcode::Ishl, "ishl", OperandKind::AnInteger),
        arithmetic(BinaryOpcode::Ushr, "ushr", OperandKind::AnInteger),
        arithmetic(BinaryOpcode::Sshr, "sshr", OperandKind::AnInteger),
        arithmetic(BinaryOpcode::Udiv, "udiv", T),
        arithmetic(BinaryOpcode::Sdiv, "sdiv", T),
        arithmetic(BinaryOpcode::Urem, "urem", T),
        arithmetic(BinaryOpcode::Srem, "srem", T),
        Plain {
            opcode: Opcode::Iconcat,
            name: "iconcat",
            demand: Demand::ADoubled,
            control: FIRST,
            operands: &[T, T],
            results: &[ResultKind::Double],
        },
        Plain {
            opcode: Opcode::Icmp,
            name: "icmp",
            demand: Demand::AnInteger,
            control: FIRST,
            operands: &[T, T],
            results: &[ResultKind::Exactly(I8)],
        },
        Plain {
            opcode: Opcode::Select,
            name: "select",
            demand: Demand::AType,
            control: Control::Operand(1),
            operands: &[OperandKind::AnInteger, T, T],
            results: TO_T,
        },
    ];
    are_plain(&rt, &rows);
    Ok(())
}

#[test]
fn of_memory_and_traps(rt: HostRuntime) -> Result<(), Fail> {
    let rows = [
        given(Opcode::Load, "load", Demand::AType, &[OperandKind::Address]),
        effect(
            Opcode::Store,
            "store",
            Demand::AType,
            &[T, OperandKind::Address],
        ),
        given(
            Opcode::Stack(StackOpcode::StackAddr),
            "stack_addr",
            Demand::AnInteger,
            &[],
        ),
        given(
            Opcode::Stack(StackOpcode::StackLoad),
            "stack_load",
            Demand::AType,
            &[],
        ),
        effect(Opcode::StackStore, "stack_store", Demand::AType, &[T]),
        effect(
            Opcode::CondTrap(CondTrapOpcode::Trapz),
            "trapz",
            Demand::AnInteger,
            &[T],
        ),
        effect(
            Opcode::CondTrap(CondTrapOpcode::Trapnz),
            "trapnz",
            Demand::AnInteger,
            &[T],
        ),
    ];
    are_plain(&rt, &rows);
    Ok(())
}

// The end of a block, at no type.
fn ends(
    opcode: Opcode,
    name: &'static str,
    operands: &'static [OperandKind],
    others: OtherOperands,
) -> Leaving {
    Leaving {
        opcode,
        name,
        demand: Demand::Nothing,
        control: Control::Absent,
        operands,
        others,
        returns: false,
        ends: true,
    }
}

#[test]
fn of_control(rt: HostRuntime) -> Result<(), Fail> {
    let rows = [
        ends(Opcode::Jump, "jump", &[], OtherOperands::Nothing),
        Leaving {
            opcode: Opcode::Brif,
            name: "brif",
            demand: Demand::AnInteger,
            control: FIRST,
            operands: &[T],
            others: OtherOperands::Nothing,
            returns: false,
            ends: true,
        },
        ends(
            Opcode::BrTable,
            "br_table",
            &[OperandKind::Exactly(I32)],
            OtherOperands::Nothing,
        ),
        ends(Opcode::Return, "return", &[], OtherOperands::Returned),
        ends(Opcode::Trap, "trap", &[], OtherOperands::Nothing),
    ];
    are_leaving(&rt, &rows);
    Ok(())
}

// A call; a try call ends its block.
fn calls(
    opcode: Opcode,
    name: &'static str,
    operands: &'static [OperandKind],
    tries: bool,
) -> Leaving {
    Leaving {
        opcode,
        name,
        demand: Demand::Nothing,
        control: Control::Absent,
        operands,
        others: OtherOperands::Arguments,
        returns: !tries,
        ends: tries,
    }
}

#[test]
fn of_calls(rt: HostRuntime) -> Result<(), Fail> {
    let address: &'static [OperandKind] = &[OperandKind::Address];
    let rows = [
        calls(Opcode::Call, "call", &[], false),
        calls(Opcode::CallIndirect, "call_indirect", address, false),
        calls(Opcode::TryCall, "try_call", &[], true),
        calls(Opcode::TryCallIndirect, "try_call_indirect", address, true),
    ];
    are_leaving(&rt, &rows);
    Ok(())
}
