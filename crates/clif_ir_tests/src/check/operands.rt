//! Types of operands, and the types at which instructions are defined.
#![tactic(auto)]

use crate::check::cases::finds;
use crate::instructions::NO_FLAGS;
use crate::instructions::Plain::{
    Binary, Concat, CondTrap, Convert, Float, Icmp, Iconst, Load, Select, Split, Store, Trap, Unary,
};
use crate::steps::Step::{self, Go, LaidOut, Param, Put};
use crate::transfers::Transfer::Return;
use clif_check::CheckErrorKind;
use clif_ir::BinaryOpcode::{Iadd, Ishl};
use clif_ir::CondTrapOpcode::Trapz;
use clif_ir::ConvertOpcode::{Ireduce, Sextend, Splat, Uextend};
use clif_ir::FloatConstOpcode::F32const;
use clif_ir::UnaryOpcode::Ineg;
use clif_types::IntCC::Equal;
use clif_types::TrapCode::HeapOutOfBounds;
use clif_types::types::{F32, F32X4, I8, I32, I64, I128, INVALID};
use std::alloc::Global;
use std::process::Abort;
use std::test::Fail;

// Each format, with operands of the types that the instruction takes.
const RIGHT: [Step<'static>; 18] = [
    Put(0, I32, Iconst(1)),
    Put(0, INVALID, Float(F32const, 0)),
    Put(0, I32, Unary(Ineg, 0)),
    Put(0, I64, Binary(Iadd, 1, 1)),
    Put(0, I32, Binary(Ishl, 0, 1)),
    Put(0, I32, Binary(Ishl, 0, 4)),
    Put(0, I32, Icmp(Equal, 0, 0)),
    Put(0, I64, Concat(1, 1)),
    Put(0, I64, Split(1)),
    Put(0, I128, Split(3)),
    Put(0, I64, Convert(Uextend, 0)),
    Put(0, I8, Convert(Ireduce, 1)),
    Put(0, F32X4, Convert(Splat, 2)),
    Put(0, F32, Select(4, 2, 2)),
    Put(0, I128, Load(NO_FLAGS, 1, 0)),
    Put(0, INVALID, Store(NO_FLAGS, 2, 0, 0)),
    Put(0, INVALID, CondTrap(Trapz, 3, HeapOutOfBounds)),
    Go(0, Return(&[])),
];

const WRONG: [Step<'static>; 23] = [
    // An operand of another type than the instruction takes.
    Put(0, I32, Unary(Ineg, 1)),
    Put(0, I32, Binary(Iadd, 0, 1)),
    Put(0, I32, Binary(Iadd, 1, 0)),
    Put(0, I32, Binary(Ishl, 0, 2)),
    Put(0, I32, Icmp(Equal, 0, 1)),
    Put(0, I32, Concat(0, 1)),
    Put(0, I64, Convert(Uextend, 3)),
    Put(0, I32, Convert(Sextend, 0)),
    Put(0, I64, Convert(Ireduce, 0)),
    Put(0, F32X4, Convert(Splat, 0)),
    Put(0, I32, Select(2, 0, 0)),
    Put(0, I32, Select(4, 0, 1)),
    Put(0, I32, Load(NO_FLAGS, 4, 0)),
    Put(0, INVALID, Store(NO_FLAGS, 0, 3, 0)),
    // An instruction at a type at which it isn't defined.
    Put(0, F32, Iconst(1)),
    Put(0, F32, Unary(Ineg, 2)),
    Put(0, F32, Binary(Iadd, 2, 2)),
    Put(0, F32, Icmp(Equal, 2, 2)),
    Put(0, I128, Concat(3, 3)),
    Put(0, I8, Split(4)),
    Put(0, F32, Split(2)),
    Put(0, I64, Convert(Splat, 1)),
    Put(0, INVALID, CondTrap(Trapz, 2, HeapOutOfBounds)),
];

// Asserts what is found in each of these instructions, in a block with the parameters v0: i32, v1: i64, v2: f32, v3: i128 and v4: i8.
fn finds_in(
    rt: &impl Abort,
    alloc: Global,
    case: &str,
    instructions: &[Step<'static>],
    expected: Option<(u32, CheckErrorKind)>,
) -> Result<(), Fail> {
    for step in instructions.iter() {
        let steps = [
            LaidOut,
            Param(0, I32),
            Param(0, I64),
            Param(0, F32),
            Param(0, I128),
            Param(0, I8),
            *step,
            Put(0, INVALID, Trap(HeapOutOfBounds)),
        ];
        finds(rt, alloc, case, &[], &steps, expected)?;
    }
    Ok(())
}

#[test]
fn operands(rt: HostRuntime) -> Result<(), Fail> {
    finds_in(&rt, rt.alloc(), "right", &RIGHT, None)?;
    let wrong = Some((0, CheckErrorKind::Operand));
    finds_in(&rt, rt.alloc(), "wrong", &WRONG, wrong)
}

// The sum of an i32 and an i64.
#[test]
fn mixed_sum(rt: HostRuntime) -> Result<(), Fail> {
    let steps = [
        LaidOut,
        Put(0, I32, Iconst(1)),
        Put(0, I64, Iconst(1)),
        Put(0, I32, Binary(Iadd, 0, 1)),
    ];
    let expected = Some((2, CheckErrorKind::Operand));
    finds(&rt, rt.alloc(), "mixed sum", &[I32], &steps, expected)
}
