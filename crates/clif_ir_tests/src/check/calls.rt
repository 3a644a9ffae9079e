//! Operands and results of calls.
#![tactic(auto)]

use crate::check::cases::finds;
use crate::steps::Step::{Go, Import, LaidOut, Param};
use crate::transfers::Transfer::{self, Call, CallIndirect, Return, TryCall, TryCallIndirect};
use crate::transfers::{Throws, To};
use clif_check::CheckErrorKind;
use clif_types::types::{F32, I8, I32, I64};
use std::alloc::Global;
use std::process::Abort;
use std::test::Fail;

// To block1, which takes nothing.
const THROWS: Throws<'static> = Throws {
    sig: 0,
    normal: To(1, &[]),
    items: &[],
};

// An address has 16, 32 or 64 bits. Of the two signatures of a try call of a function, its table's counts.
const RIGHT: [Transfer<'static>; 8] = [
    Call(0, &[0, 1]),
    Call(1, &[]),
    CallIndirect(0, &[1, 0, 1]),
    CallIndirect(0, &[0, 0, 1]),
    CallIndirect(1, &[1]),
    TryCall(0, &[0, 1], THROWS),
    TryCall(1, &[0, 1], THROWS),
    TryCallIndirect(&[1, 0, 1], THROWS),
];

// Too few, too many, one of another type, and the right ones in another order.
const WRONG_ARGUMENTS: [Transfer<'static>; 14] = [
    Call(0, &[]),
    Call(0, &[0]),
    Call(0, &[0, 1, 1]),
    Call(0, &[0, 2]),
    Call(0, &[1, 0]),
    Call(1, &[0]),
    CallIndirect(0, &[1]),
    CallIndirect(0, &[1, 0]),
    CallIndirect(0, &[1, 0, 1, 1]),
    CallIndirect(0, &[1, 0, 2]),
    CallIndirect(0, &[1, 1, 0]),
    TryCall(0, &[1, 0], THROWS),
    TryCall(1, &[], THROWS),
    TryCallIndirect(&[1, 1, 0], THROWS),
];

// An address that is no integer of an address's width, or that is missing; also where the arguments are wrong as well.
const WRONG_ADDRESS: [Transfer<'static>; 5] = [
    CallIndirect(0, &[2, 0, 1]),
    CallIndirect(0, &[3, 0, 1]),
    CallIndirect(0, &[2, 1, 0]),
    CallIndirect(1, &[]),
    TryCallIndirect(&[2, 0, 1], THROWS),
];

// Asserts what the check finds in each of these calls, in a block with the parameters v0: i32, v1: i64, v2: f32 and v3: i8, where sig0 takes an
// i32 and an i64, sig1 takes nothing, and fn0 and fn1 have these signatures.
fn finds_in(
    rt: &impl Abort,
    alloc: Global,
    case: &str,
    calls: &[Transfer<'static>],
    expected: Option<(u32, CheckErrorKind)>,
) -> Result<(), Fail> {
    for call in calls {
        let steps = [
            Import("g", &[I32, I64], &[F32]),
            Import("g", &[], &[]),
            LaidOut,
            LaidOut,
            Param(0, I32),
            Param(0, I64),
            Param(0, F32),
            Param(0, I8),
            Go(0, *call),
        ];
        finds(rt, alloc, case, &[], &steps, expected)?;
    }
    Ok(())
}

#[test]
fn operands(rt: HostRuntime) -> Result<(), Fail> {
    let alloc = rt.alloc();
    finds_in(&rt, alloc, "right", &RIGHT, None)?;
    let arguments = Some((0, CheckErrorKind::Arguments));
    finds_in(&rt, alloc, "wrong arguments", &WRONG_ARGUMENTS, arguments)?;
    let address = Some((0, CheckErrorKind::Operand));
    finds_in(&rt, alloc, "wrong address", &WRONG_ADDRESS, address)
}

// Asserts what the check finds where the values of a call's signature, which are v1 and v2, are returned so.
fn returns_in(
    rt: &impl Abort,
    alloc: Global,
    call: Transfer<'static>,
    returned: &'static [u32],
    expected: Option<(u32, CheckErrorKind)>,
) -> Result<(), Fail> {
    let steps = [
        Import("g", &[], &[F32, I64]),
        LaidOut,
        Param(0, I64),
        Go(0, call),
        Go(0, Return(returned)),
    ];
    finds(rt, alloc, "results", &[F32, I64], &steps, expected)
}

// The results of a call have the types that its signature returns.
#[test]
fn results(rt: HostRuntime) -> Result<(), Fail> {
    let alloc = rt.alloc();
    let wrong = Some((1, CheckErrorKind::Return));
    returns_in(&rt, alloc, Call(0, &[]), &[1, 2], None)?;
    returns_in(&rt, alloc, Call(0, &[]), &[2, 1], wrong)?;
    returns_in(&rt, alloc, CallIndirect(0, &[0]), &[1, 2], None)?;
    returns_in(&rt, alloc, CallIndirect(0, &[0]), &[2, 1], wrong)
}
