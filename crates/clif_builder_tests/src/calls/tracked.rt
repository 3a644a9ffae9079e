//! Values that stack maps need. A try call's context isn't one of them: no collector can move what an unwinder keeps of it.
#![tactic(auto)]

use crate::calls::built::{Header, ends, finishes, typed};
use crate::calls::steps::Deed::{Create, Return, Seal, Switch};
use crate::calls::steps::Entry::{Function, Signature, TryCall};
use crate::calls::steps::Note::Need;
use crate::calls::steps::Operand::{Param, Read};
use crate::calls::steps::Step;
use crate::calls::steps::Step::{Do, Enter, Has, Make, Note};
use crate::calls::steps::Trait::Number;
use clif_types::types::{I32, I64};
use cranelift_frontend::{EntityRef, FinalizeError, Inst};
use std::test::Fail;

// Two parameters of block0, the second of which stack maps need, and what block2 and block3 take.
const BEGINNING: [Step; 14] = [
    Enter(Signature(&[I64], &[I32])),
    Enter(Function("f", 0)),
    Do(Create),
    Do(Create),
    Do(Create),
    Do(Create),
    Do(Create),
    Make(Param(0, I64)),
    Make(Param(0, I64)),
    Make(Param(2, I32)),
    Make(Param(3, I64)),
    Note(Need(1)),
    Do(Switch(0)),
    Do(Seal(0)),
];

// A call with that context, after which each block returns the first parameter.
const CALLED: [Step; 10] = [
    Enter(TryCall(0, 1)),
    Do(Switch(2)),
    Do(Seal(2)),
    Do(Return(0)),
    Do(Switch(3)),
    Do(Seal(3)),
    Do(Return(0)),
    Do(Switch(4)),
    Do(Seal(4)),
    Do(Return(0)),
];

/// The call is reached: it is refused, and the function is what was built.
#[test]
fn reached(rt: HostRuntime) -> Result<(), Fail> {
    let parts = [BEGINNING.as_slice(), CALLED.as_slice()];
    let refusal = FinalizeError::TrackedContext(Inst::new(0));
    let text =
        "function %tracked(i64) -> i64 system_v {\n    sig0 = (i64) -> i32 system_v\n    fn0 = %f sig0\n\nblock0(v0: i64, v1: i64):\n    try_call fn0(v0), sig0, block2(ret0), [ tag1: block3(exn0), default: block4, context v1 ]\n\nblock2(v2: i32):\n    return v0\n\nblock3(v3: i64):\n    return v0\n\nblock4:\n    return v0\n}\n";
    ends(
        &rt,
        rt.alloc(),
        typed("tracked", &[I64], &[I64]),
        &parts,
        Err(refusal),
        text,
    )
}

const ALONE: [Step; 3] = [Do(Return(0)), Do(Switch(1)), Do(Seal(1))];

/// It isn't: the function is finished.
#[test]
fn unreached(rt: HostRuntime) -> Result<(), Fail> {
    let parts = [BEGINNING.as_slice(), ALONE.as_slice(), CALLED.as_slice()];
    finishes(
        &rt,
        rt.alloc(),
        typed("unreached", &[I64], &[I64]),
        &parts,
        Ok(()),
    )
}

// The function of the next test, whose first variable stack maps need.
const ZERO_AS_CONTEXT: Header = Header {
    name: Some("zero_as_context"),
    params: &[],
    returns: &[I64],
    marked: Some(I64),
};

const ZERO_USED: [Step; 11] = [
    Enter(Signature(&[I64], &[I32])),
    Enter(Function("f", 0)),
    Do(Create),
    Do(Create),
    Do(Create),
    Do(Create),
    Do(Create),
    Do(Seal(0)),
    Do(Switch(0)),
    Make(Read(0)),
    Has(0, Number(1)),
];

/// Stack maps don't need the zero: a try call that is reached may have it as its context.
#[test]
fn zero_as_context(rt: HostRuntime) -> Result<(), Fail> {
    let parts = [ZERO_USED.as_slice(), ZERO_CALLED.as_slice()];
    finishes(&rt, rt.alloc(), ZERO_AS_CONTEXT, &parts, Ok(()))
}

// A call with the zero as its context, after which each block returns the zero.
const ZERO_CALLED: [Step; 10] = [
    Enter(TryCall(0, 0)),
    Do(Switch(2)),
    Do(Seal(2)),
    Do(Return(0)),
    Do(Switch(3)),
    Do(Seal(3)),
    Do(Return(0)),
    Do(Switch(4)),
    Do(Seal(4)),
    Do(Return(0)),
];
