//! What leaves a function as it was built. The context is empty then, and serves for a function that is spilled.
#![tactic(auto)]

use crate::calls::built::{Header, Kept, builds_in_turn, keeps_between};
use crate::calls::queries::Query::Failed;
use crate::calls::stack_maps::rows::SLOT_REUSE;
use crate::calls::steps::Deed::{Create, End, Fail as FailNow, Seal, Switch, TakeParams};
use crate::calls::steps::Entry::{Call, Function, Signature};
use crate::calls::steps::Note::Need;
use crate::calls::steps::Operand::{Constant, ParamAt};
use crate::calls::steps::Step;
use crate::calls::steps::Step::{Do, Enter, Is, Isnt, Make, Note};
use clif_types::types::{I32, I64};
use cranelift_frontend::{Block, FinalizeError};
use std::test::Fail;

// The functions that are kept take nothing and return nothing.
const KEPT: Header = Header {
    name: Some("kept"),
    params: &[],
    returns: &[],
    marked: None,
};

// A block with a value, which is passed to two calls. It is spilled where stack maps need it.
const BEGINNING: [Step; 5] = [
    Enter(Signature(&[I32], &[])),
    Enter(Function("g", 0)),
    Do(Create),
    Do(Switch(0)),
    Make(Constant(I32, 7)),
];

const NEEDED: [Step; 1] = [Note(Need(0))];

const CALLS: [Step; 2] = [Enter(Call(0, &[0])), Enter(Call(0, &[0]))];

const ENDED: [Step; 1] = [Do(End)];

const SEALED: [Step; 1] = [Do(Seal(0))];

const FAILING: [Step; 3] = [Isnt(Failed), Do(FailNow), Is(Failed)];

const OPEN: &str = "function %kept() system_v {
    sig0 = (i32) system_v
    fn0 = %g sig0

block0:
    v0 = iconst.i32 7
    call fn0(v0)  ; v0 = 7
    call fn0(v0)  ; v0 = 7
}
";

const WHOLE: &str = "function %kept() system_v {
    sig0 = (i32) system_v
    fn0 = %g sig0

block0:
    v0 = iconst.i32 7
    call fn0(v0)  ; v0 = 7
    call fn0(v0)  ; v0 = 7
    return
}
";

/// The block isn't sealed.
pub const UNSEALED: Kept<'static> = Kept {
    header: KEPT,
    parts: &[&BEGINNING, &NEEDED, &CALLS, &ENDED],
    text: WHOLE,
};

/// The block has no terminator.
pub const UNFILLED: Kept<'static> = Kept {
    header: KEPT,
    parts: &[&BEGINNING, &NEEDED, &CALLS, &SEALED],
    text: OPEN,
};

/// The builder failed, and nothing else is missing.
pub const FAILED: Kept<'static> = Kept {
    header: KEPT,
    parts: &[&BEGINNING, &NEEDED, &CALLS, &ENDED, &SEALED, &FAILING],
    text: WHOLE,
};

/// Stack maps need nothing.
pub const NOTHING_RECORDED: Kept<'static> = Kept {
    header: KEPT,
    parts: &[&BEGINNING, &CALLS, &ENDED, &SEALED],
    text: WHOLE,
};

const ONCE: [Step; 10] = [
    Enter(Signature(&[I64], &[])),
    Enter(Function("g", 0)),
    Do(Create),
    Do(TakeParams(0)),
    Do(Seal(0)),
    Make(ParamAt(0, 0)),
    Note(Need(0)),
    Do(Switch(0)),
    Enter(Call(0, &[0])),
    Do(End),
];

/// Stack maps need a value that is only passed to a call, and so isn't live across it.
pub const NOTHING_LIVE: Kept<'static> = Kept {
    header: Header {
        name: Some("once"),
        params: &[I64],
        returns: &[],
        marked: None,
    },
    parts: &[&ONCE],
    text: "function %once(i64) system_v {
    sig0 = (i64) system_v
    fn0 = %g sig0

block0(v0: i64):
    call fn0(v0)
    return
}
",
};

/// The row `slot_reuse` is built with the context before and afterwards.
#[test]
fn unsealed(rt: HostRuntime) -> Result<(), Fail> {
    let refusal = FinalizeError::Unsealed(Block::from_u32(0));
    keeps_between(&rt, rt.alloc(), &UNSEALED, Err(refusal), &SLOT_REUSE)
}

#[test]
fn unfilled(rt: HostRuntime) -> Result<(), Fail> {
    let refusal = FinalizeError::Unfilled(Block::from_u32(0));
    keeps_between(&rt, rt.alloc(), &UNFILLED, Err(refusal), &SLOT_REUSE)
}

#[test]
fn failed(rt: HostRuntime) -> Result<(), Fail> {
    let refusal = FinalizeError::Failed;
    keeps_between(&rt, rt.alloc(), &FAILED, Err(refusal), &SLOT_REUSE)
}

#[test]
fn nothing_recorded(rt: HostRuntime) -> Result<(), Fail> {
    keeps_between(&rt, rt.alloc(), &NOTHING_RECORDED, Ok(()), &SLOT_REUSE)
}

#[test]
fn nothing_live_across_calls(rt: HostRuntime) -> Result<(), Fail> {
    keeps_between(&rt, rt.alloc(), &NOTHING_LIVE, Ok(()), &SLOT_REUSE)
}

/// One context serves for two functions that are spilled.
#[test]
fn spilled_twice(rt: HostRuntime) -> Result<(), Fail> {
    builds_in_turn(&rt, rt.alloc(), &[&SLOT_REUSE, &SLOT_REUSE])
}
