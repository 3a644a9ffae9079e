//! What the edges of try calls pass.
#![tactic(auto)]

use crate::check::cases::{Case, finds, finds_each};
use crate::steps::Step::{Go, Import, LaidOut, Param};
use crate::transfers::Arg::{Exn, Known, Ret};
use crate::transfers::Item::{Context, Default, Tag};
use crate::transfers::Transfer::{TryCall, TryCallIndirect};
use crate::transfers::{Item, Throws, To};
use clif_check::CheckErrorKind;
use clif_types::types::{F32, I32, I64};
use std::alloc::Global;
use std::process::Abort;
use std::test::Fail;

const RESULTS: To<'static> = To(1, &[Ret(0), Ret(1)]);

const PAYLOAD: To<'static> = To(2, &[Exn(0), Exn(1)]);

const NOTHING: To<'static> = To(3, &[]);

// A context has any type. A part of an exception may be passed twice, or not at all, and beside values.
const RIGHT: [(To<'static>, &[Item<'static>]); 5] = [
    (NOTHING, &[]),
    (RESULTS, &[]),
    (To(2, &[Known(0), Known(0)]), &[]),
    (
        RESULTS,
        &[Context(1), Tag(7, PAYLOAD), Context(0), Default(NOTHING)],
    ),
    (
        RESULTS,
        &[
            Tag(1, To(2, &[Known(0), Exn(1)])),
            Tag(2, To(2, &[Exn(1), Exn(1)])),
            Default(PAYLOAD),
        ],
    ),
];

// On the normal edge: a result of another type or that isn't there, a part of an exception, too few, and too many.
const WRONG_NORMAL_EDGE: [To<'static>; 7] = [
    To(1, &[Ret(1), Ret(0)]),
    To(1, &[Ret(0), Ret(2)]),
    To(2, &[Exn(0), Exn(1)]),
    To(1, &[Ret(0)]),
    To(1, &[]),
    To(3, &[Ret(0)]),
    To(1, &[Ret(0), Known(0)]),
];

// On the edge of an item: a part of an exception that isn't there or where another type is expected, a result, too few,
// and too many; whichever item it is.
const WRONG_EDGE_OF_AN_ITEM: [To<'static>; 7] = [
    To(2, &[Exn(0), Exn(2)]),
    To(1, &[Exn(0), Exn(1)]),
    To(1, &[Ret(0), Ret(1)]),
    To(2, &[Exn(0)]),
    To(2, &[]),
    To(3, &[Exn(0)]),
    To(2, &[Exn(0), Known(1)]),
];

// Asserts what is found in a try call of a function, and in one of an address, in a block with the parameters v0: i64 and
// v1: i32. sig0
// returns an f32 and an i32; block1 takes an f32 and an i32, block2 takes two i64, and block3 nothing.
fn finds_in(
    rt: &impl Abort,
    alloc: Global,
    case: &str,
    normal: To<'_>,
    items: &[Item<'_>],
    expected: Option<(u32, CheckErrorKind)>,
) -> Result<(), Fail> {
    let sig = 0;
    let throws = Throws { sig, normal, items };
    for call in [TryCall(0, &[0], throws), TryCallIndirect(&[0, 0], throws)] {
        let steps = [
            Import("g", &[I64], &[F32, I32]),
            LaidOut,
            LaidOut,
            LaidOut,
            LaidOut,
            Param(0, I64),
            Param(0, I32),
            Param(1, F32),
            Param(1, I32),
            Param(2, I64),
            Param(2, I64),
            Go(0, call),
        ];
        finds(rt, alloc, case, &[], &steps, expected)?;
    }
    Ok(())
}

#[test]
fn edges(rt: HostRuntime) -> Result<(), Fail> {
    let alloc = rt.alloc();
    for (normal, items) in RIGHT.iter() {
        finds_in(&rt, alloc, "right", *normal, items, None)?;
    }
    let expected = Some((0, CheckErrorKind::Edge));
    let case = "wrong normal edge";
    for wrong in WRONG_NORMAL_EDGE {
        finds_in(&rt, alloc, case, wrong, &[], expected)?;
        let items = [Default(PAYLOAD)];
        finds_in(&rt, alloc, case, wrong, &items, expected)?;
    }
    let case = "wrong edge of an item";
    for wrong in WRONG_EDGE_OF_AN_ITEM {
        finds_in(&rt, alloc, case, RESULTS, &[Tag(0, wrong)], expected)?;
        let items = [Tag(0, PAYLOAD), Context(0), Default(wrong)];
        finds_in(&rt, alloc, case, RESULTS, &items, expected)?;
    }
    Ok(())
}

const THROWS: Throws<'static> = Throws {
    sig: 0,
    normal: To(1, &[Ret(0)]),
    items: &[],
};

const WITHOUT_RESULTS: [Case; 2] = [
    // A call that returns nothing passes no result.
    (
        "no result",
        &[],
        &[
            Import("g", &[], &[]),
            LaidOut,
            LaidOut,
            Param(1, I32),
            Go(0, TryCall(0, &[], THROWS)),
        ],
        Some((0, CheckErrorKind::Edge)),
    ),
    // The error is that of the arguments rather than that of the edges.
    (
        "arguments before edges",
        &[],
        &[
            Import("g", &[I32], &[]),
            LaidOut,
            LaidOut,
            Param(1, I32),
            Go(0, TryCall(0, &[], THROWS)),
        ],
        Some((0, CheckErrorKind::Arguments)),
    ),
];

#[test]
fn without_results(rt: HostRuntime) -> Result<(), Fail> {
    finds_each(&rt, rt.alloc(), &WITHOUT_RESULTS)
}
