//! Arguments of edges.
#![tactic(auto)]

use crate::check::cases::{Case, finds_each};
use crate::instructions::Plain::Iconst;
use crate::steps::Step::{Go, LaidOut, Param, Put};
use crate::transfers::Arg::{Exn, Known, Ret};
use crate::transfers::To;
use crate::transfers::Transfer::{Brif, Jump, Return};
use clif_check::CheckErrorKind;
use clif_types::types::{I8, I32, I64};
use std::test::Fail;

const EDGES: [Case; 6] = [
    // The target has a parameter, and the jump passes nothing.
    (
        "too few",
        &[I32],
        &[LaidOut, LaidOut, Param(1, I32), Go(0, Jump(To(1, &[])))],
        Some((0, CheckErrorKind::Edge)),
    ),
    (
        "too many",
        &[],
        &[
            LaidOut,
            LaidOut,
            Param(1, I32),
            Put(0, I32, Iconst(1)),
            Go(0, Jump(To(1, &[Known(1), Known(1)]))),
        ],
        Some((1, CheckErrorKind::Edge)),
    ),
    // The types are right, but not their order.
    (
        "turned round",
        &[],
        &[
            LaidOut,
            LaidOut,
            Param(1, I32),
            Param(1, I64),
            Put(0, I32, Iconst(1)),
            Put(0, I64, Iconst(1)),
            Go(0, Jump(To(1, &[Known(3), Known(2)]))),
        ],
        Some((2, CheckErrorKind::Edge)),
    ),
    // What a try call gives is passed along its own edges alone.
    (
        "of a try call",
        &[],
        &[
            LaidOut,
            LaidOut,
            Param(1, I64),
            Go(0, Jump(To(1, &[Ret(0)]))),
        ],
        Some((0, CheckErrorKind::Edge)),
    ),
    (
        "of a try call",
        &[],
        &[
            LaidOut,
            LaidOut,
            Param(1, I64),
            Go(0, Jump(To(1, &[Exn(0)]))),
        ],
        Some((0, CheckErrorKind::Edge)),
    ),
    (
        "right",
        &[I32],
        &[
            LaidOut,
            LaidOut,
            Param(1, I32),
            Param(1, I64),
            Put(0, I32, Iconst(1)),
            Put(0, I64, Iconst(1)),
            Put(0, I8, Iconst(1)),
            Go(
                0,
                Brif(
                    4,
                    To(1, &[Known(2), Known(3)]),
                    To(1, &[Known(2), Known(3)]),
                ),
            ),
            Go(1, Return(&[0])),
        ],
        None,
    ),
];

#[test]
fn edges(rt: HostRuntime) -> Result<(), Fail> {
    finds_each(&rt, rt.alloc(), &EDGES)
}
