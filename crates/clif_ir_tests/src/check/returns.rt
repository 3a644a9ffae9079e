//! Returned values.
#![tactic(auto)]

use crate::check::cases::{Case, finds_each};
use crate::instructions::Plain::Iconst;
use crate::steps::Step::{Go, LaidOut, Put};
use crate::transfers::Transfer::Return;
use clif_check::CheckErrorKind;
use clif_types::types::{I32, I64};
use std::test::Fail;

const RETURNS: [Case; 5] = [
    // The function returns an i32, and the value is an i64.
    (
        "wrong type",
        &[I32],
        &[LaidOut, Put(0, I64, Iconst(1)), Go(0, Return(&[0]))],
        Some((1, CheckErrorKind::Return)),
    ),
    (
        "too few",
        &[I32],
        &[LaidOut, Go(0, Return(&[]))],
        Some((0, CheckErrorKind::Return)),
    ),
    (
        "too many",
        &[I32],
        &[LaidOut, Put(0, I32, Iconst(1)), Go(0, Return(&[0, 0]))],
        Some((1, CheckErrorKind::Return)),
    ),
    // The values are right, but not their order.
    (
        "turned round",
        &[I32, I64],
        &[
            LaidOut,
            Put(0, I32, Iconst(1)),
            Put(0, I64, Iconst(1)),
            Go(0, Return(&[1, 0])),
        ],
        Some((2, CheckErrorKind::Return)),
    ),
    (
        "right",
        &[I32, I64],
        &[
            LaidOut,
            Put(0, I32, Iconst(1)),
            Put(0, I64, Iconst(1)),
            Go(0, Return(&[0, 1])),
        ],
        None,
    ),
];

#[test]
fn returns(rt: HostRuntime) -> Result<(), Fail> {
    finds_each(&rt, rt.alloc(), &RETURNS)
}
