//! Which of several errors is returned.
#![tactic(auto)]

use crate::check::cases::{Case, finds_each};
use crate::instructions::Plain::Iconst;
use crate::steps::Step::{Create, Go, LaidOut, LayOut, Param, Put};
use crate::transfers::To;
use crate::transfers::Transfer::{Brif, Jump, Return};
use clif_check::CheckErrorKind;
use clif_types::types::{F32, I32, I64};
use std::test::Fail;

const ORDERS: [Case; 5] = [
    // block1 stands before block0 in the layout, so its instruction is read first.
    (
        "by layout",
        &[I32],
        &[
            Create,
            LaidOut,
            LayOut(0),
            Go(0, Return(&[])),
            Go(1, Jump(To(1, &[]))),
            Put(1, F32, Iconst(1)),
        ],
        Some((2, CheckErrorKind::Operand)),
    ),
    // A block outside the layout is no part of the function.
    (
        "outside the layout",
        &[I32],
        &[LaidOut, Create, Go(1, Return(&[])), Go(0, Jump(To(1, &[])))],
        None,
    ),
    // The first of two instructions of a block.
    (
        "by block",
        &[I32],
        &[
            LaidOut,
            Put(0, I64, Iconst(1)),
            Put(0, F32, Iconst(1)),
            Go(0, Return(&[0])),
        ],
        Some((1, CheckErrorKind::Operand)),
    ),
    // The condition of a branch is no integer, and its edges pass nothing to a parameter.
    (
        "by kind",
        &[],
        &[
            LaidOut,
            LaidOut,
            Param(0, F32),
            Param(1, I32),
            Go(0, Brif(0, To(1, &[]), To(1, &[]))),
        ],
        Some((0, CheckErrorKind::Operand)),
    ),
    // The last instruction of the last block is read, too.
    (
        "last",
        &[I32],
        &[
            LaidOut,
            LaidOut,
            Go(0, Jump(To(1, &[]))),
            Put(1, I32, Iconst(1)),
            Go(1, Return(&[])),
        ],
        Some((2, CheckErrorKind::Return)),
    ),
];

#[test]
fn orders(rt: HostRuntime) -> Result<(), Fail> {
    finds_each(&rt, rt.alloc(), &ORDERS)
}
