//! The functions of two rows of the project, as the builder leaves them.
#![tactic(auto)]

use crate::steps::Plain::{Brif, Call, Iconst, Jump, Return};
use crate::steps::Step::{Alias, Block, Import, Param, Put};
use crate::steps::{Case, To, finds_each};
use std::test::Fail;

const ROWS: [Case; 2] = [
    // `slot_reuse`: v0 is passed to two calls, and then v1.
    Case {
        name: "slot reuse",
        steps: &[
            Import(1, 0),
            Block,
            Put(0, Iconst),
            Put(0, Call(0, &[0])),
            Put(0, Call(0, &[0])),
            Put(0, Iconst),
            Put(0, Call(0, &[1])),
            Put(0, Call(0, &[1])),
            Put(0, Return(&[])),
        ],
        recorded: &[0, 1],
        expected: &[(0, &[]), (1, &[0]), (2, &[]), (4, &[1]), (5, &[]), (6, &[])],
        handled: (1, 1),
    },
    // `loop`: a marked variable lives around a loop whose body makes another value. Its parameter v2 is another name of v0.
    Case {
        name: "loop row",
        steps: &[
            Import(1, 0),
            Import(0, 1),
            Block,
            Block,
            Block,
            Param(0),
            Put(0, Jump(To(1, &[]))),
            Put(1, Call(1, &[])),
            Put(1, Call(0, &[1])),
            Put(1, Call(0, &[1])),
            Param(1),
            Put(1, Call(0, &[2])),
            Put(1, Brif(2, To(1, &[]), To(2, &[]))),
            Put(2, Return(&[])),
            Alias(2, 0),
        ],
        recorded: &[0, 1, 2],
        expected: &[
            (0, &[]),
            (1, &[0]),
            (2, &[0, 1]),
            (3, &[0]),
            (4, &[0]),
            (5, &[]),
            (6, &[]),
        ],
        handled: (3, 12),
    },
];

#[test]
fn rows(rt: HostRuntime) -> Result<(), Fail> {
    finds_each(&rt, rt.alloc(), &ROWS)
}
