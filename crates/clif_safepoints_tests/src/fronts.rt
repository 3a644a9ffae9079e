//! The order of blocks and what is live at their fronts, worked by hand.
#![tactic(auto)]

use crate::steps::Plain::{Brif, Call, Iconst, Jump, Return, TryCall};
use crate::steps::Step::{Aside, Block, Import, Param, Put};
use crate::steps::{Front, FrontCase, To, finds_fronts};
use std::test::Fail;

const FRONTS: [FrontCase; 6] = [
    // The row `irreducible`: block1 and block2 call with a marked variable and lead to each other and to block3.
    FrontCase {
        name: "irreducible row",
        steps: &[
            Import(1, 1),
            Block,
            Block,
            Block,
            Block,
            Param(0),
            Param(0),
            Param(1),
            Param(2),
            Param(3),
            Put(0, Brif(0, To(1, &[1]), To(2, &[1]))),
            Put(1, Call(0, &[2])),
            Put(1, Brif(5, To(2, &[2]), To(3, &[2]))),
            Put(2, Call(0, &[3])),
            Put(2, Brif(6, To(1, &[3]), To(3, &[3]))),
            Put(3, Return(&[4])),
        ],
        recorded: &[1, 2, 3, 4],
        order: &[3, 2, 1, 0],
        fronts: &[
            Front(0, &[], &[1]),
            Front(1, &[], &[2]),
            Front(2, &[], &[3]),
            Front(3, &[], &[4]),
        ],
    },
    // v0 is used after such a loop, and lives around it.
    FrontCase {
        name: "around an irreducible loop",
        steps: &[
            Import(0, 1),
            Block,
            Block,
            Block,
            Block,
            Put(0, Iconst),
            Put(0, Brif(0, To(2, &[]), To(1, &[]))),
            Put(1, Call(0, &[])),
            Put(1, Brif(1, To(2, &[]), To(3, &[]))),
            Put(2, Call(0, &[])),
            Put(2, Brif(2, To(1, &[]), To(3, &[]))),
            Put(3, Return(&[0])),
        ],
        recorded: &[0, 1, 2],
        order: &[3, 1, 2, 0],
        fronts: &[
            Front(0, &[], &[]),
            Front(1, &[0], &[0]),
            Front(2, &[0], &[0]),
            Front(3, &[0], &[0]),
        ],
    },
    // The edge of an exception is followed before the normal one.
    FrontCase {
        name: "try call",
        steps: &[
            Import(0, 1),
            Block,
            Block,
            Block,
            Param(0),
            Param(1),
            Put(0, TryCall(0, &[], To(1, &[0]), To(2, &[]), None)),
            Put(1, Return(&[1])),
            Put(2, Return(&[0])),
        ],
        recorded: &[0, 1],
        order: &[2, 1, 0],
        fronts: &[
            Front(0, &[], &[0]),
            Front(1, &[], &[1]),
            Front(2, &[0], &[0]),
        ],
    },
    // A parameter that isn't used, one that is, and a value that no parameter hides.
    FrontCase {
        name: "parameters",
        steps: &[
            Import(2, 0),
            Block,
            Block,
            Param(0),
            Param(1),
            Param(1),
            Put(0, Jump(To(1, &[0, 0]))),
            Put(1, Call(0, &[0, 2])),
            Put(1, Return(&[])),
        ],
        recorded: &[0, 1, 2],
        order: &[1, 0],
        fronts: &[Front(0, &[], &[0]), Front(1, &[0], &[0, 2])],
    },
    // block1 isn't reached, block2 is outside the layout, and no block has the number 9.
    FrontCase {
        name: "not reached",
        steps: &[
            Import(1, 0),
            Block,
            Block,
            Aside,
            Param(0),
            Put(0, Return(&[0])),
            Put(1, Call(0, &[0])),
            Put(1, Jump(To(2, &[]))),
        ],
        recorded: &[0],
        order: &[0],
        fronts: &[
            Front(0, &[], &[0]),
            Front(1, &[], &[]),
            Front(2, &[], &[]),
            Front(9, &[], &[]),
        ],
    },
    // No block: nothing is left.
    FrontCase {
        name: "no block",
        steps: &[],
        recorded: &[0],
        order: &[],
        fronts: &[Front(0, &[], &[])],
    },
];

#[test]
fn fronts(rt: HostRuntime) -> Result<(), Fail> {
    finds_fronts(&rt, rt.alloc(), &FRONTS)
}
