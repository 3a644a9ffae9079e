//! Loops of several shapes, edges and what isn't reached, worked by hand.
#![tactic(auto)]

use crate::steps::Plain::{Brif, Call, Iconst, Jump, Return, TryCall};
use crate::steps::Step::{Aside, Block, Import, Param, Put};
use crate::steps::{Case, To, finds_each};
use std::test::Fail;

const SHAPES: [Case; 8] = [
    // block1 and block2 lead to each other, and nothing leads there.
    Case {
        name: "unreachable cycle",
        steps: &[
            Import(1, 0),
            Block,
            Block,
            Block,
            Put(0, Iconst),
            Put(0, Call(0, &[0])),
            Put(0, Return(&[0])),
            Put(1, Call(0, &[0])),
            Put(1, Jump(To(2, &[]))),
            Put(2, Call(0, &[0])),
            Put(2, Jump(To(1, &[]))),
        ],
        recorded: &[0],
        expected: &[(1, &[0]), (3, &[]), (5, &[])],
        handled: (1, 1),
    },
    // block1 leads to itself. v0 is used in it, and v1 behind it.
    Case {
        name: "self loop",
        steps: &[
            Import(1, 0),
            Block,
            Block,
            Block,
            Put(0, Iconst),
            Put(0, Iconst),
            Put(0, Jump(To(1, &[]))),
            Put(1, Call(0, &[0])),
            Put(1, Brif(1, To(1, &[]), To(2, &[]))),
            Put(2, Call(0, &[1])),
            Put(2, Return(&[])),
        ],
        recorded: &[0, 1],
        expected: &[(3, &[0, 1]), (5, &[])],
        // Three blocks, four edges less one, two values.
        handled: (3, 9),
    },
    // block0 leads to block1 and block2, and these lead to each other and to block3, where v0 is used.
    Case {
        name: "irreducible",
        steps: &[
            Import(0, 1),
            Block,
            Block,
            Block,
            Block,
            Put(0, Iconst),
            Put(0, Brif(0, To(1, &[]), To(2, &[]))),
            Put(1, Call(0, &[])),
            Put(1, Brif(1, To(2, &[]), To(3, &[]))),
            Put(2, Call(0, &[])),
            Put(2, Brif(2, To(1, &[]), To(3, &[]))),
            Put(3, Return(&[0])),
        ],
        recorded: &[0, 1, 2],
        expected: &[(2, &[0]), (4, &[0])],
        // Four blocks, six edges, three values.
        handled: (4, 22),
    },
    // What the edges of a try call pass is live across it; its own operand and its context aren't.
    Case {
        name: "edge arguments",
        steps: &[
            Import(1, 0),
            Block,
            Block,
            Block,
            Param(0),
            Param(0),
            Param(0),
            Param(1),
            Put(0, TryCall(0, &[0], To(1, &[1]), To(2, &[]), Some(2))),
            Put(1, Return(&[])),
            Put(2, Return(&[])),
        ],
        recorded: &[0, 1, 2, 3],
        expected: &[(0, &[1])],
        handled: (3, 11),
    },
    // An edge counts a value for the parameter that gets it, used or not; a parameter ends the life of its own name alone.
    Case {
        name: "parameters",
        steps: &[
            Import(0, 0),
            Block,
            Block,
            Param(1),
            Put(0, Iconst),
            Put(0, Call(0, &[])),
            Put(0, Jump(To(1, &[1]))),
            Put(1, Call(0, &[])),
            Put(1, Return(&[0])),
        ],
        recorded: &[0, 1],
        expected: &[(1, &[1]), (3, &[0])],
        handled: (2, 4),
    },
    // A block outside the layout counts as empty, though it is reached; an empty block is reached, too.
    Case {
        name: "outside the layout",
        steps: &[
            Import(1, 0),
            Block,
            Aside,
            Block,
            Put(0, Iconst),
            Put(0, Call(0, &[0])),
            Put(0, Brif(0, To(1, &[]), To(2, &[]))),
            Put(1, Call(0, &[0])),
            Put(1, Return(&[0])),
        ],
        recorded: &[0],
        expected: &[(1, &[0]), (3, &[])],
        handled: (3, 5),
    },
    // Nothing is reached without an entry, and a value that isn't there is live nowhere.
    Case {
        name: "nothing",
        steps: &[],
        recorded: &[],
        expected: &[(0, &[])],
        handled: (0, 0),
    },
    Case {
        name: "nothing",
        steps: &[
            Import(0, 0),
            Block,
            Put(0, Call(0, &[])),
            Put(0, Return(&[])),
        ],
        recorded: &[7],
        expected: &[(0, &[])],
        handled: (1, 1),
    },
];

#[test]
fn shapes(rt: HostRuntime) -> Result<(), Fail> {
    finds_each(&rt, rt.alloc(), &SHAPES)
}
