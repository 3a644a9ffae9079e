//! Branches: their edges, arguments that are appended to them, and their texts.
#![tactic(auto)]

use crate::facts::Fact::Leads;
use crate::instructions::Plain::{Binary, Iconst, Trap};
use crate::steps::Head::Named;
use crate::steps::Step::{Alias, Append, Create, Go, Is, LayOut, Param, Prints, Put};
use crate::steps::{Case, SAMPLE, make_all};
use crate::transfers::To;
use crate::transfers::Transfer::{Brif, Jump, Return};
use clif_opcodes::BinaryOpcode::{Iadd, Isub};
use clif_types::CallConv::SystemV;
use clif_types::TrapCode::User;
use clif_types::types::{I32, INVALID};
use std::test::Fail;

static CASES: [Case; 4] = [
    // The row both_arms: both edges of block2's branch go to block1, and pass what one call appended.
    Case {
        name: "both_arms_row",
        head: SAMPLE,
        steps: &[
            Create,
            Create,
            Create,
            Create,
            LayOut(0),
            LayOut(1),
            LayOut(2),
            LayOut(3),
            Put(0, I32, Iconst(5)),
            Go(0, Jump(To(1, &[]))),
            Param(1, I32),
            Go(1, Brif(1, To(2, &[]), To(3, &[]))),
            Put(2, I32, Iconst(-1)),
            Put(2, I32, Binary(Iadd, 1, 2)),
            Go(2, Brif(3, To(1, &[]), To(1, &[]))),
            Append(1, 1, 0),
            Append(5, 1, 3),
            Go(3, Return(&[1])),
            Prints(
                "function %sample() system_v {\nblock0:\n    v0 = iconst.i32 5\n    jump block1(v0)  ; v0 = 5\n\nblock1(v1: i32):\n    brif v1, block2, block3\n\nblock2:\n    v2 = iconst.i32 -1\n    v3 = iadd.i32 v1, v2  ; v2 = -1\n    brif v3, block1(v3), block1(v3)\n\nblock3:\n    return v1\n}\n",
            ),
        ],
    },
    // The row sample, as the construction leaves it: v6 was a parameter of block2.
    Case {
        name: "sample_row",
        head: Named("sample", &[I32], &[I32], SystemV),
        steps: &[
            Create,
            Create,
            Create,
            Create,
            LayOut(0),
            LayOut(1),
            LayOut(2),
            LayOut(3),
            Param(0, I32),
            Put(0, I32, Iconst(2)),
            Put(0, I32, Binary(Iadd, 0, 1)),
            Go(0, Jump(To(1, &[]))),
            Param(1, I32),
            Param(1, I32),
            Append(2, 1, 1),
            Append(2, 1, 2),
            Put(1, I32, Binary(Iadd, 3, 4)),
            Go(1, Brif(3, To(3, &[]), To(2, &[]))),
            Param(2, I32),
            Alias(6, 0),
            Put(2, I32, Binary(Isub, 5, 6)),
            Go(2, Return(&[3])),
            Put(3, I32, Binary(Isub, 3, 6)),
            Go(3, Jump(To(1, &[]))),
            Append(8, 1, 8),
            Append(8, 1, 5),
            Prints(
                "function %sample(i32) -> i32 system_v {\nblock0(v0: i32):\n    v6 -> v0\n    v1 = iconst.i32 2\n    v2 = iadd v0, v1  ; v1 = 2\n    jump block1(v1, v2)  ; v1 = 2\n\nblock1(v3: i32, v4: i32):\n    v5 = iadd v3, v4\n    brif v3, block3, block2\n\nblock2:\n    v7 = isub.i32 v5, v6\n    return v3\n\nblock3:\n    v8 = isub.i32 v3, v6\n    jump block1(v8, v5)\n}\n",
            ),
        ],
    },
    // The condition's type is printed where it is defined elsewhere, and the comment tells the condition first and then
    // what the edges pass. An edge to another block stays as it was.
    Case {
        name: "suffixes_and_comments",
        head: SAMPLE,
        steps: &[
            Create,
            Create,
            LayOut(0),
            LayOut(1),
            Put(0, I32, Iconst(5)),
            Put(0, I32, Iconst(6)),
            Go(0, Jump(To(1, &[]))),
            Go(1, Brif(0, To(0, &[]), To(1, &[]))),
            Append(3, 1, 1),
            Append(3, 1, 0),
            Append(2, 0, 1),
            Prints(
                "function %sample() system_v {\nblock0:\n    v0 = iconst.i32 5\n    v1 = iconst.i32 6\n    jump block1\n\nblock1:\n    brif.i32 v0, block0, block1(v1, v0)  ; v0 = 5, v1 = 6, v0 = 5\n}\n",
            ),
        ],
    },
    // The targets in printed order: none of a block that is empty, traps or ends in no branch, and one twice where both edges go
    // to it.
    Case {
        name: "successors",
        head: SAMPLE,
        steps: &[
            Create,
            Create,
            Create,
            Create,
            Put(0, I32, Iconst(5)),
            Go(0, Jump(To(1, &[]))),
            Go(1, Brif(0, To(3, &[]), To(2, &[]))),
            Go(2, Brif(0, To(1, &[]), To(1, &[]))),
            Put(3, I32, Iconst(6)),
            Is(Leads(0, &[1])),
            Is(Leads(1, &[3, 2])),
            Is(Leads(2, &[1, 1])),
            Is(Leads(3, &[])),
            Create,
            Is(Leads(4, &[])),
            Put(4, INVALID, Trap(User(1))),
            Is(Leads(4, &[])),
        ],
    },
];

#[test]
fn branches(rt: HostRuntime) -> Result<(), Fail> {
    make_all(&rt, rt.alloc(), &[], &CASES)
}
