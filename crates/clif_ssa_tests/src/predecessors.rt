//! The branches that lead to a block, and sealing.
#![tactic(auto)]

use super::facts::Fact::{HasAny, IsLast, IsSealed, Params, ToldAt};
use super::steps::Step::{
    Ask, Create, Define, Goes, Iconst, Is, Jump, Leads, LeadsInPlace, Prints, ReturnOne, Seal,
    SealAll, Use,
};
use super::steps::{Case, makes_each};
use clif_types::types::I32;
use std::test::Fail;

/// Branches that are declared and taken back, and blocks that are sealed.
const PREDECESSORS: [Case; 6] = [
    // A branch that doesn't lead to a block any more: the look-up goes to the others, in the order in which
    // they were declared.
    (
        "removed",
        &[
            Create,
            Create,
            Create,
            Create,
            Jump(0, 3),
            Jump(1, 3),
            Jump(2, 3),
            Leads(3, 2),
            LeadsInPlace(3, 1, 0),
            Seal(3, 0),
            Use(3, 0, 0),
            ReturnOne(3, 0),
            Prints(
                "function u0:0() fast {\nblock0(v2: i32):\n    jump block3(v2)\n\nblock1:\n    jump block3\n\nblock2(v1: i32):\n    jump block3(v1)\n\nblock3(v0: i32):\n    return v0\n}\n",
            ),
        ],
    ),
    // Of a branch that was declared twice the first entry goes.
    (
        "removed_once",
        &[
            Create,
            Create,
            Create,
            Create,
            Jump(0, 3),
            Jump(1, 3),
            Jump(2, 3),
            Leads(3, 0),
            Leads(3, 1),
            LeadsInPlace(3, 0, 2),
            Seal(3, 0),
            Use(3, 0, 0),
            ReturnOne(3, 0),
            Prints(
                "function u0:0() fast {\nblock0(v2: i32):\n    jump block3(v2)\n\nblock1(v1: i32):\n    jump block3(v1)\n\nblock2(v3: i32):\n    jump block3(v3)\n\nblock3(v0: i32):\n    return v0\n}\n",
            ),
        ],
    ),
    // A block has predecessors once a branch is declared that leads to it, and not before; a block that isn't
    // known has none.
    (
        "has_any",
        &[
            Create,
            Create,
            Jump(0, 1),
            Is(HasAny(0, false)),
            Is(HasAny(1, false)),
            Leads(1, 0),
            Is(HasAny(0, false)),
            Is(HasAny(1, true)),
        ],
    ),
    // The branch that was declared last at a block is known, as long as no other was declared there.
    (
        "last",
        &[
            Create,
            Create,
            Create,
            Jump(0, 2),
            Jump(1, 2),
            Is(IsLast(2, 0, false)),
            Leads(2, 0),
            Is(IsLast(2, 0, true)),
            Is(IsLast(2, 1, false)),
            Leads(2, 1),
            Is(IsLast(2, 0, false)),
            Is(IsLast(2, 1, true)),
            Is(IsLast(1, 1, false)),
        ],
    ),
    // All blocks are sealed by rising number, but for those that are sealed; the zeros are told in that
    // order.
    (
        "seals_all",
        &[
            Create,
            Create,
            Create,
            Create,
            Ask(3, 0, I32),
            Ask(1, 0, I32),
            Ask(0, 0, I32),
            Ask(2, 0, I32),
            Ask(0, 1, I32),
            Seal(1, 1),
            Is(ToldAt(0, 1)),
            SealAll(4),
            Is(ToldAt(0, 0)),
            Is(ToldAt(1, 0)),
            Is(ToldAt(2, 2)),
            Is(ToldAt(3, 3)),
            Is(IsSealed(0, true)),
            Is(IsSealed(1, true)),
            Is(IsSealed(2, true)),
            Is(IsSealed(3, true)),
        ],
    ),
    // Two values come to a block, one from each arm: the parameter stays, and each arm passes its value, the
    // first declared first.
    (
        "two_values",
        &[
            Create,
            Create,
            Create,
            Iconst(0, 1),
            Define(0, 0, 0),
            Iconst(1, 2),
            Define(1, 0, 1),
            Goes(1, 2),
            Goes(0, 2),
            SealAll(0),
            Use(2, 0, 2),
            Is(Params(2, 1)),
            ReturnOne(2, 2),
            Prints(
                "function u0:0() fast {\nblock0:\n    v0 = iconst.i32 1\n    jump block2(v0)  ; v0 = 1\n\nblock1:\n    v1 = iconst.i32 2\n    jump block2(v1)  ; v1 = 2\n\nblock2(v2: i32):\n    return v2\n}\n",
            ),
        ],
    ),
];

/// Which branches lead to a block, and what comes of sealing it.
#[test]
fn predecessors(rt: HostRuntime) -> Result<(), Fail> {
    makes_each(&rt, rt.alloc(), &PREDECESSORS)
}
