//! Programs whose variables are assigned before they are used.
#![tactic(auto)]

use super::facts::Fact::{Lookups, Params, Resolves};
use super::steps::Step::{
    Brif, Create, Define, Iadd, Iconst, Is, Isub, Jump, Leads, Prints, ReturnOne, Seal, Use,
};
use super::steps::{Case, makes_each};
use std::test::Fail;

/// One block, several blocks, and loops.
const PROGRAMS: [Case; 4] = [
    // x = 1; y = 2; z = x + y; z = x + z, in one block.
    (
        "simple_block",
        &[
            Create,
            Iconst(0, 1),
            Define(0, 0, 0),
            Iconst(0, 2),
            Define(0, 1, 1),
            Use(0, 0, 0),
            Use(0, 1, 1),
            Iadd(0, 0, 1),
            Define(0, 2, 2),
            Use(0, 2, 2),
            Iadd(0, 0, 2),
            Define(0, 2, 3),
            Use(0, 2, 3),
            Use(0, 0, 0),
            Prints(
                "function u0:0() fast {\nblock0:\n    v0 = iconst.i32 1\n    v1 = iconst.i32 2\n    v2 = iadd v0, v1  ; v0 = 1, v1 = 2\n    v3 = iadd v0, v2  ; v0 = 1\n}\n",
            ),
        ],
    ),
    // Two edges of one branch lead to block2 and to block1, which leads to block2 too; no variable has two
    // values in block2, so that nothing is passed.
    (
        "sequence_of_blocks",
        &[
            Create,
            Create,
            Create,
            Seal(0, 0),
            Iconst(0, 1),
            Define(0, 0, 0),
            Iconst(0, 2),
            Define(0, 1, 1),
            Iadd(0, 0, 1),
            Define(0, 2, 2),
            Brif(0, 1, 2, 1),
            Use(0, 0, 0),
            Use(0, 1, 1),
            Use(0, 2, 2),
            Leads(1, 3),
            Seal(1, 0),
            Use(1, 0, 0),
            Use(1, 2, 2),
            Iadd(1, 0, 2),
            Define(1, 2, 3),
            Jump(1, 2),
            Use(1, 2, 3),
            Leads(2, 3),
            Leads(2, 5),
            Seal(2, 0),
            Use(2, 0, 0),
            Use(2, 1, 1),
            Iadd(2, 0, 1),
            Define(2, 1, 6),
            Is(Params(2, 0)),
            Prints(
                "function u0:0() fast {\nblock0:\n    v0 = iconst.i32 1\n    v4 -> v0\n    v1 = iconst.i32 2\n    v5 -> v1\n    v2 = iadd v0, v1  ; v0 = 1, v1 = 2\n    brif v1, block2, block1  ; v1 = 2\n\nblock1:\n    v3 = iadd.i32 v0, v2  ; v0 = 1\n    jump block2\n\nblock2:\n    v6 = iadd.i32 v0, v1  ; v0 = 1, v1 = 2\n}\n",
            ),
        ],
    ),
    // A loop: z and y are parameters of block1, and x, which is never assigned again, isn't one any more once
    // block1 is sealed.
    (
        "program_with_loop",
        &[
            Create,
            Create,
            Create,
            Create,
            Seal(0, 0),
            Iconst(0, 1),
            Define(0, 0, 0),
            Iconst(0, 2),
            Define(0, 1, 1),
            Iadd(0, 0, 1),
            Define(0, 2, 2),
            Jump(0, 1),
            Use(0, 0, 0),
            Use(0, 1, 1),
            Leads(1, 3),
            Use(1, 2, 3),
            Use(1, 1, 4),
            Iadd(1, 3, 4),
            Define(1, 2, 5),
            Use(1, 1, 4),
            Brif(1, 4, 3, 2),
            Leads(2, 5),
            Seal(2, 0),
            Use(2, 2, 5),
            Use(2, 0, 6),
            Isub(2, 5, 6),
            Define(2, 2, 7),
            Use(2, 1, 4),
            ReturnOne(2, 4),
            Leads(3, 5),
            Seal(3, 0),
            Use(3, 1, 4),
            Use(3, 0, 6),
            Isub(3, 4, 6),
            Define(3, 1, 8),
            Jump(3, 1),
            Leads(1, 9),
            Seal(1, 0),
            Is(Params(1, 2)),
            Is(Resolves(6, 0)),
            Prints(
                "function u0:0() fast {\nblock0:\n    v0 = iconst.i32 1\n    v6 -> v0\n    v1 = iconst.i32 2\n    v2 = iadd v0, v1  ; v0 = 1, v1 = 2\n    jump block1(v2, v1)  ; v1 = 2\n\nblock1(v3: i32, v4: i32):\n    v5 = iadd v3, v4\n    brif v4, block3, block2\n\nblock2:\n    v7 = isub.i32 v5, v6  ; v6 = 1\n    return v4\n\nblock3:\n    v8 = isub.i32 v4, v6  ; v6 = 1\n    jump block1(v5, v8)\n}\n",
            ),
        ],
    ),
    // A loop of one block: when it is sealed the parameter for z goes, and those for x and y keep their order.
    // The look-ups in a block's predecessors are counted where they began, and not where a value is recorded.
    (
        "reordering",
        &[
            Create,
            Create,
            Seal(0, 0),
            Iconst(0, 0),
            Define(0, 0, 0),
            Iconst(0, 1),
            Define(0, 1, 1),
            Iconst(0, 2),
            Define(0, 2, 2),
            Jump(0, 1),
            Leads(1, 3),
            Use(1, 2, 3),
            Use(1, 0, 4),
            Is(Params(1, 2)),
            Iadd(1, 4, 3),
            Define(1, 0, 5),
            Use(1, 0, 5),
            Use(1, 1, 6),
            Is(Params(1, 3)),
            Isub(1, 6, 5),
            Define(1, 1, 7),
            Jump(1, 1),
            Leads(1, 6),
            Is(Lookups(1, 1, 0)),
            Seal(1, 0),
            Is(Params(1, 2)),
            Is(Resolves(3, 2)),
            Is(Lookups(1, 0, 1)),
            Is(Lookups(1, 1, 1)),
            Is(Lookups(1, 2, 1)),
            Is(Lookups(0, 0, 0)),
            Is(Lookups(0, 1, 0)),
            Is(Lookups(0, 2, 0)),
            Is(Lookups(1, 3, 0)),
            Prints(
                "function u0:0() fast {\nblock0:\n    v0 = iconst.i32 0\n    v1 = iconst.i32 1\n    v2 = iconst.i32 2\n    v3 -> v2\n    jump block1(v0, v1)  ; v0 = 0, v1 = 1\n\nblock1(v4: i32, v6: i32):\n    v5 = iadd v4, v3  ; v3 = 2\n    v7 = isub v6, v5\n    jump block1(v5, v7)\n}\n",
            ),
        ],
    ),
];

/// Each use finds the value that was assigned last, and parameters stay where two values meet.
#[test]
fn programs(rt: HostRuntime) -> Result<(), Fail> {
    makes_each(&rt, rt.alloc(), &PROGRAMS)
}
