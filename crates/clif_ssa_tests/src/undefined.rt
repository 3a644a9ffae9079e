//! Variables that are used and never assigned.
#![tactic(auto)]

use super::facts::Fact::{ParamAt, Params, Resolves, Told, ToldAt};
use super::steps::Step::{
    Ask, Brif, Create, Declare, Define, Goes, Iconst, Is, Jump, Leads, Prints, Return, ReturnOne,
    Seal, SealAll, Use,
};
use super::steps::{Case, makes_each};
use clif_types::types::{F16X2, F32X4, F64, F128, F128X2, I8, I8X16, I32, I64, I64X4, I128};
use std::test::Fail;

/// Uses in one block and in several, which are reached or not.
const UNDEFINED: [Case; 9] = [
    // Variables of several types: a zero of each type is put, before those that are there.
    (
        "undef",
        &[
            Declare,
            Seal(0, 0),
            Ask(0, 0, I32),
            Is(Told(1)),
            Is(ToldAt(0, 0)),
            Ask(0, 1, I64),
            Is(Told(1)),
            Is(ToldAt(0, 0)),
            Ask(0, 2, I8),
            Is(Told(1)),
            Is(ToldAt(0, 0)),
            Is(Params(0, 0)),
            Prints(
                "function u0:0() fast {\nblock0:\n    v5 = iconst.i8 0\n    v4 -> v5\n    v3 = iconst.i64 0\n    v2 -> v3\n    v1 = iconst.i32 0\n    v0 -> v1\n}\n",
            ),
        ],
    ),
    // Zeros of two instructions, and of floats: a block is told once for each zero.
    (
        "undef_wide_and_floats",
        &[
            Declare,
            Seal(0, 0),
            Ask(0, 0, I128),
            Is(Told(1)),
            Is(ToldAt(0, 0)),
            Ask(0, 1, F32X4),
            Is(Told(1)),
            Ask(0, 2, F64),
            Is(Told(1)),
            Ask(0, 3, F16X2),
            Is(Told(1)),
            Is(Params(0, 0)),
            Prints(
                "function u0:0() fast {\nblock0:\n    v9 = f16const 0.0\n    v10 = splat.f16x2 v9  ; v9 = 0.0\n    v8 -> v10\n    v7 = f64const 0.0\n    v6 -> v7\n    v4 = f32const 0.0\n    v5 = splat.f32x4 v4  ; v4 = 0.0\n    v3 -> v5\n    v1 = iconst.i64 0\n    v2 = uextend.i128 v1  ; v1 = 0\n    v0 -> v2\n}\n",
            ),
        ],
    ),
    // Zeros of pooled constants: those of equal bytes are one constant.
    (
        "undef_pooled",
        &[
            Declare,
            Seal(0, 0),
            Ask(0, 0, I8X16),
            Is(Told(1)),
            Is(ToldAt(0, 0)),
            Ask(0, 1, I8X16),
            Is(Told(1)),
            Ask(0, 2, F128),
            Is(Told(1)),
            Ask(0, 3, F128X2),
            Is(Told(1)),
            Ask(0, 4, I64X4),
            Is(Told(1)),
            Is(Params(0, 0)),
            Prints(
                "function u0:0() fast {\n    const0 = 0x00000000000000000000000000000000\n    const1 = 0x0000000000000000000000000000000000000000000000000000000000000000\n\nblock0:\n    v10 = vconst.i64x4 const1\n    v9 -> v10\n    v7 = f128const const0\n    v8 = splat.f128x2 v7  ; v7 = const0\n    v6 -> v8\n    v5 = f128const const0\n    v4 -> v5\n    v3 = vconst.i8x16 const0\n    v2 -> v3\n    v1 = vconst.i8x16 const0\n    v0 -> v1\n}\n",
            ),
        ],
    ),
    // A use in the sealed entry puts a zero at once, and only the first use does.
    (
        "undef_in_entry",
        &[
            Declare,
            Seal(0, 0),
            Is(Params(0, 0)),
            Use(0, 0, 1),
            Is(Told(1)),
            Is(ToldAt(0, 0)),
            Use(0, 0, 0),
            Is(Told(0)),
            Is(Resolves(0, 1)),
            Is(Resolves(1, 1)),
            Is(Params(0, 0)),
            Prints("function u0:0() fast {\nblock0:\n    v1 = iconst.i32 0\n    v0 -> v1\n}\n"),
        ],
    ),
    // A use in the entry makes a parameter while that isn't sealed, and a zero of it then.
    (
        "undef_in_entry_sealed_after",
        &[
            Declare,
            Is(Params(0, 0)),
            Use(0, 0, 0),
            Is(Params(0, 1)),
            Is(ParamAt(0, 0, 0)),
            Seal(0, 1),
            Is(ToldAt(0, 0)),
            Is(Params(0, 0)),
            Seal(0, 0),
            Prints("function u0:0() fast {\nblock0:\n    v1 = iconst.i32 0\n    v0 -> v1\n}\n"),
        ],
    ),
    // A block that nothing but itself leads to, by both edges of its branch.
    (
        "unreachable_use",
        &[
            Create,
            Create,
            Seal(0, 0),
            Return(0),
            Use(1, 0, 0),
            Brif(1, 0, 1, 1),
            Leads(1, 1),
            Seal(1, 1),
            Prints(
                "function u0:0() fast {\nblock0:\n    return\n\nblock1:\n    v1 = iconst.i32 0\n    v0 -> v1\n    brif v0, block1, block1  ; v0 = 0\n}\n",
            ),
        ],
    ),
    // The same where another block, to which the first one leads, leads back.
    (
        "unreachable_use_with_multiple_preds",
        &[
            Create,
            Create,
            Create,
            Seal(0, 0),
            Return(0),
            Use(1, 0, 0),
            Brif(1, 0, 2, 1),
            Leads(1, 1),
            Leads(2, 1),
            Seal(2, 0),
            Jump(2, 1),
            Leads(1, 2),
            Seal(1, 1),
            Prints(
                "function u0:0() fast {\nblock0:\n    return\n\nblock1:\n    v1 = iconst.i32 0\n    v0 -> v1\n    brif v0, block2, block1  ; v0 = 0\n\nblock2:\n    jump block1\n}\n",
            ),
        ],
    ),
    // Two blocks that lead to each other alone; the variable is assigned in one of them behind the use. All
    // blocks are sealed at the end, and the look-up goes round and ends.
    (
        "reassign_with_predecessor_loop",
        &[
            Create,
            Create,
            Create,
            Iconst(0, 0),
            Define(0, 0, 0),
            Return(0),
            Goes(1, 2),
            Use(2, 0, 1),
            Iconst(2, 1),
            Define(2, 0, 2),
            Goes(2, 1),
            SealAll(0),
            Is(Resolves(1, 2)),
            Is(Params(2, 0)),
            Prints(
                "function u0:0() fast {\nblock0:\n    v0 = iconst.i32 0\n    return\n\nblock1:\n    jump block2\n\nblock2:\n    v2 = iconst.i32 1\n    v1 -> v2\n    jump block1\n}\n",
            ),
        ],
    ),
    // Two sealed blocks that lead to each other alone: a use ends, and a zero is put into the block of the
    // use.
    (
        "dead_cycle",
        &[
            Create,
            Create,
            Create,
            Return(0),
            Goes(1, 2),
            Goes(2, 1),
            SealAll(0),
            Use(2, 0, 1),
            Use(1, 0, 0),
            Use(2, 0, 0),
            ReturnOne(1, 1),
            Prints(
                "function u0:0() fast {\nblock0:\n    return\n\nblock1:\n    jump block2\n    return v1  ; v1 = 0\n\nblock2:\n    v1 = iconst.i32 0\n    v0 -> v1\n    jump block1\n}\n",
            ),
        ],
    ),
];

/// Which zeros are put, and into which blocks.
#[test]
fn undefined(rt: HostRuntime) -> Result<(), Fail> {
    makes_each(&rt, rt.alloc(), &UNDEFINED)
}
