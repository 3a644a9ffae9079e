//! Frames, headers, blocks, suffixes, comments and alias lines.
#![tactic(auto)]

use crate::instructions::Plain::{Binary, Convert, Iconst, Select, Unary};
use crate::steps::Head::{Named, Unnamed};
use crate::steps::Step::{Alias, Cold, Create, Go, LayOut, Param, Prints, Put, PutBehind};
use crate::steps::{Case, SAMPLE, make_all};
use crate::transfers::Transfer::Return;
use clif_opcodes::BinaryOpcode::{
    Band, Bor, Bxor, Iadd, Imul, Ishl, Isub, Sdiv, Srem, Sshr, Udiv, Urem, Ushr,
};
use clif_opcodes::ConvertOpcode::{Ireduce, Splat, Uextend};
use clif_opcodes::UnaryOpcode::{Bnot, Ineg};
use clif_types::CallConv::{SystemV, Tail};
use clif_types::types::{F64, I8, I8X16, I16, I32, I64};
use std::test::Fail;

// What a function of 18 parameters prints as, of which 12 became aliases.
const ALIASES_IN_ORDER: &str =
    "function %sample() system_v {\nblock0(v1: i32, v4: i32, v9: i32, v12: i32, v14: i32, v15: i32):\n    v2 -> v9\n    v5 -> v9\n    v6 -> v9\n    v10 -> v9\n    v13 -> v9\n    v16 -> v9\n    v3 -> v6\n    v7 -> v6\n    v17 -> v6\n    v8 -> v17\n    v0 -> v2\n    v11 -> v2\n}\n";

static CASES: [Case; 15] = [
    Case {
        name: "empty_row",
        head: Unnamed,
        steps: &[Prints("function u0:0() fast {\n}\n")],
    },
    // The calls: use x, which nothing assigned, in the unsealed block0; x = x + 7; return x; seal.
    Case {
        name: "first_row",
        head: Named("first", &[], &[I32], SystemV),
        steps: &[
            Create,
            LayOut(0),
            Param(0, I32),
            Put(0, I32, Iconst(7)),
            Put(0, I32, Binary(Iadd, 0, 1)),
            Go(0, Return(&[2])),
            PutBehind(0, 0, I32, Iconst(0)),
            Alias(0, 3),
            Prints(
                "function %first() -> i32 system_v {\nblock0:\n    v3 = iconst.i32 0\n    v0 -> v3\n    v1 = iconst.i32 7\n    v2 = iadd v0, v1  ; v0 = 0, v1 = 7\n    return v2\n}\n",
            ),
        ],
    },
    Case {
        name: "signatures_and_headers",
        head: Named("x", &[I32, I64], &[I8, F64], Tail),
        steps: &[
            Create,
            LayOut(0),
            Param(0, I32),
            Param(0, I64),
            Go(0, Return(&[])),
            Prints(
                "function %x(i32, i64) -> i8, f64 tail {\nblock0(v0: i32, v1: i64):\n    return\n}\n",
            ),
        ],
    },
    // A cold block says so behind its parameters.
    Case {
        name: "cold_headers",
        head: SAMPLE,
        steps: &[
            Create,
            Create,
            Create,
            LayOut(0),
            LayOut(1),
            LayOut(2),
            Cold(2),
            Cold(1),
            Cold(1),
            Param(1, I32),
            Go(0, Return(&[])),
            Prints(
                "function %sample() system_v {\nblock0:\n    return\n\nblock1(v0: i32) cold:\n\nblock2 cold:\n}\n",
            ),
        ],
    },
    // block1 comes before block0 in the layout, and block2 isn't in it. The first operand of an addition
    // tells its type: it is printed where that operand, or what it stands for, is defined elsewhere.
    Case {
        name: "blocks_and_suffixes",
        head: SAMPLE,
        steps: &[
            Create,
            Create,
            Create,
            LayOut(1),
            LayOut(0),
            Param(0, I64),
            Param(1, I64),
            Param(1, I64),
            Param(2, I64),
            Put(1, I64, Binary(Iadd, 0, 1)),
            Put(1, I64, Binary(Iadd, 1, 0)),
            Put(1, I64, Binary(Iadd, 2, 1)),
            Put(0, I64, Binary(Iadd, 4, 0)),
            Put(0, I64, Binary(Iadd, 7, 7)),
            Go(0, Return(&[4])),
            Alias(2, 0),
            Prints(
                "function %sample() system_v {\nblock1(v1: i64):\n    v4 = iadd.i64 v0, v1\n    v5 = iadd v1, v0\n    v6 = iadd.i64 v2, v1\n\nblock0(v0: i64):\n    v2 -> v0\n    v7 = iadd.i64 v4, v0\n    v8 = iadd v7, v7\n    return v4\n}\n",
            ),
        ],
    },
    // Operands are printed as they are given, each with its number where it stands for a constant.
    Case {
        name: "comments",
        head: SAMPLE,
        steps: &[
            Create,
            LayOut(0),
            Param(0, I8),
            Param(0, I8),
            Put(0, I8, Iconst(200)),
            Alias(0, 2),
            Put(0, I8, Binary(Iadd, 0, 0)),
            Put(0, I8, Binary(Iadd, 1, 2)),
            Put(0, I8, Binary(Iadd, 1, 3)),
            Go(0, Return(&[2, 1, 0, 2])),
            Prints(
                "function %sample() system_v {\nblock0(v1: i8):\n    v2 = iconst.i8 -56\n    v0 -> v2\n    v3 = iadd v0, v0  ; v0 = -56, v0 = -56\n    v4 = iadd v1, v2  ; v2 = -56\n    v5 = iadd v1, v3\n    return v2, v1, v0, v2  ; v2 = -56, v0 = -56, v2 = -56\n}\n",
            ),
        ],
    },
    // Each operation by its name, with its type where its first operand is defined elsewhere, and the constants that its
    // operands stand for.
    Case {
        name: "operations",
        head: SAMPLE,
        steps: &[
            Create,
            Create,
            LayOut(0),
            LayOut(1),
            Param(0, I16),
            Put(0, I16, Iconst(3)),
            Put(0, I16, Unary(Ineg, 0)),
            Put(0, I16, Unary(Bnot, 1)),
            Put(0, I16, Binary(Iadd, 0, 2)),
            Put(0, I16, Binary(Isub, 0, 2)),
            Put(0, I16, Binary(Imul, 0, 1)),
            Put(0, I16, Binary(Band, 2, 3)),
            Put(0, I16, Binary(Bor, 2, 3)),
            Put(0, I16, Binary(Bxor, 2, 3)),
            Put(1, I16, Unary(Bnot, 0)),
            Put(1, I16, Binary(Bxor, 0, 1)),
            Go(1, Return(&[])),
            Prints(
                "function %sample() system_v {\nblock0(v0: i16):\n    v1 = iconst.i16 3\n    v2 = ineg v0\n    v3 = bnot v1  ; v1 = 3\n    v4 = iadd v0, v2\n    v5 = isub v0, v2\n    v6 = imul v0, v1  ; v1 = 3\n    v7 = band v2, v3\n    v8 = bor v2, v3\n    v9 = bxor v2, v3\n\nblock1:\n    v10 = bnot.i16 v0\n    v11 = bxor.i16 v0, v1  ; v1 = 3\n    return\n}\n",
            ),
        ],
    },
    // Shifts, quotients and remainders by their names. The first operand tells the type: an amount may have another one.
    Case {
        name: "shifts_and_quotients",
        head: SAMPLE,
        steps: &[
            Create,
            Create,
            LayOut(0),
            LayOut(1),
            Param(0, I16),
            Param(0, I8),
            Put(0, I16, Binary(Ishl, 0, 1)),
            Put(0, I16, Binary(Ushr, 2, 1)),
            Put(1, I16, Binary(Sshr, 3, 1)),
            Put(1, I16, Binary(Udiv, 4, 0)),
            Put(1, I16, Binary(Sdiv, 5, 0)),
            Put(1, I16, Binary(Urem, 6, 0)),
            Put(1, I16, Binary(Srem, 0, 7)),
            Go(1, Return(&[])),
            Prints(
                "function %sample() system_v {\nblock0(v0: i16, v1: i8):\n    v2 = ishl v0, v1\n    v3 = ushr v2, v1\n\nblock1:\n    v4 = sshr.i16 v3, v1\n    v5 = udiv v4, v0\n    v6 = sdiv v5, v0\n    v7 = urem v6, v0\n    v8 = srem.i16 v0, v7\n    return\n}\n",
            ),
        ],
    },
    // A conversion prints the type that it was given. The second operand tells the type of a choice.
    Case {
        name: "conversions_and_choices",
        head: SAMPLE,
        steps: &[
            Create,
            Create,
            LayOut(0),
            LayOut(1),
            Param(0, I8),
            Put(0, I8, Iconst(3)),
            Put(0, I64, Convert(Uextend, 1)),
            Put(0, I16, Convert(Ireduce, 2)),
            Put(0, I8X16, Convert(Splat, 0)),
            Put(0, I8, Select(3, 0, 1)),
            Put(1, I8, Select(3, 0, 1)),
            Put(1, I64, Convert(Uextend, 6)),
            Put(1, I64, Select(0, 7, 2)),
            Go(1, Return(&[])),
            Prints(
                "function %sample() system_v {\nblock0(v0: i8):\n    v1 = iconst.i8 3\n    v2 = uextend.i64 v1  ; v1 = 3\n    v3 = ireduce.i16 v2\n    v4 = splat.i8x16 v0\n    v5 = select v3, v0, v1  ; v1 = 3\n\nblock1:\n    v6 = select.i8 v3, v0, v1  ; v1 = 3\n    v7 = uextend.i64 v6\n    v8 = select v0, v7, v2\n    return\n}\n",
            ),
        ],
    },
    // Each alias leads to the value that stood for itself when it was made.
    Case {
        name: "chain_of_aliases",
        head: SAMPLE,
        steps: &[
            Create,
            LayOut(0),
            Param(0, I32),
            Param(0, I32),
            Param(0, I32),
            Param(0, I32),
            Put(0, I32, Iconst(5)),
            Alias(2, 0),
            Alias(0, 3),
            Alias(3, 4),
            Alias(1, 2),
            Go(0, Return(&[2])),
            Prints(
                "function %sample() system_v {\nblock0:\n    v4 = iconst.i32 5\n    v1 -> v4\n    v3 -> v4\n    v0 -> v3\n    v2 -> v0\n    return v2  ; v2 = 5\n}\n",
            ),
        ],
    },
    // Of v4 there are v2, v3 and v5; of v5 v0 and v8; of v8 v12; of v0 v11; of v2 v1 and v7; of v7 v10.
    // The direct aliases of a value are printed by rising number, and are then handled last to first,
    // each with all that is below it.
    Case {
        name: "tree_of_aliases",
        head: SAMPLE,
        steps: &[
            Create,
            LayOut(0),
            Param(0, I32),
            Param(0, I32),
            Param(0, I32),
            Param(0, I32),
            Param(0, I32),
            Param(0, I32),
            Param(0, I32),
            Param(0, I32),
            Param(0, I32),
            Param(0, I32),
            Param(0, I32),
            Param(0, I32),
            Param(0, I32),
            Alias(12, 8),
            Alias(11, 0),
            Alias(10, 7),
            Alias(7, 2),
            Alias(8, 5),
            Alias(1, 2),
            Alias(0, 5),
            Alias(5, 4),
            Alias(6, 9),
            Alias(2, 4),
            Alias(3, 2),
            Prints(
                "function %sample() system_v {\nblock0(v4: i32, v9: i32):\n    v2 -> v4\n    v3 -> v4\n    v5 -> v4\n    v0 -> v5\n    v8 -> v5\n    v12 -> v8\n    v11 -> v0\n    v1 -> v2\n    v7 -> v2\n    v10 -> v7\n    v6 -> v9\n}\n",
            ),
        ],
    },
    // The same aliases, made in three orders: of v9 there are v2, v5, v6, v10, v13 and v16; of v6 v3, v7 and v17; of v17
    // v8; of v2 v0 and v11.
    Case {
        name: "aliases_rising",
        head: SAMPLE,
        steps: &[
            Create,
            LayOut(0),
            Param(0, I32),
            Param(0, I32),
            Param(0, I32),
            Param(0, I32),
            Param(0, I32),
            Param(0, I32),
            Param(0, I32),
            Param(0, I32),
            Param(0, I32),
            Param(0, I32),
            Param(0, I32),
            Param(0, I32),
            Param(0, I32),
            Param(0, I32),
            Param(0, I32),
            Param(0, I32),
            Param(0, I32),
            Param(0, I32),
            Alias(8, 17),
            Alias(3, 6),
            Alias(7, 6),
            Alias(17, 6),
            Alias(0, 2),
            Alias(11, 2),
            Alias(2, 9),
            Alias(5, 9),
            Alias(6, 9),
            Alias(10, 9),
            Alias(13, 9),
            Alias(16, 9),
            Prints(ALIASES_IN_ORDER),
        ],
    },
    Case {
        name: "aliases_falling",
        head: SAMPLE,
        steps: &[
            Create,
            LayOut(0),
            Param(0, I32),
            Param(0, I32),
            Param(0, I32),
            Param(0, I32),
            Param(0, I32),
            Param(0, I32),
            Param(0, I32),
            Param(0, I32),
            Param(0, I32),
            Param(0, I32),
            Param(0, I32),
            Param(0, I32),
            Param(0, I32),
            Param(0, I32),
            Param(0, I32),
            Param(0, I32),
            Param(0, I32),
            Param(0, I32),
            Alias(8, 17),
            Alias(17, 6),
            Alias(7, 6),
            Alias(3, 6),
            Alias(11, 2),
            Alias(0, 2),
            Alias(16, 9),
            Alias(13, 9),
            Alias(10, 9),
            Alias(6, 9),
            Alias(5, 9),
            Alias(2, 9),
            Prints(ALIASES_IN_ORDER),
        ],
    },
    Case {
        name: "aliases_mixed",
        head: SAMPLE,
        steps: &[
            Create,
            LayOut(0),
            Param(0, I32),
            Param(0, I32),
            Param(0, I32),
            Param(0, I32),
            Param(0, I32),
            Param(0, I32),
            Param(0, I32),
            Param(0, I32),
            Param(0, I32),
            Param(0, I32),
            Param(0, I32),
            Param(0, I32),
            Param(0, I32),
            Param(0, I32),
            Param(0, I32),
            Param(0, I32),
            Param(0, I32),
            Param(0, I32),
            Alias(8, 17),
            Alias(7, 6),
            Alias(17, 6),
            Alias(3, 6),
            Alias(11, 2),
            Alias(0, 2),
            Alias(10, 9),
            Alias(2, 9),
            Alias(16, 9),
            Prints(
                "function %sample() system_v {\nblock0(v1: i32, v4: i32, v5: i32, v6: i32, v9: i32, v12: i32, v13: i32, v14: i32, v15: i32):\n    v3 -> v6\n    v7 -> v6\n    v17 -> v6\n    v8 -> v17\n    v2 -> v9\n    v10 -> v9\n    v16 -> v9\n    v0 -> v2\n    v11 -> v2\n}\n",
            ),
            Alias(5, 9),
            Alias(13, 9),
            Alias(6, 9),
            Prints(ALIASES_IN_ORDER),
        ],
    },
    // A number at its width, in an instruction, and in the comment that repeats it.
    Case {
        name: "numbers_in_instructions",
        head: SAMPLE,
        steps: &[
            Create,
            LayOut(0),
            Put(0, I16, Iconst(-10000)),
            Put(0, I8, Iconst(10000)),
            Go(0, Return(&[0, 1])),
            Prints(
                "function %sample() system_v {\nblock0:\n    v0 = iconst.i16 0xffff_ffff_ffff_d8f0\n    v1 = iconst.i8 16\n    return v0, v1  ; v0 = 0xffff_ffff_ffff_d8f0, v1 = 16\n}\n",
            ),
        ],
    },
];

#[test]
fn frames_and_lines(rt: HostRuntime) -> Result<(), Fail> {
    make_all(&rt, rt.alloc(), &[], &CASES)
}
