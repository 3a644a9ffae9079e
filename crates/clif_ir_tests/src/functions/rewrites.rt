//! Instructions that are rewritten in their place, or put beside another one: the text before and after.
#![tactic(auto)]

use crate::instructions::Flags::Each;
use crate::instructions::NO_FLAGS;
use crate::instructions::Plain::{
    Binary, Concat, CondTrap, Convert, Icmp, Iconst, Load, Select, Split, StackStore, Store, Unary,
};
use crate::steps::Step::{
    After, Append, Argument, Before, Create, Edge, Go, LayOut, NameRegion, Operand, Param, Prints,
    Put, Region, Slot, Target,
};
use crate::steps::{Case, SAMPLE, make_all};
use crate::transfers::Arg::Known;
use crate::transfers::To;
use crate::transfers::Transfer::{BranchTable, Brif, Jump, Return};
use clif_opcodes::BinaryOpcode::Iadd;
use clif_opcodes::CondTrapOpcode::Trapz;
use clif_opcodes::ConvertOpcode::Uextend;
use clif_opcodes::UnaryOpcode::Ineg;
use clif_types::IntCC::Equal;
use clif_types::TrapCode::User;
use clif_types::types::{I32, I64, I128, INVALID};
use std::test::Fail;

static CASES: [Case; 7] = [
    // Accesses name other regions, or none; their other flags stay, and so does what is no access.
    Case {
        name: "regions",
        head: SAMPLE,
        steps: &[
            Create,
            LayOut(0),
            Region(7),
            Region(8),
            Param(0, I64),
            Put(0, I32, Load(Each(true, false, None), 0, 0)),
            Put(0, I32, Store(Each(false, true, Some(0)), 1, 0, 4)),
            Put(0, I32, Binary(Iadd, 1, 1)),
            NameRegion(0, Some(1)),
            NameRegion(1, Some(1)),
            NameRegion(2, Some(1)),
            Go(0, Return(&[])),
            NameRegion(3, Some(0)),
            Prints(
                "function %sample() system_v {\n    region0 = user 7\n    region1 = user 8\n\nblock0(v0: i64):\n    v1 = load.i32 notrap region1 v0\n    store aligned region1 v1, v0+4\n    v2 = iadd v1, v1\n    return\n}\n",
            ),
            NameRegion(0, None),
            NameRegion(1, Some(99)),
            Prints(
                "function %sample() system_v {\n    region0 = user 7\n    region1 = user 8\n\nblock0(v0: i64):\n    v1 = load.i32 notrap v0\n    store aligned region99 v1, v0+4\n    v2 = iadd v1, v1\n    return\n}\n",
            ),
        ],
    },
    // All edges to the block change, and no other edge does. What they pass stays.
    Case {
        name: "targets",
        head: SAMPLE,
        steps: &[
            Create,
            Create,
            Create,
            Create,
            LayOut(0),
            LayOut(1),
            LayOut(2),
            LayOut(3),
            Param(0, I32),
            Param(1, I32),
            Param(3, I32),
            Go(0, BranchTable(0, 1, &[2, 1])),
            Append(0, 1, 0),
            Go(1, Brif(1, To(1, &[]), To(2, &[]))),
            Append(1, 1, 1),
            Go(2, Jump(To(1, &[]))),
            Append(2, 1, 0),
            Go(3, Return(&[])),
            Prints(
                "function %sample() system_v {\nblock0(v0: i32):\n    br_table v0, block1(v0), [block2, block1(v0)]\n\nblock1(v1: i32):\n    brif v1, block1(v1), block2\n\nblock2:\n    jump block1(v0)\n\nblock3(v2: i32):\n    return\n}\n",
            ),
            Target(0, 1, 3),
            Target(1, 1, 3),
            Target(1, 0, 2),
            Target(2, 2, 3),
            Target(3, 1, 3),
            Prints(
                "function %sample() system_v {\nblock0(v0: i32):\n    br_table v0, block3(v0), [block2, block3(v0)]\n\nblock1(v1: i32):\n    brif v1, block3(v1), block2\n\nblock2:\n    jump block1(v0)\n\nblock3(v2: i32):\n    return\n}\n",
            ),
        ],
    },
    // An operand of an instruction of each format that has any.
    Case {
        name: "operands",
        head: SAMPLE,
        steps: &[
            Slot(8, 0),
            Create,
            Create,
            Create,
            Create,
            LayOut(0),
            LayOut(1),
            LayOut(2),
            LayOut(3),
            Param(0, I64),
            Param(0, I64),
            Param(0, I32),
            Param(0, I32),
            Put(0, I64, Unary(Ineg, 0)),
            Put(0, I64, Binary(Iadd, 0, 0)),
            Put(0, I64, Icmp(Equal, 0, 0)),
            Put(0, I64, Concat(0, 0)),
            Put(0, I64, Concat(1, 1)),
            Put(0, I128, Split(7)),
            Put(0, I64, Convert(Uextend, 2)),
            Put(0, I64, Select(2, 0, 0)),
            Put(0, I32, Load(NO_FLAGS, 0, 8)),
            Put(0, INVALID, Store(NO_FLAGS, 2, 0, 0)),
            Put(0, INVALID, StackStore(2, 0, 4)),
            Put(0, INVALID, CondTrap(Trapz, 2, User(1))),
            Go(0, BranchTable(2, 1, &[2, 3])),
            Put(1, I64, Convert(Uextend, 2)),
            Put(1, I64, Convert(Uextend, 3)),
            Go(1, Brif(14, To(2, &[]), To(2, &[]))),
            Go(2, Return(&[0, 0, 0, 0])),
            Go(3, Return(&[0, 0])),
            Prints(
                "function %sample() system_v {\n    ss0 = explicit_slot 8\n\nblock0(v0: i64, v1: i64, v2: i32, v3: i32):\n    v4 = ineg v0\n    v5 = iadd v0, v0\n    v6 = icmp eq v0, v0\n    v7 = iconcat v0, v0\n    v8 = iconcat v1, v1\n    v9, v10 = isplit v7\n    v11 = uextend.i64 v2\n    v12 = select v2, v0, v0\n    v13 = load.i32 v0+8\n    store v2, v0\n    stack_store v2, ss0+4\n    trapz v2, user1\n    br_table v2, block1, [block2, block3]\n\nblock1:\n    v14 = uextend.i64 v2\n    v15 = uextend.i64 v3\n    brif v14, block2, block2\n\nblock2:\n    return v0, v0, v0, v0\n\nblock3:\n    return v0, v0\n}\n",
            ),
            Operand(0, 0, 1),
            Operand(1, 1, 1),
            Operand(2, 0, 1),
            Operand(3, 1, 1),
            Operand(5, 0, 8),
            Operand(6, 0, 3),
            Operand(7, 2, 1),
            Operand(8, 0, 1),
            Operand(9, 1, 1),
            Operand(10, 0, 3),
            Operand(11, 0, 3),
            Operand(12, 0, 3),
            Operand(15, 0, 15),
            Operand(16, 2, 1),
            Operand(17, 1, 1),
            Prints(
                "function %sample() system_v {\n    ss0 = explicit_slot 8\n\nblock0(v0: i64, v1: i64, v2: i32, v3: i32):\n    v4 = ineg v1\n    v5 = iadd v0, v1\n    v6 = icmp eq v1, v0\n    v7 = iconcat v0, v1\n    v8 = iconcat v1, v1\n    v9, v10 = isplit v8\n    v11 = uextend.i64 v3\n    v12 = select v2, v0, v1\n    v13 = load.i32 v1+8\n    store v2, v1\n    stack_store v3, ss0+4\n    trapz v3, user1\n    br_table v3, block1, [block2, block3]\n\nblock1:\n    v14 = uextend.i64 v2\n    v15 = uextend.i64 v3\n    brif v15, block2, block2\n\nblock2:\n    return v0, v0, v1, v0\n\nblock3:\n    return v0, v1\n}\n",
            ),
        ],
    },
    // One argument of one edge, of each kind of branch.
    Case {
        name: "arguments",
        head: SAMPLE,
        steps: &[
            Create,
            Create,
            Create,
            Create,
            LayOut(0),
            LayOut(1),
            LayOut(2),
            LayOut(3),
            Param(0, I32),
            Param(0, I32),
            Param(1, I32),
            Param(1, I32),
            Param(3, I32),
            Go(0, BranchTable(0, 1, &[2, 1])),
            Append(0, 1, 0),
            Append(0, 1, 0),
            Go(1, Brif(2, To(3, &[]), To(3, &[]))),
            Append(1, 3, 2),
            Go(2, Jump(To(3, &[]))),
            Append(2, 3, 0),
            Go(3, Return(&[])),
            Prints(
                "function %sample() system_v {\nblock0(v0: i32, v1: i32):\n    br_table v0, block1(v0, v0), [block2, block1(v0, v0)]\n\nblock1(v2: i32, v3: i32):\n    brif v2, block3(v2), block3(v2)\n\nblock2:\n    jump block3(v0)\n\nblock3(v4: i32):\n    return\n}\n",
            ),
            Argument(0, 2, 1, 1),
            Argument(1, 1, 0, 3),
            Argument(2, 0, 0, 1),
            Prints(
                "function %sample() system_v {\nblock0(v0: i32, v1: i32):\n    br_table v0, block1(v0, v0), [block2, block1(v0, v1)]\n\nblock1(v2: i32, v3: i32):\n    brif v2, block3(v2), block3(v3)\n\nblock2:\n    jump block3(v1)\n\nblock3(v4: i32):\n    return\n}\n",
            ),
            Edge(0, 1, To(3, &[Known(0)])),
            Edge(1, 0, To(2, &[])),
            Edge(2, 0, To(1, &[Known(0), Known(1)])),
            Prints(
                "function %sample() system_v {\nblock0(v0: i32, v1: i32):\n    br_table v0, block1(v0, v0), [block3(v0), block1(v0, v1)]\n\nblock1(v2: i32, v3: i32):\n    brif v2, block2, block3(v3)\n\nblock2:\n    jump block1(v0, v1)\n\nblock3(v4: i32):\n    return\n}\n",
            ),
        ],
    },
    // Equal data is one region.
    Case {
        name: "regions",
        head: SAMPLE,
        steps: &[
            Region(7),
            Region(9),
            Region(7),
            Prints(
                "function %sample() system_v {\n    region0 = user 7\n    region1 = user 9\n\n}\n",
            ),
        ],
    },
    // At the front of a block, amid its instructions, and before its terminator.
    Case {
        name: "neighbours",
        head: SAMPLE,
        steps: &[
            Create,
            LayOut(0),
            Put(0, I32, Iconst(1)),
            Go(0, Return(&[])),
            Prints(
                "function %sample() system_v {\nblock0:\n    v0 = iconst.i32 1\n    return\n}\n",
            ),
            Before(1, I32, Iconst(2)),
            After(0, I32, Iconst(3)),
            Before(0, I32, Iconst(4)),
            Before(2, I32, Iconst(5)),
            Prints(
                "function %sample() system_v {\nblock0:\n    v3 = iconst.i32 4\n    v0 = iconst.i32 1\n    v2 = iconst.i32 3\n    v4 = iconst.i32 5\n    v1 = iconst.i32 2\n    return\n}\n",
            ),
        ],
    },
    // Before and behind each instruction of a block, as a pass goes along it.
    Case {
        name: "around_each",
        head: SAMPLE,
        steps: &[
            Create,
            LayOut(0),
            Put(0, I32, Iconst(1)),
            Put(0, I32, Iconst(2)),
            Go(0, Return(&[])),
            Prints(
                "function %sample() system_v {\nblock0:\n    v0 = iconst.i32 1\n    v1 = iconst.i32 2\n    return\n}\n",
            ),
            Before(0, I32, Iconst(10)),
            After(0, I32, Iconst(11)),
            Before(1, I32, Iconst(12)),
            After(1, I32, Iconst(13)),
            Before(2, I32, Iconst(14)),
            Prints(
                "function %sample() system_v {\nblock0:\n    v2 = iconst.i32 10\n    v0 = iconst.i32 1\n    v3 = iconst.i32 11\n    v4 = iconst.i32 12\n    v1 = iconst.i32 2\n    v5 = iconst.i32 13\n    v6 = iconst.i32 14\n    return\n}\n",
            ),
        ],
    },
];

#[test]
fn changed_instructions(rt: HostRuntime) -> Result<(), Fail> {
    make_all(&rt, rt.alloc(), &[], &CASES)
}
