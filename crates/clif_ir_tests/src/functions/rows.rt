//! Whole functions that are made as a spiller, a switch and a builder make them.
//!
//! A spiller makes of a function stores and reloads of stack slots, and stack maps of calls: its functions are made as they
//! stand without slots, and then rewritten from the last instruction to the first one.
#![tactic(auto)]

use crate::instructions::Flags::Trusted;
use crate::instructions::Plain::{
    Binary, Concat, Constant, Convert, Float, Icmp, Iconst, Load, Stack, Store, Trap,
};
use crate::steps::Head::{Named, Unnamed};
use crate::steps::Step::{
    Alias, Before, Create, Ensure, Go, Import, Operand, Param, Pool, Prints, Put, Slot, StackMap,
};
use crate::steps::{Case, SAMPLE, make_all};
use crate::transfers::Arg::{Known, Ret};
use crate::transfers::Item::Default;
use crate::transfers::Transfer::{BranchTable, Brif, Call, Jump, Return, TryCall};
use crate::transfers::{Throws, To};
use clif_opcodes::BinaryOpcode::{Iadd, Isub};
use clif_opcodes::ConvertOpcode::{Ireduce, Sextend, Splat, Uextend};
use clif_opcodes::FloatConstOpcode::F32const;
use clif_opcodes::PooledConstOpcode::Vconst;
use clif_opcodes::StackOpcode::StackAddr;
use clif_types::CallConv::SystemV;
use clif_types::IntCC::{Equal, UnsignedGreaterThan, UnsignedGreaterThanOrEqual};
use clif_types::TrapCode::User;
use clif_types::types::{F32X4, I8, I8X16, I32, I64, I128, INVALID};
use std::test::Fail;

// Half of a number of 128 bits, 2^63 + 1 as a number with a sign.
const HALF: i64 = -0x7fff_ffff_ffff_ffff;

pub(super) static CASES: [Case; 6] = [
    // The row slot_reuse: two values, one after the other, each passed to two calls. They take one slot, which the first call
    // of each pair names.
    Case {
        name: "slot_reuse",
        head: SAMPLE,
        steps: &[
            Import("g", &[I32], &[]),
            Create,
            Ensure(0),
            Put(0, I32, Iconst(0)),
            Go(0, Call(0, &[0])),
            Go(0, Call(0, &[0])),
            Put(0, I32, Iconst(1)),
            Go(0, Call(0, &[1])),
            Go(0, Call(0, &[1])),
            Go(0, Return(&[])),
            Slot(4, 2),
            Before(5, I64, Stack(StackAddr, 0, 0)),
            Before(5, I32, Load(Trusted, 2, 0)),
            Operand(5, 0, 3),
            StackMap(4, &[(I32, 0, 0)]),
            Before(4, I64, Stack(StackAddr, 0, 0)),
            Before(4, I32, Load(Trusted, 4, 0)),
            Operand(4, 0, 5),
            Before(9, I64, Stack(StackAddr, 0, 0)),
            Before(9, INVALID, Store(Trusted, 1, 6, 0)),
            Before(2, I64, Stack(StackAddr, 0, 0)),
            Before(2, I32, Load(Trusted, 7, 0)),
            Operand(2, 0, 8),
            StackMap(1, &[(I32, 0, 0)]),
            Before(1, I64, Stack(StackAddr, 0, 0)),
            Before(1, I32, Load(Trusted, 9, 0)),
            Operand(1, 0, 10),
            Before(15, I64, Stack(StackAddr, 0, 0)),
            Before(15, INVALID, Store(Trusted, 0, 11, 0)),
            Prints(
                "function %sample() system_v {\n    ss0 = explicit_slot 4, align = 4\n    sig0 = (i32) system_v\n    fn0 = %g sig0\n\nblock0:\n    v0 = iconst.i32 0\n    v11 = stack_addr.i64 ss0\n    store notrap aligned v0, v11  ; v0 = 0\n    v9 = stack_addr.i64 ss0\n    v10 = load.i32 notrap aligned v9\n    call fn0(v10), stack_map=[i32 @ ss0+0]\n    v7 = stack_addr.i64 ss0\n    v8 = load.i32 notrap aligned v7\n    call fn0(v8)\n    v1 = iconst.i32 1\n    v6 = stack_addr.i64 ss0\n    store notrap aligned v1, v6  ; v1 = 1\n    v4 = stack_addr.i64 ss0\n    v5 = load.i32 notrap aligned v4\n    call fn0(v5), stack_map=[i32 @ ss0+0]\n    v2 = stack_addr.i64 ss0\n    v3 = load.i32 notrap aligned v2\n    call fn0(v3)\n    return\n}\n",
            ),
        ],
    },
    // The row loop: a parameter that is live around a loop whose body makes another value. v2 was a parameter of block1
    // before that block was sealed.
    Case {
        name: "loop_row",
        head: Named("loop", &[I32], &[], SystemV),
        steps: &[
            Import("use", &[I32], &[]),
            Import("make", &[], &[I32]),
            Create,
            Create,
            Create,
            Ensure(0),
            Ensure(1),
            Ensure(2),
            Param(0, I32),
            Go(0, Jump(To(1, &[]))),
            Go(1, Call(1, &[])),
            Go(1, Call(0, &[1])),
            Go(1, Call(0, &[1])),
            Param(1, I32),
            Go(1, Call(0, &[2])),
            Go(1, Brif(2, To(1, &[]), To(2, &[]))),
            Alias(2, 0),
            Go(2, Return(&[])),
            Slot(4, 2),
            Before(5, I64, Stack(StackAddr, 0, 0)),
            Before(5, I32, Load(Trusted, 3, 0)),
            Operand(5, 0, 4),
            StackMap(4, &[(I32, 0, 0)]),
            Before(4, I64, Stack(StackAddr, 0, 0)),
            Before(4, I32, Load(Trusted, 5, 0)),
            Operand(4, 0, 6),
            StackMap(3, &[(I32, 0, 0)]),
            Slot(4, 2),
            Before(3, I64, Stack(StackAddr, 1, 0)),
            Before(3, I32, Load(Trusted, 7, 0)),
            Operand(3, 0, 8),
            StackMap(2, &[(I32, 0, 0), (I32, 1, 0)]),
            Before(2, I64, Stack(StackAddr, 1, 0)),
            Before(2, I32, Load(Trusted, 9, 0)),
            Operand(2, 0, 10),
            Before(13, I64, Stack(StackAddr, 1, 0)),
            Before(13, INVALID, Store(Trusted, 1, 11, 0)),
            StackMap(1, &[(I32, 0, 0)]),
            Before(0, I64, Stack(StackAddr, 0, 0)),
            Before(0, INVALID, Store(Trusted, 0, 12, 0)),
            Prints(
                "function %loop(i32) system_v {\n    ss0 = explicit_slot 4, align = 4\n    ss1 = explicit_slot 4, align = 4\n    sig0 = (i32) system_v\n    sig1 = () -> i32 system_v\n    fn0 = %use sig0\n    fn1 = %make sig1\n\nblock0(v0: i32):\n    v2 -> v0\n    v12 = stack_addr.i64 ss0\n    store notrap aligned v0, v12\n    jump block1\n\nblock1:\n    v1 = call fn1(), stack_map=[i32 @ ss0+0]\n    v11 = stack_addr.i64 ss1\n    store notrap aligned v1, v11\n    v9 = stack_addr.i64 ss1\n    v10 = load.i32 notrap aligned v9\n    call fn0(v10), stack_map=[i32 @ ss0+0, i32 @ ss1+0]\n    v7 = stack_addr.i64 ss1\n    v8 = load.i32 notrap aligned v7\n    call fn0(v8), stack_map=[i32 @ ss0+0]\n    v5 = stack_addr.i64 ss0\n    v6 = load.i32 notrap aligned v5\n    call fn0(v6), stack_map=[i32 @ ss0+0]\n    v3 = stack_addr.i64 ss0\n    v4 = load.i32 notrap aligned v3\n    brif v4, block1, block2\n\nblock2:\n    return\n}\n",
            ),
        ],
    },
    // The row try_call: the normal edge passes the spilled value and what the call returns, so it goes by block3, which
    // reloads the value.
    Case {
        name: "try_call",
        head: Named("try", &[I64], &[I64], SystemV),
        steps: &[
            Import("f", &[I64], &[I32]),
            Create,
            Create,
            Create,
            Create,
            Ensure(0),
            Ensure(3),
            Ensure(1),
            Ensure(2),
            Param(0, I64),
            Param(1, I64),
            Param(1, I32),
            Go(
                0,
                TryCall(
                    0,
                    &[0],
                    Throws {
                        sig: 0,
                        normal: To(3, &[Ret(0)]),
                        items: &[Default(To(2, &[]))],
                    },
                ),
            ),
            Go(1, Return(&[1])),
            Put(2, INVALID, Trap(User(1))),
            Slot(8, 3),
            StackMap(0, &[(I64, 0, 0)]),
            Put(3, I64, Stack(StackAddr, 0, 0)),
            Put(3, I64, Load(Trusted, 3, 0)),
            Param(3, I32),
            Go(3, Jump(To(1, &[Known(4), Known(5)]))),
            Before(0, I64, Stack(StackAddr, 0, 0)),
            Before(0, I64, Load(Trusted, 6, 0)),
            Operand(0, 0, 7),
            Before(6, I64, Stack(StackAddr, 0, 0)),
            Before(6, INVALID, Store(Trusted, 0, 8, 0)),
            Prints(
                "function %try(i64) -> i64 system_v {\n    ss0 = explicit_slot 8, align = 8\n    sig0 = (i64) -> i32 system_v\n    fn0 = %f sig0\n\nblock0(v0: i64):\n    v8 = stack_addr.i64 ss0\n    store notrap aligned v0, v8\n    v6 = stack_addr.i64 ss0\n    v7 = load.i64 notrap aligned v6\n    try_call fn0(v7), sig0, block3(ret0), [ default: block2 ], stack_map=[i64 @ ss0+0]\n\nblock3(v5: i32):\n    v3 = stack_addr.i64 ss0\n    v4 = load.i64 notrap aligned v3\n    jump block1(v4, v5)\n\nblock1(v1: i64, v2: i32):\n    return v1\n\nblock2:\n    trap user1\n}\n",
            ),
        ],
    },
    // The row switch_many: cases 0 and 1, 5, 7, and 10 to 12 of a small integer, which lead to block1 to block7. These, and
    // the first one, which is the default, stand without instructions of their own.
    Case {
        name: "switch_many",
        head: Unnamed,
        steps: &[
            Create,
            Create,
            Create,
            Create,
            Create,
            Create,
            Create,
            Create,
            Create,
            Create,
            Create,
            Create,
            Create,
            Ensure(0),
            Ensure(9),
            Ensure(11),
            Ensure(10),
            Ensure(8),
            Ensure(12),
            Put(0, I8, Iconst(0)),
            Put(0, I8, Iconst(7)),
            Put(0, I8, Icmp(UnsignedGreaterThanOrEqual, 0, 1)),
            Go(0, Brif(2, To(9, &[]), To(8, &[]))),
            Put(9, I8, Iconst(10)),
            Put(9, I8, Icmp(UnsignedGreaterThanOrEqual, 0, 3)),
            Go(9, Brif(4, To(11, &[]), To(10, &[]))),
            Put(11, I8, Iconst(-10)),
            Put(11, I8, Binary(Iadd, 0, 5)),
            Put(11, I32, Convert(Uextend, 6)),
            Go(11, BranchTable(7, 0, &[5, 6, 7])),
            Put(10, I8, Iconst(7)),
            Put(10, I8, Icmp(Equal, 0, 8)),
            Go(10, Brif(9, To(4, &[]), To(0, &[]))),
            Put(8, I8, Iconst(5)),
            Put(8, I8, Icmp(Equal, 0, 10)),
            Go(8, Brif(11, To(3, &[]), To(12, &[]))),
            Put(12, I32, Convert(Uextend, 0)),
            Go(12, BranchTable(12, 0, &[1, 2])),
            Prints(
                "function u0:0() fast {\nblock0:\n    v0 = iconst.i8 0\n    v1 = iconst.i8 7\n    v2 = icmp uge v0, v1  ; v0 = 0, v1 = 7\n    brif v2, block9, block8\n\nblock9:\n    v3 = iconst.i8 10\n    v4 = icmp.i8 uge v0, v3  ; v0 = 0, v3 = 10\n    brif v4, block11, block10\n\nblock11:\n    v5 = iconst.i8 -10\n    v6 = iadd.i8 v0, v5  ; v0 = 0, v5 = -10\n    v7 = uextend.i32 v6\n    br_table v7, block0, [block5, block6, block7]\n\nblock10:\n    v8 = iconst.i8 7\n    v9 = icmp.i8 eq v0, v8  ; v0 = 0, v8 = 7\n    brif v9, block4, block0\n\nblock8:\n    v10 = iconst.i8 5\n    v11 = icmp.i8 eq v0, v10  ; v0 = 0, v10 = 5\n    brif v11, block3, block12\n\nblock12:\n    v12 = uextend.i32 v0  ; v0 = 0\n    br_table v12, block0, [block1, block2]\n}\n",
            ),
        ],
    },
    // The row switch_high: cases 2^63 + 1 and 2^63 + 2 of an integer of 128 bits, whose numbers are made of two halves. The
    // place in the table is compared with 2^32 - 1 before it is cut to 32 bits.
    Case {
        name: "switch_high",
        head: Unnamed,
        steps: &[
            Create,
            Create,
            Create,
            Create,
            Create,
            Create,
            Ensure(0),
            Ensure(4),
            Ensure(5),
            Ensure(1),
            Ensure(2),
            Ensure(3),
            Put(0, I64, Iconst(HALF)),
            Put(0, I64, Iconst(0)),
            Put(0, I64, Concat(0, 1)),
            Put(0, I64, Iconst(HALF)),
            Put(0, I64, Iconst(0)),
            Put(0, I64, Concat(3, 4)),
            Put(0, I128, Icmp(UnsignedGreaterThanOrEqual, 2, 5)),
            Go(0, Brif(6, To(4, &[]), To(3, &[]))),
            Put(4, I64, Iconst(HALF)),
            Put(4, I64, Iconst(0)),
            Put(4, I64, Concat(7, 8)),
            Put(4, I128, Binary(Isub, 2, 9)),
            Put(4, I64, Iconst(0xffff_ffff)),
            Put(4, I128, Convert(Sextend, 11)),
            Put(4, I128, Icmp(UnsignedGreaterThan, 10, 12)),
            Go(4, Brif(13, To(3, &[]), To(5, &[]))),
            Put(5, I32, Convert(Ireduce, 10)),
            Go(5, BranchTable(14, 3, &[1, 2])),
            Put(1, INVALID, Trap(User(1))),
            Put(2, INVALID, Trap(User(2))),
            Put(3, INVALID, Trap(User(3))),
            Prints(
                "function u0:0() fast {\nblock0:\n    v0 = iconst.i64 0x8000_0000_0000_0001\n    v1 = iconst.i64 0\n    v2 = iconcat v0, v1  ; v0 = 0x8000_0000_0000_0001, v1 = 0\n    v3 = iconst.i64 0x8000_0000_0000_0001\n    v4 = iconst.i64 0\n    v5 = iconcat v3, v4  ; v3 = 0x8000_0000_0000_0001, v4 = 0\n    v6 = icmp uge v2, v5\n    brif v6, block4, block3\n\nblock4:\n    v7 = iconst.i64 0x8000_0000_0000_0001\n    v8 = iconst.i64 0\n    v9 = iconcat v7, v8  ; v7 = 0x8000_0000_0000_0001, v8 = 0\n    v10 = isub.i128 v2, v9\n    v11 = iconst.i64 0xffff_ffff\n    v12 = sextend.i128 v11  ; v11 = 0xffff_ffff\n    v13 = icmp ugt v10, v12\n    brif v13, block3, block5\n\nblock5:\n    v14 = ireduce.i32 v10\n    br_table v14, block3, [block1, block2]\n\nblock1:\n    trap user1\n\nblock2:\n    trap user2\n\nblock3:\n    trap user3\n}\n",
            ),
        ],
    },
    // The row undef_vectors: block0 is sealed last. The zero of each of its parameters is put at the front then, and the
    // parameter becomes another name of it. Both vectors of integers take the same pooled constant.
    Case {
        name: "undef_vectors",
        head: Named("sample", &[], &[I8X16, I8X16, F32X4], SystemV),
        steps: &[
            Create,
            Ensure(0),
            Param(0, I8X16),
            Param(0, I8X16),
            Param(0, F32X4),
            Go(0, Return(&[0, 1, 2])),
            Pool(0, 16),
            Before(0, I8X16, Constant(Vconst, 0)),
            Alias(0, 3),
            Pool(0, 16),
            Before(1, I8X16, Constant(Vconst, 0)),
            Alias(1, 4),
            Before(2, INVALID, Float(F32const, 0)),
            Before(2, F32X4, Convert(Splat, 5)),
            Alias(2, 6),
            Prints(
                "function %sample() -> i8x16, i8x16, f32x4 system_v {\n    const0 = 0x00000000000000000000000000000000\n\nblock0:\n    v5 = f32const 0.0\n    v6 = splat.f32x4 v5  ; v5 = 0.0\n    v2 -> v6\n    v4 = vconst.i8x16 const0\n    v1 -> v4\n    v3 = vconst.i8x16 const0\n    v0 -> v3\n    return v0, v1, v2  ; v0 = const0, v1 = const0\n}\n",
            ),
        ],
    },
];

#[test]
fn rows(rt: HostRuntime) -> Result<(), Fail> {
    make_all(&rt, rt.alloc(), &[], &CASES)
}
