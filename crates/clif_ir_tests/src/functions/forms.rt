//! Float constants, comparisons, halves, loads, stores and traps.
#![tactic(auto)]

use crate::facts::Fact::{HasType, ResultAt};
use crate::instructions::Flags::{Each, Trusted};
use crate::instructions::NO_FLAGS;
use crate::instructions::Plain::{
    Binary, Concat, CondTrap, Constant, Convert, Float, Icmp, Iconst, Load, Split, Stack,
    StackStore, Store, Trap,
};
use crate::steps::Step::{Append, Create, Go, Is, LayOut, Param, Pool, Prints, Put, Slot};
use crate::steps::{Case, SAMPLE, make_all};
use crate::transfers::To;
use crate::transfers::Transfer::{BranchTable, Jump, Return};
use clif_opcodes::BinaryOpcode::Isub;
use clif_opcodes::CondTrapOpcode::{Trapnz, Trapz};
use clif_opcodes::ConvertOpcode::{Sextend, Splat};
use clif_opcodes::FloatConstOpcode::{F16const, F32const, F64const};
use clif_opcodes::PooledConstOpcode::{F128const, Vconst};
use clif_opcodes::StackOpcode::{StackAddr, StackLoad};
use clif_types::IntCC::{
    Equal, NotEqual, SignedGreaterThan, SignedGreaterThanOrEqual, SignedLessThan,
    SignedLessThanOrEqual, UnsignedGreaterThan, UnsignedGreaterThanOrEqual, UnsignedLessThan,
    UnsignedLessThanOrEqual,
};
use clif_types::TrapCode::{DivisionByZero, HeapOutOfBounds, IntegerOverflow, User};
use clif_types::types::{F16, F32, F32X4, F64, F128, I8, I8X16, I16, I32, I64, I128, INVALID};
use std::test::Fail;

static CASES: [Case; 10] = [
    // Bits that are all zero print as 0.0, and others with a digit for each four bits, also in the comments.
    Case {
        name: "float_constants",
        head: SAMPLE,
        steps: &[
            Create,
            LayOut(0),
            Put(0, INVALID, Float(F16const, 0x3c00)),
            Put(0, INVALID, Float(F32const, 0)),
            Put(0, INVALID, Float(F32const, 0x3f80_0000)),
            Put(0, INVALID, Float(F64const, 0)),
            Put(0, INVALID, Float(F64const, 0x8000_0000_0000_0000)),
            Put(0, INVALID, Float(F16const, 1)),
            Put(0, F32X4, Convert(Splat, 1)),
            Put(0, F32X4, Convert(Splat, 2)),
            Go(0, Return(&[0, 3, 4, 5])),
            Is(HasType(0, F16)),
            Is(HasType(1, F32)),
            Is(HasType(3, F64)),
            Prints(
                "function %sample() system_v {\nblock0:\n    v0 = f16const 0x3c00\n    v1 = f32const 0.0\n    v2 = f32const 0x3f800000\n    v3 = f64const 0.0\n    v4 = f64const 0x8000000000000000\n    v5 = f16const 0x0001\n    v6 = splat.f32x4 v1  ; v1 = 0.0\n    v7 = splat.f32x4 v2  ; v2 = 0x3f800000\n    return v0, v3, v4, v5  ; v0 = 0x3c00, v3 = 0.0, v4 = 0x8000000000000000, v5 = 0x0001\n}\n",
            ),
        ],
    },
    // Each condition by its name. The type is printed where the first operand is defined elsewhere.
    Case {
        name: "comparisons",
        head: SAMPLE,
        steps: &[
            Create,
            Create,
            LayOut(0),
            LayOut(1),
            Param(0, I16),
            Param(0, I16),
            Put(0, I16, Icmp(Equal, 0, 1)),
            Put(0, I16, Icmp(NotEqual, 0, 1)),
            Put(0, I16, Icmp(SignedLessThan, 0, 1)),
            Put(0, I16, Icmp(SignedGreaterThanOrEqual, 0, 1)),
            Put(0, I16, Icmp(SignedGreaterThan, 0, 1)),
            Put(0, I16, Icmp(SignedLessThanOrEqual, 0, 1)),
            Put(0, I16, Icmp(UnsignedLessThan, 0, 1)),
            Put(0, I16, Icmp(UnsignedGreaterThanOrEqual, 0, 1)),
            Put(0, I16, Icmp(UnsignedGreaterThan, 0, 1)),
            Put(0, I16, Icmp(UnsignedLessThanOrEqual, 0, 1)),
            Put(1, I16, Iconst(-1)),
            Put(1, I16, Icmp(UnsignedGreaterThanOrEqual, 0, 12)),
            Put(1, I16, Icmp(SignedLessThan, 12, 0)),
            Go(1, Return(&[])),
            Is(HasType(2, I8)),
            Is(HasType(14, I8)),
            Prints(
                "function %sample() system_v {\nblock0(v0: i16, v1: i16):\n    v2 = icmp eq v0, v1\n    v3 = icmp ne v0, v1\n    v4 = icmp slt v0, v1\n    v5 = icmp sge v0, v1\n    v6 = icmp sgt v0, v1\n    v7 = icmp sle v0, v1\n    v8 = icmp ult v0, v1\n    v9 = icmp uge v0, v1\n    v10 = icmp ugt v0, v1\n    v11 = icmp ule v0, v1\n\nblock1:\n    v12 = iconst.i16 -1\n    v13 = icmp.i16 uge v0, v12  ; v12 = -1\n    v14 = icmp slt v12, v0  ; v12 = -1\n    return\n}\n",
            ),
        ],
    },
    // The head of the row switch_high, and then the types of what was made.
    Case {
        name: "halves",
        head: SAMPLE,
        steps: &[
            Create,
            Create,
            LayOut(0),
            LayOut(1),
            Put(0, I64, Iconst(-0x7fff_ffff_ffff_ffff)),
            Put(0, I64, Iconst(0)),
            Put(0, I64, Concat(0, 1)),
            Go(0, Jump(To(1, &[]))),
            Put(1, I128, Binary(Isub, 2, 2)),
            Put(1, I64, Iconst(0xffff_ffff)),
            Put(1, I128, Convert(Sextend, 4)),
            Put(1, I128, Icmp(UnsignedGreaterThan, 3, 5)),
            Put(1, I64, Concat(0, 4)),
            Param(1, I8),
            Put(1, I8, Concat(8, 8)),
            Go(1, Return(&[])),
            Is(HasType(2, I128)),
            Is(HasType(5, I128)),
            Is(HasType(6, I8)),
            Is(HasType(7, I128)),
            Is(HasType(9, I16)),
            Prints(
                "function %sample() system_v {\nblock0:\n    v0 = iconst.i64 0x8000_0000_0000_0001\n    v1 = iconst.i64 0\n    v2 = iconcat v0, v1  ; v0 = 0x8000_0000_0000_0001, v1 = 0\n    jump block1\n\nblock1(v8: i8):\n    v3 = isub.i128 v2, v2\n    v4 = iconst.i64 0xffff_ffff\n    v5 = sextend.i128 v4  ; v4 = 0xffff_ffff\n    v6 = icmp ugt v3, v5\n    v7 = iconcat.i64 v0, v4  ; v0 = 0x8000_0000_0000_0001, v4 = 0xffff_ffff\n    v9 = iconcat v8, v8\n    return\n}\n",
            ),
        ],
    },
    // Both results before the name; the type is printed where the operand is defined in another block.
    Case {
        name: "parts",
        head: SAMPLE,
        steps: &[
            Create,
            Create,
            LayOut(0),
            LayOut(1),
            Param(0, I128),
            Put(0, I128, Split(0)),
            Put(0, I64, Split(2)),
            Go(0, Jump(To(1, &[]))),
            Put(1, I128, Split(0)),
            Go(1, Return(&[])),
            Is(HasType(1, I64)),
            Is(HasType(2, I64)),
            Is(HasType(3, I32)),
            Is(HasType(4, I32)),
            Is(HasType(6, I64)),
            Prints(
                "function %sample() system_v {\nblock0(v0: i128):\n    v1, v2 = isplit v0\n    v3, v4 = isplit v2\n    jump block1\n\nblock1:\n    v5, v6 = isplit.i128 v0\n    return\n}\n",
            ),
        ],
    },
    // A load always prints its type; flags stand before the address, and the offset behind it with its sign, where it
    // isn't zero.
    Case {
        name: "loads",
        head: SAMPLE,
        steps: &[
            Create,
            Create,
            LayOut(0),
            LayOut(1),
            Param(0, I64),
            Put(0, I32, Load(NO_FLAGS, 0, 0)),
            Put(0, F64, Load(Each(true, false, None), 0, 8)),
            Put(0, I8X16, Load(Each(false, true, None), 0, -8)),
            Put(0, I8, Load(Trusted, 0, 9999)),
            Put(0, I8, Load(Each(true, true, Some(0)), 0, 10000)),
            Put(0, I8, Load(Each(false, false, Some(2)), 0, -9999)),
            Put(1, I128, Load(NO_FLAGS, 0, i32::MIN)),
            Go(1, Return(&[])),
            Is(HasType(1, I32)),
            Is(HasType(2, F64)),
            Is(HasType(3, I8X16)),
            Is(HasType(7, I128)),
            Prints(
                "function %sample() system_v {\nblock0(v0: i64):\n    v1 = load.i32 v0\n    v2 = load.f64 notrap v0+8\n    v3 = load.i8x16 aligned v0-8\n    v4 = load.i8 notrap aligned v0+9999\n    v5 = load.i8 notrap aligned region0 v0+0x2710\n    v6 = load.i8 region2 v0-9999\n\nblock1:\n    v7 = load.i128 v0-0x8000_0000\n    return\n}\n",
            ),
        ],
    },
    // The row of a fill of six bytes, and stores with flags. A store prints a type where what it stores is defined
    // elsewhere, wherever its address is.
    Case {
        name: "stores",
        head: SAMPLE,
        steps: &[
            Create,
            Create,
            LayOut(0),
            LayOut(1),
            Param(0, I64),
            Put(0, I16, Iconst(0xabab)),
            Put(0, INVALID, Store(Each(false, true, None), 1, 0, 0)),
            Put(0, INVALID, Store(Each(false, true, None), 1, 0, 2)),
            Put(0, INVALID, Store(Each(false, true, None), 1, 0, 4)),
            Put(0, INVALID, Store(Each(true, true, Some(1)), 0, 0, i32::MIN)),
            Put(1, INVALID, Store(Trusted, 1, 0, -8)),
            Put(1, I8, Iconst(0)),
            Put(1, INVALID, Store(NO_FLAGS, 2, 0, 0)),
            Go(1, Return(&[])),
            Is(ResultAt(1, 0, None)),
            Prints(
                "function %sample() system_v {\nblock0(v0: i64):\n    v1 = iconst.i16 0xffff_ffff_ffff_abab\n    store aligned v1, v0  ; v1 = 0xffff_ffff_ffff_abab\n    store aligned v1, v0+2  ; v1 = 0xffff_ffff_ffff_abab\n    store aligned v1, v0+4  ; v1 = 0xffff_ffff_ffff_abab\n    store notrap aligned region1 v0, v0-0x8000_0000\n\nblock1:\n    store.i16 notrap aligned v1, v0-8  ; v1 = 0xffff_ffff_ffff_abab\n    v2 = iconst.i8 0\n    store v2, v0  ; v2 = 0\n    return\n}\n",
            ),
        ],
    },
    // Slots stand in the preamble. The type of what is stored is printed where that is defined elsewhere.
    Case {
        name: "stack_slots",
        head: SAMPLE,
        steps: &[
            Slot(4, 2),
            Slot(8, 0),
            Create,
            Create,
            LayOut(0),
            LayOut(1),
            Put(0, I32, Iconst(0)),
            Put(0, I64, Stack(StackAddr, 0, 0)),
            Put(0, INVALID, Store(Trusted, 0, 1, 0)),
            Put(0, I32, Stack(StackLoad, 0, 0)),
            Put(0, INVALID, StackStore(2, 1, 4)),
            Go(0, Jump(To(1, &[]))),
            Put(1, INVALID, StackStore(0, 1, -4)),
            Put(1, I8, Stack(StackLoad, 1, 7)),
            Put(1, I128, Stack(StackAddr, 1, -0x1_0000)),
            Put(1, INVALID, StackStore(3, 1, 7)),
            Go(1, Return(&[])),
            Is(HasType(1, I64)),
            Is(HasType(2, I32)),
            Is(ResultAt(4, 0, None)),
            Prints(
                "function %sample() system_v {\n    ss0 = explicit_slot 4, align = 4\n    ss1 = explicit_slot 8\n\nblock0:\n    v0 = iconst.i32 0\n    v1 = stack_addr.i64 ss0\n    store notrap aligned v0, v1  ; v0 = 0\n    v2 = stack_load.i32 ss0\n    stack_store v2, ss1+4\n    jump block1\n\nblock1:\n    stack_store.i32 v0, ss1-4  ; v0 = 0\n    v3 = stack_load.i8 ss1+7\n    v4 = stack_addr.i128 ss1-0x0001_0000\n    stack_store v3, ss1+7\n    return\n}\n",
            ),
        ],
    },
    // Constants stand in the preamble with their bytes from last to first; those of equal bytes are one. Comments name them.
    Case {
        name: "constants",
        head: SAMPLE,
        steps: &[
            Pool(0, 16),
            Pool(0xab, 2),
            Pool(0, 16),
            Create,
            LayOut(0),
            Put(0, I8X16, Constant(Vconst, 0)),
            Put(0, INVALID, Constant(F128const, 0)),
            Put(0, INVALID, Constant(F128const, 1)),
            Go(0, Return(&[0, 2])),
            Is(HasType(0, I8X16)),
            Is(HasType(1, F128)),
            Prints(
                "function %sample() system_v {\n    const0 = 0x00000000000000000000000000000000\n    const1 = 0xabab\n\nblock0:\n    v0 = vconst.i8x16 const0\n    v1 = f128const const0\n    v2 = f128const const1\n    return v0, v2  ; v0 = const0, v2 = const1\n}\n",
            ),
        ],
    },
    // The default stands before the entries. What is passed to a block goes along each edge to it.
    Case {
        name: "branch_tables",
        head: SAMPLE,
        steps: &[
            Create,
            Create,
            Create,
            LayOut(0),
            LayOut(1),
            LayOut(2),
            Put(0, I32, Iconst(7)),
            Go(0, BranchTable(0, 1, &[2, 1])),
            Append(1, 1, 0),
            Go(1, Return(&[])),
            Go(2, Return(&[])),
            Prints(
                "function %sample() system_v {\nblock0:\n    v0 = iconst.i32 7\n    br_table v0, block1(v0), [block2, block1(v0)]  ; v0 = 7, v0 = 7, v0 = 7\n\nblock1:\n    return\n\nblock2:\n    return\n}\n",
            ),
        ],
    },
    // A trap under a condition is no end of a block.
    Case {
        name: "traps",
        head: SAMPLE,
        steps: &[
            Create,
            Create,
            Create,
            LayOut(0),
            LayOut(1),
            LayOut(2),
            Param(0, I8),
            Put(0, I8, Iconst(1)),
            Put(0, INVALID, CondTrap(Trapz, 0, User(1))),
            Put(0, INVALID, CondTrap(Trapnz, 1, HeapOutOfBounds)),
            Go(0, Jump(To(1, &[]))),
            Put(1, INVALID, CondTrap(Trapz, 0, DivisionByZero)),
            Put(1, INVALID, CondTrap(Trapnz, 1, IntegerOverflow)),
            Put(1, INVALID, Trap(HeapOutOfBounds)),
            Put(2, INVALID, Trap(User(255))),
            Is(ResultAt(1, 0, None)),
            Is(ResultAt(6, 0, None)),
            Prints(
                "function %sample() system_v {\nblock0(v0: i8):\n    v1 = iconst.i8 1\n    trapz v0, user1\n    trapnz v1, heap_oob  ; v1 = 1\n    jump block1\n\nblock1:\n    trapz.i8 v0, int_divz\n    trapnz.i8 v1, int_ovf  ; v1 = 1\n    trap heap_oob\n\nblock2:\n    trap user255\n}\n",
            ),
        ],
    },
];

#[test]
fn each_form(rt: HostRuntime) -> Result<(), Fail> {
    make_all(&rt, rt.alloc(), &[], &CASES)
}
