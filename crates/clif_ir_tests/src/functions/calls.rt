//! Calls: their texts, their results, and what they name.
#![tactic(auto)]

use crate::facts::Fact::{HasType, IsResult, ResultAt};
use crate::instructions::Plain::Iconst;
use crate::steps::Step::{Create, Entries, Go, Import, Is, LayOut, Param, Prints, Put};
use crate::steps::{Case, SAMPLE, make_all};
use crate::transfers::Arg::{Exn, Known, Ret};
use crate::transfers::Item::{Context, Default, Tag};
use crate::transfers::Transfer::{Call, CallIndirect, Jump, Return, TryCall, TryCallIndirect};
use crate::transfers::{Throws, To};
use clif_types::types::{F32, I32, I64};
use std::test::Fail;

// Where a call by sig0 goes: to block0, whatever it does.
const ANYWHERE: Throws<'static> = Throws {
    sig: 0,
    normal: To(0, &[]),
    items: &[],
};

// The same of a call by sig1.
const ANYWHERE_ELSE: Throws<'static> = Throws {
    sig: 1,
    normal: To(0, &[]),
    items: &[],
};

static CASES: [Case; 5] = [
    // The results get consecutive numbers and the types of the signature. Calls print no type, also where what they name is
    // defined in another block.
    Case {
        name: "plain",
        head: SAMPLE,
        steps: &[
            Import("g", &[I32], &[I32]),
            Import("g", &[I64, I32], &[]),
            Import("g", &[], &[I32, I64, F32]),
            Create,
            Create,
            LayOut(0),
            LayOut(1),
            Param(0, I64),
            Param(0, I32),
            Go(0, Call(0, &[1])),
            Go(0, CallIndirect(0, &[0, 2])),
            Go(0, Call(1, &[0, 3])),
            Go(0, CallIndirect(1, &[0, 0, 1])),
            Go(0, Call(2, &[])),
            Go(0, Jump(To(1, &[]))),
            Go(1, CallIndirect(2, &[0])),
            Go(1, Call(1, &[0, 4])),
            Go(1, Return(&[4, 9])),
            Prints(
                "function %sample() system_v {\n    sig0 = (i32) -> i32 system_v\n    sig1 = (i64, i32) system_v\n    sig2 = () -> i32, i64, f32 system_v\n    fn0 = %g sig0\n    fn1 = %g sig1\n    fn2 = %g sig2\n\nblock0(v0: i64, v1: i32):\n    v2 = call fn0(v1)\n    v3 = call_indirect sig0, v0(v2)\n    call fn1(v0, v3)\n    call_indirect sig1, v0(v0, v1)\n    v4, v5, v6 = call fn2()\n    jump block1\n\nblock1:\n    v7, v8, v9 = call_indirect sig2, v0()\n    call fn1(v0, v4)\n    return v4, v9\n}\n",
            ),
            Is(HasType(2, I32)),
            Is(HasType(3, I32)),
            Is(ResultAt(2, 0, None)),
            Is(ResultAt(3, 0, None)),
            Is(HasType(4, I32)),
            Is(HasType(5, I64)),
            Is(HasType(6, F32)),
            Is(IsResult(5, 4, 1)),
            Is(ResultAt(4, 3, None)),
            Is(HasType(7, I32)),
            Is(HasType(8, I64)),
            Is(HasType(9, F32)),
        ],
    },
    // A comment names each operand that stands for a constant, in printed order and as often as it is printed.
    Case {
        name: "comments",
        head: SAMPLE,
        steps: &[
            Import("g", &[I32, I64, I32], &[I32]),
            Create,
            LayOut(0),
            Param(0, I32),
            Put(0, I64, Iconst(0)),
            Put(0, I32, Iconst(-7)),
            Go(0, Call(0, &[0, 1, 0])),
            Go(0, Call(0, &[2, 1, 2])),
            Go(0, CallIndirect(0, &[1, 3, 1, 2])),
            Go(0, Return(&[])),
            Prints(
                "function %sample() system_v {\n    sig0 = (i32, i64, i32) -> i32 system_v\n    fn0 = %g sig0\n\nblock0(v0: i32):\n    v1 = iconst.i64 0\n    v2 = iconst.i32 -7\n    v3 = call fn0(v0, v1, v0)  ; v1 = 0\n    v4 = call fn0(v2, v1, v2)  ; v2 = -7, v1 = 0, v2 = -7\n    v5 = call_indirect sig0, v1(v3, v1, v2)  ; v1 = 0, v1 = 0, v2 = -7\n    return\n}\n",
            ),
        ],
    },
    // The signature, the normal edge and the items follow the arguments. A call that may throw has no results.
    Case {
        name: "that_may_throw",
        head: SAMPLE,
        steps: &[
            Import("g", &[I32], &[I32]),
            Import("g", &[], &[]),
            Create,
            Create,
            Create,
            Create,
            LayOut(0),
            LayOut(1),
            LayOut(2),
            LayOut(3),
            Param(0, I64),
            Param(0, I32),
            Go(
                0,
                TryCall(
                    0,
                    &[1],
                    Throws {
                        sig: 0,
                        normal: To(3, &[Ret(0)]),
                        items: &[Tag(1, To(2, &[Exn(0)])), Default(To(1, &[])), Context(0)],
                    },
                ),
            ),
            Go(
                1,
                TryCallIndirect(
                    &[0],
                    Throws {
                        sig: 1,
                        normal: To(3, &[]),
                        items: &[],
                    },
                ),
            ),
            Go(
                2,
                TryCallIndirect(
                    &[0, 1, 1],
                    Throws {
                        sig: 0,
                        normal: To(1, &[Ret(0), Ret(1)]),
                        items: &[
                            Context(1),
                            Context(0),
                            Tag(4294967295, To(2, &[Exn(1), Exn(0)])),
                            Tag(0, To(1, &[])),
                        ],
                    },
                ),
            ),
            Go(
                3,
                TryCall(
                    0,
                    &[],
                    Throws {
                        sig: 0,
                        normal: To(1, &[]),
                        items: &[Default(To(1, &[Known(0), Exn(0)]))],
                    },
                ),
            ),
            Prints(
                "function %sample() system_v {\n    sig0 = (i32) -> i32 system_v\n    sig1 = () system_v\n    fn0 = %g sig0\n    fn1 = %g sig1\n\nblock0(v0: i64, v1: i32):\n    try_call fn0(v1), sig0, block3(ret0), [ tag1: block2(exn0), default: block1, context v0 ]\n\nblock1:\n    try_call_indirect v0(), sig1, block3, []\n\nblock2:\n    try_call_indirect v0(v1, v1), sig0, block1(ret0, ret1), [ context v1, context v0, tag4294967295: block2(exn1, exn0), tag0: block1 ]\n\nblock3:\n    try_call fn0(), sig0, block1, [ default: block1(v0, exn0) ]\n}\n",
            ),
            Is(ResultAt(0, 0, None)),
            Is(ResultAt(1, 0, None)),
        ],
    },
    // A comment names the constants among the operands, and then those among edge arguments and contexts, as they are printed.
    Case {
        name: "comments_on_edges",
        head: SAMPLE,
        steps: &[
            Import("g", &[I32], &[I32]),
            Create,
            Create,
            LayOut(0),
            LayOut(1),
            Param(0, I32),
            Put(0, I64, Iconst(0)),
            Put(0, I32, Iconst(5)),
            Go(
                0,
                TryCallIndirect(
                    &[1, 2],
                    Throws {
                        sig: 0,
                        normal: To(1, &[Known(2), Ret(0), Known(1)]),
                        items: &[
                            Context(2),
                            Tag(3, To(1, &[Exn(0), Known(0), Known(1)])),
                            Default(To(1, &[Known(2), Known(2), Exn(1)])),
                        ],
                    },
                ),
            ),
            Go(
                1,
                TryCall(
                    0,
                    &[0],
                    Throws {
                        sig: 0,
                        normal: To(0, &[]),
                        items: &[Context(1)],
                    },
                ),
            ),
            Prints(
                "function %sample() system_v {\n    sig0 = (i32) -> i32 system_v\n    fn0 = %g sig0\n\nblock0(v0: i32):\n    v1 = iconst.i64 0\n    v2 = iconst.i32 5\n    try_call_indirect v1(v2), sig0, block1(v2, ret0, v1), [ context v2, tag3: block1(exn0, v0, v1), default: block1(v2, v2, exn1) ]  ; v1 = 0, v2 = 5, v2 = 5, v1 = 0, v2 = 5, v1 = 0, v2 = 5, v2 = 5\n\nblock1:\n    try_call fn0(v0), sig0, block0, [ context v1 ]  ; v1 = 0\n}\n",
            ),
        ],
    },
    // Whether a function with sig0 and fn0 has what a call names.
    Case {
        name: "entries",
        head: SAMPLE,
        steps: &[
            Import("g", &[], &[]),
            Entries(Call(0, &[]), true),
            Entries(Call(1, &[]), false),
            Entries(CallIndirect(0, &[]), true),
            Entries(CallIndirect(1, &[]), false),
            Entries(TryCall(0, &[], ANYWHERE), true),
            Entries(TryCall(1, &[], ANYWHERE), false),
            Entries(TryCall(0, &[], ANYWHERE_ELSE), false),
            Entries(TryCallIndirect(&[], ANYWHERE), true),
            Entries(TryCallIndirect(&[], ANYWHERE_ELSE), false),
        ],
    },
];

#[test]
fn each_call(rt: HostRuntime) -> Result<(), Fail> {
    make_all(&rt, rt.alloc(), &[], &CASES)
}
