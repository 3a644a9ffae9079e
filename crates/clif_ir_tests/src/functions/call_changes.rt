//! Calls that are changed in their place: the text before and after, and where they lead.
#![tactic(auto)]

use crate::facts::Fact::Leads;
use crate::steps::Step::{
    Append, Argument, Create, Edge, Go, Import, Is, LayOut, Operand, Param, Prints, ReplaceContext,
    Target,
};
use crate::steps::{Case, SAMPLE, Step, make_all};
use crate::transfers::Arg::{Exn, Known, Ret};
use crate::transfers::Item::{Context, Default, Tag};
use crate::transfers::Transfer::{Call, CallIndirect, TryCall, TryCallIndirect};
use crate::transfers::{Throws, To};
use clif_types::types::{I32, I64};
use std::test::Fail;

// Four blocks, of which the first has two parameters of 64 bits, a signature that takes nothing and returns an i32, and a
// function of it.
static FIRST: [Step<'static>; 11] = [
    Import("g", &[], &[I32]),
    Create,
    Create,
    Create,
    Create,
    LayOut(0),
    LayOut(1),
    LayOut(2),
    LayOut(3),
    Param(0, I64),
    Param(0, I64),
];

static CASES: [Case; 4] = [
    // What is appended goes along each edge to the block: the normal one, and those of items.
    Case {
        name: "appended",
        head: SAMPLE,
        steps: &[
            Go(
                0,
                TryCall(
                    0,
                    &[],
                    Throws {
                        sig: 0,
                        normal: To(1, &[Ret(0)]),
                        items: &[Tag(0, To(2, &[])), Default(To(1, &[Exn(0)])), Context(0)],
                    },
                ),
            ),
            Go(
                1,
                TryCallIndirect(
                    &[1],
                    Throws {
                        sig: 0,
                        normal: To(2, &[]),
                        items: &[Tag(0, To(1, &[])), Tag(1, To(1, &[]))],
                    },
                ),
            ),
            Append(0, 1, 0),
            Append(0, 0, 0),
            Append(1, 1, 1),
            Append(1, 2, 0),
            Append(1, 1, 0),
            Prints(
                "function %sample() system_v {\n    sig0 = () -> i32 system_v\n    fn0 = %g sig0\n\nblock0(v0: i64, v1: i64):\n    try_call fn0(), sig0, block1(ret0, v0), [ tag0: block2, default: block1(exn0, v0), context v0 ]\n\nblock1:\n    try_call_indirect v1(), sig0, block2(v0), [ tag0: block1(v1, v0), tag1: block1(v1, v0) ]\n\nblock2:\n\nblock3:\n}\n",
            ),
        ],
    },
    // All edges to the block change, and no other edge does. What they pass stays.
    Case {
        name: "targets",
        head: SAMPLE,
        steps: &[
            Go(
                0,
                TryCall(
                    0,
                    &[],
                    Throws {
                        sig: 0,
                        normal: To(1, &[Ret(0)]),
                        items: &[Tag(0, To(2, &[])), Default(To(1, &[Exn(0)])), Context(0)],
                    },
                ),
            ),
            Go(
                1,
                TryCallIndirect(
                    &[0],
                    Throws {
                        sig: 0,
                        normal: To(2, &[Ret(0)]),
                        items: &[Default(To(2, &[]))],
                    },
                ),
            ),
            Go(2, CallIndirect(0, &[0])),
            Is(Leads(0, &[1, 2, 1])),
            Is(Leads(1, &[2, 2])),
            Is(Leads(2, &[])),
            Prints(
                "function %sample() system_v {\n    sig0 = () -> i32 system_v\n    fn0 = %g sig0\n\nblock0(v0: i64, v1: i64):\n    try_call fn0(), sig0, block1(ret0), [ tag0: block2, default: block1(exn0), context v0 ]\n\nblock1:\n    try_call_indirect v0(), sig0, block2(ret0), [ default: block2 ]\n\nblock2:\n    v2 = call_indirect sig0, v0()\n\nblock3:\n}\n",
            ),
            Target(0, 1, 3),
            Target(0, 0, 2),
            Target(1, 2, 3),
            Target(2, 0, 3),
            Prints(
                "function %sample() system_v {\n    sig0 = () -> i32 system_v\n    fn0 = %g sig0\n\nblock0(v0: i64, v1: i64):\n    try_call fn0(), sig0, block3(ret0), [ tag0: block2, default: block3(exn0), context v0 ]\n\nblock1:\n    try_call_indirect v0(), sig0, block3(ret0), [ default: block3 ]\n\nblock2:\n    v2 = call_indirect sig0, v0()\n\nblock3:\n}\n",
            ),
            Is(Leads(0, &[3, 2, 3])),
            Is(Leads(1, &[3, 3])),
        ],
    },
    // An operand of each call, the address among them. A context isn't one.
    Case {
        name: "operands",
        head: SAMPLE,
        steps: &[
            Go(0, Call(0, &[0, 0])),
            Go(0, CallIndirect(0, &[0, 1, 0])),
            Go(
                0,
                TryCall(
                    0,
                    &[0, 0],
                    Throws {
                        sig: 0,
                        normal: To(1, &[Known(0)]),
                        items: &[Context(0), Default(To(1, &[Known(0)]))],
                    },
                ),
            ),
            Go(
                1,
                TryCallIndirect(
                    &[0, 1, 0],
                    Throws {
                        sig: 0,
                        normal: To(1, &[Known(0)]),
                        items: &[Context(0), Default(To(1, &[Known(0)]))],
                    },
                ),
            ),
            Prints(
                "function %sample() system_v {\n    sig0 = () -> i32 system_v\n    fn0 = %g sig0\n\nblock0(v0: i64, v1: i64):\n    v2 = call fn0(v0, v0)\n    v3 = call_indirect sig0, v0(v1, v0)\n    try_call fn0(v0, v0), sig0, block1(v0), [ context v0, default: block1(v0) ]\n\nblock1:\n    try_call_indirect v0(v1, v0), sig0, block1(v0), [ context v0, default: block1(v0) ]\n\nblock2:\n\nblock3:\n}\n",
            ),
            Operand(0, 1, 1),
            Operand(1, 0, 2),
            Operand(1, 2, 1),
            Operand(2, 0, 1),
            Operand(3, 0, 1),
            Operand(3, 1, 0),
            Prints(
                "function %sample() system_v {\n    sig0 = () -> i32 system_v\n    fn0 = %g sig0\n\nblock0(v0: i64, v1: i64):\n    v2 = call fn0(v0, v1)\n    v3 = call_indirect sig0, v2(v1, v1)\n    try_call fn0(v1, v0), sig0, block1(v0), [ context v0, default: block1(v0) ]\n\nblock1:\n    try_call_indirect v1(v0, v0), sig0, block1(v0), [ context v0, default: block1(v0) ]\n\nblock2:\n\nblock3:\n}\n",
            ),
        ],
    },
    // One argument of one edge, counted in printed order: the normal edge, and then those of the items that have one.
    Case {
        name: "arguments",
        head: SAMPLE,
        steps: &[
            Go(
                0,
                TryCall(
                    0,
                    &[],
                    Throws {
                        sig: 0,
                        normal: To(1, &[Ret(0), Known(0)]),
                        items: &[
                            Context(0),
                            Tag(0, To(1, &[Exn(0), Known(0)])),
                            Context(0),
                            Default(To(1, &[Known(0), Exn(1)])),
                        ],
                    },
                ),
            ),
            Go(
                1,
                TryCallIndirect(
                    &[0],
                    Throws {
                        sig: 0,
                        normal: To(1, &[Ret(0), Known(0)]),
                        items: &[
                            Context(0),
                            Tag(0, To(1, &[Exn(0), Known(0)])),
                            Context(0),
                            Default(To(1, &[Known(0), Exn(1)])),
                        ],
                    },
                ),
            ),
            Prints(
                "function %sample() system_v {\n    sig0 = () -> i32 system_v\n    fn0 = %g sig0\n\nblock0(v0: i64, v1: i64):\n    try_call fn0(), sig0, block1(ret0, v0), [ context v0, tag0: block1(exn0, v0), context v0, default: block1(v0, exn1) ]\n\nblock1:\n    try_call_indirect v0(), sig0, block1(ret0, v0), [ context v0, tag0: block1(exn0, v0), context v0, default: block1(v0, exn1) ]\n\nblock2:\n\nblock3:\n}\n",
            ),
            Argument(0, 0, 1, 1),
            Argument(0, 2, 0, 1),
            Argument(1, 1, 1, 1),
            Argument(1, 0, 0, 1),
            Prints(
                "function %sample() system_v {\n    sig0 = () -> i32 system_v\n    fn0 = %g sig0\n\nblock0(v0: i64, v1: i64):\n    try_call fn0(), sig0, block1(ret0, v1), [ context v0, tag0: block1(exn0, v0), context v0, default: block1(v1, exn1) ]\n\nblock1:\n    try_call_indirect v0(), sig0, block1(v1, v0), [ context v0, tag0: block1(exn0, v1), context v0, default: block1(v0, exn1) ]\n\nblock2:\n\nblock3:\n}\n",
            ),
            Edge(0, 1, To(2, &[])),
            Edge(1, 0, To(3, &[Ret(0)])),
            ReplaceContext(0, 0, 1),
            ReplaceContext(1, 2, 1),
            Prints(
                "function %sample() system_v {\n    sig0 = () -> i32 system_v\n    fn0 = %g sig0\n\nblock0(v0: i64, v1: i64):\n    try_call fn0(), sig0, block1(ret0, v1), [ context v1, tag0: block2, context v0, default: block1(v1, exn1) ]\n\nblock1:\n    try_call_indirect v0(), sig0, block3(ret0), [ context v0, tag0: block1(exn0, v1), context v1, default: block1(v0, exn1) ]\n\nblock2:\n\nblock3:\n}\n",
            ),
        ],
    },
];

#[test]
fn changed_calls(rt: HostRuntime) -> Result<(), Fail> {
    make_all(&rt, rt.alloc(), &FIRST, &CASES)
}
