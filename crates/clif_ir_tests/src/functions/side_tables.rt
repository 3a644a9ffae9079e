//! What a function keeps beside its instructions: stack maps, and labels of values.
#![tactic(auto)]

use crate::facts::Fact::{HasLabels, HasMap};
use crate::instructions::Plain::Iconst;
use crate::steps::Step::{
    Collect, Create, Ensure, Go, Import, Is, Label, Prints, Put, Slot, StackMap,
};
use crate::steps::{Case, SAMPLE, Step, make_all};
use crate::transfers::Item::Default;
use crate::transfers::Transfer::{Call, CallIndirect, Return, TryCallIndirect};
use crate::transfers::{Throws, To};
use clif_types::types::{I32, I64};
use std::test::Fail;

// The text of the function without stack maps.
const WITHOUT: &str =
    "function %sample() system_v {\n    ss0 = explicit_slot 4, align = 4\n    ss1 = explicit_slot 8, align = 8\n    sig0 = (i32) system_v\n    fn0 = %g sig0\n\nblock0:\n    v0 = iconst.i64 0\n    v1 = iconst.i32 7\n    call fn0(v1)  ; v1 = 7\n    call_indirect sig0, v0(v1)  ; v0 = 0, v1 = 7\n    try_call_indirect v0(v1), sig0, block1, [ default: block1 ]  ; v0 = 0, v1 = 7\n\nblock1:\n    return\n}\n";

// Two slots, two constants, and then a call of a function, one by a signature, and one that may throw.
static FIRST: [Step<'static>; 13] = [
    Slot(4, 2),
    Slot(8, 3),
    Import("g", &[I32], &[]),
    Create,
    Create,
    Ensure(0),
    Ensure(1),
    Put(0, I64, Iconst(0)),
    Put(0, I32, Iconst(7)),
    Go(0, Call(0, &[1])),
    Go(0, CallIndirect(0, &[0, 1])),
    Go(
        0,
        TryCallIndirect(
            &[0, 1],
            Throws {
                sig: 0,
                normal: To(1, &[]),
                items: &[Default(To(1, &[]))],
            },
        ),
    ),
    Go(1, Return(&[])),
];

static CASES: [Case; 4] = [
    // Each call shows its stack map behind its operands and edges, with its entries in their order.
    Case {
        name: "maps_of_calls",
        head: SAMPLE,
        steps: &[
            Prints(WITHOUT),
            Is(HasMap(2, &[])),
            StackMap(2, &[(I64, 1, 0), (I32, 0, 0)]),
            Is(HasMap(2, &[(I64, 1, 0), (I32, 0, 0)])),
            StackMap(4, &[(I64, 1, 0)]),
            Is(HasMap(4, &[(I64, 1, 0)])),
            StackMap(3, &[(I32, 1, 4)]),
            Is(HasMap(3, &[(I32, 1, 4)])),
            Is(HasMap(2, &[(I64, 1, 0), (I32, 0, 0)])),
            Prints(
                "function %sample() system_v {\n    ss0 = explicit_slot 4, align = 4\n    ss1 = explicit_slot 8, align = 8\n    sig0 = (i32) system_v\n    fn0 = %g sig0\n\nblock0:\n    v0 = iconst.i64 0\n    v1 = iconst.i32 7\n    call fn0(v1), stack_map=[i64 @ ss1+0, i32 @ ss0+0]  ; v1 = 7\n    call_indirect sig0, v0(v1), stack_map=[i32 @ ss1+4]  ; v0 = 0, v1 = 7\n    try_call_indirect v0(v1), sig0, block1, [ default: block1 ], stack_map=[i64 @ ss1+0]  ; v0 = 0, v1 = 7\n\nblock1:\n    return\n}\n",
            ),
        ],
    },
    // A stack map takes the place of the one that was there, and of no other. An empty one isn't printed.
    Case {
        name: "maps_replaced",
        head: SAMPLE,
        steps: &[
            StackMap(2, &[(I32, 0, 0)]),
            Is(HasMap(2, &[(I32, 0, 0)])),
            StackMap(3, &[(I32, 0, 0)]),
            Is(HasMap(3, &[(I32, 0, 0)])),
            StackMap(3, &[(I64, 1, 0)]),
            Is(HasMap(3, &[(I64, 1, 0)])),
            Is(HasMap(2, &[(I32, 0, 0)])),
            Prints(
                "function %sample() system_v {\n    ss0 = explicit_slot 4, align = 4\n    ss1 = explicit_slot 8, align = 8\n    sig0 = (i32) system_v\n    fn0 = %g sig0\n\nblock0:\n    v0 = iconst.i64 0\n    v1 = iconst.i32 7\n    call fn0(v1), stack_map=[i32 @ ss0+0]  ; v1 = 7\n    call_indirect sig0, v0(v1), stack_map=[i64 @ ss1+0]  ; v0 = 0, v1 = 7\n    try_call_indirect v0(v1), sig0, block1, [ default: block1 ]  ; v0 = 0, v1 = 7\n\nblock1:\n    return\n}\n",
            ),
            StackMap(3, &[]),
            Is(HasMap(3, &[])),
            StackMap(2, &[]),
            Is(HasMap(2, &[])),
            Prints(WITHOUT),
        ],
    },
    // An instruction that is no call keeps a stack map too, and shows none.
    Case {
        name: "maps_of_other_instructions",
        head: SAMPLE,
        steps: &[
            StackMap(1, &[(I32, 0, 0)]),
            Is(HasMap(1, &[(I32, 0, 0)])),
            StackMap(5, &[(I32, 0, 0)]),
            Is(HasMap(5, &[(I32, 0, 0)])),
            Is(HasMap(0, &[])),
            Is(HasMap(2, &[])),
            Prints(WITHOUT),
        ],
    },
    // A label that is set before labels are collected isn't kept. Those that are kept stand in the order of the calls, and
    // stay where labels are collected once more. None is printed.
    Case {
        name: "labels",
        head: SAMPLE,
        steps: &[
            Label(1, 10, 0),
            Collect,
            Is(HasLabels(1, &[])),
            Label(1, 12, 1),
            Label(0, 11, 2),
            Label(1, 10, 3),
            Collect,
            Label(1, 12, 1),
            Is(HasLabels(0, &[(11, 2)])),
            Is(HasLabels(1, &[(12, 1), (10, 3), (12, 1)])),
            Prints(WITHOUT),
        ],
    },
];

#[test]
fn maps_and_labels(rt: HostRuntime) -> Result<(), Fail> {
    make_all(&rt, rt.alloc(), &FIRST, &CASES)
}
