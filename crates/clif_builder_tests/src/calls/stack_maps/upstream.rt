//! Upstream's tests `needs_stack_map_*` and their texts, but for the one whose functions end with a tail call.
#![tactic(auto)]

use crate::calls::built::{Header, Row, builds_in_turn};
use crate::calls::steps::Deed::{
    Branch, Create, End, Jump, ReturnEach, SealAll, Switch, TakeParams,
};
use crate::calls::steps::Entry::{Call, Colocated, Signature};
use crate::calls::steps::Note::Need;
use crate::calls::steps::Operand::{Constant, Param, ParamAt, Sum};
use crate::calls::steps::Step;
use crate::calls::steps::Step::{Do, Enter, Make, Note};
use clif_types::types::{F32, F64, I8, I8X16, I16, I16X8, I32, I64, I128};
use cranelift_frontend::Type;
use std::test::Fail;

// `needs_stack_map_and_loop`: block0 calls with v0, and jumps to itself with v0 and v1. An argument of an edge is live.
const LOOP: Row = Row {
    header: Header {
        name: Some("sample"),
        params: &[I32, I32],
        returns: &[],
        marked: None,
    },
    steps: &[
        Enter(Signature(&[I32], &[])),
        Enter(Colocated),
        Do(Create),
        Do(TakeParams(0)),
        Make(ParamAt(0, 0)),
        Make(ParamAt(0, 1)),
        Note(Need(0)),
        Note(Need(1)),
        Do(Switch(0)),
        Enter(Call(0, &[0])),
        Do(Jump(0, &[0, 1])),
        Do(SealAll),
    ],
    text: "function %sample(i32, i32) system_v {
    ss0 = explicit_slot 4, align = 4
    ss1 = explicit_slot 4, align = 4
    sig0 = (i32) system_v
    fn0 = colocated u0:0 sig0

block0(v0: i32, v1: i32):
    v8 = stack_addr.i64 ss0
    store notrap aligned v0, v8
    v9 = stack_addr.i64 ss1
    store notrap aligned v1, v9
    v6 = stack_addr.i64 ss0
    v7 = load.i32 notrap aligned v6
    call fn0(v7), stack_map=[i32 @ ss0+0, i32 @ ss1+0]
    v2 = stack_addr.i64 ss0
    v3 = load.i32 notrap aligned v2
    v4 = stack_addr.i64 ss1
    v5 = load.i32 notrap aligned v4
    jump block0(v3, v5)
}
",
};

// `needs_stack_map_simple`: one value less is live across each call. v3 is live across none, and what is only passed to a
// call isn't live across it.
const SIMPLE: Row = Row {
    header: Header {
        name: Some("sample"),
        params: &[],
        returns: &[],
        marked: None,
    },
    steps: &[
        Enter(Signature(&[I32], &[])),
        Enter(Colocated),
        Do(Create),
        Do(TakeParams(0)),
        Do(Switch(0)),
        Make(Constant(I32, 0)),
        Note(Need(0)),
        Make(Constant(I32, 1)),
        Note(Need(1)),
        Make(Constant(I32, 2)),
        Note(Need(2)),
        Make(Constant(I32, 3)),
        Note(Need(3)),
        Enter(Call(0, &[3])),
        Enter(Call(0, &[0])),
        Enter(Call(0, &[1])),
        Enter(Call(0, &[2])),
        Do(End),
        Do(SealAll),
    ],
    text: "function %sample() system_v {
    ss0 = explicit_slot 4, align = 4
    ss1 = explicit_slot 4, align = 4
    ss2 = explicit_slot 4, align = 4
    sig0 = (i32) system_v
    fn0 = colocated u0:0 sig0

block0:
    v0 = iconst.i32 0
    v12 = stack_addr.i64 ss2
    store notrap aligned v0, v12  ; v0 = 0
    v1 = iconst.i32 1
    v11 = stack_addr.i64 ss1
    store notrap aligned v1, v11  ; v1 = 1
    v2 = iconst.i32 2
    v10 = stack_addr.i64 ss0
    store notrap aligned v2, v10  ; v2 = 2
    v3 = iconst.i32 3
    call fn0(v3), stack_map=[i32 @ ss2+0, i32 @ ss1+0, i32 @ ss0+0]  ; v3 = 3
    v8 = stack_addr.i64 ss2
    v9 = load.i32 notrap aligned v8
    call fn0(v9), stack_map=[i32 @ ss1+0, i32 @ ss0+0]
    v6 = stack_addr.i64 ss1
    v7 = load.i32 notrap aligned v6
    call fn0(v7), stack_map=[i32 @ ss0+0]
    v4 = stack_addr.i64 ss0
    v5 = load.i32 notrap aligned v4
    call fn0(v5)
    return
}
",
};

// `needs_stack_map_and_post_order_early_return`: v1 is made in block1 and used in block3. Block2 calls and returns.
const EARLY_RETURN: Row = Row {
    header: Header {
        name: Some("sample"),
        params: &[I32],
        returns: &[],
        marked: None,
    },
    steps: &[
        Enter(Signature(&[], &[])),
        Enter(Colocated),
        Do(Create),
        Do(Create),
        Do(Create),
        Do(Create),
        Do(TakeParams(0)),
        Do(Switch(0)),
        Make(ParamAt(0, 0)),
        Do(Branch(0, 1, 2)),
        Do(Switch(1)),
        Make(Constant(I64, 0x1234_5678)),
        Note(Need(1)),
        Do(Jump(3, &[])),
        Do(Switch(2)),
        Enter(Call(0, &[])),
        Do(End),
        Do(Switch(3)),
        Make(Sum(1, 0)),
        Do(End),
        Do(SealAll),
    ],
    text: "function %sample(i32) system_v {
    sig0 = () system_v
    fn0 = colocated u0:0 sig0

block0(v0: i32):
    brif v0, block1, block2

block1:
    v1 = iconst.i64 0x1234_5678
    jump block3

block2:
    call fn0()
    return

block3:
    v2 = iconst.i64 0
    v3 = iadd.i64 v1, v2  ; v1 = 0x1234_5678, v2 = 0
    return
}
",
};

// `needs_stack_map_conditional_branches_and_liveness`: v1 isn't live across the call, which is in block1.
const CALL_FIRST: Row = Row {
    header: Header {
        name: Some("sample"),
        params: &[I32],
        returns: &[],
        marked: None,
    },
    steps: &[
        Enter(Signature(&[], &[])),
        Enter(Colocated),
        Do(Create),
        Do(Create),
        Do(Create),
        Do(TakeParams(0)),
        Do(Switch(0)),
        Make(ParamAt(0, 0)),
        Make(Constant(I64, 0x1234_5678)),
        Note(Need(1)),
        Do(Branch(0, 1, 2)),
        Do(Switch(1)),
        Enter(Call(0, &[])),
        Do(End),
        Do(Switch(2)),
        Make(Sum(1, 0)),
        Do(End),
        Do(SealAll),
    ],
    text: "function %sample(i32) system_v {
    sig0 = () system_v
    fn0 = colocated u0:0 sig0

block0(v0: i32):
    v1 = iconst.i64 0x1234_5678
    brif v0, block1, block2

block1:
    call fn0()
    return

block2:
    v2 = iconst.i64 0
    v3 = iadd.i64 v1, v2  ; v1 = 0x1234_5678, v2 = 0
    return
}
",
};

// Its second function, where the call is in block2.
const CALL_SECOND: Row = Row {
    header: Header {
        name: None,
        params: &[I32],
        returns: &[],
        marked: None,
    },
    steps: &[
        Enter(Signature(&[], &[])),
        Enter(Colocated),
        Do(Create),
        Do(Create),
        Do(Create),
        Do(TakeParams(0)),
        Do(Switch(0)),
        Make(ParamAt(0, 0)),
        Make(Constant(I64, 0x1234_5678)),
        Note(Need(1)),
        Do(Branch(0, 1, 2)),
        Do(Switch(1)),
        Make(Sum(1, 0)),
        Do(End),
        Do(Switch(2)),
        Enter(Call(0, &[])),
        Do(End),
        Do(SealAll),
    ],
    text: "function u0:0(i32) system_v {
    sig0 = () system_v
    fn0 = colocated u0:0 sig0

block0(v0: i32):
    v1 = iconst.i64 0x1234_5678
    brif v0, block1, block2

block1:
    v2 = iconst.i64 0
    v3 = iadd.i64 v1, v2  ; v1 = 0x1234_5678, v2 = 0
    return

block2:
    call fn0()
    return
}
",
};

// `needs_stack_map_and_cfg_diamond`: block1 passes v1 and v2 to block3, and block2 passes v3 twice. v4 isn't live, and
// block3 uses v1, which block2 doesn't make.
const DIAMOND: Row = Row {
    header: Header {
        name: Some("sample"),
        params: &[I32],
        returns: &[],
        marked: None,
    },
    steps: &[
        Enter(Signature(&[], &[])),
        Enter(Colocated),
        Do(Create),
        Do(Create),
        Do(Create),
        Do(Create),
        Do(TakeParams(0)),
        Do(Switch(0)),
        Make(ParamAt(0, 0)),
        Do(Branch(0, 1, 2)),
        Do(Switch(1)),
        Make(Constant(I64, 1)),
        Note(Need(1)),
        Make(Constant(I64, 2)),
        Note(Need(2)),
        Enter(Call(0, &[])),
        Do(Jump(3, &[1, 2])),
        Do(Switch(2)),
        Make(Constant(I64, 3)),
        Note(Need(3)),
        Make(Constant(I64, 4)),
        Note(Need(4)),
        Enter(Call(0, &[])),
        Do(Jump(3, &[3, 3])),
        Do(Switch(3)),
        Make(Param(3, I64)),
        Make(Param(3, I64)),
        Enter(Call(0, &[])),
        Make(Sum(1, 0)),
        Do(End),
        Do(SealAll),
    ],
    text: "function %sample(i32) system_v {
    ss0 = explicit_slot 8, align = 8
    ss1 = explicit_slot 8, align = 8
    sig0 = () system_v
    fn0 = colocated u0:0 sig0

block0(v0: i32):
    brif v0, block1, block2

block1:
    v1 = iconst.i64 1
    v16 = stack_addr.i64 ss0
    store notrap aligned v1, v16  ; v1 = 1
    v2 = iconst.i64 2
    v15 = stack_addr.i64 ss1
    store notrap aligned v2, v15  ; v2 = 2
    call fn0(), stack_map=[i64 @ ss0+0, i64 @ ss1+0]
    v11 = stack_addr.i64 ss0
    v12 = load.i64 notrap aligned v11
    v13 = stack_addr.i64 ss1
    v14 = load.i64 notrap aligned v13
    jump block3(v12, v14)

block2:
    v3 = iconst.i64 3
    v21 = stack_addr.i64 ss0
    store notrap aligned v3, v21  ; v3 = 3
    v4 = iconst.i64 4
    call fn0(), stack_map=[i64 @ ss0+0, i64 @ ss0+0]
    v17 = stack_addr.i64 ss0
    v18 = load.i64 notrap aligned v17
    v19 = stack_addr.i64 ss0
    v20 = load.i64 notrap aligned v19
    jump block3(v18, v20)

block3(v5: i64, v6: i64):
    call fn0(), stack_map=[i64 @ ss0+0]
    v7 = iconst.i64 0
    v9 = stack_addr.i64 ss0
    v10 = load.i64 notrap aligned v9
    v8 = iadd v10, v7  ; v7 = 0
    return
}
",
};

const TYPES: &[Type] = &[I8, I16, I32, I64, I128, F32, F64, I8X16, I16X8];

/// `needs_stack_map_and_heterogeneous_types`: nine parameters of other types, and a slot for each.
pub const TYPED: Row = Row {
    header: Header {
        name: Some("sample"),
        params: TYPES,
        returns: TYPES,
        marked: None,
    },
    steps: &[
        Enter(Signature(&[], &[])),
        Enter(Colocated),
        Do(Create),
        Do(TakeParams(0)),
        Do(Switch(0)),
        Make(ParamAt(0, 0)),
        Make(ParamAt(0, 1)),
        Make(ParamAt(0, 2)),
        Make(ParamAt(0, 3)),
        Make(ParamAt(0, 4)),
        Make(ParamAt(0, 5)),
        Make(ParamAt(0, 6)),
        Make(ParamAt(0, 7)),
        Make(ParamAt(0, 8)),
        Note(Need(0)),
        Note(Need(1)),
        Note(Need(2)),
        Note(Need(3)),
        Note(Need(4)),
        Note(Need(5)),
        Note(Need(6)),
        Note(Need(7)),
        Note(Need(8)),
        Enter(Call(0, &[])),
        Do(ReturnEach(&[0, 1, 2, 3, 4, 5, 6, 7, 8])),
        Do(SealAll),
    ],
    text: "function %sample(i8, i16, i32, i64, i128, f32, f64, i8x16, i16x8) -> i8, i16, i32, i64, i128, f32, f64, i8x16, i16x8 system_v {
    ss0 = explicit_slot 1
    ss1 = explicit_slot 2, align = 2
    ss2 = explicit_slot 4, align = 4
    ss3 = explicit_slot 8, align = 8
    ss4 = explicit_slot 16, align = 16
    ss5 = explicit_slot 4, align = 4
    ss6 = explicit_slot 8, align = 8
    ss7 = explicit_slot 16, align = 16
    ss8 = explicit_slot 16, align = 16
    sig0 = () system_v
    fn0 = colocated u0:0 sig0

block0(v0: i8, v1: i16, v2: i32, v3: i64, v4: i128, v5: f32, v6: f64, v7: i8x16, v8: i16x8):
    v27 = stack_addr.i64 ss0
    store notrap aligned v0, v27
    v28 = stack_addr.i64 ss1
    store notrap aligned v1, v28
    v29 = stack_addr.i64 ss2
    store notrap aligned v2, v29
    v30 = stack_addr.i64 ss3
    store notrap aligned v3, v30
    v31 = stack_addr.i64 ss4
    store notrap aligned v4, v31
    v32 = stack_addr.i64 ss5
    store notrap aligned v5, v32
    v33 = stack_addr.i64 ss6
    store notrap aligned v6, v33
    v34 = stack_addr.i64 ss7
    store notrap aligned v7, v34
    v35 = stack_addr.i64 ss8
    store notrap aligned v8, v35
    call fn0(), stack_map=[i8 @ ss0+0, i16 @ ss1+0, i32 @ ss2+0, i64 @ ss3+0, i128 @ ss4+0, f32 @ ss5+0, f64 @ ss6+0, i8x16 @ ss7+0, i16x8 @ ss8+0]
    v9 = stack_addr.i64 ss0
    v10 = load.i8 notrap aligned v9
    v11 = stack_addr.i64 ss1
    v12 = load.i16 notrap aligned v11
    v13 = stack_addr.i64 ss2
    v14 = load.i32 notrap aligned v13
    v15 = stack_addr.i64 ss3
    v16 = load.i64 notrap aligned v15
    v17 = stack_addr.i64 ss4
    v18 = load.i128 notrap aligned v17
    v19 = stack_addr.i64 ss5
    v20 = load.f32 notrap aligned v19
    v21 = stack_addr.i64 ss6
    v22 = load.f64 notrap aligned v21
    v23 = stack_addr.i64 ss7
    v24 = load.i8x16 notrap aligned v23
    v25 = stack_addr.i64 ss8
    v26 = load.i16x8 notrap aligned v25
    return v10, v12, v14, v16, v18, v20, v22, v24, v26
}
",
};

#[test]
fn needs_stack_map_and_loop(rt: HostRuntime) -> Result<(), Fail> {
    builds_in_turn(&rt, rt.alloc(), &[&LOOP])
}

#[test]
fn needs_stack_map_simple(rt: HostRuntime) -> Result<(), Fail> {
    builds_in_turn(&rt, rt.alloc(), &[&SIMPLE])
}

#[test]
fn needs_stack_map_and_post_order_early_return(rt: HostRuntime) -> Result<(), Fail> {
    builds_in_turn(&rt, rt.alloc(), &[&EARLY_RETURN])
}

/// Both functions are built with one context.
#[test]
fn needs_stack_map_conditional_branches_and_liveness(rt: HostRuntime) -> Result<(), Fail> {
    builds_in_turn(&rt, rt.alloc(), &[&CALL_FIRST, &CALL_SECOND])
}

#[test]
fn needs_stack_map_and_cfg_diamond(rt: HostRuntime) -> Result<(), Fail> {
    builds_in_turn(&rt, rt.alloc(), &[&DIAMOND])
}

#[test]
fn needs_stack_map_and_heterogeneous_types(rt: HostRuntime) -> Result<(), Fail> {
    builds_in_turn(&rt, rt.alloc(), &[&TYPED])
}
