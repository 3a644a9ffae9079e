//! The project's rows with tracked values.
#![tactic(auto)]

use crate::calls::built::{Header, Row, builds_in_turn};
use crate::calls::steps::Attempt::Define;
use crate::calls::steps::Deed::{
    Branch, Create, End, Jump, Return, Seal, SealAll, Switch, TakeParams, Trap,
};
use crate::calls::steps::Entry::{Call, Function, Signature, TryPassing};
use crate::calls::steps::Note::Need;
use crate::calls::steps::Operand::{Constant, Param, ParamAt, Read, Returned};
use crate::calls::steps::Step;
use crate::calls::steps::Step::{Do, Enter, Make, Note, Try};
use clif_types::types::{I32, I64};
use std::test::Fail;

/// `slot_reuse`: v0 is passed to two calls, and then v1.
pub const SLOT_REUSE: Row = Row {
    header: Header {
        name: Some("sample"),
        params: &[],
        returns: &[],
        marked: None,
    },
    steps: &[
        Enter(Signature(&[I32], &[])),
        Enter(Function("g", 0)),
        Do(Create),
        Do(Seal(0)),
        Do(Switch(0)),
        Make(Constant(I32, 0)),
        Note(Need(0)),
        Enter(Call(0, &[0])),
        Enter(Call(0, &[0])),
        Make(Constant(I32, 1)),
        Note(Need(1)),
        Enter(Call(0, &[1])),
        Enter(Call(0, &[1])),
        Do(End),
    ],
    text: "function %sample() system_v {
    ss0 = explicit_slot 4, align = 4
    sig0 = (i32) system_v
    fn0 = %g sig0

block0:
    v0 = iconst.i32 0
    v11 = stack_addr.i64 ss0
    store notrap aligned v0, v11  ; v0 = 0
    v9 = stack_addr.i64 ss0
    v10 = load.i32 notrap aligned v9
    call fn0(v10), stack_map=[i32 @ ss0+0]
    v7 = stack_addr.i64 ss0
    v8 = load.i32 notrap aligned v7
    call fn0(v8)
    v1 = iconst.i32 1
    v6 = stack_addr.i64 ss0
    store notrap aligned v1, v6  ; v1 = 1
    v4 = stack_addr.i64 ss0
    v5 = load.i32 notrap aligned v4
    call fn0(v5), stack_map=[i32 @ ss0+0]
    v2 = stack_addr.i64 ss0
    v3 = load.i32 notrap aligned v2
    call fn0(v3)
    return
}
",
};

/// `loop`: a marked variable lives around a loop whose body makes another value.
pub const LOOP: Row = Row {
    header: Header {
        name: Some("loop"),
        params: &[I32],
        returns: &[],
        marked: Some(I32),
    },
    steps: &[
        Enter(Signature(&[I32], &[])),
        Enter(Signature(&[], &[I32])),
        Enter(Function("use", 0)),
        Enter(Function("make", 1)),
        Do(Create),
        Do(Create),
        Do(Create),
        Do(TakeParams(0)),
        Do(Seal(0)),
        Do(Switch(0)),
        Make(ParamAt(0, 0)),
        Try(Define(0, 0)),
        Do(Jump(1, &[])),
        Do(Switch(1)),
        Make(Returned(1, &[])),
        Note(Need(1)),
        Enter(Call(0, &[1])),
        Enter(Call(0, &[1])),
        Make(Read(0)),
        Enter(Call(0, &[2])),
        Do(Branch(2, 1, 2)),
        Do(Seal(1)),
        Do(Seal(2)),
        Do(Switch(2)),
        Do(End),
    ],
    text: "function %loop(i32) system_v {
    ss0 = explicit_slot 4, align = 4
    ss1 = explicit_slot 4, align = 4
    sig0 = (i32) system_v
    sig1 = () -> i32 system_v
    fn0 = %use sig0
    fn1 = %make sig1

block0(v0: i32):
    v2 -> v0
    v12 = stack_addr.i64 ss0
    store notrap aligned v0, v12
    jump block1

block1:
    v1 = call fn1(), stack_map=[i32 @ ss0+0]
    v11 = stack_addr.i64 ss1
    store notrap aligned v1, v11
    v9 = stack_addr.i64 ss1
    v10 = load.i32 notrap aligned v9
    call fn0(v10), stack_map=[i32 @ ss0+0, i32 @ ss1+0]
    v7 = stack_addr.i64 ss1
    v8 = load.i32 notrap aligned v7
    call fn0(v8), stack_map=[i32 @ ss0+0]
    v5 = stack_addr.i64 ss0
    v6 = load.i32 notrap aligned v5
    call fn0(v6), stack_map=[i32 @ ss0+0]
    v3 = stack_addr.i64 ss0
    v4 = load.i32 notrap aligned v3
    brif v4, block1, block2

block2:
    return
}
",
};

/// `irreducible`: block1 and block2 call with a marked variable, and lead to each other and to block3. It has one slot, of
/// eight bytes.
pub const IRREDUCIBLE: Row = Row {
    header: Header {
        name: Some("irreducible"),
        params: &[I32, I64],
        returns: &[I64],
        marked: Some(I64),
    },
    steps: &[
        Enter(Signature(&[I64], &[I32])),
        Enter(Function("a", 0)),
        Enter(Function("b", 0)),
        Do(Create),
        Do(Create),
        Do(Create),
        Do(Create),
        Do(TakeParams(0)),
        Do(Seal(0)),
        Do(Switch(0)),
        Make(ParamAt(0, 0)),
        Make(ParamAt(0, 1)),
        Try(Define(0, 1)),
        Do(Branch(0, 1, 2)),
        Do(Switch(1)),
        Make(Read(0)),
        Make(Returned(0, &[2])),
        Do(Branch(3, 2, 3)),
        Do(Switch(2)),
        Make(Read(0)),
        Make(Returned(1, &[4])),
        Do(Branch(5, 1, 3)),
        Do(Switch(3)),
        Make(Read(0)),
        Do(Return(6)),
        Do(SealAll),
    ],
    text: "function %irreducible(i32, i64) -> i64 system_v {
    ss0 = explicit_slot 8, align = 8
    sig0 = (i64) -> i32 system_v
    fn0 = %a sig0
    fn1 = %b sig0

block0(v0: i32, v1: i64):
    brif v0, block1(v1), block2(v1)

block1(v2: i64):
    v20 = stack_addr.i64 ss0
    store notrap aligned v2, v20
    v18 = stack_addr.i64 ss0
    v19 = load.i64 notrap aligned v18
    v3 = call fn0(v19), stack_map=[i64 @ ss0+0]
    v14 = stack_addr.i64 ss0
    v15 = load.i64 notrap aligned v14
    v16 = stack_addr.i64 ss0
    v17 = load.i64 notrap aligned v16
    brif v3, block2(v15), block3(v17)

block2(v4: i64):
    v13 = stack_addr.i64 ss0
    store notrap aligned v4, v13
    v11 = stack_addr.i64 ss0
    v12 = load.i64 notrap aligned v11
    v5 = call fn1(v12), stack_map=[i64 @ ss0+0]
    v7 = stack_addr.i64 ss0
    v8 = load.i64 notrap aligned v7
    v9 = stack_addr.i64 ss0
    v10 = load.i64 notrap aligned v9
    brif v5, block1(v8), block3(v10)

block3(v6: i64):
    return v6
}
",
};

/// `try_call`: the value and the own result on the normal edge.
pub const TRY_CALL: Row = Row {
    header: Header {
        name: Some("try"),
        params: &[I64],
        returns: &[I64],
        marked: None,
    },
    steps: &[
        Enter(Signature(&[I64], &[I32])),
        Enter(Function("f", 0)),
        Do(Create),
        Do(Create),
        Do(Create),
        Do(TakeParams(0)),
        Make(ParamAt(0, 0)),
        Make(Param(1, I64)),
        Make(Param(1, I32)),
        Note(Need(0)),
        Do(Switch(0)),
        Enter(TryPassing(0, &[])),
        Do(Switch(1)),
        Do(Return(1)),
        Do(Switch(2)),
        Do(Trap(1)),
        Do(SealAll),
    ],
    text: "function %try(i64) -> i64 system_v {
    ss0 = explicit_slot 8, align = 8
    sig0 = (i64) -> i32 system_v
    fn0 = %f sig0

block0(v0: i64):
    v8 = stack_addr.i64 ss0
    store notrap aligned v0, v8
    v6 = stack_addr.i64 ss0
    v7 = load.i64 notrap aligned v6
    try_call fn0(v7), sig0, block3(ret0), [ default: block2 ], stack_map=[i64 @ ss0+0]

block3(v5: i32):
    v3 = stack_addr.i64 ss0
    v4 = load.i64 notrap aligned v3
    jump block1(v4, v5)

block1(v1: i64, v2: i32):
    return v1

block2:
    trap user1
}
",
};

/// Both edges of the try call pass the value: two landing blocks.
pub const LANDINGS: Row = Row {
    header: Header {
        name: Some("try"),
        params: &[I64],
        returns: &[I64],
        marked: None,
    },
    steps: &[
        Enter(Signature(&[I64], &[I32])),
        Enter(Function("f", 0)),
        Do(Create),
        Do(Create),
        Do(Create),
        Do(TakeParams(0)),
        Make(ParamAt(0, 0)),
        Make(Param(1, I64)),
        Make(Param(1, I32)),
        Make(Param(2, I64)),
        Note(Need(0)),
        Do(Switch(0)),
        Enter(TryPassing(0, &[0])),
        Do(Switch(1)),
        Do(Return(1)),
        Do(Switch(2)),
        Do(Return(3)),
        Do(SealAll),
    ],
    text: "function %try(i64) -> i64 system_v {
    ss0 = explicit_slot 8, align = 8
    sig0 = (i64) -> i32 system_v
    fn0 = %f sig0

block0(v0: i64):
    v11 = stack_addr.i64 ss0
    store notrap aligned v0, v11
    v9 = stack_addr.i64 ss0
    v10 = load.i64 notrap aligned v9
    try_call fn0(v10), sig0, block4(ret0), [ default: block3 ], stack_map=[i64 @ ss0+0]

block3:
    v4 = stack_addr.i64 ss0
    v5 = load.i64 notrap aligned v4
    jump block2(v5)

block4(v8: i32):
    v6 = stack_addr.i64 ss0
    v7 = load.i64 notrap aligned v6
    jump block1(v7, v8)

block1(v1: i64, v2: i32):
    return v1

block2(v3: i64):
    return v3
}
",
};

/// `zero_marked`: a marked variable that is never assigned is used in a sealed block to which nothing leads, before a call
/// and after it.
pub const ZERO_MARKED: Row = Row {
    header: Header {
        name: Some("zero_marked"),
        params: &[],
        returns: &[I64],
        marked: Some(I64),
    },
    steps: &[
        Do(Create),
        Do(Seal(0)),
        Do(Switch(0)),
        Enter(Signature(&[], &[])),
        Enter(Function("g", 0)),
        Make(Read(0)),
        Enter(Call(0, &[])),
        Make(Read(0)),
        Do(Return(1)),
    ],
    text: "function %zero_marked() -> i64 system_v {
    sig0 = () system_v
    fn0 = %g sig0

block0:
    v1 = iconst.i64 0
    v0 -> v1
    call fn0()
    return v0  ; v0 = 0
}
",
};

/// Their texts, where one context serves them all.
#[test]
fn rows(rt: HostRuntime) -> Result<(), Fail> {
    let rows = [&SLOT_REUSE, &LOOP, &IRREDUCIBLE, &TRY_CALL, &LANDINGS];
    builds_in_turn(&rt, rt.alloc(), &rows)
}

/// A marked variable's zero is put, and the function is finished. It is built twice with one context, and is the same. Stack
/// maps don't need the zero, so that nothing is spilled.
#[test]
fn zero_marked(rt: HostRuntime) -> Result<(), Fail> {
    builds_in_turn(&rt, rt.alloc(), &[&ZERO_MARKED, &ZERO_MARKED])
}
