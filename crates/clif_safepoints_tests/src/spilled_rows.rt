//! Worked functions and their texts, spilled.
#![tactic(auto)]

use crate::spills::Make::{Alias, Block, Import, ImportAs, Param, Put};
use crate::spills::Pass::{Ret, V};
use crate::spills::Put::{Brif, Call, Iconst, Jump, Return, Trap, TryCall};
use crate::spills::{Edge, Spill, spills_each, spills_many};
use clif_types::types::{I32, I64};
use std::test::Fail;

// The row `slot_reuse`: v0 is passed to two calls, and then v1.
const SLOT_REUSE: Spill = Spill {
    name: "sample",
    params: &[],
    returns: &[],
    makes: &[
        Import("g", &[I32], &[]),
        Block,
        Put(0, I32, Iconst(0)),
        Put(0, I32, Call(0, &[0])),
        Put(0, I32, Call(0, &[0])),
        Put(0, I32, Iconst(1)),
        Put(0, I32, Call(0, &[1])),
        Put(0, I32, Call(0, &[1])),
        Put(0, I32, Return(&[])),
    ],
    recorded: &[0, 1],
    text: "function %sample() system_v {
    ss0 = explicit_slot 4, align = 4
    sig0 = (i32) system_v
    fn0 = %g sig0

block0:
    v0 = iconst.i32 0
    v11 = stack_addr.i64 ss0
    store notrap aligned v0, v11  ; v0 = 0
    v9 = stack_addr.i64 ss0
    v10 = load.i32 notrap aligned v9
    call fn0(v10), stack_map=[i32 @ ss0+0]
    v7 = stack_addr.i64 ss0
    v8 = load.i32 notrap aligned v7
    call fn0(v8)
    v1 = iconst.i32 1
    v6 = stack_addr.i64 ss0
    store notrap aligned v1, v6  ; v1 = 1
    v4 = stack_addr.i64 ss0
    v5 = load.i32 notrap aligned v4
    call fn0(v5), stack_map=[i32 @ ss0+0]
    v2 = stack_addr.i64 ss0
    v3 = load.i32 notrap aligned v2
    call fn0(v3)
    return
}
",
};

// The row `loop`: v2 is another name of v0.
const LOOP: Spill = Spill {
    name: "loop",
    params: &[I32],
    returns: &[],
    makes: &[
        Import("use", &[I32], &[]),
        Import("make", &[], &[I32]),
        Block,
        Block,
        Block,
        Param(0, I32),
        Put(0, I32, Jump(Edge(1, &[]))),
        Put(1, I32, Call(1, &[])),
        Put(1, I32, Call(0, &[1])),
        Put(1, I32, Call(0, &[1])),
        Param(1, I32),
        Put(1, I32, Call(0, &[2])),
        Put(1, I32, Brif(2, Edge(1, &[]), Edge(2, &[]))),
        Put(2, I32, Return(&[])),
        Alias(2, 0),
    ],
    recorded: &[0, 1, 2],
    text: "function %loop(i32) system_v {
    ss0 = explicit_slot 4, align = 4
    ss1 = explicit_slot 4, align = 4
    sig0 = (i32) system_v
    sig1 = () -> i32 system_v
    fn0 = %use sig0
    fn1 = %make sig1

block0(v0: i32):
    v2 -> v0
    v12 = stack_addr.i64 ss0
    store notrap aligned v0, v12
    jump block1

block1:
    v1 = call fn1(), stack_map=[i32 @ ss0+0]
    v11 = stack_addr.i64 ss1
    store notrap aligned v1, v11
    v9 = stack_addr.i64 ss1
    v10 = load.i32 notrap aligned v9
    call fn0(v10), stack_map=[i32 @ ss0+0, i32 @ ss1+0]
    v7 = stack_addr.i64 ss1
    v8 = load.i32 notrap aligned v7
    call fn0(v8), stack_map=[i32 @ ss0+0]
    v5 = stack_addr.i64 ss0
    v6 = load.i32 notrap aligned v5
    call fn0(v6), stack_map=[i32 @ ss0+0]
    v3 = stack_addr.i64 ss0
    v4 = load.i32 notrap aligned v3
    brif v4, block1, block2

block2:
    return
}
",
};

// The row `irreducible`.
const IRREDUCIBLE: Spill = Spill {
    name: "irreducible",
    params: &[I32, I64],
    returns: &[I64],
    makes: &[
        Import("a", &[I64], &[I32]),
        ImportAs("b", 0),
        Block,
        Block,
        Block,
        Block,
        Param(0, I32),
        Param(0, I64),
        Put(0, I64, Brif(0, Edge(1, &[V(1)]), Edge(2, &[V(1)]))),
        Param(1, I64),
        Put(1, I64, Call(0, &[2])),
        Param(2, I64),
        Put(1, I64, Brif(3, Edge(2, &[V(2)]), Edge(3, &[V(2)]))),
        Put(2, I64, Call(1, &[4])),
        Param(3, I64),
        Put(2, I64, Brif(5, Edge(1, &[V(4)]), Edge(3, &[V(4)]))),
        Put(3, I64, Return(&[6])),
    ],
    recorded: &[1, 2, 4, 6],
    text: "function %irreducible(i32, i64) -> i64 system_v {
    ss0 = explicit_slot 8, align = 8
    sig0 = (i64) -> i32 system_v
    fn0 = %a sig0
    fn1 = %b sig0

block0(v0: i32, v1: i64):
    brif v0, block1(v1), block2(v1)

block1(v2: i64):
    v20 = stack_addr.i64 ss0
    store notrap aligned v2, v20
    v18 = stack_addr.i64 ss0
    v19 = load.i64 notrap aligned v18
    v3 = call fn0(v19), stack_map=[i64 @ ss0+0]
    v14 = stack_addr.i64 ss0
    v15 = load.i64 notrap aligned v14
    v16 = stack_addr.i64 ss0
    v17 = load.i64 notrap aligned v16
    brif v3, block2(v15), block3(v17)

block2(v4: i64):
    v13 = stack_addr.i64 ss0
    store notrap aligned v4, v13
    v11 = stack_addr.i64 ss0
    v12 = load.i64 notrap aligned v11
    v5 = call fn1(v12), stack_map=[i64 @ ss0+0]
    v7 = stack_addr.i64 ss0
    v8 = load.i64 notrap aligned v7
    v9 = stack_addr.i64 ss0
    v10 = load.i64 notrap aligned v9
    brif v5, block1(v8), block3(v10)

block3(v6: i64):
    return v6
}
",
};

// The row `try_call`: the value and the own result on the normal edge.
const TRY_CALL: Spill = Spill {
    name: "try",
    params: &[I64],
    returns: &[I64],
    makes: &[
        Import("f", &[I64], &[I32]),
        Block,
        Block,
        Block,
        Param(0, I64),
        Param(1, I64),
        Param(1, I32),
        Put(
            0,
            I64,
            TryCall(0, &[0], Edge(1, &[V(0), Ret(0)]), &[Edge(2, &[])]),
        ),
        Put(1, I64, Return(&[1])),
        Put(2, I64, Trap(1)),
    ],
    recorded: &[0],
    text: "function %try(i64) -> i64 system_v {
    ss0 = explicit_slot 8, align = 8
    sig0 = (i64) -> i32 system_v
    fn0 = %f sig0

block0(v0: i64):
    v8 = stack_addr.i64 ss0
    store notrap aligned v0, v8
    v6 = stack_addr.i64 ss0
    v7 = load.i64 notrap aligned v6
    try_call fn0(v7), sig0, block3(ret0), [ default: block2 ], stack_map=[i64 @ ss0+0]

block3(v5: i32):
    v3 = stack_addr.i64 ss0
    v4 = load.i64 notrap aligned v3
    jump block1(v4, v5)

block1(v1: i64, v2: i32):
    return v1

block2:
    trap user1
}
",
};

// Both edges of a try call pass the value: two landing blocks.
const LANDINGS: Spill = Spill {
    name: "try",
    params: &[I64],
    returns: &[I64],
    makes: &[
        Import("f", &[I64], &[I32]),
        Block,
        Block,
        Block,
        Param(0, I64),
        Param(1, I64),
        Param(1, I32),
        Param(2, I64),
        Put(
            0,
            I64,
            TryCall(0, &[0], Edge(1, &[V(0), Ret(0)]), &[Edge(2, &[V(0)])]),
        ),
        Put(1, I64, Return(&[1])),
        Put(2, I64, Return(&[3])),
    ],
    recorded: &[0],
    text: "function %try(i64) -> i64 system_v {
    ss0 = explicit_slot 8, align = 8
    sig0 = (i64) -> i32 system_v
    fn0 = %f sig0

block0(v0: i64):
    v11 = stack_addr.i64 ss0
    store notrap aligned v0, v11
    v9 = stack_addr.i64 ss0
    v10 = load.i64 notrap aligned v9
    try_call fn0(v10), sig0, block4(ret0), [ default: block3 ], stack_map=[i64 @ ss0+0]

block3:
    v4 = stack_addr.i64 ss0
    v5 = load.i64 notrap aligned v4
    jump block2(v5)

block4(v8: i32):
    v6 = stack_addr.i64 ss0
    v7 = load.i64 notrap aligned v6
    jump block1(v7, v8)

block1(v1: i64, v2: i32):
    return v1

block2(v3: i64):
    return v3
}
",
};

// A value that is only passed to a call isn't live across it.
const ONCE: Spill = Spill {
    name: "once",
    params: &[I64],
    returns: &[],
    makes: &[
        Import("g", &[I64], &[]),
        Block,
        Param(0, I64),
        Put(0, I64, Call(0, &[0])),
        Put(0, I64, Return(&[])),
    ],
    recorded: &[0],
    text: "function %once(i64) system_v {
    sig0 = (i64) system_v
    fn0 = %g sig0

block0(v0: i64):
    call fn0(v0)
    return
}
",
};

/// A value that is used in a later block.
pub const FAR: Spill = Spill {
    name: "far",
    params: &[I64],
    returns: &[I64],
    makes: &[
        Import("g", &[], &[]),
        Block,
        Block,
        Param(0, I64),
        Put(0, I64, Call(0, &[])),
        Put(0, I64, Jump(Edge(1, &[]))),
        Put(1, I64, Call(0, &[])),
        Put(1, I64, Return(&[0])),
    ],
    recorded: &[0],
    text: "function %far(i64) -> i64 system_v {
    ss0 = explicit_slot 8, align = 8
    sig0 = () system_v
    fn0 = %g sig0

block0(v0: i64):
    v3 = stack_addr.i64 ss0
    store notrap aligned v0, v3
    call fn0(), stack_map=[i64 @ ss0+0]
    jump block1

block1:
    call fn0(), stack_map=[i64 @ ss0+0]
    v1 = stack_addr.i64 ss0
    v2 = load.i64 notrap aligned v1
    return v2
}
",
};

// The row `zero_marked`: the recorded v0 became another name of a zero, which isn't recorded.
const ZERO_MARKED: Spill = Spill {
    name: "zero_marked",
    params: &[],
    returns: &[I64],
    makes: &[
        Import("g", &[], &[]),
        Block,
        Param(0, I64),
        Put(0, I64, Iconst(0)),
        Alias(0, 1),
        Put(0, I64, Call(0, &[])),
        Put(0, I64, Return(&[0])),
    ],
    recorded: &[0],
    text: "function %zero_marked() -> i64 system_v {
    sig0 = () system_v
    fn0 = %g sig0

block0:
    v1 = iconst.i64 0
    v0 -> v1
    call fn0()
    return v0  ; v0 = 0
}
",
};

#[test]
fn rows_with_spills(rt: HostRuntime) -> Result<(), Fail> {
    let cases = [
        &SLOT_REUSE,
        &LOOP,
        &IRREDUCIBLE,
        &TRY_CALL,
        &LANDINGS,
        &ONCE,
        &FAR,
        &ZERO_MARKED,
    ];
    spills_each(&rt, rt.alloc(), &cases)
}

#[test]
fn as_many_slots_as_values(rt: HostRuntime) -> Result<(), Fail> {
    for count in [63, 64, 65] {
        spills_many(&rt, rt.alloc(), count)?;
    }
    Ok(())
}
