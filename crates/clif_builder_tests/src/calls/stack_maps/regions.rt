//! The alias regions of spilled values, as callbacks answer them.
//!
//! Accesses are inserted, and so asked for, block by block in the spiller's order, each block after those to which it leads but for
//! edges back. In a block the instructions come from the last to the first, and the parameters at the end. An instruction's
//! results are stored first, then what is passed on by an edge that gets a block of its own is loaded there, and then what the
//! instruction uses is loaded, from its first operand on.
#![tactic(auto)]

use crate::calls::built::{Row, asks};
use crate::calls::stack_maps::rows::{
    IRREDUCIBLE, LANDINGS, LOOP, SLOT_REUSE, TRY_CALL, ZERO_MARKED,
};
use crate::calls::stack_maps::tally::Tally;
use crate::calls::stack_maps::upstream::TYPED;
use cranelift_frontend::{AliasRegion, AliasRegionData, AliasRegionSet, RegionOf, StackSlot, Type};
use std::alloc::Global;
use std::process::Abort;
use std::rc::Rc;
use std::test::Fail;

const ONE_REGION: &str = "function %sample() system_v {
    ss0 = explicit_slot 4, align = 4
    region0 = user 7
    sig0 = (i32) system_v
    fn0 = %g sig0

block0:
    v0 = iconst.i32 0
    v11 = stack_addr.i64 ss0
    store notrap aligned region0 v0, v11  ; v0 = 0
    v9 = stack_addr.i64 ss0
    v10 = load.i32 notrap aligned region0 v9
    call fn0(v10), stack_map=[i32 @ ss0+0]
    v7 = stack_addr.i64 ss0
    v8 = load.i32 notrap aligned region0 v7
    call fn0(v8)
    v1 = iconst.i32 1
    v6 = stack_addr.i64 ss0
    store notrap aligned region0 v1, v6  ; v1 = 1
    v4 = stack_addr.i64 ss0
    v5 = load.i32 notrap aligned region0 v4
    call fn0(v5), stack_map=[i32 @ ss0+0]
    v2 = stack_addr.i64 ss0
    v3 = load.i32 notrap aligned region0 v2
    call fn0(v3)
    return
}
";

/// Each access of the row `slot_reuse` is asked for once, with the I32 that it moves, its slot and the slot's first byte. It names
/// the one region that is added, and the callback is dropped.
#[test]
fn one_region(rt: HostRuntime) -> Result<(), Fail> {
    let alloc = rt.alloc();
    let tally = Rc::new(alloc, Tally::new())?;
    let counted = tally.clone()?;
    let ask: RegionOf = Box::new(
        alloc,
        move |set: &mut AliasRegionSet, ty: Type, slot: StackSlot, offset: u32| -> Option<
            AliasRegion,
        > {
            counted.count(ty, slot, offset);
            set.insert(AliasRegionData { user_id: 7 }).ok()
        },
    )?;
    asks(&rt, alloc, &SLOT_REUSE, ask, ONE_REGION)?;
    assert_eq!(&rt; tally.calls(), 6);
    assert_eq!(&rt; tally.others(), 0);
    assert_eq!(&rt; Rc::strong_count(&tally), 1);
    Ok(())
}

// A row keeps its text where a callback adds nothing and answers nothing. It is asked so many times, and dropped.
fn keeps_text(rt: &impl Abort, alloc: Global, row: &Row, calls: u32) -> Result<(), Fail> {
    let tally = Rc::new(alloc, Tally::new())?;
    let counted = tally.clone()?;
    let ask: RegionOf = Box::new(
        alloc,
        move |_set: &mut AliasRegionSet, ty: Type, slot: StackSlot, offset: u32| -> Option<
            AliasRegion,
        > {
            counted.count(ty, slot, offset);
            None
        },
    )?;
    asks(rt, alloc, row, ask, row.text)?;
    assert_eq!(rt; tally.calls(), calls);
    assert_eq!(rt; Rc::strong_count(&tally), 1);
    Ok(())
}

/// A callback without answers changes no text. It is asked for each store and each load that the text has.
#[test]
fn no_answers(rt: HostRuntime) -> Result<(), Fail> {
    let rows = [
        (&SLOT_REUSE, 6),
        (&LOOP, 6),
        (&IRREDUCIBLE, 8),
        (&TRY_CALL, 3),
        (&LANDINGS, 4),
        (&TYPED, 18),
        (&ZERO_MARKED, 0),
    ];
    for (row, calls) in rows {
        keeps_text(&rt, rt.alloc(), row, calls)?;
    }
    Ok(())
}

/// What `slot_reuse` becomes where each access names the region 99.
pub const FAR_REGION: &str = "function %sample() system_v {
    ss0 = explicit_slot 4, align = 4
    sig0 = (i32) system_v
    fn0 = %g sig0

block0:
    v0 = iconst.i32 0
    v11 = stack_addr.i64 ss0
    store notrap aligned region99 v0, v11  ; v0 = 0
    v9 = stack_addr.i64 ss0
    v10 = load.i32 notrap aligned region99 v9
    call fn0(v10), stack_map=[i32 @ ss0+0]
    v7 = stack_addr.i64 ss0
    v8 = load.i32 notrap aligned region99 v7
    call fn0(v8)
    v1 = iconst.i32 1
    v6 = stack_addr.i64 ss0
    store notrap aligned region99 v1, v6  ; v1 = 1
    v4 = stack_addr.i64 ss0
    v5 = load.i32 notrap aligned region99 v4
    call fn0(v5), stack_map=[i32 @ ss0+0]
    v2 = stack_addr.i64 ss0
    v3 = load.i32 notrap aligned region99 v2
    call fn0(v3)
    return
}
";

/// A region that the function doesn't have is named all the same.
#[test]
fn far_region(rt: HostRuntime) -> Result<(), Fail> {
    let alloc = rt.alloc();
    let ask: RegionOf = Box::new(
        alloc,
        |_set: &mut AliasRegionSet, _ty: Type, _slot: StackSlot, _offset: u32| -> Option<
            AliasRegion,
        > { Some(AliasRegion::from_u32(99)) },
    )?;
    asks(&rt, alloc, &SLOT_REUSE, ask, FAR_REGION)
}

const UNNAMED_REGION: &str = "function %sample() system_v {
    ss0 = explicit_slot 4, align = 4
    region0 = user 0
    sig0 = (i32) system_v
    fn0 = %g sig0

block0:
    v0 = iconst.i32 0
    v11 = stack_addr.i64 ss0
    store notrap aligned v0, v11  ; v0 = 0
    v9 = stack_addr.i64 ss0
    v10 = load.i32 notrap aligned v9
    call fn0(v10), stack_map=[i32 @ ss0+0]
    v7 = stack_addr.i64 ss0
    v8 = load.i32 notrap aligned v7
    call fn0(v8)
    v1 = iconst.i32 1
    v6 = stack_addr.i64 ss0
    store notrap aligned v1, v6  ; v1 = 1
    v4 = stack_addr.i64 ss0
    v5 = load.i32 notrap aligned v4
    call fn0(v5), stack_map=[i32 @ ss0+0]
    v2 = stack_addr.i64 ss0
    v3 = load.i32 notrap aligned v2
    call fn0(v3)
    return
}
";

/// What a callback adds stays, although no access names it.
#[test]
fn unnamed_region(rt: HostRuntime) -> Result<(), Fail> {
    let alloc = rt.alloc();
    let ask: RegionOf = Box::new(
        alloc,
        |set: &mut AliasRegionSet, _ty: Type, slot: StackSlot, _offset: u32| -> Option<
            AliasRegion,
        > {
            let user_id = slot.as_u32();
            let _ = set.insert(AliasRegionData { user_id });
            None
        },
    )?;
    asks(&rt, alloc, &SLOT_REUSE, ask, UNNAMED_REGION)
}

// Only the calls of an even number are answered, each by its number as a region. The first one is for the last load.
const SECOND_CALLS: &str = "function %sample() system_v {
    ss0 = explicit_slot 4, align = 4
    sig0 = (i32) system_v
    fn0 = %g sig0

block0:
    v0 = iconst.i32 0
    v11 = stack_addr.i64 ss0
    store notrap aligned v0, v11  ; v0 = 0
    v9 = stack_addr.i64 ss0
    v10 = load.i32 notrap aligned region4 v9
    call fn0(v10), stack_map=[i32 @ ss0+0]
    v7 = stack_addr.i64 ss0
    v8 = load.i32 notrap aligned v7
    call fn0(v8)
    v1 = iconst.i32 1
    v6 = stack_addr.i64 ss0
    store notrap aligned region2 v1, v6  ; v1 = 1
    v4 = stack_addr.i64 ss0
    v5 = load.i32 notrap aligned v4
    call fn0(v5), stack_map=[i32 @ ss0+0]
    v2 = stack_addr.i64 ss0
    v3 = load.i32 notrap aligned region0 v2
    call fn0(v3)
    return
}
";

// Block1 comes before block0, and in it the branch first and the call of `%make` last.
const LOOP_BY_CALLS: &str = "function %loop(i32) system_v {
    ss0 = explicit_slot 4, align = 4
    ss1 = explicit_slot 4, align = 4
    sig0 = (i32) system_v
    sig1 = () -> i32 system_v
    fn0 = %use sig0
    fn1 = %make sig1

block0(v0: i32):
    v2 -> v0
    v12 = stack_addr.i64 ss0
    store notrap aligned v0, v12
    jump block1

block1:
    v1 = call fn1(), stack_map=[i32 @ ss0+0]
    v11 = stack_addr.i64 ss1
    store notrap aligned region4 v1, v11
    v9 = stack_addr.i64 ss1
    v10 = load.i32 notrap aligned v9
    call fn0(v10), stack_map=[i32 @ ss0+0, i32 @ ss1+0]
    v7 = stack_addr.i64 ss1
    v8 = load.i32 notrap aligned region2 v7
    call fn0(v8), stack_map=[i32 @ ss0+0]
    v5 = stack_addr.i64 ss0
    v6 = load.i32 notrap aligned v5
    call fn0(v6), stack_map=[i32 @ ss0+0]
    v3 = stack_addr.i64 ss0
    v4 = load.i32 notrap aligned region0 v3
    brif v4, block1, block2

block2:
    return
}
";

// Block0 is the only one that has accesses. The call's own block3 gets the first one, and the parameter's store is the last one.
const LANDING_BY_CALLS: &str = "function %try(i64) -> i64 system_v {
    ss0 = explicit_slot 8, align = 8
    sig0 = (i64) -> i32 system_v
    fn0 = %f sig0

block0(v0: i64):
    v8 = stack_addr.i64 ss0
    store notrap aligned region2 v0, v8
    v6 = stack_addr.i64 ss0
    v7 = load.i64 notrap aligned v6
    try_call fn0(v7), sig0, block3(ret0), [ default: block2 ], stack_map=[i64 @ ss0+0]

block3(v5: i32):
    v3 = stack_addr.i64 ss0
    v4 = load.i64 notrap aligned region0 v3
    jump block1(v4, v5)

block1(v1: i64, v2: i32):
    return v1

block2:
    trap user1
}
";

// A row has this text where a callback answers every second call, by how many came before it.
fn answers_second_calls(rt: &impl Abort, alloc: Global, row: &Row, text: &str) -> Result<(), Fail> {
    let tally = Tally::new();
    let ask: RegionOf = Box::new(
        alloc,
        move |_set: &mut AliasRegionSet, ty: Type, slot: StackSlot, offset: u32| -> Option<
            AliasRegion,
        > {
            let before = tally.count(ty, slot, offset);
            if before % 2 == 0 {
                Some(AliasRegion::from_u32(before))
            } else {
                None
            }
        },
    )?;
    asks(rt, alloc, row, ask, text)
}

/// The answers stand in the order of insertion.
#[test]
fn second_calls(rt: HostRuntime) -> Result<(), Fail> {
    answers_second_calls(&rt, rt.alloc(), &SLOT_REUSE, SECOND_CALLS)?;
    answers_second_calls(&rt, rt.alloc(), &LOOP, LOOP_BY_CALLS)?;
    answers_second_calls(&rt, rt.alloc(), &TRY_CALL, LANDING_BY_CALLS)
}

// The first access that is inserted is of the first slot.
const BY_SLOTS: &str = "function %loop(i32) system_v {
    ss0 = explicit_slot 4, align = 4
    ss1 = explicit_slot 4, align = 4
    region0 = user 0
    region1 = user 1
    sig0 = (i32) system_v
    sig1 = () -> i32 system_v
    fn0 = %use sig0
    fn1 = %make sig1

block0(v0: i32):
    v2 -> v0
    v12 = stack_addr.i64 ss0
    store notrap aligned region0 v0, v12
    jump block1

block1:
    v1 = call fn1(), stack_map=[i32 @ ss0+0]
    v11 = stack_addr.i64 ss1
    store notrap aligned region1 v1, v11
    v9 = stack_addr.i64 ss1
    v10 = load.i32 notrap aligned region1 v9
    call fn0(v10), stack_map=[i32 @ ss0+0, i32 @ ss1+0]
    v7 = stack_addr.i64 ss1
    v8 = load.i32 notrap aligned region1 v7
    call fn0(v8), stack_map=[i32 @ ss0+0]
    v5 = stack_addr.i64 ss0
    v6 = load.i32 notrap aligned region0 v5
    call fn0(v6), stack_map=[i32 @ ss0+0]
    v3 = stack_addr.i64 ss0
    v4 = load.i32 notrap aligned region0 v3
    brif v4, block1, block2

block2:
    return
}
";

/// A region for each slot.
#[test]
fn by_slots(rt: HostRuntime) -> Result<(), Fail> {
    let alloc = rt.alloc();
    let ask: RegionOf = Box::new(
        alloc,
        |set: &mut AliasRegionSet, _ty: Type, slot: StackSlot, _offset: u32| -> Option<
            AliasRegion,
        > {
            let user_id = slot.as_u32();
            set.insert(AliasRegionData { user_id }).ok()
        },
    )?;
    asks(&rt, alloc, &LOOP, ask, BY_SLOTS)
}

// The values are loaded from the first to the last, so that the narrow types get their regions first.
const BY_WIDTHS: &str =
    "function %sample(i8, i16, i32, i64, i128, f32, f64, i8x16, i16x8) -> i8, i16, i32, i64, i128, f32, f64, i8x16, i16x8 system_v {
    ss0 = explicit_slot 1
    ss1 = explicit_slot 2, align = 2
    ss2 = explicit_slot 4, align = 4
    ss3 = explicit_slot 8, align = 8
    ss4 = explicit_slot 16, align = 16
    ss5 = explicit_slot 4, align = 4
    ss6 = explicit_slot 8, align = 8
    ss7 = explicit_slot 16, align = 16
    ss8 = explicit_slot 16, align = 16
    region0 = user 1
    region1 = user 2
    region2 = user 4
    region3 = user 8
    region4 = user 16
    sig0 = () system_v
    fn0 = colocated u0:0 sig0

block0(v0: i8, v1: i16, v2: i32, v3: i64, v4: i128, v5: f32, v6: f64, v7: i8x16, v8: i16x8):
    v27 = stack_addr.i64 ss0
    store notrap aligned region0 v0, v27
    v28 = stack_addr.i64 ss1
    store notrap aligned region1 v1, v28
    v29 = stack_addr.i64 ss2
    store notrap aligned region2 v2, v29
    v30 = stack_addr.i64 ss3
    store notrap aligned region3 v3, v30
    v31 = stack_addr.i64 ss4
    store notrap aligned region4 v4, v31
    v32 = stack_addr.i64 ss5
    store notrap aligned region2 v5, v32
    v33 = stack_addr.i64 ss6
    store notrap aligned region3 v6, v33
    v34 = stack_addr.i64 ss7
    store notrap aligned region4 v7, v34
    v35 = stack_addr.i64 ss8
    store notrap aligned region4 v8, v35
    call fn0(), stack_map=[i8 @ ss0+0, i16 @ ss1+0, i32 @ ss2+0, i64 @ ss3+0, i128 @ ss4+0, f32 @ ss5+0, f64 @ ss6+0, i8x16 @ ss7+0, i16x8 @ ss8+0]
    v9 = stack_addr.i64 ss0
    v10 = load.i8 notrap aligned region0 v9
    v11 = stack_addr.i64 ss1
    v12 = load.i16 notrap aligned region1 v11
    v13 = stack_addr.i64 ss2
    v14 = load.i32 notrap aligned region2 v13
    v15 = stack_addr.i64 ss3
    v16 = load.i64 notrap aligned region3 v15
    v17 = stack_addr.i64 ss4
    v18 = load.i128 notrap aligned region4 v17
    v19 = stack_addr.i64 ss5
    v20 = load.f32 notrap aligned region2 v19
    v21 = stack_addr.i64 ss6
    v22 = load.f64 notrap aligned region3 v21
    v23 = stack_addr.i64 ss7
    v24 = load.i8x16 notrap aligned region4 v23
    v25 = stack_addr.i64 ss8
    v26 = load.i16x8 notrap aligned region4 v25
    return v10, v12, v14, v16, v18, v20, v22, v24, v26
}
";

/// A region for each width of what is stored or loaded.
#[test]
fn by_widths(rt: HostRuntime) -> Result<(), Fail> {
    let alloc = rt.alloc();
    let ask: RegionOf = Box::new(
        alloc,
        |set: &mut AliasRegionSet, ty: Type, _slot: StackSlot, _offset: u32| -> Option<
            AliasRegion,
        > {
            let user_id = ty.bytes();
            set.insert(AliasRegionData { user_id }).ok()
        },
    )?;
    asks(&rt, alloc, &TYPED, ask, BY_WIDTHS)
}
