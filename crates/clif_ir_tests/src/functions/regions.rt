//! The alias regions of the accesses in the row `slot_reuse`, which are inserted as a spiller inserts them, as callbacks answer them.
#![tactic(auto)]

use crate::functions::rows::CASES;
use crate::steps::{SAMPLE, made_by};
use clif_regions::{Callback, RegionOf, ask_regions};
use clif_types::types::I32;
use clif_types::{AliasRegion, AliasRegionData, AliasRegionSet, EntityRef, StackSlot, Type};
use std::alloc::Global;
use std::cell::Cell;
use std::process::Abort;
use std::test::Fail;

// How many instructions the function has before accesses are inserted.
const FIRST: usize = 7;

// The text of the row, once this callback was asked.
fn text_by(rt: &impl Abort, alloc: Global, callback: &Callback) -> Result<String, Fail> {
    let mut func = made_by(rt, alloc, SAMPLE, CASES[0].steps, "slot_reuse")?;
    ask_regions(&mut func, FIRST, callback)?;
    Ok(format!(in alloc; "{}", func.display())?)
}

// The region of user id 7, for each access of an I32 to the first slot.
fn user_7(alloc: Global) -> Result<Callback, Fail> {
    let ask: RegionOf = Box::new(
        alloc,
        |set: &mut AliasRegionSet, ty: Type, slot: StackSlot, offset: u32| -> Option<AliasRegion> {
            if ty != I32 || slot.index() != 0 || offset != 0 {
                return None;
            }
            match set.insert(AliasRegionData { user_id: 7 }) {
                Ok(region) => Some(region),
                Err(_) => None,
            }
        },
    )?;
    Ok(Callback::new(ask))
}

// Interns the slot's number, and answers nothing.
fn interning(alloc: Global) -> Result<Callback, Fail> {
    let ask: RegionOf = Box::new(
        alloc,
        |set: &mut AliasRegionSet, _ty: Type, slot: StackSlot, _offset: u32| -> Option<
            AliasRegion,
        > {
            let user_id = slot.index() as u32;
            match set.insert(AliasRegionData { user_id }) {
                Ok(_) => None,
                Err(_) => None,
            }
        },
    )?;
    Ok(Callback::new(ask))
}

// The region 99, which the function doesn't have.
fn far(alloc: Global) -> Result<Callback, Fail> {
    let ask: RegionOf = Box::new(
        alloc,
        |_set: &mut AliasRegionSet, _ty: Type, _slot: StackSlot, _offset: u32| -> Option<
            AliasRegion,
        > { Some(AliasRegion::from_u32(99)) },
    )?;
    Ok(Callback::new(ask))
}

// The number of earlier calls, or at every second call nothing.
fn counting(alloc: Global, answers_all: bool) -> Result<Callback, Fail> {
    let calls = Cell::new(0u32);
    let ask: RegionOf = Box::new(
        alloc,
        move |_set: &mut AliasRegionSet, _ty: Type, _slot: StackSlot, _offset: u32| -> Option<
            AliasRegion,
        > {
            let before = calls.get();
            if before >= 1000 {
                return None;
            }
            calls.set(before + 1);
            if answers_all || before % 2 == 0 {
                Some(AliasRegion::from_u32(before))
            } else {
                None
            }
        },
    )?;
    Ok(Callback::new(ask))
}

// Nothing at all.
fn silent(alloc: Global) -> Result<Callback, Fail> {
    let ask: RegionOf = Box::new(
        alloc,
        |_set: &mut AliasRegionSet, _ty: Type, _slot: StackSlot, _offset: u32| -> Option<
            AliasRegion,
        > { None },
    )?;
    Ok(Callback::new(ask))
}

#[test]
fn one_region(rt: HostRuntime) -> Result<(), Fail> {
    let text = text_by(&rt, rt.alloc(), &user_7(rt.alloc())?)?;
    let wanted = "function %sample() system_v {
    ss0 = explicit_slot 4, align = 4
    region0 = user 7
    sig0 = (i32) system_v
    fn0 = %g sig0

block0:
    v0 = iconst.i32 0
    v11 = stack_addr.i64 ss0
    store notrap aligned region0 v0, v11  ; v0 = 0
    v9 = stack_addr.i64 ss0
    v10 = load.i32 notrap aligned region0 v9
    call fn0(v10), stack_map=[i32 @ ss0+0]
    v7 = stack_addr.i64 ss0
    v8 = load.i32 notrap aligned region0 v7
    call fn0(v8)
    v1 = iconst.i32 1
    v6 = stack_addr.i64 ss0
    store notrap aligned region0 v1, v6  ; v1 = 1
    v4 = stack_addr.i64 ss0
    v5 = load.i32 notrap aligned region0 v4
    call fn0(v5), stack_map=[i32 @ ss0+0]
    v2 = stack_addr.i64 ss0
    v3 = load.i32 notrap aligned region0 v2
    call fn0(v3)
    return
}
";
    assert_eq!(&rt; text.as_str(), wanted);
    Ok(())
}

#[test]
fn in_the_order_of_insertion(rt: HostRuntime) -> Result<(), Fail> {
    let text = text_by(&rt, rt.alloc(), &counting(rt.alloc(), true)?)?;
    let wanted = "function %sample() system_v {
    ss0 = explicit_slot 4, align = 4
    sig0 = (i32) system_v
    fn0 = %g sig0

block0:
    v0 = iconst.i32 0
    v11 = stack_addr.i64 ss0
    store notrap aligned region5 v0, v11  ; v0 = 0
    v9 = stack_addr.i64 ss0
    v10 = load.i32 notrap aligned region4 v9
    call fn0(v10), stack_map=[i32 @ ss0+0]
    v7 = stack_addr.i64 ss0
    v8 = load.i32 notrap aligned region3 v7
    call fn0(v8)
    v1 = iconst.i32 1
    v6 = stack_addr.i64 ss0
    store notrap aligned region2 v1, v6  ; v1 = 1
    v4 = stack_addr.i64 ss0
    v5 = load.i32 notrap aligned region1 v4
    call fn0(v5), stack_map=[i32 @ ss0+0]
    v2 = stack_addr.i64 ss0
    v3 = load.i32 notrap aligned region0 v2
    call fn0(v3)
    return
}
";
    assert_eq!(&rt; text.as_str(), wanted);
    Ok(())
}

#[test]
fn every_second_call(rt: HostRuntime) -> Result<(), Fail> {
    let text = text_by(&rt, rt.alloc(), &counting(rt.alloc(), false)?)?;
    let wanted = "function %sample() system_v {
    ss0 = explicit_slot 4, align = 4
    sig0 = (i32) system_v
    fn0 = %g sig0

block0:
    v0 = iconst.i32 0
    v11 = stack_addr.i64 ss0
    store notrap aligned v0, v11  ; v0 = 0
    v9 = stack_addr.i64 ss0
    v10 = load.i32 notrap aligned region4 v9
    call fn0(v10), stack_map=[i32 @ ss0+0]
    v7 = stack_addr.i64 ss0
    v8 = load.i32 notrap aligned v7
    call fn0(v8)
    v1 = iconst.i32 1
    v6 = stack_addr.i64 ss0
    store notrap aligned region2 v1, v6  ; v1 = 1
    v4 = stack_addr.i64 ss0
    v5 = load.i32 notrap aligned v4
    call fn0(v5), stack_map=[i32 @ ss0+0]
    v2 = stack_addr.i64 ss0
    v3 = load.i32 notrap aligned region0 v2
    call fn0(v3)
    return
}
";
    assert_eq!(&rt; text.as_str(), wanted);
    Ok(())
}

#[test]
fn a_region_that_is_not_there(rt: HostRuntime) -> Result<(), Fail> {
    let text = text_by(&rt, rt.alloc(), &far(rt.alloc())?)?;
    let wanted = "function %sample() system_v {
    ss0 = explicit_slot 4, align = 4
    sig0 = (i32) system_v
    fn0 = %g sig0

block0:
    v0 = iconst.i32 0
    v11 = stack_addr.i64 ss0
    store notrap aligned region99 v0, v11  ; v0 = 0
    v9 = stack_addr.i64 ss0
    v10 = load.i32 notrap aligned region99 v9
    call fn0(v10), stack_map=[i32 @ ss0+0]
    v7 = stack_addr.i64 ss0
    v8 = load.i32 notrap aligned region99 v7
    call fn0(v8)
    v1 = iconst.i32 1
    v6 = stack_addr.i64 ss0
    store notrap aligned region99 v1, v6  ; v1 = 1
    v4 = stack_addr.i64 ss0
    v5 = load.i32 notrap aligned region99 v4
    call fn0(v5), stack_map=[i32 @ ss0+0]
    v2 = stack_addr.i64 ss0
    v3 = load.i32 notrap aligned region99 v2
    call fn0(v3)
    return
}
";
    assert_eq!(&rt; text.as_str(), wanted);
    Ok(())
}

#[test]
fn regions_without_answers(rt: HostRuntime) -> Result<(), Fail> {
    let text = text_by(&rt, rt.alloc(), &interning(rt.alloc())?)?;
    let wanted = "function %sample() system_v {
    ss0 = explicit_slot 4, align = 4
    region0 = user 0
    sig0 = (i32) system_v
    fn0 = %g sig0

block0:
    v0 = iconst.i32 0
    v11 = stack_addr.i64 ss0
    store notrap aligned v0, v11  ; v0 = 0
    v9 = stack_addr.i64 ss0
    v10 = load.i32 notrap aligned v9
    call fn0(v10), stack_map=[i32 @ ss0+0]
    v7 = stack_addr.i64 ss0
    v8 = load.i32 notrap aligned v7
    call fn0(v8)
    v1 = iconst.i32 1
    v6 = stack_addr.i64 ss0
    store notrap aligned v1, v6  ; v1 = 1
    v4 = stack_addr.i64 ss0
    v5 = load.i32 notrap aligned v4
    call fn0(v5), stack_map=[i32 @ ss0+0]
    v2 = stack_addr.i64 ss0
    v3 = load.i32 notrap aligned v2
    call fn0(v3)
    return
}
";
    assert_eq!(&rt; text.as_str(), wanted);
    Ok(())
}

#[test]
fn no_regions(rt: HostRuntime) -> Result<(), Fail> {
    let text = text_by(&rt, rt.alloc(), &silent(rt.alloc())?)?;
    let unasked = made_by(&rt, rt.alloc(), SAMPLE, CASES[0].steps, "slot_reuse")?;
    let wanted = format!(in rt.alloc(); "{}", unasked.display())?;
    assert_eq!(&rt; text.as_str(), wanted.as_str());
    Ok(())
}
