//! How long a context has a callback for alias regions, and where it isn't asked.
#![tactic(auto)]

ghost use Rattle.std.specs.Prelude.{IfSome};
ghost use Rattle.clif_builder.specs.Clear.{IsClear};

use crate::calls::built::{Kept, keeps_unasked};
use crate::calls::stack_maps::kept::{FAILED, NOTHING_LIVE, NOTHING_RECORDED, UNFILLED, UNSEALED};
use crate::calls::stack_maps::regions::FAR_REGION;
use crate::calls::stack_maps::rows::SLOT_REUSE;
use crate::calls::stack_maps::tally::Tally;
use crate::calls::steps::take_all;
use crate::fixture::{CONFIG, function, signature};
use cranelift_frontend::{
    AliasRegion, AliasRegionSet, Block, FinalizeError, FunctionBuilder, FunctionBuilderContext,
    RegionOf, StackSlot, Type,
};
use std::alloc::Global;
use std::fmt::Write;
use std::process::Abort;
use std::rc::Rc;
use std::test::Fail;

// The building ends with this answer and the function stays as it was built. The callback isn't asked, and is dropped.
fn unasked(
    rt: &impl Abort,
    alloc: Global,
    kept: &Kept<'_>,
    answer: Result<(), FinalizeError>,
) -> Result<(), Fail> {
    let tally = Rc::new(alloc, Tally::new())?;
    let counted = tally.clone()?;
    let ask: RegionOf = Box::new(
        alloc,
        move |_set: &mut AliasRegionSet, ty: Type, slot: StackSlot, offset: u32| -> Option<
            AliasRegion,
        > {
            counted.count(ty, slot, offset);
            None
        },
    )?;
    keeps_unasked(rt, alloc, kept, ask, answer)?;
    assert_eq!(rt; tally.calls(), 0);
    assert_eq!(rt; Rc::strong_count(&tally), 1);
    Ok(())
}

/// Each refusal of `finalize` drops the callback.
#[test]
fn refused(rt: HostRuntime) -> Result<(), Fail> {
    let block = Block::from_u32(0);
    unasked(
        &rt,
        rt.alloc(),
        &UNSEALED,
        Err(FinalizeError::Unsealed(block)),
    )?;
    unasked(
        &rt,
        rt.alloc(),
        &UNFILLED,
        Err(FinalizeError::Unfilled(block)),
    )?;
    unasked(&rt, rt.alloc(), &FAILED, Err(FinalizeError::Failed))
}

/// Where nothing is recorded, or nothing that is live across a call, there is no access to ask for.
#[test]
fn nothing_to_ask(rt: HostRuntime) -> Result<(), Fail> {
    unasked(&rt, rt.alloc(), &NOTHING_RECORDED, Ok(()))?;
    unasked(&rt, rt.alloc(), &NOTHING_LIVE, Ok(()))
}

// A builder that makes nothing and is dropped without `finalize`. The callback, if there is one, is registered with it.
fn abandon(
    alloc: Global,
    ctx: &mut FunctionBuilderContext,
    ask: Option<RegionOf>,
) -> Result<(), Fail>
    requires empty { IsClear ctx.old }
    requires callable { IfSome ask RegionOf.IsAlwaysCallable }
{
    let signature = signature(alloc, &[], &[])?;
    let mut func = function(alloc, None, signature)?;
    let mut builder = FunctionBuilder::new(&mut func, ctx);
    if let Some(ask) = ask {
        builder.make_stack_map_alias_region(ask);
    }
    Ok(())
}

// A builder that was only given a callback leaves it in the context, which isn't empty then. One that was given nothing leaves the
// context empty.
fn leaves(rt: &impl Abort, alloc: Global, ask: RegionOf, owners: &Rc<Tally>) -> Result<(), Fail>
    requires { RegionOf.IsAlwaysCallable ask }
{
    let mut ctx = FunctionBuilderContext::new(alloc);
    abandon(alloc, &mut ctx, None)?;
    assert!(rt; ctx.is_empty());
    abandon(alloc, &mut ctx, Some(ask))?;
    assert!(rt; !ctx.is_empty());
    assert_eq!(rt; Rc::strong_count(owners), 2);
    Ok(())
}

/// A callback stays in the context where the builder is dropped, and as long as the context does.
#[test]
fn left_in_context(rt: HostRuntime) -> Result<(), Fail> {
    let alloc = rt.alloc();
    let tally = Rc::new(alloc, Tally::new())?;
    let counted = tally.clone()?;
    let ask: RegionOf = Box::new(
        alloc,
        move |_set: &mut AliasRegionSet, ty: Type, slot: StackSlot, offset: u32| -> Option<
            AliasRegion,
        > {
            counted.count(ty, slot, offset);
            None
        },
    )?;
    leaves(&rt, alloc, ask, &tally)?;
    assert_eq!(&rt; Rc::strong_count(&tally), 1);
    Ok(())
}

// The row `slot_reuse` is built, with the first callback from the beginning on and the second one from just before the end. The
// first one is dropped then, and the second one is asked.
fn replaces(
    rt: &impl Abort,
    alloc: Global,
    first: RegionOf,
    second: RegionOf,
    owners: &Rc<Tally>,
) -> Result<(), Fail>
    requires first { RegionOf.IsAlwaysCallable first }
    requires second { RegionOf.IsAlwaysCallable second }
{
    let mut ctx = FunctionBuilderContext::new(alloc);
    let signature = signature(alloc, &[], &[])?;
    let mut func = function(alloc, SLOT_REUSE.header.name, signature)?;
    let mut builder = FunctionBuilder::new(&mut func, &mut ctx);
    builder.make_stack_map_alias_region(first);
    take_all(rt, alloc, &mut builder, &[SLOT_REUSE.steps])?;
    assert_eq!(rt; Rc::strong_count(owners), 2);
    builder.make_stack_map_alias_region(second);
    assert_eq!(rt; Rc::strong_count(owners), 1);
    let answer = builder.finalize(CONFIG);
    assert!(rt; answer == Ok(()));
    assert!(rt; ctx.is_empty());
    let text = format!(in alloc; "{}", func.display())?;
    assert_eq!(rt; text.as_str(), FAR_REGION);
    Ok(())
}

/// A second callback replaces the first one, which is never asked.
#[test]
fn replaced(rt: HostRuntime) -> Result<(), Fail> {
    let alloc = rt.alloc();
    let tally = Rc::new(alloc, Tally::new())?;
    let counted = tally.clone()?;
    let first: RegionOf = Box::new(
        alloc,
        move |_set: &mut AliasRegionSet, ty: Type, slot: StackSlot, offset: u32| -> Option<
            AliasRegion,
        > {
            counted.count(ty, slot, offset);
            None
        },
    )?;
    let second: RegionOf = Box::new(
        alloc,
        |_set: &mut AliasRegionSet, _ty: Type, _slot: StackSlot, _offset: u32| -> Option<
            AliasRegion,
        > { Some(AliasRegion::from_u32(99)) },
    )?;
    replaces(&rt, alloc, first, second, &tally)?;
    assert_eq!(&rt; tally.calls(), 0);
    Ok(())
}
