//! Functions that are built by lists of steps: how their building ends, and their texts.
#![tactic(auto)]

ghost use Rattle.std.specs.Prelude.{◌≡◌, IfSome};

use crate::calls::marks;
use crate::calls::steps::{Step, take_all};
use crate::fixture::{CONFIG, function, signature};
use clif_types::types::I32;
use cranelift_frontend::{
    FinalizeError, Function, FunctionBuilder, FunctionBuilderContext, RegionOf, Type,
};
use std::alloc::Global;
use std::fmt::Write;
use std::process::Abort;
use std::test::Fail;

/// The name of a function, and the types that it takes and returns.
#[derive(Clone, Copy)]
pub struct Header {
    /// The text of the name. Without one it is `u0:0`.
    pub name: Option<&'static str>,
    pub params: &'static [Type],
    pub returns: &'static [Type],
    /// The type of its first variable, where it has one that stack maps need.
    pub marked: Option<Type>,
}

/// The header of a function that takes nothing and returns an I32.
pub const fn plain(name: &'static str) -> Header {
    typed(name, &[], &[I32])
}

/// The header of a function of these types.
pub const fn typed(
    name: &'static str,
    params: &'static [Type],
    returns: &'static [Type],
) -> Header {
    Header {
        name: Some(name),
        params,
        returns,
        marked: None,
    }
}

// What was built: the text before `finalize`, its answer, and the text after it.
#[derive(Drop)]
struct Built {
    before: String,
    answer: Result<(), FinalizeError>,
    text: String,
}

// The text of a function.
fn text_of(alloc: Global, func: &Function) -> Result<String, Fail> {
    Ok(format!(in alloc; "{}", func.display())?)
}

// Registers a callback for alias regions, if there is one.
fn register(builder: &mut FunctionBuilder<'_>, ask: Option<RegionOf>)
    requires { IfSome ask RegionOf.IsAlwaysCallable }
    ensures { builder.new.ctx.now.parts ≡ builder.old.ctx.now.parts }
{
    if let Some(ask) = ask {
        builder.make_stack_map_alias_region(ask);
    }
}

// What the parts of a list of steps build with a context, which is empty before and afterwards. The callback for alias regions, if
// there is one, is registered first.
fn built_with(
    rt: &impl Abort,
    alloc: Global,
    ctx: &mut FunctionBuilderContext,
    header: Header,
    parts: &[&[Step]],
    ask: Option<RegionOf>,
) -> Result<Built, Fail>
    requires { IfSome ask RegionOf.IsAlwaysCallable }
{
    assert!(rt; ctx.is_empty());
    let signature = signature(alloc, header.params, header.returns)?;
    let mut func = function(alloc, header.name, signature)?;
    let mut builder = FunctionBuilder::new(&mut func, ctx);
    register(&mut builder, ask);
    if let Some(ty) = header.marked {
        marks::declare_marked(rt, &mut builder, ty);
    }
    take_all(rt, alloc, &mut builder, parts)?;
    let before = text_of(alloc, builder.func())?;
    let answer = builder.finalize(CONFIG);
    assert!(rt; ctx.is_empty());
    let text = text_of(alloc, &func)?;
    Ok(Built {
        before,
        answer,
        text,
    })
}

/// The building ends with this answer.
pub fn finishes(
    rt: &impl Abort,
    alloc: Global,
    header: Header,
    parts: &[&[Step]],
    answer: Result<(), FinalizeError>,
) -> Result<(), Fail> {
    let mut ctx = FunctionBuilderContext::new(alloc);
    let built = built_with(rt, alloc, &mut ctx, header, parts, None)?;
    assert!(rt; built.answer == answer);
    Ok(())
}

// The building with a context ends with this answer, and the function has this text.
fn ends_with(
    rt: &impl Abort,
    alloc: Global,
    ctx: &mut FunctionBuilderContext,
    header: Header,
    parts: &[&[Step]],
    answer: Result<(), FinalizeError>,
    text: &str,
) -> Result<(), Fail> {
    let built = built_with(rt, alloc, ctx, header, parts, None)?;
    assert!(rt; built.answer == answer);
    assert_eq!(rt; built.text.as_str(), text);
    Ok(())
}

/// The building ends with this answer, and the function has this text.
pub fn ends(
    rt: &impl Abort,
    alloc: Global,
    header: Header,
    parts: &[&[Step]],
    answer: Result<(), FinalizeError>,
    text: &str,
) -> Result<(), Fail> {
    let mut ctx = FunctionBuilderContext::new(alloc);
    ends_with(rt, alloc, &mut ctx, header, parts, answer, text)
}

/// The steps give a finished function of this text.
pub fn builds(
    rt: &impl Abort,
    alloc: Global,
    header: Header,
    steps: &[Step],
    text: &str,
) -> Result<(), Fail> {
    ends(rt, alloc, header, &[steps], Ok(()), text)
}

/// A function that is finished.
#[derive(Clone, Copy)]
pub struct Row {
    pub header: Header,
    pub steps: &'static [Step],
    pub text: &'static str,
}

// A row is built with a context.
fn builds_row(
    rt: &impl Abort,
    alloc: Global,
    ctx: &mut FunctionBuilderContext,
    row: &Row,
) -> Result<(), Fail> {
    ends_with(rt, alloc, ctx, row.header, &[row.steps], Ok(()), row.text)
}

// A row is built with a context where this callback is asked, and has this text.
fn asks_with(
    rt: &impl Abort,
    alloc: Global,
    ctx: &mut FunctionBuilderContext,
    row: &Row,
    ask: RegionOf,
    text: &str,
) -> Result<(), Fail>
    requires { RegionOf.IsAlwaysCallable ask }
{
    let built = built_with(rt, alloc, ctx, row.header, &[row.steps], Some(ask))?;
    assert!(rt; built.answer == Ok(()));
    assert_eq!(rt; built.text.as_str(), text);
    Ok(())
}

/// A row is built where this callback is asked, and has this text. Then it is built with the same context and no callback, and
/// has its own text.
pub fn asks(
    rt: &impl Abort,
    alloc: Global,
    row: &Row,
    ask: RegionOf,
    text: &str,
) -> Result<(), Fail>
    requires { RegionOf.IsAlwaysCallable ask }
{
    let mut ctx = FunctionBuilderContext::new(alloc);
    asks_with(rt, alloc, &mut ctx, row, ask, text)?;
    builds_row(rt, alloc, &mut ctx, row)
}

/// Each row is built, one after the other with one context.
pub fn builds_in_turn(rt: &impl Abort, alloc: Global, rows: &[&Row]) -> Result<(), Fail> {
    let mut ctx = FunctionBuilderContext::new(alloc);
    for row in rows {
        builds_row(rt, alloc, &mut ctx, row)?;
    }
    Ok(())
}

/// A function that `finalize` leaves as it was built.
#[derive(Clone, Copy)]
pub struct Kept<'a> {
    pub header: Header,
    pub parts: &'a [&'a [Step]],
    pub text: &'a str,
}

// The building with a context ends with this answer, and the function is the one that was built. The callback for alias regions,
// if there is one, is registered first.
fn keeps(
    rt: &impl Abort,
    alloc: Global,
    ctx: &mut FunctionBuilderContext,
    kept: &Kept<'_>,
    ask: Option<RegionOf>,
    answer: Result<(), FinalizeError>,
) -> Result<(), Fail>
    requires { IfSome ask RegionOf.IsAlwaysCallable }
{
    let built = built_with(rt, alloc, ctx, kept.header, kept.parts, ask)?;
    assert!(rt; built.answer == answer);
    assert_eq!(rt; built.before.as_str(), kept.text);
    assert_eq!(rt; built.text.as_str(), kept.text);
    Ok(())
}

/// The building ends with this answer, and the function is the one that was built. Its context serves for a row before and
/// afterwards.
pub fn keeps_between(
    rt: &impl Abort,
    alloc: Global,
    kept: &Kept<'_>,
    answer: Result<(), FinalizeError>,
    row: &Row,
) -> Result<(), Fail> {
    let mut ctx = FunctionBuilderContext::new(alloc);
    builds_row(rt, alloc, &mut ctx, row)?;
    keeps(rt, alloc, &mut ctx, kept, None, answer)?;
    builds_row(rt, alloc, &mut ctx, row)
}

/// The building, for which this callback is registered, ends with this answer, and the function is the one that was built.
pub fn keeps_unasked(
    rt: &impl Abort,
    alloc: Global,
    kept: &Kept<'_>,
    ask: RegionOf,
    answer: Result<(), FinalizeError>,
) -> Result<(), Fail>
    requires { RegionOf.IsAlwaysCallable ask }
{
    let mut ctx = FunctionBuilderContext::new(alloc);
    keeps(rt, alloc, &mut ctx, kept, Some(ask), answer)
}
