//! Functions that are built call by call, and what is asked on the way.
#![tactic(auto)]

use crate::calls::built::{builds, finishes, plain};
use crate::calls::queries::Query::{
    Current, Failed, Filled, LaidOut, Leads, Params, Place as PlaceNow, Pristine, Reached, Sealed,
    Unreachable,
};
use crate::calls::steps::Deed::{
    Auxiliary, Branch, Change, Create, End, Return, Seal, SealAll, Shaped, Switch,
};
use crate::calls::steps::Entry::{DynamicSlot, Function, GlobalContext, Signature, Slot};
use crate::calls::steps::Note::{CollectLabels, Label, Place};
use crate::calls::steps::Operand::{AtCursor, ByDouble, Constant, DoubleAtCursor, Param, Read};
use crate::calls::steps::Step::{Do, Enter, Has, Is, Isnt, Make, Note};
use crate::calls::steps::Trait::{Labels, Place as PlaceOf};
use crate::calls::steps::{Deed, Step};
use clif_types::types::I32;
use cranelift_frontend::{Block, FinalizeError};
use std::test::Fail;

const QUERIES: [Step; 23] = [
    Do(Create),
    Is(Pristine(0)),
    Isnt(Filled(0)),
    Do(Switch(0)),
    Make(Constant(I32, 1)),
    Isnt(Pristine(0)),
    Isnt(Filled(0)),
    Do(Return(0)),
    Is(Filled(0)),
    Isnt(Unreachable),
    Do(Create),
    Is(Params(1, 0)),
    Make(Param(1, I32)),
    Is(Params(1, 1)),
    Do(Switch(1)),
    Isnt(Unreachable),
    Isnt(Sealed(1)),
    Do(Seal(1)),
    Is(Sealed(1)),
    Isnt(Sealed(0)),
    Is(Current(1)),
    Is(Unreachable),
    Isnt(Failed),
];

/// The queries answer as expected on the way: nothing leads to the second block once it is sealed.
#[test]
fn queries(rt: HostRuntime) -> Result<(), Fail> {
    let unsealed = FinalizeError::Unsealed(Block::from_u32(0));
    let parts = [QUERIES.as_slice()];
    finishes(&rt, rt.alloc(), plain("queries"), &parts, Err(unsealed))
}

const SHAPED: [Step; 6] = [
    Do(Create),
    Do(Switch(0)),
    Do(Shaped(5)),
    Do(Auxiliary(6)),
    Do(End),
    Do(SealAll),
];

/// Instructions of any shape, and the text of them.
#[test]
fn built_by_shape(rt: HostRuntime) -> Result<(), Fail> {
    let text =
        "function %shape() -> i32 system_v {\nblock0:\n    v0 = iconst.i32 5\n    v1 = iconst.i32 6\n    return\n}\n";
    builds(&rt, rt.alloc(), plain("shape"), &SHAPED, text)
}

const GENERIC: [Step; 6] = [
    Do(Create),
    Do(Switch(0)),
    Make(Constant(I32, 5)),
    Make(ByDouble(0)),
    Do(Return(1)),
    Do(SealAll),
];

/// A generic caller makes two instructions, of which the second names the first.
#[test]
fn built_by_a_generic_caller(rt: HostRuntime) -> Result<(), Fail> {
    let text =
        "function %generic() -> i32 system_v {\nblock0:\n    v0 = iconst.i32 5\n    v1 = iadd v0, v0  ; v0 = 5, v0 = 5\n    v2 = isub v1, v0  ; v0 = 5\n    return v2\n}\n";
    builds(&rt, rt.alloc(), plain("generic"), &GENERIC, text)
}

const CHANGED: [Step; 18] = [
    Do(Create),
    Do(Create),
    Do(Create),
    Do(Switch(0)),
    Make(Constant(I32, 1)),
    Do(Branch(0, 1, 1)),
    Is(Leads(1)),
    Is(Reached(1)),
    Isnt(Reached(0)),
    Do(Change(1, 2)),
    Is(Leads(2)),
    Isnt(Leads(1)),
    Isnt(Reached(1)),
    Is(Reached(2)),
    Do(Seal(2)),
    Do(Switch(2)),
    Do(Return(0)),
    Do(SealAll),
];

/// The row `change_both`: both arms of a branch lead to the block that is changed.
#[test]
fn both_arms_change(rt: HostRuntime) -> Result<(), Fail> {
    let text =
        "function %change_both() -> i32 system_v {\nblock0:\n    v0 = iconst.i32 1\n    brif v0, block2, block2  ; v0 = 1\n\nblock2:\n    return v0  ; v0 = 1\n}\n";
    builds(&rt, rt.alloc(), plain("change_both"), &CHANGED, text)
}

const AT_CURSOR: [Step; 8] = [
    Do(Create),
    Do(Switch(0)),
    Do(Seal(0)),
    Isnt(LaidOut(0)),
    Make(AtCursor(5)),
    Is(LaidOut(0)),
    Make(DoubleAtCursor(0)),
    Do(Return(1)),
];

/// The cursor appends to the current block, which enters the layout with the first instruction.
#[test]
fn by_the_cursor(rt: HostRuntime) -> Result<(), Fail> {
    let text =
        "function %cursor() -> i32 system_v {\nblock0:\n    v0 = iconst.i32 5\n    v1 = iadd v0, v0  ; v0 = 5, v0 = 5\n    return v1\n}\n";
    builds(&rt, rt.alloc(), plain("cursor"), &AT_CURSOR, text)
}

const ENTRIES: [Step; 5] = [
    Enter(Signature(&[I32], &[])),
    Enter(Function("g", 0)),
    Enter(Slot),
    Enter(DynamicSlot),
    Enter(GlobalContext),
];

/// The lines of the tables stand before the blocks, and an empty line behind them, also where there is no block.
#[test]
fn lines_of_tables(rt: HostRuntime) -> Result<(), Fail> {
    let text =
        "function %tables() -> i32 system_v {\n    ss0 = explicit_slot 4, align = 4\n    dss0 = explicit_dynamic_slot dt0\n    gv0 = vmctx\n    sig0 = (i32) system_v\n    fn0 = %g sig0\n\n}\n";
    builds(&rt, rt.alloc(), plain("tables"), &ENTRIES, text)
}

const LABELLED: [Step; 16] = [
    Do(Create),
    Do(Switch(0)),
    Do(Seal(0)),
    Make(Constant(I32, 1)),
    Make(Constant(I32, 2)),
    Note(Label(0, 5)),
    Has(0, Labels(&[])),
    Note(CollectLabels),
    Note(Label(0, 6)),
    Note(Place(7)),
    Note(Label(0, 4)),
    Note(CollectLabels),
    Note(Label(0, 6)),
    Has(0, Labels(&[(0xffff_ffff, 6), (7, 4), (7, 6)])),
    Has(1, Labels(&[])),
    Do(Return(1)),
];

/// Labels are kept from `collect_debug_info` on, in the order of the calls, each with the source place that was current.
#[test]
fn labels_of_values(rt: HostRuntime) -> Result<(), Fail> {
    let parts = [LABELLED.as_slice()];
    finishes(&rt, rt.alloc(), plain("labels"), &parts, Ok(()))
}

const PLACED: [Step; 15] = [
    Do(Create),
    Do(Switch(0)),
    Do(Seal(0)),
    Is(PlaceNow(0xffff_ffff)),
    Make(Constant(I32, 1)),
    Note(Place(7)),
    Make(Constant(I32, 2)),
    Do(Deed::Declare(0, I32)),
    Make(Read(0)),
    Note(Place(9)),
    Is(PlaceNow(9)),
    Has(0, PlaceOf(0xffff_ffff)),
    Has(1, PlaceOf(7)),
    Has(2, PlaceOf(0xffff_ffff)),
    Do(Return(1)),
];

/// An instruction has the place that was set last before it was made; a zero that the builder makes has none.
#[test]
fn source_places(rt: HostRuntime) -> Result<(), Fail> {
    let parts = [PLACED.as_slice()];
    finishes(&rt, rt.alloc(), plain("places"), &parts, Ok(()))
}
