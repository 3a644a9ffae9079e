//! What several tests use: the texts of values.
#![tactic(auto)]

use clif_types::call_conv::CallConv;
use clif_types::condcodes::IntCC;
use clif_types::error::BuildError;
use clif_types::libcall::LibCall;
use clif_types::memflags::MemFlagsData;
use clif_types::stackmap::UserStackMapEntry;
use clif_types::stackslot::{DynamicStackSlotData, StackSlotData};
use clif_types::trapcode::TrapCode;
use clif_types::types::{LaneType, Type};
use std::alloc::Global;
use std::fmt::{Debug, Display};
use std::process::Abort;
use std::test::Fail;

/// A value with a text.
#[derive(Clone, Copy)]
pub enum Datum {
    CallConv(CallConv),
    TrapCode(TrapCode),
    LibCall(LibCall),
    BuildError(BuildError),
    StackSlot(StackSlotData),
    DynamicStackSlot(DynamicStackSlotData),
    StackMapEntry(UserStackMapEntry),
    MemFlags(MemFlagsData),
    Condition(IntCC),
    Type(Type),
    /// The same, by its `Debug`.
    DebugType(Type),
    LaneType(LaneType),
}

/// Asserts the text of a value.
pub fn prints<T: Display>(
    rt: &impl Abort,
    alloc: Global,
    value: &T,
    text: &str,
) -> Result<(), Fail> {
    let found = format!(in alloc; "{value}")?;
    assert!(rt; found.as_str() == text);
    Ok(())
}

/// Asserts the text of a value by its `Debug`.
pub fn debugs<T: Debug>(rt: &impl Abort, alloc: Global, value: &T, text: &str) -> Result<(), Fail> {
    let found = format!(in alloc; "{value:?}")?;
    assert!(rt; found.as_str() == text);
    Ok(())
}

/// Asserts the text of a value, and of its copy.
pub fn copies<T: Display + Clone>(
    rt: &impl Abort,
    alloc: Global,
    value: T,
    text: &str,
) -> Result<(), Fail> {
    prints(rt, alloc, &value, text)?;
    prints(rt, alloc, &value.clone()?, text)
}

/// Asserts the text of a datum.
pub fn shows(rt: &impl Abort, alloc: Global, datum: Datum, text: &str) -> Result<(), Fail> {
    match datum {
        Datum::CallConv(value) => prints(rt, alloc, &value, text),
        Datum::TrapCode(value) => prints(rt, alloc, &value, text),
        Datum::LibCall(value) => prints(rt, alloc, &value, text),
        Datum::BuildError(value) => prints(rt, alloc, &value, text),
        Datum::StackSlot(value) => prints(rt, alloc, &value, text),
        Datum::DynamicStackSlot(value) => prints(rt, alloc, &value, text),
        Datum::StackMapEntry(value) => prints(rt, alloc, &value, text),
        Datum::MemFlags(value) => prints(rt, alloc, &value, text),
        Datum::Condition(value) => prints(rt, alloc, &value, text),
        Datum::Type(value) => prints(rt, alloc, &value, text),
        Datum::DebugType(value) => debugs(rt, alloc, &value, text),
        Datum::LaneType(value) => prints(rt, alloc, &value, text),
    }
}

/// Asserts the texts of data.
pub fn all_show(rt: &impl Abort, alloc: Global, rows: &[(Datum, &str)]) -> Result<(), Fail> {
    for (datum, text) in rows {
        shows(rt, alloc, *datum, text)?;
    }
    Ok(())
}
