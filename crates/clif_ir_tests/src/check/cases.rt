//! What the check finds in functions that are made by tables of steps.
#![tactic(auto)]

use crate::steps::{Head, Step, made_by};
use clif_check::{CheckErrorKind, check};
use clif_types::{CallConv, EntityRef, Type};
use std::alloc::Global;
use std::process::Abort;
use std::test::Fail;

/// What is tested, the types that a function returns, the steps that make it, and what the check finds: the number of an
/// instruction and the kind of its error, or nothing.
pub type Case = (
    &'static str,
    &'static [Type],
    &'static [Step<'static>],
    Option<(u32, CheckErrorKind)>,
);

/// Asserts what the check finds in each case.
pub fn finds_each(rt: &impl Abort, alloc: Global, cases: &[Case]) -> Result<(), Fail> {
    for (case, returns, steps, expected) in cases.iter() {
        finds(rt, alloc, case, returns, steps, *expected)?;
    }
    Ok(())
}

/// Asserts what the check finds in the function that the steps make, which returns these types: the number of an
/// instruction and the kind of its error, or nothing.
pub fn finds(
    rt: &impl Abort,
    alloc: Global,
    case: &str,
    returns: &'static [Type],
    steps: &[Step<'_>],
    expected: Option<(u32, CheckErrorKind)>,
) -> Result<(), Fail> {
    let head = Head::Named("t", &[], returns, CallConv::SystemV);
    let func = made_by(rt, alloc, head, steps, case)?;
    let found = match check(&func) {
        Ok(()) => None,
        Err(error) => Some((error.inst.as_u32(), error.kind)),
    };
    assert!(rt; found == expected, "{case}");
    Ok(())
}
