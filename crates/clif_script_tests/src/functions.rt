//! What functions of scripts hold that isn't printed: labels, source places and types.
#![tactic(auto)]

use crate::notes;
use crate::support::{function_of, row_of};
use clif_check::{CheckErrorKind, check};
use clif_ir::Function;
use clif_types::{EntityRef, Inst, SourceLoc, Value};
use std::process::Abort;
use std::test::Fail;

// Asserts the labels of a value: the source place of each, and its number.
fn has_labels(rt: &impl Abort, func: &Function, number: usize, labels: &[(u32, u32)]) {
    assert!(rt; number < func.value_count());
    let kept = func.value_labels(Value::new(number));
    assert!(rt; kept.len() == labels.len());
    for (start, (place, label)) in kept.iter().zip(labels.iter()) {
        assert!(rt; start.from == SourceLoc::new(*place) && start.label.as_u32() == *label);
    }
}

/// Labels are kept from `collect_debug_info` on, in the order of the calls, each with the source place that was set last. An
/// instruction has that place, also one that is made through the cursor.
#[test]
fn labels_and_places(rt: HostRuntime) -> Result<(), Fail> {
    let func = function_of(rt.alloc(), notes::SCRIPT)?;
    has_labels(&rt, &func, 0, &[(0xffff_ffff, 6), (7, 4), (0xffff_ffff, 6)]);
    has_labels(&rt, &func, 1, &[]);
    let places = [0xffff_ffff, 7, 0xffff_ffff, 0xffff_ffff];
    assert!(rt; func.inst_count() == places.len());
    for (number, place) in places.iter().enumerate() {
        assert!(rt; number < func.inst_count());
        assert!(rt; func.srcloc(Inst::new(number)) == SourceLoc::new(*place));
    }
    Ok(())
}

/// The row `memcpy` returns an I64 where an I32 is wanted.
#[test]
fn checked(rt: HostRuntime) -> Result<(), Fail> {
    let func = function_of(rt.alloc(), row_of("memcpy")?)?;
    match check(&func) {
        Ok(()) => Err("the function is well typed")?,
        Err(error) => {
            assert!(rt; error.inst.index() == 1);
            assert!(rt; matches!(error.kind, CheckErrorKind::Return));
        }
    }
    Ok(())
}
