//! The labels of values, which are kept once they are collected.
#![tactic(auto)]

use crate::support::{below_1000, v};
use Step::{Collect, Has, Set};
use clif_tables::{Tables, ValueLabelStart};
use clif_types::{EntityRef, SourceLoc, ValueLabel};
use std::process::Abort;
use std::test::Fail;

// A label, and where it begins.
fn start(rt: &impl Abort, from: u32, label: u32) -> ValueLabelStart {
    ValueLabelStart {
        from: SourceLoc::new(from),
        label: ValueLabel::from_u32(below_1000(rt, label)),
    }
}

// A step, where values, places and labels are named by their numbers.
enum Step {
    // Collects labels from here on.
    Collect,
    // Gives a value a label from a place on.
    Set(u32, u32, u32),
    // Finds the labels of a value, each with the place where it begins.
    Has(u32, &'static [(u32, u32)]),
}

const STEPS: [Step; 21] = [
    // A label that is set before labels are collected isn't kept, nor is it afterwards.
    Set(1, 10, 0),
    Has(1, &[]),
    Collect,
    Has(1, &[]),
    // The labels of v4, in the order of the calls; between them v1 gets one.
    Set(4, 12, 1),
    Set(1, 11, 2),
    Set(4, 10, 3),
    Set(4, 12, 1),
    Has(1, &[(11, 2)]),
    Has(4, &[(12, 1), (10, 3), (12, 1)]),
    Has(0, &[]),
    Has(3, &[]),
    Has(5, &[]),
    // Labels go on being kept where they are collected once more.
    Collect,
    Has(1, &[(11, 2)]),
    Has(4, &[(12, 1), (10, 3), (12, 1)]),
    Has(0, &[]),
    Has(3, &[]),
    Has(5, &[]),
    Set(1, 9, 5),
    Has(1, &[(11, 2), (9, 5)]),
];

// Asserts the labels of a value.
fn has_labels(rt: &impl Abort, found: &[ValueLabelStart], expected: &[(u32, u32)]) {
    assert!(rt; found.len() == expected.len());
    for (found, (from, label)) in found.iter().zip(expected) {
        assert!(rt; *found == start(rt, *from, *label));
    }
}

#[test]
fn labels(rt: HostRuntime) -> Result<(), Fail> {
    let mut tables = Tables::new(rt.alloc());
    for step in STEPS.iter() {
        match step {
            Collect => tables.collect_debug_info(),
            Set(number, from, label) => {
                tables.set_val_label(v(&rt, *number), start(&rt, *from, *label))?;
            }
            Has(number, expected) => {
                has_labels(&rt, tables.value_labels(v(&rt, *number)), expected);
            }
        }
    }
    Ok(())
}
