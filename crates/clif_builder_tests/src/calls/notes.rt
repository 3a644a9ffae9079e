//! Source places, labels, and marks for stack maps.
#![tactic(auto)]

ghost use Rattle.clif_builder.specs.Marks.{ValueFits};

use crate::asserted::asserts_value;
use cranelift_frontend::{FunctionBuilder, SourceLoc, Value, ValueLabel};
use std::process::Abort;

/// Sets the source place.
pub fn set_place(builder: &mut FunctionBuilder<'_>, place: u32) {
    builder.set_srcloc(SourceLoc::new(place));
}

/// Has labels be kept.
pub fn collect(builder: &mut FunctionBuilder<'_>) {
    builder.collect_debug_info();
}

/// Gives a value a label.
pub fn label(rt: &impl Abort, builder: &mut FunctionBuilder<'_>, value: Value, number: u32) {
    asserts_value(rt, builder, value);
    assert!(rt; number < u32::MAX);
    let label = ValueLabel::from_u32(number);
    builder.set_val_label(value, label).expect(rt, "a label");
}

// Asserts that a value exists, and that a stack map has room for it.
fn asserts_fits(rt: &impl Abort, builder: &FunctionBuilder<'_>, value: Value)
    ensures { ValueFits builder.now value }
{
    asserts_value(rt, builder, value);
    let bytes = builder.func().value_type(value).bytes();
    assert!(rt; bytes >= 1);
    assert!(rt; bytes <= 16);
}

/// Declares that stack maps need a value.
pub fn need(rt: &impl Abort, builder: &mut FunctionBuilder<'_>, value: Value) {
    asserts_fits(rt, builder, value);
    builder
        .declare_value_needs_stack_map(value)
        .expect(rt, "room");
}
