//! Comparisons.
#![tactic(auto)]

use clif_access_plans::{ComparePlan, is_aligned_load, plan_compare};
use clif_types::IntCC;
use clif_types::types::{I8, I16, I32, I64, I128};

/// Of no bytes the six conditions are 1, 0, 0, 1, 0, 1.
#[test]
fn no_bytes(rt: HostRuntime) {
    assert!(rt; plan_compare(IntCC::Equal, 0) == ComparePlan::Constant(1));
    assert!(rt; plan_compare(IntCC::NotEqual, 0) == ComparePlan::Constant(0));
    assert!(rt; plan_compare(IntCC::UnsignedLessThan, 0) == ComparePlan::Constant(0));
    assert!(rt; plan_compare(IntCC::UnsignedGreaterThanOrEqual, 0) == ComparePlan::Constant(1));
    assert!(rt; plan_compare(IntCC::UnsignedGreaterThan, 0) == ComparePlan::Constant(0));
    assert!(rt; plan_compare(IntCC::UnsignedLessThanOrEqual, 0) == ComparePlan::Constant(1));
}

/// Equality of as many bytes as an integer has, and the order of single bytes.
#[test]
fn inline(rt: HostRuntime) {
    assert!(rt; plan_compare(IntCC::Equal, 1) == ComparePlan::Inline(I8));
    assert!(rt; plan_compare(IntCC::NotEqual, 2) == ComparePlan::Inline(I16));
    assert!(rt; plan_compare(IntCC::Equal, 4) == ComparePlan::Inline(I32));
    assert!(rt; plan_compare(IntCC::NotEqual, 8) == ComparePlan::Inline(I64));
    assert!(rt; plan_compare(IntCC::Equal, 16) == ComparePlan::Inline(I128));
    assert!(rt; plan_compare(IntCC::UnsignedGreaterThan, 1) == ComparePlan::Inline(I8));
}

/// The number of `Memcmp` is compared with zero as a signed number.
#[test]
fn by_a_call(rt: HostRuntime) {
    let greater_or_equal = ComparePlan::LibraryCall(IntCC::SignedGreaterThanOrEqual);
    assert!(rt; plan_compare(IntCC::UnsignedGreaterThanOrEqual, 3) == greater_or_equal);
    assert!(rt; plan_compare(IntCC::Equal, 3) == ComparePlan::LibraryCall(IntCC::Equal));
    let less = ComparePlan::LibraryCall(IntCC::SignedLessThan);
    assert!(rt; plan_compare(IntCC::UnsignedLessThan, 2) == less);
}

/// A load is aligned where its alignment is the size; to order single bytes it always is.
#[test]
fn aligned(rt: HostRuntime) {
    assert!(rt; is_aligned_load(IntCC::Equal, 4, 4));
    assert!(rt; !is_aligned_load(IntCC::Equal, 4, 8));
    assert!(rt; !is_aligned_load(IntCC::NotEqual, 4, 1));
    assert!(rt; is_aligned_load(IntCC::UnsignedLessThan, 1, 4));
}
