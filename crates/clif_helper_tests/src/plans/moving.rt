//! Copies and fills.
#![tactic(auto)]

use clif_access_plans::{Accesses, MovePlan, fits_pointer, may_move, plan_move, repeated_byte};
use clif_types::types::{I8, I16, I32, I64};
use clif_types::{PointerWidth, Type};
use std::process::Abort;

// A copy of so many bytes is made by accesses of this type, so many of them.
fn is_inline(rt: &impl Abort, size: u64, ty: Type, bytes: u8, count: u8) {
    assert!(rt; plan_move(size) == MovePlan::Inline(Accesses { ty, bytes, count }));
}

#[test]
fn no_bytes(rt: HostRuntime) {
    assert!(rt; plan_move(0) == MovePlan::Nothing);
}

/// At most four accesses of the greatest power of two.
#[test]
fn inline(rt: HostRuntime) {
    is_inline(&rt, 1, I8, 1, 1);
    is_inline(&rt, 3, I8, 1, 3);
    is_inline(&rt, 6, I16, 2, 3);
    is_inline(&rt, 8, I64, 8, 1);
    is_inline(&rt, 12, I32, 4, 3);
    is_inline(&rt, 16, I64, 8, 2);
    is_inline(&rt, 32, I64, 8, 4);
}

#[test]
fn by_a_call(rt: HostRuntime) {
    assert!(rt; plan_move(5) == MovePlan::LibraryCall);
    assert!(rt; plan_move(40) == MovePlan::LibraryCall);
    assert!(rt; plan_move(0x8000_0000_0000_0000) == MovePlan::LibraryCall);
}

/// The byte ab in each of two places, and its sign above them.
#[test]
fn repeated_bytes(rt: HostRuntime) {
    let ty = I16;
    let accesses = Accesses {
        ty,
        bytes: 2,
        count: 3,
    };
    assert!(rt; repeated_byte(accesses, 0xab).cast_unsigned() == 0xffff_ffff_ffff_abab);
    assert!(rt; accesses.are_aligned(2));
    assert!(rt; !accesses.are_aligned(1));
    let ty = I64;
    let accesses = Accesses {
        ty,
        bytes: 8,
        count: 1,
    };
    assert!(rt; repeated_byte(accesses, 1) == 0x0101_0101_0101_0101);
}

/// The size fits a pointer, and the alignment is no more than the power of two that divides the size.
#[test]
fn conditions(rt: HostRuntime) {
    assert!(rt; fits_pointer(PointerWidth::U16, 65535));
    assert!(rt; !fits_pointer(PointerWidth::U16, 65536));
    assert!(rt; fits_pointer(PointerWidth::U64, 0x8000_0000_0000_0000));
    assert!(rt; may_move(PointerWidth::U16, 65535, 1));
    assert!(rt; !may_move(PointerWidth::U16, 65536, 1));
    assert!(rt; may_move(PointerWidth::U64, 6, 2));
    assert!(rt; !may_move(PointerWidth::U64, 6, 4));
    assert!(rt; may_move(PointerWidth::U64, 0, 128));
}
