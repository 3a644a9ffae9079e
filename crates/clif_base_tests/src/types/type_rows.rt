//! Types: their widths, their lanes and their texts.
#![tactic(auto)]

use crate::types::support::{Datum, all_show};
use clif_types::types;
use clif_types::types::{LaneCount, LaneType, Type};
use std::process::Abort;
use std::test::Fail;

fn is_wide(rt: &impl Abort, ty: Type, bits: u32, bytes: u32, lanes: u32, lane: Type) {
    assert!(rt; ty.bits() == bits && ty.bytes() == bytes);
    assert!(rt; ty.lane_count() == lanes && ty.lane_type() == lane);
}

/// The widths, lanes and texts that Cranelift documents.
#[test]
fn widths(rt: HostRuntime) {
    let rows = [
        (types::INVALID, 0, 0, 1, types::INVALID),
        (types::I8, 8, 1, 1, types::I8),
        (types::I64, 64, 8, 1, types::I64),
        (types::F128, 128, 16, 1, types::F128),
        (types::I8X16, 128, 16, 16, types::I8),
        (types::F32X4, 128, 16, 4, types::F32),
        (types::I8X64, 512, 64, 64, types::I8),
    ];
    for (ty, bits, bytes, lanes, lane) in rows.iter() {
        is_wide(&rt, *ty, *bits, *bytes, *lanes, *lane);
    }
    assert!(rt; LaneType::F16.bits() == 16);
    assert!(rt; LaneCount::ThirtyTwo.lanes() == 32);
}

fn is_kind(rt: &impl Abort, ty: Type, is_int: bool, is_vector: bool, is_valid: bool) {
    assert!(rt; ty.is_int() == is_int);
    assert!(rt; ty.is_vector() == is_vector);
    assert!(rt; ty.is_valid() == is_valid);
}

/// Which types are single integers, have lanes, or are types of the IR at all.
#[test]
fn kinds(rt: HostRuntime) {
    let too_wide = Type::Vector(LaneType::I16, LaneCount::SixtyFour);
    let rows = [
        (types::INVALID, false, false, false),
        (types::I128, true, false, true),
        (types::F64, false, false, true),
        (types::I64X2, false, true, true),
        (types::F128X4, false, true, true),
        (too_wide, false, true, false),
    ];
    for (ty, is_int, is_vector, is_valid) in rows.iter() {
        is_kind(&rt, *ty, *is_int, *is_vector, *is_valid);
    }
}

// Asserts the integer type of this width, by its size too where that is whole.
fn has_width(rt: &impl Abort, bits: u16, ty: Option<Type>) {
    assert!(rt; Type::int(bits) == ty);
    if bits % 8 == 0 {
        assert!(rt; Type::int_with_byte_size(bits / 8) == ty);
    }
}

/// Integer types by their width and by their size.
#[test]
fn integers(rt: HostRuntime) {
    let rows = [
        (8, Some(types::I8)),
        (16, Some(types::I16)),
        (32, Some(types::I32)),
        (64, Some(types::I64)),
        (128, Some(types::I128)),
        (0, None),
        (7, None),
        (256, None),
    ];
    for (bits, ty) in rows.iter() {
        has_width(&rt, *bits, *ty);
    }
    assert!(rt; Type::int_with_byte_size(8193) == None);
}

// Asserts the least and the greatest number of a type.
fn is_bounded(rt: &impl Abort, ty: Type, signed: bool, least: u128, greatest: u128) {
    assert!(rt; ty != types::INVALID);
    let (found_least, found_greatest) = ty.bounds(signed);
    assert!(rt; found_least == least);
    assert!(rt; found_greatest == greatest);
}

/// The least and the greatest number, as bit patterns of 128 bits.
#[test]
fn bounds(rt: HostRuntime) {
    is_bounded(&rt, types::I8, false, 0, 255);
    let least = 0xffff_ffff_ffff_ffff_ffff_ffff_ffff_ff80;
    is_bounded(&rt, types::I8, true, least, 127);
    is_bounded(&rt, types::I64, false, 0, 0xffff_ffff_ffff_ffff);
    let least = 0xffff_ffff_ffff_ffff_ffff_ffff_ffff_8000;
    is_bounded(&rt, types::I16X8, true, least, 0x7fff);
    is_bounded(&rt, types::I128, false, 0, u128::MAX);
    is_bounded(&rt, types::I128, true, 1 << 127, u128::MAX >> 1);
}

/// Texts, and Cranelift's `Debug`.
#[test]
fn texts(rt: HostRuntime) -> Result<(), Fail> {
    let rows = [
        (Datum::Type(types::I8), "i8"),
        (Datum::DebugType(types::I8), "types::I8"),
        (Datum::Type(types::I128), "i128"),
        (Datum::DebugType(types::I128), "types::I128"),
        (Datum::Type(types::F32), "f32"),
        (Datum::DebugType(types::F32), "types::F32"),
        (Datum::Type(types::I8X16), "i8x16"),
        (Datum::DebugType(types::I8X16), "types::I8X16"),
        (Datum::Type(types::F32X4), "f32x4"),
        (Datum::DebugType(types::F32X4), "types::F32X4"),
        (Datum::Type(types::I8X64), "i8x64"),
        (Datum::DebugType(types::I8X64), "types::I8X64"),
        (Datum::Type(types::INVALID), "types::INVALID"),
        (Datum::DebugType(types::INVALID), "types::INVALID"),
        (Datum::LaneType(LaneType::F16), "f16"),
    ];
    all_show(&rt, rt.alloc(), &rows)
}
