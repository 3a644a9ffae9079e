//! Numbers, bytes, types, conventions, widths of pointers, conditions and reasons for traps as words.
#![tactic(auto)]

use clif_types::types::Type;
use clif_types::{CallConv, IntCC, PointerWidth, TrapCode, types};
use clif_words::bytes::bytes;
use clif_words::error::{Expected, Fault, LineError};
use clif_words::number::{decimal, magnitude, number, offset, short_decimal, wide_magnitude};
use clif_words::types::{
    call_conv_named, condition_named, pointer_width_named, trap_code_named, type_named,
};
use std::alloc::Global;
use std::process::Abort;
use std::test::Fail;

fn is_number(rt: &impl Abort, word: &str, expected: Option<i64>) {
    assert!(rt; number(word) == expected);
}

/// Numbers of 64 bits, in base 10 or 16.
#[test]
fn numbers(rt: HostRuntime) {
    let rows = [
        ("0", Some(0)),
        ("-1", Some(-1)),
        ("0x10", Some(16)),
        ("0x8000_0000_0000_0000", Some(i64::MIN)),
        ("1_000", Some(1_000)),
        ("18446744073709551615", Some(-1)),
        ("18446744073709551616", None),
        ("-9223372036854775808", Some(i64::MIN)),
        ("-9223372036854775809", None),
        ("", None),
        ("_", None),
        ("0x", None),
        ("+1", None),
        ("12a", None),
    ];
    for (word, expected) in rows.iter() {
        is_number(&rt, word, *expected);
    }
}

fn is_magnitude(rt: &impl Abort, word: &str, expected: Option<u64>) {
    assert!(rt; magnitude(word) == expected);
}

/// Numbers without a sign, in base 10 or 16.
#[test]
fn magnitudes(rt: HostRuntime) {
    let rows = [
        ("0", Some(0)),
        ("0x3f80_0000", Some(0x3f80_0000)),
        ("1065353216", Some(1_065_353_216)),
        ("18446744073709551615", Some(u64::MAX)),
        ("18446744073709551616", None),
        ("-1", None),
        ("+1", None),
        ("1.0", None),
        ("", None),
    ];
    for (word, expected) in rows.iter() {
        is_magnitude(&rt, word, *expected);
    }
}

fn is_wide(rt: &impl Abort, word: &str, expected: Option<u128>) {
    assert!(rt; wide_magnitude(word) == expected);
}

/// The same, up to 128 bits.
#[test]
fn wide_magnitudes(rt: HostRuntime) {
    let rows = [
        ("0", Some(0)),
        ("4683743612477887600", Some(4_683_743_612_477_887_600)),
        ("18446744073709551616", Some(1 << 64)),
        ("0x0001_0000_0000_0000_0000_0000_0000_0000", Some(1 << 112)),
        ("0xffff_ffff_ffff_ffff_ffff_ffff_ffff_ffff", Some(u128::MAX)),
        ("340282366920938463463374607431768211455", Some(u128::MAX)),
        ("340282366920938463463374607431768211456", None),
        ("0x1_0000_0000_0000_0000_0000_0000_0000_0000", None),
        ("-1", None),
        ("0x", None),
        ("", None),
    ];
    for (word, expected) in rows.iter() {
        is_wide(&rt, word, *expected);
    }
}

/// Bytes from the last one to the first, two digits each.
#[test]
fn byte_words(rt: HostRuntime) -> Result<(), Fail> {
    let rows: [(&str, &[u8]); 5] = [
        ("0x00", &[0]),
        ("0x7f", &[127]),
        ("0x0102ff", &[255, 2, 1]),
        ("0xc0ffee", &[0xee, 0xff, 0xc0]),
        (
            "0x000102030405060708090a0b0c0d0e0f",
            &[15, 14, 13, 12, 11, 10, 9, 8, 7, 6, 5, 4, 3, 2, 1, 0],
        ),
    ];
    for (word, expected) in rows.iter() {
        let read = bytes(rt.alloc(), word)?;
        assert!(rt; read.as_slice() == *expected);
    }
    Ok(())
}

// No bytes are read from this word.
fn has_no_bytes(alloc: Global, word: &str) -> Result<(), Fail> {
    match bytes(alloc, word) {
        Ok(_) => Err("bytes were read")?,
        Err(LineError::Fault(Fault::Expected(Expected::Bytes))) => Ok(()),
        Err(LineError::Memory) => Err("no memory")?,
        Err(LineError::Fault(_)) => Err("another fault")?,
    }
}

/// A byte has two digits, letters in lower case, and the prefix is needed.
#[test]
fn no_bytes(rt: HostRuntime) -> Result<(), Fail> {
    let words = [
        "", "0", "00", "0x", "0x0", "0x123", "0X00", "0xFF", "0x0g", "0x0_0", "-0x00", "x00",
    ];
    for word in words.iter() {
        has_no_bytes(rt.alloc(), word)?;
    }
    Ok(())
}

fn is_offset(rt: &impl Abort, word: &str, expected: Option<i32>) {
    assert!(rt; offset(word) == expected);
}

/// Offsets of 32 bits, with a sign or without.
#[test]
fn offsets(rt: HostRuntime) {
    let rows = [
        ("0", Some(0)),
        ("4", Some(4)),
        ("+4", Some(4)),
        ("-4", Some(-4)),
        ("2147483647", Some(i32::MAX)),
        ("-2147483648", Some(i32::MIN)),
        ("2147483648", None),
        ("-2147483649", None),
        ("0x4", None),
        ("-", None),
        ("+-4", None),
        ("", None),
    ];
    for (word, expected) in rows.iter() {
        is_offset(&rt, word, *expected);
    }
}

fn is_decimal(rt: &impl Abort, word: &str, long: Option<usize>, short: Option<u32>) {
    assert!(rt; decimal(word) == long);
    assert!(rt; short_decimal(word) == short);
}

/// Decimal digits without a sign.
#[test]
fn digits(rt: HostRuntime) {
    let rows = [
        ("0", Some(0), Some(0)),
        ("007", Some(7), Some(7)),
        ("4294967295", Some(4_294_967_295), Some(u32::MAX)),
        ("4294967296", Some(4_294_967_296), None),
        ("+7", None, None),
        ("-7", None, None),
        ("0x7", None, None),
        ("", None, None),
    ];
    for (word, long, short) in rows.iter() {
        is_decimal(&rt, word, *long, *short);
    }
}

fn is_type(rt: &impl Abort, word: &str, expected: Option<Type>) {
    assert!(rt; type_named(word) == expected);
}

/// Types of the IR, of at most 64 bytes.
#[test]
fn type_names(rt: HostRuntime) {
    let rows = [
        ("i8", Some(types::I8)),
        ("i128", Some(types::I128)),
        ("f16", Some(types::F16)),
        ("i8x16", Some(types::I8X16)),
        ("i8x64", Some(types::I8X64)),
        ("i16x64", None),
        ("i32x1", None),
        ("i33", None),
        ("I32", None),
        ("", None),
    ];
    for (word, expected) in rows.iter() {
        is_type(&rt, word, *expected);
    }
}

/// Conventions, and widths of pointers by their bits.
#[test]
fn targets(rt: HostRuntime) {
    assert!(rt; call_conv_named("fast") == Some(CallConv::Fast));
    assert!(rt; call_conv_named("system_v") == Some(CallConv::SystemV));
    assert!(rt; call_conv_named("tail") == Some(CallConv::Tail));
    assert!(rt; call_conv_named("cold") == None);
    assert!(rt; pointer_width_named("16") == Some(PointerWidth::U16));
    assert!(rt; pointer_width_named("32") == Some(PointerWidth::U32));
    assert!(rt; pointer_width_named("64") == Some(PointerWidth::U64));
    assert!(rt; pointer_width_named("128") == None);
}

/// The ten conditions.
#[test]
fn conditions(rt: HostRuntime) {
    assert!(rt; condition_named("eq") == Some(IntCC::Equal));
    assert!(rt; condition_named("ne") == Some(IntCC::NotEqual));
    assert!(rt; condition_named("slt") == Some(IntCC::SignedLessThan));
    assert!(rt; condition_named("sge") == Some(IntCC::SignedGreaterThanOrEqual));
    assert!(rt; condition_named("sgt") == Some(IntCC::SignedGreaterThan));
    assert!(rt; condition_named("sle") == Some(IntCC::SignedLessThanOrEqual));
    assert!(rt; condition_named("ult") == Some(IntCC::UnsignedLessThan));
    assert!(rt; condition_named("uge") == Some(IntCC::UnsignedGreaterThanOrEqual));
    assert!(rt; condition_named("ugt") == Some(IntCC::UnsignedGreaterThan));
    assert!(rt; condition_named("ule") == Some(IntCC::UnsignedLessThanOrEqual));
    assert!(rt; condition_named("lt") == None);
}

fn is_trap_code(rt: &impl Abort, word: &str, expected: Option<TrapCode>) {
    assert!(rt; trap_code_named(word) == expected);
}

/// Reasons for traps: those of the instructions, and 256 of a program's own.
#[test]
fn trap_codes(rt: HostRuntime) {
    let rows = [
        ("int_ovf", Some(TrapCode::IntegerOverflow)),
        ("int_divz", Some(TrapCode::DivisionByZero)),
        ("heap_oob", Some(TrapCode::HeapOutOfBounds)),
        ("user0", Some(TrapCode::User(0))),
        ("user7", Some(TrapCode::User(7))),
        ("user255", Some(TrapCode::User(255))),
        ("user256", None),
        ("user", None),
        ("user+7", None),
        ("stk_ovf", None),
    ];
    for (word, expected) in rows.iter() {
        is_trap_code(&rt, word, *expected);
    }
}
