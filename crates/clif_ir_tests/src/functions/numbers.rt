//! Numbers at their borders and at each width.
#![tactic(auto)]

use clif_instructions::immediates::{FloatBits, Imm64, Offset32, signed_at};
use clif_opcodes::FloatConstOpcode;
use clif_types::{Type, types};
use std::test::Fail;

/// A type, a number given to `iconst` of it, and the text of the number.
static ROWS: [(Type, i64, &str); 31] = [
    (types::I8, 9999, "15"),
    (types::I8, -9999, "-15"),
    (types::I8, 10000, "16"),
    (types::I8, -10000, "-16"),
    (types::I8, 127, "127"),
    (types::I8, 128, "-128"),
    (types::I8, 255, "-1"),
    (types::I8, 256, "0"),
    (types::I16, 9999, "9999"),
    (types::I16, -9999, "-9999"),
    (types::I16, 10000, "0x2710"),
    (types::I16, -10000, "0xffff_ffff_ffff_d8f0"),
    (types::I16, 40000, "0xffff_ffff_ffff_9c40"),
    (types::I16, 65535, "-1"),
    (types::I32, 9999, "9999"),
    (types::I32, -9999, "-9999"),
    (types::I32, 10000, "0x2710"),
    (types::I32, -10000, "0xffff_ffff_ffff_d8f0"),
    (types::I32, 65536, "0x0001_0000"),
    (types::I32, 0x8000_0000, "0xffff_ffff_8000_0000"),
    (types::I32, 0x1_0000_0001, "1"),
    (types::I64, 9999, "9999"),
    (types::I64, -9999, "-9999"),
    (types::I64, 10000, "0x2710"),
    (types::I64, -10000, "0xffff_ffff_ffff_d8f0"),
    (types::I64, 0x1_0000_0000, "0x0001_0000_0000"),
    (types::I64, i64::MIN, "0x8000_0000_0000_0000"),
    (types::I128, 9999, "9999"),
    (types::I128, -9999, "-9999"),
    (types::I128, 10000, "0x2710"),
    (types::I128, -10000, "0xffff_ffff_ffff_d8f0"),
];

#[test]
fn widths(rt: HostRuntime) -> Result<(), Fail> {
    for (ty, number, text) in ROWS.iter() {
        let shown = Imm64(signed_at(*number, *ty));
        let found = format!(in rt.alloc(); "{shown}")?;
        assert!(rt; found.as_str() == *text);
    }
    Ok(())
}

/// An offset, and its text behind an address.
static OFFSETS: [(i32, &str); 9] = [
    (0, ""),
    (1, "+1"),
    (-1, "-1"),
    (9999, "+9999"),
    (-9999, "-9999"),
    (10000, "+0x2710"),
    (-10000, "-0x2710"),
    (i32::MAX, "+0x7fff_ffff"),
    (i32::MIN, "-0x8000_0000"),
];

#[test]
fn offsets(rt: HostRuntime) -> Result<(), Fail> {
    for (offset, text) in OFFSETS.iter() {
        let shown = Offset32(*offset);
        let found = format!(in rt.alloc(); "{shown}")?;
        assert!(rt; found.as_str() == *text);
    }
    Ok(())
}

/// A float constant, its bits, and the text of them.
static FLOATS: [(FloatConstOpcode, u64, &str); 7] = [
    (FloatConstOpcode::F16const, 0, "0.0"),
    (FloatConstOpcode::F16const, 0x8000, "0x8000"),
    (FloatConstOpcode::F32const, 0, "0.0"),
    (FloatConstOpcode::F32const, 1, "0x00000001"),
    (FloatConstOpcode::F64const, 0, "0.0"),
    (FloatConstOpcode::F64const, 1, "0x0000000000000001"),
    (FloatConstOpcode::F64const, u64::MAX, "0xffffffffffffffff"),
];

#[test]
fn floats(rt: HostRuntime) -> Result<(), Fail> {
    for (opcode, bits, text) in FLOATS.iter() {
        let shown = FloatBits {
            opcode: *opcode,
            bits: *bits,
        };
        let found = format!(in rt.alloc(); "{shown}")?;
        assert!(rt; found.as_str() == *text);
    }
    Ok(())
}
