//! Copies and fills: the texts of upstream's tests, and of sizes from none to half of all addresses.
#![tactic(auto)]

use crate::memory::fixture::{Helper, Returned, Sample, text};
use clif_types::MemFlagsData;
use clif_types::types::{I8, I32, I64};
use std::alloc::Global;
use std::process::Abort;

/// Upstream's function, which reads so many variables that were never assigned.
fn upstream(variables: usize) -> Sample<'static> {
    Sample {
        name: "sample",
        returns: Some(I32),
        parameters: &[],
        variables,
    }
}

/// A function of two addresses, or of other parameters.
const ROW: Sample<'static> = Sample {
    name: "row",
    returns: None,
    parameters: &[I64, I64],
    variables: 0,
};

fn asserts_upstream(
    rt: &impl Abort,
    alloc: Global,
    variables: usize,
    helper: Helper,
    returned: usize,
    wanted: &str,
) {
    let made = text(
        rt,
        alloc,
        upstream(variables),
        helper,
        Returned::Value(returned),
    );
    assert_eq!(rt; made.as_str(), wanted);
}

fn asserts_row(rt: &impl Abort, alloc: Global, sample: Sample<'_>, helper: Helper, wanted: &str) {
    let made = text(rt, alloc, sample, helper, Returned::Nothing);
    assert_eq!(rt; made.as_str(), wanted);
}

/// A copy from the second value to the first one.
fn copy(size: u64, alignments: (u8, u8), non_overlapping: bool, flags: MemFlagsData) -> Helper {
    Helper::Copy {
        operands: (0, 1),
        size,
        alignments,
        non_overlapping,
        flags,
    }
}

fn upstream_copy(size: u64) -> Helper {
    Helper::Copy {
        operands: (1, 0),
        size,
        alignments: (8, 8),
        non_overlapping: true,
        flags: MemFlagsData::new(),
    }
}

fn fill(byte: u8, size: u64, alignment: u8) -> Helper {
    Helper::Fill {
        buffer: 0,
        byte,
        size,
        alignment,
        flags: MemFlagsData::new(),
    }
}

#[test]
fn memcpy(rt: HostRuntime) {
    asserts_upstream(
        &rt,
        rt.alloc(),
        2,
        Helper::Memcpy(1, 0, 1),
        1,
        "function %sample() -> i32 system_v {
    sig0 = (i64, i64, i64) -> i64 system_v
    fn0 = %Memcpy sig0

block0:
    v4 = iconst.i64 0
    v1 -> v4
    v3 = iconst.i64 0
    v0 -> v3
    v2 = call fn0(v1, v0, v1)  ; v1 = 0, v0 = 0, v1 = 0
    return v1  ; v1 = 0
}
",
    );
}

#[test]
fn small_memcpy(rt: HostRuntime) {
    asserts_upstream(
        &rt,
        rt.alloc(),
        2,
        upstream_copy(8),
        1,
        "function %sample() -> i32 system_v {
block0:
    v4 = iconst.i64 0
    v1 -> v4
    v3 = iconst.i64 0
    v0 -> v3
    v2 = load.i64 aligned v0  ; v0 = 0
    store aligned v2, v1  ; v1 = 0
    return v1  ; v1 = 0
}
",
    );
}

#[test]
fn not_so_small_memcpy(rt: HostRuntime) {
    asserts_upstream(
        &rt,
        rt.alloc(),
        2,
        upstream_copy(8192),
        1,
        "function %sample() -> i32 system_v {
    sig0 = (i64, i64, i64) -> i64 system_v
    fn0 = %Memcpy sig0

block0:
    v5 = iconst.i64 0
    v1 -> v5
    v4 = iconst.i64 0
    v0 -> v4
    v2 = iconst.i64 8192
    v3 = call fn0(v1, v0, v2)  ; v1 = 0, v0 = 0, v2 = 8192
    return v1  ; v1 = 0
}
",
    );
}

#[test]
fn small_memset(rt: HostRuntime) {
    asserts_upstream(
        &rt,
        rt.alloc(),
        1,
        fill(1, 8, 8),
        0,
        "function %sample() -> i32 system_v {
block0:
    v2 = iconst.i64 0
    v0 -> v2
    v1 = iconst.i64 0x0101_0101_0101_0101
    store aligned v1, v0  ; v1 = 0x0101_0101_0101_0101, v0 = 0
    return v0  ; v0 = 0
}
",
    );
}

#[test]
fn not_so_small_memset(rt: HostRuntime) {
    asserts_upstream(
        &rt,
        rt.alloc(),
        1,
        fill(1, 8192, 8),
        0,
        "function %sample() -> i32 system_v {
    sig0 = (i64, i32, i64) -> i64 system_v
    fn0 = %Memset sig0

block0:
    v5 = iconst.i64 0
    v0 -> v5
    v1 = iconst.i8 1
    v2 = iconst.i64 8192
    v3 = uextend.i32 v1  ; v1 = 1
    v4 = call fn0(v0, v3, v2)  ; v0 = 0, v2 = 8192
    return v0  ; v0 = 0
}
",
    );
}

/// All is loaded before anything is stored, and neither is said to be aligned.
#[test]
fn copy12(rt: HostRuntime) {
    asserts_row(
        &rt,
        rt.alloc(),
        ROW,
        copy(12, (1, 1), false, MemFlagsData::new()),
        "function %row(i64, i64) system_v {
block0(v0: i64, v1: i64):
    v2 = load.i32 v1
    v3 = load.i32 v1+4
    v4 = load.i32 v1+8
    store v2, v0
    store v3, v0+4
    store v4, v0+8
    return
}
",
    );
}

/// The accesses are said to be aligned where both addresses are, and keep their other flags.
#[test]
fn copy16(rt: HostRuntime) {
    let mut flags = MemFlagsData::new();
    flags.set_notrap();
    asserts_row(
        &rt,
        rt.alloc(),
        ROW,
        copy(16, (8, 16), false, flags),
        "function %row(i64, i64) system_v {
block0(v0: i64, v1: i64):
    v2 = load.i64 notrap aligned v1
    v3 = load.i64 notrap aligned v1+8
    store notrap aligned v2, v0
    store notrap aligned v3, v0+8
    return
}
",
    );
    asserts_row(
        &rt,
        rt.alloc(),
        ROW,
        copy(16, (1, 1), true, MemFlagsData::new()),
        "function %row(i64, i64) system_v {
block0(v0: i64, v1: i64):
    v2 = load.i64 v1
    v3 = load.i64 v1+8
    store v2, v0
    store v3, v0+8
    return
}
",
    );
}

/// One alignment that is smaller than the accesses is enough that they aren't aligned.
#[test]
fn half_aligned(rt: HostRuntime) {
    for alignments in [(2, 1), (1, 2)] {
        asserts_row(
            &rt,
            rt.alloc(),
            ROW,
            copy(2, alignments, false, MemFlagsData::new()),
            "function %row(i64, i64) system_v {
block0(v0: i64, v1: i64):
    v2 = load.i16 v1
    store v2, v0
    return
}
",
        );
    }
}

/// Five accesses are too many. Bytes that may overlap are moved.
#[test]
fn copy_by_call(rt: HostRuntime) {
    asserts_row(
        &rt,
        rt.alloc(),
        ROW,
        copy(40, (1, 1), true, MemFlagsData::new()),
        "function %row(i64, i64) system_v {
    sig0 = (i64, i64, i64) -> i64 system_v
    fn0 = %Memcpy sig0

block0(v0: i64, v1: i64):
    v2 = iconst.i64 40
    v3 = call fn0(v0, v1, v2)  ; v2 = 40
    return
}
",
    );
    asserts_row(
        &rt,
        rt.alloc(),
        ROW,
        copy(5, (1, 1), false, MemFlagsData::new()),
        "function %row(i64, i64) system_v {
    sig0 = (i64, i64, i64) -> i64 system_v
    fn0 = %Memmove sig0

block0(v0: i64, v1: i64):
    v2 = iconst.i64 5
    v3 = call fn0(v0, v1, v2)  ; v2 = 5
    return
}
",
    );
    asserts_row(
        &rt,
        rt.alloc(),
        ROW,
        copy(1 << 63, (1, 1), true, MemFlagsData::new()),
        "function %row(i64, i64) system_v {
    sig0 = (i64, i64, i64) -> i64 system_v
    fn0 = %Memcpy sig0

block0(v0: i64, v1: i64):
    v2 = iconst.i64 0x8000_0000_0000_0000
    v3 = call fn0(v0, v1, v2)  ; v2 = 0x8000_0000_0000_0000
    return
}
",
    );
}

/// Of no bytes nothing is built, whatever the alignment.
#[test]
fn no_bytes(rt: HostRuntime) {
    let nothing = "function %row(i64, i64) system_v {
block0(v0: i64, v1: i64):
    return
}
";
    let flags = MemFlagsData::new();
    asserts_row(&rt, rt.alloc(), ROW, copy(0, (8, 8), false, flags), nothing);
    asserts_row(&rt, rt.alloc(), ROW, fill(7, 0, 8), nothing);
}

/// The byte is repeated in each place of an access, and its sign above.
#[test]
fn fill_of_six(rt: HostRuntime) {
    asserts_row(
        &rt,
        rt.alloc(),
        ROW,
        fill(0xab, 6, 1),
        "function %row(i64, i64) system_v {
block0(v0: i64, v1: i64):
    v2 = iconst.i16 0xffff_ffff_ffff_abab
    store v2, v0  ; v2 = 0xffff_ffff_ffff_abab
    store v2, v0+2  ; v2 = 0xffff_ffff_ffff_abab
    store v2, v0+4  ; v2 = 0xffff_ffff_ffff_abab
    return
}
",
    );
}

/// A byte and a size that are values.
#[test]
fn calls(rt: HostRuntime) {
    let sample = Sample {
        parameters: &[I64, I8, I64],
        ..ROW
    };
    asserts_row(
        &rt,
        rt.alloc(),
        sample,
        Helper::Memset(0, 1, 2),
        "function %row(i64, i8, i64) system_v {
    sig0 = (i64, i32, i64) -> i64 system_v
    fn0 = %Memset sig0

block0(v0: i64, v1: i8, v2: i64):
    v3 = uextend.i32 v1
    v4 = call fn0(v0, v3, v2)
    return
}
",
    );
    asserts_row(
        &rt,
        rt.alloc(),
        ROW,
        Helper::Memmove(0, 1, 1),
        "function %row(i64, i64) system_v {
    sig0 = (i64, i64, i64) -> i64 system_v
    fn0 = %Memmove sig0

block0(v0: i64, v1: i64):
    v2 = call fn0(v0, v1, v1)
    return
}
",
    );
}
