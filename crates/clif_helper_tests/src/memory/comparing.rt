//! Comparisons: the texts of upstream's tests, and of no bytes.
#![tactic(auto)]

use crate::memory::fixture::{Helper, Returned, Sample, text};
use clif_types::types::{I8, I32};
use clif_types::{IntCC, MemFlagsData};
use std::alloc::Global;
use std::process::Abort;
use std::test::Fail;

// Asserts the text of upstream's function behind its first line.
fn asserts_compared(
    rt: &impl Abort,
    alloc: Global,
    cond: IntCC,
    size: u64,
    alignment: u8,
    wanted: &str,
) {
    let sample = Sample {
        name: "sample",
        returns: Some(I8),
        parameters: &[],
        variables: 2,
    };
    let helper = Helper::Compare {
        cond,
        operands: (0, 1),
        size,
        alignments: (alignment, alignment),
        flags: MemFlagsData::new(),
    };
    let made = text(rt, alloc, sample, helper, Returned::Answer);
    let wanted = format!(in alloc; "function %sample() -> i8 system_v {{{wanted}\n}}\n");
    assert_eq!(rt; made.as_str(), wanted.expect(rt, "a text").as_str());
}

#[test]
fn memcmp(rt: HostRuntime) {
    let sample = Sample {
        name: "sample",
        returns: Some(I32),
        parameters: &[],
        variables: 3,
    };
    let made = text(
        &rt,
        rt.alloc(),
        sample,
        Helper::Memcmp(0, 1, 2),
        Returned::Answer,
    );
    assert_eq!(rt;
        made.as_str(),
        "function %sample() -> i32 system_v {
    sig0 = (i64, i64, i64) -> i32 system_v
    fn0 = %Memcmp sig0

block0:
    v6 = iconst.i64 0
    v2 -> v6
    v5 = iconst.i64 0
    v1 -> v5
    v4 = iconst.i64 0
    v0 -> v4
    v3 = call fn0(v0, v1, v2)  ; v0 = 0, v1 = 0, v2 = 0
    return v3
}
"
    );
}

#[test]
fn small_memcmp_zero_size(rt: HostRuntime) {
    asserts_compared(
        &rt,
        rt.alloc(),
        IntCC::UnsignedGreaterThanOrEqual,
        0,
        8,
        "
block0:
    v4 = iconst.i64 0
    v1 -> v4
    v3 = iconst.i64 0
    v0 -> v3
    v2 = iconst.i8 1
    return v2  ; v2 = 1",
    );
}

/// No bytes are the same as no bytes.
#[test]
fn no_bytes(rt: HostRuntime) -> Result<(), Fail> {
    let rows = [
        (IntCC::Equal, 1),
        (IntCC::NotEqual, 0),
        (IntCC::UnsignedLessThan, 0),
        (IntCC::UnsignedGreaterThanOrEqual, 1),
        (IntCC::UnsignedGreaterThan, 0),
        (IntCC::UnsignedLessThanOrEqual, 1),
    ];
    for (cond, holds) in rows {
        let wanted = format!(in rt.alloc();
            "
block0:
    v4 = iconst.i64 0
    v1 -> v4
    v3 = iconst.i64 0
    v0 -> v3
    v2 = iconst.i8 {holds}
    return v2  ; v2 = {holds}"
        )?;
        asserts_compared(&rt, rt.alloc(), cond, 0, 1, wanted.as_str());
    }
    Ok(())
}

#[test]
fn small_memcmp_byte_ugt(rt: HostRuntime) {
    asserts_compared(
        &rt,
        rt.alloc(),
        IntCC::UnsignedGreaterThan,
        1,
        1,
        "
block0:
    v6 = iconst.i64 0
    v1 -> v6
    v5 = iconst.i64 0
    v0 -> v5
    v2 = load.i8 aligned v0  ; v0 = 0
    v3 = load.i8 aligned v1  ; v1 = 0
    v4 = icmp ugt v2, v3
    return v4",
    );
}

#[test]
fn small_memcmp_aligned_eq(rt: HostRuntime) {
    asserts_compared(
        &rt,
        rt.alloc(),
        IntCC::Equal,
        4,
        4,
        "
block0:
    v6 = iconst.i64 0
    v1 -> v6
    v5 = iconst.i64 0
    v0 -> v5
    v2 = load.i32 aligned v0  ; v0 = 0
    v3 = load.i32 aligned v1  ; v1 = 0
    v4 = icmp eq v2, v3
    return v4",
    );
}

#[test]
fn small_memcmp_ipv6_ne(rt: HostRuntime) {
    asserts_compared(
        &rt,
        rt.alloc(),
        IntCC::NotEqual,
        16,
        2,
        "
block0:
    v6 = iconst.i64 0
    v1 -> v6
    v5 = iconst.i64 0
    v0 -> v5
    v2 = load.i128 v0  ; v0 = 0
    v3 = load.i128 v1  ; v1 = 0
    v4 = icmp ne v2, v3
    return v4",
    );
}

#[test]
fn small_memcmp_odd_size_uge(rt: HostRuntime) {
    asserts_compared(
        &rt,
        rt.alloc(),
        IntCC::UnsignedGreaterThanOrEqual,
        3,
        1,
        "
    sig0 = (i64, i64, i64) -> i32 system_v
    fn0 = %Memcmp sig0

block0:
    v7 = iconst.i64 0
    v1 -> v7
    v6 = iconst.i64 0
    v0 -> v6
    v2 = iconst.i64 3
    v3 = call fn0(v0, v1, v2)  ; v0 = 0, v1 = 0, v2 = 3
    v4 = iconst.i32 0
    v5 = icmp sge v3, v4  ; v4 = 0
    return v5",
    );
}
