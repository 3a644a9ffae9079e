//! Writes that are refused to each program.
#![tactic(auto)]

use crate::data::DIAMOND;
use crate::support::Program::{Build, Execute, Rows};
use crate::support::{MANY, Outcome, Program, row_of};
use clif_script::STEPS;
use std::alloc::Global;
use std::process::Abort;
use std::test::Fail;

/// The names of the rows, as `rows` prints them.
pub const NAMES: &str =
    "first\nmemcpy\nreordering\nsample\nsample_late\nboth_arms\nundef_vectors\nswitch_many\nswitch_128bit_max_u64\nswitch_high\nswitch_border\ncopy12\ncopy40\nslot_reuse\nloop\nirreducible\ntry_call\nzero_marked\nmemcmp_odd\nchange_both\nchange_one\nempty\nregions\n";

// Each write of what a program prints is refused in turn, until all writes are taken: with this status the program prints to
// standard output, if that is 0, and else to standard error. Until then the status is 1, after the beginning of the text. Nothing
// is written to the other one.
fn stops_at_each_write(
    rt: &impl Abort,
    alloc: Global,
    program: Program<'_>,
    status: u8,
) -> Result<(), Fail> {
    let whole = program.run(alloc, MANY, MANY)?;
    assert_eq!(rt; whole.status, status);
    let (text, _) = streams(&whole, status);
    for writes in 0..MANY {
        let ran = match status {
            0 => program.run(alloc, writes, MANY)?,
            _ => program.run(alloc, MANY, writes)?,
        };
        let (written, other) = streams(&ran, status);
        assert!(rt; other.is_empty(), "after {writes} writes");
        assert!(rt; text.starts_with(written), "after {writes} writes");
        if ran.status == status {
            assert!(rt; writes > 0);
            assert_eq!(rt; written, text);
            return Ok(());
        }
        assert_eq!(rt; ran.status, 1, "after {writes} writes");
    }
    Err("no run wrote its text")?
}

// What was written where a program prints to with this status, and what was written to the other one.
fn streams(ran: &Outcome, status: u8) -> (&[u8], &[u8]) {
    match status {
        0 => (ran.out.as_slice(), ran.err.as_slice()),
        _ => (ran.err.as_slice(), ran.out.as_slice()),
    }
}

#[test]
fn refused_output(rt: HostRuntime) -> Result<(), Fail> {
    let alloc = rt.alloc();
    stops_at_each_write(&rt, alloc, Rows(&[]), 0)?;
    for name in NAMES.lines() {
        stops_at_each_write(&rt, alloc, Rows(&[name]), 0)?;
    }
    Ok(())
}

/// Programs that write to standard error.
const TOLD: &[Program<'_>] = &[Rows(&["loops"]), Rows(&["a", "b"]), Build(b"\nx")];

#[test]
fn refused_errors(rt: HostRuntime) -> Result<(), Fail> {
    for program in TOLD {
        stops_at_each_write(&rt, rt.alloc(), *program, 2)?;
    }
    Ok(())
}

/// Of `clif_build` no write is taken: to standard output, for a function and for a run, and to standard error.
#[test]
fn refused_writes(rt: HostRuntime) -> Result<(), Fail> {
    let first = row_of("first")?.as_bytes();
    for (program, out_writes, err_writes) in [
        (Build(DIAMOND.as_bytes()), 0, MANY),
        (Execute(first, "", STEPS), 0, MANY),
        (Execute(first, "1", STEPS), MANY, 0),
    ] {
        let ran = program.run(rt.alloc(), out_writes, err_writes)?;
        assert_eq!(rt; ran.status, 1);
        assert!(rt; ran.out.is_empty() && ran.err.is_empty());
    }
    Ok(())
}
