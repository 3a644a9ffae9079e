//! Look-ups over many blocks: each block is asked a bounded number of times.
#![tactic(auto)]

use super::facts::Fact::{Lookups, ParamAt, Params, Records, Resolves};
use super::steps::Step::{Brif, Create, Define, Goes, Iconst, Leads, Seal};
use super::steps::make_all;
use super::support::Fixture;
use clif_types::types::I32;
use std::alloc::Global;
use std::process::Abort;
use std::test::Fail;

// A chain of blocks, each sealed with the one before it as its only predecessor: the variable is assigned
// in the first and used in the last. The walk goes along the chain, and all blocks know the value then.
fn used_along(rt: &impl Abort, alloc: Global, count: u32) -> Result<Fixture, Fail> {
    let mut made = Fixture::new(alloc, "a chain");
    make_all(
        rt,
        &mut made,
        &[Create, Seal(0, 0), Iconst(0, 5), Define(0, 0, 0)],
    )?;
    for last in 0..count {
        let next = last + 1;
        make_all(rt, &mut made, &[Create, Goes(last, next), Seal(next, 0)])?;
    }
    made.uses(rt, count, 0, I32, Some(0))?;
    Ok(made)
}

/// A use at the end of a long chain, and one at the end of a chain twice as long. No look-up in
/// predecessors begins.
#[test]
fn chains(rt: HostRuntime) -> Result<(), Fail> {
    for count in [50_000, 100_000] {
        let made = used_along(&rt, rt.alloc(), count)?;
        made.holds(&rt, Lookups(count, 0, 0));
    }
    Ok(())
}

/// A chain of 1,000 blocks, and one variable of 1,000 that is assigned in the first and used in the last:
/// there is a record for each block, none for the variables of which nothing is known, and no look-up in
/// predecessors began.
#[test]
fn sparse_records(rt: HostRuntime) -> Result<(), Fail> {
    let made = used_along(&rt, rt.alloc(), 999)?;
    made.holds(&rt, Records(1_000));
    for block in 0..1_000 {
        made.holds(&rt, Lookups(block, 0, 0));
    }
    Ok(())
}

// Puts one more diamond below so many: in the block above it a constant and a branch by that, and in each
// arm a jump to the block in which the arms meet.
fn diamond(rt: &impl Abort, made: &mut Fixture, number: u32) -> Result<(), Fail> {
    assert!(rt; number < 100_000);
    let top = 3 * number;
    let [left, right, bottom] = [top + 1, top + 2, top + 3];
    // The first instruction is the one above all diamonds, and each diamond has four.
    let branch = 4 * number + 2;
    let steps = [
        Create,
        Create,
        Create,
        Iconst(top, 1),
        Brif(top, number + 1, left, right),
        Leads(left, branch),
        Leads(right, branch),
        Goes(left, bottom),
        Goes(right, bottom),
    ];
    make_all(rt, made, &steps)
}

// Uses the variable in the last block, and seals all blocks then: the parameter that the use made, which has this number,
// stands for the value above all diamonds.
fn uses_last(rt: &impl Abort, made: &mut Fixture, last: u32, used: u32) -> Result<(), Fail> {
    made.uses(rt, last, 0, I32, Some(used))?;
    made.holds(rt, Params(last, 1));
    made.holds(rt, ParamAt(last, 0, used));
    made.seal_all(rt, 0)?;
    made.holds(rt, Resolves(used, 0));
    Ok(())
}

// In the block below a diamond one look-up began, and it has no parameter.
fn looked_once(rt: &impl Abort, made: &Fixture, number: u32) {
    assert!(rt; number < 100_000);
    let bottom = 3 * number + 3;
    made.holds(rt, Lookups(bottom, 0, 1));
    made.holds(rt, Params(bottom, 0));
}

// Diamonds below each other, which are sealed when all are made: the variable is assigned above them and
// used below. In each block where arms meet one look-up began.
fn uses_below(rt: &impl Abort, alloc: Global, count: u32) -> Result<(), Fail> {
    assert!(rt; count < 100_000);
    let mut made = Fixture::new(alloc, "diamonds");
    make_all(rt, &mut made, &[Create, Iconst(0, 5), Define(0, 0, 0)])?;
    for number in 0..count {
        diamond(rt, &mut made, number)?;
    }
    // The value is behind the one above all diamonds, and the one of each diamond.
    uses_last(rt, &mut made, 3 * count, count + 1)?;
    for number in 0..count {
        looked_once(rt, &made, number);
    }
    Ok(())
}

/// Diamonds below each other, and twice as many.
#[test]
fn diamonds(rt: HostRuntime) -> Result<(), Fail> {
    for count in [5_000, 10_000] {
        uses_below(&rt, rt.alloc(), count)?;
    }
    Ok(())
}
