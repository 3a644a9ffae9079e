//! The ranges of small switches.
#![tactic(auto)]

ghost use Rattle.std.specs.Prelude.{IfOk};
ghost use Rattle.clif_ranges.specs.Search.{AreSeparate};

use clif_ranges::{CaseRange, ranges_of};
use clif_types::Block;
use std::alloc::Global;
use std::collections::BTreeMap;
use std::process::Abort;
use std::test::Fail;

// The ranges of cases: keys, and the numbers of their blocks.
pub(crate) fn gathered(alloc: Global, rows: &[(u128, u8)]) -> Result<Vec<CaseRange>, Fail>
    ensures { IfOk result (λ ranges. AreSeparate ranges.items) }
{
    let mut cases = BTreeMap::new(alloc);
    for (key, number) in rows {
        cases.insert(*key, Block::from_u32(u32::from(*number)))?;
    }
    Ok(ranges_of(alloc, &cases)?)
}

// The range at this place has this first key and blocks of these numbers.
fn is_range(rt: &impl Abort, ranges: &[CaseRange], place: usize, first: u128, numbers: &[u32]) {
    let range = ranges.get(place).expect(rt, "no range");
    assert!(rt; range.first == first);
    assert!(rt; range.blocks.len() == numbers.len());
    for (block, number) in range.blocks.iter().zip(numbers) {
        assert!(rt; block.as_u32() == *number);
    }
}

/// No case makes no range.
#[test]
fn empty(rt: HostRuntime) -> Result<(), Fail> {
    assert!(rt; gathered(rt.alloc(), &[])?.is_empty());
    Ok(())
}

/// One case makes one range, at the lowest and at the highest key too.
#[test]
fn single(rt: HostRuntime) -> Result<(), Fail> {
    for key in [0, 1, u128::MAX].iter() {
        let ranges = gathered(rt.alloc(), &[(*key, 1)])?;
        assert!(rt; ranges.len() == 1);
        is_range(&rt, ranges.as_slice(), 0, *key, &[1]);
    }
    Ok(())
}

/// Consecutive keys make one range, and a key that is left out begins another.
#[test]
fn two(rt: HostRuntime) -> Result<(), Fail> {
    let joined = gathered(rt.alloc(), &[(0, 1), (1, 2)])?;
    assert!(rt; joined.len() == 1);
    is_range(&rt, joined.as_slice(), 0, 0, &[1, 2]);
    let apart = gathered(rt.alloc(), &[(0, 1), (2, 2)])?;
    assert!(rt; apart.len() == 2);
    is_range(&rt, apart.as_slice(), 0, 0, &[1]);
    is_range(&rt, apart.as_slice(), 1, 2, &[2]);
    Ok(())
}

/// Ranges of one to three keys.
#[test]
fn many(rt: HostRuntime) -> Result<(), Fail> {
    let rows = [(0, 1), (1, 2), (5, 3), (7, 4), (10, 5), (11, 6), (12, 7)];
    let ranges = gathered(rt.alloc(), &rows)?;
    assert!(rt; ranges.len() == 4);
    is_range(&rt, ranges.as_slice(), 0, 0, &[1, 2]);
    is_range(&rt, ranges.as_slice(), 1, 5, &[3]);
    is_range(&rt, ranges.as_slice(), 2, 7, &[4]);
    is_range(&rt, ranges.as_slice(), 3, 10, &[5, 6, 7]);
    Ok(())
}

/// Cases that weren't given by rising keys.
#[test]
fn out_of_order(rt: HostRuntime) -> Result<(), Fail> {
    let joined = gathered(rt.alloc(), &[(1, 1), (0, 2)])?;
    assert!(rt; joined.len() == 1);
    is_range(&rt, joined.as_slice(), 0, 0, &[2, 1]);
    let last_first = gathered(rt.alloc(), &[(255, 1), (0, 2), (1, 3)])?;
    assert!(rt; last_first.len() == 2);
    is_range(&rt, last_first.as_slice(), 0, 0, &[2, 3]);
    is_range(&rt, last_first.as_slice(), 1, 255, &[1]);
    Ok(())
}

/// The highest key ends a range or is one, and the lowest doesn't follow it.
#[test]
fn highest(rt: HostRuntime) -> Result<(), Fail> {
    let joined = gathered(rt.alloc(), &[(u128::MAX - 1, 1), (u128::MAX, 2)])?;
    assert!(rt; joined.len() == 1);
    is_range(&rt, joined.as_slice(), 0, u128::MAX - 1, &[1, 2]);
    let ends = gathered(rt.alloc(), &[(0, 1), (u128::MAX, 2)])?;
    assert!(rt; ends.len() == 2);
    is_range(&rt, ends.as_slice(), 0, 0, &[1]);
    is_range(&rt, ends.as_slice(), 1, u128::MAX, &[2]);
    Ok(())
}
