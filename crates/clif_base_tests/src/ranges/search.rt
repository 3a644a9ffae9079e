//! Search trees: which block a key reaches, behind how many branches. The rows are those of Cranelift's test of a switch with
//! several ranges.
#![tactic(auto)]

use crate::ranges::switches::gathered;
use clif_ranges::{CaseRange, Next, Node, Test, search_tree};
use clif_types::Block;
use std::alloc::Global;
use std::process::Abort;
use std::test::Fail;

/// Keys, and the numbers of their blocks.
const MANY: [(u128, u8); 7] = [(0, 1), (1, 2), (5, 3), (7, 4), (10, 5), (11, 6), (12, 7)];

// The block of a key in a range.
fn block_of(range: &CaseRange, key: u128) -> Option<Block> {
    let place = usize::try_from(key.checked_sub(range.first)?).ok()?;
    range.blocks.get(place).copied()
}

// What a test comes to: a node, or a block, or none.
fn tested(test: Test<'_>, key: u128) -> Result<usize, Option<Block>> {
    match test {
        Test::Table { range } => Err(block_of(range, key)),
        Test::OneKey { range, .. } if key == range.first => Err(block_of(range, key)),
        Test::NotBelow { first, above, .. } if key >= first => Ok(above),
        Test::OneKey { other, .. } | Test::NotBelow { other, .. } => match other {
            Next::Otherwise => Err(None),
            Next::Node(number) => Ok(number),
        },
        Test::Nothing => Err(None),
    }
}

// The number of the block that a search comes to, 0 for a key without a case, and how many branches it takes; none if control
// leads to no node.
fn found(nodes: &[Node<'_>], key: u128) -> Option<(u32, u32)> {
    let mut number = 0;
    let mut branches: u32 = 0;
    for node in nodes {
        if node.number != number {
            continue;
        }
        if !matches!(node.test, Test::Table { .. } | Test::Nothing) {
            branches = branches.wrapping_add(1);
        }
        match tested(node.test, key) {
            Ok(next) => number = next,
            Err(Some(block)) => return Some((block.as_u32(), branches)),
            Err(None) => return Some((0, branches)),
        }
    }
    None
}

// The nodes of a search among the ranges of these cases have these numbers, and keys come to these blocks behind so many branches.
fn searches(
    rt: &impl Abort,
    alloc: Global,
    rows: &[(u128, u8)],
    numbers: &[usize],
    keys: &[(u128, (u32, u32))],
) -> Result<(), Fail> {
    let ranges = gathered(alloc, rows)?;
    let Ok(nodes) = search_tree(alloc, ranges.as_slice()) else {
        return Err("no nodes")?;
    };
    let nodes = nodes.as_slice();
    assert!(rt; nodes.len() == numbers.len());
    for (node, number) in nodes.iter().zip(numbers) {
        assert!(rt; node.number == *number);
    }
    for (key, wanted) in keys {
        assert!(rt; found(nodes, *key) == Some(*wanted));
    }
    Ok(())
}

/// The nodes stand as the blocks of the switch do, and each key reaches its block.
#[test]
fn many_ranges(rt: HostRuntime) -> Result<(), Fail> {
    let keys = [
        (0, (1, 2)),
        (1, (2, 2)),
        (2, (0, 2)),
        (5, (3, 2)),
        (6, (0, 2)),
        (7, (4, 3)),
        (9, (0, 3)),
        (10, (5, 2)),
        (12, (7, 2)),
        (13, (0, 2)),
        (u128::MAX, (0, 2)),
    ];
    searches(&rt, rt.alloc(), &MANY, &[0, 2, 4, 3, 1, 5], &keys)
}

/// Without a case there is one node, without a test.
#[test]
fn no_range(rt: HostRuntime) -> Result<(), Fail> {
    searches(&rt, rt.alloc(), &[], &[0], &[(0, (0, 0)), (7, (0, 0))])
}

/// One range: a key alone is compared with, and several keys are a table, behind a comparison unless they begin at 0.
#[test]
fn one_range(rt: HostRuntime) -> Result<(), Fail> {
    let alloc = rt.alloc();
    searches(&rt, alloc, &[(0, 1)], &[0], &[(0, (1, 1)), (1, (0, 1))])?;
    let table = [(0, 1), (1, 2)];
    searches(&rt, alloc, &table, &[0], &[(0, (1, 0)), (2, (0, 0))])?;
    let later = [(1, 1), (2, 2)];
    searches(&rt, alloc, &later, &[0, 1], &[(1, (1, 1)), (0, (0, 1))])
}

/// Two ranges: the higher one is tested first.
#[test]
fn two_ranges(rt: HostRuntime) -> Result<(), Fail> {
    let keys = [(2, (2, 1)), (0, (1, 2)), (1, (0, 2))];
    searches(&rt, rt.alloc(), &[(0, 1), (2, 2)], &[0, 1], &keys)
}
