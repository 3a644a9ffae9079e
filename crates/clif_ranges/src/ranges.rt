//! The cases of a switch, gathered into the fewest ranges of consecutive keys.
#![tactic(auto)]

ghost use Rattle.std.specs.Prelude.{◌≡◌, ◌≤◌, ◌↔◌, All, IfOk, IsTrue, OnErr, OnOk};
ghost use Rattle.clif_ranges.specs.Ranges.{AddsCase, AreFewest, AreRangesOf, end_of};
ghost use Rattle.clif_types.specs.declared.error.BuildError.TheVariants as BuildError;

use clif_types::{Block, BuildError};
use std::alloc::Global;
use std::collections::BTreeMap;

/// Cases with consecutive keys.
#[derive(Debug, Drop)]
pub struct CaseRange {
    /// The key of the first case.
    pub first: u128,
    /// The block of the first case, and those of the keys after it.
    pub blocks: Vec<Block>,
}

// Whether the key comes right behind the last one of the range.
fn ends_before(range: &CaseRange, key: u128) -> bool
    ensures { IsTrue result ↔ (end_of range.now ≡ key) }
{
    // the end itself may not fit, where the range holds the highest key
    key.checked_sub(range.first) == Some(range.blocks.len() as u128)
}

// One case more, of a key that is behind those of the ranges.
fn add_case(
    alloc: Global,
    ranges: &mut Vec<CaseRange>,
    key: u128,
    block: Block,
) -> Result<(), BuildError>
    requires behind { All (λ range. end_of range ≤ key) ranges.old.items }
    ensures ok { OnOk result (AddsCase key block ranges.old.items ranges.new.items) }
    ensures only_memory { OnErr result (result ≡ Err BuildError.Memory) }
{
    match ranges.last_mut() {
        Some(range) if ends_before(range, key) => range.blocks.push(block)?,
        _ => ranges.push(CaseRange {
            first: key,
            blocks: vec![in alloc; block]?,
        })?,
    }
    Ok(())
}

/// The fewest ranges that the cases make, by rising keys.
///
/// # Errors
///
/// `Memory`, where memory is refused.
pub fn ranges_of(alloc: Global, cases: &BTreeMap<u128, Block>) -> Result<Vec<CaseRange>, BuildError>
    ensures ok { IfOk result (λ ranges. AreRangesOf cases.now.entries ranges.items) }
    ensures fewest { IfOk result (λ ranges. AreFewest ranges.items) }
    ensures only_memory { OnErr result (result ≡ Err BuildError.Memory) }
{
    let mut ranges = Vec::new(alloc);
    for (key, block) in cases.iter() {
        add_case(alloc, &mut ranges, *key, *block)?;
    }
    Ok(ranges)
}
