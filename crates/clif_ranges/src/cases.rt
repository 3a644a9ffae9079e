//! The cases of a switch.
#![tactic(auto)]

ghost use Rattle.std.specs.Prelude.{◌≡◌, ◌≢◌, ◌↔◌, ◌⊎◌, ◌≤◌, ℕ, [], All, IfErr, IfOk, IfSome, IsTrue, MatchBool, MatchOption, OnErr, OnOk};
ghost use Rattle.std.specs.FinMap as map;
ghost use Rattle.clif_ranges.specs.Cases.{cases_in, CaseMap, case_map_code, AreRangesFor, FitsTable, IsGreatestKey, IsKeyTooWide, IsRefusal};
ghost use Rattle.clif_ranges.specs.Ranges.{AreFewest};
ghost use Rattle.clif_types.specs.declared.types.«Type».TheVariants.{Invalid};
ghost use Rattle.clif_ranges.specs.declared.error.SwitchError.TheVariants as SwitchError;
ghost use Rattle.clif_types.specs.declared.error.BuildError.TheVariants as BuildError;

use crate::error::SwitchError;
use crate::ranges::{CaseRange, ranges_of};
use clif_types::{Block, BuildError, Type};
use std::alloc::{AllocError, Global};
use std::collections::{BTreeMap, HashMap};
use std::marker::Model;

/// The cases of a switch: for some keys a block.
#[derive(Debug, Drop)]
pub struct Cases {
    blocks: HashMap<u128, Block>,
}

impl Model for Cases {
    ghost Value = { CaseMap };

    ghost coded = { case_map_code };

    ghost view = { λ c. cases_in c.blocks };
}

impl Cases {
    /// No case.
    pub fn new(alloc: Global) -> Cases
        ensures { result ≡ map.empty }
    {
        Cases {
            blocks: HashMap::new(alloc),
        }
    }

    /// The block of each key.
    pub fn entries(&self) -> &HashMap<u128, Block>
        ensures { cases_in result.now ≡ self.now }
    {
        &self.blocks
    }

    /// A case more.
    ///
    /// # Errors
    ///
    /// `SetTwice`, exactly where the key has a case; or `Build(Memory)`, where memory is refused. The cases are as they were then.
    pub fn set(&mut self, key: u128, block: Block) -> Result<(), SwitchError>
        ensures ok { OnOk result (self.new ≡ map.insert self.old key block) }
        ensures err { OnErr result (self.new ≡ self.old) }
        ensures twice { (result ≡ Err (SwitchError.SetTwice key)) ↔ IsTrue (map.contains_key self.old key) }
        ensures only { OnErr result ((result ≡ Err (SwitchError.SetTwice key)) ⊎ (result ≡ Err (SwitchError.Build BuildError.Memory))) }
    {
        if self.blocks.contains_key(&key) {
            return Err(SwitchError::SetTwice(key));
        }
        match self.blocks.insert(key, block) {
            Ok(_) => Ok(()),
            Err(_) => Err(SwitchError::Build(BuildError::Memory)),
        }
    }

    // The greatest key that has a case.
    fn greatest_key(&self) -> Option<u128>
        ensures greatest { MatchOption result (map.entries self.now ≡ []) (IsGreatestKey self.now) }
        ensures above { IfSome result (λ max. All (λ case. case.0 ≤ max) (map.entries self.now)) }
    {
        self.blocks.keys().copied().max()
    }

    // The cases by rising keys.
    fn sorted(&self, alloc: Global) -> Result<BTreeMap<u128, Block>, AllocError>
        ensures { IfOk result (λ sorted. sorted.entries ≡ map.entries self.now) }
    {
        let mut sorted = BTreeMap::new(alloc);
        sorted.extend(self.blocks.iter())?;
        Ok(sorted)
    }

    /// The fewest ranges of consecutive keys that the cases make, by rising keys, where a value of this type is
    /// compared with them.
    ///
    /// # Errors
    ///
    /// `KeyTooWide`, exactly where the greatest key isn't an unsigned number of the bits of the type, or of its lane. Else `TableTooLong`,
    /// where a range has 2^32 keys or more; or `Build(Memory)`, where memory is refused.
    pub fn ranges(&self, alloc: Global, ty: Type) -> Result<Vec<CaseRange>, SwitchError>
        requires { ty ≢ Invalid }
        ensures ok { IfOk result (λ ranges. AreRangesFor self.now ty ranges.items) }
        ensures fewest { IfOk result (λ ranges. AreFewest ranges.items) }
        ensures err { IfErr result (IsRefusal self.now ty) }
        ensures too_wide { (max : ℕ) → (result ≡ Err (SwitchError.KeyTooWide ty max)) ↔ IsKeyTooWide self.now ty max }
    {
        if let Some(max) = self.greatest_key() {
            if max > ty.bounds(false).1 {
                return Err(SwitchError::KeyTooWide { ty, max });
            }
        }
        let sorted = self.sorted(alloc)?;
        let ranges = ranges_of(alloc, &sorted)?;
        if has_too_long(ranges.as_slice()) {
            return Err(SwitchError::TableTooLong);
        }
        Ok(ranges)
    }
}

// A jump table has fewer entries.
const TABLE_END: usize = 1 << 32;

// Whether a range is too long for a jump table.
fn has_too_long(ranges: &[CaseRange]) -> bool
    ensures { MatchBool result (¬ (All FitsTable ranges.now)) (All FitsTable ranges.now) }
{
    for range in ranges {
        if range.blocks.len() >= TABLE_END {
            return true;
        }
    }
    false
}
