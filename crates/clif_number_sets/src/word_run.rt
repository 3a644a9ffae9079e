//! Words from a number on, without the zeros before the first and after the last word that has a bit.
ghost use Rattle.std.specs.Prelude.{◌≡◌, ◌+◌, ◌^◌, ◌<◌, ◌≤◌, ℕ, [], max, false, length, IsTrue, IfOk, OnOk, OnErr, IsOk, IsOkUnless};
ghost use Rattle.clif_number_sets.specs.Words.{spread, word_of, AreUnited, HasNew, IsTrimmed, LieWithin};

use crate::words::{first_used, join_words, used_end};
use clif_types::BuildError;
use std::alloc::Global;

/// Words from a number on. Each word before them and after them is zero.
#[derive(Drop)]
pub(crate) struct WordRun {
    /// The words, of which the first and the last have a bit.
    pub(crate) words: Vec<u64>,
    /// The number of the first of them.
    pub(crate) first: usize,
    ghost trimmed: { IsTrimmed words.items },
}

impl WordRun {
    ghost use Rattle.std.specs.Prelude.{◌≡◌, ◌+◌, ◌<◌, ◌≤◌, [], false, length, IsTrue, IfOk, OnOk, OnErr, IsOkUnless};
    ghost use Rattle.clif_number_sets.specs.Runs.{run_words};
    ghost use Rattle.clif_number_sets.specs.Words.{word_of, AreUnited, HasNew, LieWithin};

    /// No words.
    pub(crate) fn new(alloc: Global) -> WordRun
        ensures { (result.first ≡ 0) × (result.words.items ≡ []) }
    {
        WordRun {
            words: Vec::new(alloc),
            first: 0,
        }
    }

    /// The word of a number.
    pub(crate) fn word(&self, number: usize) -> u64
        ensures { result ≡ word_of (run_words self.now) number }
    {
        match number.checked_sub(self.first) {
            Some(place) => self.words.get(place).copied().unwrap_or(0),
            None => 0,
        }
    }

    /// Adds the bits of other words, which reach at least as far, and tells whether any of them is new. Only the words from
    /// `first` to before `end` may have a bit, and no others are looked at.
    ///
    /// # Errors
    /// `Memory` alone, and only where a bit is new. Then nothing changes.
    pub(crate) fn add(
        &mut self,
        others: &[u64],
        first: usize,
        end: usize,
    ) -> Result<bool, BuildError>
        requires inside { self.old.first + length self.old.words.items ≤ length others.now }
        requires within { LieWithin first end others.now }
        ensures united { OnOk result
            (AreUnited (run_words self.old) others.now (run_words self.new)) }
        ensures inside { self.new.first + length self.new.words.items ≤ length others.now }
        ensures grown { IfOk result
            (λ grown. IsTrue grown → HasNew (run_words self.old) (run_words self.new)) }
        ensures kept { IfOk result
            (λ grown. grown ≡ false → run_words self.new ≡ run_words self.old) }
        ensures unchanged { OnErr result (run_words self.new ≡ run_words self.old) }
        ensures fresh { OnErr result (HasNew (run_words self.old) others.now) }
        ensures memory_alone { IsOkUnless result BuildError.Memory }
    {
        let Some(low) = first_used(others, first, end) else {
            return Ok(false);
        };
        let used = &others[low..used_end(&others[..end])];
        let start = self.start(low);
        if start <= low && low + used.len() <= start + self.words.len() {
            return Ok(join_words(self.words.as_mut_slice(), low - start, used));
        }
        *self = joined_run(
            *self.words.allocator(),
            start,
            self.words.as_slice(),
            low,
            used,
        )?;
        Ok(true)
    }

    // Where the words begin: no words begin anywhere.
    fn start(&self, low: usize) -> usize
        ensures none { length self.now.words.items ≡ 0 → result ≡ low }
        ensures some { 0 < length self.now.words.items → result ≡ self.now.first }
    {
        if self.words.is_empty() {
            low
        } else {
            self.first
        }
    }
}

// The words that have the bits of two runs, of which the second has words. A run with none begins where the other does.
fn joined_run(
    alloc: Global,
    first: usize,
    words: &[u64],
    low: usize,
    used: &[u64],
) -> Result<WordRun, BuildError>
    requires some { 0 < length used.now }
    requires none { length words.now ≡ 0 → first ≡ low }
    requires trimmed { IsTrimmed words.now × IsTrimmed used.now }
    requires fits { (first + length words.now < 2 ^ 64) × (low + length used.now < 2 ^ 64) }
    ensures united { IfOk result (λ run. AreUnited (spread first words.now) (spread low used.now)
        (spread run.first run.words.items)) }
    ensures end { IfOk result (λ run. run.first + length run.words.items
        ≡ max (first + length words.now) (low + length used.now)) }
    ensures memory_alone { IsOkUnless result BuildError.Memory }
{
    let start = first.min(low);
    let end = (first + words.len()).max(low + used.len());
    let mut joined = vec![in alloc; 0u64; end - start]?;
    join_words(joined.as_mut_slice(), first - start, words);
    join_words(joined.as_mut_slice(), low - start, used);
    Ok(WordRun {
        words: joined,
        first: start,
    })
}
