//! Sets that keep the words from the one of their least member to the one of their greatest alone.
ghost use Rattle.std.specs.Prelude.{◌≡◌, ◌<◌, ◌||◌, false, length, replicate, IsTrue, IfOk, OnOk, OnErr, IsOk, IsOkUnless};
ghost use Rattle.clif_number_sets.specs.Sets.{is_in, Grows, IsSet, IsWithin, SpansWords};

use crate::number_set::NumberSet;
use crate::word_run::WordRun;
use crate::words::law_fits;
use clif_types::BuildError;
use std::alloc::Global;
use std::marker::Model;

/// A set of numbers below its size that only grows, with no more words than lead from its least member to its
/// greatest.
#[derive(Drop)]
pub struct NumberRow {
    // The words that have members, from the first of them to the last.
    pub(crate) run: WordRun,
    size: usize,
}

impl Model for NumberRow {
    ghost use Rattle.std.specs.Prelude.{◌+◌, ◌≤◌, Bool, List, length};
    ghost use Rattle.clif_number_sets.specs.Runs.{run_words};
    ghost use Rattle.clif_number_sets.specs.Words.{marks_of, words_for, NoneFrom};

    ghost Value = { List Bool };

    ghost view = { λ r. marks_of r.size (run_words r.run) };

    ghost invariant = { λ r. (r.run.first + length r.run.words.items ≤ words_for r.size)
        × NoneFrom r.size (run_words r.run) };
}

impl NumberRow {
    /// The empty set of numbers below `size`. It takes no memory.
    pub fn new(alloc: Global, size: usize) -> Self
        ensures { result ≡ replicate size false }
    {
        NumberRow {
            run: WordRun::new(alloc),
            size,
        }
    }

    /// How many numbers there are, members or not.
    pub fn size(&self) -> usize
        ensures { result ≡ length self.now }
    {
        self.size
    }

    /// How many words it keeps: those from the word of its least member to the word of its greatest.
    pub fn words(&self) -> usize
        ensures { SpansWords self.now result }
    {
        law_fits(self.run.words.as_slice());
        self.run.words.len()
    }

    /// Whether a number is a member.
    pub fn contains(&self, place: usize) -> bool
        requires { place < length self.now }
        ensures { result ≡ is_in self.now place }
    {
        self.run.word(place / 64) >> (place % 64) & 1 == 1
    }

    /// Adds the members of a set, and tells whether any of them is new. It takes time for the words of the set's range, and
    /// for the row's own where it comes to keep more of them.
    ///
    /// # Errors
    /// `Memory` alone, and only where a member is new. Then nothing changes.
    pub fn add_all(&mut self, other: &NumberSet) -> Result<bool, BuildError>
        requires { length self.old ≡ length other.now }
        ensures union { OnOk result (IsSet (length self.old)
            (λ place. is_in other.now place || is_in self.old place) self.new) }
        ensures grown { IfOk result (λ grown. IsTrue grown → Grows self.old self.new) }
        ensures kept { IfOk result (λ grown. grown ≡ false → self.new ≡ self.old) }
        ensures unchanged { OnErr result (self.new ≡ self.old) }
        ensures known { IsWithin other.now self.old → IsOk result }
        ensures memory_alone { IsOkUnless result BuildError.Memory }
    {
        self.run.add(other.words.as_slice(), other.first, other.end)
    }
}
