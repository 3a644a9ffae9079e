//! Sets that have a bit for each number below their size.
ghost use Rattle.std.specs.Prelude.{◌≡◌, ◌<◌, ◌||◌, false, true, length, replicate, slice_set, IfOk, IsOkUnless};
ghost use Rattle.clif_number_sets.specs.Sets.{is_in, IsNext, IsSet};
ghost use Rattle.clif_number_sets.specs.Words.{words_for};

use crate::number_row::NumberRow;
use crate::words::{erase, join_words, next_mark};
use clif_types::BuildError;
use std::alloc::Global;
use std::marker::Model;

/// A set of numbers below its size: number `n` is bit `n % 64` of word `n / 64`.
///
/// It keeps the range of the words that may have a bit. The range grows with the members, and only
/// [`clear`](NumberSet::clear) makes it empty, so a set that is cleared for each of many tasks costs what the members of
/// each reach, and not its size each time.
#[derive(Drop)]
pub struct NumberSet {
    // As many as the size needs. No bit is set from the size on.
    pub(crate) words: Vec<u64>,
    // Words before this one have no bit. It is the number of words where the range is empty.
    pub(crate) first: usize,
    // Words from this one on have no bit. It is zero where the range is empty.
    pub(crate) end: usize,
    size: usize,
}

impl Model for NumberSet {
    ghost use Rattle.std.specs.Prelude.{◌≡◌, Bool, List, length};
    ghost use Rattle.clif_number_sets.specs.Words.{marks_of, words_for, LieWithin, NoneFrom};

    ghost Value = { List Bool };

    ghost view = { λ s. marks_of s.size s.words.items };

    ghost invariant = { λ s. (length s.words.items ≡ words_for s.size)
        × NoneFrom s.size s.words.items
        × LieWithin s.first s.end s.words.items };
}

impl NumberSet {
    /// The empty set of numbers below `size`.
    ///
    /// # Errors
    /// `Memory` alone.
    pub fn new(alloc: Global, size: usize) -> Result<Self, BuildError>
        ensures ok { IfOk result (λ set. set ≡ replicate size false) }
        ensures memory_alone { IsOkUnless result BuildError.Memory }
    {
        let words = vec![in alloc; 0u64; size.div_ceil(64)]?;
        Ok(NumberSet {
            first: words.len(),
            end: 0,
            words,
            size,
        })
    }

    /// How many numbers there are, members or not.
    pub fn size(&self) -> usize
        ensures { result ≡ length self.now }
    {
        self.size
    }

    /// Whether a number is a member.
    pub fn contains(&self, place: usize) -> bool
        requires { place < length self.now }
        ensures { result ≡ is_in self.now place }
    {
        self.words[place / 64] >> (place % 64) & 1 == 1
    }

    /// The least member at or above a number. It takes time for the words of the range from there to the one found, so a
    /// walk over the members takes time for the words of the range and the members.
    pub fn next_from(&self, place: usize) -> Option<usize>
        ensures { IsNext self.now place result }
    {
        if place >= self.size || self.first >= self.end {
            return None;
        }
        next_mark(&self.words[..self.end], place.max(64 * self.first))
    }

    /// Makes a number a member. Its word is in the range from now on.
    pub fn insert(&mut self, place: usize)
        requires { place < length self.old }
        ensures { self.new ≡ slice_set self.old place true }
    {
        let number = place / 64;
        self.words[number] |= 1 << (place % 64);
        self.first = self.first.min(number);
        self.end = self.end.max(number + 1);
    }

    /// Makes a number no member.
    pub fn remove(&mut self, place: usize)
        requires { place < length self.old }
        ensures { self.new ≡ slice_set self.old place false }
    {
        self.words[place / 64] &= !(1 << (place % 64));
    }

    /// Leaves no member, and no word in the range. It takes time for the words that were in the range.
    pub fn clear(&mut self)
        ensures { IsSet (length self.old) (λ place. false) self.new }
    {
        erase(self.words.as_mut_slice(), self.first, self.end);
        self.first = self.words.len();
        self.end = 0;
    }

    /// Adds the members of a row. It takes time for the row's words alone, which are in the range from now on.
    pub fn add_all(&mut self, other: &NumberRow)
        requires { length self.old ≡ length other.now }
        ensures { IsSet (length self.old)
            (λ place. is_in other.now place || is_in self.old place) self.new }
    {
        let row = &other.run;
        if row.words.is_empty() {
            return;
        }
        join_words(self.words.as_mut_slice(), row.first, row.words.as_slice());
        self.first = self.first.min(row.first);
        self.end = self.end.max(row.first + row.words.len());
    }
}
