//! The words of a line, one after the other.
ghost use Rattle.std.specs.Prelude.{◌≡◌, ◌≤◌, None, length};

use crate::error::{Expected, Fault, LineError};
use crate::types::type_named;
use clif_types::{MemFlagsData, Type};

/// The words of a line, of which so many were taken.
#[derive(Clone, Copy)]
pub struct Cursor<'w, 'a> {
    words: &'w [&'a str],
    taken: usize,
    // the place of the word that was looked at last, whether it was taken or not
    looked: usize,
    ghost within: { taken ≤ length words.now },
}

#[tactic(auto, using(crate::proofs::Left::left_rules))]
impl<'w, 'a> Cursor<'w, 'a> {
    ghost use Rattle.std.specs.Prelude.{◌≡◌, ◌≢◌, ◌∷◌, ◌↔◌, [], ℕ, List, IfOk, IfNone, IfSome, OnErr, IsOk, IsTrue, slice_get};
    ghost use Rattle.std.specs.Bool.{OnTrue, OnFalse};
    ghost use Rattle.std.specs.Option.{option_map};
    ghost use Rattle.clif_words.specs.Cursor.{Looks, TakesFlags, refused_place, texts, words_left};
    ghost use Rattle.clif_words.specs.Spelling.{IsTypeWord};

    /// All words of a line, none of them taken.
    pub fn new(words: &'w [&'a str]) -> Cursor<'w, 'a>
        ensures { words_left result ≡ texts words.now }
    {
        Cursor {
            words,
            taken: 0,
            looked: 0,
        }
    }

    /// Whether no word is left.
    pub fn is_empty(&self) -> bool
        ensures { IsTrue result ↔ (words_left self.now ≡ []) }
    {
        self.taken == self.words.len()
    }

    /// Takes the next word.
    ///
    /// # Errors
    ///
    /// Where none is left: the line is refused, and `expected` says what should be there.
    pub fn take(&mut self, expected: Expected) -> Result<&'a str, LineError<'a>>
        ensures looked { Looks self.old self.new }
        ensures ok { IfOk result (λ word. words_left self.old ≡ word.now ∷ words_left self.new) }
        ensures err { OnErr result (words_left self.old ≡ []) }
    {
        self.looked = self.taken;
        match self.words.get(self.taken) {
            Some(word) => {
                self.taken += 1;
                Ok(*word)
            }
            None => Err(LineError::wanted(expected)),
        }
    }

    /// Takes the next word if it is this one.
    pub fn skips(&mut self, word: &str) -> bool
        ensures looked { Looks self.old self.new }
        ensures yes { OnTrue result (words_left self.old ≡ word.now ∷ words_left self.new) }
        ensures no { OnFalse result (words_left self.new ≡ words_left self.old) }
    {
        self.looked = self.taken;
        match self.words.get(self.taken) {
            Some(next) if *next == word => {
                self.taken += 1;
                true
            }
            _ => false,
        }
    }

    /// Takes the next word if it is a type.
    pub fn take_type(&mut self) -> Option<Type>
        ensures looked { Looks self.old self.new }
        ensures some { IfSome result (λ ty. (word : List ℕ) × (words_left self.old ≡
            word ∷ words_left self.new) × IsTypeWord word ty) }
        ensures none { IfNone result (words_left self.new ≡ words_left self.old) }
    {
        self.looked = self.taken;
        let ty = type_named(self.words.get(self.taken)?)?;
        self.taken += 1;
        Some(ty)
    }

    /// Takes the flags of a load or a store: `notrap` and `aligned`, in any order, each at most once.
    pub fn take_flags(&mut self) -> MemFlagsData
        ensures { TakesFlags self.old self.new result }
    {
        if self.skips("notrap") {
            return flags(true, self.skips("aligned"));
        }
        let aligned = self.skips("aligned");
        flags(self.skips("notrap"), aligned)
    }

    /// The place, from 0 on, of the word for which the line was refused: that of the word that was looked at last, or
    /// that of the next one where nothing more was expected. There may be no word.
    pub fn refused(&self, fault: &Fault<'_>) -> usize
        ensures { result ≡ refused_place self.now fault.now }
    {
        match fault {
            Fault::Expected(Expected::End) => self.taken,
            _ => self.looked,
        }
    }

    /// Nothing is left.
    ///
    /// # Errors
    ///
    /// The word that is left.
    pub fn end(&self) -> Result<(), LineError<'a>>
        ensures { IsOk result ↔ (words_left self.now ≡ []) }
    {
        if self.is_empty() {
            Ok(())
        } else {
            Err(LineError::wanted(Expected::End))
        }
    }
}

// These flags.
fn flags(notrap: bool, aligned: bool) -> MemFlagsData
    ensures { result ≡ record { notrap = notrap; aligned = aligned; alias_region = None } }
{
    let mut flags = MemFlagsData::new();
    if notrap {
        flags.set_notrap();
    }
    if aligned {
        flags.set_aligned();
    }
    flags
}
