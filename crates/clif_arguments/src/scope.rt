//! What names stand for.
ghost use Rattle.std.specs.Prelude.{◌≡◌, ◌≤◌, IfSome, vec_len};
ghost use Rattle.clif_arguments.specs.Arguments.{IsPlaceName};

use clif_calls::Name;
use clif_words::number::decimal;
use std::alloc::{AllocError, Global};
use std::collections::BTreeMap;

/// The names that the lines so far gave, and which variables their calls declared.
#[derive(Drop)]
pub struct Scope<'a> {
    names: BTreeMap<&'a str, Name>,
    // for each call, the number of the variable that it declares, if it declares one
    declared: Vec<Option<usize>>,
    // how many variables there are
    variables: usize,
    ghost counted: { variables ≤ vec_len declared },
}

// The answer that `$P.K` names.
fn place_name(word: &str) -> Option<Name>
    ensures { IfSome result (IsPlaceName word.now) }
{
    let (place, answer) = word.strip_prefix('$')?.split_once('.')?;
    Some(Name {
        place: decimal(place)?,
        answer: decimal(answer)?,
    })
}

/// Whether the word may be given as a name: letters, digits, `_` and `.`, of which the first is a letter or
/// `_`.
pub fn is_name(word: &str) -> bool {
    match word.as_bytes() {
        [first, ..] => !first.is_ascii_digit() && *first != b'.' && word.bytes().all(may_be_named),
        [] => false,
    }
}

fn may_be_named(byte: u8) -> bool {
    byte.is_ascii_alphanumeric() || byte == b'_' || byte == b'.'
}

impl<'a> Scope<'a> {
    ghost use Rattle.std.specs.Prelude.{[], IfNone, OnOk};
    ghost use Rattle.clif_arguments.specs.Arguments.{IsAnswer};
    ghost use Rattle.clif_arguments.specs.Scope.{Counts, Gives, given_in, names_of, variable_of};

    pub fn new(alloc: Global) -> Scope<'a>
        ensures names { result.names.entries ≡ [] }
        ensures declared { result.declared.items ≡ [] }
        ensures variables { result.variables ≡ 0 }
    {
        Scope {
            names: BTreeMap::new(alloc),
            declared: Vec::new(alloc),
            variables: 0,
        }
    }

    /// The answer that a word names, if it was given or is of the form `$P.K`.
    pub fn answer(&self, word: &str) -> Option<Name>
        ensures some { IfSome result (IsAnswer (names_of self.now) word.now) }
        ensures none { IfNone result (given_in self.now word.now ≡ None) }
    {
        match self.names.get(word) {
            Some(name) => Some(*name),
            None => place_name(word),
        }
    }

    /// The number of the variable that is this answer. Where it is none, the number that the next variable gets, which isn't
    /// there.
    pub fn variable(&self, name: Name) -> usize
        ensures { result ≡ variable_of self.now name }
    {
        match self.declared.get(name.place) {
            Some(Some(number)) if name.answer == 0 => *number,
            _ => self.variables,
        }
    }

    /// A word names this answer from now on.
    pub fn give(&mut self, word: &'a str, name: Name) -> Result<(), AllocError>
        ensures { OnOk result (Gives word.now name self.old self.new) }
    {
        self.names.insert(word, name)?;
        Ok(())
    }

    /// One more call was read, which declares a variable or doesn't.
    pub fn count(&mut self, declares: bool) -> Result<(), AllocError>
        ensures { OnOk result (Counts declares self.old self.new) }
    {
        if declares {
            self.declared.push(Some(self.variables))?;
            self.variables += 1;
        } else {
            self.declared.push(None)?;
        }
        Ok(())
    }
}
