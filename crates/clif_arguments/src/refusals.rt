//! How a word that stands for nothing is refused.
ghost use Rattle.std.specs.Prelude.{◌≡◌, ◌⊎◌};
ghost use Rattle.clif_words.specs.declared.error.Fault.TheVariants as fault;
ghost use Rattle.clif_words.specs.declared.error.LineError.TheVariants as line_error;

use crate::scope::is_name;
use clif_words::error::{Expected, Fault, LineError};

/// The refusal of a word that names no answer, where the line should have `expected`.
pub fn unknown_name(word: &str, expected: Expected) -> LineError<'_>
    ensures { (result ≡ line_error.Fault (fault.UnknownName word.entry expected)) ⊎
        (result ≡ line_error.Fault (fault.Expected expected)) }
{
    if is_name(word) {
        LineError::Fault(Fault::UnknownName(word, expected))
    } else {
        LineError::wanted(expected)
    }
}

/// The refusal of a word that is no type, where the line should have `expected`.
pub fn unknown_type(word: &str, expected: Expected) -> LineError<'_>
    ensures { (result ≡ line_error.Fault (fault.UnknownType word.entry expected)) ⊎
        (result ≡ line_error.Fault (fault.Expected expected)) }
{
    if is_name(word) {
        LineError::Fault(Fault::UnknownType(word, expected))
    } else {
        LineError::wanted(expected)
    }
}
