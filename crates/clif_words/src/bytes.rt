//! Bytes as words.
ghost use Rattle.std.specs.Prelude.{◌≡◌, ◌<◌, ◌∷◌, [], IfOk, IfSome};
ghost use Rattle.std.specs.Char.{digit_char};
ghost use Rattle.clif_types.specs.Texts.{byte_text};
ghost use Rattle.clif_words.specs.Spelling.{IsBytes};

use crate::error::{Expected, LineError};
use std::alloc::Global;

// The value of a hexadecimal digit, whose letters are in lower case.
fn digit_of(digit: u8) -> Option<u8>
    ensures small { IfSome result (λ value. value < 16) }
    ensures digit { IfSome result (λ value. digit ≡ digit_char value) }
{
    match digit {
        b'0'..=b'9' => Some(digit - b'0'),
        b'a'..=b'f' => Some(digit - b'a' + 10),
        _ => None,
    }
}

// The byte of two hexadecimal digits.
fn byte_of(high: u8, low: u8) -> Option<u8>
    ensures { IfSome result (λ byte. high ∷ low ∷ [] ≡ byte_text byte) }
{
    Some(digit_of(high)? * 16 + digit_of(low)?)
}

/// The bytes of a constant, the lowest first: `0x`, and two hexadecimal digits a byte, from the last byte to the
/// first. There is one byte at least, and letters are in lower case.
///
/// # Errors
///
/// The word, where it is another one, as one where bytes were expected; or memory is refused.
pub fn bytes<'a>(alloc: Global, word: &str) -> Result<Vec<u8>, LineError<'a>>
    ensures { IfOk result (λ bytes. IsBytes word.now bytes.items) }
{
    let Some(digits) = word.strip_prefix("0x") else {
        return Err(LineError::wanted(Expected::Bytes));
    };
    let mut bytes = Vec::new(alloc);
    let mut left = digits.as_bytes();
    while let [rest @ .., high, low] = left {
        let Some(byte) = byte_of(*high, *low) else {
            return Err(LineError::wanted(Expected::Bytes));
        };
        bytes.push(byte)?;
        left = rest;
    }
    if left.is_empty() && !bytes.is_empty() {
        Ok(bytes)
    } else {
        Err(LineError::wanted(Expected::Bytes))
    }
}
