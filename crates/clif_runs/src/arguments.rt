//! The arguments of a run, as words.
ghost use Rattle.std.specs.Prelude.{◌<◌};

use clif_operations::arithmetic::greatest;
use clif_types::{AbiParam, Type};
use std::alloc::{AllocError, AllocFailed, Global};
use std::fmt;

/// Why words aren't the arguments of a function.
#[derive(Clone, Copy)]
pub enum ArgumentError<'a> {
    /// Memory was refused.
    Memory,
    /// The function has so many parameters, and so many words are given.
    Count {
        wanted: usize,
        found: usize,
    },
    /// The argument with this number, from 1 on, is no number of its parameter's type.
    Number {
        /// The number of the argument.
        number: usize,
        /// The parameter's type.
        ty: Type,
        /// The word.
        found: &'a str,
    },
}

impl ArgumentError<'_> {
    /// The exit status of a program that runs: 1 where memory was refused, and else 2.
    pub fn status(&self) -> u8
        ensures { result < 6 }
    {
        match self {
            ArgumentError::Memory => 1,
            ArgumentError::Count { .. } | ArgumentError::Number { .. } => 2,
        }
    }
}

impl fmt::Display for ArgumentError<'_> {
    fn fmt<W: fmt::Write>(&self, f: &mut fmt::Formatter<W>) -> fmt::Result {
        match self {
            ArgumentError::Memory => f.write_str("no memory"),
            ArgumentError::Count { wanted: 1, found } => {
                write!(f, "expected 1 argument, found {found}")
            }
            ArgumentError::Count { wanted, found } => {
                write!(f, "expected {wanted} arguments, found {found}")
            }
            ArgumentError::Number { number, ty, found } => {
                write!(
                    f,
                    "argument {number}: expected a number of type {ty}, found {found}"
                )
            }
        }
    }
}

impl From<AllocError> for ArgumentError<'_> {
    fn from(_error: AllocError) -> Self {
        ArgumentError::Memory
    }
}

impl<T: Drop> From<AllocFailed<T>> for ArgumentError<'_> {
    fn from(_error: AllocFailed<T>) -> Self {
        ArgumentError::Memory
    }
}

/// The bits of the arguments that words give to parameters: one word for each, a number that fits its type with or
/// without a sign, decimal, or hexadecimal after `0x`, and `-` before it if it is negative. For a float or a vector
/// it is the bits.
///
/// # Errors
///
/// An [`ArgumentError`]: there are too many words or too few, one isn't a number of its parameter's type, or memory
/// is refused.
pub fn arguments_of<'a>(
    alloc: Global,
    params: &[AbiParam],
    words: &'a [String],
) -> Result<Vec<u128>, ArgumentError<'a>> {
    if params.len() != words.len() {
        return Err(ArgumentError::Count {
            wanted: params.len(),
            found: words.len(),
        });
    }
    let mut arguments = Vec::new(alloc);
    for (index, (param, word)) in params.iter().zip(words.iter()).enumerate() {
        let ty = param.value_type;
        let found = word.as_str();
        let Some(bits) = bits_of(ty, found) else {
            let number = index.saturating_add(1);
            return Err(ArgumentError::Number { number, ty, found });
        };
        arguments.push(bits)?;
    }
    Ok(arguments)
}

// The bits of a number that fits a type: digits in base 10, or in base 16 after `0x`, and `-` before it. It may be read
// as unsigned or as signed.
fn bits_of(ty: Type, word: &str) -> Option<u128> {
    match word.strip_prefix('-') {
        Some(digits) => {
            let size = magnitude(digits)?;
            let least = (greatest(ty) >> 1).saturating_add(1);
            (size <= least).then_some(0u128.wrapping_sub(size) & greatest(ty))
        }
        None => {
            let bits = magnitude(word)?;
            (bits <= greatest(ty)).then_some(bits)
        }
    }
}

fn magnitude(word: &str) -> Option<u128> {
    let (digits, radix) = match word.strip_prefix("0x") {
        Some(digits) => (digits, 16),
        None => (word, 10),
    };
    if digits.starts_with('+') {
        return None;
    }
    u128::from_str_radix(digits, radix).ok()
}
