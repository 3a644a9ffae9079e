//! Why a switch is refused.
#![tactic(auto)]

ghost use Rattle.std.specs.Prelude.{◌≡◌, Some};
ghost use Rattle.clif_ranges.specs.Cases.{switch_error_text};
ghost use Rattle.clif_ranges.specs.declared.error.SwitchError.TheVariants.{Build};
ghost use Rattle.clif_types.specs.declared.error.BuildError.TheVariants as build_error;

use clif_types::{BuildError, Type};
use std::alloc::AllocError;
use std::error::Error;
use std::fmt;

/// Why a switch is refused.
#[derive(Clone, Copy, PartialEq, Eq, Debug)]
pub enum SwitchError {
    /// The key has a case already. It prints as `Tried to set the same entry 7 twice`.
    SetTwice(u128),
    /// The greatest key isn't a number of the type, taken as unsigned. It prints as
    /// `The index type i8 does not fit the maximum switch entry of 256`.
    KeyTooWide { ty: Type, max: u128 },
    /// A range has 2^32 keys or more. It prints as `Jump tables bigger than 2^32-1 are not yet supported`.
    TableTooLong,
    /// A call of the builder failed, or memory was refused. It prints as that error.
    Build(BuildError),
}

impl fmt::Display for SwitchError {
    ghost output = { λ e. Some (switch_error_text e) };

    fn fmt<W: fmt::Write>(&self, f: &mut fmt::Formatter<W>) -> fmt::Result {
        match self {
            SwitchError::SetTwice(key) => write!(f, "Tried to set the same entry {key} twice"),
            SwitchError::KeyTooWide { ty, max } => write!(
                f,
                "The index type {ty} does not fit the maximum switch entry of {max}"
            ),
            SwitchError::TableTooLong => {
                f.write_str("Jump tables bigger than 2^32-1 are not yet supported")
            }
            SwitchError::Build(error) => write!(f, "{error}"),
        }
    }
}

impl Error for SwitchError {}

impl From<BuildError> for SwitchError {
    ghost from_gives = { λ e r. r ≡ Build e };

    fn from(error: BuildError) -> SwitchError {
        SwitchError::Build(error)
    }
}

impl From<AllocError> for SwitchError {
    ghost from_gives = { λ _ r. r ≡ Build build_error.Memory };

    fn from(_refusal: AllocError) -> SwitchError {
        SwitchError::Build(BuildError::Memory)
    }
}
