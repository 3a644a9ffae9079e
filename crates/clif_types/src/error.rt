//! The refusal of a call that makes a function grow.
#![tactic(auto)]

ghost use Rattle.std.specs.Prelude.{◌≡◌, Some};
ghost use Rattle.clif_types.specs.declared.error.BuildError.TheVariants.{Memory};
ghost use Rattle.clif_types.specs.Texts.{build_error_text};

use std::alloc::{AllocError, AllocFailed};
use std::error::Error;
use std::fmt;

/// Why a call that makes a function grow was refused.
#[derive(Clone, Copy, PartialEq, Eq, Hash, Debug)]
pub enum BuildError {
    /// Memory was refused. It prints as `no memory`.
    Memory,
    /// A table holds 2^32 - 1 entries. It prints as `table full`.
    Full,
    /// An earlier call was refused. It prints as `failed before`.
    Failed,
}

impl fmt::Display for BuildError {
    ghost output = { λ e. Some (build_error_text e) };

    fn fmt<W: fmt::Write>(&self, f: &mut fmt::Formatter<W>) -> fmt::Result {
        f.write_str(match self {
            BuildError::Memory => "no memory",
            BuildError::Full => "table full",
            BuildError::Failed => "failed before",
        })
    }
}

impl Error for BuildError {}

impl From<AllocError> for BuildError {
    ghost from_gives = { λ _ e. e ≡ Memory };

    fn from(_refusal: AllocError) -> BuildError {
        BuildError::Memory
    }
}

impl<T: Drop> From<AllocFailed<T>> for BuildError {
    ghost from_gives = { λ _ e. e ≡ Memory };

    fn from(_refusal: AllocFailed<T>) -> BuildError {
        BuildError::Memory
    }
}
