//! Why a function wasn't built.
use cranelift_frontend::{BuildError, FinalizeError, SwitchError};
use std::fmt;

/// Why a function wasn't built.
#[derive(Clone, Copy, Debug)]
pub enum UseError {
    /// It isn't finished.
    Unfinished(FinalizeError),
    /// A switch is refused.
    Switch(SwitchError),
}

impl fmt::Display for UseError {
    fn fmt<W: fmt::Write>(&self, f: &mut fmt::Formatter<W>) -> fmt::Result {
        match self {
            UseError::Unfinished(error) => write!(f, "{error}"),
            UseError::Switch(error) => write!(f, "{error}"),
        }
    }
}

impl From<FinalizeError> for UseError {
    fn from(error: FinalizeError) -> UseError {
        UseError::Unfinished(error)
    }
}

impl From<BuildError> for UseError {
    fn from(error: BuildError) -> UseError {
        UseError::Unfinished(FinalizeError::from(error))
    }
}

impl From<SwitchError> for UseError {
    fn from(error: SwitchError) -> UseError {
        UseError::Switch(error)
    }
}
