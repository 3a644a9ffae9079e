//! The errors of the builder.
ghost use Rattle.std.specs.Prelude.{◌≡◌, Some};
ghost use Rattle.clif_builder.specs.Errors.{def_variable_error_text, failure_of, finalize_error_text, use_variable_error_text};

use clif_ssa::Variable;
use clif_types::{Block, BuildError, EntityRef, Inst, Value};
use std::error::Error;
use std::fmt;

/// Why a function isn't finished.
#[derive(Clone, Copy, Debug, PartialEq, Eq)]
pub enum FinalizeError {
    /// Something was made in this block, and it isn't sealed.
    Unsealed(Block),
    /// Something was made in this block, and it has no terminator.
    Unfilled(Block),
    /// The context of this instruction is a tracked value.
    TrackedContext(Inst),
    /// Memory was refused.
    Memory,
    /// A table holds 2^32 - 1 entries.
    Full,
    /// The builder had failed before.
    Failed,
}

impl fmt::Display for FinalizeError {
    ghost output = { λ e. Some (finalize_error_text e) };

    fn fmt<W: fmt::Write>(&self, f: &mut fmt::Formatter<W>) -> fmt::Result {
        match self {
            FinalizeError::Unsealed(block) => {
                write!(
                    f,
                    "FunctionBuilder finalized, but block {block} is not sealed"
                )
            }
            FinalizeError::Unfilled(block) => {
                write!(
                    f,
                    "FunctionBuilder finalized, but block {block} is not filled"
                )
            }
            FinalizeError::TrackedContext(inst) => {
                write!(f, "the context of {inst} is a tracked value")
            }
            FinalizeError::Memory => write!(f, "no memory"),
            FinalizeError::Full => write!(f, "table full"),
            FinalizeError::Failed => write!(f, "failed before"),
        }
    }
}

impl Error for FinalizeError {}

/// Lets a function use `?` both for the builder's calls and for `finalize`.
impl From<BuildError> for FinalizeError {
    ghost from_gives = { λ error result. result ≡ failure_of error };

    fn from(error: BuildError) -> FinalizeError {
        match error {
            BuildError::Memory => FinalizeError::Memory,
            BuildError::Full => FinalizeError::Full,
            BuildError::Failed => FinalizeError::Failed,
        }
    }
}

/// Why a variable can't be used.
#[derive(Clone, Copy, Debug, PartialEq, Eq)]
pub enum UseVariableError {
    /// The variable isn't declared. It prints as `variable 0 was used before it was defined`.
    UsedBeforeDeclared(Variable),
}

impl fmt::Display for UseVariableError {
    ghost output = { λ e. Some (use_variable_error_text e) };

    fn fmt<W: fmt::Write>(&self, f: &mut fmt::Formatter<W>) -> fmt::Result {
        match self {
            UseVariableError::UsedBeforeDeclared(variable) => {
                let number = variable.index();
                write!(f, "variable {number} was used before it was defined")
            }
        }
    }
}

impl Error for UseVariableError {}

// The second and the third line of what is printed where types differ.
const SUPPLIED: &str = "
                    The `Value` supplied to `def_var` must be of the same type as
                    the variable was declared to be of in `declare_var`.";

/// Why a value can't be assigned to a variable.
#[derive(Clone, Copy, Debug, PartialEq, Eq)]
pub enum DefVariableError {
    /// The value is of another type than the variable. It prints as three lines, which name both by their numbers.
    TypeMismatch(Variable, Value),
    /// The variable isn't declared. It prints as `the value of variable 0 was declared before it was defined`.
    DefinedBeforeDeclared(Variable),
}

impl fmt::Display for DefVariableError {
    ghost output = { λ e. Some (def_variable_error_text e) };

    fn fmt<W: fmt::Write>(&self, f: &mut fmt::Formatter<W>) -> fmt::Result {
        match self {
            DefVariableError::TypeMismatch(variable, value) => {
                let (variable, value) = (variable.index(), value.index());
                write!(
                    f,
                    "the types of variable {variable} and value {value} are not the same.{SUPPLIED}"
                )
            }
            DefVariableError::DefinedBeforeDeclared(variable) => {
                let number = variable.index();
                write!(
                    f,
                    "the value of variable {number} was declared before it was defined"
                )
            }
        }
    }
}
