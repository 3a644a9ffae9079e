//! Global values.
#![tactic(auto)]

ghost use Rattle.std.specs.Prelude.{◌≡◌, Some};
ghost use Rattle.clif_types.specs.Texts.{global_value_text};

use crate::extname::ExternalName;
use std::alloc::AllocError;
use std::fmt;

/// A value that is known before the function is entered.
#[derive(PartialEq, Eq, Debug)]
pub enum GlobalValueData {
    /// The address of the context that is passed to the function. It prints as `vmctx`.
    VMContext,
    /// The address of a symbol. It prints as `symbol %name`.
    Symbol(ExternalName),
}

// By hand: a derived one is proved anew at each way out of a function that holds such a value.
impl Drop for GlobalValueData {
    fn drop(self) {
        match self {
            GlobalValueData::VMContext => {}
            GlobalValueData::Symbol(_) => {}
        }
    }
}

impl Clone for GlobalValueData {
    ghost is_clone = { λ old new. new ≡ old };

    fn clone(&self) -> Result<GlobalValueData, AllocError> {
        match self {
            GlobalValueData::VMContext => Ok(GlobalValueData::VMContext),
            GlobalValueData::Symbol(name) => Ok(GlobalValueData::Symbol(name.clone()?)),
        }
    }
}

impl fmt::Display for GlobalValueData {
    ghost output = { λ g. Some (global_value_text g) };

    fn fmt<W: fmt::Write>(&self, f: &mut fmt::Formatter<W>) -> fmt::Result {
        match self {
            GlobalValueData::VMContext => f.write_str("vmctx"),
            GlobalValueData::Symbol(name) => write!(f, "symbol {name}"),
        }
    }
}
