//! The type checker of single instructions.
//!
//! [`check`] reads the instructions of a function in layout order and tells the first one that isn't well typed:
//! by the typing table of `clif_opcodes`, by the signature of what it calls, by the function's own signature, and by the
//! parameters of the blocks to which its edges lead (`specs/WellTyped.antt`). It takes no memory, and walks once over
//! what it reads. Whether a value is defined before it is used is no question of a single instruction, and isn't asked.
#![tactic(auto)]

pub mod error;
pub mod laws;
mod parts;
mod walk;

pub use error::{CheckError, CheckErrorKind};
pub use walk::check;
