//! Messages of ill-typed instructions: `type_message` tells of the instruction that `check` of `clif_check` found which of its
//! parts has which type, and which one is needed. It prints as `inst2: iadd: the second operand is i64, i32 is needed`.
//!
//! Nothing rests on these messages: that an instruction isn't well typed is what `check` says, and is proved there.
#![tactic(auto)]

mod finding;
mod message;

pub use finding::type_message;
pub use message::{Found, Needed, Part, TypeMessage, Values};
