//! What instructions do to bits and to memory, as plain code: a row for each format, shared by the interpreters of scripts
//! and of functions. It follows the tables in the definitions of what instructions mean, and no contract names it: that it
//! does as they say is only tested. Values have at most 128 bits.
#![tactic(auto)]

pub mod arithmetic;
pub mod bytes;
pub mod fault;
pub mod library;
pub mod memory;
pub mod operation;
pub mod switch;
pub mod with_constant;

pub use bytes::{ByteOperation, Promise};
pub use fault::Fault;
pub use library::{LibraryCall, is_library_signature, library_result, library_signature};
pub use memory::{Memory, SlotRange, Slots};
pub use operation::{Operation, Outcome, Store, Typed, bits_of, carry_out, kept};
pub use switch::SwitchMap;
pub use with_constant::WithConstant;
