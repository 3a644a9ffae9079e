//! A cursor that appends instructions to a block of a function: `cursor.ins().iadd(x, y)?`.
//!
//! The instructions by name are those of `clif_inst_builder`. Contracts see a cursor as its fields, and say what it makes of
//! the function by the words of `specs/Cursor.antt`.
#![tactic(auto)]

pub mod cursor;

pub use clif_inst_builder::{InstBuilder, InstBuilderBase};
pub use cursor::FuncCursor;
