//! The words of a line of a script: how a line is cut into them, how numbers and types are spelled, and how a
//! line is refused.
//!
//! `clif_text` reads scripts with it.
#![tactic(auto)]

pub mod bytes;
pub mod cursor;
pub mod error;
pub mod number;
pub mod types;
pub mod words;
