//! The cases of a switch, and the ranges of consecutive keys among them.
#![tactic(auto)]

pub mod cases;
pub mod error;
pub mod ranges;
pub mod search;

pub use cases::Cases;
pub use error::SwitchError;
pub use ranges::{CaseRange, ranges_of};
pub use search::{Next, Node, Test, search_tree};
