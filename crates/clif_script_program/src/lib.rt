//! The variable program of a script, as plain data: which calls run in which block, and what their instructions are.
//!
//! `clif_interpreter` runs it. No contract names it: that it is the program of the definitions is only tested.
#![tactic(auto)]

pub mod branches;
pub mod entries;
pub mod instruction;
pub mod program;
pub mod switches;
pub mod tracking;
