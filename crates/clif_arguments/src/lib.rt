//! What stands on the lines of a script: header lines, names of answers, and what calls take.
//!
//! `clif_text` reads the lines themselves with it. docs/SCRIPTS.md describes the format.
#![tactic(auto)]

pub mod args;
pub mod header;
pub mod refusals;
pub mod scope;
