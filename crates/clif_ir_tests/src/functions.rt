//! Tests of `clif_ir`, of what no clause says: printed texts, as the printer's rules give them, and that calls succeed.
//!
//! Most tests are tables of functions that are made by the crate's calls alone.
#![tactic(auto)]

mod call_changes;
mod calls;
mod edges;
mod forms;
mod numbers;
mod regions;
mod rewrites;
mod rows;
mod shapes;
mod side_tables;
mod texts;
mod walks;
mod writers;
