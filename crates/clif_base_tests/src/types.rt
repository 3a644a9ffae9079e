//! Tests of `clif_types`, of what no clause says: that calls succeed, and texts as the printer's rules and Cranelift give
//! them.
#![tactic(auto)]

mod data_rows;
mod numbers;
mod support;
mod type_rows;
