//! Tests of `clif_opcodes`: its tables, row by row, as the documentation of Cranelift's instructions has them.
#![tactic(auto)]

mod kinds;
mod rows;
mod support;
