//! Tests of `clif_cursor` and `clif_constant_operands`: that calls succeed, and the text of the function that they make.
#![tactic(auto)]

mod appended;
mod operands;
mod tables;
