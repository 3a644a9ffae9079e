//! Tests of `clif_check`: which instruction of a function it refuses, and of which kind the error is, as the documentation
//! of Cranelift's instructions types them.
#![tactic(auto)]

mod calls;
mod cases;
mod edges;
mod exceptions;
mod operands;
mod orders;
mod returns;
