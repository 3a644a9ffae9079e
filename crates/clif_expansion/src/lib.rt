//! Laws of expansion: a script's program, in which one item may stand for several plain instructions, means what the
//! plain program means. The functions here have empty bodies, and their contracts are the laws of the definitions.
#![tactic(auto)]

pub mod examples;
pub mod laws;
