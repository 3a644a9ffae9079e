//! Two plain interpreters: one of scripts, written from the script machine, and one of functions, written from the
//! function machine. They share memory and the table of what instructions do, and no contract names them: that they
//! run as the machines do is only tested. What they are given and what they show is in `clif_worlds`.
//!
//! A run never panics. It ends, with what it returned or a trap, or within a bound on its steps; or it tells why it can't
//! go on (`RunError`). Values have at most 128 bits.
#![tactic(auto)]

pub mod function;
mod premises;
pub mod script;
