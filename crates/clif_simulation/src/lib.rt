//! From the theory of variables on paths to the machines: what a list of calls makes of the tables of the theory, and
//! the laws that a function which carries a list of calls reads right on runs and bits while it isn't finished, and
//! means what the list's program means once it is, and is well placed either way. The definitions stand in `specs/`; the functions
//! here have empty bodies, and their contracts are the laws.
#![tactic(auto)]

pub mod examples;
pub mod meaning;
pub mod names;
pub mod structure;
