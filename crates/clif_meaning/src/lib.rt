//! What scripts and functions mean. The definitions stand in `specs/`; the functions here have empty bodies, and
//! their contracts are the laws of the definitions.
#![tactic(auto)]

pub mod bits;
pub mod examples;
pub mod machines;
pub mod scripts;
