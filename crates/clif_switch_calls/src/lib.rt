//! The plain calls that emit a switch, as definitions, and laws that they are code of the switch. The functions here have empty
//! bodies, and their contracts are the laws.
#![tactic(auto)]

pub mod examples;
pub mod laws;
