//! Tests of what needs no function: types and other plain data, the tables of opcodes, the ranges of switches, sets
//! of numbers, and the words of scripts.
//!
//! They test what no clause says: that calls succeed, and texts, which are those of the printer's rules, of Cranelift and
//! of docs/SCRIPTS.md.
#![tactic(auto)]

#[cfg(test)]
mod opcodes;
#[cfg(test)]
mod ranges;
#[cfg(test)]
mod sets;
#[cfg(test)]
mod types;
#[cfg(test)]
mod words;
