//! Tests of functions and of their tables, of what no clause says: printed texts, as the printer's rules give them, that
//! calls succeed, and what the check of types finds, as the documentation of Cranelift's instructions types them.
//!
//! Most tests are tables of functions that are made by calls of `clif_ir` alone.
#![tactic(auto)]

#[cfg(test)]
mod check;
#[cfg(test)]
mod cursor;
#[cfg(test)]
mod facts;
#[cfg(test)]
mod functions;
#[cfg(test)]
mod instructions;
#[cfg(test)]
mod recorder;
#[cfg(test)]
mod steps;
#[cfg(test)]
mod support;
#[cfg(test)]
mod tables;
#[cfg(test)]
mod transfers;
