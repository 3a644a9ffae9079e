//! The construction of SSA form: from variables that are assigned and used to values.
//!
//! After Braun, Buchwald, Hack, Leißa, Mallon and Zwinkau, "Simple and Efficient Construction of Static
//! Single Assignment Form" (CC 2013), with the walk along single predecessors and the two stacks in place of
//! recursion of cranelift-frontend. The records, the predecessors and the stacks are tables of `clif_records`.
//!
//! In a block that is unsealed, or to which nothing leads, the clauses say exactly what a call makes. Where branches
//! lead to it, the relations of `specs/LookUp` do, and sealing all blocks is sealing each in turn. Beside that,
//! `keeps` says why the answers are right: `Describes` of `specs/Sound` ties the function and the builder to tables of
//! the theory of variables on paths (`clif_paths`), and where those are sound before a call, tables with the same
//! program, or with the assignment that was made, are sound after it. `remembers` says that values which stand for one
//! value go on doing so (`specs/Structure`). `constructs` says that zeros at the front of blocks, parameters, arguments
//! of edges and aliases change and nothing else, also where a call fails, and `tells` that the block of each zero is
//! told, in order (`specs/Constructs`). `structured` says what is so of blocks, parameters and edges in every program
//! (`specs/Structured`). `counts` says how much is made, also where a table is full: for each variable and block at most
//! one parameter, and for each parameter at most one zero (`specs/Counted`).
#![tactic(auto)]

mod ending;
pub mod laws;
mod look_up;
pub mod ssa;
mod ssa_tables;
mod zeros;

pub use clif_records::{SideEffects, Variable};
pub use ssa::SSABuilder;
