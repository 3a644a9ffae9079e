//! Instructions as data: their shapes, operands and edges, the short lists that hold them, and how their
//! numbers are printed.
//!
//! A list is seen by contracts as the plain list of its entries. Words for what stands in a list are in
//! `specs/Members.antt`, those for edges in `specs/Edges.antt`, and the table of the shapes is
//! `specs/Instruction.antt`: an instruction's operands, edges and row of the typing table.
#![tactic(auto)]

pub mod block_call;
pub mod edges;
pub mod exception_table;
pub mod immediates;
pub mod insert_at;
pub mod instructions;
pub mod jump_table;
mod long_list;
pub mod value_list;
