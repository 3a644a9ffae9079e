//! The tables of a function beside those of its values, instructions and blocks.
//!
//! A table is seen by contracts as the list of its entries, which are numbered from 0 on, and the tables
//! together as a record of such lists, in `specs/Lists.antt`. What each call that makes an entry keeps is one
//! record in `specs/Makes.antt`, and `specs/Callees.antt` tells what a call names there.
//!
//! Stack maps and labels, which few instructions and values have, are kept by the number of their instruction
//! or value, and seen as lists of such numbers with what is kept for each, in `specs/Sparse.antt`.
#![tactic(auto)]

pub mod callees;
pub mod constants;
pub mod labels;
pub mod primary_map;
pub mod stack_maps;
pub mod tables;
pub mod write;

pub use clif_instructions::exception_table::{
    ExceptionItem, ExceptionTableData, ExceptionTableItem, ExceptionTargets,
};
pub use clif_instructions::jump_table::JumpTableData;
pub use constants::ConstantData;
pub use labels::ValueLabelStart;
pub use tables::Tables;
