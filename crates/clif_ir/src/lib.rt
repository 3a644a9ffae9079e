//! The small IR: functions as blocks of instructions over values, and their text.
//!
//! A [`Function`] is seen by contracts as one record of lists (`specs/Body.antt`): its values, its
//! instructions, its blocks and their order. Each call that changes a function says the new record
//! as a word of the old one (`specs/Changes.antt`), and leaves it as it was where it answers an error.
//! What every function keeps is one record of facts (`specs/Consistent.antt`), which
//! [`Function::law_consistent`] gives to other crates. No contract says which text is printed but for
//! opcodes and numbers: the tests of `clif_ir_tests` do.
#![tactic(auto)]

pub mod contexts;
pub mod dfg;
pub mod entities;
pub mod function;
pub mod layout;
pub mod rewrite;
pub mod side_tables;
pub mod successors;
pub mod write;

pub use clif_instructions::block_call::{BlockArg, BlockArgs, BlockCall};
pub use clif_instructions::exception_table::{
    ExceptionItem, ExceptionTableData, ExceptionTableItem, ExceptionTargets,
};
pub use clif_instructions::instructions::InstructionData;
pub use clif_instructions::jump_table::JumpTableData;
pub use clif_instructions::value_list::ValueList;
pub use clif_nodes::{InstNode, ValueNode, ValueOrigin};
pub use clif_opcodes::{
    BinaryOpcode, CondTrapOpcode, ConvertOpcode, FloatConstOpcode, PooledConstOpcode, UnaryOpcode,
};
pub use clif_tables::ValueLabelStart;
pub use function::{Function, ValueDef};
pub use successors::Successors;
