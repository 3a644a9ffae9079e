//! What the calls of a script name is found: the blocks, values and edges that the calls before them answered, and the
//! instruction that a call asks for. A builder is read, and nothing is made.
#![tactic(auto)]

mod answers;
mod condition;
mod conditions;
mod entries;
mod exceptions;
mod names;
mod outside;
mod plans;
mod tables;

pub use answers::{Answer, CallError, Entry};
pub use condition::Condition;
pub use conditions::{current_fault, has_current, has_signature, may_seal};
pub use entries::{
    exception_table_named, function_named, jump_table_named, signature_named, stack_slot_named,
};
pub use exceptions::{Tried, items_found, operands_found, with_table};
pub use names::{block_named, inst_named, value_named};
pub use outside::outside_call_found;
pub use plans::{Planned, plan_found};
pub use tables::{edge_copied, edge_found, edges_copied, may_serve, serving_fault};
