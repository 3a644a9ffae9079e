//! Scripts, lists of builder calls, are replayed: each call is made on a builder, in order.
#![tactic(auto)]

pub mod examples;
mod make;
mod make_blocks;
mod make_branches;
mod make_constants;
mod make_entities;
mod make_exceptions;
mod make_immediate;
mod make_instructions;
mod make_marks;
mod make_memory;
mod make_notes;
mod make_outside;
mod make_parameters;
mod make_switch;
mod make_tables;
mod script;

pub use clif_builder::FunctionBuilderContext;
pub use clif_resolution::Condition;
pub use script::{ReplayError, ReplayNotes, replay, replay_noted};
