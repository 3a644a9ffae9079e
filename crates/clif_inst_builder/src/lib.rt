//! The instructions by name, over anything that makes an instruction of any shape.
//!
//! [`InstBuilderBase`] is what makes one, and [`InstBuilder`] has a method for each instruction, which is proved once for
//! every implementor. Contracts say which shape a method makes, by the words of `specs/Shapes.antt`.
#![tactic(auto)]

pub mod base;
pub mod inst_builder;

pub use base::{InstBuilderBase, both_values};
pub use inst_builder::InstBuilder;
