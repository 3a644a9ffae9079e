//! The builder of functions: `FunctionBuilder`, its context and its errors, which `cranelift_frontend` hands on.
#![tactic(auto)]

pub mod attempts;
pub mod blocks;
pub mod branches;
pub mod builder;
pub mod context;
pub mod entities;
pub mod error;
pub mod finalize;
pub mod frontend;
pub mod instructions;
pub mod labels;
pub mod laws;
pub mod marks;

pub use builder::FunctionBuilder;
pub use clif_constant_operands::ConstantOperands;
pub use clif_inst_builder::{InstBuilder, InstBuilderBase};
pub use context::FunctionBuilderContext;
pub use error::{DefVariableError, FinalizeError, UseVariableError};
pub use instructions::FuncInstBuilder;
