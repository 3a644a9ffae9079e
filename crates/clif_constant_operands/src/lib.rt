//! Instructions with a constant as an operand: `builder.ins().iadd_imm_s(x, 1)?`.
//!
//! [`ConstantOperands`] has a method for each, which is proved once for every implementor of `InstBuilderBase`. Contracts say
//! which instructions a method makes, by the words of `specs/Chains.antt`.
#![tactic(auto)]

pub mod operands;

pub use operands::ConstantOperands;
