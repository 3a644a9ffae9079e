//! The numbers by which a function names its parts.
#![tactic(auto)]

pub mod code;
pub mod entity;
pub mod tables;

pub use code::{Block, ExceptionTable, Inst, JumpTable, Value};
pub use entity::EntityRef;
pub use tables::{
    AliasRegion, Constant, DynamicStackSlot, FuncRef, GlobalValue, SigRef, StackSlot, ValueLabel,
};
