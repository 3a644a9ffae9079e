//! Opcodes of the instructions by format, and what is known of an instruction by its opcode: its name, the types of
//! its operands and results, and whether it ends its block.
#![tactic(auto)]

pub mod kinds;
pub mod opcodes;
pub mod typing;

pub use kinds::{Control, Demand, OperandKind, OtherOperands, ResultKind};
pub use opcodes::{
    BinaryOpcode, CondTrapOpcode, ConvertOpcode, FloatConstOpcode, Opcode, PooledConstOpcode,
    StackOpcode, UnaryOpcode,
};
pub use typing::Typing;
