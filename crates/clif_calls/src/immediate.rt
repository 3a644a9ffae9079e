//! The calls of a script that make an instruction with a constant as an operand.
use crate::call::Name;
use clif_types::IntCC;

/// An instruction with a constant as an operand, which makes the constant and the plain instruction. It answers the value.
///
/// Each variant is the method of its name. The operand is an integer; the constant is cut to its type, or its sign is
/// repeated.
#[derive(Clone, Copy)]
pub enum ImmediateCall {
    /// `iadd_imm_s(x, imm)`: the sum, modulo two to the width of the type.
    IaddImmS { x: Name, imm: i64 },
    /// `icmp_imm_s(cond, x, imm)`: an I8 that is 1 if the condition holds, and 0 otherwise.
    IcmpImmS { cond: IntCC, x: Name, imm: i64 },
}
