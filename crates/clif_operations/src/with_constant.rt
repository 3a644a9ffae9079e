//! What instructions with a constant as an operand do: a row for each. In a script each is one step.
use crate::arithmetic::{compares, constant, greatest};
use crate::fault::Fault;
use crate::operation::Typed;
use clif_opcodes::{BinaryOpcode, Opcode};
use clif_types::IntCC;
use clif_types::types::I8;

/// What an instruction with a constant as an operand does to an integer. The constant is cut to the integer's type, or its sign is
/// repeated.
#[derive(Clone, Copy)]
pub enum WithConstant {
    /// Adds the constant, modulo two to the width of the type.
    Iadd(i64),
    /// Compares with the constant: an I8 that is 1 if the condition holds, and 0 otherwise.
    Icmp(IntCC, i64),
}

impl WithConstant {
    // The opcode of the plain instruction that it makes.
    fn opcode(self) -> Opcode {
        match self {
            WithConstant::Iadd(_) => Opcode::Binary(BinaryOpcode::Iadd),
            WithConstant::Icmp(..) => Opcode::Icmp,
        }
    }

    /// What it makes of an operand.
    ///
    /// # Errors
    ///
    /// The operand is no integer.
    pub fn result(self, x: Typed) -> Result<Typed, Fault> {
        if !x.ty.is_int() {
            return Err(Fault::Types(self.opcode()));
        }
        let result = match self {
            WithConstant::Iadd(imm) => {
                let sum = x.bits.wrapping_add(constant(x.ty, imm));
                Typed {
                    ty: x.ty,
                    bits: sum & greatest(x.ty),
                }
            }
            WithConstant::Icmp(cond, imm) => {
                let holds = compares(cond, x.ty, x.bits, constant(x.ty, imm));
                Typed {
                    ty: I8,
                    bits: u128::from(holds),
                }
            }
        };
        Ok(result)
    }
}
