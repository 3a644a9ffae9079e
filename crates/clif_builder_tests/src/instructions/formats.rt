//! The methods of `InstBuilder` for a format, each of which makes the instructions of several rows.
#![tactic(auto)]

ghost use Rattle.clif_instructions.specs.Instruction.{ASlot};

use crate::instructions::fixture::{Given, ResultBuilder};
use crate::instructions::methods::BYTES;
use cranelift_frontend::types::{I8X16, I16, I32, I32X4, I64, I128};
use cranelift_frontend::{
    CondTrapOpcode, ConvertOpcode, Opcode, PooledConstOpcode, StackOpcode, TrapCode, Type,
};

/// Whether the row of this opcode has an instruction that a method for a format makes.
pub fn has_format(opcode: Opcode) -> bool {
    matches!(
        opcode,
        Opcode::Iconst
            | Opcode::PooledConst(_)
            | Opcode::Unary(_)
            | Opcode::Convert(_)
            | Opcode::Binary(_)
            | Opcode::Stack(_)
            | Opcode::CondTrap(_)
    )
}

// The type that is given with a pooled constant.
fn pooled_type(opcode: PooledConstOpcode) -> Type {
    match opcode {
        PooledConstOpcode::F128const => Type::Invalid,
        PooledConstOpcode::Vconst => I8X16,
    }
}

// The type to which a value is converted.
fn converted_type(opcode: ConvertOpcode) -> Type {
    match opcode {
        ConvertOpcode::Splat => I32X4,
        ConvertOpcode::Uextend => I64,
        ConvertOpcode::Sextend => I128,
        ConvertOpcode::Ireduce => I16,
    }
}

fn stack<B: ResultBuilder>(ins: &mut B, opcode: StackOpcode, given: &Given) -> bool
    requires current { B.can_build ins.old }
    requires slot_exists { B.has_entry ins.old (ASlot given.now.slot) }
{
    match opcode {
        StackOpcode::StackAddr => ins.stack(opcode, I64, given.slot, 4).is_ok(),
        StackOpcode::StackLoad => ins.stack(opcode, I32, given.slot, -4).is_ok(),
    }
}

fn cond_trap<B: ResultBuilder>(ins: &mut B, opcode: CondTrapOpcode, given: &Given) -> bool
    requires current { B.can_build ins.old }
    requires x_exists { B.has_value ins.old given.now.x }
    requires y_exists { B.has_value ins.old given.now.y }
{
    match opcode {
        CondTrapOpcode::Trapz => ins.cond_trap(opcode, given.x, TrapCode::User(7)).is_ok(),
        CondTrapOpcode::Trapnz => {
            ins.cond_trap(opcode, given.y, TrapCode::HeapOutOfBounds)
                .is_ok()
        }
    }
}

/// Makes the instruction of a row by the method for its format, and says whether that succeeded.
pub fn make_by_format<B: ResultBuilder>(ins: &mut B, opcode: Opcode, given: &Given) -> bool
    requires current { B.can_build ins.old }
    requires x_exists { B.has_value ins.old given.now.x }
    requires y_exists { B.has_value ins.old given.now.y }
    requires slot_exists { B.has_entry ins.old (ASlot given.now.slot) }
{
    match opcode {
        Opcode::Iconst => ins.unary_imm(I32, 7).is_ok(),
        Opcode::PooledConst(opcode) => ins.pooled(opcode, pooled_type(opcode), &BYTES).is_ok(),
        Opcode::Unary(opcode) => ins.unary(opcode, given.x).is_ok(),
        Opcode::Convert(opcode) => ins.convert(opcode, converted_type(opcode), given.x).is_ok(),
        Opcode::Binary(opcode) => ins.binary(opcode, given.x, given.y).is_ok(),
        Opcode::Stack(opcode) => stack(ins, opcode, given),
        Opcode::CondTrap(opcode) => cond_trap(ins, opcode, given),
        _ => false,
    }
}
