//! Instructions without lists and edges as plain data, where values and entries of tables are named by their numbers.
#![tactic(auto)]

use crate::support::{below_1000, v};
use clif_instructions::instructions::InstructionData;
use clif_opcodes::{
    BinaryOpcode, CondTrapOpcode, ConvertOpcode, FloatConstOpcode, PooledConstOpcode, StackOpcode,
    UnaryOpcode,
};
use clif_types::{AliasRegion, Constant, EntityRef, IntCC, MemFlagsData, StackSlot, TrapCode};
use std::process::Abort;

/// An instruction.
#[derive(Clone, Copy)]
pub enum Plain {
    /// A constant.
    Iconst(i64),
    /// The bits of a float.
    Float(FloatConstOpcode, u64),
    /// A pooled constant.
    Constant(PooledConstOpcode, u32),
    /// An operation on a value.
    Unary(UnaryOpcode, u32),
    /// An operation on two values.
    Binary(BinaryOpcode, u32, u32),
    /// A conversion of a value.
    Convert(ConvertOpcode, u32),
    /// A choice between two values: the condition, and then the values.
    Select(u32, u32, u32),
    /// A comparison of two values.
    Icmp(IntCC, u32, u32),
    /// The low half and the high half of an integer.
    Concat(u32, u32),
    /// An integer whose halves are the results.
    Split(u32),
    /// A load from an address and a distance from it.
    Load(Flags, u32, i32),
    /// A store of a value, to an address and a distance from it.
    Store(Flags, u32, u32, i32),
    /// The address of a stack slot, or a load from it, at a distance.
    Stack(StackOpcode, u32, i32),
    /// A store of a value into a stack slot, at a distance.
    StackStore(u32, u32, i32),
    /// A trap.
    Trap(TrapCode),
    /// A trap under a condition on a value.
    CondTrap(CondTrapOpcode, u32, TrapCode),
}

/// The flags of an access.
#[derive(Clone, Copy)]
pub enum Flags {
    /// Those of an access that is known to be good.
    Trusted,
    /// Whether the access doesn't trap, whether it is aligned, and the region that it stays in, each by itself.
    Each(bool, bool, Option<u32>),
}

/// No flags.
pub const NO_FLAGS: Flags = Flags::Each(false, false, None);

// These flags.
fn flags_of(rt: &impl Abort, flags: Flags) -> MemFlagsData {
    match flags {
        Flags::Trusted => MemFlagsData::trusted(),
        Flags::Each(notrap, aligned, region) => {
            let mut known = MemFlagsData::new();
            if notrap {
                known.set_notrap();
            }
            if aligned {
                known.set_aligned();
            }
            if let Some(number) = region {
                let region = AliasRegion::from_u32(below_1000(rt, number));
                known.set_alias_region(Some(region));
            }
            known
        }
    }
}

/// The shape of an instruction.
pub fn shape_of(rt: &impl Abort, plain: Plain) -> InstructionData {
    match plain {
        Plain::Iconst(imm) => InstructionData::UnaryImm { imm },
        Plain::Float(opcode, bits) => InstructionData::UnaryIeee { opcode, bits },
        Plain::Constant(opcode, number) => InstructionData::UnaryConst {
            opcode,
            constant: Constant::from_u32(below_1000(rt, number)),
        },
        Plain::Unary(opcode, x) => InstructionData::Unary {
            opcode,
            arg: v(rt, x),
        },
        Plain::Binary(opcode, x, y) => InstructionData::Binary {
            opcode,
            args: [v(rt, x), v(rt, y)],
        },
        Plain::Convert(opcode, x) => InstructionData::Convert {
            opcode,
            arg: v(rt, x),
        },
        Plain::Select(c, x, y) => InstructionData::Ternary {
            args: [v(rt, c), v(rt, x), v(rt, y)],
        },
        Plain::Icmp(cond, x, y) => InstructionData::IntCompare {
            cond,
            args: [v(rt, x), v(rt, y)],
        },
        Plain::Concat(x, y) => InstructionData::Concat {
            args: [v(rt, x), v(rt, y)],
        },
        Plain::Split(x) => InstructionData::Split { arg: v(rt, x) },
        Plain::Load(flags, p, offset) => InstructionData::Load {
            flags: flags_of(rt, flags),
            arg: v(rt, p),
            offset,
        },
        Plain::Store(flags, x, p, offset) => InstructionData::Store {
            flags: flags_of(rt, flags),
            args: [v(rt, x), v(rt, p)],
            offset,
        },
        Plain::Stack(opcode, slot, offset) => InstructionData::StackLoad {
            opcode,
            slot: StackSlot::from_u32(below_1000(rt, slot)),
            offset,
        },
        Plain::StackStore(x, slot, offset) => InstructionData::StackStore {
            arg: v(rt, x),
            slot: StackSlot::from_u32(below_1000(rt, slot)),
            offset,
        },
        Plain::Trap(code) => InstructionData::Trap { code },
        Plain::CondTrap(opcode, x, code) => InstructionData::CondTrap {
            opcode,
            arg: v(rt, x),
            code,
        },
    }
}
