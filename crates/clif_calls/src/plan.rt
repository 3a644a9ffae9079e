//! What instructions are, by their formats.
ghost use Rattle.std.specs.Prelude.{◌≡◌, ◌∷◌, ◌≤◌, ◌^◌, [], IfNone, IfSome};
ghost use Rattle.clif_calls.specs.Plan.{float_width, plan_of};

use crate::call::{Edge, Name, PlainInstruction};
use clif_opcodes::{
    BinaryOpcode, CondTrapOpcode, ConvertOpcode, FloatConstOpcode, StackOpcode, UnaryOpcode,
};
use clif_types::{IntCC, MemFlagsData, TrapCode, Type};

/// An instruction by its format: what it does, and the names of its operands and of its edges, in order.
#[derive(Clone, Copy)]
pub enum Plan<'a> {
    /// A number at a type.
    UnaryImm {
        ty: Type,
        imm: i64,
    },
    /// The bits of a float, which fit the width of its type.
    UnaryIeee {
        opcode: FloatConstOpcode,
        bits: u64,
    },
    /// One operand.
    Unary {
        opcode: UnaryOpcode,
        arg: Name,
    },
    /// Two operands; the first has the controlling type.
    Binary {
        opcode: BinaryOpcode,
        args: [Name; 2],
    },
    /// One operand, and the type of the result.
    Convert {
        opcode: ConvertOpcode,
        ty: Type,
        arg: Name,
    },
    /// The low half and the high half of an integer.
    Concat {
        args: [Name; 2],
    },
    /// An integer, which is split into its halves.
    Split {
        arg: Name,
    },
    /// Two operands that are compared.
    IntCompare {
        cond: IntCC,
        args: [Name; 2],
    },
    /// A condition, and two operands of one type.
    Ternary {
        args: [Name; 3],
    },
    /// An address, a distance from it, and the type of what is loaded from there.
    Load {
        flags: MemFlagsData,
        ty: Type,
        arg: Name,
        offset: i32,
    },
    /// What is stored, an address, and a distance from it.
    Store {
        flags: MemFlagsData,
        args: [Name; 2],
        offset: i32,
    },
    /// A place in a stack slot, and the type of its address or of what is loaded from there.
    StackLoad {
        opcode: StackOpcode,
        ty: Type,
        slot: Name,
        offset: i32,
    },
    /// What is stored, and a place in a stack slot.
    StackStore {
        arg: Name,
        slot: Name,
        offset: i32,
    },
    /// A reason, for which the function ends.
    Trap {
        code: TrapCode,
    },
    /// A condition, and the reason for a trap under it.
    CondTrap {
        opcode: CondTrapOpcode,
        arg: Name,
        code: TrapCode,
    },
    /// An edge.
    Jump {
        destination: &'a Edge,
    },
    /// A condition, the edge where it isn't zero, and the other.
    Brif {
        condition: Name,
        block_then: &'a Edge,
        block_else: &'a Edge,
    },
    /// Any number of operands, with which the function ends.
    MultiAry {
        args: &'a [Name],
    },
}

impl PlainInstruction {
    /// The format of the instruction, with its opcode and its operands: a row an instruction.
    pub fn plan(self) -> Plan<'static>
        ensures { result ≡ plan_of self }
    {
        match self {
            PlainInstruction::Iconst { ty, imm } => Plan::UnaryImm { ty, imm },
            PlainInstruction::F16const { bits } => {
                float(FloatConstOpcode::F16const, u64::from(bits))
            }
            PlainInstruction::F32const { bits } => {
                float(FloatConstOpcode::F32const, u64::from(bits))
            }
            PlainInstruction::F64const { bits } => float(FloatConstOpcode::F64const, bits),
            PlainInstruction::Iadd { x, y } => two(BinaryOpcode::Iadd, x, y),
            PlainInstruction::Isub { x, y } => two(BinaryOpcode::Isub, x, y),
            PlainInstruction::Imul { x, y } => two(BinaryOpcode::Imul, x, y),
            PlainInstruction::Band { x, y } => two(BinaryOpcode::Band, x, y),
            PlainInstruction::Bor { x, y } => two(BinaryOpcode::Bor, x, y),
            PlainInstruction::Bxor { x, y } => two(BinaryOpcode::Bxor, x, y),
            PlainInstruction::Ishl { x, y } => two(BinaryOpcode::Ishl, x, y),
            PlainInstruction::Ushr { x, y } => two(BinaryOpcode::Ushr, x, y),
            PlainInstruction::Sshr { x, y } => two(BinaryOpcode::Sshr, x, y),
            PlainInstruction::Udiv { x, y } => two(BinaryOpcode::Udiv, x, y),
            PlainInstruction::Sdiv { x, y } => two(BinaryOpcode::Sdiv, x, y),
            PlainInstruction::Urem { x, y } => two(BinaryOpcode::Urem, x, y),
            PlainInstruction::Srem { x, y } => two(BinaryOpcode::Srem, x, y),
            PlainInstruction::Splat { ty, x } => typed(ConvertOpcode::Splat, ty, x),
            PlainInstruction::Uextend { ty, x } => typed(ConvertOpcode::Uextend, ty, x),
            PlainInstruction::Sextend { ty, x } => typed(ConvertOpcode::Sextend, ty, x),
            PlainInstruction::Ireduce { ty, x } => typed(ConvertOpcode::Ireduce, ty, x),
            PlainInstruction::Iconcat { x, y } => Plan::Concat { args: [x, y] },
            PlainInstruction::Isplit { x } => Plan::Split { arg: x },
            PlainInstruction::Icmp { cond, x, y } => Plan::IntCompare { cond, args: [x, y] },
            PlainInstruction::Select { c, x, y } => Plan::Ternary { args: [c, x, y] },
            PlainInstruction::Ineg { x } => one(UnaryOpcode::Ineg, x),
            PlainInstruction::Bnot { x } => one(UnaryOpcode::Bnot, x),
            PlainInstruction::Load {
                ty,
                flags,
                p,
                offset,
            } => {
                Plan::Load {
                    flags,
                    ty,
                    arg: p,
                    offset,
                }
            }
            PlainInstruction::Store {
                flags,
                x,
                p,
                offset,
            } => {
                Plan::Store {
                    flags,
                    args: [x, p],
                    offset,
                }
            }
            PlainInstruction::StackAddr { ty, slot, offset } => {
                at_slot(StackOpcode::StackAddr, ty, slot, offset)
            }
            PlainInstruction::StackLoad { ty, slot, offset } => {
                at_slot(StackOpcode::StackLoad, ty, slot, offset)
            }
            PlainInstruction::StackStore { x, slot, offset } => {
                Plan::StackStore {
                    arg: x,
                    slot,
                    offset,
                }
            }
            PlainInstruction::Trapz { c, code } => trap_if(CondTrapOpcode::Trapz, c, code),
            PlainInstruction::Trapnz { c, code } => trap_if(CondTrapOpcode::Trapnz, c, code),
        }
    }

    /// The instruction of one operand with this opcode.
    pub fn unary(opcode: UnaryOpcode, x: Name) -> PlainInstruction
        ensures { plan_of result ≡ Plan.Unary opcode x }
    {
        match opcode {
            UnaryOpcode::Ineg => PlainInstruction::Ineg { x },
            UnaryOpcode::Bnot => PlainInstruction::Bnot { x },
        }
    }

    /// The instruction of one operand with this opcode, whose result has this type.
    pub fn convert(opcode: ConvertOpcode, ty: Type, x: Name) -> PlainInstruction
        ensures { plan_of result ≡ Plan.Convert opcode ty x }
    {
        match opcode {
            ConvertOpcode::Splat => PlainInstruction::Splat { ty, x },
            ConvertOpcode::Uextend => PlainInstruction::Uextend { ty, x },
            ConvertOpcode::Sextend => PlainInstruction::Sextend { ty, x },
            ConvertOpcode::Ireduce => PlainInstruction::Ireduce { ty, x },
        }
    }

    /// The constant with this opcode whose bits these are. There is none if they don't fit the width of its type.
    pub fn float_const(opcode: FloatConstOpcode, bits: u64) -> Option<PlainInstruction>
        ensures some { IfSome result (λ constant. plan_of constant ≡ Plan.UnaryIeee opcode bits) }
        ensures none { IfNone result (2 ^ float_width opcode ≤ bits) }
    {
        let constant = match opcode {
            FloatConstOpcode::F16const => PlainInstruction::F16const {
                bits: u16::try_from(bits).ok()?,
            },
            FloatConstOpcode::F32const => PlainInstruction::F32const {
                bits: u32::try_from(bits).ok()?,
            },
            FloatConstOpcode::F64const => PlainInstruction::F64const { bits },
        };
        Some(constant)
    }

    /// The instruction with this opcode that traps for this reason, under a condition on its operand.
    pub fn cond_trap(opcode: CondTrapOpcode, c: Name, code: TrapCode) -> PlainInstruction
        ensures { plan_of result ≡ Plan.CondTrap opcode c code }
    {
        match opcode {
            CondTrapOpcode::Trapz => PlainInstruction::Trapz { c, code },
            CondTrapOpcode::Trapnz => PlainInstruction::Trapnz { c, code },
        }
    }

    /// The instruction with this opcode at a place in a stack slot, whose result has this type.
    pub fn stack(opcode: StackOpcode, ty: Type, slot: Name, offset: i32) -> PlainInstruction
        ensures { plan_of result ≡ Plan.StackLoad opcode ty slot offset }
    {
        match opcode {
            StackOpcode::StackAddr => PlainInstruction::StackAddr { ty, slot, offset },
            StackOpcode::StackLoad => PlainInstruction::StackLoad { ty, slot, offset },
        }
    }

    /// The instruction of two operands with this opcode.
    pub fn binary(opcode: BinaryOpcode, x: Name, y: Name) -> PlainInstruction
        ensures { plan_of result ≡ Plan.Binary opcode (x ∷ y ∷ []) }
    {
        match opcode {
            BinaryOpcode::Iadd => PlainInstruction::Iadd { x, y },
            BinaryOpcode::Isub => PlainInstruction::Isub { x, y },
            BinaryOpcode::Imul => PlainInstruction::Imul { x, y },
            BinaryOpcode::Band => PlainInstruction::Band { x, y },
            BinaryOpcode::Bor => PlainInstruction::Bor { x, y },
            BinaryOpcode::Bxor => PlainInstruction::Bxor { x, y },
            BinaryOpcode::Ishl => PlainInstruction::Ishl { x, y },
            BinaryOpcode::Ushr => PlainInstruction::Ushr { x, y },
            BinaryOpcode::Sshr => PlainInstruction::Sshr { x, y },
            BinaryOpcode::Udiv => PlainInstruction::Udiv { x, y },
            BinaryOpcode::Sdiv => PlainInstruction::Sdiv { x, y },
            BinaryOpcode::Urem => PlainInstruction::Urem { x, y },
            BinaryOpcode::Srem => PlainInstruction::Srem { x, y },
        }
    }
}

// The bits of a float.
fn float(opcode: FloatConstOpcode, bits: u64) -> Plan<'static>
    ensures { result ≡ Plan.UnaryIeee opcode bits }
{
    Plan::UnaryIeee { opcode, bits }
}

// One operand.
fn one(opcode: UnaryOpcode, arg: Name) -> Plan<'static>
    ensures { result ≡ Plan.Unary opcode arg }
{
    Plan::Unary { opcode, arg }
}

// One operand, at a type.
fn typed(opcode: ConvertOpcode, ty: Type, arg: Name) -> Plan<'static>
    ensures { result ≡ Plan.Convert opcode ty arg }
{
    Plan::Convert { opcode, ty, arg }
}

// Two operands.
fn two(opcode: BinaryOpcode, x: Name, y: Name) -> Plan<'static>
    ensures { result ≡ Plan.Binary opcode (x ∷ y ∷ []) }
{
    Plan::Binary {
        opcode,
        args: [x, y],
    }
}

// A place in a stack slot, at a type.
fn at_slot(opcode: StackOpcode, ty: Type, slot: Name, offset: i32) -> Plan<'static>
    ensures { result ≡ Plan.StackLoad opcode ty slot offset }
{
    Plan::StackLoad {
        opcode,
        ty,
        slot,
        offset,
    }
}

// A trap under a condition.
fn trap_if(opcode: CondTrapOpcode, arg: Name, code: TrapCode) -> Plan<'static>
    ensures { result ≡ Plan.CondTrap opcode arg code }
{
    Plan::CondTrap { opcode, arg, code }
}
