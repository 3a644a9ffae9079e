//! What instructions do, without their operands: a row for each format. It follows the table of outcomes in the
//! definitions of what instructions mean.
use crate::arithmetic::{
    binary, compares, concat, constant, convert, greatest, split, traps, unary,
};
use crate::fault::{Fault, Stop};
use crate::memory::{Access, Memory, Slots};
use clif_opcodes::{
    BinaryOpcode, CondTrapOpcode, Control, ConvertOpcode, FloatConstOpcode, Opcode, OperandKind,
    OtherOperands, PooledConstOpcode, StackOpcode, UnaryOpcode,
};
use clif_types::{AbiParam, IntCC, MemFlagsData, StackSlot, TrapCode, Type};
use std::alloc::Global;

/// Bits and the type that they have.
#[derive(Clone, Copy)]
pub struct Typed {
    pub ty: Type,
    pub bits: u128,
}

/// What an instruction does.
pub enum Operation {
    /// An integer constant.
    Iconst(i64),
    /// The bits of a float.
    FloatConst(FloatConstOpcode, u64),
    /// The bits of a pooled constant, of which at most 128 are kept.
    PooledConst(PooledConstOpcode, u128),
    /// An operation on one operand.
    Unary(UnaryOpcode),
    /// An operation on two operands.
    Binary(BinaryOpcode),
    /// A comparison.
    Compare(IntCC),
    /// Puts two halves together.
    Concat,
    /// Splits an integer into halves.
    Split,
    /// A conversion to a type that is given.
    Convert(ConvertOpcode),
    /// A choice.
    Select,
    /// Reads memory.
    Load {
        flags: MemFlagsData,
        offset: i32,
    },
    /// Writes memory.
    Store {
        flags: MemFlagsData,
        offset: i32,
    },
    /// Names a stack slot and gives a value.
    Stack {
        opcode: StackOpcode,
        slot: StackSlot,
        offset: i32,
    },
    /// Writes a stack slot.
    StackStore {
        slot: StackSlot,
        offset: i32,
    },
    /// Goes along its edge.
    Jump,
    /// Goes along one of two edges.
    Brif,
    /// Goes along the entry whose number its operand is, of so many, or else along the default.
    BrTable(usize),
    /// Returns its operands.
    Return,
    /// Traps.
    Trap(TrapCode),
    /// Traps under a condition.
    CondTrap(CondTrapOpcode, TrapCode),
}

// By hand: a derived one is proved anew at each way out of a function that holds such a value.
impl Drop for Operation {
    fn drop(self) {
        match self {
            Operation::Iconst(_) => {}
            Operation::FloatConst(_, _) => {}
            Operation::PooledConst(_, _) => {}
            Operation::Unary(_) => {}
            Operation::Binary(_) => {}
            Operation::Compare(_) => {}
            Operation::Concat => {}
            Operation::Split => {}
            Operation::Convert(_) => {}
            Operation::Select => {}
            Operation::Load {
                flags: _,
                offset: _,
            } => {}
            Operation::Store {
                flags: _,
                offset: _,
            } => {}
            Operation::Stack {
                opcode: _,
                slot: _,
                offset: _,
            } => {}
            Operation::StackStore { slot: _, offset: _ } => {}
            Operation::Jump => {}
            Operation::Brif => {}
            Operation::BrTable(_) => {}
            Operation::Return => {}
            Operation::Trap(_) => {}
            Operation::CondTrap(_, _) => {}
        }
    }
}

impl Operation {
    /// The opcode, by which the typing table tells of operands and results.
    pub fn opcode(&self) -> Opcode {
        match self {
            Operation::Iconst(_) => Opcode::Iconst,
            Operation::FloatConst(opcode, _) => Opcode::FloatConst(*opcode),
            Operation::PooledConst(opcode, _) => Opcode::PooledConst(*opcode),
            Operation::Unary(opcode) => Opcode::Unary(*opcode),
            Operation::Binary(opcode) => Opcode::Binary(*opcode),
            Operation::Compare(_) => Opcode::Icmp,
            Operation::Concat => Opcode::Iconcat,
            Operation::Split => Opcode::Isplit,
            Operation::Convert(opcode) => Opcode::Convert(*opcode),
            Operation::Select => Opcode::Select,
            Operation::Load { .. } => Opcode::Load,
            Operation::Store { .. } => Opcode::Store,
            Operation::Stack { opcode, .. } => Opcode::Stack(*opcode),
            Operation::StackStore { .. } => Opcode::StackStore,
            Operation::Jump => Opcode::Jump,
            Operation::Brif => Opcode::Brif,
            Operation::BrTable(_) => Opcode::BrTable,
            Operation::Return => Opcode::Return,
            Operation::Trap(_) => Opcode::Trap,
            Operation::CondTrap(opcode, _) => Opcode::CondTrap(*opcode),
        }
    }
}

/// What an instruction did.
#[derive(Drop)]
pub enum Outcome {
    /// It gave these bits to its results.
    Gave(Vec<u128>),
    /// Control goes along the edge with this number.
    Went(usize),
    /// The run ends with the operands.
    Returned,
    /// The run ends with a trap.
    Trapped(TrapCode),
}

/// Memory of a run, and where the stack slots lie in it.
#[derive(Drop)]
pub struct Store {
    pub memory: Memory,
    pub slots: Slots,
}

/// What an instruction does to operands and memory, and its controlling type. `given` is the type that is given with
/// the instruction, if one is; `returns` is what the function returns.
///
/// # Errors
///
/// A [`Fault`], where the interpreters can't carry it out, or memory is refused.
pub fn carry_out(
    alloc: Global,
    operation: &Operation,
    given: Type,
    operands: &[Typed],
    returns: &[AbiParam],
    store: &mut Store,
) -> Result<(Type, Outcome), Fault> {
    let ty = controlling(operation, given, operands);
    check_types(operation.opcode(), ty, operands, returns)?;
    match store.outcome(alloc, operation, ty, operands) {
        Ok(outcome) => Ok((ty, outcome)),
        Err(Stop::Trap(code)) => Ok((ty, Outcome::Trapped(code))),
        Err(Stop::Fault(fault)) => Err(fault),
    }
}

// The type that an instruction is made at.
fn controlling(operation: &Operation, given: Type, operands: &[Typed]) -> Type {
    match operation.opcode().typing().control {
        Control::Absent => Type::Invalid,
        Control::Given => given,
        Control::Operand(place) => operand(operands, place).ty,
    }
}

// An operand; of no type where there is none.
fn operand(operands: &[Typed], place: usize) -> Typed {
    let missing = Typed {
        ty: Type::Invalid,
        bits: 0,
    };
    operands.get(place).copied().unwrap_or(missing)
}

// Whether an instruction is defined at these types, by the typing table.
fn check_types(
    opcode: Opcode,
    ty: Type,
    operands: &[Typed],
    returns: &[AbiParam],
) -> Result<(), Fault> {
    let typing = opcode.typing();
    if !typing.demand.is_met(ty) {
        return Err(Fault::Types(opcode));
    }
    match typing.others {
        OtherOperands::Nothing if are_admitted(typing.operands, ty, operands) => Ok(()),
        OtherOperands::Returned if have_types(operands, returns) => Ok(()),
        OtherOperands::Returned => Err(Fault::Returned),
        OtherOperands::Nothing | OtherOperands::Arguments => Err(Fault::Types(opcode)),
    }
}

fn are_admitted(kinds: &[OperandKind], ty: Type, operands: &[Typed]) -> bool {
    if kinds.len() != operands.len() {
        return false;
    }
    for (kind, operand) in kinds.iter().zip(operands.iter()) {
        if !kind.admits(ty, operand.ty) {
            return false;
        }
    }
    true
}

// Whether values have the types of these parameters, and are as many.
fn have_types(values: &[Typed], params: &[AbiParam]) -> bool {
    if values.len() != params.len() {
        return false;
    }
    for (value, param) in values.iter().zip(params.iter()) {
        if value.ty != param.value_type {
            return false;
        }
    }
    true
}

impl Store {
    /// Places one more stack slot in memory, of so many bytes, whose address is a multiple of 2 to the power of
    /// `shift`.
    ///
    /// # Errors
    ///
    /// A [`Fault`], where there is no room for it, or memory is refused.
    pub fn add_slot(&mut self, size: u32, shift: u8) -> Result<(), Fault> {
        let end = self.memory.end();
        self.slots.add(size, shift, end)
    }

    // The row of an operation, for operands of the types that it requires.
    fn outcome(
        &mut self,
        alloc: Global,
        operation: &Operation,
        ty: Type,
        operands: &[Typed],
    ) -> Result<Outcome, Stop> {
        let first = operand(operands, 0);
        match operation {
            Operation::Store { flags, offset } => {
                let access = access(ty, operand(operands, 1), *flags, *offset);
                self.memory.store(&access, first.bits)?;
                gave(alloc, &[])
            }
            Operation::StackStore { slot, offset } => {
                let access = self.slots.access(ty, *slot, *offset)?;
                self.memory.store(&access, first.bits)?;
                gave(alloc, &[])
            }
            Operation::Split => {
                let (low, high) = split(ty, first.bits);
                gave(alloc, &[low, high])
            }
            Operation::Jump => Ok(Outcome::Went(0)),
            Operation::Brif => Ok(Outcome::Went(if first.bits != 0 { 0 } else { 1 })),
            Operation::BrTable(entries) => Ok(Outcome::Went(edge_in_table(*entries, first.bits))),
            Operation::Return => Ok(Outcome::Returned),
            Operation::Trap(code) => Ok(Outcome::Trapped(*code)),
            Operation::CondTrap(opcode, code) if traps(*opcode, first.bits) => {
                Ok(Outcome::Trapped(*code))
            }
            Operation::CondTrap(..) => gave(alloc, &[]),
            _ => gave(alloc, &[self.computed(operation, ty, operands)?]),
        }
    }

    // The row of an operation that gives one result.
    fn computed(&self, operation: &Operation, ty: Type, operands: &[Typed]) -> Result<u128, Stop> {
        let x = operand(operands, 0);
        let y = operand(operands, 1);
        let bits = match operation {
            Operation::Iconst(number) => constant(ty, *number),
            Operation::FloatConst(_, bits) => u128::from(*bits),
            Operation::PooledConst(_, bits) => *bits,
            Operation::Unary(opcode) => unary(*opcode, ty, x.bits),
            Operation::Binary(opcode) => binary(*opcode, ty, x.bits, y.bits)?,
            Operation::Compare(cond) => u128::from(compares(*cond, ty, x.bits, y.bits)),
            Operation::Concat => concat(ty, x.bits, y.bits),
            Operation::Convert(opcode) => convert(*opcode, ty, x.ty, x.bits),
            Operation::Select if x.bits != 0 => y.bits,
            Operation::Select => operand(operands, 2).bits,
            Operation::Load { flags, offset } => {
                self.memory.load(&access(ty, x, *flags, *offset))?
            }
            Operation::Stack {
                opcode,
                slot,
                offset,
            } => self.at_slot(*opcode, ty, *slot, *offset)?,
            _ => return Err(Stop::Fault(Fault::Results)),
        };
        Ok(bits)
    }

    // What an instruction gives that reads a stack slot, or its address.
    fn at_slot(
        &self,
        opcode: StackOpcode,
        ty: Type,
        slot: StackSlot,
        offset: i32,
    ) -> Result<u128, Stop> {
        let access = self.slots.access(ty, slot, offset)?;
        match opcode {
            StackOpcode::StackAddr => Ok(access.byte_address(0) & greatest(ty)),
            StackOpcode::StackLoad => self.memory.load(&access),
        }
    }
}

// The number of the edge that an index takes in a table of so many entries: the default comes before the entries.
fn edge_in_table(entries: usize, index: u128) -> usize {
    match usize::try_from(index) {
        Ok(index) if index < entries => index.saturating_add(1),
        _ => 0,
    }
}

// An access of a type, at the address that an operand and an offset make.
fn access(ty: Type, p: Typed, flags: MemFlagsData, offset: i32) -> Access {
    Access {
        ty,
        address_type: p.ty,
        address: p.bits,
        offset,
        flags,
    }
}

fn gave(alloc: Global, bits: &[u128]) -> Result<Outcome, Stop> {
    let mut results = Vec::new(alloc);
    for result in bits {
        results.push(*result)?;
    }
    Ok(Outcome::Gave(results))
}

/// The bits of values.
///
/// # Errors
///
/// A [`Fault`], where memory is refused.
pub fn bits_of(alloc: Global, values: &[Typed]) -> Result<Vec<u128>, Fault> {
    let mut bits = Vec::new(alloc);
    for value in values {
        bits.push(value.bits)?;
    }
    Ok(bits)
}

/// The same bits at a type, if the interpreters keep so many.
///
/// # Errors
///
/// A [`Fault`], where the type is wider than the interpreters keep.
pub fn kept(ty: Type, bits: u128) -> Result<Typed, Fault> {
    if ty.bits() > 128 {
        return Err(Fault::TooWide(ty));
    }
    Ok(Typed { ty, bits })
}
