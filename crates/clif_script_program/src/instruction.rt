//! The instructions of scripts, by their parts.
use crate::entries::{JumpEdges, edge_named, edges_served};
use clif_access_plans::{ComparePlan, MovePlan, plan_compare, plan_move};
use clif_calls::{
    Call, Edge, ImmediateCall, MemoryCall, Name, Plan, StraightInstruction, SwitchEntry,
    is_unsigned,
};
use clif_opcodes::PooledConstOpcode;
use clif_operations::arithmetic::bits_of_bytes;
use clif_operations::{ByteOperation, Operation, Promise, WithConstant};
use clif_types::{EntityRef, IntCC, MemFlagsData, StackSlot, Type};
use std::alloc::{AllocError, Global};
use std::slice;

// How many stack slots there can be.
const MOST_SLOTS: usize = 0xffff_ffff;

/// An instruction of a script: what it does, the type that is given with it, and its operands.
#[derive(Drop)]
pub struct Instruction<'p> {
    /// What it does.
    pub operation: Operation,
    /// The type that is given with it; the invalid one if none is.
    pub given: Type,
    /// Its operands.
    pub operands: &'p [Name],
}

/// An instruction by its format, a row for each, where the calls at these places answered entries with these numbers.
pub fn instruction_of<'p>(plan: &'p Plan<'_>, numbers: &[Option<usize>]) -> Instruction<'p> {
    let none: &'p [Name] = &[];
    let (operation, given, operands): (Operation, Type, &'p [Name]) = match plan {
        Plan::UnaryImm { ty, imm } => (Operation::Iconst(*imm), *ty, none),
        Plan::UnaryIeee { opcode, bits } => {
            (Operation::FloatConst(*opcode, *bits), Type::Invalid, none)
        }
        Plan::Unary { opcode, arg } => {
            (
                Operation::Unary(*opcode),
                Type::Invalid,
                slice::from_ref(arg),
            )
        }
        Plan::Binary { opcode, args } => (Operation::Binary(*opcode), Type::Invalid, args),
        Plan::Convert { opcode, ty, arg } => {
            (Operation::Convert(*opcode), *ty, slice::from_ref(arg))
        }
        Plan::Concat { args } => (Operation::Concat, Type::Invalid, args),
        Plan::Split { arg } => (Operation::Split, Type::Invalid, slice::from_ref(arg)),
        Plan::IntCompare { cond, args } => (Operation::Compare(*cond), Type::Invalid, args),
        Plan::Ternary { args } => (Operation::Select, Type::Invalid, args),
        Plan::Load {
            flags,
            ty,
            arg,
            offset,
        } => {
            let (flags, offset) = (*flags, *offset);
            (Operation::Load { flags, offset }, *ty, slice::from_ref(arg))
        }
        Plan::Store {
            flags,
            args,
            offset,
        } => {
            let (flags, offset) = (*flags, *offset);
            (Operation::Store { flags, offset }, Type::Invalid, args)
        }
        Plan::StackLoad {
            opcode,
            ty,
            slot,
            offset,
        } => {
            let (opcode, slot, offset) = (*opcode, slot_at(numbers, *slot), *offset);
            (
                Operation::Stack {
                    opcode,
                    slot,
                    offset,
                },
                *ty,
                none,
            )
        }
        Plan::StackStore { arg, slot, offset } => {
            let (slot, offset) = (slot_at(numbers, *slot), *offset);
            (
                Operation::StackStore { slot, offset },
                Type::Invalid,
                slice::from_ref(arg),
            )
        }
        Plan::Trap { code } => (Operation::Trap(*code), Type::Invalid, none),
        Plan::CondTrap { opcode, arg, code } => (
            Operation::CondTrap(*opcode, *code),
            Type::Invalid,
            slice::from_ref(arg),
        ),
        Plan::Jump { .. } => (Operation::Jump, Type::Invalid, none),
        Plan::Brif { condition, .. } => {
            (Operation::Brif, Type::Invalid, slice::from_ref(condition))
        }
        Plan::MultiAry { args } => (Operation::Return, Type::Invalid, args),
    };
    Instruction {
        operation,
        given,
        operands,
    }
}

// The stack slot that a name leads to; the first one where it leads to none.
fn slot_at(numbers: &[Option<usize>], name: Name) -> StackSlot {
    match numbers.get(name.place) {
        Some(Some(number)) if *number < MOST_SLOTS => StackSlot::new(*number),
        _ => StackSlot::new(0),
    }
}

/// Where the edges of an instruction are: nowhere if it has none.
#[derive(Clone, Copy)]
pub enum Edges<'p, 'a> {
    /// It has none.
    None,
    /// In the instruction itself.
    Own(&'p Plan<'a>),
    /// In this jump table.
    Table(JumpEdges<'a>),
}

/// The branch by a jump table with so many edges, the default included.
pub fn branch_by_table(edges: usize, index: &Name) -> Instruction<'_> {
    Instruction {
        operation: Operation::BrTable(edges.saturating_sub(1)),
        given: Type::Invalid,
        operands: slice::from_ref(index),
    }
}

/// The instruction that a call makes, by its format.
pub fn plan_of(call: &Call) -> Option<Plan<'_>> {
    match call {
        Call::Straight(_, instruction) => straight_plan_of(instruction),
        Call::Jump { destination } => Some(Plan::Jump { destination }),
        Call::Brif {
            condition,
            block_then,
            block_else,
        } => {
            let condition = *condition;
            Some(Plan::Brif {
                condition,
                block_then,
                block_else,
            })
        }
        Call::Return { values } => {
            let args = values.as_slice();
            Some(Plan::MultiAry { args })
        }
        Call::Trap { code } => Some(Plan::Trap { code: *code }),
        _ => None,
    }
}

// The same of an instruction that ends no block, where all of it but its values is in the call.
fn straight_plan_of(instruction: &StraightInstruction) -> Option<Plan<'_>> {
    match instruction {
        StraightInstruction::Plain(plain) => Some(plain.plan()),
        StraightInstruction::Outside(_)
        | StraightInstruction::F128const { .. }
        | StraightInstruction::Vconst { .. } => None,
    }
}

/// The pooled constant that a call makes, as an instruction.
pub fn constant_of<'c>(call: &'c Call) -> Option<Instruction<'c>> {
    let operands: &'c [Name] = &[];
    let Call::Straight(_, instruction) = call else {
        return None;
    };
    let (opcode, given, bytes) = match instruction {
        StraightInstruction::F128const { bytes } => {
            (PooledConstOpcode::F128const, Type::Invalid, bytes)
        }
        StraightInstruction::Vconst { ty, bytes } => (PooledConstOpcode::Vconst, *ty, bytes),
        StraightInstruction::Plain(_) | StraightInstruction::Outside(_) => return None,
    };
    Some(Instruction {
        operation: Operation::PooledConst(opcode, bits_of_bytes(bytes.as_slice())),
        given,
        operands,
    })
}

/// What an instruction with a constant does, and its operand beside that: a row for each.
pub fn with_constant_of(call: ImmediateCall) -> (WithConstant, Name) {
    match call {
        ImmediateCall::IaddImmS { x, imm } => (WithConstant::Iadd(imm), x),
        ImmediateCall::IcmpImmS { cond, x, imm } => (WithConstant::Icmp(cond, imm), x),
    }
}

/// The values that a memory helper names, in order.
///
/// # Errors
///
/// `AllocError`, where memory is refused.
pub fn operands_of(alloc: Global, call: &MemoryCall) -> Result<Vec<Name>, AllocError> {
    let mut operands = Vec::new(alloc);
    match call {
        MemoryCall::CallLibrary {
            first,
            second,
            size,
            ..
        } => operands.extend_from_slice(&[*first, *second, *size])?,
        MemoryCall::Copy { dest, src, .. } => operands.extend_from_slice(&[*dest, *src])?,
        MemoryCall::Fill { buffer, .. } => operands.push(*buffer)?,
        MemoryCall::Compare { left, right, .. } => operands.extend_from_slice(&[*left, *right])?,
    }
    Ok(operands)
}

/// What a memory helper does to bytes: a row for each.
pub fn byte_operation_of(call: MemoryCall) -> ByteOperation {
    match call {
        MemoryCall::CallLibrary { callee, .. } => ByteOperation::CallLibrary(callee),
        MemoryCall::Copy {
            size,
            dest_align,
            src_align,
            non_overlapping,
            flags,
            ..
        } => {
            let access = moved_access(size, flags);
            ByteOperation::Copy {
                size,
                target: Promise::new(dest_align, access),
                source: Promise::new(src_align, access),
                non_overlapping,
            }
        }
        MemoryCall::Fill {
            ch,
            size,
            buffer_align,
            flags,
            ..
        } => {
            let (byte, access) = (ch, moved_access(size, flags));
            let target = Promise::new(buffer_align, access);
            ByteOperation::Fill { byte, size, target }
        }
        MemoryCall::Compare {
            int_cc,
            size,
            left_align,
            right_align,
            flags,
            ..
        } => {
            let access = compared_access(int_cc, size, flags);
            ByteOperation::Compare {
                int_cc,
                size,
                left: Promise::new(left_align.get(), access),
                right: Promise::new(right_align.get(), access),
            }
        }
    }
}

// The alignment that the flag `aligned` claims of the accesses by which bytes are copied or filled; 1 where it isn't set, and where
// a function does it.
fn moved_access(size: u64, flags: MemFlagsData) -> u8 {
    match plan_move(size) {
        MovePlan::Inline(accesses) if flags.aligned() => accesses.bytes,
        _ => 1,
    }
}

// The same of those by which bytes are compared.
fn compared_access(int_cc: IntCC, size: u64, flags: MemFlagsData) -> u8 {
    if !is_unsigned(int_cc) || !flags.aligned() {
        return 1;
    }
    match plan_compare(int_cc, size) {
        ComparePlan::Inline(ty) => u8::try_from(ty.bytes()).unwrap_or(1),
        _ => 1,
    }
}

/// How many results the instruction of this plan has.
pub fn result_count(plan: &Plan<'_>) -> usize {
    let operation = instruction_of(plan, &[]).operation;
    operation.opcode().typing().results.len()
}

/// How many edges an instruction has.
pub fn edge_count(plan: &Plan<'_>) -> usize {
    match plan {
        Plan::Jump { .. } => 1,
        Plan::Brif { .. } => 2,
        _ => 0,
    }
}

/// The edge of an instruction with this number.
pub fn edge_of<'a>(plan: &Plan<'a>, number: usize) -> Option<&'a Edge> {
    match (plan, number) {
        (Plan::Jump { destination }, 0) => Some(destination),
        (Plan::Brif { block_then, .. }, 0) => Some(block_then),
        (Plan::Brif { block_else, .. }, 1) => Some(block_else),
        _ => None,
    }
}

/// Where the edges of the instruction of a call lead, in order; of one that a table serves, those of the table.
///
/// # Errors
///
/// `AllocError`, where memory is refused.
pub fn targets_of(
    alloc: Global,
    calls: &[Call],
    call: &Call,
) -> Result<Vec<Option<Name>>, AllocError> {
    if let Call::Switch {
        entries,
        otherwise,
        ..
    } = call
    {
        return switched_targets(alloc, entries.as_slice(), *otherwise);
    }
    let mut targets = Vec::new(alloc);
    for edge in edges_served(alloc, calls, call)?.iter() {
        targets.push(edge_named(calls, *edge).map(|edge| edge.block))?;
    }
    if let Some(plan) = plan_of(call) {
        for number in 0..edge_count(&plan) {
            targets.push(edge_of(&plan, number).map(|edge| edge.block))?;
        }
    }
    Ok(targets)
}

// Where the edges of a switch lead: to the block of each case, and then to that of all other keys.
fn switched_targets(
    alloc: Global,
    entries: &[SwitchEntry],
    otherwise: Name,
) -> Result<Vec<Option<Name>>, AllocError> {
    let mut targets = Vec::new(alloc);
    for entry in entries {
        targets.push(Some(entry.block))?;
    }
    targets.push(Some(otherwise))?;
    Ok(targets)
}
