//! What is so of a function once some steps are made.
#![tactic(auto)]

use crate::support::{b, below_1000, block_of, inst_of, map_entry, v, value_of};
use clif_ir::function::{Function, ValueDef};
use clif_types::{Block, EntityRef, Inst, Type, Value};
use std::process::Abort;

/// A fact, where blocks, values and instructions are named by their numbers.
#[derive(Clone, Copy)]
pub enum Fact {
    /// There are so many blocks.
    BlockCount(usize),
    /// The first block of the layout.
    Entry(Option<u32>),
    /// The block that follows a block in the layout.
    NextBlock(u32, Option<u32>),
    /// Whether a block is in the layout.
    LaidOut(u32, bool),
    /// Whether a block is cold.
    IsCold(u32, bool),
    /// The blocks to which a block leads.
    Leads(u32, &'static [u32]),
    /// The parameter of a block at a place.
    ParamAt(u32, usize, Option<u32>),
    /// The first instruction of a block.
    FirstInst(u32, Option<u32>),
    /// The last instruction of a block.
    LastInst(u32, Option<u32>),
    /// There are so many instructions in a block.
    InstCount(u32, usize),
    /// The instruction that follows an instruction in its block.
    NextInst(u32, Option<u32>),
    /// The block in which an instruction stands.
    StandsIn(u32, Option<u32>),
    /// The source place of an instruction.
    Place(u32, u32),
    /// The result of an instruction at a place.
    ResultAt(u32, usize, Option<u32>),
    /// The argument of an instruction at a place.
    ArgumentAt(u32, usize, Option<u32>),
    /// The stack map of an instruction, by its entries: the type, the slot, and the distance from the slot's begin.
    HasMap(u32, &'static [(Type, u32, u32)]),
    /// A value stands for a value.
    StandsFor(u32, u32),
    /// A value is the parameter of a block at a place.
    IsParam(u32, u32, usize),
    /// A value is the result of an instruction at a place.
    IsResult(u32, u32, usize),
    /// The block of which a value is a parameter.
    Home(u32, Option<u32>),
    /// The type of a value.
    HasType(u32, Type),
    /// The labels of a value: where each begins, and its number.
    HasLabels(u32, &'static [(u32, u32)]),
}

fn block_number(block: Option<Block>) -> Option<u32> {
    match block {
        Some(block) => Some(block.as_u32()),
        None => None,
    }
}

fn inst_number(inst: Option<Inst>) -> Option<u32> {
    match inst {
        Some(inst) => Some(inst.as_u32()),
        None => None,
    }
}

// The number of the value at a place of a list.
fn number_at(values: &[Value], place: usize) -> Option<u32> {
    if place < values.len() {
        Some(values[place].as_u32())
    } else {
        None
    }
}

// Whether a block leads to these blocks.
fn leads(rt: &impl Abort, func: &Function, block: u32, targets: &[u32]) -> bool {
    let mut successors = func.block_successors(block_of(rt, func, block));
    for target in targets {
        if block_number(successors.next()) != Some(*target) {
            return false;
        }
    }
    successors.next().is_none()
}

// Whether an instruction has the stack map of these entries.
fn has_map(rt: &impl Abort, func: &Function, inst: u32, rows: &[(Type, u32, u32)]) -> bool {
    let map = func.stack_map(inst_of(rt, func, inst));
    for (entry, row) in map.iter().zip(rows.iter()) {
        if *entry != map_entry(rt, *row) {
            return false;
        }
    }
    map.len() == rows.len()
}

// Whether a value has these labels.
fn has_labels(rt: &impl Abort, func: &Function, value: u32, rows: &[(u32, u32)]) -> bool {
    let labels = func.value_labels(value_of(rt, func, value));
    for (start, (from, label)) in labels.iter().zip(rows.iter()) {
        if start.from.bits() != *from || start.label.as_u32() != *label {
            return false;
        }
    }
    labels.len() == rows.len()
}

/// Whether a fact holds.
pub fn holds(rt: &impl Abort, func: &Function, fact: Fact) -> bool {
    match fact {
        Fact::BlockCount(count) => func.block_count() == count,
        Fact::Entry(block) => block_number(func.entry_block()) == block,
        Fact::NextBlock(block, next) => {
            block_number(func.next_block(block_of(rt, func, block))) == next
        }
        Fact::LaidOut(block, is) => func.is_block_inserted(block_of(rt, func, block)) == is,
        Fact::IsCold(block, is) => func.is_cold(block_of(rt, func, block)) == is,
        Fact::Leads(block, targets) => leads(rt, func, block, targets),
        Fact::ParamAt(block, at, value) => {
            number_at(func.block_params(block_of(rt, func, block)), at) == value
        }
        Fact::FirstInst(block, first) => {
            inst_number(func.first_inst(block_of(rt, func, block))) == first
        }
        Fact::LastInst(block, last) => {
            inst_number(func.last_inst(block_of(rt, func, block))) == last
        }
        Fact::InstCount(block, count) => {
            func.block_inst_count(block_of(rt, func, block)) == count
        }
        Fact::NextInst(inst, next) => {
            inst_number(func.next_inst(inst_of(rt, func, inst))) == next
        }
        Fact::StandsIn(inst, block) => {
            block_number(func.inst_block(inst_of(rt, func, inst))) == block
        }
        Fact::Place(inst, bits) => func.srcloc(inst_of(rt, func, inst)).bits() == bits,
        Fact::ResultAt(inst, at, value) => {
            number_at(func.inst_results(inst_of(rt, func, inst)), at) == value
        }
        Fact::ArgumentAt(inst, at, value) => {
            number_at(func.inst_data(inst_of(rt, func, inst)).arguments(), at) == value
        }
        Fact::HasMap(inst, rows) => has_map(rt, func, inst, rows),
        Fact::StandsFor(value, original) => {
            func.resolve_aliases(value_of(rt, func, value)).as_u32() == original
        }
        Fact::IsParam(value, block, at) => {
            let def = ValueDef::Param(b(rt, block), at);
            func.value_def(value_of(rt, func, value)) == def
        }
        Fact::IsResult(value, inst, at) => {
            let def = ValueDef::Result(Inst::from_u32(below_1000(rt, inst)), at);
            func.value_def(value_of(rt, func, value)) == def
        }
        Fact::Home(value, block) => block_number(func.param_home(v(rt, value))) == block,
        Fact::HasType(value, ty) => func.value_type(value_of(rt, func, value)) == ty,
        Fact::HasLabels(value, rows) => has_labels(rt, func, value, rows),
    }
}
