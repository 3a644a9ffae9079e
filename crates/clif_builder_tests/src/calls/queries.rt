//! What is asked of a builder.
#![tactic(auto)]

use crate::asserted::{asserts_block, asserts_value, last_inst};
use cranelift_frontend::{
    Block, EntityRef, FunctionBuilder, SourceLoc, Type, Value, ValueDef, Variable,
};
use std::process::Abort;

/// What is expected of a builder, which shows or doesn't.
#[derive(Clone, Copy)]
pub enum Query {
    /// Nothing was made in the block.
    Pristine(u8),
    /// The block has its terminator.
    Filled(u8),
    Sealed(u8),
    /// A branch leads to the block.
    Reached(u8),
    LaidOut(u8),
    /// The block is the first one of the layout.
    Entry(u8),
    /// The block is the current one.
    Current(u8),
    /// The branch that was made last leads to the block.
    Leads(u8),
    /// There is a current block, to which nothing leads.
    Unreachable,
    /// An earlier call failed.
    Failed,
    /// The block has so many parameters.
    Params(u8, usize),
    /// The function has so many values.
    Values(usize),
    /// Instructions get this source place from now on.
    Place(u32),
    /// The variable is declared, and was neither used nor assigned.
    Untouched(u8),
    /// The variable is declared with this type.
    Typed(u8, Type),
    /// The variable isn't declared.
    Undeclared(u8),
}

fn block(number: u8) -> Block {
    Block::from_u32(u32::from(number))
}

fn variable(number: u8) -> Variable {
    Variable::from_u32(u32::from(number))
}

// Whether a block is in the layout.
fn is_laid_out(rt: &impl Abort, builder: &FunctionBuilder<'_>, block: Block) -> bool {
    asserts_block(rt, builder, block);
    builder.func().is_block_inserted(block)
}

// How many parameters a block has.
fn param_count(rt: &impl Abort, builder: &FunctionBuilder<'_>, block: Block) -> usize {
    asserts_block(rt, builder, block);
    builder.block_params(block).len()
}

// Whether nothing leads to the current block.
fn is_unreachable(rt: &impl Abort, builder: &FunctionBuilder<'_>) -> bool {
    assert!(rt; builder.current_block().is_some());
    builder.is_unreachable()
}

/// Whether what is expected shows.
pub fn shows(rt: &impl Abort, builder: &FunctionBuilder<'_>, query: &Query) -> bool {
    match *query {
        Query::Pristine(number) => builder.is_pristine(block(number)),
        Query::Filled(number) => builder.is_filled(block(number)),
        Query::Sealed(number) => builder.is_sealed(block(number)),
        Query::Reached(number) => builder.has_any_predecessors(block(number)),
        Query::LaidOut(number) => is_laid_out(rt, builder, block(number)),
        Query::Entry(number) => builder.func().entry_block() == Some(block(number)),
        Query::Current(number) => builder.current_block() == Some(block(number)),
        Query::Leads(number) => builder.leads_to(last_inst(rt, builder), block(number)),
        Query::Unreachable => is_unreachable(rt, builder),
        Query::Failed => builder.has_failed(),
        Query::Params(number, count) => param_count(rt, builder, block(number)) == count,
        Query::Values(count) => builder.func().value_count() == count,
        Query::Place(place) => builder.srcloc() == SourceLoc::new(place),
        Query::Untouched(number) => builder.is_untouched(variable(number)),
        Query::Typed(number, ty) => builder.variable_type(variable(number)) == Some(ty),
        Query::Undeclared(number) => builder.variable_type(variable(number)).is_none(),
    }
}

/// The source place of the instruction that makes a value is this one.
pub fn is_at(rt: &impl Abort, builder: &FunctionBuilder<'_>, value: Value, place: u32) -> bool {
    asserts_value(rt, builder, value);
    match builder.func().value_def(value) {
        ValueDef::Result(inst, _) => builder.func().srcloc(inst) == SourceLoc::new(place),
        ValueDef::Param(..) => false,
    }
}

/// Whether a value has these labels: the source place of each, and its number.
pub fn has_labels(
    rt: &impl Abort,
    builder: &FunctionBuilder<'_>,
    value: Value,
    labels: &[(u32, u32)],
) -> bool {
    asserts_value(rt, builder, value);
    let kept = builder.func().value_labels(value);
    kept.len() == labels.len()
        && kept.iter().zip(labels.iter()).all(|(start, wanted)| {
            let (place, number) = *wanted;
            start.from == SourceLoc::new(place) && start.label.as_u32() == number
        })
}
