//! The texts of operands, edges, and places in stack slots.
use clif_instructions::block_call::BlockCall;
use clif_instructions::immediates::{FloatBits, Offset32};
use clif_instructions::instructions::InstructionData;
use clif_instructions::jump_table::JumpTableData;
use clif_opcodes::FloatConstOpcode;
use clif_types::{StackSlot, Value};
use std::fmt;

/// Values, joined by `, `.
///
/// # Errors
///
/// `fmt::Error`, where the writer refuses the text.
pub fn write_values<W: fmt::Write>(f: &mut fmt::Formatter<W>, values: &[Value]) -> fmt::Result {
    for (place, value) in values.iter().enumerate() {
        if place > 0 {
            f.write_str(", ")?;
        }
        write_value(f, *value)?;
    }
    Ok(())
}

// A value, as it prints itself. Most of a text is values, and by pieces of a format one takes half as much time again.
#[inline(always)]
fn write_value<W: fmt::Write>(f: &mut fmt::Formatter<W>, value: Value) -> fmt::Result {
    let number = value.as_u32();
    f.write_str("v")?;
    write!(f, "{number}")
}

/// The operands and then the edges, after a space and joined by `, `; nothing where there are none.
///
/// # Errors
///
/// `fmt::Error`, where the writer refuses the text.
pub fn write_operands<W: fmt::Write>(
    f: &mut fmt::Formatter<W>,
    shape: &InstructionData,
) -> fmt::Result {
    let operands = shape.arguments();
    let edges = shape.branch_destination();
    if operands.is_empty() && edges.is_empty() {
        return Ok(());
    }
    f.write_str(" ")?;
    write_values(f, operands)?;
    if edges.is_empty() {
        return Ok(());
    }
    if !operands.is_empty() {
        f.write_str(", ")?;
    }
    write_edges(f, edges)
}

/// Edges, joined by `, `.
///
/// # Errors
///
/// `fmt::Error`, where the writer refuses the text.
pub fn write_edges<W: fmt::Write>(f: &mut fmt::Formatter<W>, edges: &[BlockCall]) -> fmt::Result {
    for (place, edge) in edges.iter().enumerate() {
        if place > 0 {
            f.write_str(", ")?;
        }
        write_edge(f, edge)?;
    }
    Ok(())
}

/// The target of an edge, and in parentheses what it passes; without these where it passes nothing.
///
/// # Errors
///
/// `fmt::Error`, where the writer refuses the text.
pub fn write_edge<W: fmt::Write>(f: &mut fmt::Formatter<W>, edge: &BlockCall) -> fmt::Result {
    let block = edge.block;
    write!(f, "{block}")?;
    if edge.args.as_slice().is_empty() {
        return Ok(());
    }
    let mut separator = "(";
    for arg in edge.args.as_slice().iter() {
        let arg = *arg;
        write!(f, "{separator}{arg}")?;
        separator = ", ";
    }
    f.write_str(")")
}

/// The index of a `br_table`, its default edge, and in brackets its entries.
///
/// # Errors
///
/// `fmt::Error`, where the writer refuses the text.
pub fn write_table<W: fmt::Write>(
    f: &mut fmt::Formatter<W>,
    index: Value,
    table: &JumpTableData,
) -> fmt::Result {
    write!(f, " {index}, ")?;
    write_edge(f, table.default_block())?;
    f.write_str(", [")?;
    write_edges(f, table.as_slice())?;
    f.write_str("]")
}

/// A place from a stack slot on.
///
/// # Errors
///
/// `fmt::Error`, where the writer refuses the text.
pub fn write_place<W: fmt::Write>(
    f: &mut fmt::Formatter<W>,
    separator: &str,
    slot: StackSlot,
    offset: i32,
) -> fmt::Result {
    write!(f, "{separator}{slot}")?;
    write_offset(f, offset)
}

pub fn write_offset<W: fmt::Write>(f: &mut fmt::Formatter<W>, offset: i32) -> fmt::Result {
    let offset = Offset32(offset);
    write!(f, "{offset}")
}

pub fn float_bits(opcode: FloatConstOpcode, bits: u64) -> FloatBits {
    FloatBits { opcode, bits }
}
