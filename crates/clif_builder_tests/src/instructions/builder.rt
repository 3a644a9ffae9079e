//! The rows by `FunctionBuilder`.
#![tactic(auto)]

use crate::instructions::fixture::{Given, function, is_row};
use crate::instructions::formats::has_format;
use crate::instructions::ins::{branches, makes, makes_at_cursor, makes_format, prepared};
use crate::instructions::rows::{Row, branch_rows, rows, table_rows};
use crate::instructions::tables::{by_address, by_function, by_jump_table};
use cranelift_frontend::{FunctionBuilder, FunctionBuilderContext, Opcode};
use std::alloc::Global;
use std::process::Abort;
use std::test::Fail;

/// By what the instruction of a row is made.
#[derive(Clone, Copy)]
pub enum Way {
    /// Its method, of what `ins()` lends.
    Method,
    /// Its method, of what the builder's cursor lends.
    AtCursor,
    /// The method for its format.
    Format,
}

// Makes the instruction of a row. The methods with edges are those of what `ins()` lends.
fn made(
    rt: &impl Abort,
    alloc: Global,
    builder: &mut FunctionBuilder<'_>,
    way: Way,
    opcode: Opcode,
    given: &Given,
) {
    match opcode {
        Opcode::Jump | Opcode::Brif => branches(rt, builder, opcode, given),
        Opcode::BrTable => by_jump_table(rt, alloc, builder, given.x, given.y),
        Opcode::TryCall => by_function(rt, alloc, builder, given.sig, given.function, given.x),
        Opcode::TryCallIndirect => by_address(rt, alloc, builder, given.sig, given.p, given.x),
        _ => match way {
            Way::Method => makes(rt, builder, opcode, given),
            Way::AtCursor => makes_at_cursor(rt, builder, opcode, given),
            Way::Format => makes_format(rt, builder, opcode, given),
        },
    }
}

fn in_builder(
    rt: &impl Abort,
    alloc: Global,
    builder: &mut FunctionBuilder<'_>,
    way: Way,
    row: &Row,
) -> Result<(), Fail> {
    let given = prepared(rt, alloc, builder)?;
    made(rt, alloc, builder, way, row.0, &given);
    is_row(rt, alloc, builder.func(), row)
}

fn by_builder(rt: &impl Abort, alloc: Global, way: Way, row: &Row) -> Result<(), Fail> {
    let mut func = function(alloc)?;
    let mut ctx = FunctionBuilderContext::new(alloc);
    let mut builder = FunctionBuilder::new(&mut func, &mut ctx);
    in_builder(rt, alloc, &mut builder, way, row)
}

/// Each method of `ins()` for an instruction without edges.
#[test]
fn methods_of_ins(rt: HostRuntime) -> Result<(), Fail> {
    for row in rows() {
        by_builder(&rt, rt.alloc(), Way::Method, row)?;
    }
    Ok(())
}

/// The same by the builder's cursor.
#[test]
fn methods_of_cursor(rt: HostRuntime) -> Result<(), Fail> {
    for row in rows() {
        by_builder(&rt, rt.alloc(), Way::AtCursor, row)?;
    }
    Ok(())
}

/// Each method of `ins()` for a format, by the rows of its instructions, which are 26.
#[test]
fn methods_for_formats(rt: HostRuntime) -> Result<(), Fail> {
    let mut made: usize = 0;
    for row in rows() {
        if has_format(row.0) {
            by_builder(&rt, rt.alloc(), Way::Format, row)?;
            made = made.saturating_add(1);
        }
    }
    assert!(rt; made == 26);
    Ok(())
}

/// The methods of `ins()` for a jump and a branch.
#[test]
fn branches_of_ins(rt: HostRuntime) -> Result<(), Fail> {
    for row in branch_rows() {
        by_builder(&rt, rt.alloc(), Way::Method, row)?;
    }
    Ok(())
}

/// The methods of `ins()` for instructions with a table, each with one that was made for it.
#[test]
fn tables_of_ins(rt: HostRuntime) -> Result<(), Fail> {
    for row in table_rows() {
        by_builder(&rt, rt.alloc(), Way::Method, row)?;
    }
    Ok(())
}
