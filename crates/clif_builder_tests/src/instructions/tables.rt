//! Instructions that take a table of their own, by what `FunctionBuilder::ins` lends.
#![tactic(auto)]

ghost use Rattle.std.specs.Prelude.{◌≡◌, ◌<◌, length, IfOk, Some};
ghost use Rattle.clif_builder.specs.Entries.{table_held};
ghost use Rattle.clif_inst_builder.specs.Served.{exception_tables, jump_tables};
ghost use Rattle.clif_instructions.specs.ExceptionTables.{exception_shape};
ghost use Rattle.clif_builder_tests.specs.RowTables.{bare_table, catching_table, entries_passing};

use crate::asserted::{
    asserts_current, asserts_function, asserts_signature, asserts_target, asserts_value,
    create_exception_table,
};
use cranelift_frontend::{
    Block, BlockArg, BlockCall, BuildError, EntityRef, ExceptionTable, ExceptionTableData,
    ExceptionTableItem, FuncRef, FunctionBuilder, InstBuilder, JumpTable, JumpTableData, SigRef,
    Value,
};
use std::alloc::Global;
use std::process::Abort;

// A jump table with two entries, of which the first passes a value.
fn passing(alloc: Global, value: Value) -> Result<JumpTableData, BuildError>
    ensures { IfOk result (λ table. table ≡ entries_passing value) }
{
    let (first, second) = (Block::new(1), Block::new(2));
    let default = BlockCall::new(alloc, second, &[])?;
    let passing = BlockCall::new(alloc, first, &[BlockArg::Value(value)])?;
    let other = BlockCall::new(alloc, second, &[])?;
    let mut entries = Vec::new(alloc);
    entries.push(passing)?;
    entries.push(other)?;
    JumpTableData::new(default, entries)
}

// An exception table that catches each exception.
fn catching(alloc: Global, sig: SigRef) -> Result<ExceptionTableData, BuildError>
    ensures { IfOk result (λ table. exception_shape table ≡ catching_table sig) }
{
    let (returned, thrown) = (Block::new(1), Block::new(3));
    let normal = BlockCall::new(alloc, returned, &[BlockArg::TryCallRet(0)])?;
    let caught = BlockCall::new(alloc, thrown, &[BlockArg::TryCallExn(1)])?;
    let mut items = Vec::new(alloc);
    items.push(ExceptionTableItem::Default(caught))?;
    Ok(ExceptionTableData { sig, normal, items })
}

// One that catches nothing.
fn bare(alloc: Global, sig: SigRef) -> Result<ExceptionTableData, BuildError>
    ensures { IfOk result (λ table. exception_shape table ≡ bare_table sig) }
{
    let normal = BlockCall::new(alloc, Block::new(1), &[BlockArg::TryCallRet(0)])?;
    let items = Vec::new(alloc);
    Ok(ExceptionTableData { sig, normal, items })
}

// Makes a jump table.
fn create_jump_table(
    rt: &impl Abort,
    builder: &mut FunctionBuilder<'_>,
    table: JumpTableData,
) -> JumpTable
    ensures { table_held jump_tables builder.new result ≡ Some table }
{
    builder.create_jump_table(table).expect(rt, "a table")
}

// Branches by a table that passes a value.
fn branch(rt: &impl Abort, builder: &mut FunctionBuilder<'_>, table: JumpTable, x: Value, y: Value)
    requires { table_held jump_tables builder.old table ≡ Some (entries_passing y) }
{
    asserts_current(rt, builder);
    asserts_value(rt, builder, x);
    asserts_value(rt, builder, y);
    asserts_target(rt, builder, Block::new(1));
    asserts_target(rt, builder, Block::new(2));
    builder.ins().br_table(x, table).expect(rt, "a branch");
}

// Calls a function by a table that catches each exception.
fn call(
    rt: &impl Abort,
    builder: &mut FunctionBuilder<'_>,
    table: ExceptionTable,
    sig: SigRef,
    function: FuncRef,
    x: Value,
)
    requires { table_held exception_tables builder.old table ≡ Some (catching_table sig) }
{
    asserts_current(rt, builder);
    asserts_value(rt, builder, x);
    asserts_signature(rt, builder, sig);
    asserts_function(rt, builder, function);
    asserts_target(rt, builder, Block::new(1));
    asserts_target(rt, builder, Block::new(3));
    builder
        .ins()
        .try_call(function, &[x], table)
        .expect(rt, "a try call");
}

// Calls what is at the address `p` by a table that catches nothing.
fn call_indirect(
    rt: &impl Abort,
    builder: &mut FunctionBuilder<'_>,
    table: ExceptionTable,
    sig: SigRef,
    p: Value,
    x: Value,
)
    requires { table_held exception_tables builder.old table ≡ Some (bare_table sig) }
{
    asserts_current(rt, builder);
    asserts_value(rt, builder, p);
    asserts_value(rt, builder, x);
    asserts_signature(rt, builder, sig);
    asserts_target(rt, builder, Block::new(1));
    builder
        .ins()
        .try_call_indirect(p, &[x], table)
        .expect(rt, "a try call");
}

/// Branches by a table with two entries.
pub fn by_jump_table(
    rt: &impl Abort,
    alloc: Global,
    builder: &mut FunctionBuilder<'_>,
    x: Value,
    y: Value,
) {
    let data = passing(alloc, y).expect(rt, "edges");
    let table = create_jump_table(rt, builder, data);
    branch(rt, builder, table, x, y);
}

/// Calls the function with `x`, and goes on in one of two blocks.
pub fn by_function(
    rt: &impl Abort,
    alloc: Global,
    builder: &mut FunctionBuilder<'_>,
    sig: SigRef,
    function: FuncRef,
    x: Value,
) {
    let data = catching(alloc, sig).expect(rt, "edges");
    let table = create_exception_table(rt, builder, data);
    call(rt, builder, table, sig, function, x);
}

/// Calls what is at the address `p` with `x`, and catches nothing.
pub fn by_address(
    rt: &impl Abort,
    alloc: Global,
    builder: &mut FunctionBuilder<'_>,
    sig: SigRef,
    p: Value,
    x: Value,
) {
    let data = bare(alloc, sig).expect(rt, "an edge");
    let table = create_exception_table(rt, builder, data);
    call_indirect(rt, builder, table, sig, p, x);
}
