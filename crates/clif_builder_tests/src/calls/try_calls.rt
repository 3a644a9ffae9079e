//! Try calls, made by their parts.
//!
//! One has a tag, a default and a context. It goes on in block2 with what it returns. An exception with the tag 1 goes to
//! block3 with its first part, and any other one to block4.
//!
//! The other one has a default alone. It goes on in block1 with a value and what it returns. An exception goes to block2
//! with values.
#![tactic(auto)]

ghost use Rattle.std.specs.Prelude.{◌≡◌, ◌<◌, ◌∷◌, [], length, IfOk, Some};
ghost use Rattle.clif_builder.specs.Entries.{table_held};
ghost use Rattle.clif_inst_builder.specs.Served.{exception_tables};
ghost use Rattle.clif_instructions.specs.ExceptionTables.{exception_shape};
ghost use Rattle.clif_instructions.specs.declared.exception_table.ExceptionTableItem.TheVariants as item;
ghost use Rattle.clif_builder_tests.specs.TryTables.{passing_table, tagged_table};

use crate::asserted::{
    asserts_current, asserts_edge, asserts_target, asserts_value, create_exception_table,
};
use crate::calls::entries::{first_function, first_signature};
use cranelift_frontend::{
    Block, BlockArg, BlockCall, BuildError, EntityRef, ExceptionTable, ExceptionTableData,
    ExceptionTableItem, FunctionBuilder, InstBuilder, SigRef, Value,
};
use std::alloc::Global;
use std::process::Abort;

// The items: where each exception goes, and the context.
fn items(
    alloc: Global,
    tagged: BlockCall,
    other: BlockCall,
    context: Value,
) -> Result<Vec<ExceptionTableItem>, BuildError>
    ensures { IfOk result (λ items.
        items.items ≡ item.Tag 1 tagged ∷ item.Default other ∷ item.Context context ∷ []) }
{
    let mut items = Vec::new(alloc);
    items.push(ExceptionTableItem::Tag(1, tagged))?;
    items.push(ExceptionTableItem::Default(other))?;
    items.push(ExceptionTableItem::Context(context))?;
    Ok(items)
}

// The table as it is given.
fn table(alloc: Global, sig: SigRef, context: Value) -> Result<ExceptionTableData, BuildError>
    ensures { IfOk result (λ table. exception_shape table ≡ tagged_table sig context) }
{
    let (returned, thrown, rest) = (Block::new(2), Block::new(3), Block::new(4));
    let normal = BlockCall::new(alloc, returned, &[BlockArg::TryCallRet(0)])?;
    let tagged = BlockCall::new(alloc, thrown, &[BlockArg::TryCallExn(0)])?;
    let other = BlockCall::new(alloc, rest, &[])?;
    let items = items(alloc, tagged, other, context)?;
    Ok(ExceptionTableData { sig, normal, items })
}

// Calls the first function with `x`, by a table.
fn call(
    rt: &impl Abort,
    builder: &mut FunctionBuilder<'_>,
    table: ExceptionTable,
    sig: SigRef,
    x: Value,
    context: Value,
)
    requires exists { sig < length builder.old.func.now.tables.signatures }
    requires held { table_held exception_tables builder.old table ≡ Some (tagged_table sig context) }
{
    asserts_current(rt, builder);
    asserts_value(rt, builder, x);
    asserts_value(rt, builder, context);
    asserts_target(rt, builder, Block::new(2));
    asserts_target(rt, builder, Block::new(3));
    asserts_target(rt, builder, Block::new(4));
    let function = first_function(rt, builder);
    builder
        .ins()
        .try_call(function, &[x], table)
        .expect(rt, "a try call");
}

/// Calls the first function with `x` and a context.
pub fn try_call(
    rt: &impl Abort,
    alloc: Global,
    builder: &mut FunctionBuilder<'_>,
    x: Value,
    context: Value,
) {
    let sig = first_signature(rt, builder);
    let data = table(alloc, sig, context).expect(rt, "a table");
    let table = create_exception_table(rt, builder, data);
    let sig = first_signature(rt, builder);
    call(rt, builder, table, sig, x, context);
}

// The table of the other one as it is given.
fn passing(
    alloc: Global,
    sig: SigRef,
    x: Value,
    thrown: &[BlockArg],
) -> Result<ExceptionTableData, BuildError>
    ensures { IfOk result (λ table. exception_shape table ≡ passing_table sig x thrown.now) }
{
    let passed = [BlockArg::Value(x), BlockArg::TryCallRet(0)];
    let normal = BlockCall::new(alloc, Block::new(1), &passed)?;
    let other = BlockCall::new(alloc, Block::new(2), thrown)?;
    let mut items = Vec::new(alloc);
    items.push(ExceptionTableItem::Default(other))?;
    Ok(ExceptionTableData { sig, normal, items })
}

// Calls the first function with `x`, by such a table.
fn call_passing(
    rt: &impl Abort,
    builder: &mut FunctionBuilder<'_>,
    table: ExceptionTable,
    sig: SigRef,
    x: Value,
    thrown: &[BlockArg],
)
    requires exists { sig < length builder.old.func.now.tables.signatures }
    requires held { table_held exception_tables builder.old table
        ≡ Some (passing_table sig x thrown.now) }
{
    asserts_current(rt, builder);
    asserts_value(rt, builder, x);
    asserts_target(rt, builder, Block::new(1));
    asserts_edge(rt, builder, Block::new(2), thrown);
    let function = first_function(rt, builder);
    builder
        .ins()
        .try_call(function, &[x], table)
        .expect(rt, "a try call");
}

/// Calls the first function with `x`, which is passed on when it returns. When it throws, the values of `thrown` are passed.
pub fn try_passing(
    rt: &impl Abort,
    alloc: Global,
    builder: &mut FunctionBuilder<'_>,
    x: Value,
    thrown: &[BlockArg],
) {
    let sig = first_signature(rt, builder);
    let data = passing(alloc, sig, x, thrown).expect(rt, "a table");
    let table = create_exception_table(rt, builder, data);
    let sig = first_signature(rt, builder);
    call_passing(rt, builder, table, sig, x, thrown);
}
