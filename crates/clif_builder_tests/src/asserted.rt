//! What calls ask for, asserted.
#![tactic(auto)]

ghost use Rattle.std.specs.Prelude.{◌≡◌, ◌<◌, length, false, Some, All, IsTrue};
ghost use Rattle.clif_builder.specs.Builder.{CanLead, HasCurrent};
ghost use Rattle.clif_builder.specs.Entries.{table_held};
ghost use Rattle.clif_inst_builder.specs.Served.{exception_tables};
ghost use Rattle.clif_inst_builder.specs.Shapes.{edge_to};
ghost use Rattle.clif_instructions.specs.ExceptionTables.{exception_shape};
ghost use Rattle.clif_ir.specs.Consistent.{PassedExists, ValueExists};
ghost use Rattle.clif_records.specs.Tables.{is_yes};
ghost use Rattle.clif_ssa.specs.Ssa.{sealed_of};

use cranelift_frontend::{
    Block, BlockArg, EntityRef, ExceptionTable, ExceptionTableData, FuncRef, Function,
    FunctionBuilder, Inst, SigRef, Type, Value,
};
use std::process::Abort;

/// Asserts that a block exists.
pub fn asserts_block(rt: &impl Abort, builder: &FunctionBuilder<'_>, block: Block)
    ensures { block < length builder.now.func.now.blocks }
{
    assert!(rt; block.index() < builder.func().block_count());
}

/// Asserts that a block isn't sealed.
pub fn asserts_unsealed(rt: &impl Abort, builder: &FunctionBuilder<'_>, block: Block)
    ensures { is_yes (sealed_of builder.now.ctx.now.parts.ssa block) ≡ false }
{
    assert!(rt; !builder.is_sealed(block));
}

/// Asserts that a branch may lead to a block: it exists and isn't sealed.
pub fn asserts_target(rt: &impl Abort, builder: &FunctionBuilder<'_>, block: Block)
    ensures exists { block < length builder.now.func.now.blocks }
    ensures unsealed { is_yes (sealed_of builder.now.ctx.now.parts.ssa block) ≡ false }
{
    asserts_block(rt, builder, block);
    asserts_unsealed(rt, builder, block);
}

/// Asserts that there is a current block, which isn't filled.
pub fn asserts_current(rt: &impl Abort, builder: &FunctionBuilder<'_>)
    ensures { HasCurrent builder.now }
{
    let block = builder.current_block().expect(rt, "a current block");
    asserts_block(rt, builder, block);
    assert!(rt; !builder.is_filled(block));
}

/// Asserts that a value exists.
pub fn asserts_value(rt: &impl Abort, builder: &FunctionBuilder<'_>, value: Value)
    ensures { value < length builder.now.func.now.values }
{
    assert!(rt; value.index() < builder.func().value_count());
}

// Whether these values exist.
fn has_values(func: &Function, values: &[Value]) -> bool
    ensures { IsTrue result → All (ValueExists func.now) values.now }
{
    let count = func.value_count();
    values.iter().all(|value| value.index() < count)
}

/// Asserts that these values exist.
pub fn asserts_values(rt: &impl Abort, builder: &FunctionBuilder<'_>, values: &[Value])
    ensures { All (ValueExists builder.now.func.now) values.now }
{
    assert!(rt; has_values(builder.func(), values));
}

// Whether what an edge passes exists.
fn has_argument(func: &Function, arg: BlockArg) -> bool
    ensures { IsTrue result → PassedExists func.now arg }
{
    match arg {
        BlockArg::Value(value) => value.index() < func.value_count(),
        BlockArg::TryCallRet(_) | BlockArg::TryCallExn(_) => true,
    }
}

// Whether all that an edge passes exists.
fn has_arguments(func: &Function, args: &[BlockArg]) -> bool
    ensures { IsTrue result → All (PassedExists func.now) args.now }
{
    args.iter().all(|arg| has_argument(func, *arg))
}

/// Asserts that an edge may be made: its target exists and isn't sealed, and what it passes exists.
pub fn asserts_edge(rt: &impl Abort, builder: &FunctionBuilder<'_>, block: Block, args: &[BlockArg])
    ensures { CanLead builder.now (edge_to block args.now) }
{
    asserts_target(rt, builder, block);
    assert!(rt; has_arguments(builder.func(), args));
}

/// Asserts that a signature was imported.
pub fn asserts_signature(rt: &impl Abort, builder: &FunctionBuilder<'_>, signature: SigRef)
    ensures { signature < length builder.now.func.now.tables.signatures }
{
    assert!(rt; signature.index() < builder.func().tables().signature_count());
}

/// Asserts that a function was imported.
pub fn asserts_function(rt: &impl Abort, builder: &FunctionBuilder<'_>, function: FuncRef)
    ensures { function < length builder.now.func.now.tables.functions }
{
    assert!(rt; function.index() < builder.func().tables().function_count());
}

/// The instruction that was made last.
pub fn last_inst(rt: &impl Abort, builder: &FunctionBuilder<'_>) -> Inst
    ensures { result < length builder.now.func.now.insts }
{
    let count = builder.func().inst_count();
    assert!(rt; count > 0);
    Inst::new(count - 1)
}

/// A parameter of a block in which nothing was made.
pub fn param(rt: &impl Abort, builder: &mut FunctionBuilder<'_>, block: Block, ty: Type) -> Value {
    asserts_block(rt, builder, block);
    assert!(rt; builder.is_pristine(block));
    builder
        .append_block_param(block, ty)
        .expect(rt, "a parameter")
}

/// Makes an exception table.
pub fn create_exception_table(
    rt: &impl Abort,
    builder: &mut FunctionBuilder<'_>,
    table: ExceptionTableData,
) -> ExceptionTable
    ensures { table_held exception_tables builder.new result ≡ Some (exception_shape table) }
{
    asserts_signature(rt, builder, table.sig);
    builder.create_exception_table(table).expect(rt, "a table")
}
