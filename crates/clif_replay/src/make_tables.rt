//! Jump tables: their edges, the tables and the branches by them, each made on a builder if its condition holds.
ghost use Rattle.std.specs.Prelude.{◌<◌, length, Some, Err};
ghost use Rattle.clif_inst_builder.specs.Shapes.{TakesThenBuilds, branch_table};
ghost use Rattle.clif_builder.specs.Builder.{HasCurrent};
ghost use Rattle.clif_builder.specs.Built.{Builds};
ghost use Rattle.clif_builder.specs.Entries.{MayServe, TakesJumpTable};
ghost use Rattle.clif_replay.specs.Makes.{MakesCall, MakesTable};
ghost use Rattle.clif_resolution.specs.Conditions.{serves};
ghost use Rattle.clif_replay.specs.Ready.{IsSound};

use clif_builder::laws::{requests_ask_for_their_shapes, table_calls_add_nothing};
use clif_builder::{FunctionBuilder, InstBuilder};
use clif_calls::{Call, Name, TableEdge};
use clif_ir::JumpTableData;
use clif_resolution::{
    Answer, CallError, Condition, Entry, current_fault, edge_copied, edge_found, edges_copied,
    has_current, jump_table_named, may_serve, serving_fault, value_named,
};
use clif_types::{BuildError, Inst, JumpTable, Type, Value};

// `block_call(block, args)`, where the block and the arguments exist.
pub(crate) fn block_call(
    builder: &mut FunctionBuilder<'_>,
    answers: &[Answer],
    edge: &TableEdge,
) -> Result<Answer, CallError>
    requires { IsSound builder.old answers.now }
    ensures { MakesCall (Call.BlockCall edge.now) builder.old builder.new answers.now result }
{
    table_calls_add_nothing();
    let found = edge_found(builder, answers, edge)?;
    let made = builder.block_call(found.block, found.args.as_slice())?;
    Ok(Answer::Edge(made))
}

// `create_jump_table(JumpTableData::new(default, entries))`, of edges that were answered.
pub(crate) fn create_jump_table(
    builder: &mut FunctionBuilder<'_>,
    answers: &[Answer],
    default: Name,
    entries: &[Name],
) -> Result<Answer, CallError>
    requires { IsSound builder.old answers.now }
    ensures { MakesTable default entries.now builder.old builder.new answers.now result }
{
    table_calls_add_nothing();
    let alloc = builder.func().allocator();
    let default = edge_copied(alloc, answers, default)?;
    let entries = edges_copied(alloc, answers, entries)?;
    let table = JumpTableData::new(default, entries)?;
    let made = builder.create_jump_table(table)?;
    Ok(Answer::Entry(Entry::JumpTable(made)))
}

// `br_table(index, table)`, in a current unfilled block, where the table serves nothing and no target of its edges is sealed.
pub(crate) fn br_table(
    builder: &mut FunctionBuilder<'_>,
    answers: &[Answer],
    index: Name,
    name: Name,
) -> Result<Answer, CallError>
    requires { IsSound builder.old answers.now }
    ensures { MakesCall (Call.BrTable index name) builder.old builder.new answers.now result }
{
    requests_ask_for_their_shapes();
    if !has_current(builder) {
        return Err(CallError::Misuse(current_fault(builder)));
    }
    let Some(value) = value_named(builder.func(), answers, index) else {
        return Err(CallError::Misuse(Condition::NoValue(index)));
    };
    let Some(table) = jump_table_named(answers, name) else {
        return Err(CallError::Misuse(Condition::NoTable(name)));
    };
    if !may_serve(builder, table) {
        return Err(CallError::Misuse(serving_fault(builder, table)));
    }
    let inst = branch(builder, value, table)?;
    Ok(Answer::Inst(inst))
}

// The branch by a table.
fn branch(
    builder: &mut FunctionBuilder<'_>,
    index: Value,
    table: JumpTable,
) -> Result<Inst, BuildError>
    requires current { HasCurrent builder.old }
    requires index_exists { index < length builder.old.func.now.values }
    requires serves { MayServe builder.old table }
    ensures { TakesThenBuilds TakesJumpTable Builds builder.old builder.new (branch_table index)
        table Type.Invalid result }
{
    builder.ins().br_table(index, table)
}
