//! Exception tables, and the calls that they serve, each made on a builder if its condition holds.
ghost use Rattle.std.specs.Prelude.{◌<◌};
ghost use Rattle.clif_builder.specs.Builder.{HasCurrent};
ghost use Rattle.clif_builder.specs.Entries.{MayServeTry, TakesExceptionTable};
ghost use Rattle.clif_replay.specs.Makes.{MakesCall, MakesExceptions};
ghost use Rattle.clif_replay.specs.Ready.{IsSound};

use crate::make_instructions::append;
use clif_builder::laws::{requests_ask_for_their_shapes, table_calls_add_nothing};
use clif_builder::{FunctionBuilder, InstBuilderBase};
use clif_calls::{Call, Lender, Name, TableItem, ThrowingCall};
use clif_ir::{ExceptionTableData, ExceptionTargets};
use clif_resolution::{
    Answer, CallError, Condition, Entry, edge_copied, has_signature, items_found, operands_found,
    signature_named, with_table,
};
use clif_types::{BuildError, ExceptionTable, Type};

// `create_exception_table(ExceptionTableData { sig, normal, items })`, of edges that were answered and a signature that was imported.
pub(crate) fn create_exception_table(
    builder: &mut FunctionBuilder<'_>,
    answers: &[Answer],
    signature: Name,
    normal: Name,
    items: &[TableItem],
) -> Result<Answer, CallError>
    requires { IsSound builder.old answers.now }
    ensures { MakesExceptions signature normal items.now builder.old builder.new answers.now
        result }
{
    table_calls_add_nothing();
    let normal = edge_copied(builder.func().allocator(), answers, normal)?;
    let items = items_found(builder.func(), answers, items)?;
    let Some(sig) = signature_named(answers, signature) else {
        return Err(CallError::Misuse(Condition::NoSignature(signature)));
    };
    if !has_signature(builder, sig) {
        return Err(CallError::Misuse(Condition::NoSignature(signature)));
    }
    let made = builder.create_exception_table(ExceptionTableData { sig, normal, items })?;
    Ok(Answer::Entry(Entry::ExceptionTable(made)))
}

// A call along the edges of a table, in a current unfilled block, where the table serves nothing and no target of its edges
// is sealed.
pub(crate) fn make_throwing_call(
    builder: &mut FunctionBuilder<'_>,
    answers: &[Answer],
    called: &ThrowingCall,
) -> Result<Answer, CallError>
    requires { IsSound builder.old answers.now }
    ensures { MakesCall (Call.Throwing called.now) builder.old builder.new answers.now result }
{
    requests_ask_for_their_shapes();
    let tried = operands_found(builder, answers, called)?;
    let held = take(builder, tried.table)?;
    let shape = with_table(tried.function, tried.args, held);
    let inst = append(builder, Lender::Ins, shape, Type::Invalid)?;
    Ok(Answer::Inst(inst))
}

// Takes what a table holds, which serves from now on.
fn take(
    builder: &mut FunctionBuilder<'_>,
    table: ExceptionTable,
) -> Result<ExceptionTargets, BuildError>
    requires current { HasCurrent builder.old }
    requires serves { MayServeTry builder.old table }
    ensures { TakesExceptionTable builder.old builder.new table result }
{
    builder.ins().take_exception_table(table)
}
