//! The edges of jump tables, and whether a table may serve a branch.
ghost use Rattle.std.specs.Prelude.{◌≡◌, ◌≢◌, ◌<◌, map, Some, is_some, IfOk, Err, false};
ghost use Rattle.std.specs.List.{list_all};
ghost use Rattle.clif_resolution.specs.Answers.{Finds, AnswersExist, edge_at};
ghost use Rattle.clif_resolution.specs.Conditions.{IsEdge, has_edge, serves};

use crate::answers::{Answer, CallError};
use crate::condition::Condition;
use crate::conditions::{are_open, sealed_target};
use crate::names::{block_named, edge_answered, passed_named};
use clif_builder::FunctionBuilder;
use clif_calls::{Name, TableEdge};
use clif_ir::BlockCall;
use clif_types::JumpTable;
use std::alloc::Global;

/// The edge that names lead to, whether its target is sealed or not.
///
/// # Errors
///
/// `Misuse`, where a name leads to no such answer or a condition doesn't hold; or memory is refused.
pub fn edge_found(
    builder: &FunctionBuilder<'_>,
    answers: &[Answer],
    edge: &TableEdge,
) -> Result<BlockCall, CallError>
    requires { AnswersExist builder.now.func.now answers.now }
    ensures { Finds (IsEdge builder.now answers.now edge.now)
        (has_edge builder.now answers.now edge.now) result }
{
    let Some(block) = block_named(answers, edge.block) else {
        return Err(CallError::Misuse(Condition::NoBlock(edge.block)));
    };
    let args = passed_named(builder.func(), answers, edge.args.as_slice())?;
    Ok(BlockCall { block, args })
}

/// A copy of the edge that a name leads to.
///
/// # Errors
///
/// `Misuse`, where a name leads to no such answer or a condition doesn't hold; or memory is refused.
pub fn edge_copied(alloc: Global, answers: &[Answer], name: Name) -> Result<BlockCall, CallError>
    ensures { Finds (λ made. edge_at answers.now name ≡ Some made)
        (is_some (edge_at answers.now name)) result }
{
    let Some(edge) = edge_answered(answers, name) else {
        return Err(CallError::Misuse(Condition::NoEdge(name)));
    };
    let made = BlockCall::new(alloc, edge.block, edge.args.as_slice())?;
    Ok(made)
}

/// Copies of the edges that names lead to.
///
/// # Errors
///
/// `Misuse`, where a name leads to no such answer or a condition doesn't hold; or memory is refused.
pub fn edges_copied(
    alloc: Global,
    answers: &[Answer],
    names: &[Name],
) -> Result<Vec<BlockCall>, CallError>
    ensures edges { IfOk result (λ made.
        map (edge_at answers.now) names.now ≡ map Some made.items) }
    ensures misuse { (why : Condition) → result ≡ Err (CallError.Misuse why)
        → list_all (λ name. is_some (edge_at answers.now name)) names.now ≡ false }
    ensures never_full { result ≢ Err CallError.Full }
    ensures never_refused { (why : Condition) → result ≢ Err (CallError.Refused why) }
{
    let mut edges = Vec::new(alloc);
    for name in names.iter() {
        let edge = edge_copied(alloc, answers, *name)?;
        edges.push(edge)?;
    }
    Ok(edges)
}

/// Whether a table serves nothing so far and may serve a branch: no target of its edges is sealed.
pub fn may_serve(builder: &FunctionBuilder<'_>, table: JumpTable) -> bool
    ensures { result ≡ serves builder.now table }
{
    match builder.func().tables().jump_table(table) {
        None => false,
        Some(edges) => are_open(builder, edges.all_branches()),
    }
}

/// Why a table may serve no branch: it serves one, or a target of its edges is sealed.
pub fn serving_fault(builder: &FunctionBuilder<'_>, table: JumpTable) -> Condition {
    let sealed = match builder.func().tables().jump_table(table) {
        None => None,
        Some(edges) => sealed_target(builder, edges.all_branches()),
    };
    sealed.unwrap_or(Condition::TableServed(table))
}
