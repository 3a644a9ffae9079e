//! The calls of a script that make parameters, each made on a builder if its condition holds.
ghost use Rattle.std.specs.Prelude.{◌≡◌, ◌<◌, ◌≤◌, length};
ghost use Rattle.clif_ir.specs.Body.{block_at};
ghost use Rattle.clif_ssa.specs.Ssa.{predecessors_of};
ghost use Rattle.clif_builder.specs.Builder.{is_nothing};
ghost use Rattle.clif_replay.specs.Makes.{MakesCall};
ghost use Rattle.clif_replay.specs.Ready.{IsSound, can_append, can_append_function_params, last_params};

use crate::make::one_value;
use clif_builder::FunctionBuilder;
use clif_calls::{Call, Name};
use clif_resolution::{Answer, CallError, Condition, block_named};
use clif_types::{Block, Type};

// `append_block_param(block, ty)`, where nothing was made in the block.
pub(crate) fn append_block_param(
    builder: &mut FunctionBuilder<'_>,
    answers: &[Answer],
    name: Name,
    ty: Type,
) -> Result<Answer, CallError>
    requires { IsSound builder.old answers.now }
    ensures { MakesCall (Call.AppendBlockParam name ty) builder.old builder.new answers.now result }
{
    let Some(block) = block_named(answers, name) else {
        return Err(CallError::Misuse(Condition::NoBlock(name)));
    };
    if !may_append(builder, block) {
        return Err(CallError::Misuse(Condition::Begun(block)));
    }
    let value = builder.append_block_param(block, ty)?;
    Ok(one_value(value))
}

// `append_block_params_for_function_params(block)`, where nothing was made in the block and no branch leads to it.
pub(crate) fn append_block_params_for_function_params(
    builder: &mut FunctionBuilder<'_>,
    answers: &[Answer],
    name: Name,
) -> Result<Answer, CallError>
    requires { IsSound builder.old answers.now }
    ensures { MakesCall (Call.AppendBlockParamsForFunctionParams name)
        builder.old builder.new answers.now result }
{
    let Some(block) = block_named(answers, name) else {
        return Err(CallError::Misuse(Condition::NoBlock(name)));
    };
    if !may_append_function_params(builder, block) {
        return Err(CallError::Misuse(append_fault(builder, block)));
    }
    let count = builder.func().signature().params.len();
    builder.append_block_params_for_function_params(block)?;
    Ok(last_params(builder, block, count))
}

// `append_block_params_for_function_returns(block)`, where nothing was made in the block.
pub(crate) fn append_block_params_for_function_returns(
    builder: &mut FunctionBuilder<'_>,
    answers: &[Answer],
    name: Name,
) -> Result<Answer, CallError>
    requires { IsSound builder.old answers.now }
    ensures { MakesCall (Call.AppendBlockParamsForFunctionReturns name)
        builder.old builder.new answers.now result }
{
    let Some(block) = block_named(answers, name) else {
        return Err(CallError::Misuse(Condition::NoBlock(name)));
    };
    if !may_append(builder, block) {
        return Err(CallError::Misuse(Condition::Begun(block)));
    }
    let count = builder.func().signature().returns.len();
    builder.append_block_params_for_function_returns(block)?;
    Ok(last_params(builder, block, count))
}

// Whether nothing was made in a block.
fn may_append(builder: &FunctionBuilder<'_>, block: Block) -> bool
    ensures { result ≡ can_append builder.now block }
{
    builder.is_pristine(block)
}

// Whether nothing was made in a block, and no branch leads to it.
fn may_append_function_params(builder: &FunctionBuilder<'_>, block: Block) -> bool
    ensures { result ≡ can_append_function_params builder.now block }
{
    may_append(builder, block) && is_alone(builder, block)
}

// Why a block can't get the function's parameters: something was made in it, or a branch leads to it.
fn append_fault(builder: &FunctionBuilder<'_>, block: Block) -> Condition {
    if may_append(builder, block) {
        Condition::Reached(block)
    } else {
        Condition::Begun(block)
    }
}

// Whether no branch leads to a block.
fn is_alone(builder: &FunctionBuilder<'_>, block: Block) -> bool
    ensures { result ≡ is_nothing (predecessors_of builder.now.ctx.now.parts.ssa block) }
{
    !builder.has_any_predecessors(block)
}

// The last values of a block's parameters, as many as `count` says, whose numbers follow one another.
fn last_params(builder: &FunctionBuilder<'_>, block: Block, count: usize) -> Answer
    requires exists { block < length builder.now.func.now.blocks }
    requires count { count ≤ length (block_at builder.now.func.now block).params }
    ensures { result ≡ last_params (block_at builder.now.func.now block).params count }
{
    let params = builder.block_params(block);
    match params.get(params.len() - count) {
        Some(first) => Answer::Values {
            first: *first,
            count,
        },
        None => Answer::Nothing,
    }
}
