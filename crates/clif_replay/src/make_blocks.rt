//! The calls of a script that make, mark and place blocks, each made on a builder if its condition holds.
ghost use Rattle.std.specs.Prelude.{◌≡◌, ◌<◌, length};
ghost use Rattle.clif_builder.specs.Builder.{is_free};
ghost use Rattle.clif_replay.specs.Makes.{MakesCall};
ghost use Rattle.clif_replay.specs.Ready.{IsSound, can_switch, can_insert};

use clif_builder::FunctionBuilder;
use clif_calls::{Call, Name};
use clif_resolution::{
    Answer, CallError, Condition, block_named, current_fault, has_current, may_seal,
};
use clif_types::Block;

// `create_block()`.
pub(crate) fn create_block(
    builder: &mut FunctionBuilder<'_>,
    answers: &[Answer],
) -> Result<Answer, CallError>
    requires { IsSound builder.old answers.now }
    ensures { MakesCall Call.CreateBlock builder.old builder.new answers.now result }
{
    let block = builder.create_block()?;
    Ok(Answer::Block(block))
}

// `switch_to_block(block)`, where the current block may be left and the block isn't filled.
pub(crate) fn switch_to_block(
    builder: &mut FunctionBuilder<'_>,
    answers: &[Answer],
    name: Name,
) -> Result<Answer, CallError>
    requires { IsSound builder.old answers.now }
    ensures { MakesCall (Call.SwitchToBlock name) builder.old builder.new answers.now result }
{
    let Some(block) = block_named(answers, name) else {
        return Err(CallError::Misuse(Condition::NoBlock(name)));
    };
    if !may_switch(builder, block) {
        return Err(CallError::Misuse(switch_fault(builder, block)));
    }
    builder.switch_to_block(block);
    Ok(Answer::Nothing)
}

// Whether a block isn't filled, and the current block may be left.
fn may_switch(builder: &FunctionBuilder<'_>, block: Block) -> bool
    ensures { result ≡ can_switch builder.now block }
{
    !builder.is_filled(block) && may_leave(builder)
}

// Why a block can't be switched to: it is filled, or the current block can't be left.
fn switch_fault(builder: &FunctionBuilder<'_>, block: Block) -> Condition {
    match builder.current_block() {
        Some(current) if !builder.is_filled(block) => Condition::Unfilled(current),
        _ => Condition::Filled(block),
    }
}

// Whether the current block is absent, pristine, filled or unreachable.
fn may_leave(builder: &FunctionBuilder<'_>) -> bool
    ensures { result ≡ is_free builder.now }
{
    match builder.current_block() {
        None => true,
        Some(block) => {
            builder.is_pristine(block) || builder.is_filled(block) || builder.is_unreachable()
        }
    }
}

// `seal_block(block)`, where it isn't sealed.
pub(crate) fn seal_block(
    builder: &mut FunctionBuilder<'_>,
    answers: &[Answer],
    name: Name,
) -> Result<Answer, CallError>
    requires { IsSound builder.old answers.now }
    ensures { MakesCall (Call.SealBlock name) builder.old builder.new answers.now result }
{
    let Some(block) = block_named(answers, name) else {
        return Err(CallError::Misuse(Condition::NoBlock(name)));
    };
    if !may_seal(builder, block) {
        return Err(CallError::Misuse(Condition::Sealed(block)));
    }
    builder.seal_block(block)?;
    Ok(Answer::Nothing)
}

// `seal_all_blocks()`.
pub(crate) fn seal_all_blocks(
    builder: &mut FunctionBuilder<'_>,
    answers: &[Answer],
) -> Result<Answer, CallError>
    requires { IsSound builder.old answers.now }
    ensures { MakesCall Call.SealAllBlocks builder.old builder.new answers.now result }
{
    builder.seal_all_blocks()?;
    Ok(Answer::Nothing)
}

// Whether a block isn't in the layout, and the other one is.
fn may_insert(builder: &FunctionBuilder<'_>, block: Block, after: Block) -> bool
    requires block { block < length builder.now.func.now.blocks }
    requires after { after < length builder.now.func.now.blocks }
    ensures { result ≡ can_insert builder.now block after }
{
    let func = builder.func();
    !func.is_block_inserted(block) && func.is_block_inserted(after)
}

// Why a block can't be put behind another one: it is in the layout, or the other one isn't.
fn insert_fault(builder: &FunctionBuilder<'_>, block: Block, after: Block) -> Condition
    requires { block < length builder.now.func.now.blocks }
{
    if builder.func().is_block_inserted(block) {
        Condition::Placed(block)
    } else {
        Condition::Unplaced(after)
    }
}

// `insert_block_after(block, after)`, where the first block isn't in the layout and the second one is.
pub(crate) fn insert_block_after(
    builder: &mut FunctionBuilder<'_>,
    answers: &[Answer],
    name: Name,
    behind: Name,
) -> Result<Answer, CallError>
    requires { IsSound builder.old answers.now }
    ensures { MakesCall (Call.InsertBlockAfter name behind)
        builder.old builder.new answers.now result }
{
    let Some(block) = block_named(answers, name) else {
        return Err(CallError::Misuse(Condition::NoBlock(name)));
    };
    let Some(after) = block_named(answers, behind) else {
        return Err(CallError::Misuse(Condition::NoBlock(behind)));
    };
    if !may_insert(builder, block, after) {
        return Err(CallError::Misuse(insert_fault(builder, block, after)));
    }
    builder.insert_block_after(block, after)?;
    Ok(Answer::Nothing)
}

// `set_cold_block(block)`.
pub(crate) fn set_cold_block(
    builder: &mut FunctionBuilder<'_>,
    answers: &[Answer],
    name: Name,
) -> Result<Answer, CallError>
    requires { IsSound builder.old answers.now }
    ensures { MakesCall (Call.SetColdBlock name) builder.old builder.new answers.now result }
{
    let Some(block) = block_named(answers, name) else {
        return Err(CallError::Misuse(Condition::NoBlock(name)));
    };
    builder.set_cold_block(block);
    Ok(Answer::Nothing)
}

// `ensure_inserted_block()`, where there is a current block that isn't filled.
pub(crate) fn ensure_inserted_block(
    builder: &mut FunctionBuilder<'_>,
    answers: &[Answer],
) -> Result<Answer, CallError>
    requires { IsSound builder.old answers.now }
    ensures { MakesCall Call.EnsureInsertedBlock builder.old builder.new answers.now result }
{
    if !has_current(builder) {
        return Err(CallError::Misuse(current_fault(builder)));
    }
    builder.ensure_inserted_block()?;
    Ok(Answer::Nothing)
}
