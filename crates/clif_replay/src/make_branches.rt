//! The call of a script that changes where a branch leads, made on a builder if its condition holds.
ghost use Rattle.std.specs.Prelude.{◌≡◌};
ghost use Rattle.clif_instructions.specs.Members.{stands_in};
ghost use Rattle.clif_ssa.specs.Ssa.{predecessors_of};
ghost use Rattle.clif_replay.specs.Makes.{MakesCall};
ghost use Rattle.clif_replay.specs.Ready.{IsSound, can_change};

use clif_builder::FunctionBuilder;
use clif_builder::laws::leads_are_read_by_number;
use clif_calls::{Call, Name};
use clif_resolution::{Answer, CallError, Condition, block_named, inst_named, may_seal};
use clif_types::{Block, Inst};

// `change_jump_destination(branch, from, to)`, of an instruction that leads to the first block, where both are unsealed.
pub(crate) fn change_jump_destination(
    builder: &mut FunctionBuilder<'_>,
    answers: &[Answer],
    branch: Name,
    from: Name,
    to: Name,
) -> Result<Answer, CallError>
    requires { IsSound builder.old answers.now }
    ensures { MakesCall (Call.ChangeJumpDestination branch from to)
        builder.old builder.new answers.now result }
{
    leads_are_read_by_number();
    let Some(inst) = inst_named(answers, branch) else {
        return Err(CallError::Misuse(Condition::NoInst(branch)));
    };
    let Some(source) = block_named(answers, from) else {
        return Err(CallError::Misuse(Condition::NoBlock(from)));
    };
    let Some(target) = block_named(answers, to) else {
        return Err(CallError::Misuse(Condition::NoBlock(to)));
    };
    if !may_change(builder, inst, source, target) {
        return Err(CallError::Misuse(change_fault(builder, inst, source, target)));
    }
    builder.change_jump_destination(inst, source, target)?;
    Ok(Answer::Nothing)
}

// Whether a branch leads to a block.
fn leads_to(builder: &FunctionBuilder<'_>, inst: Inst, block: Block) -> bool
    ensures { result ≡ stands_in inst (predecessors_of builder.now.ctx.now.parts.ssa block) }
{
    builder.leads_to(inst, block)
}

// Whether it does, and may lead to another one in its place: both are unsealed.
fn may_change(builder: &FunctionBuilder<'_>, inst: Inst, from: Block, to: Block) -> bool
    ensures { result ≡ can_change builder.now inst from to }
{
    leads_to(builder, inst, from) && may_seal(builder, from) && may_seal(builder, to)
}

// Why it doesn't, or may not: it leads elsewhere, or one of the blocks is sealed.
fn change_fault(builder: &FunctionBuilder<'_>, inst: Inst, from: Block, to: Block) -> Condition {
    if !leads_to(builder, inst, from) {
        Condition::LeadsElsewhere(inst, from)
    } else if may_seal(builder, from) {
        Condition::Sealed(to)
    } else {
        Condition::Sealed(from)
    }
}
