//! The instructions of a script, each made on a builder by its plan, if its condition holds.
ghost use Rattle.std.specs.Prelude.{◌<◌, ◌-◌, length, slice_index, EachIndex, All};
ghost use Rattle.clif_ir.specs.Consistent.{EntryExists, ValueExists};
ghost use Rattle.clif_instructions.specs.Instruction.{contexts, destinations, entries_of, operands};
ghost use Rattle.clif_builder.specs.Builder.{CanLead, HasCurrent};
ghost use Rattle.clif_builder.specs.Built.{Builds};
ghost use Rattle.clif_replay.specs.Makes.{MakesPlan};
ghost use Rattle.clif_replay.specs.Ready.{IsSound};

use clif_builder::{FunctionBuilder, InstBuilderBase};
use clif_calls::{Lender, Plan};
use clif_ir::InstructionData;
use clif_resolution::{Answer, CallError, plan_found};
use clif_types::{BuildError, Inst, Type};

// An instruction of this plan, in a current unfilled block.
pub(crate) fn make_instruction(
    builder: &mut FunctionBuilder<'_>,
    answers: &[Answer],
    lender: Lender,
    plan: &Plan<'_>,
) -> Result<Answer, CallError>
    requires { IsSound builder.old answers.now }
    ensures { MakesPlan plan.now builder.old builder.new answers.now result }
{
    let planned = plan_found(builder, answers, plan)?;
    let inst = append(builder, lender, planned.shape, planned.ty)?;
    Ok(Answer::Inst(inst))
}

// The one call that makes an instruction.
pub(crate) fn append(
    builder: &mut FunctionBuilder<'_>,
    lender: Lender,
    shape: InstructionData,
    ty: Type,
) -> Result<Inst, BuildError>
    requires current { HasCurrent builder.old }
    requires operands_exist { EachIndex (operands shape) (λ k. slice_index
        (operands shape) k < length builder.old.func.now.values) }
    requires contexts_exist { All (ValueExists builder.old.func.now) (contexts shape) }
    requires edges { All (CanLead builder.old) (destinations shape) }
    requires entries_exist { All (EntryExists builder.old.func.now.tables) (entries_of shape) }
    ensures { Builds builder.old builder.new shape ty result }
{
    match lender {
        Lender::Ins => builder.ins().build(shape, ty),
        Lender::Cursor => builder.cursor().build(shape, ty),
    }
}
