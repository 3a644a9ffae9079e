//! The outside calls of a script, each made on a builder if its condition holds.
ghost use Rattle.clif_replay.specs.Makes.{MakesOutside};
ghost use Rattle.clif_replay.specs.Ready.{IsSound};

use crate::make_instructions::append;
use clif_builder::FunctionBuilder;
use clif_builder::laws::requests_ask_for_their_shapes;
use clif_calls::{Lender, OutsideCall};
use clif_resolution::{Answer, CallError, outside_call_found};
use clif_types::Type;

// An outside call of what was imported, in a current unfilled block.
pub(crate) fn make_outside_call(
    builder: &mut FunctionBuilder<'_>,
    answers: &[Answer],
    lender: Lender,
    called: &OutsideCall,
) -> Result<Answer, CallError>
    requires { IsSound builder.old answers.now }
    ensures { MakesOutside called.now builder.old builder.new answers.now result }
{
    requests_ask_for_their_shapes();
    let shape = outside_call_found(builder, answers, called)?;
    let inst = append(builder, lender, shape, Type::Invalid)?;
    Ok(Answer::Inst(inst))
}
