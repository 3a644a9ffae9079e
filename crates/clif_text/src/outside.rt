//! Outside calls.
ghost use Rattle.std.specs.Prelude.{IfOk};
ghost use Rattle.clif_text.specs.Reading.{ReadsStraight};

use clif_arguments::args::Args;
use clif_calls::{OutsideCall, StraightInstruction};
use clif_words::error::{Fault, LineError};
use std::alloc::Global;

// The outside call of this name, with what follows it.
pub(crate) fn read_outside_call<'a>(
    alloc: Global,
    head: &'a str,
    args: &mut Args<'_, 'a>,
) -> Result<StraightInstruction, LineError<'a>>
    ensures { IfOk result (ReadsStraight args.old args.new head.now) }
{
    match head {
        "call" => Ok(StraightInstruction::Outside(OutsideCall::Call {
            function: args.function()?,
            args: args.last_values(alloc)?,
        })),
        "call_indirect" => Ok(StraightInstruction::Outside(OutsideCall::CallIndirect {
            signature: args.signature()?,
            callee: args.value()?,
            args: args.last_values(alloc)?,
        })),
        _ => Err(LineError::Fault(Fault::UnknownCall(head))),
    }
}
