//! Instructions with a constant as an operand.
ghost use Rattle.std.specs.Prelude.{IfOk};
ghost use Rattle.clif_text.specs.Reading.{ReadsCall};

use clif_arguments::args::Args;
use clif_calls::{Call, ImmediateCall};
use clif_words::error::{Fault, LineError};

// The instruction of this name, with what follows it: its condition, if it has one, a value and a number.
pub(crate) fn read_immediate_call<'a>(
    head: &'a str,
    args: &mut Args<'_, 'a>,
) -> Result<Call, LineError<'a>>
    ensures { IfOk result (ReadsCall args.old args.new head.now) }
{
    match head {
        "iadd_imm_s" => {
            let x = args.value()?;
            let imm = args.number()?;
            Ok(Call::Immediate(ImmediateCall::IaddImmS { x, imm }))
        }
        "icmp_imm_s" => {
            let cond = args.condition()?;
            let x = args.value()?;
            let imm = args.number()?;
            Ok(Call::Immediate(ImmediateCall::IcmpImmS { cond, x, imm }))
        }
        _ => Err(LineError::Fault(Fault::UnknownCall(head))),
    }
}
