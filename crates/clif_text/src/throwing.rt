//! Exception tables, and the calls that they serve.
ghost use Rattle.std.specs.Prelude.{IfOk};
ghost use Rattle.clif_text.specs.Reading.{ReadsCall};

use clif_arguments::args::Args;
use clif_calls::{Call, ThrowingCall};
use clif_words::error::{Fault, LineError};
use std::alloc::Global;

// The call of this name, which makes an exception table or is served by one, with what follows it.
pub(crate) fn read_throwing_call<'a>(
    alloc: Global,
    head: &'a str,
    args: &mut Args<'_, 'a>,
) -> Result<Call, LineError<'a>>
    ensures { IfOk result (ReadsCall args.old args.new head.now) }
{
    match head {
        "create_exception_table" => Ok(Call::CreateExceptionTable {
            signature: args.signature()?,
            normal: args.edge_name()?,
            items: args.last_items(alloc)?,
        }),
        "try_call" => Ok(Call::Throwing(ThrowingCall::TryCall {
            function: args.function()?,
            args: args.closed_values(alloc)?,
            table: args.exception_table()?,
        })),
        "try_call_indirect" => Ok(Call::Throwing(ThrowingCall::TryCallIndirect {
            callee: args.value()?,
            args: args.closed_values(alloc)?,
            table: args.exception_table()?,
        })),
        _ => Err(LineError::Fault(Fault::UnknownCall(head))),
    }
}
