//! Switches.
ghost use Rattle.std.specs.Prelude.{◌≡◌, IfOk, codes};
ghost use Rattle.clif_text.specs.Reading.{ReadsCall};

use clif_arguments::args::Args;
use clif_calls::Call;
use clif_words::error::LineError;
use std::alloc::Global;

// The switch that follows this name: a value, the block where no case fits, and the cases.
pub(crate) fn read_switch_call<'a>(
    alloc: Global,
    head: &'a str,
    args: &mut Args<'_, 'a>,
) -> Result<Call, LineError<'a>>
    requires { head.now ≡ codes "switch" }
    ensures { IfOk result (ReadsCall args.old args.new head.now) }
{
    let value = args.value()?;
    let otherwise = args.block()?;
    let entries = args.last_switch_cases(alloc)?;
    Ok(Call::Switch {
        entries,
        value,
        otherwise,
    })
}
