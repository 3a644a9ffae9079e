//! Calls that make entries of the function's tables.
ghost use Rattle.std.specs.Prelude.{◌≡◌, IfOk};
ghost use Rattle.clif_text.specs.Grammar.{IsGlobalValue, IsImported};
ghost use Rattle.clif_arguments.specs.Taking.{TakesWords, names_in};
ghost use Rattle.clif_text.specs.Reading.{ReadsCall};

use clif_arguments::args::Args;
use clif_calls::{Call, EntryCall, ImportedFunction};
use clif_types::{DynamicStackSlotData, GlobalValueData};
use clif_words::error::{Expected, Fault, LineError};
use std::alloc::Global;

// The call of this name, which makes an entry, with what follows it.
pub(crate) fn read_entry_call<'a>(
    alloc: Global,
    head: &'a str,
    args: &mut Args<'_, 'a>,
) -> Result<Call, LineError<'a>>
    ensures { IfOk result (ReadsCall args.old args.new head.now) }
{
    match head {
        "create_sized_stack_slot" => Ok(Call::Entry(EntryCall::CreateSizedStackSlot {
            size: args.slot_size()?,
            align_shift: args.align_shift()?,
        })),
        "create_dynamic_stack_slot" => {
            let dyn_ty = args.dynamic_type()?;
            let slot = DynamicStackSlotData { dyn_ty };
            Ok(Call::Entry(EntryCall::CreateDynamicStackSlot(slot)))
        }
        "create_global_value" => {
            let value = global_value(alloc, args)?;
            Ok(Call::Entry(EntryCall::CreateGlobalValue(value)))
        }
        "import_signature" => {
            let signature = args.last_signature(alloc)?;
            Ok(Call::Entry(EntryCall::ImportSignature(signature)))
        }
        "import_function" => {
            let function = imported(alloc, args)?;
            Ok(Call::Entry(EntryCall::ImportFunction(function)))
        }
        _ => Err(LineError::Fault(Fault::UnknownCall(head))),
    }
}

// What a global value is.
fn global_value<'a>(
    alloc: Global,
    args: &mut Args<'_, 'a>,
) -> Result<GlobalValueData, LineError<'a>>
    ensures { IfOk result (TakesWords args.old args.new IsGlobalValue) }
{
    if args.has("vmctx") {
        return Ok(GlobalValueData::VMContext);
    }
    if args.has("symbol") {
        let name = args.external_name(alloc, Expected::SymbolName)?;
        return Ok(GlobalValueData::Symbol(name));
    }
    Err(LineError::wanted(Expected::GlobalValue))
}

// A function that is imported.
fn imported<'a>(alloc: Global, args: &mut Args<'_, 'a>) -> Result<ImportedFunction, LineError<'a>>
    ensures { IfOk result (TakesWords args.old args.new (IsImported (names_in args.old))) }
{
    let colocated = args.has("colocated");
    let patchable = args.has("patchable");
    let name = args.external_name(alloc, Expected::FunctionName)?;
    let signature = args.signature()?;
    Ok(ImportedFunction {
        name,
        signature,
        colocated,
        patchable,
    })
}
