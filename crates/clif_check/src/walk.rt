//! The walk over the instructions of a function in layout order.
ghost use Rattle.std.specs.Prelude.{◌<◌, length, All, IfErr, OnOk};
ghost use Rattle.clif_check.specs.WellTyped.{IsFirstError, IsWellTyped, insts_in_order, insts_of};

use crate::error::CheckError;
use crate::parts::failing_part;
use clif_ir::Function;
use clif_types::Block;

/// Whether each instruction of the layout is well typed; else the first one that isn't, in layout order, and the
/// first part of it that isn't, in the order of [`crate::CheckErrorKind`]. It takes no memory.
///
/// # Errors
///
/// A [`crate::CheckError`] for the first instruction that isn't well typed.
pub fn check(func: &Function) -> Result<(), CheckError>
    ensures ok { OnOk result (All (IsWellTyped func.now) (insts_in_order func.now)) }
    ensures first { IfErr result (IsFirstError func.now (insts_in_order func.now)) }
{
    func.law_consistent();
    let mut next = func.entry_block();
    while let Some(block) = next {
        check_block(func, block)?;
        next = func.next_block(block);
    }
    Ok(())
}

// The same of the instructions of one block.
fn check_block(func: &Function, block: Block) -> Result<(), CheckError>
    requires { block < length func.now.blocks }
    ensures ok { OnOk result (All (IsWellTyped func.now) (insts_of func.now block)) }
    ensures first { IfErr result (IsFirstError func.now (insts_of func.now block)) }
{
    func.law_consistent();
    let mut next = func.first_inst(block);
    while let Some(inst) = next {
        if let Some(kind) = failing_part(func, inst) {
            return Err(CheckError { inst, kind });
        }
        next = func.next_inst(inst);
    }
    Ok(())
}
