//! The pass over accesses that asks for their regions.
ghost use Rattle.std.specs.Prelude.{◌≡◌, ◌<◌, ◌-◌, length, IfErr, None, OnErr, OnOk, Some};
ghost use Rattle.clif_ir.specs.Body.{inst_at, resolved, value_at};
ghost use Rattle.clif_meaning.specs.View.{first_type};
ghost use Rattle.clif_region_laws.specs.Regions.{AreAlikeButForRegions};
ghost use Rattle.clif_regions.specs.Asking.{AreAnswered, HoldsRefusal, IsAsked, IsAskedIf, slot_at, touched_by};

use crate::callback::{Callback, RegionOf};
use clif_ir::{Function, InstructionData, ValueDef};
use clif_opcodes::StackOpcode;
use clif_types::{BuildError, EntityRef, Inst, StackSlot, Type, Value};

/// Asks for the alias region of each access to a stack slot, in the order of the numbers of instructions, from this number on: with the
/// type of what it loads or stores, the slot, and 0. The access names then what is answered.
///
/// # Errors
///
/// The refusal that the function's set of regions holds after a call: no more is asked then.
pub fn ask_regions(func: &mut Function, first: usize, callback: &Callback) -> Result<(), BuildError>
    ensures alike { AreAlikeButForRegions func.old func.new }
    ensures answered { OnOk result (AreAnswered (RegionOf.post callback.now.ask)
        first func.old func.new) }
    ensures refused { IfErr result (HoldsRefusal func.new) }
{
    let count = func.inst_count();
    for number in first..count {
        ask_at(func, Inst::new(number), callback)?;
    }
    Ok(())
}

// Asks for the region of an instruction, if it is an access to a stack slot.
fn ask_at(func: &mut Function, inst: Inst, callback: &Callback) -> Result<(), BuildError>
    requires { inst < length func.old.insts }
    ensures ok { OnOk result (IsAskedIf (RegionOf.post callback.now.ask)
        (touched_by func.old inst) inst func.old func.new) }
    ensures alike { OnErr result (AreAlikeButForRegions func.old func.new) }
    ensures refused { IfErr result (HoldsRefusal func.new) }
{
    match touched_by(func, inst) {
        Some((ty, slot)) => ask(func, inst, ty, slot, callback),
        None => Ok(()),
    }
}

// Asks for the region of one access.
fn ask(
    func: &mut Function,
    inst: Inst,
    ty: Type,
    slot: StackSlot,
    callback: &Callback,
) -> Result<(), BuildError>
    requires { inst < length func.old.insts }
    ensures ok { OnOk result (IsAsked (RegionOf.post callback.now.ask) inst ty slot func.old func.new) }
    ensures alike { OnErr result (AreAlikeButForRegions func.old func.new) }
    ensures refused { IfErr result (HoldsRefusal func.new) }
{
    let regions = func.alias_regions_mut();
    let region = (callback.ask)(regions, ty, slot, 0);
    if let Some(error) = regions.refusal() {
        regions.law_refusal();
        return Err(error);
    }
    func.set_alias_region(inst, region);
    Ok(())
}

// The type of what an instruction loads from a stack slot or stores in one, and the slot.
fn touched_by(func: &Function, inst: Inst) -> Option<(Type, StackSlot)>
    requires { inst < length func.now.insts }
    ensures { result ≡ touched_by func.now inst }
{
    match func.inst_data(inst) {
        InstructionData::Load { arg, .. } => {
            let slot = slot_at(func, *arg)?;
            Some((loaded_type(func, inst), slot))
        }
        InstructionData::Store {
            args: [stored, address],
            ..
        } => {
            let slot = slot_at(func, *address)?;
            Some((func.value_type(*stored), slot))
        }
        _ => None,
    }
}

// The type of an instruction's first result.
fn loaded_type(func: &Function, inst: Inst) -> Type
    requires { inst < length func.now.insts }
    ensures { result ≡ first_type func.now (inst_at func.now inst).results }
{
    match func.inst_results(inst) {
        [] => Type::Invalid,
        [value, ..] => func.value_type(*value),
    }
}

// The stack slot whose address a value is.
fn slot_at(func: &Function, value: Value) -> Option<StackSlot>
    requires { value < length func.now.values }
    ensures { result ≡ slot_at func.now value }
{
    match func.value_def(value) {
        ValueDef::Result(inst, _) => match func.inst_data(inst) {
            InstructionData::StackLoad {
                opcode: StackOpcode::StackAddr,
                slot,
                ..
            } => Some(*slot),
            _ => None,
        },
        ValueDef::Param(_, _) => None,
    }
}
