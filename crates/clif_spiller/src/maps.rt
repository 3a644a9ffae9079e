//! Stack maps, and the slots of values that live on after a block.
ghost use Rattle.std.specs.Prelude.{◌≡◌, ◌≢◌, ◌<◌, ◌++◌, [], ◌∷◌, filter, length, All, Contains, IsOkUnless, OnOk};
ghost use Rattle.clif_safepoints.specs.Analysis.{found_across};
ghost use Rattle.clif_spiller.specs.Acting.{ActsAhead, ActsMapping, is_waiting};
ghost use Rattle.clif_spiller.specs.Plans.{GoesOn, IsFull, IsPlan, KnowsSlots};

use crate::plan::Plan;
use clif_ir::Function;
use clif_stack_slots::StackSlots;
use clif_types::{BuildError, Inst, UserStackMapEntry, Value};

/// Gives a call its stack map: an entry for each value that is live across it, by rising number.
pub(crate) fn set_map(
    func: &mut Function,
    slots: &mut StackSlots,
    plan: &Plan<'_>,
    inst: Inst,
) -> Result<(), BuildError>
    requires inst_exists { inst < length func.old.insts }
    requires plan { IsPlan func.old plan.now }
    requires slots { KnowsSlots func.old slots.old }
    ensures ok { OnOk result (GoesOn (length func.old.blocks)
        func.old slots.old func.new slots.new) }
    ensures acts { OnOk result (ActsMapping plan.now inst func.old slots.old func.new slots.new
        (found_across plan.now.liveness.now inst)) }
    ensures full { result ≡ Err BuildError.Full → IsFull func.new }
    ensures never_failed { result ≢ Err BuildError.Failed }
{
    let mut entries = Vec::new(func.allocator());
    for value in plan.liveness.live_across(inst) {
        let slot = slots.get_or_create_stack_slot(func, *value)?;
        entries.push(UserStackMapEntry {
            ty: func.value_type(*value),
            slot,
            offset: 0,
        })?;
    }
    func.set_stack_map(inst, entries)
}

/// Gives slots to the spilled values that are live at the front of a block to which an instruction leads, by rising
/// number. A slot that such a value needs over a whole loop isn't given to another value in the loop so.
pub(crate) fn take_live_outs(
    func: &mut Function,
    slots: &mut StackSlots,
    plan: &Plan<'_>,
    inst: Inst,
) -> Result<(), BuildError>
    requires inst_exists { inst < length func.old.insts }
    requires plan { IsPlan func.old plan.now }
    requires slots { KnowsSlots func.old slots.old }
    ensures ok { OnOk result (GoesOn (length func.old.blocks)
        func.old slots.old func.new slots.new) }
    ensures acts { OnOk result
        (ActsAhead plan.now inst func.old slots.old func.new slots.new) }
    ensures full { result ≡ Err BuildError.Full → IsFull func.new }
    ensures never_failed { result ≢ Err BuildError.Failed }
{
    let mut waiting = Vec::new(func.allocator());
    for edge in func.inst_data(inst).branch_destination() {
        push_waiting(slots, plan, plan.liveness.live_in(edge.block), &mut waiting)?;
    }
    waiting.sort_unstable();
    for value in &waiting {
        slots.get_or_create_stack_slot(func, *value)?;
    }
    Ok(())
}

// Puts those of these values at the end that are spilled and have no slot.
fn push_waiting(
    slots: &StackSlots,
    plan: &Plan<'_>,
    values: &[Value],
    waiting: &mut Vec<Value>,
) -> Result<(), BuildError>
    requires { All (Contains plan.now.spilled) waiting.old.items }
    ensures ok { OnOk result (All (Contains plan.now.spilled) waiting.new.items) }
    ensures items { OnOk result (waiting.new.items
        ≡ waiting.old.items ++ filter (is_waiting plan.now slots.now) values.now) }
    ensures memory_alone { IsOkUnless result BuildError.Memory }
{
    for value in values {
        push_if_waiting(slots, plan, *value, waiting)?;
    }
    Ok(())
}

// Puts a value at the end, if it is spilled and has no slot.
fn push_if_waiting(
    slots: &StackSlots,
    plan: &Plan<'_>,
    value: Value,
    waiting: &mut Vec<Value>,
) -> Result<(), BuildError>
    requires { All (Contains plan.now.spilled) waiting.old.items }
    ensures ok { OnOk result (All (Contains plan.now.spilled) waiting.new.items) }
    ensures items { OnOk result (waiting.new.items
        ≡ waiting.old.items ++ filter (is_waiting plan.now slots.now) (value ∷ [])) }
    ensures memory_alone { IsOkUnless result BuildError.Memory }
{
    if !plan.is_spilled(value) {
        return Ok(());
    }
    if slots.get(value).is_none() {
        waiting.push(value)?;
    }
    Ok(())
}
