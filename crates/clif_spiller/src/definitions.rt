//! Stores of spilled values, right after they are given.
ghost use Rattle.std.specs.FinMap as map;
ghost use Rattle.std.specs.Prelude.{◌≡◌, ◌≢◌, ◌<◌, ℕ, [], ◌∷◌, length, IfOk, IsOkUnless, OnOk};
ghost use Rattle.clif_ir.specs.Body.{block_at, inst_at};
ghost use Rattle.clif_stack_slots.specs.Slots.{assigned_in};
ghost use Rattle.clif_spiller.specs.Acting.{ActsGiving};
ghost use Rattle.clif_spiller.specs.Inserting.{inst_beside};
ghost use Rattle.clif_spiller.specs.Plans.{GoesOn, IsFull, KnowsSlots, MayBeSpilled};
ghost use Rattle.clif_spiller.specs.Text.{Stores, StoresAfter, StoresBefore};

use crate::accesses::{Spot, store};
use crate::plan::Plan;
use clif_ir::Function;
use clif_stack_slots::{SlotSize, StackSlots};
use clif_types::{Block, BuildError, Inst, StackSlot, Value};

/// Stores those results of an instruction that have slots, in order, right after it, and frees the slots.
pub(crate) fn store_results(
    func: &mut Function,
    slots: &mut StackSlots,
    plan: &Plan<'_>,
    inst: Inst,
) -> Result<(), BuildError>
    requires inst_exists { inst < length func.old.insts }
    requires slots { KnowsSlots func.old slots.old }
    ensures ok { OnOk result (GoesOn (length func.old.blocks)
        func.old slots.old func.new slots.new) }
    ensures acts { OnOk result (ActsGiving (inst_at func.old inst).block
        func.old slots.old func.new slots.new (inst_at func.old inst).results) }
    ensures stores { OnOk result (StoresAfter plan.now inst
        func.old slots.old func.new slots.new (inst_at func.old inst).results) }
    ensures full { result ≡ Err BuildError.Full → IsFull func.new }
    ensures never_failed { result ≢ Err BuildError.Failed }
{
    let mut spot = Spot::After(inst);
    for place in 0..func.inst_results(inst).len() {
        let value = func.inst_results(inst)[place];
        spot = store_value(func, slots, plan, spot, value)?;
    }
    Ok(())
}

/// Stores those parameters of a block that have slots, in order, right before the block's first instruction, and frees the
/// slots.
pub(crate) fn store_params(
    func: &mut Function,
    slots: &mut StackSlots,
    plan: &Plan<'_>,
    block: Block,
    first: Inst,
) -> Result<(), BuildError>
    requires block_exists { block < length func.old.blocks }
    requires first_exists { first < length func.old.insts }
    requires slots { KnowsSlots func.old slots.old }
    ensures ok { OnOk result (GoesOn (length func.old.blocks)
        func.old slots.old func.new slots.new) }
    ensures acts { OnOk result (ActsGiving (inst_at func.old first).block
        func.old slots.old func.new slots.new (block_at func.old block).params) }
    ensures stores { OnOk result (StoresBefore plan.now first
        func.old slots.old func.new slots.new (block_at func.old block).params) }
    ensures full { result ≡ Err BuildError.Full → IsFull func.new }
    ensures never_failed { result ≢ Err BuildError.Failed }
{
    for place in 0..func.block_params(block).len() {
        let value = func.block_params(block)[place];
        store_value(func, slots, plan, Spot::Before(first), value)?;
    }
    Ok(())
}

/// Frees the slots of the parameters of a block without instructions: nothing is live there.
pub(crate) fn free_params(
    func: &Function,
    slots: &mut StackSlots,
    block: Block,
) -> Result<(), BuildError>
    requires block_exists { block < length func.now.blocks }
    requires slots { KnowsSlots func.now slots.old }
    ensures ok { OnOk result (KnowsSlots func.now slots.new) }
    ensures acts { OnOk result (ActsGiving block
        func.now slots.old func.now slots.new (block_at func.now block).params) }
    ensures memory_alone { IsOkUnless result BuildError.Memory }
{
    for value in func.block_params(block) {
        if let Some(slot) = slots.get(*value) {
            free(func, slots, slot, *value)?;
        }
    }
    Ok(())
}

// Stores a value in its slot and frees the slot, if it has one. A value without a slot isn't needed after it is given.
fn store_value(
    func: &mut Function,
    slots: &mut StackSlots,
    plan: &Plan<'_>,
    spot: Spot,
    value: Value,
) -> Result<Spot, BuildError>
    requires spot_exists { inst_beside spot < length func.old.insts }
    requires value_exists { value < length func.old.values }
    requires slots { KnowsSlots func.old slots.old }
    ensures ok { IfOk result (λ next. GoesOn (length func.old.blocks)
        func.old slots.old func.new slots.new) }
    ensures spot { IfOk result (λ next. inst_beside next < length func.new.insts) }
    ensures home { IfOk result (λ next. (inst_at func.new (inst_beside next)).block
        ≡ (inst_at func.old (inst_beside spot)).block) }
    ensures acts { IfOk result (λ next. ActsGiving (inst_at func.old (inst_beside spot)).block
        func.old slots.old func.new slots.new (value ∷ [])) }
    ensures stores { IfOk result (λ next. Stores plan.now
        func.old slots.old spot func.new slots.new next (value ∷ [])) }
    ensures full { result ≡ Err BuildError.Full → IsFull func.new }
    ensures never_failed { result ≢ Err BuildError.Failed }
{
    let Some(slot) = slots.get(value) else {
        return Ok(spot);
    };
    func.law_consistent();
    let spot = store(func, plan, spot, slot, value)?;
    free(func, slots, slot, value)?;
    Ok(spot)
}

// Frees the slot of a value.
fn free(
    func: &Function,
    slots: &mut StackSlots,
    slot: StackSlot,
    value: Value,
) -> Result<(), BuildError>
    requires value { MayBeSpilled func.now value }
    requires slot { slot < length func.now.tables.stack_slots }
    requires slots { KnowsSlots func.now slots.old }
    requires has { map.get (assigned_in slots.old) value ≡ Some slot }
    ensures ok { OnOk result (KnowsSlots func.now slots.new) }
    ensures assigned { assigned_in slots.new ≡ assigned_in slots.old }
    ensures acts { OnOk result ((home : ℕ)
        → ActsGiving home func.now slots.old func.now slots.new (value ∷ [])) }
    ensures memory_alone { IsOkUnless result BuildError.Memory }
{
    let size = SlotSize::unwrap_new(func.value_type(value).bytes());
    slots.free_stack_slot(size, slot)
}
