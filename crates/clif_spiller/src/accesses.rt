//! Stores to and reloads from the slots of spilled values.
//!
//! Each is two instructions: `stack_addr`, and a `store` or a `load` that can't trap and is aligned. They have no
//! source place.
ghost use Rattle.std.specs.Prelude.{◌≡◌, ◌≢◌, ◌<◌, length, All, EachIndex, IfOk, OnErr, slice_index};
ghost use Rattle.clif_instructions.specs.Instruction.{contexts, destinations, entries_of, operands};
ghost use Rattle.clif_tables.specs.Callees.{count_of_results, types_of_results};
ghost use Rattle.clif_ir.specs.Body.{inst_at, resolved, value_at};
ghost use Rattle.clif_ir.specs.Changes.{HasNoRoom};
ghost use Rattle.clif_ir.specs.Consistent.{EdgeExists, EntryExists, ValueExists};
ghost use Rattle.clif_spiller.specs.Inserting.{inst_beside, IsReloaded, put_in, spot_after, with_address, with_store};
ghost use Rattle.clif_spiller.specs.Plans.{IsFull, IsPlan, IsRead, KnowsSlots, MayBeSpilled};

use crate::plan::Plan;
use clif_ir::{Function, InstructionData};
use clif_opcodes::StackOpcode;
use clif_stack_slots::StackSlots;
use clif_types::{BuildError, Inst, MemFlagsData, SourceLoc, StackSlot, Type, Value};

/// Where an instruction is inserted.
#[derive(Clone, Copy)]
pub(crate) enum Spot {
    /// Right before this instruction.
    Before(Inst),
    /// Right after this instruction.
    After(Inst),
}

// Puts an instruction at a spot. The next one after it is to be put at the spot that is returned.
fn insert(
    func: &mut Function,
    spot: Spot,
    shape: InstructionData,
    ty: Type,
) -> Result<(Inst, Spot), BuildError>
    requires spot_exists { inst_beside spot < length func.old.insts }
    requires operands_exist { EachIndex (operands shape)
        (λ k. slice_index (operands shape) k < length func.old.values) }
    requires edges_exist { All (EdgeExists func.old) (destinations shape) }
    requires contexts_exist { All (ValueExists func.old) (contexts shape) }
    requires entries_exist { All (EntryExists func.old.tables) (entries_of shape) }
    ensures ok { IfOk result (λ put. func.new
        ≡ put_in func.old spot shape (types_of_results func.old.tables shape ty)) }
    ensures inst { IfOk result (λ put. put.0 ≡ length func.old.insts) }
    ensures spot { IfOk result (λ put. put.1 ≡ spot_after func.old spot) }
    ensures full { result ≡ Err BuildError.Full
        → HasNoRoom func.old (count_of_results func.old.tables shape) }
    ensures never_failed { result ≢ Err BuildError.Failed }
    ensures err { OnErr result (func.new ≡ func.old) }
{
    let nowhere = SourceLoc::new(u32::MAX);
    match spot {
        Spot::Before(next) => Ok((func.insert_inst_before(next, shape, ty, nowhere)?, spot)),
        Spot::After(previous) => {
            let inst = func.insert_inst_after(previous, shape, ty, nowhere)?;
            Ok((inst, Spot::After(inst)))
        }
    }
}

// Puts the address of a slot at a spot.
fn insert_address(
    func: &mut Function,
    plan: &Plan<'_>,
    spot: Spot,
    slot: StackSlot,
) -> Result<(Value, Spot), BuildError>
    requires spot_exists { inst_beside spot < length func.old.insts }
    requires slot_exists { slot < length func.old.tables.stack_slots }
    ensures ok { IfOk result (λ put. func.new
        ≡ with_address func.old plan.now.pointer spot slot) }
    ensures address { IfOk result (λ put. put.0 ≡ length func.old.values) }
    ensures spot { IfOk result (λ put. put.1 ≡ spot_after func.old spot) }
    ensures full { result ≡ Err BuildError.Full → IsFull func.new }
    ensures never_failed { result ≢ Err BuildError.Failed }
{
    let shape = InstructionData::StackLoad {
        opcode: StackOpcode::StackAddr,
        slot,
        offset: 0,
    };
    func.law_consistent();
    let (inst, spot) = insert(func, spot, shape, plan.pointer)?;
    Ok((func.inst_results(inst)[0], spot))
}

/// Stores a spilled value in its slot, at a spot. The next instruction after the store goes to the spot that is returned.
///
/// The errors are those of inserting instructions.
pub(crate) fn store(
    func: &mut Function,
    plan: &Plan<'_>,
    spot: Spot,
    slot: StackSlot,
    value: Value,
) -> Result<Spot, BuildError>
    requires spot_exists { inst_beside spot < length func.old.insts }
    requires slot_exists { slot < length func.old.tables.stack_slots }
    requires value_exists { value < length func.old.values }
    ensures ok { IfOk result (λ next. func.new
        ≡ with_store func.old plan.now.pointer spot slot value) }
    ensures spot { IfOk result (λ next. next
        ≡ spot_after (with_address func.old plan.now.pointer spot slot) (spot_after func.old spot)) }
    ensures full { result ≡ Err BuildError.Full → IsFull func.new }
    ensures never_failed { result ≢ Err BuildError.Failed }
{
    let (address, spot) = insert_address(func, plan, spot, slot)?;
    let shape = InstructionData::Store {
        flags: MemFlagsData::trusted(),
        args: [value, address],
        offset: 0,
    };
    func.law_consistent();
    let (_, spot) = insert(func, spot, shape, Type::Invalid)?;
    Ok(spot)
}

/// Reads the slot of a spilled value into a new value, right before an instruction. It takes a slot if it has none.
///
/// The errors are those of taking slots and inserting instructions.
pub(crate) fn reload(
    func: &mut Function,
    slots: &mut StackSlots,
    plan: &Plan<'_>,
    next: Inst,
    value: Value,
) -> Result<Value, BuildError>
    requires next_exists { next < length func.old.insts }
    requires spillable { MayBeSpilled func.old value }
    requires slots { KnowsSlots func.old slots.old }
    ensures ok { IfOk result (λ copy.
        IsReloaded plan.now.pointer next value func.old slots.old func.new slots.new copy) }
    ensures exists { IfOk result (λ copy. copy < length func.new.values) }
    ensures full { result ≡ Err BuildError.Full → IsFull func.new }
    ensures never_failed { result ≢ Err BuildError.Failed }
{
    let ty = func.value_type(value);
    let slot = slots.get_or_create_stack_slot(func, value)?;
    let (address, spot) = insert_address(func, plan, Spot::Before(next), slot)?;
    let shape = InstructionData::Load {
        flags: MemFlagsData::trusted(),
        arg: address,
        offset: 0,
    };
    func.law_consistent();
    let (inst, _) = insert(func, spot, shape, ty)?;
    Ok(func.inst_results(inst)[0])
}

/// What is read in place of an operand: a reload of it right before an instruction if it is spilled, else what it
/// stands for.
pub(crate) fn read(
    func: &mut Function,
    slots: &mut StackSlots,
    plan: &Plan<'_>,
    next: Inst,
    operand: Value,
) -> Result<Value, BuildError>
    requires next_exists { next < length func.old.insts }
    requires operand_exists { operand < length func.old.values }
    requires plan { IsPlan func.old plan.now }
    requires slots { KnowsSlots func.old slots.old }
    ensures ok { IfOk result (λ new.
        IsRead plan.now next operand func.old slots.old func.new slots.new new) }
    ensures exists { IfOk result (λ new. new < length func.new.values) }
    ensures full { result ≡ Err BuildError.Full → IsFull func.new }
    ensures never_failed { result ≢ Err BuildError.Failed }
{
    let value = func.resolve_aliases(operand);
    if plan.is_spilled(value) {
        reload(func, slots, plan, next, value)
    } else {
        Ok(value)
    }
}
