//! The rewriting of a function, block by block.

ghost use Rattle.std.specs.Prelude.{◌≡◌, ◌≢◌, ◌<◌, [], length, All, IsOkUnless, OnOk};
ghost use Rattle.clif_instructions.specs.Instruction.{is_call};
ghost use Rattle.clif_instructions.specs.Members.{Stands};
ghost use Rattle.clif_ir.specs.Body.{inst_at};
ghost use Rattle.clif_spiller.specs.Acting.{ActsAtInst, ActsAtSafepoint};
ghost use Rattle.clif_spiller.specs.Plans.{GoesOn, insts_inside, IsFull, IsPlan, KnowsSlots};
ghost use Rattle.clif_spiller.specs.Progress.{RewritesAll, RewritesBlock};

use crate::definitions::{free_params, store_params, store_results};
use crate::landing::land_edges;
use crate::maps::{set_map, take_live_outs};
use crate::plan::Plan;
use crate::uses::reload_uses;
use clif_ir::{Function, InstructionData};
use clif_stack_slots::StackSlots;
use clif_types::{Block, BuildError, Inst};

/// Rewrites the blocks that are reached, in the order of the analysis: each after those to which it leads, but for
/// edges back.
pub(crate) fn rewrite(
    func: &mut Function,
    slots: &mut StackSlots,
    plan: &Plan<'_>,
) -> Result<(), BuildError>
    requires plan { IsPlan func.old plan.now }
    requires slots { KnowsSlots func.old slots.old }
    requires order { All (λ block. block < length func.old.blocks) plan.now.liveness.now.order }
    ensures ok { OnOk result (GoesOn (length func.old.blocks)
        func.old slots.old func.new slots.new) }
    ensures rewrites { OnOk result
        (RewritesAll plan.now func.old slots.old func.new slots.new) }
    ensures full { result ≡ Err BuildError.Full → IsFull func.new }
    ensures never_failed { result ≢ Err BuildError.Failed }
{
    let mut insts = Vec::new(func.allocator());
    for block in plan.liveness.order() {
        insts.clear();
        push_insts(func, *block, &mut insts)?;
        rewrite_block(func, slots, plan, *block, insts.as_slice())?;
    }
    Ok(())
}

// Puts the instructions of a block at the end, in order. A block outside the layout has none.
fn push_insts(func: &Function, block: Block, insts: &mut Vec<Inst>) -> Result<(), BuildError>
    requires exists { block < length func.now.blocks }
    requires empty { insts.old.items ≡ [] }
    ensures ok { OnOk result (insts.new.items ≡ insts_inside func.now block) }
    ensures memory_alone { IsOkUnless result BuildError.Memory }
{
    func.law_consistent();
    if !func.is_block_inserted(block) {
        return Ok(());
    }
    let mut next = func.first_inst(block);
    while let Some(inst) = next {
        insts.push(inst)?;
        next = func.next_inst(inst);
    }
    Ok(())
}

// Rewrites the instructions of a block from the last to the first, and then stores its parameters.
fn rewrite_block(
    func: &mut Function,
    slots: &mut StackSlots,
    plan: &Plan<'_>,
    block: Block,
    insts: &[Inst],
) -> Result<(), BuildError>
    requires plan { IsPlan func.old plan.now }
    requires slots { KnowsSlots func.old slots.old }
    requires block_exists { block < length func.old.blocks }
    requires insts { insts.now ≡ insts_inside func.old block }
    ensures ok { OnOk result (GoesOn (length func.old.blocks)
        func.old slots.old func.new slots.new) }
    ensures rewrites { OnOk result
        (RewritesBlock plan.now block func.old slots.old func.new slots.new) }
    ensures full { result ≡ Err BuildError.Full → IsFull func.new }
    ensures never_failed { result ≢ Err BuildError.Failed }
{
    func.law_consistent();
    if insts.is_empty() {
        return free_params(func, slots, block);
    }
    for place in (0..insts.len()).rev() {
        rewrite_inst(func, slots, plan, block, insts[place])?;
    }
    func.law_consistent();
    match func.first_inst(block) {
        Some(first) => store_params(func, slots, plan, block, first),
        None => Ok(()),
    }
}

// Rewrites an instruction: what comes after it, its stack map, its edges, and what it uses.
fn rewrite_inst(
    func: &mut Function,
    slots: &mut StackSlots,
    plan: &Plan<'_>,
    block: Block,
    inst: Inst,
) -> Result<(), BuildError>
    requires inst_exists { inst < length func.old.insts }
    requires plan { IsPlan func.old plan.now }
    requires slots { KnowsSlots func.old slots.old }
    requires inside { Stands block func.old.layout }
    ensures ok { OnOk result (GoesOn (length func.old.blocks)
        func.old slots.old func.new slots.new) }
    ensures acts { OnOk result
        (ActsAtInst plan.now inst func.old slots.old func.new slots.new) }
    ensures full { result ≡ Err BuildError.Full → IsFull func.new }
    ensures never_failed { result ≢ Err BuildError.Failed }
{
    take_live_outs(func, slots, plan, inst)?;
    store_results(func, slots, plan, inst)?;
    rewrite_safepoint(func, slots, plan, block, inst)?;
    reload_uses(func, slots, plan, inst)
}

// Gives an instruction its stack map and its edges landing blocks, if a collector may run at it.
fn rewrite_safepoint(
    func: &mut Function,
    slots: &mut StackSlots,
    plan: &Plan<'_>,
    block: Block,
    inst: Inst,
) -> Result<(), BuildError>
    requires inst_exists { inst < length func.old.insts }
    requires plan { IsPlan func.old plan.now }
    requires slots { KnowsSlots func.old slots.old }
    requires inside { Stands block func.old.layout }
    ensures ok { OnOk result (GoesOn (length func.old.blocks)
        func.old slots.old func.new slots.new) }
    ensures acts { OnOk result (ActsAtSafepoint (is_call (inst_at func.old inst).shape)
        plan.now inst func.old slots.old func.new slots.new) }
    ensures full { result ≡ Err BuildError.Full → IsFull func.new }
    ensures never_failed { result ≢ Err BuildError.Failed }
{
    if !is_safepoint(func.inst_data(inst)) {
        return Ok(());
    }
    set_map(func, slots, plan, inst)?;
    land_edges(func, slots, plan, block, inst)
}

// Whether a collector may run at an instruction.
fn is_safepoint(shape: &InstructionData) -> bool
    ensures { result ≡ is_call shape.now }
{
    matches!(
        shape,
        InstructionData::Call { .. }
            | InstructionData::CallIndirect { .. }
            | InstructionData::TryCall { .. }
            | InstructionData::TryCallIndirect { .. }
    )
}
