//! Contexts of try calls that are recorded: an unwinder keeps what no collector can move.
ghost use Rattle.std.specs.Prelude.{◌≡◌, ◌<◌, ◌↔◌, ℕ, length, All, Contains, IsTrue, IfOk, IsOkUnless};
ghost use Rattle.std.specs.List.{flat_map, list_any};
ghost use Rattle.clif_instructions.specs.ExceptionTables.{item_context};
ghost use Rattle.clif_instructions.specs.Instruction.{contexts};
ghost use Rattle.clif_ir.specs.Body.{inst_at, resolved};
ghost use Rattle.clif_ir.specs.Consistent.{ValueExists};
ghost use Rattle.clif_safepoints.specs.Contexts.{AreReached, HasTrackedContext, IsFirstTracked, item_is_tracked};

use crate::graph::post_order;
use crate::reading::{insts_by_block, successors_by_block};
use clif_instructions::exception_table::ExceptionItem;
use clif_ir::Function;
use clif_number_sets::number_set::NumberSet;
use clif_types::{BuildError, EntityRef, EntitySet, Inst, Value};

/// The first try call, by its number, that is reached and one of whose contexts is recorded.
///
/// # Errors
///
/// `Memory`, where memory is refused.
pub fn tracked_context(
    func: &Function,
    recorded: &EntitySet<Value>,
) -> Result<Option<Inst>, BuildError>
    ensures ok { IfOk result (λ inst. IsFirstTracked func.now recorded.now inst) }
    ensures memory_alone { IsOkUnless result BuildError.Memory }
{
    let reached = reached_blocks(func)?;
    for number in 0..func.inst_count() {
        let inst = Inst::new(number);
        if has_tracked_context(func, recorded, &reached, inst) {
            return Ok(Some(inst));
        }
    }
    Ok(None)
}

// The blocks that are reached.
fn reached_blocks(func: &Function) -> Result<NumberSet, BuildError>
    ensures ok { IfOk result (λ marks. AreReached func.now marks) }
    ensures memory_alone { IsOkUnless result BuildError.Memory }
{
    func.law_consistent();
    let alloc = func.allocator();
    let inst_lists = insts_by_block(func)?;
    let successor_lists = successors_by_block(func, inst_lists.as_slice())?;
    let successors = successor_lists.as_slice();
    let blocks = post_order(alloc, func.entry_block(), successors)?;
    let order = blocks.as_slice();
    let mut reached = NumberSet::new(alloc, func.block_count())?;
    for block in order {
        reached.insert(block.index());
    }
    Ok(reached)
}

// Whether an instruction is reached and names a recorded context.
fn has_tracked_context(
    func: &Function,
    recorded: &EntitySet<Value>,
    reached: &NumberSet,
    inst: Inst,
) -> bool
    requires exists { inst < length func.now.insts }
    requires reached { AreReached func.now reached.now }
    ensures { IsTrue result ↔ HasTrackedContext func.now recorded.now inst }
{
    func.law_consistent();
    let Some(block) = func.inst_block(inst) else {
        return false;
    };
    if !reached.contains(block.index()) {
        return false;
    }
    if !func.is_block_inserted(block) {
        return false;
    }
    names_tracked(func, recorded, inst)
}

// Whether one of the contexts of an instruction is recorded.
fn names_tracked(func: &Function, recorded: &EntitySet<Value>, inst: Inst) -> bool
    requires { inst < length func.now.insts }
    ensures { IsTrue result ↔ ((value : ℕ) × Contains (contexts (inst_at func.now inst).shape) value
        × Contains recorded.now (resolved func.now value)) }
{
    func.law_consistent();
    match func.inst_data(inst).exception_targets() {
        Some(table) => names_tracked_item(func, recorded, table.items()),
        None => false,
    }
}

// Whether one of these items names a recorded context.
fn names_tracked_item(func: &Function, recorded: &EntitySet<Value>, items: &[ExceptionItem]) -> bool
    requires { All (ValueExists func.now) (flat_map item_context items.now) }
    ensures { result ≡ list_any (item_is_tracked func.now recorded.now) items.now }
{
    for place in 0..items.len() {
        if is_tracked(func, recorded, items[place]) {
            return true;
        }
    }
    false
}

// Whether an item names a recorded context.
fn is_tracked(func: &Function, recorded: &EntitySet<Value>, item: ExceptionItem) -> bool
    requires { All (ValueExists func.now) (item_context item) }
    ensures { result ≡ item_is_tracked func.now recorded.now item }
{
    match item {
        ExceptionItem::Context(value) => recorded.contains(func.resolve_aliases(value)),
        ExceptionItem::Tag(_) | ExceptionItem::Default => false,
    }
}
