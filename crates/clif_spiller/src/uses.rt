//! Reloads of spilled values, right before they are used.
ghost use Rattle.std.specs.Prelude.{◌≡◌, ◌≢◌, ◌<◌, ℕ, [], false, length, map, All, EachIndex, IfSome, OnOk, Some, slice_get, slice_index};
ghost use Rattle.clif_instructions.specs.Edges.{edge_at};
ghost use Rattle.clif_instructions.specs.Instruction.{destinations, items_of};
ghost use Rattle.clif_ir.specs.Body.{inst_at, resolved};
ghost use Rattle.clif_ir.specs.Consistent.{EdgeExists, PassedExists};
ghost use Rattle.clif_spiller.specs.Acting.{Acts, edge_values, needs, operand_values, passed_value, passed_values, used_values};
ghost use Rattle.clif_spiller.specs.Keeping.{Keeps};
ghost use Rattle.clif_spiller.specs.Plans.{GoesOn, IsFull, IsPlan, KnowsSlots};
ghost use Rattle.clif_spiller.specs.Text.{ReadsUses, RereadsEdge, RereadsOperands, ResolvesNames};

use crate::accesses::read;
use crate::plan::Plan;
use clif_instructions::exception_table::ExceptionItem;
use clif_ir::{BlockArg, BlockCall, Function};
use clif_stack_slots::StackSlots;
use clif_types::{BuildError, Inst, Value};

/// Reloads each spilled operand of an instruction and then each spilled argument of its edges, right before it. Where
/// something is reloaded, all that the instruction names is written back as what it stands for.
pub(crate) fn reload_uses(
    func: &mut Function,
    slots: &mut StackSlots,
    plan: &Plan<'_>,
    inst: Inst,
) -> Result<(), BuildError>
    requires inst_exists { inst < length func.old.insts }
    requires plan { IsPlan func.old plan.now }
    requires slots { KnowsSlots func.old slots.old }
    ensures ok { OnOk result (GoesOn (length func.old.blocks)
        func.old slots.old func.new slots.new) }
    ensures acts { OnOk result (Acts plan.now inst func.old slots.old func.new slots.new
        (needs plan.now (used_values func.old inst))) }
    ensures reads { OnOk result
        (ReadsUses plan.now inst func.old slots.old func.new slots.new) }
    ensures full { result ≡ Err BuildError.Full → IsFull func.new }
    ensures never_failed { result ≢ Err BuildError.Failed }
{
    func.law_consistent();
    if !uses_spilled(func, plan, inst) {
        return Ok(());
    }
    reload_operands(func, slots, plan, inst)?;
    func.law_consistent();
    for edge in 0..func.inst_data(inst).branch_destination().len() {
        reload_arguments(func, slots, plan, inst, edge)?;
    }
    resolve_contexts(func, inst);
    Ok(())
}

// Whether an instruction uses a spilled value.
fn uses_spilled(func: &Function, plan: &Plan<'_>, inst: Inst) -> bool
    requires { inst < length func.now.insts }
    ensures none { result ≡ false → needs plan.now (used_values func.now inst) ≡ [] }
{
    let shape = func.inst_data(inst);
    any_spilled(func, plan, shape.arguments()) || any_passed(func, plan, shape.branch_destination())
}

// Whether one of these operands is spilled.
fn any_spilled(func: &Function, plan: &Plan<'_>, operands: &[Value]) -> bool
    requires { EachIndex operands.now (λ k. slice_index operands.now k < length func.now.values) }
    ensures none { result ≡ false → needs plan.now (map (resolved func.now) operands.now) ≡ [] }
{
    for operand in operands {
        if plan.is_spilled(func.resolve_aliases(*operand)) {
            return true;
        }
    }
    false
}

// Whether one of these edges passes a spilled value.
fn any_passed(func: &Function, plan: &Plan<'_>, edges: &[BlockCall]) -> bool
    requires { All (EdgeExists func.now) edges.now }
    ensures none { result ≡ false → needs plan.now (edge_values func.now edges.now) ≡ [] }
{
    for edge in edges {
        if passes_spilled(func, plan, edge.args.as_slice()) {
            return true;
        }
    }
    false
}

/// Whether one of these arguments is spilled.
pub(crate) fn passes_spilled(func: &Function, plan: &Plan<'_>, args: &[BlockArg]) -> bool
    requires { All (PassedExists func.now) args.now }
    ensures none { result ≡ false → needs plan.now (passed_values func.now args.now) ≡ [] }
{
    for arg in args {
        if is_spilled_argument(func, plan, *arg) {
            return true;
        }
    }
    false
}

// Whether an argument is spilled.
fn is_spilled_argument(func: &Function, plan: &Plan<'_>, arg: BlockArg) -> bool
    requires { PassedExists func.now arg }
    ensures none { result ≡ false → needs plan.now (passed_value func.now arg) ≡ [] }
{
    match arg {
        BlockArg::Value(value) => plan.is_spilled(func.resolve_aliases(value)),
        BlockArg::TryCallRet(_) | BlockArg::TryCallExn(_) => false,
    }
}

// Reads each operand anew.
fn reload_operands(
    func: &mut Function,
    slots: &mut StackSlots,
    plan: &Plan<'_>,
    inst: Inst,
) -> Result<(), BuildError>
    requires inst_exists { inst < length func.old.insts }
    requires plan { IsPlan func.old plan.now }
    requires slots { KnowsSlots func.old slots.old }
    ensures ok { OnOk result (GoesOn (length func.old.blocks)
        func.old slots.old func.new slots.new) }
    ensures edges { OnOk result (destinations (inst_at func.new inst).shape
        ≡ destinations (inst_at func.old inst).shape) }
    ensures acts { OnOk result (Acts plan.now inst func.old slots.old func.new slots.new
        (needs plan.now (operand_values func.old inst))) }
    ensures reads { OnOk result
        (RereadsOperands plan.now inst func.old slots.old func.new slots.new) }
    ensures full { result ≡ Err BuildError.Full → IsFull func.new }
    ensures never_failed { result ≢ Err BuildError.Failed }
{
    func.law_consistent();
    for place in 0..func.inst_data(inst).arguments().len() {
        let operand = func.inst_data(inst).arguments()[place];
        let value = read(func, slots, plan, inst, operand)?;
        func.replace_operand(inst, place, value);
    }
    Ok(())
}

// Reads each argument of an edge anew.
fn reload_arguments(
    func: &mut Function,
    slots: &mut StackSlots,
    plan: &Plan<'_>,
    inst: Inst,
    edge: usize,
) -> Result<(), BuildError>
    requires inst_exists { inst < length func.old.insts }
    requires plan { IsPlan func.old plan.now }
    requires slots { KnowsSlots func.old slots.old }
    requires edge_exists { edge < length (destinations (inst_at func.old inst).shape) }
    ensures ok { OnOk result (GoesOn (length func.old.blocks)
        func.old slots.old func.new slots.new) }
    ensures edges { OnOk result (length (destinations (inst_at func.new inst).shape)
        ≡ length (destinations (inst_at func.old inst).shape)) }
    ensures others { OnOk result ((k : ℕ) → k ≢ edge
        → edge_at (destinations (inst_at func.new inst).shape) k
        ≡ edge_at (destinations (inst_at func.old inst).shape) k) }
    ensures acts { OnOk result (Acts plan.now inst func.old slots.old func.new slots.new
        (needs plan.now (passed_values func.old
        (edge_at (destinations (inst_at func.old inst).shape) edge).args))) }
    ensures reads { OnOk result
        (RereadsEdge plan.now inst edge func.old slots.old func.new slots.new) }
    ensures full { result ≡ Err BuildError.Full → IsFull func.new }
    ensures never_failed { result ≢ Err BuildError.Failed }
{
    func.law_consistent();
    let count = func.inst_data(inst).branch_destination()[edge]
        .args
        .as_slice()
        .len();
    for place in 0..count {
        let arg = func.inst_data(inst).branch_destination()[edge]
            .args
            .as_slice()[place];
        if let BlockArg::Value(operand) = arg {
            let value = read(func, slots, plan, inst, operand)?;
            func.replace_branch_argument(inst, edge, place, value);
        }
    }
    Ok(())
}

// Makes each context of a try call what it stands for.
fn resolve_contexts(func: &mut Function, inst: Inst)
    requires { inst < length func.old.insts }
    ensures keeps { Keeps (length func.old.blocks) func.old func.new }
    ensures others { (i : ℕ) → i ≢ inst → inst_at func.new i ≡ inst_at func.old i }
    ensures tables { func.new.tables ≡ func.old.tables }
    ensures blocks { func.new.blocks ≡ func.old.blocks }
    ensures layout { func.new.layout ≡ func.old.layout }
    ensures resolves { ResolvesNames inst func.old func.new }
{
    for item in 0..item_count(func, inst) {
        if let Some(context) = context_at(func, inst, item) {
            let value = func.resolve_aliases(context);
            func.replace_context(inst, item, value);
        }
    }
}

// How many items the exception table of an instruction has.
fn item_count(func: &Function, inst: Inst) -> usize
    requires { inst < length func.now.insts }
    ensures { result ≡ length (items_of (inst_at func.now inst).shape) }
{
    match func.inst_data(inst).exception_targets() {
        Some(table) => table.items().len(),
        None => 0,
    }
}

// The context at an item of an instruction's exception table, if it is one.
fn context_at(func: &Function, inst: Inst, item: usize) -> Option<Value>
    requires inst_exists { inst < length func.now.insts }
    requires item_exists { item < length (items_of (inst_at func.now inst).shape) }
    ensures exists { IfSome result (λ value. value < length func.now.values) }
    ensures there { IfSome result (λ value. slice_get (items_of (inst_at func.now inst).shape) item
        ≡ Some (ExceptionItem.Context value)) }
{
    func.law_consistent();
    let table = func.inst_data(inst).exception_targets()?;
    context_of(&table.items()[item])
}

// The value that an item of an exception table names, if it is a context.
fn context_of(item: &ExceptionItem) -> Option<Value>
    ensures { IfSome result (λ value. item.now ≡ ExceptionItem.Context value) }
{
    match item {
        ExceptionItem::Context(value) => Some(*value),
        ExceptionItem::Tag(_) | ExceptionItem::Default => None,
    }
}
