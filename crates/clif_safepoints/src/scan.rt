//! The scan of a block from its last instruction to its first.
ghost use Rattle.std.specs.Prelude.{◌≡◌, ◌<◌, ◌==◌, ◌||◌, ◌&&◌, not, length, EachIndex, All, slice_index};
ghost use Rattle.std.specs.List.{list_any};
ghost use Rattle.clif_instructions.specs.Instruction.{destinations, operands};
ghost use Rattle.clif_instructions.specs.Members.{stands_in};
ghost use Rattle.clif_ir.specs.Body.{inst_at, resolved};
ghost use Rattle.clif_ir.specs.Consistent.{EdgeExists, PassedExists};
ghost use Rattle.clif_number_sets.specs.Sets.{IsSet, is_in};
ghost use Rattle.clif_safepoints.specs.Sets.{AreSets, in_set_of};
ghost use Rattle.clif_safepoints.specs.Transfer.{argument_passes, edge_needs, insts_of, is_live_behind, is_live_in, names};

use crate::recorded::Recorded;
use clif_ir::{BlockArg, BlockCall, Function};
use clif_number_sets::number_row::NumberRow;
use clif_number_sets::number_set::NumberSet;
use clif_types::{Block, EntityRef, Inst, Value};

// Adds what a value resolves to, if that is recorded.
fn add_use(func: &Function, recorded: &Recorded<'_>, value: Value, live: &mut NumberSet)
    requires exists { value < length func.now.values }
    requires size { length live.old ≡ length recorded.now }
    ensures { IsSet (length recorded.now)
        (λ place. (resolved func.now value == slice_index recorded.now place) || is_in live.old place)
        live.new }
{
    recorded.law_rising();
    if let Some(place) = recorded.place_of(func.resolve_aliases(value)) {
        live.insert(place);
    }
}

// Adds what these values resolve to, as far as it is recorded.
fn add_uses(func: &Function, recorded: &Recorded<'_>, values: &[Value], live: &mut NumberSet)
    requires exist { EachIndex values.now (λ k. slice_index values.now k < length func.now.values) }
    requires size { length live.old ≡ length recorded.now }
    ensures { IsSet (length recorded.now)
        (λ place. names func.now values.now (slice_index recorded.now place) || is_in live.old place)
        live.new }
{
    for value in values {
        add_use(func, recorded, *value, live);
    }
}

// Takes a value away.
fn remove_def(recorded: &Recorded<'_>, value: Value, live: &mut NumberSet)
    requires size { length live.old ≡ length recorded.now }
    ensures { IsSet (length recorded.now)
        (λ place. not (value == slice_index recorded.now place) && is_in live.old place)
        live.new }
{
    recorded.law_rising();
    if let Some(place) = recorded.place_of(value) {
        live.remove(place);
    }
}

/// Takes these values away.
pub(crate) fn remove_defs(recorded: &Recorded<'_>, values: &[Value], live: &mut NumberSet)
    requires size { length live.old ≡ length recorded.now }
    ensures { IsSet (length recorded.now)
        (λ place. not (stands_in (slice_index recorded.now place) values.now) && is_in live.old place)
        live.new }
{
    for value in values {
        remove_def(recorded, *value, live);
    }
}

// Adds what an argument of an edge passes.
fn add_argument(func: &Function, recorded: &Recorded<'_>, arg: &BlockArg, live: &mut NumberSet)
    requires exists { PassedExists func.now arg.now }
    requires size { length live.old ≡ length recorded.now }
    ensures { IsSet (length recorded.now)
        (λ place. argument_passes func.now (slice_index recorded.now place) arg.now || is_in live.old place)
        live.new }
{
    match arg {
        BlockArg::Value(value) => add_use(func, recorded, *value, live),
        BlockArg::TryCallRet(_) | BlockArg::TryCallExn(_) => {}
    }
}

// Adds what the arguments of an edge pass.
fn add_arguments(func: &Function, recorded: &Recorded<'_>, args: &[BlockArg], live: &mut NumberSet)
    requires exist { All (PassedExists func.now) args.now }
    requires size { length live.old ≡ length recorded.now }
    ensures { IsSet (length recorded.now)
        (λ place. list_any (argument_passes func.now (slice_index recorded.now place)) args.now
        || is_in live.old place)
        live.new }
{
    for arg in args {
        add_argument(func, recorded, arg, live);
    }
}

// Adds what an edge passes, and what is live at the front of its target.
fn add_edge(
    func: &Function,
    recorded: &Recorded<'_>,
    live_ins: &[NumberRow],
    edge: &BlockCall,
    live: &mut NumberSet,
)
    requires exists { EdgeExists func.now edge.now }
    requires sets { AreSets (length func.now.blocks) (length recorded.now) live_ins.now }
    requires size { length live.old ≡ length recorded.now }
    ensures { IsSet (length recorded.now)
        (λ place. edge_needs func.now (in_set_of live_ins.now place) (slice_index recorded.now place) edge.now
        || is_in live.old place)
        live.new }
{
    add_arguments(func, recorded, edge.args.as_slice(), live);
    live.add_all(&live_ins[edge.block.index()]);
}

// Adds what edges pass, and what is live at the fronts of their targets.
fn add_edges(
    func: &Function,
    recorded: &Recorded<'_>,
    live_ins: &[NumberRow],
    edges: &[BlockCall],
    live: &mut NumberSet,
)
    requires exist { All (EdgeExists func.now) edges.now }
    requires sets { AreSets (length func.now.blocks) (length recorded.now) live_ins.now }
    requires size { length live.old ≡ length recorded.now }
    ensures { IsSet (length recorded.now)
        (λ place. list_any (edge_needs func.now (in_set_of live_ins.now place) (slice_index recorded.now place)) edges.now
        || is_in live.old place)
        live.new }
{
    for edge in edges {
        add_edge(func, recorded, live_ins, edge, live);
    }
}

/// From what is live behind an instruction in its block to what is live across it: what its edges need comes, and its
/// results go.
pub(crate) fn step_behind(
    func: &Function,
    recorded: &Recorded<'_>,
    live_ins: &[NumberRow],
    inst: Inst,
    live: &mut NumberSet,
)
    requires exists { inst < length func.now.insts }
    requires sets { AreSets (length func.now.blocks) (length recorded.now) live_ins.now }
    requires size { length live.old ≡ length recorded.now }
    ensures { IsSet (length recorded.now)
        (λ place. is_live_behind func.now (in_set_of live_ins.now place)
        (slice_index recorded.now place) inst (is_in live.old place))
        live.new }
{
    let edges = func.inst_data(inst).branch_destination();
    add_edges(func, recorded, live_ins, edges, live);
    remove_defs(recorded, func.inst_results(inst), live);
}

/// From what is live across an instruction to what is live before it: its operands come.
pub(crate) fn step_before(
    func: &Function,
    recorded: &Recorded<'_>,
    inst: Inst,
    live: &mut NumberSet,
)
    requires exists { inst < length func.now.insts }
    requires size { length live.old ≡ length recorded.now }
    ensures { IsSet (length recorded.now)
        (λ place. names func.now (operands (inst_at func.now inst).shape) (slice_index recorded.now place)
        || is_in live.old place)
        live.new }
{
    add_uses(func, recorded, func.inst_data(inst).arguments(), live);
}

/// Makes `live` what is live at the front of a block.
pub(crate) fn scan_block(
    func: &Function,
    recorded: &Recorded<'_>,
    live_ins: &[NumberRow],
    block: Block,
    insts: &[Inst],
    live: &mut NumberSet,
)
    requires exists { block < length func.now.blocks }
    requires insts { insts.now ≡ insts_of func.now block }
    requires sets { AreSets (length func.now.blocks) (length recorded.now) live_ins.now }
    requires size { length live.old ≡ length recorded.now }
    ensures { IsSet (length recorded.now)
        (λ place. is_live_in func.now (in_set_of live_ins.now place) block (slice_index recorded.now place))
        live.new }
{
    func.law_consistent();
    live.clear();
    for place in (0..insts.len()).rev() {
        let inst = insts[place];
        step_behind(func, recorded, live_ins, inst, live);
        step_before(func, recorded, inst, live);
    }
    remove_defs(recorded, func.block_params(block), live);
}
