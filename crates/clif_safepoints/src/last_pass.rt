//! The last pass: the values that are live across each call.
ghost use Rattle.std.specs.Prelude.{◌≡◌, ◌<◌, ◌||◌, ◌∷◌, ◌++◌, if◌then◌else◌, length, All, EachIndex, OnOk, IfOk, IsOkUnless, slice_index, slice_set, []};
ghost use Rattle.clif_instructions.specs.Instruction.{is_call, operands};
ghost use Rattle.clif_instructions.specs.Members.{Once};
ghost use Rattle.clif_ir.specs.Body.{inst_at};
ghost use Rattle.clif_safepoints.specs.FrontTables.{AreFronts, tables_of};
ghost use Rattle.clif_safepoints.specs.LastPass.{IsListedBy, IsPut, IsRecorded, IsRow};
ghost use Rattle.clif_number_sets.specs.Sets.{IsSet, is_in};
ghost use Rattle.clif_safepoints.specs.Sets.{AreSets, in_set_of};
ghost use Rattle.clif_safepoints.specs.Tables.{AreRows};
ghost use Rattle.clif_safepoints.specs.Transfer.{insts_of, is_live_before, is_live_behind, names};

use crate::fronts::Fronts;
use crate::lists::InstList;
use crate::recorded::Recorded;
use crate::scan::{step_before, step_behind};
use clif_ir::{Function, InstructionData, ValueList};
use clif_number_sets::number_row::NumberRow;
use clif_number_sets::number_set::NumberSet;
use clif_types::{Block, BuildError, EntityRef, Inst};
use std::alloc::Global;

/// What the last pass puts down.
#[derive(Drop)]
pub(crate) struct Passed {
    /// For each instruction, by its number, the values that are live across it, if it is a call.
    pub(crate) across: Vec<ValueList>,
    /// The values that are live at the front of each block.
    pub(crate) fronts: Fronts,
}

/// What is live across the calls of these blocks, and at the blocks' fronts. The only error is `Memory`.
pub(crate) fn last_pass(
    func: &Function,
    recorded: &Recorded<'_>,
    live_ins: &[NumberRow],
    insts: &[InstList],
    order: &[Block],
) -> Result<Passed, BuildError>
    requires insts { AreRows (length func.now.blocks) (insts_of func.now) insts.now }
    requires sets { AreSets (length func.now.blocks) (length recorded.now) live_ins.now }
    requires order { All (λ block. block < length func.now.blocks) order.now }
    ensures across { IfOk result (λ passed.
        IsListedBy func.now recorded.now live_ins.now order.now passed.across.items) }
    ensures fronts { IfOk result (λ passed.
        AreFronts func.now recorded.now live_ins.now order.now (tables_of passed.fronts)) }
    ensures memory_alone { IsOkUnless result BuildError.Memory }
{
    func.law_consistent();
    let alloc = func.allocator();
    let mut across = no_values(alloc, func.inst_count())?;
    let mut fronts = Fronts::new(alloc, func.block_count())?;
    let mut live = NumberSet::new(alloc, recorded.len())?;
    for block in order {
        let own_insts = insts[block.index()].as_slice();
        record_block(func, recorded, live_ins, own_insts, &mut live, &mut across)?;
        fronts.put(func, recorded, *block, &mut live)?;
    }
    Ok(Passed { across, fronts })
}

/// So many empty lists of values. The only error is `Memory`.
pub(crate) fn no_values(alloc: Global, count: usize) -> Result<Vec<ValueList>, BuildError>
    ensures ok { IfOk result (λ lists. AreRows count (λ number. []) lists.items) }
    ensures memory_alone { IsOkUnless result BuildError.Memory }
{
    let mut lists = Vec::new(alloc);
    for _number in 0..count {
        lists.push(ValueList::new(alloc))?;
    }
    Ok(lists)
}

// Puts down the values for each call of a block, and makes `live` what is live before its first instruction.
fn record_block(
    func: &Function,
    recorded: &Recorded<'_>,
    live_ins: &[NumberRow],
    insts: &[Inst],
    live: &mut NumberSet,
    across: &mut Vec<ValueList>,
) -> Result<(), BuildError>
    requires exist { EachIndex insts.now (λ k. slice_index insts.now k < length func.now.insts) }
    requires once { Once insts.now }
    requires sets { AreSets (length func.now.blocks) (length recorded.now) live_ins.now }
    requires live { length live.old ≡ length recorded.now }
    requires across { length across.old.items ≡ length func.now.insts }
    ensures ok { OnOk result (IsRecorded func.now recorded.now live_ins.now insts.now
        across.old.items across.new.items) }
    ensures before { OnOk result (IsSet (length recorded.now)
        (λ place. is_live_before func.now (in_set_of live_ins.now place)
        (slice_index recorded.now place) insts.now)
        live.new) }
    ensures memory_alone { IsOkUnless result BuildError.Memory }
{
    live.clear();
    for place in (0..insts.len()).rev() {
        record_inst(func, recorded, live_ins, insts[place], live, across)?;
    }
    Ok(())
}

// Puts down the values for an instruction, if it is a call, and makes `live` what is live before it.
fn record_inst(
    func: &Function,
    recorded: &Recorded<'_>,
    live_ins: &[NumberRow],
    inst: Inst,
    live: &mut NumberSet,
    across: &mut Vec<ValueList>,
) -> Result<(), BuildError>
    requires exists { inst < length func.now.insts }
    requires sets { AreSets (length func.now.blocks) (length recorded.now) live_ins.now }
    requires live { length live.old ≡ length recorded.now }
    requires across { length across.old.items ≡ length func.now.insts }
    ensures put { OnOk result (IsPut func.now recorded.now
        (λ place. is_live_behind func.now (in_set_of live_ins.now place)
        (slice_index recorded.now place) inst (is_in live.old place))
        inst across.old.items across.new.items) }
    ensures live { OnOk result (IsSet (length recorded.now)
        (λ place. names func.now (operands (inst_at func.now inst).shape) (slice_index recorded.now place)
        || is_live_behind func.now (in_set_of live_ins.now place)
        (slice_index recorded.now place) inst (is_in live.old place))
        live.new) }
    ensures memory_alone { IsOkUnless result BuildError.Memory }
{
    step_behind(func, recorded, live_ins, inst, live);
    put_values(func, recorded, inst, live, across)?;
    step_before(func, recorded, inst, live);
    Ok(())
}

// Puts down these values for an instruction, if it is a call.
fn put_values(
    func: &Function,
    recorded: &Recorded<'_>,
    inst: Inst,
    live: &NumberSet,
    across: &mut Vec<ValueList>,
) -> Result<(), BuildError>
    requires exists { inst < length func.now.insts }
    requires live { length live.now ≡ length recorded.now }
    requires across { length across.old.items ≡ length func.now.insts }
    ensures ok { OnOk result (IsPut func.now recorded.now (is_in live.now) inst across.old.items across.new.items) }
    ensures memory_alone { IsOkUnless result BuildError.Memory }
{
    if is_safepoint(func.inst_data(inst)) {
        let values = members(func.allocator(), recorded, live)?;
        set_row(across, inst, values);
    }
    Ok(())
}

// Makes a list the one of an instruction.
fn set_row(across: &mut Vec<ValueList>, inst: Inst, values: ValueList)
    requires { inst < length across.old.items }
    ensures { across.new.items ≡ slice_set across.old.items inst values }
{
    across[inst.index()] = values;
}

/// The members of a set of recorded values, by rising number. It takes time for them and for the words of the set. The only
/// error is `Memory`.
pub(crate) fn members(
    alloc: Global,
    recorded: &Recorded<'_>,
    live: &NumberSet,
) -> Result<ValueList, BuildError>
    requires { length live.now ≡ length recorded.now }
    ensures ok { IfOk result (λ values. IsRow recorded.now (is_in live.now) values) }
    ensures memory_alone { IsOkUnless result BuildError.Memory }
{
    recorded.law_rising();
    recorded.law_fits();
    let mut values = ValueList::new(alloc);
    let mut from = 0;
    while let Some(place) = live.next_from(from) {
        values.push(recorded.at(place))?;
        from = place + 1;
    }
    Ok(values)
}

// Whether a collector may run at an instruction.
fn is_safepoint(shape: &InstructionData) -> bool
    ensures { result ≡ is_call shape.now }
{
    matches!(
        shape,
        InstructionData::Call { .. }
            | InstructionData::CallIndirect { .. }
            | InstructionData::TryCall { .. }
            | InstructionData::TryCallIndirect { .. }
    )
}
