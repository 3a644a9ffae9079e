//! The work list: the sets of what is live at the fronts of blocks grow until none has to.
ghost use Rattle.std.specs.Prelude.{◌≡◌, ◌<◌, length, All, OnOk, IfOk, IsOkUnless};
ghost use Rattle.clif_safepoints.specs.Fronts.{AreEmpty, IsFinished, IsStart};
ghost use Rattle.clif_safepoints.specs.Graph.{IsClosed};
ghost use Rattle.clif_safepoints.specs.Sets.{AreSets};
ghost use Rattle.clif_safepoints.specs.Tables.{AreRows};
ghost use Rattle.clif_safepoints.specs.Transfer.{insts_of, successors_of};

use crate::graph::predecessors;
use crate::lists::{BlockList, InstList};
use crate::recorded::Recorded;
use crate::scan::scan_block;
use clif_ir::Function;
use clif_number_sets::number_row::NumberRow;
use clif_number_sets::number_set::NumberSet;
use clif_types::{Block, BuildError, EntityRef, Inst};
use std::alloc::Global;

/// What is live at the front of each block so far, by its number, and the blocks that wait to be handled.
#[derive(Drop)]
pub(crate) struct WorkList {
    /// For each block the places of the recorded values.
    pub(crate) sets: Vec<NumberRow>,
    // The blocks that wait, the next one last, each once.
    pub(crate) stack: Vec<Block>,
    // The same blocks.
    pub(crate) waits: NumberSet,
    /// How many blocks were handled.
    pub(crate) handled: u128,
}

impl WorkList {
    ghost use Rattle.std.specs.Prelude.{◌≡◌, ◌<◌, length, All, OnOk, IsOkUnless, slice_index_or, []};
    ghost use Rattle.clif_safepoints.specs.Progress.{IsHandled, IsTaken, progress_of, pushed, pushed_all};

    // Takes the next block.
    fn pop(&mut self) -> Option<Block>
        requires { All (λ block. block < length self.old.waits) self.old.stack.items }
        ensures { IsTaken (progress_of self.old) result (progress_of self.new) }
    {
        let block = self.stack.pop()?;
        self.waits.remove(block.index());
        Some(block)
    }

    // Lets a block wait, as the next one, unless it waits. The only error is `Memory`.
    fn push(&mut self, block: Block) -> Result<(), BuildError>
        requires { block < length self.old.waits }
        ensures ok { OnOk result (progress_of self.new ≡ pushed (progress_of self.old) block) }
        ensures size { length self.new.waits ≡ length self.old.waits }
        ensures memory_alone { IsOkUnless result BuildError.Memory }
    {
        if self.waits.contains(block.index()) {
            return Ok(());
        }
        self.stack.push(block)?;
        self.waits.insert(block.index());
        Ok(())
    }

    // Lets these blocks wait. The only error is `Memory`.
    fn push_all(&mut self, blocks: &[Block]) -> Result<(), BuildError>
        requires { All (λ block. block < length self.old.waits) blocks.now }
        ensures ok { OnOk result (progress_of self.new ≡ pushed_all (progress_of self.old) blocks.now) }
        ensures memory_alone { IsOkUnless result BuildError.Memory }
    {
        for block in blocks {
            self.push(*block)?;
        }
        Ok(())
    }

    // Handles a block, where `live` is for its scan. The only error is `Memory`.
    fn handle(
        &mut self,
        func: &Function,
        recorded: &Recorded<'_>,
        block: Block,
        insts: &[Inst],
        sources: &[Block],
        live: &mut NumberSet,
    ) -> Result<(), BuildError>
        requires exists { block < length func.now.blocks }
        requires insts { insts.now ≡ insts_of func.now block }
        requires sets { AreSets (length func.now.blocks) (length recorded.now) self.old.sets.items }
        requires waits { length self.old.waits ≡ length func.now.blocks }
        requires sources { All (λ source. source < length func.now.blocks) sources.now }
        requires live { length live.old ≡ length recorded.now }
        ensures ok { OnOk result (IsHandled func.now recorded.now sources.now block
            (progress_of self.old) (progress_of self.new)) }
        ensures live { length live.new ≡ length recorded.now }
        ensures memory_alone { IsOkUnless result BuildError.Memory }
    {
        scan_block(func, recorded, self.sets.as_slice(), block, insts, live);
        // It never comes near its greatest number.
        self.handled = self.handled.saturating_add(1);
        if self.sets[block.index()].add_all(live)? {
            self.push_all(sources)?;
        }
        Ok(())
    }
}

/// Finds what is live at the front of each block. `order` has the blocks that are reached: those in front are handled
/// first. The only error is `Memory`.
pub(crate) fn live_ins(
    func: &Function,
    recorded: &Recorded<'_>,
    insts: &[InstList],
    successors: &[BlockList],
    order: &[Block],
) -> Result<WorkList, BuildError>
    requires insts { AreRows (length func.now.blocks) (insts_of func.now) insts.now }
    requires successors { AreRows (length func.now.blocks) (successors_of func.now) successors.now }
    requires closed { IsClosed successors.now }
    requires order { All (λ block. block < length func.now.blocks) order.now }
    ensures ok { IfOk result (λ work. IsFinished func.now recorded.now order.now work.sets.items work.handled) }
    ensures memory_alone { IsOkUnless result BuildError.Memory }
{
    let alloc = func.allocator();
    let source_lists = predecessors(alloc, order, successors)?;
    let sources = source_lists.as_slice();
    let mut work = start(alloc, func.block_count(), recorded.len(), order)?;
    let mut live = NumberSet::new(alloc, recorded.len())?;
    while let Some(block) = work.pop() {
        let number = block.index();
        let own_insts = insts[number].as_slice();
        let own_sources = sources[number].as_slice();
        work.handle(func, recorded, block, own_insts, own_sources, &mut live)?;
    }
    Ok(work)
}

// The work list of so many blocks in which these wait, the first one as the next, and nothing is live.
fn start(
    alloc: Global,
    blocks: usize,
    places: usize,
    order: &[Block],
) -> Result<WorkList, BuildError>
    requires { All (λ block. block < blocks) order.now }
    ensures ok { IfOk result (λ work.
        IsStart blocks places order.now work.sets.items work.stack.items work.waits × (work.handled ≡ 0)) }
    ensures memory_alone { IsOkUnless result BuildError.Memory }
{
    let sets = empty_sets(alloc, blocks, places)?;
    let mut waits = NumberSet::new(alloc, blocks)?;
    let mut stack = Vec::new(alloc);
    for place in (0..order.len()).rev() {
        let block = order[place];
        stack.push(block)?;
        waits.insert(block.index());
    }
    Ok(WorkList {
        sets,
        stack,
        waits,
        handled: 0,
    })
}

// So many empty sets of so many places.
fn empty_sets(alloc: Global, count: usize, places: usize) -> Result<Vec<NumberRow>, BuildError>
    ensures ok { IfOk result (λ sets. AreEmpty count places sets.items) }
    ensures memory_alone { IsOkUnless result BuildError.Memory }
{
    let mut sets = Vec::new(alloc);
    for _number in 0..count {
        sets.push(NumberRow::new(alloc, places))?;
    }
    Ok(sets)
}
