//! The blocks that are reached, in post-order, and from where.
ghost use Rattle.std.specs.Prelude.{◌≡◌, ◌<◌, ◌==◌, ◌++◌, [], length, map, reverse, All, IfSome, IfOk, OnOk, IsOkUnless};
ghost use Rattle.std.specs.List.{filter};
ghost use Rattle.clif_safepoints.specs.Graph.{IsClosed, IsOrder, leads_to, sources_of};
ghost use Rattle.clif_safepoints.specs.Tables.{AreRows};
ghost use Rattle.clif_safepoints.specs.Visits.{entered};

use crate::lists::BlockList;
use clif_number_sets::number_set::NumberSet;
use clif_types::{Block, BuildError, EntityRef};
use std::alloc::Global;

/// What is still to be done on the way through the graph.
#[derive(Clone, Copy, Drop)]
enum Visit {
    /// To enter a block, unless that was done.
    Enter(Block),
    /// To leave a block, after all that were entered from it.
    Leave(Block),
}

/// The blocks that are reached from the entry, each once, as a depth-first search leaves them that follows the first edge
/// of a block first. The only error is `Memory`.
pub(crate) fn post_order(
    alloc: Global,
    entry: Option<Block>,
    successors: &[BlockList],
) -> Result<Vec<Block>, BuildError>
    requires entry_exists { IfSome entry (λ block. block < length successors.now) }
    requires closed { IsClosed successors.now }
    ensures ok { IfOk result (λ order. IsOrder successors.now entry order.items) }
    ensures memory_alone { IsOkUnless result BuildError.Memory }
{
    let mut order = Vec::new(alloc);
    let Some(entry) = entry else {
        return Ok(order);
    };
    let mut seen = NumberSet::new(alloc, successors.len())?;
    let mut visits = Vec::new(alloc);
    visits.push(Visit::Enter(entry))?;
    while let Some(visit) = visits.pop() {
        match visit {
            Visit::Leave(block) => order.push(block)?,
            Visit::Enter(block) => {
                let number = block.index();
                if !seen.contains(number) {
                    seen.insert(number);
                    visits.push(Visit::Leave(block))?;
                    enter_each(successors[number].as_slice(), &mut visits)?;
                }
            }
        }
    }
    Ok(order)
}

// Puts the visit of each of these blocks on the stack, that of the first one last, so that it is taken first.
fn enter_each(blocks: &[Block], visits: &mut Vec<Visit>) -> Result<(), BuildError>
    ensures ok { OnOk result (visits.new.items ≡ visits.old.items ++ entered (reverse blocks.now)) }
    ensures memory_alone { IsOkUnless result BuildError.Memory }
{
    for place in (0..blocks.len()).rev() {
        visits.push(Visit::Enter(blocks[place]))?;
    }
    Ok(())
}

/// For each block the blocks of `order` that lead to it, one as often as it does. The only error is `Memory`.
pub(crate) fn predecessors(
    alloc: Global,
    order: &[Block],
    successors: &[BlockList],
) -> Result<Vec<BlockList>, BuildError>
    requires exist { All (λ block. block < length successors.now) order.now }
    requires closed { IsClosed successors.now }
    ensures ok { IfOk result (λ sources.
        AreRows (length successors.now) (sources_of successors.now order.now) sources.items) }
    ensures memory_alone { IsOkUnless result BuildError.Memory }
{
    let mut sources = empty_lists(alloc, successors.len())?;
    for block in order {
        let targets = successors[block.index()].as_slice();
        add_source(*block, targets, &mut sources)?;
    }
    Ok(sources)
}

// So many empty lists.
fn empty_lists(alloc: Global, count: usize) -> Result<Vec<BlockList>, BuildError>
    ensures ok { IfOk result (λ lists. AreRows count (λ number. []) lists.items) }
    ensures memory_alone { IsOkUnless result BuildError.Memory }
{
    let mut lists = Vec::new(alloc);
    for _number in 0..count {
        lists.push(BlockList::new(alloc))?;
    }
    Ok(lists)
}

// Puts a block at the end of the list of each of these blocks, as often as that is one of them.
fn add_source(
    block: Block,
    targets: &[Block],
    sources: &mut Vec<BlockList>,
) -> Result<(), BuildError>
    requires { All (λ target. target < length sources.old.items) targets.now }
    ensures ok { OnOk result (AreRows (length sources.old.items)
        (λ target. leads_to sources.old.items target
        ++ map (λ x. block) (filter (λ x. x == target) targets.now))
        sources.new.items) }
    ensures memory_alone { IsOkUnless result BuildError.Memory }
{
    for target in targets {
        sources[target.index()].push(block)?;
    }
    Ok(())
}
