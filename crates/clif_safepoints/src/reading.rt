//! The instructions of a function's blocks, and the blocks to which these lead.
ghost use Rattle.std.specs.Prelude.{◌≡◌, ◌<◌, ◌++◌, length, IfOk, OnOk, IsOkUnless, EachIndex, slice_index};
ghost use Rattle.clif_instructions.specs.Edges.{targets};
ghost use Rattle.clif_safepoints.specs.Tables.{AreRows};
ghost use Rattle.clif_safepoints.specs.Order.{first_to_back};
ghost use Rattle.clif_safepoints.specs.Transfer.{insts_of, successors_of, targets_followed, targets_from};

use crate::lists::{BlockList, InstList};
use clif_ir::{BlockCall, Function, InstructionData};
use clif_types::{Block, BuildError, EntityRef, Inst};

/// The instructions of each block, by its number. The only error is `Memory`.
pub(crate) fn insts_by_block(func: &Function) -> Result<Vec<InstList>, BuildError>
    ensures ok { IfOk result (λ table. AreRows (length func.now.blocks) (insts_of func.now) table.items) }
    ensures memory_alone { IsOkUnless result BuildError.Memory }
{
    func.law_consistent();
    let mut table = Vec::new(func.allocator());
    for index in 0..func.block_count() {
        table.push(block_insts(func, Block::new(index))?)?;
    }
    Ok(table)
}

// The instructions of a block, in order. A block outside the layout has none.
fn block_insts(func: &Function, block: Block) -> Result<InstList, BuildError>
    requires { block < length func.now.blocks }
    ensures ok { IfOk result (λ insts. insts ≡ insts_of func.now block) }
    ensures memory_alone { IsOkUnless result BuildError.Memory }
{
    func.law_consistent();
    let mut insts = InstList::new(func.allocator());
    if !func.is_block_inserted(block) {
        return Ok(insts);
    }
    let mut next = func.first_inst(block);
    while let Some(inst) = next {
        insts.push(inst)?;
        next = func.next_inst(inst);
    }
    Ok(insts)
}

/// The blocks to which each block leads, by its number. The only error is `Memory`.
pub(crate) fn successors_by_block(
    func: &Function,
    insts: &[InstList],
) -> Result<Vec<BlockList>, BuildError>
    requires { AreRows (length func.now.blocks) (insts_of func.now) insts.now }
    ensures ok { IfOk result (λ table. AreRows (length func.now.blocks) (successors_of func.now) table.items) }
    ensures memory_alone { IsOkUnless result BuildError.Memory }
{
    func.law_consistent();
    let mut table = Vec::new(func.allocator());
    for row in insts {
        table.push(targets_of(func, row.as_slice())?)?;
    }
    Ok(table)
}

// The targets of the edges of instructions, in the order in which a search follows them.
fn targets_of(func: &Function, insts: &[Inst]) -> Result<BlockList, BuildError>
    requires { EachIndex insts.now (λ k. slice_index insts.now k < length func.now.insts) }
    ensures ok { IfOk result (λ blocks. blocks ≡ targets_from func.now insts.now) }
    ensures memory_alone { IsOkUnless result BuildError.Memory }
{
    let mut blocks = BlockList::new(func.allocator());
    for inst in insts {
        push_followed(func.inst_data(*inst), &mut blocks)?;
    }
    Ok(blocks)
}

// Puts the targets of an instruction's edges at the end, in that order.
fn push_followed(shape: &InstructionData, blocks: &mut BlockList) -> Result<(), BuildError>
    ensures ok { OnOk result (blocks.new ≡ blocks.old ++ targets_followed shape.now) }
    ensures memory_alone { IsOkUnless result BuildError.Memory }
{
    let edges = shape.branch_destination();
    match shape.exception_targets() {
        Some(_) => push_normal_last(edges, blocks),
        None => push_targets(edges, blocks),
    }
}

// Puts the targets of edges at the end, that of the first edge after those of the others.
fn push_normal_last(edges: &[BlockCall], blocks: &mut BlockList) -> Result<(), BuildError>
    ensures ok { OnOk result (blocks.new ≡ blocks.old ++ first_to_back (targets edges.now)) }
    ensures memory_alone { IsOkUnless result BuildError.Memory }
{
    let Some((normal, others)) = edges.split_first() else {
        return Ok(());
    };
    push_targets(others, blocks)?;
    blocks.push(normal.block)
}

// Puts the targets of edges at the end.
fn push_targets(edges: &[BlockCall], blocks: &mut BlockList) -> Result<(), BuildError>
    ensures ok { OnOk result (blocks.new ≡ blocks.old ++ targets edges.now) }
    ensures memory_alone { IsOkUnless result BuildError.Memory }
{
    for edge in edges {
        blocks.push(edge.block)?;
    }
    Ok(())
}
