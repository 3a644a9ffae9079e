//! A branch is moved from one block to another.
#![tactic(auto)]

use crate::support::{b, has_edges, has_operands};
use clif_instructions::insert_at::InsertAt;
use clif_ir::{BlockCall, Function, InstructionData, JumpTableData};
use clif_ssa::SSABuilder;
use clif_types::types::{I32, INVALID};
use clif_types::{Block, BuildError, EntityRef, Inst, SourceLoc, Value};
use std::alloc::Global;
use std::process::Abort;
use std::test::Fail;

// Edges to the blocks with these numbers, which pass nothing.
fn edges(rt: &impl Abort, alloc: Global, blocks: &[u32]) -> Result<Vec<BlockCall>, BuildError> {
    let mut edges = Vec::new(alloc);
    for block in blocks {
        edges.push(BlockCall::new(alloc, b(rt, *block), &[])?)?;
    }
    Ok(edges)
}

// The table `block1, [block1, block2, block1]`.
fn table(rt: &impl Abort, alloc: Global) -> Result<JumpTableData, BuildError> {
    let default = BlockCall::new(alloc, b(rt, 1), &[])?;
    let entries = edges(rt, alloc, &[1, 2, 1])?;
    JumpTableData::new(default, entries)
}

// Puts the branch at the end of a block.
fn insert(
    rt: &impl Abort,
    func: &mut Function,
    block: Block,
    shape: InstructionData,
) -> Result<Inst, Fail> {
    assert!(rt; block.index() < func.block_count());
    assert!(rt; has_operands(func, shape.arguments()));
    assert!(rt; has_edges(func, shape.branch_destination()));
    assert!(rt; func.has_contexts(&shape));
    assert!(rt; func.has_entries(&shape));
    let place = SourceLoc::new(1);
    Ok(func.insert_inst(block, InsertAt::Back, shape, INVALID, place)?)
}

// Declares that the branch leads to a block.
fn leads(rt: &impl Abort, ssa: &mut SSABuilder, block: Block, inst: Inst) -> Result<(), Fail> {
    assert!(rt; !ssa.is_sealed(block));
    ssa.declare_block_predecessor(block, inst)?;
    Ok(())
}

// Moves the branch, which was declared last at `from`.
fn moves(
    rt: &impl Abort,
    func: &mut Function,
    ssa: &mut SSABuilder,
    inst: Inst,
    from: Block,
    to: Block,
) -> Result<(), Fail> {
    assert!(rt; inst.index() < func.inst_count());
    assert!(rt; to.index() < func.block_count());
    assert!(rt; !ssa.is_sealed(from) && !ssa.is_sealed(to));
    assert!(rt; ssa.is_last_predecessor(from, inst));
    ssa.move_branch(func, inst, from, to)?;
    Ok(())
}

// The number of edges of an instruction that go to a block.
fn edges_to(rt: &impl Abort, func: &Function, inst: Inst, block: Block) -> usize {
    assert!(rt; inst.index() < func.inst_count());
    let edges = func.inst_data(inst).branch_destination();
    edges.iter().filter(|edge| edge.block == block).count()
}

// Makes three blocks, puts the branch at the end of the first, and declares that it leads to block1.
fn begins(rt: &impl Abort, func: &mut Function, ssa: &mut SSABuilder) -> Result<Inst, Fail> {
    for _ in 0..3 {
        let block = func.create_block()?;
        ssa.declare_block(block)?;
    }
    let entry = b(rt, 0);
    assert!(rt; entry.index() < func.block_count());
    let x = func.append_block_param(entry, I32)?;
    let table = table(rt, func.allocator())?;
    let branch = InstructionData::BranchTable { arg: x, table };
    let inst = insert(rt, func, entry, branch)?;
    leads(rt, ssa, b(rt, 1), inst)?;
    Ok(inst)
}

/// With the table `block1, [block1, block2, block1]`, a change from block1 to block2 makes all four edges go to block2,
/// which has the branch as its one predecessor then, and block1 has none.
#[test]
fn all_edges_move(rt: HostRuntime) -> Result<(), Fail> {
    let mut func = Function::new(rt.alloc());
    let mut ssa = SSABuilder::new(rt.alloc());
    let inst = begins(&rt, &mut func, &mut ssa)?;
    let (first, second) = (b(&rt, 1), b(&rt, 2));
    leads(&rt, &mut ssa, second, inst)?;
    moves(&rt, &mut func, &mut ssa, inst, first, second)?;
    assert!(rt; edges_to(&rt, &func, inst, second) == 4);
    assert!(rt; !ssa.has_any_predecessors(first));
    assert!(rt; ssa.is_last_predecessor(second, inst));
    // It leads there once: taken away, it doesn't lead there any more.
    assert!(rt; !ssa.is_sealed(second));
    ssa.remove_block_predecessor(second, inst);
    assert!(rt; !ssa.has_any_predecessors(second));
    Ok(())
}

/// Where both are one block nothing changes.
#[test]
fn to_the_same(rt: HostRuntime) -> Result<(), Fail> {
    let mut func = Function::new(rt.alloc());
    let mut ssa = SSABuilder::new(rt.alloc());
    let inst = begins(&rt, &mut func, &mut ssa)?;
    let first = b(&rt, 1);
    moves(&rt, &mut func, &mut ssa, inst, first, first)?;
    assert!(rt; edges_to(&rt, &func, inst, first) == 3);
    assert!(rt; ssa.is_last_predecessor(first, inst));
    Ok(())
}
