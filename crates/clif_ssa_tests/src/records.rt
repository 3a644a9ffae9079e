//! The tables on which the construction stands: records, blocks, the blocks that a walk passes, and the stacks of a
//! look-up.
#![tactic(auto)]

use super::support::{b, i, v, var};
use clif_records::look_up::{Call, LookUp};
use clif_records::passed::PassedBlocks;
use clif_records::tables::{BlockTable, Pending, VariableTable};
use clif_records::{SideEffects, Variable};
use clif_types::Block;
use std::alloc::Global;
use std::process::Abort;
use std::test::Fail;

#[test]
fn numbers(rt: HostRuntime) -> Result<(), Fail> {
    let variable = Variable::new(7);
    assert!(rt; variable == Variable::from_u32(7));
    assert!(rt; variable.as_u32() == 7);
    assert!(rt; variable.index() == 7);
    Ok(())
}

#[test]
fn records(rt: HostRuntime) -> Result<(), Fail> {
    let mut table = VariableTable::new(rt.alloc());
    assert!(rt; table.is_empty());
    table.set(var(3), b(&rt, 5), v(&rt, 8))?;
    assert!(rt; table.get(var(3), b(&rt, 5)) == Some(v(&rt, 8)));
    assert!(rt; table.get(var(3), b(&rt, 4)).is_none());
    assert!(rt; table.get(var(5), b(&rt, 3)).is_none());
    assert!(rt; !table.is_empty());
    // A record that is replaced, and a look-up that is counted at it, are one record still.
    table.set(var(3), b(&rt, 5), v(&rt, 9))?;
    table.count_lookup(var(3), b(&rt, 5))?;
    assert!(rt; table.get(var(3), b(&rt, 5)) == Some(v(&rt, 9)));
    assert!(rt; table.records() == 1);
    table.set(var(3), b(&rt, 4), v(&rt, 8))?;
    assert!(rt; table.records() == 2);
    table.clear();
    assert!(rt; table.is_empty());
    assert!(rt; table.records() == 0);
    Ok(())
}

// The blocks with these numbers.
fn blocks_of(rt: &impl Abort, alloc: Global, numbers: &[u32]) -> Result<Vec<Block>, Fail> {
    let mut blocks = Vec::new(alloc);
    for number in numbers {
        blocks.push(b(rt, *number))?;
    }
    Ok(blocks)
}

// Asserts blocks.
fn are_blocks(rt: &impl Abort, found: &[Block], numbers: &[u32]) {
    assert!(rt; found.len() == numbers.len());
    for (block, number) in found.iter().zip(numbers.iter()) {
        assert!(rt; block.as_u32() == *number);
    }
}

#[test]
fn records_in_several_blocks(rt: HostRuntime) -> Result<(), Fail> {
    let mut table = VariableTable::new(rt.alloc());
    let blocks = blocks_of(&rt, rt.alloc(), &[2, 0, 1])?;
    table.set_each(var(0), blocks.as_slice(), b(&rt, 1), v(&rt, 8))?;
    assert!(rt; table.get(var(0), b(&rt, 0)) == Some(v(&rt, 8)));
    assert!(rt; table.get(var(0), b(&rt, 2)) == Some(v(&rt, 8)));
    assert!(rt; table.get(var(0), b(&rt, 1)).is_none());
    Ok(())
}

#[test]
fn look_ups_counted(rt: HostRuntime) -> Result<(), Fail> {
    let mut table = VariableTable::new(rt.alloc());
    table.count_lookup(var(1), b(&rt, 2))?;
    assert!(rt; table.lookups(var(1), b(&rt, 2)) == 1);
    assert!(rt; table.lookups(var(2), b(&rt, 1)) == 0);
    Ok(())
}

// Asserts which branches lead to a block.
fn leads(rt: &impl Abort, table: &BlockTable, block: u32, branches: &[u32]) {
    let found = table.predecessors(b(rt, block));
    assert!(rt; found.len() == branches.len());
    for (inst, number) in found.iter().zip(branches.iter()) {
        assert!(rt; inst.as_u32() == *number);
    }
}

// Takes a branch away, which leads to a block.
fn leads_no_more(rt: &impl Abort, table: &mut BlockTable, block: u32, branch: u32) {
    let (block, branch) = (b(rt, block), i(rt, branch));
    assert!(rt; table.predecessors(block).contains(&branch));
    table.remove_predecessor(block, branch);
}

#[test]
fn blocks(rt: HostRuntime) -> Result<(), Fail> {
    let mut table = BlockTable::new(rt.alloc());
    assert!(rt; table.is_empty());
    table.declare(b(&rt, 1))?;
    assert!(rt; table.len() == 2);
    for branch in [4, 6, 5] {
        table.declare_predecessor(b(&rt, 1), i(&rt, branch))?;
    }
    leads(&rt, &table, 1, &[4, 6, 5]);
    leads_no_more(&rt, &mut table, 1, 6);
    leads(&rt, &table, 1, &[4, 5]);
    leads(&rt, &table, 0, &[]);
    table.clear();
    assert!(rt; table.is_empty());
    Ok(())
}

// Lets a parameter wait in a block, which isn't sealed.
fn waits(
    rt: &impl Abort,
    table: &mut BlockTable,
    block: u32,
    variable: u8,
    param: u32,
) -> Result<(), Fail> {
    let block = b(rt, block);
    assert!(rt; !table.is_sealed(block));
    table.wait(block, var(variable), v(rt, param))?;
    Ok(())
}

#[test]
fn seals(rt: HostRuntime) -> Result<(), Fail> {
    let mut table = BlockTable::new(rt.alloc());
    table.declare_predecessor(b(&rt, 0), i(&rt, 4))?;
    assert!(rt; table.sealed_predecessors(b(&rt, 0)).is_empty());
    waits(&rt, &mut table, 0, 3, 8)?;
    let waited = table.seal(b(&rt, 0))?;
    let expected = Pending {
        variable: var(3),
        param: v(&rt, 8),
    };
    assert!(rt; waited.as_slice().first() == Some(&expected));
    assert!(rt; table.is_sealed(b(&rt, 0)));
    assert!(rt; table.sealed_predecessors(b(&rt, 0)).first() == Some(&i(&rt, 4)));
    Ok(())
}

// Passes a block that wasn't passed.
fn passes(rt: &impl Abort, passed: &mut PassedBlocks, block: u32) -> Result<(), Fail> {
    let block = b(rt, block);
    assert!(rt; !passed.contains(block));
    passed.push(block)?;
    Ok(())
}

#[test]
fn blocks_passed(rt: HostRuntime) -> Result<(), Fail> {
    let mut passed = PassedBlocks::new(rt.alloc());
    passes(&rt, &mut passed, 5)?;
    passes(&rt, &mut passed, 2)?;
    assert!(rt; passed.contains(b(&rt, 5)));
    assert!(rt; !passed.contains(b(&rt, 0)));
    are_blocks(&rt, passed.as_slice(), &[5, 2]);
    passed.clear();
    assert!(rt; !passed.contains(b(&rt, 5)));
    Ok(())
}

#[test]
fn calls(rt: HostRuntime) -> Result<(), Fail> {
    let mut branches = Vec::new(rt.alloc());
    for number in [4, 6] {
        branches.push(i(&rt, number))?;
    }
    let mut look_up = LookUp::new(rt.alloc());
    look_up.begin(branches.as_slice(), v(&rt, 8), b(&rt, 1))?;
    assert!(rt; look_up.next_call() == Some(Call::UseVar(i(&rt, 4))));
    assert!(rt; look_up.next_call() == Some(Call::UseVar(i(&rt, 6))));
    let finish = Call::FinishPredecessorsLookup(v(&rt, 8), b(&rt, 1));
    assert!(rt; look_up.next_call() == Some(finish));
    assert!(rt; look_up.next_call().is_none());
    Ok(())
}

#[test]
fn results(rt: HostRuntime) -> Result<(), Fail> {
    let (first, second) = (v(&rt, 4), v(&rt, 6));
    let mut look_up = LookUp::new(rt.alloc());
    look_up.push_result(first)?;
    look_up.push_result(second)?;
    let last = look_up.last_results(2);
    assert!(rt; last.len() == 2);
    assert!(rt; last.first() == Some(&first) && last.get(1) == Some(&second));
    look_up.drop_results(1);
    assert!(rt; look_up.take_result() == first);
    Ok(())
}

#[test]
fn zeros_told(rt: HostRuntime) -> Result<(), Fail> {
    let mut look_up = LookUp::new(rt.alloc());
    look_up.tell_zero(Some(b(&rt, 3)))?;
    look_up.tell_zero(None)?;
    are_blocks(&rt, look_up.take_zeros().as_slice(), &[3]);
    look_up.clear();
    assert!(rt; look_up.take_zeros().is_empty());
    Ok(())
}

#[test]
fn effects(rt: HostRuntime) -> Result<(), Fail> {
    let mut effects = SideEffects::new(rt.alloc());
    let mut later = SideEffects::new(rt.alloc());
    later.instructions_added_to_blocks.push(b(&rt, 3))?;
    effects.append(&later)?;
    are_blocks(&rt, effects.instructions_added_to_blocks.as_slice(), &[3]);
    Ok(())
}
