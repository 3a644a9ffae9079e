//! A plain search over paths: one instruction and one value at a time. An instruction is the place before it on a path.
#![tactic(auto)]

ghost use Rattle.std.specs.Prelude.{◌<◌, length};

use clif_ir::{BlockArg, BlockCall, Function, InstructionData};
use clif_types::{Block, EntityRef, Inst, Value};
use std::process::Abort;
use std::test::Fail;

/// More places than a search of these small functions goes to: no more than two follow each instruction.
const MOST_STEPS: usize = 1000;

/// Asserts that an instruction exists.
pub fn asserts_inst(rt: &impl Abort, func: &Function, inst: Inst)
    ensures { inst < length func.now.insts }
{
    assert!(rt; inst.index() < func.inst_count());
}

/// Asserts that a block exists.
pub fn asserts_block(rt: &impl Abort, func: &Function, block: Block)
    ensures { block < length func.now.blocks }
{
    assert!(rt; block.index() < func.block_count());
}

/// The value that a value stands for.
pub fn resolved(rt: &impl Abort, func: &Function, value: Value) -> Value {
    assert!(rt; value.index() < func.value_count());
    func.resolve_aliases(value)
}

/// What an instruction does.
pub fn shape_of<'a>(rt: &impl Abort, func: &'a Function, inst: Inst) -> &'a InstructionData {
    asserts_inst(rt, func, inst);
    func.inst_data(inst)
}

// Whether one of these values stands for the value.
fn is_named(rt: &impl Abort, func: &Function, names: &[Value], value: Value) -> bool {
    for name in names {
        if resolved(rt, func, *name) == value {
            return true;
        }
    }
    false
}

/// Whether an instruction has the value as an operand.
pub fn is_used(rt: &impl Abort, func: &Function, inst: Inst, value: Value) -> bool {
    is_named(rt, func, shape_of(rt, func, inst).arguments(), value)
}

// Whether an edge passes the value.
fn passes(rt: &impl Abort, func: &Function, edge: &BlockCall, value: Value) -> bool {
    for arg in edge.args.as_slice() {
        if let BlockArg::Value(passed) = *arg {
            if resolved(rt, func, passed) == value {
                return true;
            }
        }
    }
    false
}

/// Whether one of an instruction's edges passes the value.
pub fn is_passed(rt: &impl Abort, func: &Function, inst: Inst, value: Value) -> bool {
    for edge in shape_of(rt, func, inst).branch_destination() {
        if passes(rt, func, edge, value) {
            return true;
        }
    }
    false
}

/// Whether an instruction defines the value.
pub fn defines(rt: &impl Abort, func: &Function, inst: Inst, value: Value) -> bool {
    asserts_inst(rt, func, inst);
    func.inst_results(inst).contains(&value)
}

// Goes on behind an instruction in its block.
fn go_on(rt: &impl Abort, func: &Function, inst: Inst, ahead: &mut Vec<Inst>) -> Result<(), Fail> {
    asserts_inst(rt, func, inst);
    if let Some(next) = func.next_inst(inst) {
        ahead.push(next)?;
    }
    Ok(())
}

// Goes into a block, unless its parameters define the value.
fn enter(
    rt: &impl Abort,
    func: &Function,
    block: Block,
    value: Option<&Value>,
    ahead: &mut Vec<Inst>,
) -> Result<(), Fail> {
    asserts_block(rt, func, block);
    if let Some(value) = value {
        if func.block_params(block).contains(value) {
            return Ok(());
        }
    }
    if let Some(first) = func.first_inst(block) {
        ahead.push(first)?;
    }
    Ok(())
}

/// Goes to all places that follow an instruction, but for blocks whose parameters define the value.
pub fn follow(
    rt: &impl Abort,
    func: &Function,
    inst: Inst,
    value: Option<&Value>,
    ahead: &mut Vec<Inst>,
) -> Result<(), Fail> {
    go_on(rt, func, inst, ahead)?;
    for edge in shape_of(rt, func, inst).branch_destination() {
        enter(rt, func, edge.block, value, ahead)?;
    }
    Ok(())
}

/// The instructions on paths from the entry.
pub fn reached(rt: &impl Abort, func: &Function) -> Result<Vec<Inst>, Fail> {
    let mut seen = Vec::new(func.allocator());
    let mut ahead = Vec::new(func.allocator());
    if let Some(entry) = func.entry_block() {
        enter(rt, func, entry, None, &mut ahead)?;
    }
    for _ in 0..MOST_STEPS {
        let Some(inst) = ahead.pop() else { break };
        if !seen.contains(&inst) {
            seen.push(inst)?;
            follow(rt, func, inst, None, &mut ahead)?;
        }
    }
    assert!(rt; ahead.is_empty());
    Ok(seen)
}

/// Whether some path from behind an instruction comes to a use of a value before a definition, where the instruction
/// doesn't define it.
pub fn is_live_across(
    rt: &impl Abort,
    func: &Function,
    inst: Inst,
    value: Value,
) -> Result<bool, Fail> {
    if defines(rt, func, inst, value) {
        return Ok(false);
    }
    if is_passed(rt, func, inst, value) {
        return Ok(true);
    }
    let mut ahead = Vec::new(func.allocator());
    follow(rt, func, inst, Some(&value), &mut ahead)?;
    comes_to_use(rt, func, ahead, value)
}

/// Whether some path from the first instruction of a block on comes to a use of a value before a definition.
pub fn is_live_at_front(
    rt: &impl Abort,
    func: &Function,
    block: Block,
    value: Value,
) -> Result<bool, Fail> {
    let mut ahead = Vec::new(func.allocator());
    enter(rt, func, block, None, &mut ahead)?;
    comes_to_use(rt, func, ahead, value)
}

// Whether some path from before one of these instructions on comes to a use of a value before a definition.
fn comes_to_use(
    rt: &impl Abort,
    func: &Function,
    mut ahead: Vec<Inst>,
    value: Value,
) -> Result<bool, Fail> {
    let mut seen = Vec::new(func.allocator());
    for _ in 0..MOST_STEPS {
        let Some(inst) = ahead.pop() else { break };
        if seen.contains(&inst) {
            continue;
        }
        seen.push(inst)?;
        if is_used(rt, func, inst, value) {
            return Ok(true);
        }
        if defines(rt, func, inst, value) {
            continue;
        }
        if is_passed(rt, func, inst, value) {
            return Ok(true);
        }
        follow(rt, func, inst, Some(&value), &mut ahead)?;
    }
    assert!(rt; ahead.is_empty());
    Ok(false)
}

// Puts the targets of an instruction's edges at the end: of a try call the normal one last.
fn push_in_order(shape: &InstructionData, targets: &mut Vec<Block>) -> Result<(), Fail> {
    let late = match shape {
        InstructionData::TryCall { .. } => 1,
        _ => 0,
    };
    let edges = shape.branch_destination();
    for edge in edges.iter().skip(late) {
        targets.push(edge.block)?;
    }
    for edge in edges.iter().take(late) {
        targets.push(edge.block)?;
    }
    Ok(())
}

// The blocks to which a block leads, with repeats, in the order in which a search follows its edges.
fn targets_in_order(rt: &impl Abort, func: &Function, block: Block) -> Result<Vec<Block>, Fail> {
    asserts_block(rt, func, block);
    let mut targets = Vec::new(func.allocator());
    let mut next = func.first_inst(block);
    for _ in 0..MOST_STEPS {
        let Some(inst) = next else { break };
        push_in_order(shape_of(rt, func, inst), &mut targets)?;
        asserts_inst(rt, func, inst);
        next = func.next_inst(inst);
    }
    assert!(rt; next.is_none());
    Ok(targets)
}

// A block that was entered, and how many of its edges were followed.
#[derive(Drop)]
struct Open {
    block: Block,
    followed: usize,
}

/// The blocks in the order in which a depth-first search from the entry leaves them.
pub fn depth_first(rt: &impl Abort, func: &Function) -> Result<Vec<Block>, Fail> {
    let mut seen = Vec::new(func.allocator());
    let mut open = Vec::new(func.allocator());
    let mut order = Vec::new(func.allocator());
    if let Some(entry) = func.entry_block() {
        seen.push(entry)?;
        open.push(Open {
            block: entry,
            followed: 0,
        })?;
    }
    for _ in 0..MOST_STEPS {
        let Some(Open { block, followed }) = open.pop() else {
            break
        };
        let targets = targets_in_order(rt, func, block)?;
        let Some(target) = targets.get(followed) else {
            order.push(block)?;
            continue;
        };
        open.push(Open {
            block,
            followed: followed.saturating_add(1),
        })?;
        if !seen.contains(target) {
            seen.push(*target)?;
            open.push(Open {
                block: *target,
                followed: 0,
            })?;
        }
    }
    assert!(rt; open.is_empty());
    Ok(order)
}
