//! What is spilled of a function, where, and how many slots there are, by plain searches over the function as it was.
#![tactic(auto)]

use crate::paths::{
    asserts_block, asserts_inst, defines, depth_first, follow, is_passed, is_used, reached,
    resolved, shape_of,
};
use crate::random::{inst_at, is_call, value_at};
use crate::well_placed::type_of;
use clif_ir::function::ValueDef;
use clif_ir::{Function, InstructionData};
use clif_types::{Block, EntityRef, Inst, StackSlot, UserStackMapEntry, Value};
use std::process::Abort;
use std::test::Fail;

/// A function before it was spilled and after that.
#[derive(Drop)]
pub struct Spilled {
    pub seed: u64,
    pub before: Function,
    pub after: Function,
    /// The numbers of the recorded values, which rise.
    pub recorded: Vec<u32>,
}

// A spilled value and its slot.
#[derive(Clone, Copy)]
struct Home {
    value: Value,
    slot: StackSlot,
}

// A recorded value that is no alias, and before which instructions it is live, by their numbers.
#[derive(Drop)]
struct Life {
    value: Value,
    before: Vec<bool>,
}

impl Life {
    // Whether some way on from behind an instruction comes to a use before a definition, by what is known so far.
    fn is_behind(&self, rt: &impl Abort, func: &Function, inst: Inst) -> Result<bool, Fail> {
        if defines(rt, func, inst, self.value) {
            return Ok(false);
        }
        let mut ahead = Vec::new(func.allocator());
        follow(rt, func, inst, Some(&self.value), &mut ahead)?;
        let is_live = ahead.iter().any(|next| self.is_before(*next));
        Ok(is_live || is_passed(rt, func, inst, self.value))
    }

    fn is_before(&self, inst: Inst) -> bool {
        self.before.get(inst.index()).copied().unwrap_or(false)
    }

    // Finds more instructions before which it is live. The answer is whether there are any.
    fn grows(&mut self, rt: &impl Abort, func: &Function) -> Result<bool, Fail> {
        let mut is_new = false;
        for number in (0..func.inst_count()).rev() {
            let inst = inst_at(rt, number);
            if !self.is_before(inst)
                && (is_used(rt, func, inst, self.value) || self.is_behind(rt, func, inst)?)
            {
                is_new = true;
                if let Some(held) = self.before.get_mut(number) {
                    *held = true;
                }
            }
        }
        Ok(is_new)
    }
}

// Where a value is live.
fn life_of(rt: &impl Abort, func: &Function, value: Value) -> Result<Life, Fail> {
    let mut before = Vec::new(func.allocator());
    before.resize(func.inst_count(), false)?;
    let mut life = Life { value, before };
    for _ in 0..func.inst_count() {
        if !life.grows(rt, func)? {
            break;
        }
    }
    assert!(rt; !life.grows(rt, func)?);
    Ok(life)
}

// Where each recorded value is live, by rising number.
fn lives(rt: &impl Abort, spilled: &Spilled) -> Result<Vec<Life>, Fail> {
    let func = &spilled.before;
    let mut lives = Vec::new(func.allocator());
    for number in spilled.recorded.as_slice() {
        let value = value_at(rt, *number as usize);
        if resolved(rt, func, value) == value {
            lives.push(life_of(rt, func, value)?)?;
        }
    }
    Ok(lives)
}

// A call that is reached, and the values that are live across it.
#[derive(Drop)]
struct Safepoint {
    call: Inst,
    live: Vec<Value>,
}

// The calls that are reached.
fn safepoints(rt: &impl Abort, func: &Function, lives: &[Life]) -> Result<Vec<Safepoint>, Fail> {
    let mut points = Vec::new(func.allocator());
    for call in reached(rt, func)? {
        if is_call(shape_of(rt, func, call)) {
            let live = live_across(rt, func, lives, call)?;
            points.push(Safepoint { call, live })?;
        }
    }
    Ok(points)
}

fn live_across(
    rt: &impl Abort,
    func: &Function,
    lives: &[Life],
    call: Inst,
) -> Result<Vec<Value>, Fail> {
    let mut live = Vec::new(func.allocator());
    for life in lives {
        if life.is_behind(rt, func, call)? {
            live.push(life.value)?;
        }
    }
    Ok(live)
}

// Of these values those that live across some of these calls.
fn spilled_of(func: &Function, lives: Vec<Life>, points: &[Safepoint]) -> Result<Vec<Life>, Fail> {
    let mut spilled = Vec::new(func.allocator());
    for life in lives {
        if points.iter().any(|point| point.live.contains(&life.value)) {
            spilled.push(life)?;
        }
    }
    Ok(spilled)
}

// The slot whose address a value is, if it is one.
fn slot_of(rt: &impl Abort, func: &Function, address: Value) -> Option<StackSlot> {
    assert!(rt; address.index() < func.value_count());
    match func.value_def(address) {
        ValueDef::Result(inst, _) => match shape_of(rt, func, inst) {
            InstructionData::StackLoad { slot, .. } => Some(*slot),
            _ => None,
        },
        ValueDef::Param(..) => None,
    }
}

// What an instruction stores into a slot, and which.
fn home_of(rt: &impl Abort, func: &Function, inst: Inst) -> Option<Home> {
    let InstructionData::Store { args, .. } = shape_of(rt, func, inst) else {
        return None;
    };
    let [value, address] = *args;
    let slot = slot_of(rt, func, address)?;
    Some(Home { value, slot })
}

// What the instructions that came to a function store into slots.
fn homes(rt: &impl Abort, spilled: &Spilled) -> Result<Vec<Home>, Fail> {
    let func = &spilled.after;
    let mut homes = Vec::new(func.allocator());
    for number in spilled.before.inst_count()..func.inst_count() {
        if let Some(home) = home_of(rt, func, inst_at(rt, number)) {
            homes.push(home)?;
        }
    }
    Ok(homes)
}

// The slot into which a value is stored. It is stored once at most.
fn slot_for(rt: &impl Abort, homes: &[Home], value: Value) -> Option<StackSlot> {
    let mut slot = None;
    for home in homes {
        if home.value == value {
            assert!(rt; slot.is_none());
            slot = Some(home.slot);
        }
    }
    slot
}

// Asserts that a value is stored once, and answers where: in a slot of its own size that came to the function.
fn tells_home(rt: &impl Abort, spilled: &Spilled, homes: &[Home], value: Value) -> StackSlot {
    let slot = slot_for(rt, homes, value);
    assert!(rt; slot.is_some(), "{value} of seed {}", spilled.seed);
    let slot = slot.unwrap();
    assert!(rt; spilled.before.tables().stack_slot_count() <= slot.index());
    let bytes = type_of(rt, &spilled.before, value).bytes();
    let shape = spilled.after.tables().stack_slot(slot);
    assert!(rt; shape.is_some());
    let shape = *shape.unwrap();
    assert_eq!(rt; shape.size(), bytes, "{value} of seed {}", spilled.seed);
    assert_eq!(rt; shape.align(), bytes, "{value} of seed {}", spilled.seed);
    slot
}

// Asserts the stack map of an instruction that was there before: these values, in order.
fn tells_map(rt: &impl Abort, spilled: &Spilled, homes: &[Home], inst: Inst, live: &[Value]) {
    asserts_inst(rt, &spilled.after, inst);
    let entries = spilled.after.stack_map(inst);
    assert_eq!(rt;
        entries.len(),
        live.len(),
        "map of {inst} of seed {}",
        spilled.seed
    );
    for (entry, value) in entries.iter().zip(live) {
        let expected = UserStackMapEntry {
            ty: type_of(rt, &spilled.before, *value),
            slot: tells_home(rt, spilled, homes, *value),
            offset: 0,
        };
        assert!(rt;
            *entry == expected,
            "map of {inst} of seed {}",
            spilled.seed
        );
    }
}

// The values that are live across an instruction, if it is a call that is reached.
fn live_at<'a>(points: &'a [Safepoint], inst: Inst) -> &'a [Value] {
    for point in points {
        if point.call == inst {
            return point.live.as_slice();
        }
    }
    &[]
}

// The instructions of a block, the last one first.
fn backwards(rt: &impl Abort, func: &Function, block: Block) -> Result<Vec<Inst>, Fail> {
    asserts_block(rt, func, block);
    let mut insts = Vec::new(func.allocator());
    let mut next = func.first_inst(block);
    for _ in 0..func.inst_count() {
        let Some(inst) = next else { break };
        insts.push(inst)?;
        asserts_inst(rt, func, inst);
        next = func.next_inst(inst);
    }
    insts.reverse();
    Ok(insts)
}

// What a walk from the end of a function to its start finds of some values.
#[derive(Drop)]
struct Walk<'a> {
    lives: &'a [Life],
    // which of them are open: the walk came to a place before which it is live, and to no definition since
    open: Vec<bool>,
    // how many of them were open at one place at most, of each size
    most: [usize; 5],
}

impl Walk<'_> {
    // The walk comes to an instruction: what it gives is closed, and then what is live before it is open.
    fn passes(&mut self, rt: &impl Abort, func: &Function, inst: Inst) {
        for (is_open, life) in self.open.iter_mut().zip(self.lives) {
            *is_open = life.is_before(inst) || (*is_open && !defines(rt, func, inst, life.value));
        }
        let counts = self.counts(rt, func);
        for (most, count) in self.most.iter_mut().zip(&counts) {
            *most = (*most).max(*count);
        }
    }

    // How many values of each size are open.
    fn counts(&self, rt: &impl Abort, func: &Function) -> [usize; 5] {
        let mut counts = [0usize; 5];
        for (is_open, life) in self.open.iter().zip(self.lives) {
            if *is_open {
                let place = place_of(type_of(rt, func, life.value).bytes());
                if let Some(count) = counts.get_mut(place) {
                    *count = count.saturating_add(1);
                }
            }
        }
        counts
    }

    // The walk comes to the front of a block.
    fn leaves(&mut self, rt: &impl Abort, func: &Function, block: Block) {
        asserts_block(rt, func, block);
        let params = func.block_params(block);
        for (is_open, life) in self.open.iter_mut().zip(self.lives) {
            *is_open = *is_open && !params.contains(&life.value);
        }
    }
}

// Where the slots of so many bytes are counted.
fn place_of(bytes: u32) -> usize {
    match bytes {
        1 => 0,
        2 => 1,
        4 => 2,
        8 => 3,
        _ => 4,
    }
}

// How many of these values are open at one place at most, of each size.
fn most_open(rt: &impl Abort, func: &Function, lives: &[Life]) -> Result<[usize; 5], Fail> {
    let mut open = Vec::new(func.allocator());
    open.resize(lives.len(), false)?;
    let mut walk = Walk {
        lives,
        open,
        most: [0; 5],
    };
    for block in depth_first(rt, func)? {
        for inst in backwards(rt, func, block)? {
            walk.passes(rt, func, inst);
        }
        walk.leaves(rt, func, block);
    }
    Ok(walk.most)
}

// Asserts that there are no more new slots of each size than values open at one place.
fn tells_slots(rt: &impl Abort, spilled: &Spilled, lives: &[Life]) -> Result<(), Fail> {
    let mut left = most_open(rt, &spilled.before, lives)?;
    let tables = spilled.after.tables();
    for number in spilled.before.tables().stack_slot_count()..tables.stack_slot_count() {
        let slot = tables.stack_slot(StackSlot::new(number));
        assert!(rt; slot.is_some());
        let place = place_of(slot.unwrap().size());
        let count = left.get_mut(place);
        assert!(rt; count.is_some());
        let count = count.unwrap();
        assert!(rt; *count > 0, "slots of seed {}", spilled.seed);
        *count -= 1;
    }
    Ok(())
}

/// Asserts what is spilled of a function, where, and how many slots there are. The answer is how many values are spilled.
pub fn tells_spills(rt: &impl Abort, spilled: &Spilled) -> Result<usize, Fail> {
    let lives = lives(rt, spilled)?;
    let points = safepoints(rt, &spilled.before, lives.as_slice())?;
    let points = points.as_slice();
    let lives = spilled_of(&spilled.before, lives, points)?;
    let homes = homes(rt, spilled)?;
    let homes = homes.as_slice();
    assert_eq!(rt; homes.len(), lives.len(), "stores of seed {}", spilled.seed);
    for number in 0..spilled.before.inst_count() {
        let inst = inst_at(rt, number);
        tells_map(rt, spilled, homes, inst, live_at(points, inst));
    }
    tells_slots(rt, spilled, lives.as_slice())?;
    Ok(lives.len())
}
