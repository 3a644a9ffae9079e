//! Random functions of fixed seeds, and a plain search over paths beside the analysis.
#![tactic(auto)]

ghost use Rattle.std.specs.Prelude.{ℕ};
ghost use Rattle.clif_instructions.specs.Members.{IsPlaceOf};

use crate::paths::{depth_first, is_live_across, is_live_at_front, reached, resolved, shape_of};
use crate::steps::{alias, function, import, make_block, put_shape, set_of};
use clif_instructions::insert_at::InsertAt;
use clif_ir::{
    BlockArg, BlockCall, ExceptionTableData, ExceptionTableItem, ExceptionTargets, Function,
    InstructionData, ValueList,
};
use clif_opcodes::BinaryOpcode::Iadd;
use clif_safepoints::liveness::LivenessAnalysis;
use clif_types::types::I32;
use clif_types::{Block, EntityRef, FuncRef, Inst, SigRef, Value};
use rand::{RngExt, SeedableRng};
use rand_pcg::Pcg32;
use std::alloc::Global;
use std::process::Abort;
use std::test::Fail;

// How many functions are made.
const FUNCTIONS: usize = 300;

// How many values are recorded: sets of one word, of a few, and around the borders of words.
const SIZES: [usize; 7] = [0, 1, 8, 63, 64, 65, 200];

// What was found in all functions.
#[derive(Default, Drop)]
struct Tally {
    // calls that are reached, and those that aren't
    reached: usize,
    unreached: usize,
    // recorded values that are live across a call that is reached, and those that aren't
    live: usize,
    dead: usize,
}

impl Tally {
    // A call that is reached, across which so many of the recorded values are live.
    fn count(&mut self, recorded: usize, live: usize) {
        self.reached = self.reached.saturating_add(1);
        self.live = self.live.saturating_add(live);
        self.dead = self.dead.saturating_add(recorded.saturating_sub(live));
    }
}

// A function and what was found in it.
#[derive(Drop)]
struct Made {
    seed: u64,
    func: Function,
    // the numbers of the recorded values, which rise
    recorded: Vec<u32>,
    analysis: LivenessAnalysis,
    // the instructions that are reached
    reached: Vec<Inst>,
}

/// A number below a limit, or 0 if that is 0.
pub fn below(random: &mut Pcg32, limit: usize) -> usize {
    if limit == 0 {
        return 0;
    }
    random.random_range(0..limit)
}

/// One time in so many.
pub fn one_in(random: &mut Pcg32, count: usize) -> bool {
    below(random, count) == 0
}

/// The block of a number.
pub fn block_at(rt: &impl Abort, number: usize) -> Block {
    assert!(rt; number < 1000);
    Block::new(number)
}

/// The value of a number.
pub fn value_at(rt: &impl Abort, number: usize) -> Value {
    assert!(rt; number < 1000);
    Value::new(number)
}

/// The instruction of a number.
pub fn inst_at(rt: &impl Abort, number: usize) -> Inst {
    assert!(rt; number < 1000);
    Inst::new(number)
}

fn any_block(rt: &impl Abort, random: &mut Pcg32, func: &Function) -> Block {
    block_at(rt, below(random, func.block_count()))
}

fn any_value(rt: &impl Abort, random: &mut Pcg32, func: &Function) -> Value {
    value_at(rt, below(random, func.value_count()))
}

fn any_values(
    rt: &impl Abort,
    random: &mut Pcg32,
    func: &Function,
    count: usize,
) -> Result<ValueList, Fail> {
    let mut list = ValueList::new(func.allocator());
    for _ in 0..count {
        list.push(any_value(rt, random, func))?;
    }
    Ok(list)
}

// An edge that passes as many values as its target takes.
fn any_edge(rt: &impl Abort, random: &mut Pcg32, func: &Function) -> Result<BlockCall, Fail> {
    let block = any_block(rt, random, func);
    assert!(rt; block.index() < func.block_count());
    let mut edge = BlockCall::new(func.allocator(), block, &[])?;
    for _ in func.block_params(block) {
        edge.args
            .push(BlockArg::Value(any_value(rt, random, func)))?;
    }
    Ok(edge)
}

// A call of the function that takes so many values: these were imported in this order.
fn any_call(
    rt: &impl Abort,
    random: &mut Pcg32,
    func: &Function,
    count: usize,
) -> Result<InstructionData, Fail> {
    assert!(rt; count < 1000);
    Ok(InstructionData::Call {
        func_ref: FuncRef::new(count),
        args: any_values(rt, random, func, count)?,
    })
}

// The same for a try call, which has an edge for its return and one for all exceptions.
fn any_try_call(
    rt: &impl Abort,
    random: &mut Pcg32,
    func: &Function,
    count: usize,
) -> Result<InstructionData, Fail> {
    assert!(rt; count < 1000);
    let args = any_values(rt, random, func, count)?;
    let normal = any_edge(rt, random, func)?;
    let mut items = Vec::new(func.allocator());
    items.push(ExceptionTableItem::Default(any_edge(rt, random, func)?))?;
    let table = ExceptionTableData {
        sig: SigRef::new(count),
        normal,
        items,
    };
    Ok(InstructionData::TryCall {
        func_ref: FuncRef::new(count),
        args,
        exception: ExceptionTargets::new(func.allocator(), table)?,
    })
}

fn any_step(rt: &impl Abort, random: &mut Pcg32, func: &Function) -> Result<InstructionData, Fail> {
    match below(random, 4) {
        0 => Ok(InstructionData::UnaryImm { imm: 1 }),
        1 => Ok(InstructionData::Binary {
            opcode: Iadd,
            args: [any_value(rt, random, func), any_value(rt, random, func)],
        }),
        _ => {
            let count = below(random, 3);
            any_call(rt, random, func, count)
        }
    }
}

fn any_terminator(
    rt: &impl Abort,
    random: &mut Pcg32,
    func: &Function,
) -> Result<InstructionData, Fail> {
    let count = below(random, 3);
    match below(random, 8) {
        0 => Ok(InstructionData::MultiAry {
            args: any_values(rt, random, func, count)?,
        }),
        1 | 2 => Ok(InstructionData::Jump {
            destination: any_edge(rt, random, func)?,
        }),
        3 => any_try_call(rt, random, func, count),
        _ => {
            let arg = any_value(rt, random, func);
            let then = any_edge(rt, random, func)?;
            let other = any_edge(rt, random, func)?;
            Ok(InstructionData::Brif {
                arg,
                blocks: [then, other],
            })
        }
    }
}

// The front of a block or its back.
fn any_place(random: &mut Pcg32) -> InsertAt
    ensures { (count : ℕ) → IsPlaceOf result count }
{
    if one_in(random, 2) {
        return InsertAt::Behind(0);
    }
    InsertAt::Back
}

fn import_functions(rt: &impl Abort, func: &mut Function) -> Result<(), Fail> {
    for count in 0..3 {
        import(rt, func, count, 1)?;
    }
    Ok(())
}

// Two to six blocks.
fn make_blocks(random: &mut Pcg32, func: &mut Function) -> Result<(), Fail> {
    let count = below(random, 5);
    for _ in 0..count {
        make_block(func)?;
    }
    make_block(func)?;
    make_block(func)
}

// A block gets up to two parameters.
fn make_params_of(
    rt: &impl Abort,
    random: &mut Pcg32,
    func: &mut Function,
    block: Block,
) -> Result<(), Fail> {
    let count = below(random, 3);
    for _ in 0..count {
        assert!(rt; block.index() < func.block_count());
        func.append_block_param(block, I32)?;
    }
    Ok(())
}

fn make_params(rt: &impl Abort, random: &mut Pcg32, func: &mut Function) -> Result<(), Fail> {
    for number in 0..func.block_count() {
        make_params_of(rt, random, func, block_at(rt, number))?;
    }
    Ok(())
}

// Each block but the empty one may get an instruction more.
fn fill_once(
    rt: &impl Abort,
    random: &mut Pcg32,
    func: &mut Function,
    empty: usize,
) -> Result<(), Fail> {
    for number in 0..func.block_count() {
        if number != empty && one_in(random, 2) {
            let shape = any_step(rt, random, func)?;
            put_shape(rt, func, block_at(rt, number), shape, any_place(random))?;
        }
    }
    Ok(())
}

// Some blocks get parameters that are other names. No edge was made yet.
fn make_aliases(rt: &impl Abort, random: &mut Pcg32, func: &mut Function) -> Result<(), Fail> {
    for _ in 0..3 {
        let param = any_value(rt, random, func);
        let original = any_value(rt, random, func);
        let is_param = func.param_home(param).is_some();
        if is_param && resolved(rt, func, original) != param {
            alias(rt, func, param.as_u32(), original.as_u32())?;
        }
    }
    Ok(())
}

// Most blocks but the empty one get a terminator.
fn end_blocks(
    rt: &impl Abort,
    random: &mut Pcg32,
    func: &mut Function,
    empty: usize,
) -> Result<(), Fail> {
    for number in 0..func.block_count() {
        if number != empty && !one_in(random, 12) {
            let shape = any_terminator(rt, random, func)?;
            put_shape(rt, func, block_at(rt, number), shape, InsertAt::Back)?;
        }
    }
    Ok(())
}

// So many further parameters, each of some block.
fn make_more_params(
    rt: &impl Abort,
    random: &mut Pcg32,
    func: &mut Function,
    count: usize,
) -> Result<(), Fail> {
    for _ in 0..count {
        let block = any_block(rt, random, func);
        assert!(rt; block.index() < func.block_count());
        func.append_block_param(block, I32)?;
    }
    Ok(())
}

// A function that has more than so many values.
fn any_function(
    rt: &impl Abort,
    alloc: Global,
    random: &mut Pcg32,
    values: usize,
) -> Result<Function, Fail> {
    let mut func = function(rt, alloc, &[])?;
    import_functions(rt, &mut func)?;
    make_blocks(random, &mut func)?;
    make_params(rt, random, &mut func)?;
    make_more_params(rt, random, &mut func, values)?;
    let first = any_block(rt, random, &func);
    let number = InstructionData::UnaryImm { imm: 0 };
    put_shape(rt, &mut func, first, number, InsertAt::Back)?;
    let empty = below(random, 20);
    for _ in 0..4 {
        fill_once(rt, random, &mut func, empty)?;
    }
    make_aliases(rt, random, &mut func)?;
    end_blocks(rt, random, &mut func, empty)?;
    Ok(func)
}

// The numbers of so many values, aliases among them.
fn any_recorded(
    rt: &impl Abort,
    random: &mut Pcg32,
    func: &Function,
    count: usize,
) -> Result<Vec<u32>, Fail> {
    let mut numbers = Vec::new(func.allocator());
    let total = func.value_count();
    for number in 0..total {
        let left = total.saturating_sub(number);
        if below(random, left) < count.saturating_sub(numbers.len()) {
            numbers.push(value_at(rt, number).as_u32())?;
        }
    }
    assert_eq!(rt; numbers.len(), count);
    Ok(numbers)
}

// The recorded values to be found at the front of a block that is reached, those that are its parameters where these
// are asked for, too.
fn front_values(
    rt: &impl Abort,
    func: &Function,
    recorded: &[u32],
    block: Block,
    with_params: bool,
) -> Result<Vec<u32>, Fail> {
    let mut live = Vec::new(func.allocator());
    for number in recorded {
        assert!(rt; *number < 1000);
        let value = Value::from_u32(*number);
        assert!(rt; block.index() < func.block_count());
        let asked = with_params || !func.block_params(block).contains(&value);
        if asked
            && resolved(rt, func, value) == value
            && is_live_at_front(rt, func, block, value)?
        {
            live.push(*number)?;
        }
    }
    Ok(live)
}

// The recorded values to be found for a call that is reached, in the order in which they are recorded.
fn live_values(
    rt: &impl Abort,
    func: &Function,
    recorded: &[u32],
    call: Inst,
) -> Result<Vec<u32>, Fail> {
    let mut live = Vec::new(func.allocator());
    for number in recorded {
        assert!(rt; *number < 1000);
        let value = Value::from_u32(*number);
        if resolved(rt, func, value) == value && is_live_across(rt, func, call, value)? {
            live.push(*number)?;
        }
    }
    Ok(live)
}

/// Whether an instruction calls a function.
pub fn is_call(shape: &InstructionData) -> bool {
    matches!(
        shape,
        InstructionData::Call { .. } | InstructionData::TryCall { .. }
    )
}

// Asserts that these values were found for an instruction.
fn tells(rt: &impl Abort, seed: u64, inst: Inst, found: &[Value], expected: &[u32]) {
    assert_eq!(rt;
        found.len(),
        expected.len(),
        "values at {inst} of seed {seed}"
    );
    for (value, number) in found.iter().zip(expected) {
        assert_eq!(rt; value.as_u32(), *number, "at {inst} of seed {seed}");
    }
}

// Asserts what is found for an instruction.
fn tells_inst(rt: &impl Abort, made: &Made, inst: Inst, tally: &mut Tally) -> Result<(), Fail> {
    let found = made.analysis.live_across(inst);
    if !is_call(shape_of(rt, &made.func, inst)) {
        tells(rt, made.seed, inst, found, &[]);
        return Ok(());
    }
    if !made.reached.contains(&inst) {
        tally.unreached = tally.unreached.saturating_add(1);
        tells(rt, made.seed, inst, found, &[]);
        return Ok(());
    }
    let recorded = made.recorded.as_slice();
    let expected = live_values(rt, &made.func, recorded, inst)?;
    tells(rt, made.seed, inst, found, expected.as_slice());
    tally.count(recorded.len(), expected.len());
    Ok(())
}

// Asserts the order of the blocks, and which of them are reached.
fn tells_order(rt: &impl Abort, made: &Made) -> Result<(), Fail> {
    let expected = depth_first(rt, &made.func)?;
    let found = made.analysis.order();
    assert_eq!(rt; found.len(), expected.len(), "seed {}", made.seed);
    for (block, expected) in found.iter().zip(expected.as_slice()) {
        assert_eq!(rt; block.as_u32(), expected.as_u32(), "seed {}", made.seed);
    }
    Ok(())
}

// Asserts that these values were found at the front of a block.
fn tells_values(rt: &impl Abort, seed: u64, block: Block, found: &[Value], expected: &[u32]) {
    assert_eq!(rt;
        found.len(),
        expected.len(),
        "values at {block} of seed {seed}"
    );
    for (value, number) in found.iter().zip(expected) {
        assert_eq!(rt; value.as_u32(), *number, "at {block} of seed {seed}");
    }
}

// Asserts what is found at the front of a block.
fn tells_front(rt: &impl Abort, made: &Made, block: Block) -> Result<(), Fail> {
    let mut recorded = made.recorded.as_slice();
    if !made.analysis.order().contains(&block) {
        recorded = &[];
    }
    let before = front_values(rt, &made.func, recorded, block, false)?;
    let found = made.analysis.live_in(block);
    tells_values(rt, made.seed, block, found, before.as_slice());
    let after = front_values(rt, &made.func, recorded, block, true)?;
    let found = made.analysis.live_after_params(block);
    tells_values(rt, made.seed, block, found, after.as_slice());
    Ok(())
}

// The targets of edges that leave these instructions, with repeats.
fn targets_of(rt: &impl Abort, func: &Function, insts: &[Inst]) -> Result<Vec<Block>, Fail> {
    let mut targets = Vec::new(func.allocator());
    for inst in insts {
        push_targets(shape_of(rt, func, *inst).branch_destination(), &mut targets)?;
    }
    Ok(targets)
}

fn push_targets(edges: &[BlockCall], targets: &mut Vec<Block>) -> Result<(), Fail> {
    for edge in edges {
        targets.push(edge.block)?;
    }
    Ok(())
}

// The entry and these blocks, each once.
fn reached_blocks(func: &Function, targets: &[Block]) -> Result<Vec<Block>, Fail> {
    let mut blocks = Vec::new(func.allocator());
    if let Some(entry) = func.entry_block() {
        blocks.push(entry)?;
    }
    for target in targets {
        if !blocks.contains(target) {
            blocks.push(*target)?;
        }
    }
    Ok(blocks)
}

// Asserts how many blocks were handled.
fn tells_handled(rt: &impl Abort, made: &Made) -> Result<(), Fail> {
    let edges = targets_of(rt, &made.func, made.reached.as_slice())?;
    let blocks = reached_blocks(&made.func, edges.as_slice())?;
    let least = blocks.len() as u128;
    let more = (edges.len() as u128).saturating_mul(made.recorded.len() as u128);
    let handled = made.analysis.handled();
    assert!(rt; least <= handled, "seed {}", made.seed);
    assert!(rt; handled <= least.saturating_add(more), "seed {}", made.seed);
    Ok(())
}

// Makes the function of a seed, and has it analysed.
fn make(rt: &impl Abort, alloc: Global, seed: u64) -> Result<Made, Fail> {
    let mut random = Pcg32::seed_from_u64(seed);
    let count = SIZES[(seed % 7) as usize];
    let func = any_function(rt, alloc, &mut random, count)?;
    let recorded = any_recorded(rt, &mut random, &func, count)?;
    let set = set_of(rt, alloc, recorded.as_slice())?;
    let mut analysis = LivenessAnalysis::new(alloc);
    analysis.run(&func, &set)?;
    let reached = reached(rt, &func)?;
    Ok(Made {
        seed,
        func,
        recorded,
        analysis,
        reached,
    })
}

// Compares all that is found in the function of a seed.
fn compare(rt: &impl Abort, alloc: Global, seed: u64, tally: &mut Tally) -> Result<(), Fail> {
    let made = make(rt, alloc, seed)?;
    for number in 0..made.func.inst_count() {
        tells_inst(rt, &made, inst_at(rt, number), tally)?;
    }
    for number in 0..made.func.block_count() {
        tells_front(rt, &made, block_at(rt, number))?;
    }
    tells_order(rt, &made)?;
    tells_handled(rt, &made)
}

// Each kind of answer comes once for each function, on average.
#[test]
fn agrees_with_paths(rt: HostRuntime) -> Result<(), Fail> {
    let mut tally = Tally::default();
    for seed in 0..FUNCTIONS {
        compare(&rt, rt.alloc(), seed as u64, &mut tally)?;
    }
    assert!(rt; FUNCTIONS <= tally.reached);
    assert!(rt; FUNCTIONS <= tally.unreached);
    assert!(rt; FUNCTIONS <= tally.live);
    assert!(rt; FUNCTIONS <= tally.dead);
    Ok(())
}
