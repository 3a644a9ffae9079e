//! Landing blocks: what a try call's edge passes is read after the call, so that a spilled argument is reloaded in a block
//! of its own, on the edge.

ghost use Rattle.std.specs.Prelude.{◌≡◌, ◌≢◌, ◌<◌, ◌+◌, ◌++◌, ℕ, [], ◌∷◌, length, All, IfOk, OnOk, slice_index_or};
ghost use Rattle.clif_instructions.specs.Edges.{edge_at};
ghost use Rattle.clif_instructions.specs.Instruction.{destinations, exception_table};
ghost use Rattle.clif_instructions.specs.Members.{Stands};
ghost use Rattle.clif_ir.specs.Body.{block_at, inst_at};
ghost use Rattle.clif_ir.specs.Consistent.{PassedExists};
ghost use Rattle.clif_spiller.specs.Acting.{Acts, LandsEdge, LandsEdges, args_of, needs, no_argument, passed_value, passed_values};
ghost use Rattle.clif_spiller.specs.Keeping.{Keeps};
ghost use Rattle.clif_spiller.specs.Plans.{GoesOn, IsFull, IsPlan, KnowsSlots, OwnArgument};
ghost use Rattle.clif_spiller.specs.Text.{IsJumpTo, LandsArgument, LandsArguments, LeadsOn, LeadsOne, table_type};

use crate::accesses::read;
use crate::plan::Plan;
use crate::uses::passes_spilled;
use clif_instructions::insert_at::InsertAt;
use clif_ir::{BlockArg, BlockArgs, BlockCall, Function, InstructionData};
use clif_stack_slots::StackSlots;
use clif_types::types::I64;
use clif_types::{Block, BuildError, Inst, SourceLoc, Type, Value};

/// Gives each edge of a try call that passes a spilled value a landing block: those of its items first, and then the
/// normal one. The first landing block comes right after the call's block, and each later one after the earlier.
pub(crate) fn land_edges(
    func: &mut Function,
    slots: &mut StackSlots,
    plan: &Plan<'_>,
    block: Block,
    inst: Inst,
) -> Result<(), BuildError>
    requires inst_exists { inst < length func.old.insts }
    requires plan { IsPlan func.old plan.now }
    requires slots { KnowsSlots func.old slots.old }
    requires inside { Stands block func.old.layout }
    ensures ok { OnOk result (GoesOn (length func.old.blocks)
        func.old slots.old func.new slots.new) }
    ensures lands { OnOk result
        (LandsEdges plan.now inst func.old slots.old func.new slots.new) }
    ensures leads { OnOk result
        (LeadsOn plan.now inst func.old slots.old func.new slots.new) }
    ensures full { result ≡ Err BuildError.Full → IsFull func.new }
    ensures never_failed { result ≢ Err BuildError.Failed }
{
    func.law_consistent();
    let count = func.inst_data(inst).branch_destination().len();
    let mut last = block;
    for edge in 1..count {
        func.law_consistent();
        last = land_edge(func, slots, plan, inst, edge, last)?;
    }
    if count > 0 {
        func.law_consistent();
        land_edge(func, slots, plan, inst, 0, last)?;
    }
    Ok(())
}

// Gives an edge of a try call a landing block after a block, if it passes a spilled value. The next one comes after the block
// that is returned.
fn land_edge(
    func: &mut Function,
    slots: &mut StackSlots,
    plan: &Plan<'_>,
    inst: Inst,
    edge: usize,
    last: Block,
) -> Result<Block, BuildError>
    requires inst_exists { inst < length func.old.insts }
    requires plan { IsPlan func.old plan.now }
    requires slots { KnowsSlots func.old slots.old }
    requires edge_exists { edge < length (destinations (inst_at func.old inst).shape) }
    requires inside { Stands last func.old.layout }
    ensures ok { IfOk result (λ next. GoesOn (length func.old.blocks)
        func.old slots.old func.new slots.new) }
    ensures inside { IfOk result (λ next. Stands next func.new.layout) }
    ensures edges { IfOk result (λ next. length (destinations (inst_at func.new inst).shape)
        ≡ length (destinations (inst_at func.old inst).shape)) }
    ensures lands { IfOk result (λ next.
        LandsEdge plan.now inst edge func.old slots.old func.new slots.new) }
    ensures leads { IfOk result (λ next.
        LeadsOne plan.now inst edge func.old slots.old func.new slots.new) }
    ensures full { result ≡ Err BuildError.Full → IsFull func.new }
    ensures never_failed { result ≢ Err BuildError.Failed }
{
    func.law_consistent();
    let call = &func.inst_data(inst).branch_destination()[edge];
    if !passes_spilled(func, plan, call.args.as_slice()) {
        return Ok(last);
    }
    let target = call.block;
    let block = make_landing(func, target, last)?;
    let jump = insert_jump(func, block, target)?;
    let landing = Landing {
        block,
        jump,
        target,
    };
    let args = land_arguments(func, slots, plan, inst, edge, &landing)?;
    func.replace_edge(inst, edge, BlockCall { block, args });
    Ok(block)
}

// A landing block, its jump, and where that goes.
#[derive(Drop)]
struct Landing {
    block: Block,
    jump: Inst,
    target: Block,
}

// Makes a block after another one, which is cold if its target is.
fn make_landing(func: &mut Function, target: Block, last: Block) -> Result<Block, BuildError>
    requires target_exists { target < length func.old.blocks }
    requires inside { Stands last func.old.layout }
    ensures ok { IfOk result (λ landing. Keeps (length func.old.blocks) func.old func.new) }
    ensures number { IfOk result (λ landing. landing ≡ length func.old.blocks) }
    ensures insts { IfOk result (λ landing. func.new.insts ≡ func.old.insts) }
    ensures tables { IfOk result (λ landing. func.new.tables ≡ func.old.tables) }
    ensures lists { IfOk result (λ landing. (c : ℕ) → c < length func.old.blocks
        → (block_at func.new c).insts ≡ (block_at func.old c).insts) }
    ensures layout { IfOk result (λ landing. (c : ℕ) → c < length func.old.blocks
        → Stands c func.new.layout → Stands c func.old.layout) }
    ensures exists { IfOk result (λ landing. landing < length func.new.blocks) }
    ensures count { IfOk result (λ landing. length func.new.blocks ≡ length func.old.blocks + 1) }
    ensures empty { IfOk result (λ landing. ((block_at func.new landing).params ≡ [])
        × ((block_at func.new landing).insts ≡ [])) }
    ensures inside { IfOk result (λ landing. Stands landing func.new.layout) }
    ensures full { result ≡ Err BuildError.Full → IsFull func.new }
    ensures never_failed { result ≢ Err BuildError.Failed }
{
    func.law_consistent();
    let landing = func.create_block()?;
    func.insert_block_after(landing, last);
    if func.is_cold(target) {
        func.set_cold_block(landing);
    }
    Ok(landing)
}

// Puts a jump that passes nothing yet into a landing block.
fn insert_jump(func: &mut Function, landing: Block, target: Block) -> Result<Inst, BuildError>
    requires landing_exists { landing < length func.old.blocks }
    requires target_exists { target < length func.old.blocks }
    ensures ok { IfOk result (λ jump. Keeps (length func.old.blocks) func.old func.new) }
    ensures number { IfOk result (λ jump. jump ≡ length func.old.insts) }
    ensures nodes { IfOk result (λ jump. (i : ℕ) → i < length func.old.insts
        → inst_at func.new i ≡ inst_at func.old i) }
    ensures exists { IfOk result (λ jump. jump < length func.new.insts) }
    ensures blocks { IfOk result (λ jump. length func.new.blocks ≡ length func.old.blocks) }
    ensures layout { IfOk result (λ jump. func.new.layout ≡ func.old.layout) }
    ensures tables { IfOk result (λ jump. func.new.tables ≡ func.old.tables) }
    ensures lists { IfOk result (λ jump. (c : ℕ) → c ≢ landing
        → (block_at func.new c).insts ≡ (block_at func.old c).insts) }
    ensures home { IfOk result (λ jump. (inst_at func.new jump).block ≡ landing) }
    ensures jumps { IfOk result (λ jump. IsJumpTo target func.new jump) }
    ensures last { IfOk result (λ jump. (block_at func.new landing).insts
        ≡ (block_at func.old landing).insts ++ jump ∷ []) }
    ensures full { result ≡ Err BuildError.Full → IsFull func.new }
    ensures never_failed { result ≢ Err BuildError.Failed }
{
    func.law_consistent();
    let destination = BlockCall {
        block: target,
        args: BlockArgs::new(func.allocator()),
    };
    let shape = InstructionData::Jump { destination };
    let nowhere = SourceLoc::new(u32::MAX);
    func.insert_inst(landing, InsertAt::Back, shape, Type::Invalid, nowhere)
}

// Passes what an edge of a try call passes on by the jump of its landing block, in order. Returns what the call gives itself.
fn land_arguments(
    func: &mut Function,
    slots: &mut StackSlots,
    plan: &Plan<'_>,
    inst: Inst,
    edge: usize,
    landing: &Landing,
) -> Result<BlockArgs, BuildError>
    requires inst_exists { inst < length func.old.insts }
    requires plan { IsPlan func.old plan.now }
    requires slots { KnowsSlots func.old slots.old }
    requires edge_exists { edge < length (destinations (inst_at func.old inst).shape) }
    requires block_exists { landing.now.block < length func.old.blocks }
    requires jump_exists { landing.now.jump < length func.old.insts }
    requires apart { inst ≢ landing.now.jump }
    ensures ok { IfOk result (λ own. GoesOn landing.now.block
        func.old slots.old func.new slots.new) }
    ensures own { IfOk result (λ own. All (PassedExists func.new) own) }
    ensures edges { IfOk result (λ own. (inst_at func.new inst).shape
        ≡ (inst_at func.old inst).shape) }
    ensures given { IfOk result (λ own. All OwnArgument own) }
    ensures layout { IfOk result (λ own. func.new.layout ≡ func.old.layout) }
    ensures acts { IfOk result (λ own. Acts plan.now landing.now.jump
        func.old slots.old func.new slots.new
        (needs plan.now (passed_values func.old (args_of func.old inst edge)))) }
    ensures rows { IfOk result (λ own. LandsArguments plan.now landing.now.block
        landing.now.jump landing.now.target (inst_at func.old inst).shape
        func.old slots.old func.new slots.new (args_of func.old inst edge) own) }
    ensures full { result ≡ Err BuildError.Full → IsFull func.new }
    ensures never_failed { result ≢ Err BuildError.Failed }
{
    func.law_consistent();
    let mut own = BlockArgs::new(func.allocator());
    let count = func.inst_data(inst).branch_destination()[edge]
        .args
        .as_slice()
        .len();
    for place in 0..count {
        let value = land_argument(func, slots, plan, inst, edge, place, landing, &mut own)?;
        func.append_branch_argument(landing.jump, landing.target, value)?;
    }
    Ok(own)
}

// What the jump of a landing block passes in place of an argument of a try call's edge: a value is read before the jump, and what the
// call gives itself, which is put at the end of `own`, is a new parameter of the landing block.
fn land_argument(
    func: &mut Function,
    slots: &mut StackSlots,
    plan: &Plan<'_>,
    inst: Inst,
    edge: usize,
    place: usize,
    landing: &Landing,
    own: &mut BlockArgs,
) -> Result<Value, BuildError>
    requires inst_exists { inst < length func.old.insts }
    requires plan { IsPlan func.old plan.now }
    requires slots { KnowsSlots func.old slots.old }
    requires edge_exists { edge < length (destinations (inst_at func.old inst).shape) }
    requires place_exists { place
        < length (edge_at (destinations (inst_at func.old inst).shape) edge).args }
    requires block_exists { landing.now.block < length func.old.blocks }
    requires jump_exists { landing.now.jump < length func.old.insts }
    requires own { All OwnArgument own.old }
    ensures ok { IfOk result (λ value. GoesOn landing.now.block
        func.old slots.old func.new slots.new) }
    ensures value { IfOk result (λ value. value < length func.new.values) }
    ensures own { IfOk result (λ value. All OwnArgument own.new) }
    ensures nodes { IfOk result (λ value. (i : ℕ) → i < length func.old.insts
        → inst_at func.new i ≡ inst_at func.old i) }
    ensures layout { IfOk result (λ value. func.new.layout ≡ func.old.layout) }
    ensures acts { IfOk result (λ value. Acts plan.now landing.now.jump
        func.old slots.old func.new slots.new (needs plan.now (passed_value func.old
        (slice_index_or (args_of func.old inst edge) place no_argument)))) }
    ensures row { IfOk result (λ value. LandsArgument plan.now landing.now.block
        landing.now.jump (inst_at func.old inst).shape func.old slots.old func.new slots.new
        (slice_index_or (args_of func.old inst edge) place no_argument) own.old own.new value) }
    ensures full { result ≡ Err BuildError.Full → IsFull func.new }
    ensures never_failed { result ≢ Err BuildError.Failed }
{
    func.law_consistent();
    match func.inst_data(inst).branch_destination()[edge]
        .args
        .as_slice()[place]
    {
        BlockArg::Value(operand) => read(func, slots, plan, landing.jump, operand),
        BlockArg::TryCallRet(index) => {
            own.push(BlockArg::TryCallRet(index))?;
            let ty = return_type(func, inst, index as usize);
            func.append_block_param(landing.block, ty)
        }
        BlockArg::TryCallExn(part) => {
            own.push(BlockArg::TryCallExn(part))?;
            func.append_block_param(landing.block, I64)
        }
    }
}

// The type of what a try call returns at a place, by its signature. What the signature lacks has the type of a 64-bit integer.
fn return_type(func: &Function, inst: Inst, place: usize) -> Type
    requires { inst < length func.now.insts }
    ensures { result ≡ table_type func.now.tables
        (exception_table (inst_at func.now inst).shape) place }
{
    let Some(table) = func.inst_data(inst).exception_targets() else {
        return I64;
    };
    let returns = func.tables().signature_returns(table.signature());
    match returns.get(place) {
        Some(param) => param.value_type,
        None => I64,
    }
}
