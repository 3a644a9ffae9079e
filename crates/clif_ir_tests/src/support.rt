//! What several tests use: numbers that exist, and the conditions of calls.
#![tactic(auto)]

ghost use Rattle.std.specs.Prelude.{◌≡◌, ◌<◌, length, IsTrue, EachIndex, All, slice_index};
ghost use Rattle.clif_tables.specs.Entries.{NamesSlots};
ghost use Rattle.clif_instructions.specs.Instruction.{contexts, destinations, entries_of, items_of, operands};
ghost use Rattle.clif_instructions.specs.Members.{IsPlaceOf};
ghost use Rattle.clif_ir.specs.Body.{value_at};
ghost use Rattle.clif_ir.specs.Changes.{home_of};
ghost use Rattle.clif_ir.specs.Consistent.{EdgeExists, EntryExists, PassedExists, ValueExists};

use clif_instructions::block_call::{BlockArg, BlockCall};
use clif_instructions::insert_at::InsertAt;
use clif_instructions::instructions::InstructionData;
use clif_ir::ValueOrigin;
use clif_ir::function::Function;
use clif_types::{
    AbiParam, Block, CallConv, EntityRef, Inst, Signature, StackSlot, Type, UserStackMapEntry,
    Value,
};
use std::alloc::{AllocError, Global};
use std::process::Abort;
use std::test::Fail;

/// The source place that the tests give to every instruction.
pub const PLACE: u32 = 17;

/// This number, which is that of an entry that may not exist.
pub fn below_1000(rt: &impl Abort, number: u32) -> u32
    ensures { result < 1000 }
{
    assert!(rt; number < 1000);
    number
}

/// The block with this number, which may not exist.
pub fn b(rt: &impl Abort, number: u32) -> Block {
    Block::from_u32(below_1000(rt, number))
}

/// The value with this number, which may not exist.
pub fn v(rt: &impl Abort, number: u32) -> Value {
    Value::from_u32(below_1000(rt, number))
}

/// The instruction with this number, which may not exist.
pub fn i(rt: &impl Abort, number: u32) -> Inst {
    Inst::from_u32(below_1000(rt, number))
}

/// The block of a function with this number.
pub fn block_of(rt: &impl Abort, func: &Function, number: u32) -> Block
    ensures { result < length func.now.blocks }
{
    let block = b(rt, number);
    assert!(rt; block.index() < func.block_count());
    block
}

/// The value of a function with this number.
pub fn value_of(rt: &impl Abort, func: &Function, number: u32) -> Value
    ensures { result < length func.now.values }
{
    let value = v(rt, number);
    assert!(rt; value.index() < func.value_count());
    value
}

/// The instruction of a function with this number.
pub fn inst_of(rt: &impl Abort, func: &Function, number: u32) -> Inst
    ensures { result < length func.now.insts }
{
    let inst = i(rt, number);
    assert!(rt; inst.index() < func.inst_count());
    inst
}

/// An entry of a stack map: its type, its slot, and the distance from the slot's begin.
pub fn map_entry(rt: &impl Abort, row: (Type, u32, u32)) -> UserStackMapEntry {
    let (ty, number, offset) = row;
    let slot = StackSlot::from_u32(below_1000(rt, number));
    UserStackMapEntry { ty, slot, offset }
}

/// The stack map of these entries.
pub fn map_of(
    rt: &impl Abort,
    alloc: Global,
    entries: &[(Type, u32, u32)],
) -> Result<Vec<UserStackMapEntry>, Fail> {
    let mut map = Vec::new(alloc);
    for entry in entries {
        map.push(map_entry(rt, *entry))?;
    }
    Ok(map)
}

/// Whether there is such a place in a list of so many.
pub fn is_place_of(at: InsertAt, len: usize) -> bool
    ensures { IsTrue result → IsPlaceOf at len }
{
    match at {
        InsertAt::Behind(count) => count <= len,
        InsertAt::Back => true,
    }
}

// Whether these values exist.
fn has_operands(func: &Function, args: &[Value]) -> bool
    ensures { IsTrue result → EachIndex args.now (λ k. slice_index args.now k < length func.now.values) }
{
    let count = func.value_count();
    args.iter().all(|value| value.index() < count)
}

// Whether what an edge passes exists.
fn has_argument(func: &Function, arg: BlockArg) -> bool
    ensures { IsTrue result → PassedExists func.now arg }
{
    match arg {
        BlockArg::Value(value) => value.index() < func.value_count(),
        BlockArg::TryCallRet(_) | BlockArg::TryCallExn(_) => true,
    }
}

/// Whether the target of an edge exists, and what it passes.
pub fn has_edge(func: &Function, edge: &BlockCall) -> bool
    ensures { IsTrue result → EdgeExists func.now edge.now }
{
    let args = edge.args.as_slice();
    edge.block.index() < func.block_count() && args.iter().all(|arg| has_argument(func, *arg))
}

// Whether the targets of these edges exist, and what they pass.
fn has_edges(func: &Function, edges: &[BlockCall]) -> bool
    ensures { IsTrue result → All (EdgeExists func.now) edges.now }
{
    edges.iter().all(|edge| has_edge(func, edge))
}

/// Asserts that all exists that an instruction of this shape names.
pub fn names_what_exists(rt: &impl Abort, func: &Function, shape: &InstructionData)
    ensures operands_exist { EachIndex (operands shape.now) (λ k.
        slice_index (operands shape.now) k < length func.now.values) }
    ensures edges_exist { All (EdgeExists func.now) (destinations shape.now) }
    ensures contexts_exist { All (ValueExists func.now) (contexts shape.now) }
    ensures entries_exist { All (EntryExists func.now.tables) (entries_of shape.now) }
{
    assert!(rt; has_operands(func, shape.arguments()));
    assert!(rt; has_edges(func, shape.branch_destination()));
    assert!(rt; func.has_contexts(shape));
    assert!(rt; func.has_entries(shape));
}

/// Whether an instruction has an exception table with such an item.
pub fn has_item(shape: &InstructionData, item: usize) -> bool
    ensures { IsTrue result → item < length (items_of shape.now) }
{
    match shape {
        InstructionData::TryCall { exception, .. }
        | InstructionData::TryCallIndirect { exception, .. } => item < exception.items().len(),
        _ => false,
    }
}

/// Whether the slots exist that the entries of a stack map name.
pub fn has_slots(func: &Function, map: &[UserStackMapEntry]) -> bool
    ensures { IsTrue result → NamesSlots func.now.tables map.now }
{
    let count = func.tables().stack_slot_count();
    map.iter().all(|entry| entry.slot.index() < count)
}

/// Whether a value is a parameter of a block.
pub fn is_param(func: &Function, value: Value) -> bool
    requires { value < length func.now.values }
    ensures { IsTrue result →
        (value_at func.now value).origin
        ≡ ValueOrigin.Param (home_of (value_at func.now value).origin) }
{
    func.param_home(value).is_some()
}

/// A signature of these parameters and returned values.
pub fn signature_of(
    alloc: Global,
    params: &[Type],
    returns: &[Type],
    call_conv: CallConv,
) -> Result<Signature, AllocError> {
    Ok(Signature {
        params: params_of(alloc, params)?,
        returns: params_of(alloc, returns)?,
        call_conv,
    })
}

fn params_of(alloc: Global, types: &[Type]) -> Result<Vec<AbiParam>, AllocError> {
    let mut params = Vec::new(alloc);
    for ty in types {
        params.push(AbiParam::new(*ty))?;
    }
    Ok(params)
}

/// Asserts the text of a function. The name is said where it has another one.
pub fn prints(rt: &impl Abort, func: &Function, text: &str, name: &str) -> Result<(), Fail> {
    let shown = func.display();
    let found = format!(in func.allocator(); "{shown}")?;
    assert_eq!(rt; found.as_str(), text, "{name}");
    Ok(())
}
