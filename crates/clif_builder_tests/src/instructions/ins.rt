//! Instructions by what `FunctionBuilder::ins` and `FunctionBuilder::cursor` lend.
#![tactic(auto)]

ghost use Rattle.std.specs.Prelude.{◌≡◌, ◌<◌, length};
ghost use Rattle.clif_ir.specs.Body.{value_at};

use crate::asserted::{
    asserts_current, asserts_function, asserts_signature, asserts_target, asserts_value, param,
};
use crate::instructions::fixture::{Given, callee, is_same_type, signature};
use crate::instructions::formats::make_by_format;
use crate::instructions::methods::{branch, make};
use cranelift_frontend::types::{I32, I64};
use cranelift_frontend::{
    Block, EntityRef, FuncRef, FunctionBuilder, Opcode, SigRef, StackSlot, StackSlotData, Type,
    Value,
};
use std::alloc::Global;
use std::process::Abort;
use std::test::Fail;

// Asserts that a value exists and has a type.
fn asserts_typed(rt: &impl Abort, builder: &FunctionBuilder<'_>, value: Value, ty: Type)
    ensures exists { value < length builder.now.func.now.values }
    ensures ty { (value_at builder.now.func.now value).ty ≡ ty }
{
    asserts_value(rt, builder, value);
    assert!(rt; is_same_type(builder.func().value_type(value), ty));
}

// Asserts that a stack slot was made.
fn asserts_slot(rt: &impl Abort, builder: &FunctionBuilder<'_>, slot: StackSlot)
    ensures { slot < length builder.now.func.now.tables.stack_slots }
{
    assert!(rt; slot.index() < builder.func().tables().stack_slot_count());
}

// Asserts that the values that an instruction may name exist, with their types.
fn asserts_values(rt: &impl Abort, builder: &FunctionBuilder<'_>, given: &Given)
    ensures x { given.now.x < length builder.now.func.now.values }
    ensures x_type { (value_at builder.now.func.now given.now.x).ty ≡ I32 }
    ensures y { given.now.y < length builder.now.func.now.values }
    ensures p { given.now.p < length builder.now.func.now.values }
    ensures p_type { (value_at builder.now.func.now given.now.p).ty ≡ I64 }
{
    asserts_typed(rt, builder, given.x, I32);
    asserts_value(rt, builder, given.y);
    asserts_typed(rt, builder, given.p, I64);
}

// A new block.
fn new_block(rt: &impl Abort, builder: &mut FunctionBuilder<'_>) -> Block {
    builder.create_block().expect(rt, "a block")
}

// Makes the first block the current one.
fn enter(rt: &impl Abort, builder: &mut FunctionBuilder<'_>, block: Block) {
    assert!(rt; block.index() < builder.func().block_count());
    assert!(rt; !builder.is_filled(block));
    assert!(rt; builder.current_block().is_none());
    builder.switch_to_block(block);
}

fn import(
    rt: &impl Abort,
    alloc: Global,
    builder: &mut FunctionBuilder<'_>,
    sig: SigRef,
) -> Result<FuncRef, Fail> {
    asserts_signature(rt, builder, sig);
    Ok(builder.import_function(callee(alloc, sig)?)?)
}

// The blocks: the first one, which is the current one, with v0, v1 and v2, one that takes v3, and two more.
fn blocks(rt: &impl Abort, builder: &mut FunctionBuilder<'_>) -> [Value; 3] {
    let entry = new_block(rt, builder);
    let taking = new_block(rt, builder);
    new_block(rt, builder);
    new_block(rt, builder);
    let x = param(rt, builder, entry, I32);
    let y = param(rt, builder, entry, I32);
    let p = param(rt, builder, entry, I64);
    param(rt, builder, taking, I32);
    enter(rt, builder, entry);
    [x, y, p]
}

/// Makes what the instruction of a row may name, and the blocks.
pub fn prepared(
    rt: &impl Abort,
    alloc: Global,
    builder: &mut FunctionBuilder<'_>,
) -> Result<Given, Fail> {
    let slot = builder.create_sized_stack_slot(StackSlotData::new(8, 3))?;
    let sig = builder.import_signature(signature(alloc)?)?;
    let function = import(rt, alloc, builder, sig)?;
    let [x, y, p] = blocks(rt, builder);
    Ok(Given {
        x,
        y,
        p,
        slot,
        sig,
        function,
    })
}

/// Makes the instruction of a row by `ins()`.
pub fn makes(rt: &impl Abort, builder: &mut FunctionBuilder<'_>, opcode: Opcode, given: &Given) {
    asserts_current(rt, builder);
    asserts_values(rt, builder, given);
    asserts_slot(rt, builder, given.slot);
    asserts_signature(rt, builder, given.sig);
    asserts_function(rt, builder, given.function);
    assert!(rt; make(builder.ins(), opcode, given));
}

/// Makes the instruction of a row by the builder's cursor.
pub fn makes_at_cursor(
    rt: &impl Abort,
    builder: &mut FunctionBuilder<'_>,
    opcode: Opcode,
    given: &Given,
) {
    asserts_current(rt, builder);
    asserts_values(rt, builder, given);
    asserts_slot(rt, builder, given.slot);
    asserts_signature(rt, builder, given.sig);
    asserts_function(rt, builder, given.function);
    assert!(rt; make(builder.cursor().ins(), opcode, given));
}

/// Makes the instruction of a row by the method for its format.
pub fn makes_format(
    rt: &impl Abort,
    builder: &mut FunctionBuilder<'_>,
    opcode: Opcode,
    given: &Given,
) {
    asserts_current(rt, builder);
    asserts_value(rt, builder, given.x);
    asserts_value(rt, builder, given.y);
    asserts_slot(rt, builder, given.slot);
    assert!(rt; make_by_format(builder.ins(), opcode, given));
}

/// Makes a jump or a branch to the blocks after the first.
pub fn branches(rt: &impl Abort, builder: &mut FunctionBuilder<'_>, opcode: Opcode, given: &Given) {
    let (first, second) = (Block::new(1), Block::new(2));
    asserts_current(rt, builder);
    asserts_value(rt, builder, given.x);
    asserts_value(rt, builder, given.y);
    asserts_target(rt, builder, first);
    asserts_target(rt, builder, second);
    assert!(rt; branch(builder.ins(), opcode, given, first, second));
}
