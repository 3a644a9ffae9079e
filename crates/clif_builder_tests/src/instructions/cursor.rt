//! The rows by `FuncCursor::ins`, on a function that no builder builds.
#![tactic(auto)]

ghost use Rattle.std.specs.Prelude.{◌≡◌, ◌<◌, length};
ghost use Rattle.clif_ir.specs.Body.{value_at};
ghost use Rattle.clif_cursor.specs.Cursor.{CanAppend};

use crate::instructions::fixture::{Given, callee, function, is_row, is_same_type, signature};
use crate::instructions::methods::{branch, make};
use crate::instructions::rows::{Row, branch_rows, rows};
use cranelift_frontend::types::{I32, I64};
use cranelift_frontend::{
    Block, EntityRef, FuncCursor, FuncRef, Function, Opcode, SigRef, StackSlotData, Type, Value,
};
use std::alloc::Global;
use std::process::Abort;
use std::test::Fail;

// Asserts that a value exists and has a type.
fn asserts_typed(rt: &impl Abort, cursor: &FuncCursor<'_>, value: Value, ty: Type)
    ensures exists { value < length cursor.now.func.now.values }
    ensures ty { (value_at cursor.now.func.now value).ty ≡ ty }
{
    assert!(rt; value.index() < cursor.func().value_count());
    assert!(rt; is_same_type(cursor.func().value_type(value), ty));
}

// Asserts that the cursor's block exists and isn't filled.
fn asserts_open(rt: &impl Abort, cursor: &FuncCursor<'_>)
    ensures { CanAppend cursor.now }
{
    assert!(rt; cursor.current_block().index() < cursor.func().block_count());
    assert!(rt; !cursor.is_filled());
}

// Asserts that the values that an instruction may name exist, with their types.
fn asserts_values(rt: &impl Abort, cursor: &FuncCursor<'_>, given: &Given)
    ensures x { given.now.x < length cursor.now.func.now.values }
    ensures x_type { (value_at cursor.now.func.now given.now.x).ty ≡ I32 }
    ensures y { given.now.y < length cursor.now.func.now.values }
    ensures p { given.now.p < length cursor.now.func.now.values }
    ensures p_type { (value_at cursor.now.func.now given.now.p).ty ≡ I64 }
{
    asserts_typed(rt, cursor, given.x, I32);
    asserts_typed(rt, cursor, given.y, I32);
    asserts_typed(rt, cursor, given.p, I64);
}

// Asserts that the entries of tables that an instruction may name exist.
fn asserts_entries(rt: &impl Abort, cursor: &FuncCursor<'_>, given: &Given)
    ensures slot { given.now.slot < length cursor.now.func.now.tables.stack_slots }
    ensures sig { given.now.sig < length cursor.now.func.now.tables.signatures }
    ensures function { given.now.function < length cursor.now.func.now.tables.functions }
{
    assert!(rt; given.slot.index() < cursor.func().tables().stack_slot_count());
    assert!(rt; given.sig.index() < cursor.func().tables().signature_count());
    assert!(rt; given.function.index() < cursor.func().tables().function_count());
}

// A new block.
fn new_block(rt: &impl Abort, func: &mut Function) -> Block {
    func.create_block().expect(rt, "a block")
}

// A parameter of a block.
fn param(rt: &impl Abort, func: &mut Function, block: Block, ty: Type) -> Value {
    assert!(rt; block.index() < func.block_count());
    func.append_block_param(block, ty).expect(rt, "a parameter")
}

fn asserts_signature(rt: &impl Abort, func: &Function, signature: SigRef)
    ensures { signature < length func.now.tables.signatures }
{
    assert!(rt; signature.index() < func.tables().signature_count());
}

fn import(
    rt: &impl Abort,
    alloc: Global,
    func: &mut Function,
    sig: SigRef,
) -> Result<FuncRef, Fail> {
    asserts_signature(rt, func, sig);
    Ok(func.import_function(callee(alloc, sig)?)?)
}

// The blocks: the first one, with v0, v1 and v2, one that takes v3, and two more.
fn blocks(rt: &impl Abort, func: &mut Function) -> [Value; 3] {
    let entry = new_block(rt, func);
    let taking = new_block(rt, func);
    new_block(rt, func);
    new_block(rt, func);
    let x = param(rt, func, entry, I32);
    let y = param(rt, func, entry, I32);
    let p = param(rt, func, entry, I64);
    param(rt, func, taking, I32);
    [x, y, p]
}

// Makes what the instruction of a row may name, and the blocks, of which the first one is laid out.
fn prepared(rt: &impl Abort, alloc: Global, func: &mut Function) -> Result<Given, Fail> {
    let slot = func.create_sized_stack_slot(StackSlotData::new(8, 3))?;
    let sig = func.import_signature(signature(alloc)?)?;
    let function = import(rt, alloc, func, sig)?;
    let [x, y, p] = blocks(rt, func);
    let entry = Block::new(0);
    assert!(rt; entry.index() < func.block_count());
    func.ensure_block_inserted(entry)?;
    Ok(Given {
        x,
        y,
        p,
        slot,
        sig,
        function,
    })
}

// Makes the instruction of a row in the first block.
fn makes(rt: &impl Abort, func: &mut Function, opcode: Opcode, given: &Given) {
    let entry = Block::new(0);
    assert!(rt; entry.index() < func.block_count());
    let mut cursor = FuncCursor::new(func, entry);
    asserts_open(rt, &cursor);
    asserts_values(rt, &cursor, given);
    asserts_entries(rt, &cursor, given);
    assert!(rt; make(cursor.ins(), opcode, given));
}

// Makes a jump or a branch to the blocks after the first.
fn branches(rt: &impl Abort, func: &mut Function, opcode: Opcode, given: &Given) {
    let (entry, first, second) = (Block::new(0), Block::new(1), Block::new(2));
    assert!(rt; entry.index() < func.block_count());
    let mut cursor = FuncCursor::new(func, entry);
    asserts_open(rt, &cursor);
    asserts_typed(rt, &cursor, given.x, I32);
    asserts_typed(rt, &cursor, given.y, I32);
    assert!(rt; first.index() < cursor.func().block_count());
    assert!(rt; second.index() < cursor.func().block_count());
    assert!(rt; branch(cursor.ins(), opcode, given, first, second));
}

fn made(rt: &impl Abort, func: &mut Function, opcode: Opcode, given: &Given) {
    match opcode {
        Opcode::Jump | Opcode::Brif => branches(rt, func, opcode, given),
        _ => makes(rt, func, opcode, given),
    }
}

fn in_function(rt: &impl Abort, alloc: Global, func: &mut Function, row: &Row) -> Result<(), Fail> {
    let given = prepared(rt, alloc, func)?;
    made(rt, func, row.0, &given);
    is_row(rt, alloc, func, row)
}

fn by_cursor(rt: &impl Abort, alloc: Global, row: &Row) -> Result<(), Fail> {
    let mut func = function(alloc)?;
    in_function(rt, alloc, &mut func, row)
}

/// Each method of the cursor for an instruction without edges.
#[test]
fn methods_of_func_cursor(rt: HostRuntime) -> Result<(), Fail> {
    for row in rows() {
        by_cursor(&rt, rt.alloc(), row)?;
    }
    Ok(())
}

/// The methods of the cursor for a jump and a branch.
#[test]
fn branches_of_func_cursor(rt: HostRuntime) -> Result<(), Fail> {
    for row in branch_rows() {
        by_cursor(&rt, rt.alloc(), row)?;
    }
    Ok(())
}
