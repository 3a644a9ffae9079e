//! Branches by a jump table, and pooled constants, by a cursor.
#![tactic(auto)]

ghost use Rattle.std.specs.Prelude.{◌≡◌, IfOk, Some};
ghost use Rattle.clif_inst_builder.specs.Served.{jump_tables, unserved_in};
ghost use Rattle.clif_cursor.specs.Cursor.{CanAppend};
ghost use Rattle.clif_ir_tests.specs.Tables.{two_edges};

use crate::steps::Step::{LaidOut, Param};
use crate::steps::{SAMPLE, made_by};
use crate::support::{block_of, prints, value_of};
use clif_cursor::{FuncCursor, InstBuilder};
use clif_ir::{BlockCall, Function, JumpTableData};
use clif_types::types::{I8X16, I32};
use clif_types::{Block, BuildError, EntityRef, JumpTable, Value};
use std::alloc::Global;
use std::process::Abort;
use std::test::Fail;

// A float and a vector of the same bytes.
fn constants(cursor: &mut FuncCursor<'_>) -> Result<(), BuildError>
    requires { CanAppend cursor.old }
{
    let bytes = [1, 2, 3, 4, 5, 6, 7, 8, 9, 10, 11, 12, 13, 14, 15, 16];
    cursor.ins().f128const(&bytes)?;
    cursor.ins().vconst(I8X16, &bytes)?;
    Ok(())
}

// Equal bytes are one constant of the function.
#[test]
fn pooled(rt: HostRuntime) -> Result<(), Fail> {
    let mut func = made_by(&rt, rt.alloc(), SAMPLE, &[LaidOut], "pooled")?;
    let block = block_of(&rt, &func, 0);
    let mut cursor = FuncCursor::new(&mut func, block);
    assert!(rt; block.index() < cursor.func().block_count());
    assert!(rt; !cursor.is_filled());
    constants(&mut cursor)?;
    let text =
        "function %sample() system_v {\n    const0 = 0x100f0e0d0c0b0a090807060504030201\n\nblock0:\n    v0 = f128const const0\n    v1 = vconst.i8x16 const0\n}\n";
    prints(&rt, &func, text, "pooled")
}

// Makes a table that goes to the first block, or to the second one.
fn table_to(
    alloc: Global,
    func: &mut Function,
    default: Block,
    other: Block,
) -> Result<JumpTable, BuildError>
    ensures { IfOk result (λ table.
        unserved_in jump_tables func.new.tables table ≡ Some (two_edges default other)) }
{
    let mut entries = Vec::new(alloc);
    entries.push(BlockCall::new(alloc, other, &[])?)?;
    let data = JumpTableData::new(BlockCall::new(alloc, default, &[])?, entries)?;
    func.create_jump_table(data)
}

// Ends `block` with a branch by a table, which goes to one of the others.
fn ends_with_table(
    rt: &impl Abort,
    alloc: Global,
    func: &mut Function,
    x: Value,
    blocks: [Block; 3],
) -> Result<(), Fail> {
    let [block, default, other] = blocks;
    let table = table_to(alloc, func, default, other)?;
    assert!(rt; block.index() < func.block_count());
    let mut cursor = FuncCursor::new(func, block);
    assert!(rt; default.index() < cursor.func().block_count());
    assert!(rt; other.index() < cursor.func().block_count());
    assert!(rt; !cursor.is_filled());
    assert!(rt; x.index() < cursor.func().value_count());
    cursor.ins().br_table(x, table)?;
    assert!(rt; cursor.func().tables().jump_table(table).is_none());
    Ok(())
}

// A branch takes its table, which serves nothing else.
#[test]
fn branches(rt: HostRuntime) -> Result<(), Fail> {
    let steps = [LaidOut, LaidOut, LaidOut, Param(0, I32)];
    let mut func = made_by(&rt, rt.alloc(), SAMPLE, &steps, "branches")?;
    let blocks = [
        block_of(&rt, &func, 0),
        block_of(&rt, &func, 1),
        block_of(&rt, &func, 2),
    ];
    let x = value_of(&rt, &func, 0);
    ends_with_table(&rt, rt.alloc(), &mut func, x, blocks)?;
    let text =
        "function %sample() system_v {\nblock0(v0: i32):\n    br_table v0, block1, [block2]\n\nblock1:\n\nblock2:\n}\n";
    prints(&rt, &func, text, "branches")
}
