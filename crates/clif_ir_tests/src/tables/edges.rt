//! The edges of jump tables and exception tables, in the order in which they are printed.
#![tactic(auto)]

use crate::support::{b, v};
use clif_instructions::block_call::{BlockArg, BlockCall};
use clif_instructions::instructions::InstructionData;
use clif_instructions::jump_table::JumpTableData;
use clif_instructions::value_list::ValueList;
use clif_tables::{
    ExceptionItem, ExceptionTableData, ExceptionTableItem, ExceptionTargets, Tables,
};
use clif_types::{BuildError, EntityRef, ExceptionTable, FuncRef, JumpTable, SigRef};
use std::alloc::Global;
use std::fmt::Write;
use std::process::Abort;
use std::test::Fail;

// An edge to a block that passes this.
fn edge(
    rt: &impl Abort,
    alloc: Global,
    number: u32,
    args: &[BlockArg],
) -> Result<BlockCall, BuildError> {
    BlockCall::new(alloc, b(rt, number), args)
}

// Edges to these blocks that pass nothing.
fn plain(rt: &impl Abort, alloc: Global, numbers: &[u32]) -> Result<Vec<BlockCall>, BuildError> {
    let mut edges = Vec::new(alloc);
    for number in numbers {
        edges.push(edge(rt, alloc, *number, &[])?)?;
    }
    Ok(edges)
}

// Puts the target of an edge and what it passes at the end of a text.
fn push_edge(text: &mut String, edge: &BlockCall) -> Result<(), Fail> {
    let block = edge.block;
    write!(text, "{block}")?;
    for arg in edge.args.as_slice() {
        write!(text, " {arg}")?;
    }
    text.push(';')?;
    Ok(())
}

// Asserts edges, each by its target and what it passes.
fn are_edges(
    rt: &impl Abort,
    alloc: Global,
    edges: &[BlockCall],
    expected: &str,
) -> Result<(), Fail> {
    let mut text = String::new(alloc);
    for edge in edges {
        push_edge(&mut text, edge)?;
    }
    assert!(rt; text.as_str() == expected);
    Ok(())
}

// A jump table with default block3(v1) and the entries block1, block3 and block2.
fn jump_table(rt: &impl Abort, alloc: Global, tables: &mut Tables) -> Result<JumpTable, Fail> {
    let default = edge(rt, alloc, 3, &[BlockArg::Value(v(rt, 1))])?;
    let entries = plain(rt, alloc, &[1, 3, 2])?;
    Ok(tables.create_jump_table(JumpTableData::new(default, entries)?)?)
}

// Asserts the parts of the jump table above.
fn has_jump_parts(rt: &impl Abort, alloc: Global, table: &JumpTableData) -> Result<(), Fail> {
    assert!(rt; table.default_block().block == b(rt, 3));
    are_edges(rt, alloc, table.as_slice(), "block1;block3;block2;")?;
    are_edges(
        rt,
        alloc,
        table.all_branches(),
        "block3 v1;block1;block3;block2;",
    )
}

// The edges to block3 go to block5 and pass what they passed; and then each edge of the instruction that the table serves
// passes a value to block5.
fn changes_jump_table(rt: &impl Abort, alloc: Global, tables: &mut Tables) -> Result<(), Fail> {
    let number = jump_table(rt, alloc, tables)?;
    has_jump_parts(rt, alloc, tables.jump_table(number).expect(rt, "a table"))?;
    let mut table = tables.take_jump_table(number).expect(rt, "a table");
    table.change_target(b(rt, 3), b(rt, 5));
    are_edges(
        rt,
        alloc,
        table.all_branches(),
        "block5 v1;block1;block5;block2;",
    )?;
    let arg = v(rt, 0);
    let mut branch = InstructionData::BranchTable { arg, table };
    branch.append_argument(b(rt, 5), v(rt, 9))?;
    let edges = branch.branch_destination();
    are_edges(rt, alloc, edges, "block5 v1 v9;block1;block5 v9;block2;")
}

// The edges of a table are there until they are taken, and it still counts.
fn serves_once(rt: &impl Abort, alloc: Global, tables: &mut Tables) -> Result<(), Fail> {
    let number = jump_table(rt, alloc, tables)?;
    assert!(rt; tables.jump_table(number).is_some());
    assert!(rt; tables.take_jump_table(number).is_some());
    assert!(rt; tables.jump_table(number).is_none());
    assert!(rt; tables.take_jump_table(number).is_none());
    assert!(rt; tables.jump_table_count() == 1);
    Ok(())
}

#[test]
fn jump_tables(rt: HostRuntime) -> Result<(), Fail> {
    let mut tables = Tables::new(rt.alloc());
    changes_jump_table(&rt, rt.alloc(), &mut tables)
}

#[test]
fn jump_tables_serve_one_instruction(rt: HostRuntime) -> Result<(), Fail> {
    let mut tables = Tables::new(rt.alloc());
    serves_once(&rt, rt.alloc(), &mut tables)
}

// The table `sig0, block3(ret0), [ tag1: block2(exn0), default: block4, context v5 ]`.
fn exception_table(
    rt: &impl Abort,
    alloc: Global,
    tables: &mut Tables,
) -> Result<ExceptionTable, Fail> {
    let tagged = edge(rt, alloc, 2, &[BlockArg::TryCallExn(0)])?;
    let mut items = Vec::new(alloc);
    items.push(ExceptionTableItem::Tag(1, tagged))?;
    items.push(ExceptionTableItem::Default(edge(rt, alloc, 4, &[])?))?;
    items.push(ExceptionTableItem::Context(v(rt, 5)))?;
    let normal = edge(rt, alloc, 3, &[BlockArg::TryCallRet(0)])?;
    let sig = SigRef::from_u32(0);
    Ok(tables.create_exception_table(ExceptionTableData { sig, normal, items })?)
}

// Asserts the parts of the exception table above.
fn has_exception_parts(rt: &impl Abort, table: &ExceptionTargets) {
    assert!(rt; table.signature() == SigRef::from_u32(0));
    assert!(rt; table.normal_return().block == b(rt, 3));
    match table.items() {
        [
            ExceptionItem::Tag(tag),
            ExceptionItem::Default,
            ExceptionItem::Context(context),
        ] => {
            assert!(rt; *tag == 1 && *context == v(rt, 5));
        }
        _ => assert!(rt; false),
    }
}

// The edges to block2 go to block4 and pass what they passed; and then each edge of the call that the table serves passes
// a value to block4.
fn changes_exception_table(
    rt: &impl Abort,
    alloc: Global,
    tables: &mut Tables,
) -> Result<(), Fail> {
    let number = exception_table(rt, alloc, tables)?;
    let found = tables.exception_table(number).expect(rt, "a table");
    has_exception_parts(rt, found);
    let edges = found.all_branches();
    are_edges(rt, alloc, edges, "block3 ret0;block2 exn0;block4;")?;
    let mut exception = tables.take_exception_table(number).expect(rt, "a table");
    has_exception_parts(rt, &exception);
    exception.change_target(b(rt, 2), b(rt, 4));
    let edges = exception.all_branches();
    are_edges(rt, alloc, edges, "block3 ret0;block4 exn0;block4;")?;
    let func_ref = FuncRef::from_u32(0);
    let args = ValueList::new(alloc);
    let mut call = InstructionData::TryCall {
        func_ref,
        args,
        exception,
    };
    call.append_argument(b(rt, 4), v(rt, 7))?;
    let edges = call.branch_destination();
    are_edges(rt, alloc, edges, "block3 ret0;block4 exn0 v7;block4 v7;")
}

// An exception table is there until it is taken, and it still counts.
fn exceptions_serve_once(rt: &impl Abort, alloc: Global, tables: &mut Tables) -> Result<(), Fail> {
    let first = exception_table(rt, alloc, tables)?;
    let second = exception_table(rt, alloc, tables)?;
    assert!(rt; tables.exception_table(first).is_some());
    assert!(rt; tables.take_exception_table(first).is_some());
    assert!(rt; tables.exception_table(first).is_none());
    assert!(rt; tables.take_exception_table(first).is_none());
    assert!(rt; tables.exception_table(second).is_some());
    assert!(rt; tables.exception_table_count() == 2);
    let none = ExceptionTable::from_u32(2);
    assert!(rt; tables.exception_table(none).is_none());
    assert!(rt; tables.take_exception_table(none).is_none());
    Ok(())
}

#[test]
fn exception_tables(rt: HostRuntime) -> Result<(), Fail> {
    let mut tables = Tables::new(rt.alloc());
    changes_exception_table(&rt, rt.alloc(), &mut tables)
}

#[test]
fn exception_tables_serve_one_instruction(rt: HostRuntime) -> Result<(), Fail> {
    let mut tables = Tables::new(rt.alloc());
    exceptions_serve_once(&rt, rt.alloc(), &mut tables)
}
