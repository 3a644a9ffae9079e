//! Instructions that a cursor appends.
#![tactic(auto)]

ghost use Rattle.std.specs.Prelude.{◌≡◌, ◌<◌, length, IfOk, OnOk, Some};
ghost use Rattle.clif_ir.specs.Body.{value_at};
ghost use Rattle.clif_inst_builder.specs.Served.{exception_tables, unserved_in};
ghost use Rattle.clif_cursor.specs.Cursor.{CanAppend};
ghost use Rattle.clif_ir_tests.specs.Tables.{to_block};

use crate::steps::Step::{LaidOut, Param};
use crate::steps::{SAMPLE, made_by};
use crate::support::{block_of, prints, value_of};
use clif_cursor::{FuncCursor, InstBuilder};
use clif_ir::{BlockArg, BlockCall, ExceptionTableData, Function};
use clif_types::types::{I8, I64};
use clif_types::{
    AbiParam, Block, BuildError, CallConv, EntityRef, ExceptionTable, ExtFuncData, ExternalName,
    FuncRef, Inst, MemFlagsData, SigRef, Signature, SourceLoc, Type, Value,
};
use std::alloc::Global;
use std::process::Abort;
use std::test::Fail;

// Appends a sum, a store of it, and both halves of it and `x` together.
fn compute(cursor: &mut FuncCursor<'_>, x: Value) -> Result<(), BuildError>
    requires open { CanAppend cursor.old }
    requires x_exists { x < length cursor.old.func.now.values }
    requires x_type { (value_at cursor.old.func.now x).ty ≡ I64 }
    ensures open { OnOk result (CanAppend cursor.new) }
{
    let seven = cursor.ins().iconst(I64, 7)?;
    let sum = cursor.ins().iadd(x, seven)?;
    cursor.ins().store(MemFlagsData::new(), sum, x, 8)?;
    let whole = cursor.ins().iconcat(sum, x)?;
    cursor.ins().isplit(whole)?;
    Ok(())
}

// Each instruction at the end of its block, with the source place that the cursor had.
#[test]
fn appended(rt: HostRuntime) -> Result<(), Fail> {
    let mut func = made_by(&rt, rt.alloc(), SAMPLE, &[LaidOut, LaidOut], "appended")?;
    let (first, second) = (block_of(&rt, &func, 0), block_of(&rt, &func, 1));
    let x = func.append_block_param(first, I64)?;
    let mut cursor = FuncCursor::new(&mut func, first);
    cursor.set_srcloc(SourceLoc::new(17));
    assert!(rt; first.index() < cursor.func().block_count());
    assert!(rt; !cursor.is_filled());
    compute(&mut cursor, x)?;
    assert!(rt; second.index() < cursor.func().block_count());
    cursor.ins().jump(second, &[])?;
    assert!(rt; second.index() < cursor.func().block_count());
    cursor.goto_bottom(second);
    assert!(rt; !cursor.is_filled());
    cursor.set_srcloc(SourceLoc::new(18));
    cursor.ins().return_(&[])?;
    assert!(rt; second.index() < cursor.func().block_count());
    assert!(rt; cursor.is_filled());
    let last = Inst::new(6);
    assert!(rt; last.index() < func.inst_count());
    assert!(rt; func.srcloc(last) == SourceLoc::new(18));
    let text =
        "function %sample() system_v {\nblock0(v0: i64):\n    v1 = iconst.i64 7\n    v2 = iadd v0, v1  ; v1 = 7\n    store v2, v0+8\n    v3 = iconcat v2, v0\n    v4, v5 = isplit v3\n    jump block1\n\nblock1:\n    return\n}\n";
    prints(&rt, &func, text, "appended")
}

// Calls a function with `x`, and then what is at the address `x`.
fn call_both(
    cursor: &mut FuncCursor<'_>,
    sig: SigRef,
    function: FuncRef,
    x: Value,
) -> Result<(), BuildError>
    requires open { CanAppend cursor.old }
    requires x_exists { x < length cursor.old.func.now.values }
    requires sig_exists { sig < length cursor.old.func.now.tables.signatures }
    requires function_exists { function < length cursor.old.func.now.tables.functions }
    ensures open { OnOk result (CanAppend cursor.new) }
{
    cursor.ins().call(function, &[x])?;
    cursor.ins().call_indirect(sig, x, &[])?;
    Ok(())
}

// Imports a signature that returns two values, and the function `g` with it.
fn imports(rt: &impl Abort, alloc: Global, func: &mut Function) -> Result<(SigRef, FuncRef), Fail> {
    let mut signature = Signature::new(alloc, CallConv::Fast);
    signature.returns.push(AbiParam::new(I64))?;
    signature.returns.push(AbiParam::new(I8))?;
    let sig = func.import_signature(signature)?;
    assert!(rt; sig.index() < func.tables().signature_count());
    let name = ExternalName::testcase(String::from_str(alloc, "g")?);
    let function = func.import_function(ExtFuncData {
        name,
        signature: sig,
        colocated: true,
        patchable: false,
    })?;
    Ok((sig, function))
}

// A call's results get the next numbers, as many as its signature returns.
#[test]
fn calls(rt: HostRuntime) -> Result<(), Fail> {
    let mut func = made_by(&rt, rt.alloc(), SAMPLE, &[LaidOut], "calls")?;
    let (sig, function) = imports(&rt, rt.alloc(), &mut func)?;
    let block = block_of(&rt, &func, 0);
    let x = func.append_block_param(block, I64)?;
    let mut cursor = FuncCursor::new(&mut func, block);
    assert!(rt; block.index() < cursor.func().block_count());
    assert!(rt; !cursor.is_filled());
    assert!(rt; x.index() < cursor.func().value_count());
    assert!(rt; sig.index() < cursor.func().tables().signature_count());
    assert!(rt; function.index() < cursor.func().tables().function_count());
    call_both(&mut cursor, sig, function, x)?;
    let text =
        "function %sample() system_v {\n    sig0 = () -> i64, i8 fast\n    fn0 = colocated %g sig0\n\nblock0(v0: i64):\n    v1, v2 = call fn0(v0)\n    v3, v4 = call_indirect sig0, v0()\n}\n";
    prints(&rt, &func, text, "calls")
}

// Makes a table by which a call goes to `after` with what it gave, and nothing catches an exception.
fn table_to(
    alloc: Global,
    func: &mut Function,
    sig: SigRef,
    after: Block,
) -> Result<ExceptionTable, BuildError>
    ensures { IfOk result (λ table. unserved_in exception_tables func.new.tables table
        ≡ Some (to_block sig after)) }
{
    let normal = BlockCall::new(alloc, after, &[BlockArg::TryCallRet(0)])?;
    let items = Vec::new(alloc);
    let data = ExceptionTableData { sig, normal, items };
    func.create_exception_table(data)
}

// Ends `block` with a try call of a function, which goes to `after`.
fn ends_with_try(
    rt: &impl Abort,
    alloc: Global,
    func: &mut Function,
    callee: (SigRef, FuncRef),
    x: Value,
    blocks: [Block; 2],
) -> Result<(), Fail> {
    let (sig, function) = callee;
    let [block, after] = blocks;
    let table = table_to(alloc, func, sig, after)?;
    assert!(rt; block.index() < func.block_count());
    let mut cursor = FuncCursor::new(func, block);
    assert!(rt; after.index() < cursor.func().block_count());
    assert!(rt; !cursor.is_filled());
    assert!(rt; x.index() < cursor.func().value_count());
    assert!(rt; sig.index() < cursor.func().tables().signature_count());
    assert!(rt; function.index() < cursor.func().tables().function_count());
    cursor.ins().try_call(function, &[x], table)?;
    assert!(rt; cursor.func().tables().exception_table(table).is_none());
    Ok(())
}

// A try call takes its table, which serves nothing else.
#[test]
fn try_calls(rt: HostRuntime) -> Result<(), Fail> {
    let steps = [LaidOut, LaidOut, Param(0, I64), Param(1, I64)];
    let mut func = made_by(&rt, rt.alloc(), SAMPLE, &steps, "try_calls")?;
    let callee = imports(&rt, rt.alloc(), &mut func)?;
    let (block, after) = (block_of(&rt, &func, 0), block_of(&rt, &func, 1));
    let x = value_of(&rt, &func, 0);
    ends_with_try(&rt, rt.alloc(), &mut func, callee, x, [block, after])?;
    let text =
        "function %sample() system_v {\n    sig0 = () -> i64, i8 fast\n    fn0 = colocated %g sig0\n\nblock0(v0: i64):\n    try_call fn0(v0), sig0, block1(ret0), []\n\nblock1(v1: i64):\n}\n";
    prints(&rt, &func, text, "try_calls")
}
