//! Returns, branches and calls as plain data, where functions, signatures, blocks and values are named by their numbers.
#![tactic(auto)]

use crate::support::{b, below_1000, v};
use clif_instructions::block_call::{BlockArg, BlockCall};
use clif_instructions::exception_table::{
    ExceptionTableData, ExceptionTableItem, ExceptionTargets,
};
use clif_instructions::instructions::InstructionData;
use clif_instructions::jump_table::JumpTableData;
use clif_instructions::value_list::ValueList;
use clif_ir::function::Function;
use clif_types::{EntityRef, FuncRef, SigRef};
use std::alloc::Global;
use std::process::Abort;
use std::test::Fail;

/// A return, a branch or a call.
#[derive(Clone, Copy)]
pub enum Transfer<'a> {
    /// A return of values.
    Return(&'a [u32]),
    /// A jump.
    Jump(To<'a>),
    /// A branch by a value: the edge along which it goes where the value isn't zero, and the other one.
    Brif(u32, To<'a>, To<'a>),
    /// A branch by a table: the value, the default block, and those of the entries.
    BranchTable(u32, u32, &'a [u32]),
    /// A call of a function.
    Call(u32, &'a [u32]),
    /// A call by a signature. The first operand is the address.
    CallIndirect(u32, &'a [u32]),
    /// A call of a function that may throw.
    TryCall(u32, &'a [u32], Throws<'a>),
    /// A call that may throw. The first operand is the address.
    TryCallIndirect(&'a [u32], Throws<'a>),
}

/// An edge: its target, and what it passes.
#[derive(Clone, Copy)]
pub struct To<'a>(pub u32, pub &'a [Arg]);

/// What an edge passes: a value, what a call returned, or what it threw.
#[derive(Clone, Copy)]
pub enum Arg {
    Known(u32),
    Ret(u32),
    Exn(u32),
}

/// Where a call goes: its signature, the edge where it returns, and the items.
#[derive(Clone, Copy)]
pub struct Throws<'a> {
    pub sig: u32,
    pub normal: To<'a>,
    pub items: &'a [Item<'a>],
}

/// An item of an exception table.
#[derive(Clone, Copy)]
pub enum Item<'a> {
    Tag(u32, To<'a>),
    Default(To<'a>),
    Context(u32),
}

fn values(rt: &impl Abort, alloc: Global, numbers: &[u32]) -> Result<ValueList, Fail> {
    let mut list = ValueList::new(alloc);
    for number in numbers {
        list.push(v(rt, *number))?;
    }
    Ok(list)
}

fn arg_of(rt: &impl Abort, arg: Arg) -> BlockArg {
    match arg {
        Arg::Known(number) => BlockArg::Value(v(rt, number)),
        Arg::Ret(place) => BlockArg::TryCallRet(place),
        Arg::Exn(place) => BlockArg::TryCallExn(place),
    }
}

/// An edge.
pub fn edge_of(rt: &impl Abort, alloc: Global, to: To<'_>) -> Result<BlockCall, Fail> {
    let mut call = BlockCall::new(alloc, b(rt, to.0), &[])?;
    for arg in to.1 {
        call.args.push(arg_of(rt, *arg))?;
    }
    Ok(call)
}

// A jump table that a function made, and that an instruction takes.
fn jump_table_of(
    rt: &impl Abort,
    func: &mut Function,
    default: u32,
    entries: &[u32],
) -> Result<JumpTableData, Fail> {
    let alloc = func.allocator();
    let mut edges = Vec::new(alloc);
    for entry in entries {
        edges.push(edge_of(rt, alloc, To(*entry, &[]))?)?;
    }
    let default = edge_of(rt, alloc, To(default, &[]))?;
    let number = func.create_jump_table(JumpTableData::new(default, edges)?)?;
    let table = func.take_jump_table(number).expect(rt, "a table");
    assert!(rt; func.take_jump_table(number).is_none());
    Ok(table)
}

fn item_of(rt: &impl Abort, alloc: Global, item: Item<'_>) -> Result<ExceptionTableItem, Fail> {
    Ok(match item {
        Item::Tag(tag, to) => ExceptionTableItem::Tag(tag, edge_of(rt, alloc, to)?),
        Item::Default(to) => ExceptionTableItem::Default(edge_of(rt, alloc, to)?),
        Item::Context(value) => ExceptionTableItem::Context(v(rt, value)),
    })
}

// An exception table that a function made, and that an instruction takes.
fn exception_of(
    rt: &impl Abort,
    func: &mut Function,
    throws: Throws<'_>,
) -> Result<ExceptionTargets, Fail> {
    let alloc = func.allocator();
    let mut items = Vec::new(alloc);
    for item in throws.items {
        items.push(item_of(rt, alloc, *item)?)?;
    }
    let number = func.create_exception_table(ExceptionTableData {
        sig: SigRef::from_u32(below_1000(rt, throws.sig)),
        normal: edge_of(rt, alloc, throws.normal)?,
        items,
    })?;
    let exception = func.take_exception_table(number).expect(rt, "a table");
    assert!(rt; func.take_exception_table(number).is_none());
    Ok(exception)
}

fn branch_of(
    rt: &impl Abort,
    alloc: Global,
    x: u32,
    taken: To<'_>,
    other: To<'_>,
) -> Result<InstructionData, Fail> {
    let arg = v(rt, x);
    let taken = edge_of(rt, alloc, taken)?;
    let other = edge_of(rt, alloc, other)?;
    let blocks = [taken, other];
    Ok(InstructionData::Brif { arg, blocks })
}

fn table_branch_of(
    rt: &impl Abort,
    func: &mut Function,
    x: u32,
    default: u32,
    entries: &[u32],
) -> Result<InstructionData, Fail> {
    let arg = v(rt, x);
    let table = jump_table_of(rt, func, default, entries)?;
    Ok(InstructionData::BranchTable { arg, table })
}

fn call_of(
    rt: &impl Abort,
    alloc: Global,
    number: u32,
    args: &[u32],
) -> Result<InstructionData, Fail> {
    let func_ref = FuncRef::from_u32(below_1000(rt, number));
    let args = values(rt, alloc, args)?;
    Ok(InstructionData::Call { func_ref, args })
}

fn indirect_call_of(
    rt: &impl Abort,
    alloc: Global,
    sig: u32,
    args: &[u32],
) -> Result<InstructionData, Fail> {
    let sig_ref = SigRef::from_u32(below_1000(rt, sig));
    let args = values(rt, alloc, args)?;
    Ok(InstructionData::CallIndirect { sig_ref, args })
}

fn try_call_of(
    rt: &impl Abort,
    func: &mut Function,
    number: u32,
    args: &[u32],
    throws: Throws<'_>,
) -> Result<InstructionData, Fail> {
    let func_ref = FuncRef::from_u32(below_1000(rt, number));
    let args = values(rt, func.allocator(), args)?;
    let exception = exception_of(rt, func, throws)?;
    Ok(InstructionData::TryCall {
        func_ref,
        args,
        exception,
    })
}

fn indirect_try_call_of(
    rt: &impl Abort,
    func: &mut Function,
    args: &[u32],
    throws: Throws<'_>,
) -> Result<InstructionData, Fail> {
    let args = values(rt, func.allocator(), args)?;
    let exception = exception_of(rt, func, throws)?;
    Ok(InstructionData::TryCallIndirect { args, exception })
}

fn return_of(rt: &impl Abort, alloc: Global, args: &[u32]) -> Result<InstructionData, Fail> {
    let args = values(rt, alloc, args)?;
    Ok(InstructionData::MultiAry { args })
}

fn jump_of(rt: &impl Abort, alloc: Global, to: To<'_>) -> Result<InstructionData, Fail> {
    let destination = edge_of(rt, alloc, to)?;
    Ok(InstructionData::Jump { destination })
}

/// The shape of a return, a branch or a call.
pub fn transfer_of(
    rt: &impl Abort,
    func: &mut Function,
    transfer: Transfer<'_>,
) -> Result<InstructionData, Fail> {
    let alloc = func.allocator();
    match transfer {
        Transfer::Return(args) => return_of(rt, alloc, args),
        Transfer::Jump(to) => jump_of(rt, alloc, to),
        Transfer::Brif(x, taken, other) => branch_of(rt, alloc, x, taken, other),
        Transfer::BranchTable(x, default, entries) => {
            table_branch_of(rt, func, x, default, entries)
        }
        Transfer::Call(number, args) => call_of(rt, alloc, number, args),
        Transfer::CallIndirect(sig, args) => indirect_call_of(rt, alloc, sig, args),
        Transfer::TryCall(number, args, throws) => try_call_of(rt, func, number, args, throws),
        Transfer::TryCallIndirect(args, throws) => indirect_try_call_of(rt, func, args, throws),
    }
}
