//! Shapes of instructions, and the lists in them.
#![tactic(auto)]

use crate::instructions::Plain::{
    self, Binary, Concat, CondTrap, Float, Icmp, Load, Split, Stack, StackStore, Store, Trap,
};
use crate::instructions::{NO_FLAGS, shape_of};
use crate::steps::{SAMPLE, begun};
use crate::support::{b, v};
use crate::transfers::Item::{Context, Default, Tag};
use crate::transfers::Transfer::{self, Call, CallIndirect, Return, TryCall, TryCallIndirect};
use crate::transfers::{Throws, To, transfer_of};
use clif_instructions::block_call::{BlockArg, BlockArgs, BlockCall};
use clif_instructions::exception_table::ExceptionItem;
use clif_instructions::instructions::InstructionData;
use clif_instructions::value_list::ValueList;
use clif_opcodes::BinaryOpcode::Iadd;
use clif_opcodes::CondTrapOpcode::{Trapnz, Trapz};
use clif_opcodes::FloatConstOpcode::{F16const, F32const, F64const};
use clif_opcodes::ResultKind::{self, Controlling, Double, Exactly, Half};
use clif_opcodes::StackOpcode::{StackAddr, StackLoad};
use clif_types::IntCC::Equal;
use clif_types::TrapCode::User;
use clif_types::types::{F16, F32, F64, I8};
use clif_types::{Block, EntityRef, Value};
use std::process::Abort;
use std::test::Fail;

#[test]
fn values(rt: HostRuntime) -> Result<(), Fail> {
    let mut list = ValueList::new(rt.alloc());
    assert!(rt; list.as_slice().is_empty());
    for number in [5, 3, 5, 8, 2, 9] {
        list.push(v(&rt, number))?;
    }
    assert!(rt; list.as_slice().len() == 6);
    let same = ValueList::from_slice(rt.alloc(), list.as_slice())?;
    assert!(rt; same.as_slice() == list.as_slice());
    let three = v(&rt, 3);
    assert!(rt; list.as_slice().contains(&three));
    assert!(rt; list.place_of(three) == 1);
    list.remove(three);
    assert!(rt; list.as_slice().len() == 5);
    Ok(())
}

// Takes the first value with this number away.
fn take(rt: &impl Abort, list: &mut ValueList, number: u32) {
    let value = v(rt, number);
    assert!(rt; list.as_slice().contains(&value));
    list.remove(value);
}

// Asserts what a list holds.
fn holds(rt: &impl Abort, list: &ValueList, numbers: &[u32]) {
    assert!(rt; list.as_slice().len() == numbers.len());
    for (value, number) in list.as_slice().iter().zip(numbers) {
        assert!(rt; *value == v(rt, *number));
    }
}

// A long list grows from a short one, and values go from its front, from between others and from its back.
#[test]
fn long_lists(rt: HostRuntime) -> Result<(), Fail> {
    let mut list = ValueList::new(rt.alloc());
    for number in 0..20 {
        list.push(v(&rt, number))?;
    }
    let copied = ValueList::from_slice(rt.alloc(), list.as_slice())?;
    assert!(rt; copied.as_slice() == list.as_slice());
    for number in 0..9 {
        take(&rt, &mut list, number);
    }
    take(&rt, &mut list, 12);
    take(&rt, &mut list, 19);
    holds(&rt, &list, &[9, 10, 11, 13, 14, 15, 16, 17, 18]);
    list.push(v(&rt, 30))?;
    for number in 9..12 {
        take(&rt, &mut list, number);
    }
    assert!(rt; list.as_slice().len() > 2);
    list.set(2, v(&rt, 40));
    holds(&rt, &list, &[13, 14, 40, 16, 17, 18, 30]);
    Ok(())
}

#[test]
fn argument_texts(rt: HostRuntime) -> Result<(), Fail> {
    let three = BlockArg::Value(Value::from_u32(3));
    let result = BlockArg::TryCallRet(0);
    let payload = BlockArg::TryCallExn(1);
    let text = format!(in rt.alloc(); "{three} {result} {payload}")?;
    assert!(rt; text.as_str() == "v3 ret0 exn1");
    Ok(())
}

#[test]
fn arguments(rt: HostRuntime) -> Result<(), Fail> {
    let mut args = BlockArgs::new(rt.alloc());
    assert!(rt; args.as_slice().is_empty());
    args.push(BlockArg::TryCallRet(2))?;
    args.push(BlockArg::TryCallExn(0))?;
    args.pop();
    let one = [BlockArg::TryCallRet(2)];
    assert!(rt; args.as_slice() == one.as_slice());
    let copied = BlockArgs::from_slice(rt.alloc(), args.as_slice())?;
    assert!(rt; copied.as_slice() == one.as_slice());
    Ok(())
}

// Arguments are put behind others at each length from none to ten, and taken away.
#[test]
fn many_arguments(rt: HostRuntime) -> Result<(), Fail> {
    let mut args = BlockArgs::new(rt.alloc());
    for number in 0..10 {
        args.push(BlockArg::TryCallRet(number))?;
        let copied = BlockArgs::from_slice(rt.alloc(), args.as_slice())?;
        assert!(rt; copied.as_slice() == args.as_slice());
    }
    args.pop();
    assert!(rt; args.as_slice().len() == 9);
    for (number, arg) in (0..).zip(args.as_slice()) {
        assert!(rt; *arg == BlockArg::TryCallRet(number));
    }
    Ok(())
}

// Asserts that an instruction has one edge, which goes to block2, and what it passes.
fn passes(rt: &impl Abort, shape: &InstructionData, args: &[BlockArg]) {
    let edges = shape.branch_destination();
    assert!(rt; edges.len() == 1);
    assert!(rt; edges[0].block == b(rt, 2));
    assert!(rt; edges[0].args.as_slice() == args);
}

// A jump passes what it is made with.
#[test]
fn destinations(rt: HostRuntime) -> Result<(), Fail> {
    let argument = BlockArg::TryCallRet(1);
    let destination = BlockCall::new(rt.alloc(), Block::from_u32(2), &[argument])?;
    let jump = InstructionData::Jump { destination };
    assert!(rt; jump.is_branch() && jump.is_terminator() && !jump.has_result());
    assert!(rt; jump.arguments().is_empty());
    passes(&rt, &jump, &[argument]);
    Ok(())
}

// A jump passes what is appended for its target, and nothing that is appended for another block.
#[test]
fn arguments_appended(rt: HostRuntime) -> Result<(), Fail> {
    let destination = BlockCall::new(rt.alloc(), Block::from_u32(2), &[])?;
    let mut jump = InstructionData::Jump { destination };
    jump.append_argument(Block::from_u32(2), Value::from_u32(3))?;
    jump.append_argument(Block::from_u32(1), Value::from_u32(4))?;
    passes(&rt, &jump, &[BlockArg::Value(Value::from_u32(3))]);
    Ok(())
}

// Asserts the name of an instruction, its operands, the kinds of its results, and whether it ends its block.
fn is_of(
    rt: &impl Abort,
    shape: &InstructionData,
    name: &str,
    args: &[u32],
    results: &[ResultKind],
    ends: bool,
) {
    assert!(rt; shape.opcode().name() == name);
    assert!(rt; shape.arguments().len() == args.len());
    for (value, number) in shape.arguments().iter().zip(args.iter()) {
        assert!(rt; value.as_u32() == *number);
    }
    assert!(rt; shape.result_kinds() == results);
    assert!(rt; shape.has_result() == !results.is_empty());
    assert!(rt; shape.is_terminator() == ends);
}

// Instructions without edges, with their names, their operands, the kinds of their results, and whether they end their
// blocks.
static PLAIN: [(Plain, &str, &[u32], &[ResultKind], bool); 15] = [
    (Binary(Iadd, 1, 2), "iadd", &[1, 2], &[Controlling], false),
    (Float(F16const, 1), "f16const", &[], &[Exactly(F16)], false),
    (Float(F32const, 1), "f32const", &[], &[Exactly(F32)], false),
    (Float(F64const, 1), "f64const", &[], &[Exactly(F64)], false),
    (Icmp(Equal, 1, 2), "icmp", &[1, 2], &[Exactly(I8)], false),
    (Concat(1, 2), "iconcat", &[1, 2], &[Double], false),
    (Split(1), "isplit", &[1], &[Half, Half], false),
    (Load(NO_FLAGS, 1, 4), "load", &[1], &[Controlling], false),
    (Store(NO_FLAGS, 1, 2, 4), "store", &[1, 2], &[], false),
    (
        Stack(StackAddr, 0, 4),
        "stack_addr",
        &[],
        &[Controlling],
        false,
    ),
    (
        Stack(StackLoad, 0, 4),
        "stack_load",
        &[],
        &[Controlling],
        false,
    ),
    (StackStore(1, 0, 4), "stack_store", &[1], &[], false),
    (Trap(User(1)), "trap", &[], &[], true),
    (CondTrap(Trapz, 1, User(1)), "trapz", &[1], &[], false),
    (CondTrap(Trapnz, 1, User(1)), "trapnz", &[1], &[], false),
];

#[test]
fn plain_shapes(rt: HostRuntime) -> Result<(), Fail> {
    for (plain, name, args, results, ends) in PLAIN.iter() {
        let shape = shape_of(&rt, *plain);
        is_of(&rt, &shape, name, args, results, *ends);
        assert!(rt; !shape.is_branch() && shape.branch_destination().is_empty());
    }
    Ok(())
}

// Where a call of sig4 goes that may throw.
const THROWS: Throws<'static> = Throws {
    sig: 4,
    normal: To(3, &[]),
    items: &[Tag(9, To(2, &[])), Context(6), Default(To(5, &[]))],
};

// A return and calls, with their names, their operands, whether they end their blocks, and whether they have edges.
static TRANSFERS: [(Transfer<'static>, &str, &[u32], bool, bool); 5] = [
    (Return(&[1, 2]), "return", &[1, 2], true, false),
    (Call(0, &[2, 1]), "call", &[2, 1], false, false),
    (
        CallIndirect(0, &[2, 1]),
        "call_indirect",
        &[2, 1],
        false,
        false,
    ),
    (TryCall(0, &[2, 1], THROWS), "try_call", &[2, 1], true, true),
    (
        TryCallIndirect(&[2, 1], THROWS),
        "try_call_indirect",
        &[2, 1],
        true,
        true,
    ),
];

// Asserts whether a transfer has edges, and the parts of its exception table then: its signature, its edges and its items.
fn throws(rt: &impl Abort, shape: &InstructionData, has_edges: bool) {
    assert!(rt; shape.is_branch() == has_edges);
    assert!(rt; shape.branch_destination().is_empty() != has_edges);
    assert!(rt; shape.exception_targets().is_some() == has_edges);
    if let Some(exception) = shape.exception_targets() {
        assert!(rt; exception.signature().as_u32() == 4);
        assert!(rt; exception.normal_return().block == b(rt, 3));
        let edges = exception.all_branches();
        assert!(rt; edges.len() == 3);
        assert!(rt; edges[1].block == b(rt, 2) && edges[2].block == b(rt, 5));
        let items = [
            ExceptionItem::Tag(9),
            ExceptionItem::Context(v(rt, 6)),
            ExceptionItem::Default,
        ];
        assert!(rt; exception.items() == items.as_slice());
    }
}

#[test]
fn transfers(rt: HostRuntime) -> Result<(), Fail> {
    let mut func = begun(rt.alloc(), SAMPLE)?;
    for (transfer, name, args, ends, has_edges) in TRANSFERS.iter() {
        let shape = transfer_of(&rt, &mut func, *transfer)?;
        is_of(&rt, &shape, name, args, &[], *ends);
        throws(&rt, &shape, *has_edges);
    }
    Ok(())
}
