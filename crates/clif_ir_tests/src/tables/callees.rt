//! What calls take and give, by the signatures that they name.
#![tactic(auto)]

use crate::support::below_1000;
use crate::tables::steps::Step::{Function, Import};
use crate::tables::steps::{UNMARKED, make_all};
use clif_instructions::block_call::BlockCall;
use clif_instructions::instructions::InstructionData;
use clif_instructions::value_list::ValueList;
use clif_tables::{ExceptionTableData, ExceptionTargets, Tables};
use clif_types::types::{F32, I8, I32, I64};
use clif_types::{AbiParam, Block, EntityRef, FuncRef, SigRef, TrapCode, Type};
use std::alloc::Global;
use std::process::Abort;
use std::test::Fail;

// sig0 takes an i32 and an i64 and returns an f32; sig1 takes nothing and returns an i64 and an i8. fn0 has sig1, and fn1
// has sig0.
fn tables(rt: &impl Abort, alloc: Global) -> Result<Tables, Fail> {
    let steps = [
        Import(&[I32, I64], &[F32]),
        Import(&[], &[I64, I8]),
        Function("f", 1, UNMARKED),
        Function("g", 0, UNMARKED),
    ];
    let mut tables = Tables::new(alloc);
    make_all(rt, alloc, &mut tables, &steps)?;
    Ok(tables)
}

fn sig(rt: &impl Abort, number: u32) -> SigRef {
    SigRef::from_u32(below_1000(rt, number))
}

fn function(rt: &impl Abort, number: u32) -> FuncRef {
    FuncRef::from_u32(below_1000(rt, number))
}

// Asserts types.
fn are_types(rt: &impl Abort, found: &[AbiParam], expected: &[Type]) {
    assert!(rt; found.len() == expected.len());
    for place in 0..found.len() {
        assert!(rt; found[place].value_type == expected[place]);
    }
}

// Signatures, and what they take and return. One that isn't there takes and returns nothing.
const SIGNATURES: [(u32, &[Type], &[Type]); 3] = [
    (0, &[I32, I64], &[F32]),
    (1, &[], &[I64, I8]),
    (2, &[], &[]),
];

// Functions, and their signatures. One that isn't there has the first.
const FUNCTIONS: [(u32, u32); 3] = [(0, 1), (1, 0), (2, 0)];

#[test]
fn signatures(rt: HostRuntime) -> Result<(), Fail> {
    let tables = tables(&rt, rt.alloc())?;
    for (number, params, returns) in SIGNATURES.iter() {
        let sig = sig(&rt, *number);
        are_types(&rt, tables.signature_params(sig), params);
        are_types(&rt, tables.signature_returns(sig), returns);
    }
    for (number, expected) in FUNCTIONS.iter() {
        assert!(rt; tables.function_signature(function(&rt, *number)) == sig(&rt, *expected));
    }
    Ok(())
}

// An instruction, where functions and signatures are named by their numbers.
enum Call {
    Function(u32),
    Indirect(u32),
    // With the signature of its table.
    TryFunction(u32, u32),
    TryIndirect(u32),
    Trap,
}

// Instructions, and what they take and give.
const CALLED: [(Call, &[Type], &[Type]); 7] = [
    // A call of a function takes and gives what the function's signature says, and so does one of an address by its own.
    (Call::Function(0), &[], &[I64, I8]),
    (Call::Function(1), &[I32, I64], &[F32]),
    (Call::Indirect(1), &[], &[I64, I8]),
    // A call that may throw takes what the signature of its table says, whatever its function's is, and gives nothing
    // itself.
    (Call::TryFunction(0, 0), &[I32, I64], &[]),
    (Call::TryIndirect(0), &[I32, I64], &[]),
    (Call::TryIndirect(1), &[], &[]),
    (Call::Trap, &[], &[]),
];

// An exception table of a signature, without items.
fn exception(rt: &impl Abort, alloc: Global, number: u32) -> Result<ExceptionTargets, Fail> {
    let sig = sig(rt, number);
    let normal = BlockCall::new(alloc, Block::from_u32(0), &[])?;
    let items = Vec::new(alloc);
    Ok(ExceptionTargets::new(alloc, ExceptionTableData { sig, normal, items })?)
}

// What an instruction does, with no arguments.
fn shape_of(rt: &impl Abort, alloc: Global, call: &Call) -> Result<InstructionData, Fail> {
    Ok(match call {
        Call::Function(number) => InstructionData::Call {
            func_ref: function(rt, *number),
            args: ValueList::new(alloc),
        },
        Call::Indirect(number) => InstructionData::CallIndirect {
            sig_ref: sig(rt, *number),
            args: ValueList::new(alloc),
        },
        Call::TryFunction(number, signature) => InstructionData::TryCall {
            exception: exception(rt, alloc, *signature)?,
            func_ref: function(rt, *number),
            args: ValueList::new(alloc),
        },
        Call::TryIndirect(signature) => InstructionData::TryCallIndirect {
            exception: exception(rt, alloc, *signature)?,
            args: ValueList::new(alloc),
        },
        Call::Trap => InstructionData::Trap {
            code: TrapCode::HeapOutOfBounds,
        },
    })
}

#[test]
fn called(rt: HostRuntime) -> Result<(), Fail> {
    let tables = tables(&rt, rt.alloc())?;
    for (call, params, given) in CALLED.iter() {
        let shape = shape_of(&rt, rt.alloc(), call)?;
        are_types(&rt, tables.callee_params(&shape), params);
        are_types(&rt, tables.given_by_call(&shape), given);
    }
    Ok(())
}
