//! The texts of errors, and what holds after a refusal.
#![tactic(auto)]

use crate::calls::built::{finishes, plain};
use crate::calls::queries::Query::{Current, Entry, Pristine, Values};
use crate::calls::steps::Attempt::{Define, DefineEarly, DefineMistyped, UseEarly};
use crate::calls::steps::Deed::{Create, Declare, Seal, Switch};
use crate::calls::steps::Operand::{Constant, Read};
use crate::calls::steps::Step;
use crate::calls::steps::Step::{Do, Has, Is, Isnt, Make, Try};
use crate::calls::steps::Trait::Number;
use clif_types::types::{I16, I32};
use cranelift_frontend::{
    Block, DefVariableError, EntityRef, FinalizeError, Inst, UseVariableError, VERSION, Value,
    Variable,
};
use std::fmt::Write;
use std::test::Fail;

/// The texts of the refusals, as upstream's panics are worded.
#[test]
fn texts(rt: HostRuntime) -> Result<(), Fail> {
    let block = Block::from_u32(3);
    for (error, text) in [
        (
            FinalizeError::Unsealed(block),
            "FunctionBuilder finalized, but block block3 is not sealed",
        ),
        (
            FinalizeError::Unfilled(block),
            "FunctionBuilder finalized, but block block3 is not filled",
        ),
        (
            FinalizeError::TrackedContext(Inst::from_u32(0)),
            "the context of inst0 is a tracked value",
        ),
        (FinalizeError::Memory, "no memory"),
        (FinalizeError::Full, "table full"),
        (FinalizeError::Failed, "failed before"),
    ] {
        assert_eq!(rt; format!(in rt.alloc(); "{error}")?.as_str(), text);
    }
    assert_eq!(rt; VERSION, "0.137.1");
    Ok(())
}

/// The texts of the errors of variables, as upstream words them.
#[test]
fn texts_of_variables(rt: HostRuntime) -> Result<(), Fail> {
    let variable = Variable::from_u32(0);
    let used = UseVariableError::UsedBeforeDeclared(variable);
    let text = "variable 0 was used before it was defined";
    assert_eq!(rt; format!(in rt.alloc(); "{used}")?.as_str(), text);
    let value = Value::from_u32(1);
    for (error, text) in [
        (
            DefVariableError::DefinedBeforeDeclared(variable),
            "the value of variable 0 was declared before it was defined",
        ),
        (
            DefVariableError::TypeMismatch(variable, value),
            "\
the types of variable 0 and value 1 are not the same.
                    The `Value` supplied to `def_var` must be of the same type as
                    the variable was declared to be of in `declare_var`.",
        ),
    ] {
        assert_eq!(rt; format!(in rt.alloc(); "{error}")?.as_str(), text);
    }
    Ok(())
}

const UNDECLARED: [Step; 17] = [
    Do(Create),
    Do(Switch(0)),
    Isnt(Entry(0)),
    Try(UseEarly(0)),
    Is(Entry(0)),
    Isnt(Pristine(0)),
    Is(Values(0)),
    Make(Constant(I16, 1)),
    Try(DefineEarly(0, 0)),
    Do(Declare(0, I32)),
    Try(DefineMistyped(0, 0)),
    Make(Constant(I32, 1)),
    Try(Define(0, 1)),
    Make(Read(0)),
    Has(1, Number(1)),
    Has(2, Number(1)),
    Do(Seal(0)),
];

/// A use of an undeclared variable is refused, and the current block is in the layout then; once the variable is
/// declared, it is used. An assignment is refused where the variable isn't declared, or has another type, and nothing
/// has changed then.
#[test]
fn undeclared_variables(rt: HostRuntime) -> Result<(), Fail> {
    let unfilled = FinalizeError::Unfilled(Block::from_u32(0));
    let parts = [UNDECLARED.as_slice()];
    finishes(&rt, rt.alloc(), plain("undeclared"), &parts, Err(unfilled))
}

const UNSEALED: [Step; 4] = [
    Do(Create),
    Isnt(Current(0)),
    Do(Switch(0)),
    Make(Constant(I32, 1)),
];

const SEALED: [Step; 1] = [Do(Seal(0))];

/// A block that has an instruction is sealed and filled when the building ends, or it is named.
#[test]
fn unfinished_blocks(rt: HostRuntime) -> Result<(), Fail> {
    let block = Block::from_u32(0);
    let alloc = rt.alloc();
    let first = [UNSEALED.as_slice()];
    let told = Err(FinalizeError::Unsealed(block));
    finishes(&rt, alloc, plain("unfinished"), &first, told)?;
    let both = [UNSEALED.as_slice(), SEALED.as_slice()];
    let told = Err(FinalizeError::Unfilled(block));
    finishes(&rt, alloc, plain("unfinished"), &both, told)
}
