//! Which variables were used or assigned, and of which type they are.
#![tactic(auto)]

use crate::calls::built::{finishes, plain};
use crate::calls::queries::Query::{Typed, Undeclared, Untouched};
use crate::calls::steps::Attempt::{Define, DefineEarly, DefineMistyped, UseEarly};
use crate::calls::steps::Deed::{Branch, Create, Declare, Seal, Switch};
use crate::calls::steps::Operand::{Constant, Read};
use crate::calls::steps::Step;
use crate::calls::steps::Step::{Do, Is, Isnt, Make, Try};
use clif_types::types::{I16, I32};
use cranelift_frontend::{Block, FinalizeError};
use std::test::Fail;

const DECLARED: [Step; 18] = [
    Do(Create),
    Do(Create),
    Do(Create),
    Do(Seal(0)),
    Do(Switch(0)),
    Make(Constant(I16, 1)),
    Is(Undeclared(0)),
    Isnt(Untouched(0)),
    Try(UseEarly(0)),
    Try(DefineEarly(0, 0)),
    Do(Declare(0, I32)),
    Do(Declare(1, I32)),
    Do(Declare(2, I32)),
    Is(Typed(0, I32)),
    Isnt(Typed(0, I16)),
    Is(Untouched(0)),
    Is(Untouched(2)),
    Is(Undeclared(3)),
];

// The first variable is assigned, and is used in a block to which its value comes; the third one is used there alone.
const TOUCHED: [Step; 15] = [
    Try(DefineMistyped(1, 0)),
    Is(Untouched(1)),
    Make(Constant(I32, 7)),
    Try(Define(0, 1)),
    Isnt(Untouched(0)),
    Do(Branch(1, 1, 2)),
    Do(Seal(1)),
    Do(Switch(1)),
    Is(Untouched(2)),
    Make(Read(0)),
    Is(Untouched(1)),
    Is(Untouched(2)),
    Make(Read(2)),
    Isnt(Untouched(2)),
    Is(Untouched(1)),
];

/// A variable is untouched from its declaration to its first use or assignment. A call that is refused is neither.
#[test]
fn touched(rt: HostRuntime) -> Result<(), Fail> {
    let unfilled = FinalizeError::Unfilled(Block::from_u32(1));
    let parts = [DECLARED.as_slice(), TOUCHED.as_slice()];
    finishes(&rt, rt.alloc(), plain("touched"), &parts, Err(unfilled))
}
