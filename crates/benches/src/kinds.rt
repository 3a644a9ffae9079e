//! The kinds of functions that are measured.
ghost use Rattle.std.specs.Prelude.{◌≡◌};
ghost use Rattle.benches.specs.Variables.{eight};

use crate::calls::{
    Fault, assign, branch, call_first, call_of_four, choose, constant, create, enter, float,
    give_back, guard, inverse, jump, less, narrow, read, seal, sum, widen,
};
use crate::helping::{copy, copy_by_call, fill};
use crate::switching::switch;
use cranelift_frontend::{Block, FunctionBuilder};

/// What repeats in a function.
#[derive(Clone, Copy, PartialEq, Eq)]
pub enum Kind {
    /// A sum in one block.
    Block,
    /// A block with a sum, which is sealed as it is entered.
    Chain,
    /// The same, sealed at the end of the function.
    ChainLate,
    /// A block with nothing; variables that the first block assigns are used in the last one.
    Far,
    /// A branch, two arms of which one assigns, and a join.
    Diamonds,
    /// A loop of one block.
    Loops,
    /// A switch of ten keys in two ranges, two arms of which one assigns, and a join.
    Switch,
    /// Instructions of several formats in one block.
    Mixed,
    /// A call of a function that takes four values and returns one, in one block.
    Calls,
    /// A copy by loads and stores, a fill by stores and a copy by a call, in one block.
    Helpers,
    /// A sum in one block; when the function is finished, constants are put around each instruction.
    Rewritten,
    /// A block with a sum and a call; when the function is finished, what of all its values is live across calls is found.
    Marked,
    /// The same function; when it is finished, what of all its values is live across calls is spilled.
    Spilled,
}

// The keys of a switch: nine in a row, which make a table, and one alone.
const KEYS: [u128; 10] = [0, 1, 2, 3, 4, 5, 6, 7, 8, 20];

// A variable gets the sum of itself and another one.
fn add(builder: &mut FunctionBuilder<'_>, number: usize) -> Result<(), Fault>
    requires { builder.old.ctx.now.parts.variables ≡ eight }
    ensures { builder.new.ctx.now.parts.variables ≡ builder.old.ctx.now.parts.variables }
{
    let x = read(builder, number)?;
    let y = read(builder, number / 8)?;
    let total = sum(builder, x, y)?;
    assign(builder, number, total)
}

// A variable gets what instructions of several formats make of itself and another one.
fn mix(builder: &mut FunctionBuilder<'_>, number: usize) -> Result<(), Fault>
    requires { builder.old.ctx.now.parts.variables ≡ eight }
    ensures { builder.new.ctx.now.parts.variables ≡ builder.old.ctx.now.parts.variables }
{
    let x = read(builder, number)?;
    let y = read(builder, number / 8)?;
    let condition = less(builder, x, y)?;
    let chosen = choose(builder, condition, x, y)?;
    let wide = widen(builder, chosen)?;
    let turned = inverse(builder, wide)?;
    let _float = float(builder)?;
    guard(builder, y)?;
    let mixed = narrow(builder, turned)?;
    assign(builder, number, mixed)
}

// A variable gets what a function returns of itself and another one.
fn call(builder: &mut FunctionBuilder<'_>, number: usize) -> Result<(), Fault>
    requires { builder.old.ctx.now.parts.variables ≡ eight }
    ensures { builder.new.ctx.now.parts.variables ≡ builder.old.ctx.now.parts.variables }
{
    let x = read(builder, number)?;
    let y = read(builder, number / 8)?;
    let returned = call_of_four(builder, x, y)?;
    assign(builder, number, returned)
}

// Bytes are moved and filled at the addresses that two variables hold.
fn help(builder: &mut FunctionBuilder<'_>, number: usize) -> Result<(), Fault>
    requires { builder.old.ctx.now.parts.variables ≡ eight }
    ensures { builder.new.ctx.now.parts.variables ≡ builder.old.ctx.now.parts.variables }
{
    let x = read(builder, number)?;
    let y = read(builder, number / 8)?;
    let dest = widen(builder, x)?;
    let src = widen(builder, y)?;
    copy(builder, dest, src, 32)?;
    fill(builder, src, 16)?;
    copy_by_call(builder, dest, src, dest)
}

// A jump to a new block, which is entered, and sealed where it is asked for.
fn go_on(builder: &mut FunctionBuilder<'_>, seals: bool) -> Result<(), Fault>
    ensures { builder.new.ctx.now.parts.variables ≡ builder.old.ctx.now.parts.variables }
{
    let next = create(builder)?;
    jump(builder, next)?;
    if seals {
        seal(builder, next)?;
    }
    enter(builder, next)
}

// One arm of a branch: it is entered and left for the join.
fn arm(
    builder: &mut FunctionBuilder<'_>,
    block: Block,
    join: Block,
    number: Option<usize>,
) -> Result<(), Fault>
    requires { builder.old.ctx.now.parts.variables ≡ eight }
    ensures { builder.new.ctx.now.parts.variables ≡ builder.old.ctx.now.parts.variables }
{
    seal(builder, block)?;
    enter(builder, block)?;
    if let Some(number) = number {
        add(builder, number)?;
    }
    jump(builder, join)
}

// Two arms, of which one assigns, and a join, which is entered.
fn arms(
    builder: &mut FunctionBuilder<'_>,
    taken: Block,
    other: Block,
    number: usize,
) -> Result<(), Fault>
    requires { builder.old.ctx.now.parts.variables ≡ eight }
    ensures { builder.new.ctx.now.parts.variables ≡ builder.old.ctx.now.parts.variables }
{
    let join = create(builder)?;
    arm(builder, taken, join, Some(number))?;
    arm(builder, other, join, None)?;
    seal(builder, join)?;
    enter(builder, join)
}

fn diamond(builder: &mut FunctionBuilder<'_>, number: usize) -> Result<(), Fault>
    requires { builder.old.ctx.now.parts.variables ≡ eight }
    ensures { builder.new.ctx.now.parts.variables ≡ builder.old.ctx.now.parts.variables }
{
    let taken = create(builder)?;
    let other = create(builder)?;
    let condition = read(builder, number)?;
    branch(builder, condition, taken, other)?;
    arms(builder, taken, other, number)
}

fn switch_once(builder: &mut FunctionBuilder<'_>, number: usize) -> Result<(), Fault>
    requires { builder.old.ctx.now.parts.variables ≡ eight }
    ensures { builder.new.ctx.now.parts.variables ≡ builder.old.ctx.now.parts.variables }
{
    let taken = create(builder)?;
    let other = create(builder)?;
    let value = read(builder, number)?;
    switch(builder, value, &KEYS, taken, other)?;
    arms(builder, taken, other, number)
}

fn loop_once(builder: &mut FunctionBuilder<'_>, number: usize) -> Result<(), Fault>
    requires { builder.old.ctx.now.parts.variables ≡ eight }
    ensures { builder.new.ctx.now.parts.variables ≡ builder.old.ctx.now.parts.variables }
{
    let body = create(builder)?;
    let exit = create(builder)?;
    jump(builder, body)?;
    enter(builder, body)?;
    add(builder, number)?;
    let condition = read(builder, number)?;
    branch(builder, condition, body, exit)?;
    seal(builder, body)?;
    seal(builder, exit)?;
    enter(builder, exit)
}

// What repeats.
fn turn(builder: &mut FunctionBuilder<'_>, kind: Kind, number: usize) -> Result<(), Fault>
    requires { builder.old.ctx.now.parts.variables ≡ eight }
    ensures { builder.new.ctx.now.parts.variables ≡ builder.old.ctx.now.parts.variables }
{
    match kind {
        Kind::Block | Kind::Rewritten => add(builder, number),
        Kind::Chain => {
            add(builder, number)?;
            go_on(builder, true)
        }
        Kind::ChainLate => {
            add(builder, number)?;
            go_on(builder, false)
        }
        Kind::Marked | Kind::Spilled => {
            add(builder, number)?;
            call_first(builder)?;
            go_on(builder, true)
        }
        Kind::Far => go_on(builder, true),
        Kind::Diamonds => diamond(builder, number),
        Kind::Loops => loop_once(builder, number),
        Kind::Switch => switch_once(builder, number),
        Kind::Mixed => mix(builder, number),
        Kind::Calls => call(builder, number),
        Kind::Helpers => help(builder, number),
    }
}

// The first block assigns each variable.
fn assign_all(builder: &mut FunctionBuilder<'_>) -> Result<(), Fault>
    requires { builder.old.ctx.now.parts.variables ≡ eight }
    ensures { builder.new.ctx.now.parts.variables ≡ builder.old.ctx.now.parts.variables }
{
    for number in 0..8 {
        let value = constant(builder, 1)?;
        assign(builder, number, value)?;
    }
    Ok(())
}

/// Makes a function of a kind, with so many turns, which returns a variable.
pub fn make(builder: &mut FunctionBuilder<'_>, kind: Kind, turns: usize) -> Result<(), Fault>
    requires { builder.old.ctx.now.parts.variables ≡ eight }
{
    let entry = create(builder)?;
    seal(builder, entry)?;
    enter(builder, entry)?;
    assign_all(builder)?;
    for number in 0..turns {
        turn(builder, kind, number)?;
    }
    add(builder, 1)?;
    let value = read(builder, 1)?;
    give_back(builder, value)?;
    builder.seal_all_blocks()?;
    Ok(())
}
