//! Tests as lists of steps: the calls on a builder, and what is expected of it on the way.
//!
//! A block and a variable are named by their numbers, and a value by its place among the answers of the steps `Make`.
#![tactic(auto)]

use crate::asserted::param;
use crate::calls::queries::{Query, shows};
use crate::calls::{entries, front_end, notes, queries, try_calls};
use crate::fixture::{all_named, named, passing};
use cranelift_frontend::{
    Block, BlockArg, DefVariableError, FuncRef, FunctionBuilder, SigRef, Type, UseVariableError,
    Value, Variable,
};
use std::alloc::{AllocError, Global};
use std::process::Abort;
use std::test::Fail;

/// A call on the builder, or an expectation.
pub enum Step {
    /// Makes a value.
    Make(Operand),
    Do(Deed),
    Try(Attempt),
    Enter(Entry),
    Note(Note),
    /// It is so.
    Is(Query),
    /// It isn't.
    Isnt(Query),
    /// A value is so.
    Has(usize, Trait),
}

/// A value.
pub enum Operand {
    /// A new parameter of a block.
    Param(u8, Type),
    /// The parameter at a place of a block.
    ParamAt(u8, usize),
    /// What a variable holds.
    Read(u8),
    Constant(Type, i64),
    AtCursor(i64),
    DoubleAtCursor(usize),
    /// What a generic caller makes of a value.
    ByDouble(usize),
    /// The sum of a value and a constant.
    Sum(usize, i64),
    /// What a function returns that is called with these values.
    Returned(u8, &'static [usize]),
}

/// What is done with blocks and variables.
pub enum Deed {
    Create,
    /// Appends the function's parameters to a block.
    TakeParams(u8),
    Switch(u8),
    Seal(u8),
    SealAll,
    /// A new variable, which gets this number.
    Declare(u8, Type),
    /// A constant, by its shape.
    Shaped(i64),
    /// The same, as an instruction that neither branches nor ends its block.
    Auxiliary(i64),
    Branch(usize, u8, u8),
    /// Jumps to a block, and passes these values.
    Jump(u8, &'static [usize]),
    /// Changes the branch that was made last from the first block to the second one.
    Change(u8, u8),
    End,
    Return(usize),
    ReturnEach(&'static [usize]),
    Trap(u8),
    /// Fails, as after refused memory.
    Fail,
}

/// What is tried with a variable.
pub enum Attempt {
    /// Assigns a value.
    Define(u8, usize),
    /// A value isn't assigned, since the variable isn't declared.
    DefineEarly(u8, usize),
    /// A value isn't assigned, since the variable has another type.
    DefineMistyped(u8, usize),
    /// It isn't used, since it isn't declared.
    UseEarly(u8),
}

/// An entry of a table, or a call of one.
pub enum Entry {
    /// The next signature.
    Signature(&'static [Type], &'static [Type]),
    /// The next function, which has this signature.
    Function(&'static str, u8),
    /// The next function, `u0:0`, which is colocated and has the first signature.
    Colocated,
    Slot,
    DynamicSlot,
    GlobalContext,
    /// Calls a function with these values.
    Call(u8, &'static [usize]),
    /// Calls the first function with a value, and with a context for the unwinder.
    TryCall(usize, usize),
    /// Calls the first function with a value, and passes that on, or these values when it throws.
    TryPassing(usize, &'static [usize]),
}

/// What doesn't change what the function does.
pub enum Note {
    /// Sets the source place.
    Place(u32),
    CollectLabels,
    Label(usize, u32),
    /// Stack maps need a value.
    Need(usize),
}

/// What a value is expected to be.
pub enum Trait {
    /// It has this number.
    Number(u32),
    /// The instruction that makes it has this source place.
    Place(u32),
    /// It has these labels: the source place of each, and its number.
    Labels(&'static [(u32, u32)]),
}

fn block(number: u8) -> Block {
    Block::from_u32(u32::from(number))
}

fn variable(number: u8) -> Variable {
    Variable::from_u32(u32::from(number))
}

fn func_ref(number: u8) -> FuncRef {
    FuncRef::from_u32(u32::from(number))
}

// What an edge passes: the values at these places.
fn passed_at(
    rt: &impl Abort,
    alloc: Global,
    values: &[Value],
    places: &[usize],
) -> Result<Vec<BlockArg>, AllocError> {
    let named = all_named(rt, alloc, values, places)?;
    passing(alloc, named.as_slice())
}

// What a function returns that is called with the values at these places.
fn returned(
    rt: &impl Abort,
    builder: &mut FunctionBuilder<'_>,
    values: &[Value],
    function: u8,
    places: &[usize],
) -> Value {
    let alloc = builder.func().allocator();
    let args = all_named(rt, alloc, values, places).expect(rt, "room");
    entries::returned(rt, builder, func_ref(function), args.as_slice())
}

fn read(rt: &impl Abort, builder: &mut FunctionBuilder<'_>, number: u8) -> Value {
    let answer = front_end::try_use(rt, builder, variable(number));
    answer.expect(rt, "a declared variable")
}

fn make(
    rt: &impl Abort,
    builder: &mut FunctionBuilder<'_>,
    values: &[Value],
    operand: &Operand,
) -> Value {
    match *operand {
        Operand::Param(number, ty) => param(rt, builder, block(number), ty),
        Operand::ParamAt(number, place) => front_end::param_at(rt, builder, block(number), place),
        Operand::Read(number) => read(rt, builder, number),
        Operand::Constant(ty, imm) => front_end::constant(rt, builder, ty, imm),
        Operand::AtCursor(imm) => front_end::constant_at_cursor(rt, builder, imm),
        Operand::DoubleAtCursor(x) => {
            front_end::double_at_cursor(rt, builder, named(rt, values, x))
        }
        Operand::ByDouble(x) => front_end::by_double(rt, builder, named(rt, values, x)),
        Operand::Sum(x, imm) => front_end::sum(rt, builder, named(rt, values, x), imm),
        Operand::Returned(function, args) => returned(rt, builder, values, function, args),
    }
}

// Ends the current block with a jump that passes the values at these places.
fn jump(
    rt: &impl Abort,
    builder: &mut FunctionBuilder<'_>,
    values: &[Value],
    target: u8,
    places: &[usize],
) {
    let alloc = builder.func().allocator();
    let passed = passed_at(rt, alloc, values, places).expect(rt, "room");
    front_end::jump(rt, builder, block(target), passed.as_slice());
}

// Ends the current block with a return of the values at these places.
fn give_back_each(
    rt: &impl Abort,
    builder: &mut FunctionBuilder<'_>,
    values: &[Value],
    places: &[usize],
) {
    let alloc = builder.func().allocator();
    let returned = all_named(rt, alloc, values, places).expect(rt, "room");
    front_end::give_back_each(rt, builder, returned.as_slice());
}

fn act(rt: &impl Abort, builder: &mut FunctionBuilder<'_>, values: &[Value], deed: &Deed) {
    match *deed {
        Deed::Create => front_end::create(rt, builder),
        Deed::TakeParams(number) => front_end::take_params(rt, builder, block(number)),
        Deed::Switch(number) => front_end::enter(rt, builder, block(number)),
        Deed::Seal(number) => front_end::seal(rt, builder, block(number)),
        Deed::SealAll => front_end::seal_all(rt, builder),
        Deed::Declare(number, ty) => front_end::declare(rt, builder, ty, number),
        Deed::Shaped(imm) => front_end::shaped_constant(rt, builder, imm),
        Deed::Auxiliary(imm) => front_end::auxiliary_constant(rt, builder, imm),
        Deed::Branch(condition, taken, other) => {
            let condition = named(rt, values, condition);
            front_end::branch(rt, builder, condition, block(taken), block(other));
        }
        Deed::Jump(number, passed) => jump(rt, builder, values, number, passed),
        Deed::Change(from, to) => front_end::change(rt, builder, block(from), block(to)),
        Deed::End => front_end::end(rt, builder),
        Deed::Return(value) => front_end::give_back(rt, builder, named(rt, values, value)),
        Deed::ReturnEach(returned) => give_back_each(rt, builder, values, returned),
        Deed::Trap(code) => front_end::trap(rt, builder, code),
        Deed::Fail => front_end::fail(rt, builder),
    }
}

// Tries to assign a value to a variable.
fn define(
    rt: &impl Abort,
    builder: &mut FunctionBuilder<'_>,
    number: u8,
    value: Value,
    wanted: Result<(), DefVariableError>,
) {
    let answer = front_end::try_define(rt, builder, variable(number), value);
    assert!(rt; answer == wanted);
}

// Tries to use a variable that isn't declared.
fn use_early(rt: &impl Abort, builder: &mut FunctionBuilder<'_>, number: u8) {
    let answer = front_end::try_use(rt, builder, variable(number));
    assert!(rt; answer == Err(UseVariableError::UsedBeforeDeclared(variable(number))));
}

fn make_attempt(
    rt: &impl Abort,
    builder: &mut FunctionBuilder<'_>,
    values: &[Value],
    what: &Attempt,
) {
    match *what {
        Attempt::Define(number, value) => {
            define(rt, builder, number, named(rt, values, value), Ok(()));
        }
        Attempt::DefineEarly(number, value) => {
            let error = DefVariableError::DefinedBeforeDeclared(variable(number));
            define(rt, builder, number, named(rt, values, value), Err(error));
        }
        Attempt::DefineMistyped(number, value) => {
            let value = named(rt, values, value);
            let error = DefVariableError::TypeMismatch(variable(number), value);
            define(rt, builder, number, value, Err(error));
        }
        Attempt::UseEarly(number) => use_early(rt, builder, number),
    }
}

// Calls a function.
fn call(
    rt: &impl Abort,
    alloc: Global,
    builder: &mut FunctionBuilder<'_>,
    values: &[Value],
    function: u8,
    places: &[usize],
) {
    let args = all_named(rt, alloc, values, places).expect(rt, "room");
    entries::call(rt, builder, func_ref(function), args.as_slice());
}

// Calls the first function with a value, and goes on in block1 or block2.
fn try_passing(
    rt: &impl Abort,
    alloc: Global,
    builder: &mut FunctionBuilder<'_>,
    values: &[Value],
    x: usize,
    thrown: &[usize],
) {
    let passed = passed_at(rt, alloc, values, thrown).expect(rt, "room");
    try_calls::try_passing(rt, alloc, builder, named(rt, values, x), passed.as_slice());
}

fn enter(
    rt: &impl Abort,
    alloc: Global,
    builder: &mut FunctionBuilder<'_>,
    values: &[Value],
    entry: &Entry,
) -> Result<(), Fail> {
    match *entry {
        Entry::Signature(params, returns) => {
            entries::import_signature(rt, alloc, builder, params, returns)?;
        }
        Entry::Function(name, number) => {
            let signature = SigRef::from_u32(u32::from(number));
            entries::import_function(rt, alloc, builder, name, signature)?;
        }
        Entry::Colocated => entries::import_colocated(rt, builder),
        Entry::Slot => entries::create_slot(rt, builder),
        Entry::DynamicSlot => entries::create_dynamic_slot(rt, builder),
        Entry::GlobalContext => entries::create_context(rt, builder),
        Entry::Call(function, args) => call(rt, alloc, builder, values, function, args),
        Entry::TryCall(x, context) => {
            let (x, context) = (named(rt, values, x), named(rt, values, context));
            try_calls::try_call(rt, alloc, builder, x, context);
        }
        Entry::TryPassing(x, thrown) => try_passing(rt, alloc, builder, values, x, thrown),
    }
    Ok(())
}

fn take_note(rt: &impl Abort, builder: &mut FunctionBuilder<'_>, values: &[Value], note: &Note) {
    match *note {
        Note::Place(place) => notes::set_place(builder, place),
        Note::CollectLabels => notes::collect(builder),
        Note::Label(value, number) => notes::label(rt, builder, named(rt, values, value), number),
        Note::Need(value) => notes::need(rt, builder, named(rt, values, value)),
    }
}

// Whether a value is as expected.
fn has(rt: &impl Abort, builder: &FunctionBuilder<'_>, value: Value, wanted: &Trait) -> bool {
    match *wanted {
        Trait::Number(number) => value.as_u32() == number,
        Trait::Place(place) => queries::is_at(rt, builder, value, place),
        Trait::Labels(labels) => queries::has_labels(rt, builder, value, labels),
    }
}

// The value that a step makes, if it makes one.
fn take(
    rt: &impl Abort,
    alloc: Global,
    builder: &mut FunctionBuilder<'_>,
    values: &[Value],
    step: &Step,
) -> Result<Option<Value>, Fail> {
    match step {
        Step::Make(operand) => return Ok(Some(make(rt, builder, values, operand))),
        Step::Do(deed) => act(rt, builder, values, deed),
        Step::Try(what) => make_attempt(rt, builder, values, what),
        Step::Enter(entry) => enter(rt, alloc, builder, values, entry)?,
        Step::Note(what) => take_note(rt, builder, values, what),
        Step::Is(query) => assert!(rt; shows(rt, builder, query)),
        Step::Isnt(query) => assert!(rt; !shows(rt, builder, query)),
        Step::Has(value, wanted) => {
            assert!(rt; has(rt, builder, named(rt, values, *value), wanted));
        }
    }
    Ok(None)
}

/// Takes the steps of each part, one after the other.
pub fn take_all(
    rt: &impl Abort,
    alloc: Global,
    builder: &mut FunctionBuilder<'_>,
    parts: &[&[Step]],
) -> Result<(), Fail> {
    let mut values = Vec::new(alloc);
    for part in parts.iter() {
        for step in part.iter() {
            if let Some(value) = take(rt, alloc, builder, values.as_slice(), step)? {
                values.push(value)?;
            }
        }
    }
    Ok(())
}
