//! What the names of a script lead to.
ghost use Rattle.std.specs.Prelude.{◌≡◌, ◌≢◌, option_copied, ◌<◌, ◌+◌, ◌-◌, ◌∷◌, [], ℕ, map, length, Some, None, nat_lt, if◌then◌else◌, IfOk, Err, false};
ghost use Rattle.std.specs.List.{list_all};
ghost use Rattle.clif_resolution.specs.Plans.{AreFound};
ghost use Rattle.clif_resolution.specs.Answers.{Finds, AnswerExists, AnswersExist, all_passed, all_values, argument_of, block_of, edge_at, inst_of, passed_in, value_in, value_of};
ghost use Rattle.clif_resolution.specs.Conditions.{IsFound, may_lead};

use crate::answers::{Answer, CallError};
use crate::condition::Condition;
use crate::conditions::may_seal;
use clif_builder::FunctionBuilder;
use clif_calls::{Edge, Name, Passed};
use clif_ir::{BlockArg, BlockArgs, BlockCall, Function, ValueList};
use clif_types::{Block, EntityRef, Inst, Value};

/// The block that a name leads to.
pub fn block_named(answers: &[Answer], name: Name) -> Option<Block>
    ensures { result ≡ block_of answers.now name }
{
    match answers.get(name.place) {
        Some(Answer::Block(block)) if name.answer == 0 => Some(*block),
        _ => None,
    }
}

/// The instruction that a name leads to.
pub fn inst_named(answers: &[Answer], name: Name) -> Option<Inst>
    ensures { result ≡ inst_of answers.now name }
{
    match answers.get(name.place) {
        Some(Answer::Inst(inst)) if name.answer == 0 => Some(*inst),
        _ => None,
    }
}

// The edge that a name leads to.
pub(crate) fn edge_answered(answers: &[Answer], name: Name) -> Option<&BlockCall>
    ensures { option_copied result ≡ edge_at answers.now name }
{
    match answers.get(name.place) {
        Some(Answer::Edge(edge)) if name.answer == 0 => Some(edge),
        _ => None,
    }
}

// One of so many values whose numbers follow one another.
fn value_among(func: &Function, first: Value, count: usize, place: usize) -> Option<Value>
    requires { (k : ℕ) → k < count → first + k < length func.now.values }
    ensures { result ≡ (if nat_lt place count then Some (first + place) else None) }
{
    if place >= count {
        return None;
    }
    func.law_consistent();
    Some(Value::new(first.index() + place))
}

// The value at a place among what one call answered.
fn value_in(func: &Function, answer: &Answer, place: usize) -> Option<Value>
    requires { AnswerExists func.now answer.now }
    ensures { result ≡ value_in func.now place (Some answer.now) }
{
    match answer {
        Answer::Values { first, count } => value_among(func, *first, *count, place),
        Answer::Inst(inst) if place > 0 => func.inst_results(*inst).get(place - 1).copied(),
        Answer::Inst(_)
        | Answer::Nothing
        | Answer::Block(_)
        | Answer::Variable(_)
        | Answer::Edge(_)
        | Answer::Entry(_) => None,
    }
}

/// The value that a name leads to.
pub fn value_named(func: &Function, answers: &[Answer], name: Name) -> Option<Value>
    requires { AnswersExist func.now answers.now }
    ensures { result ≡ value_of func.now answers.now name }
{
    match answers.get(name.place) {
        Some(answer) => value_in(func, answer, name.answer),
        None => None,
    }
}

// The values that names lead to.
pub(crate) fn values_named(
    func: &Function,
    answers: &[Answer],
    names: &[Name],
) -> Result<ValueList, CallError>
    requires { AnswersExist func.now answers.now }
    ensures values { IfOk result (λ values.
        map (value_of func.now answers.now) names.now ≡ map Some values) }
    ensures misuse { (why : Condition) → result ≡ Err (CallError.Misuse why)
        → all_values func.now answers.now names.now ≡ false }
    ensures never_full { result ≢ Err CallError.Full }
    ensures never_refused { (why : Condition) → result ≢ Err (CallError.Refused why) }
{
    let mut values = ValueList::new(func.allocator());
    for name in names.iter() {
        let missing = CallError::Misuse(Condition::NoValue(*name));
        let value = value_named(func, answers, *name).ok_or(missing)?;
        values.push(value)?;
    }
    Ok(values)
}

// What names pass along an edge: the values that they lead to.
pub(crate) fn arguments_named(
    func: &Function,
    answers: &[Answer],
    names: &[Name],
) -> Result<BlockArgs, CallError>
    requires { AnswersExist func.now answers.now }
    ensures passed { IfOk result (λ args.
        map (argument_of func.now answers.now) names.now ≡ map Some args) }
    ensures misuse { (why : Condition) → result ≡ Err (CallError.Misuse why)
        → all_values func.now answers.now names.now ≡ false }
    ensures never_full { result ≢ Err CallError.Full }
    ensures never_refused { (why : Condition) → result ≢ Err (CallError.Refused why) }
{
    let mut args = BlockArgs::new(func.allocator());
    for name in names.iter() {
        let missing = CallError::Misuse(Condition::NoValue(*name));
        let value = value_named(func, answers, *name).ok_or(missing)?;
        args.push(BlockArg::Value(value))?;
    }
    Ok(args)
}

// What an edge of a table passes, where its name leads to a value.
fn argument_passed(func: &Function, answers: &[Answer], passed: Passed) -> Option<BlockArg>
    requires { AnswersExist func.now answers.now }
    ensures { result ≡ passed_in func.now answers.now passed }
{
    match passed {
        Passed::Value(name) => match value_named(func, answers, name) {
            Some(value) => Some(BlockArg::Value(value)),
            None => None,
        },
        Passed::Returned(place) => Some(BlockArg::TryCallRet(place)),
        Passed::Thrown(place) => Some(BlockArg::TryCallExn(place)),
    }
}

// That what an edge of a table passes leads to no value: only a name of a value may.
fn no_value(passed: Passed) -> Condition {
    match passed {
        Passed::Value(name) => Condition::NoValue(name),
        Passed::Returned(_) | Passed::Thrown(_) => Condition::NoEntry,
    }
}

// What an edge of a table passes, with what its names lead to.
pub(crate) fn passed_named(
    func: &Function,
    answers: &[Answer],
    args: &[Passed],
) -> Result<BlockArgs, CallError>
    requires { AnswersExist func.now answers.now }
    ensures passed { IfOk result (λ made.
        map (passed_in func.now answers.now) args.now ≡ map Some made) }
    ensures misuse { (why : Condition) → result ≡ Err (CallError.Misuse why)
        → all_passed func.now answers.now args.now ≡ false }
    ensures never_full { result ≢ Err CallError.Full }
    ensures never_refused { (why : Condition) → result ≢ Err (CallError.Refused why) }
{
    let mut made = BlockArgs::new(func.allocator());
    for one in args.iter() {
        let missing = CallError::Misuse(no_value(*one));
        let arg = argument_passed(func, answers, *one).ok_or(missing)?;
        made.push(arg)?;
    }
    Ok(made)
}

// The edge that names lead to, where its target isn't sealed.
pub(crate) fn edge_named(
    builder: &FunctionBuilder<'_>,
    answers: &[Answer],
    edge: &Edge,
) -> Result<BlockCall, CallError>
    requires { AnswersExist builder.now.func.now answers.now }
    ensures { Finds (IsFound builder.now answers.now edge.now)
        (may_lead builder.now answers.now edge.now) result }
{
    let Some(block) = block_named(answers, edge.block) else {
        return Err(CallError::Misuse(Condition::NoBlock(edge.block)));
    };
    if !may_seal(builder, block) {
        return Err(CallError::Misuse(Condition::Sealed(block)));
    }
    let args = arguments_named(builder.func(), answers, edge.args.as_slice())?;
    Ok(BlockCall { block, args })
}

// The one value that a name leads to.
pub(crate) fn one_value(func: &Function, answers: &[Answer], name: Name) -> Result<Value, CallError>
    requires { AnswersExist func.now answers.now }
    ensures { Finds (λ x. map (value_of func.now answers.now) (name ∷ []) ≡ map Some (x ∷ []))
        (all_values func.now answers.now (name ∷ [])) result }
{
    let Some(x) = value_named(func, answers, name) else {
        return Err(CallError::Misuse(Condition::NoValue(name)));
    };
    Ok(x)
}

// The two values that names lead to.
pub(crate) fn two_values(
    func: &Function,
    answers: &[Answer],
    names: &[Name; 2],
) -> Result<(Value, Value), CallError>
    requires { AnswersExist func.now answers.now }
    ensures { Finds
        (λ pair. map (value_of func.now answers.now) names.now ≡ map Some (pair.0 ∷ pair.1 ∷ []))
        (all_values func.now answers.now names.now) result }
{
    let [first, second] = *names;
    let Some(x) = value_named(func, answers, first) else {
        return Err(CallError::Misuse(Condition::NoValue(first)));
    };
    let Some(y) = value_named(func, answers, second) else {
        return Err(CallError::Misuse(Condition::NoValue(second)));
    };
    Ok((x, y))
}

// The three values that names lead to.
pub(crate) fn three_values(
    func: &Function,
    answers: &[Answer],
    names: &[Name; 3],
) -> Result<(Value, Value, Value), CallError>
    requires { AnswersExist func.now answers.now }
    ensures { Finds
        (λ three. map (value_of func.now answers.now) names.now
        ≡ map Some (three.0 ∷ three.1 ∷ three.2 ∷ []))
        (all_values func.now answers.now names.now) result }
{
    let [first, second, third] = *names;
    let Some(x) = value_named(func, answers, first) else {
        return Err(CallError::Misuse(Condition::NoValue(first)));
    };
    let Some(y) = value_named(func, answers, second) else {
        return Err(CallError::Misuse(Condition::NoValue(second)));
    };
    let Some(z) = value_named(func, answers, third) else {
        return Err(CallError::Misuse(Condition::NoValue(third)));
    };
    Ok((x, y, z))
}

// The two edges that names lead to.
pub(crate) fn two_edges(
    builder: &FunctionBuilder<'_>,
    answers: &[Answer],
    first: &Edge,
    second: &Edge,
) -> Result<[BlockCall; 2], CallError>
    requires { AnswersExist builder.now.func.now answers.now }
    ensures { Finds (AreFound builder.now answers.now (first.now ∷ second.now ∷ []))
        (list_all (may_lead builder.now answers.now) (first.now ∷ second.now ∷ [])) result }
{
    let first = edge_named(builder, answers, first)?;
    let second = edge_named(builder, answers, second)?;
    Ok([first, second])
}
