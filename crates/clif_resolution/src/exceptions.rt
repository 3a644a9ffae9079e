//! The items of exception tables, and the operands of the calls that they serve.
ghost use Rattle.std.specs.Prelude.{◌≡◌, ◌≢◌, ◌&&◌, ◌<◌, map, Some, is_some, IfOk, Err, false};
ghost use Rattle.clif_calls.specs.Tables.{tried_operands};
ghost use Rattle.clif_resolution.specs.Answers.{Finds, AnswersExist, all_items, all_values, item_in, value_of};
ghost use Rattle.clif_resolution.specs.Callings.{IsTried, callee_in, can_try, has_callee, shape_with};
ghost use Rattle.clif_resolution.specs.Conditions.{tries};
ghost use Rattle.clif_resolution.specs.Entries.{ExceptionTables, numbers_at};

use crate::answers::{Answer, CallError};
use crate::condition::Condition;
use crate::conditions::{are_open, current_fault, has_current, has_signature, sealed_target};
use crate::entries::{exception_table_named, function_named};
use crate::names::{value_named, values_named};
use crate::tables::edge_copied;
use clif_builder::FunctionBuilder;
use clif_calls::{Name, TableItem, ThrowingCall};
use clif_ir::{ExceptionTableItem, ExceptionTargets, Function, InstructionData, ValueList};
use clif_types::{ExceptionTable, FuncRef};

// An item of a table, with what its name leads to.
fn item_found(
    func: &Function,
    answers: &[Answer],
    item: TableItem,
) -> Result<ExceptionTableItem, CallError>
    requires { AnswersExist func.now answers.now }
    ensures { Finds (λ made. item_in func.now answers.now item ≡ Some made)
        (is_some (item_in func.now answers.now item)) result }
{
    match item {
        TableItem::Tag(tag, edge) => {
            let made = edge_copied(func.allocator(), answers, edge)?;
            Ok(ExceptionTableItem::Tag(tag, made))
        }
        TableItem::Default(edge) => {
            let made = edge_copied(func.allocator(), answers, edge)?;
            Ok(ExceptionTableItem::Default(made))
        }
        TableItem::Context(name) => match value_named(func, answers, name) {
            Some(value) => Ok(ExceptionTableItem::Context(value)),
            None => Err(CallError::Misuse(Condition::NoValue(name))),
        },
    }
}

/// The items of a table, with what their names lead to.
///
/// # Errors
///
/// `Misuse`, where a name leads to no such answer or a condition doesn't hold; or memory is refused.
pub fn items_found(
    func: &Function,
    answers: &[Answer],
    items: &[TableItem],
) -> Result<Vec<ExceptionTableItem>, CallError>
    requires { AnswersExist func.now answers.now }
    ensures found { IfOk result (λ made.
        map (item_in func.now answers.now) items.now ≡ map Some made.items) }
    ensures misuse { (why : Condition) → result ≡ Err (CallError.Misuse why)
        → all_items func.now answers.now items.now ≡ false }
    ensures never_full { result ≢ Err CallError.Full }
    ensures never_refused { (why : Condition) → result ≢ Err (CallError.Refused why) }
{
    let mut made = Vec::new(func.allocator());
    for item in items.iter() {
        let found = item_found(func, answers, *item)?;
        made.push(found)?;
    }
    Ok(made)
}

/// What a call along the edges of an exception table names.
#[derive(Drop)]
pub struct Tried {
    /// the function that is called, where it isn't an address
    pub function: Option<FuncRef>,
    /// the table
    pub table: ExceptionTable,
    /// the values: what is called, where it is an address, and what is passed
    pub args: ValueList,
}

/// What a call names, where it may be made.
///
/// # Errors
///
/// `Misuse`, where a name leads to no such answer or a condition doesn't hold; or memory is refused.
pub fn operands_found(
    builder: &FunctionBuilder<'_>,
    answers: &[Answer],
    called: &ThrowingCall,
) -> Result<Tried, CallError>
    requires { AnswersExist builder.now.func.now answers.now }
    ensures { Finds (IsTried builder.now answers.now called.now)
        (can_try builder.now answers.now called.now) result }
{
    if !has_current(builder) {
        return Err(CallError::Misuse(current_fault(builder)));
    }
    let args = values_tried(builder.func(), answers, called)?;
    let function = callee_found(builder.func(), answers, called)?;
    let table = table_found(builder, answers, called.table())?;
    Ok(Tried {
        function,
        table,
        args,
    })
}

// The values that a call names.
fn values_tried(
    func: &Function,
    answers: &[Answer],
    called: &ThrowingCall,
) -> Result<ValueList, CallError>
    requires { AnswersExist func.now answers.now }
    ensures { Finds (λ values. map (value_of func.now answers.now) (tried_operands called.now)
        ≡ map Some values) (all_values func.now answers.now (tried_operands called.now)) result }
{
    let names = called.operands(func.allocator())?;
    let values = values_named(func, answers, names.as_slice())?;
    Ok(values)
}

// The function that is called, where it isn't an address.
fn callee_found(
    func: &Function,
    answers: &[Answer],
    called: &ThrowingCall,
) -> Result<Option<FuncRef>, CallError>
    ensures { Finds (λ function. function ≡ callee_in (numbers_at func.now answers.now) called.now)
        (has_callee func.now answers.now called.now) result }
{
    match called {
        ThrowingCall::TryCall { function, .. } => {
            let Some(func_ref) = function_named(answers, *function) else {
                return Err(CallError::Misuse(Condition::NoFunction(*function)));
            };
            if func.tables().function(func_ref).is_none() {
                return Err(CallError::Misuse(Condition::NoEntry));
            }
            Ok(Some(func_ref))
        }
        ThrowingCall::TryCallIndirect { .. } => Ok(None),
    }
}

// The table that a name leads to, where it may serve a call.
fn table_found(
    builder: &FunctionBuilder<'_>,
    answers: &[Answer],
    name: Name,
) -> Result<ExceptionTable, CallError>
    ensures { Finds (λ table. table ≡ numbers_at builder.now.func.now answers.now ExceptionTables name)
        (tries builder.now (numbers_at builder.now.func.now answers.now ExceptionTables name)) result }
{
    let Some(table) = exception_table_named(answers, name) else {
        return Err(CallError::Misuse(Condition::NoExceptions(name)));
    };
    if !tries(builder, table) {
        return Err(CallError::Misuse(trying_fault(builder, table)));
    }
    Ok(table)
}

// Whether a table serves nothing so far and may serve a call: no target of its edges is sealed, and its signature was
// imported.
fn tries(builder: &FunctionBuilder<'_>, table: ExceptionTable) -> bool
    ensures { result ≡ tries builder.now table }
{
    match builder.func().tables().exception_table(table) {
        None => false,
        Some(held) => {
            are_open(builder, held.all_branches()) && has_signature(builder, held.signature())
        }
    }
}

// Why a table may serve no call: it serves one, or a target of its edges is sealed. (Its signature was imported when it was made.)
fn trying_fault(builder: &FunctionBuilder<'_>, table: ExceptionTable) -> Condition {
    let sealed = match builder.func().tables().exception_table(table) {
        None => None,
        Some(held) => sealed_target(builder, held.all_branches()),
    };
    sealed.unwrap_or(Condition::ExceptionsServed(table))
}

/// The instruction of a call of this function, or else of an address, with these values and what its table held.
pub fn with_table(
    function: Option<FuncRef>,
    args: ValueList,
    exception: ExceptionTargets,
) -> InstructionData
    ensures { result ≡ shape_with function args exception }
{
    match function {
        Some(func_ref) => InstructionData::TryCall {
            func_ref,
            args,
            exception,
        },
        None => InstructionData::TryCallIndirect { args, exception },
    }
}
