//! The memory helpers of a script, each made on a builder if its condition holds.
ghost use Rattle.std.specs.Prelude.{◌≡◌, ◌<◌, [], ◌∷◌, length, IfOk, OnErr, Some, false};
ghost use Rattle.clif_meaning.specs.ByteOperation.{CallLibrary};
ghost use Rattle.clif_memory_helpers.specs.Helpers.{MayHelp, may_make};
ghost use Rattle.clif_replay.specs.Emits.{AreOperands, CallsHelper, MakesMemory, as_nothing, as_value, three_values, values_in};
ghost use Rattle.clif_replay.specs.Helpers.{IsNamed, IsSized, can_help, may_be_second, operands_in, operation_in};
ghost use Rattle.clif_replay.specs.Ready.{IsSound};
ghost use Rattle.clif_resolution.specs.Answers.{AnswersExist, all_values, value_of};

use crate::make::{is_same_type, one_value};
use clif_access_plans::{fits_pointer, may_move};
use clif_builder::FunctionBuilder;
use clif_builder::laws::notes_add_nothing;
use clif_calls::{MemoryCall, Name, is_unsigned};
use clif_ir::Function;
use clif_memory_helpers::MemoryHelpers;
use clif_memory_helpers::laws::helpers_are_lines;
use clif_resolution::{Answer, CallError, Condition, current_fault, has_current, value_named};
use clif_types::types::I8;
use clif_types::{BuildError, LibCall, PointerWidth, TargetFrontendConfig, Value};

/// The operands of a helper. Where it has fewer than three, its last one stands again in place of the others.
#[derive(Clone, Copy)]
pub struct Operands {
    pub first: Value,
    pub second: Value,
    pub third: Value,
}

// A memory helper, in a current unfilled block, where its size and its alignments may be.
pub(crate) fn make_memory(
    builder: &mut FunctionBuilder<'_>,
    answers: &[Answer],
    config: TargetFrontendConfig,
    call: &MemoryCall,
) -> Result<Answer, CallError>
    requires { IsSound builder.old answers.now }
    ensures { MakesMemory config call.now builder.old builder.new answers.now result }
{
    helpers_are_lines();
    notes_add_nothing();
    let operands = match operands_of(builder.func(), answers, call) {
        Ok(operands) => operands,
        Err(condition) => return Err(CallError::Misuse(condition)),
    };
    if !may_help(builder, config.pointer_width, call, &operands) {
        return Err(CallError::Misuse(help_fault(builder, config.pointer_width, call, &operands)));
    }
    let answer = help(builder, config, call, &operands)?;
    Ok(answer)
}

// The operands, if each name leads to a value.
fn operands_of(
    func: &Function,
    answers: &[Answer],
    call: &MemoryCall,
) -> Result<Operands, Condition>
    requires { AnswersExist func.now answers.now }
    ensures found { IfOk result (AreOperands func.now answers.now call.now) }
    ensures named { IfOk result (λ values. IsNamed func.now answers.now values.second) }
    ensures missing { OnErr result
        (all_values func.now answers.now (operands_in call.now) ≡ false) }
{
    match call {
        MemoryCall::CallLibrary {
            first,
            second,
            size,
            ..
        } => three_of(func, answers, *first, *second, *size),
        MemoryCall::Copy { dest, src, .. } => three_of(func, answers, *dest, *src, *src),
        MemoryCall::Fill { buffer, .. } => three_of(func, answers, *buffer, *buffer, *buffer),
        MemoryCall::Compare { left, right, .. } => three_of(func, answers, *left, *right, *right),
    }
}

// The values of three names.
fn three_of(
    func: &Function,
    answers: &[Answer],
    first: Name,
    second: Name,
    third: Name,
) -> Result<Operands, Condition>
    requires { AnswersExist func.now answers.now }
    ensures first { IfOk result (λ values.
        value_of func.now answers.now first ≡ Some values.first) }
    ensures second { IfOk result (λ values.
        value_of func.now answers.now second ≡ Some values.second) }
    ensures third { IfOk result (λ values.
        value_of func.now answers.now third ≡ Some values.third) }
    ensures missing { OnErr result
        (all_values func.now answers.now (first ∷ second ∷ third ∷ []) ≡ false) }
{
    Ok(Operands {
        first: value_named(func, answers, first).ok_or(Condition::NoValue(first))?,
        second: value_named(func, answers, second).ok_or(Condition::NoValue(second))?,
        third: value_named(func, answers, third).ok_or(Condition::NoValue(third))?,
    })
}

// Whether the helper may be called on these operands: in a current unfilled block, if a byte that is set is an I8.
fn may_help(
    builder: &FunctionBuilder<'_>,
    pointer: PointerWidth,
    call: &MemoryCall,
    operands: &Operands,
) -> bool
    requires { operands.now.second < length builder.now.func.now.values }
    ensures { result ≡ can_help builder.now pointer (operation_in call.now) operands.now.second }
{
    has_current(builder) && may_be_second(builder, call, operands.second) && may_make(pointer, call)
}

// Whether the byte that `Memset` writes is an I8; of other helpers nothing is asked.
#[tactic(auto, using(crate::proofs::Conditions::same_from_iff))]
fn may_be_second(builder: &FunctionBuilder<'_>, call: &MemoryCall, value: Value) -> bool
    requires { value < length builder.now.func.now.values }
    ensures { result ≡ may_be_second builder.now (operation_in call.now) value }
{
    match call {
        MemoryCall::CallLibrary {
            callee: LibCall::Memset,
            ..
        } => is_same_type(builder.func().value_type(value), I8),
        _ => true,
    }
}

// Whether the size fits a pointer and the alignments the size, and no order of signed numbers is asked for.
fn may_make(pointer: PointerWidth, call: &MemoryCall) -> bool
    ensures { result ≡ may_make pointer (operation_in call.now) }
{
    match call {
        MemoryCall::CallLibrary { .. } => true,
        MemoryCall::Copy {
            size,
            dest_align,
            src_align,
            ..
        } => may_move(pointer, *size, (*dest_align).min(*src_align)),
        MemoryCall::Fill {
            size,
            buffer_align,
            ..
        } => may_move(pointer, *size, *buffer_align),
        MemoryCall::Compare { int_cc, size, .. } => {
            is_unsigned(*int_cc) && fits_pointer(pointer, *size)
        }
    }
}

// Why the helper may not be called: the first condition that doesn't hold.
fn help_fault(
    builder: &FunctionBuilder<'_>,
    pointer: PointerWidth,
    call: &MemoryCall,
    operands: &Operands,
) -> Condition {
    if !has_current(builder) {
        return current_fault(builder);
    }
    match call {
        MemoryCall::CallLibrary { .. } => Condition::NoByte(operands.second),
        MemoryCall::Copy {
            size,
            dest_align,
            src_align,
            ..
        } => size_fault(pointer, *size, (*dest_align).min(*src_align)),
        MemoryCall::Fill {
            size,
            buffer_align,
            ..
        } => size_fault(pointer, *size, *buffer_align),
        MemoryCall::Compare { int_cc, size, .. } => {
            if is_unsigned(*int_cc) {
                Condition::Size(*size)
            } else {
                Condition::Signed(*int_cc)
            }
        }
    }
}

// Why so many bytes may not be moved with this alignment.
fn size_fault(pointer: PointerWidth, size: u64, alignment: u8) -> Condition {
    if fits_pointer(pointer, size) {
        Condition::MovedAlignment(alignment, size)
    } else {
        Condition::Size(size)
    }
}

// Calls the helper, and tells what it answers.
fn help(
    builder: &mut FunctionBuilder<'_>,
    config: TargetFrontendConfig,
    call: &MemoryCall,
    operands: &Operands,
) -> Result<Answer, BuildError>
    requires { MayHelp builder.old config (operation_in call.now)
        (values_in call.now operands.now) }
    ensures called { CallsHelper config (operation_in call.now) (values_in call.now operands.now)
        builder.old builder.new result }
    ensures sized { IsSized (operation_in call.now) }
{
    match call {
        MemoryCall::CallLibrary { callee, .. } => call_library(builder, config, *callee, operands),
        MemoryCall::Copy {
            size,
            dest_align,
            src_align,
            non_overlapping,
            flags,
            ..
        } => nothing(builder.emit_small_memory_copy(
            config,
            operands.first,
            operands.second,
            *size,
            *dest_align,
            *src_align,
            *non_overlapping,
            *flags,
        )),
        MemoryCall::Fill {
            ch,
            size,
            buffer_align,
            flags,
            ..
        } => nothing(builder.emit_small_memset(
            config,
            operands.first,
            *ch,
            *size,
            *buffer_align,
            *flags,
        )),
        MemoryCall::Compare {
            int_cc,
            size,
            left_align,
            right_align,
            flags,
            ..
        } => value(builder.emit_small_memory_compare(
            config,
            *int_cc,
            operands.first,
            operands.second,
            *size,
            *left_align,
            *right_align,
            *flags,
        )),
    }
}

// The same of a function of the C library.
fn call_library(
    builder: &mut FunctionBuilder<'_>,
    config: TargetFrontendConfig,
    callee: LibCall,
    operands: &Operands,
) -> Result<Answer, BuildError>
    requires { MayHelp builder.old config (CallLibrary callee) (three_values operands.now) }
    ensures { CallsHelper config (CallLibrary callee) (three_values operands.now)
        builder.old builder.new result }
{
    let first = operands.first;
    let second = operands.second;
    let size = operands.third;
    match callee {
        LibCall::Memcpy => nothing(builder.call_memcpy(config, first, second, size)),
        LibCall::Memmove => nothing(builder.call_memmove(config, first, second, size)),
        LibCall::Memset => nothing(builder.call_memset(config, first, second, size)),
        LibCall::Memcmp => value(builder.call_memcmp(config, first, second, size)),
    }
}

// Nothing is answered.
fn nothing(done: Result<(), BuildError>) -> Result<Answer, BuildError>
    ensures { result ≡ as_nothing done }
{
    match done {
        Ok(()) => Ok(Answer::Nothing),
        Err(error) => Err(error),
    }
}

// A value is answered.
fn value(made: Result<Value, BuildError>) -> Result<Answer, BuildError>
    ensures { result ≡ as_value made }
{
    match made {
        Ok(value) => Ok(one_value(value)),
        Err(error) => Err(error),
    }
}
