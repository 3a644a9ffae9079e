//! Functions of one helper's call, and their texts.
#![tactic(auto)]

ghost use Rattle.std.specs.Prelude.{◌≡◌};
ghost use Rattle.clif_ir.specs.Body.{empty_body};

use crate::asserted::{CONFIG, asserts_current};
use crate::memory::asserted::{
    asserts_pointer, asserts_typed, asserts_unsigned, enter, parameter, return_values, undefined,
};
use clif_access_plans::{fits_pointer, may_move};
use clif_builder::{FunctionBuilder, FunctionBuilderContext};
use clif_ir::Function;
use clif_memory_helpers::MemoryHelpers;
use clif_types::types::{I8, I64};
use clif_types::{
    AbiParam, BuildError, CallConv, IntCC, MemFlagsData, Signature, Type, UserFuncName, Value,
};
use std::alloc::Global;
use std::num::NonZeroU8;
use std::process::Abort;

/// A helper's call; operands are named by their places among the function's first values.
#[derive(Clone, Copy)]
pub(crate) enum Helper {
    Memcpy(usize, usize, usize),
    Memmove(usize, usize, usize),
    Memset(usize, usize, usize),
    Memcmp(usize, usize, usize),
    Copy {
        operands: (usize, usize),
        size: u64,
        alignments: (u8, u8),
        non_overlapping: bool,
        flags: MemFlagsData,
    },
    Fill {
        buffer: usize,
        byte: u8,
        size: u64,
        alignment: u8,
        flags: MemFlagsData,
    },
    Compare {
        cond: IntCC,
        operands: (usize, usize),
        size: u64,
        alignments: (u8, u8),
        flags: MemFlagsData,
    },
}

/// What the function returns.
#[derive(Clone, Copy)]
pub(crate) enum Returned {
    Nothing,
    Value(usize),
    Answer,
}

/// A function: its name, what it is said to return, and its first values, which are parameters of its block or variables that are
/// never assigned, all of this many bits.
#[derive(Clone, Copy)]
pub(crate) struct Sample<'a> {
    pub(crate) name: &'a str,
    pub(crate) returns: Option<Type>,
    pub(crate) parameters: &'a [Type],
    pub(crate) variables: usize,
}

/// What a copy answers that is asked of the builder.
fn copy(
    rt: &impl Abort,
    builder: &mut FunctionBuilder<'_>,
    dest: Value,
    src: Value,
    size: u64,
    alignments: (u8, u8),
    non_overlapping: bool,
    flags: MemFlagsData,
) -> Result<(), BuildError> {
    let (dest_align, src_align) = alignments;
    asserts_current(rt, builder);
    asserts_pointer(rt, builder, dest);
    asserts_pointer(rt, builder, src);
    assert!(rt; may_move(CONFIG.pointer_width, size, dest_align.min(src_align)));
    builder.emit_small_memory_copy(
        CONFIG,
        dest,
        src,
        size,
        dest_align,
        src_align,
        non_overlapping,
        flags,
    )
}

fn fill(
    rt: &impl Abort,
    builder: &mut FunctionBuilder<'_>,
    buffer: Value,
    byte: u8,
    size: u64,
    alignment: u8,
    flags: MemFlagsData,
) -> Result<(), BuildError> {
    asserts_current(rt, builder);
    asserts_pointer(rt, builder, buffer);
    assert!(rt; may_move(CONFIG.pointer_width, size, alignment));
    builder.emit_small_memset(CONFIG, buffer, byte, size, alignment, flags)
}

fn compare(
    rt: &impl Abort,
    builder: &mut FunctionBuilder<'_>,
    cond: IntCC,
    left: Value,
    right: Value,
    size: u64,
    alignments: (u8, u8),
    flags: MemFlagsData,
) -> Result<Value, BuildError> {
    let left_align = NonZeroU8::new(alignments.0).expect(rt, "an alignment");
    let right_align = NonZeroU8::new(alignments.1).expect(rt, "an alignment");
    asserts_current(rt, builder);
    asserts_pointer(rt, builder, left);
    asserts_pointer(rt, builder, right);
    asserts_unsigned(rt, cond);
    assert!(rt; fits_pointer(CONFIG.pointer_width, size));
    builder.emit_small_memory_compare(
        CONFIG,
        cond,
        left,
        right,
        size,
        left_align,
        right_align,
        flags,
    )
}

/// Calls a function of the C library on values.
fn call(
    rt: &impl Abort,
    builder: &mut FunctionBuilder<'_>,
    values: &[Value],
    helper: Helper,
) -> Result<Option<Value>, BuildError> {
    let at = |place: usize| *values.get(place).expect(rt, "an operand");
    asserts_current(rt, builder);
    match helper {
        Helper::Memcpy(dest, src, size) => {
            let (dest, src, size) = (at(dest), at(src), at(size));
            asserts_pointer(rt, builder, dest);
            asserts_pointer(rt, builder, src);
            asserts_pointer(rt, builder, size);
            builder.call_memcpy(CONFIG, dest, src, size)?;
            Ok(None)
        }
        Helper::Memmove(dest, src, size) => {
            let (dest, src, size) = (at(dest), at(src), at(size));
            asserts_pointer(rt, builder, dest);
            asserts_pointer(rt, builder, src);
            asserts_pointer(rt, builder, size);
            builder.call_memmove(CONFIG, dest, src, size)?;
            Ok(None)
        }
        Helper::Memset(buffer, ch, size) => {
            let (buffer, ch, size) = (at(buffer), at(ch), at(size));
            asserts_pointer(rt, builder, buffer);
            asserts_typed(rt, builder, ch, I8);
            asserts_pointer(rt, builder, size);
            builder.call_memset(CONFIG, buffer, ch, size)?;
            Ok(None)
        }
        Helper::Memcmp(left, right, size) => {
            let (left, right, size) = (at(left), at(right), at(size));
            asserts_pointer(rt, builder, left);
            asserts_pointer(rt, builder, right);
            asserts_pointer(rt, builder, size);
            Ok(Some(builder.call_memcmp(CONFIG, left, right, size)?))
        }
        Helper::Copy {
            operands,
            size,
            alignments,
            non_overlapping,
            flags,
        } => {
            let (dest, src) = (at(operands.0), at(operands.1));
            copy(
                rt,
                builder,
                dest,
                src,
                size,
                alignments,
                non_overlapping,
                flags,
            )?;
            Ok(None)
        }
        Helper::Fill {
            buffer,
            byte,
            size,
            alignment,
            flags,
        } => {
            fill(rt, builder, at(buffer), byte, size, alignment, flags)?;
            Ok(None)
        }
        Helper::Compare {
            cond,
            operands,
            size,
            alignments,
            flags,
        } => {
            let (left, right) = (at(operands.0), at(operands.1));
            Ok(Some(compare(rt, builder, cond, left, right, size, alignments, flags)?))
        }
    }
}

/// The function without its block.
pub(crate) fn empty(rt: &impl Abort, alloc: Global, sample: Sample<'_>) -> Function
    ensures { result ≡ empty_body result.name result.signature }
{
    let name = String::from_str(alloc, sample.name).expect(rt, "a name");
    let mut signature = Signature::new(alloc, CallConv::SystemV);
    for ty in sample.parameters {
        signature.params.push(AbiParam::new(*ty)).expect(rt, "room");
    }
    if let Some(ty) = sample.returns {
        signature.returns.push(AbiParam::new(ty)).expect(rt, "room");
    }
    Function::with_name_signature(alloc, UserFuncName::testcase(name), signature)
}

/// Makes the function's first values, and then calls helpers one behind the other; what the last one answers.
pub(crate) fn help(
    rt: &impl Abort,
    alloc: Global,
    builder: &mut FunctionBuilder<'_>,
    sample: Sample<'_>,
    helper: Helper,
    returned: Returned,
) -> Result<(), BuildError> {
    let block = enter(rt, builder);
    let mut values = Vec::new(alloc);
    for ty in sample.parameters {
        values
            .push(parameter(rt, builder, block, *ty))
            .expect(rt, "room");
    }
    for _ in 0..sample.variables {
        values.push(undefined(rt, builder, I64)).expect(rt, "room");
    }
    let answer = call(rt, builder, values.as_slice(), helper)?;
    match returned {
        Returned::Nothing => return_values(rt, builder, &[]),
        Returned::Value(place) => {
            let value = *values.get(place).expect(rt, "a value");
            return_values(rt, builder, &[value]);
        }
        Returned::Answer => return_values(rt, builder, &[answer.expect(rt, "an answer")]),
    }
    builder.seal_all_blocks()
}

/// The text of the function.
pub(crate) fn text(
    rt: &impl Abort,
    alloc: Global,
    sample: Sample<'_>,
    helper: Helper,
    returned: Returned,
) -> String {
    let mut func = empty(rt, alloc, sample);
    let mut ctx = FunctionBuilderContext::new(alloc);
    let mut builder = FunctionBuilder::new(&mut func, &mut ctx);
    help(rt, alloc, &mut builder, sample, helper, returned).expect(rt, "a helper's call");
    builder.finalize(CONFIG).expect(rt, "a finished function");
    format!(in alloc; "{}", func.display()).expect(rt, "a text")
}
