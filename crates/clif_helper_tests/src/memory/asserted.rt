//! Calls of the builder whose conditions are asserted.
#![tactic(auto)]

ghost use Rattle.std.specs.Prelude.{IsTrue};
ghost use Rattle.clif_types.specs.Target.{pointer_type_of};
ghost use Rattle.clif_meaning.specs.ByteOperation.{is_unsigned};
ghost use Rattle.clif_memory_helpers.specs.Lines.{HasType};

use crate::asserted::asserts_current;
use clif_builder::{FunctionBuilder, InstBuilder};
use clif_types::types::I64;
use clif_types::{Block, EntityRef, IntCC, PointerWidth, Type, Value};
use std::process::Abort;

// Asserts that a value exists and has this type.
pub(crate) fn asserts_typed(rt: &impl Abort, builder: &FunctionBuilder<'_>, value: Value, ty: Type)
    ensures { HasType builder.now value ty }
{
    assert!(rt; value.index() < builder.func().value_count());
    assert!(rt; builder.func().value_type(value) == ty);
}

// Asserts that a value exists and is an address or a size.
pub(crate) fn asserts_pointer(rt: &impl Abort, builder: &FunctionBuilder<'_>, value: Value)
    ensures { HasType builder.now value (pointer_type_of PointerWidth.U64) }
{
    asserts_typed(rt, builder, value, I64);
}

// Asserts that a condition isn't one of signed numbers.
pub(crate) fn asserts_unsigned(rt: &impl Abort, cond: IntCC)
    ensures { IsTrue (is_unsigned cond) }
{
    assert!(rt;
        matches!(
            cond,
            IntCC::Equal
                | IntCC::NotEqual
                | IntCC::UnsignedLessThan
                | IntCC::UnsignedGreaterThanOrEqual
                | IntCC::UnsignedGreaterThan
                | IntCC::UnsignedLessThanOrEqual
        )
    );
}

// A new block, which is the current one then.
pub(crate) fn enter(rt: &impl Abort, builder: &mut FunctionBuilder<'_>) -> Block {
    let block = builder.create_block().expect(rt, "a block");
    assert!(rt; builder.current_block().is_none());
    assert!(rt; !builder.is_filled(block));
    builder.switch_to_block(block);
    block
}

// A parameter of a block.
pub(crate) fn parameter(
    rt: &impl Abort,
    builder: &mut FunctionBuilder<'_>,
    block: Block,
    ty: Type,
) -> Value {
    assert!(rt; block.index() < builder.func().block_count());
    assert!(rt; builder.is_pristine(block));
    builder
        .append_block_param(block, ty)
        .expect(rt, "a parameter")
}

// The value of a new variable, which was never assigned.
pub(crate) fn undefined(rt: &impl Abort, builder: &mut FunctionBuilder<'_>, ty: Type) -> Value {
    assert!(rt; ty.is_valid());
    let variable = builder.declare_var(ty).expect(rt, "a variable");
    asserts_current(rt, builder);
    let answer = builder.try_use_var(variable).expect(rt, "an answer");
    answer.ok().expect(rt, "a value")
}

// Ends the current block.
pub(crate) fn return_values(rt: &impl Abort, builder: &mut FunctionBuilder<'_>, values: &[Value]) {
    asserts_current(rt, builder);
    match values {
        [] => {
            builder.ins().return_(&[]).expect(rt, "an end");
        }
        [value, ..] => {
            assert!(rt; value.index() < builder.func().value_count());
            builder.ins().return_(&[*value]).expect(rt, "an end");
        }
    }
}
