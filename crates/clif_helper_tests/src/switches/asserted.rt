//! Calls of the builder whose conditions are asserted.
#![tactic(auto)]

ghost use Rattle.clif_switch.specs.Emission.{MayLead};
ghost use Rattle.clif_helper_tests.specs.Cases.{AllLead};

use crate::asserted::{asserts_current, asserts_value};
use cranelift_frontend::{
    Block, EntityRef, Function, FunctionBuilder, InstBuilder, Switch, SwitchError, Type, Value,
    types,
};
use std::alloc::Global;
use std::process::Abort;

// Asserts that a branch may lead to a block: it exists and isn't sealed.
fn asserts_target(rt: &impl Abort, builder: &FunctionBuilder<'_>, block: Block)
    ensures { MayLead builder.now block }
{
    assert!(rt; block.index() < builder.func().block_count());
    assert!(rt; !builder.is_sealed(block));
}

// A new block.
pub(crate) fn block(rt: &impl Abort, builder: &mut FunctionBuilder<'_>) -> Block {
    builder.create_block().expect(rt, "a block")
}

// Makes a block the current one, where the one that was current is filled.
pub(crate) fn enter(rt: &impl Abort, builder: &mut FunctionBuilder<'_>, block: Block) {
    assert!(rt; block.index() < builder.func().block_count());
    assert!(rt; !builder.is_filled(block));
    if let Some(current) = builder.current_block() {
        assert!(rt; builder.is_filled(current));
    }
    builder.switch_to_block(block);
}

pub(crate) fn seal(rt: &impl Abort, builder: &mut FunctionBuilder<'_>, block: Block) {
    assert!(rt; block.index() < builder.func().block_count());
    assert!(rt; !builder.is_sealed(block));
    builder.seal_block(block).expect(rt, "a seal");
}

// The number at a type; at 128 bits it is one of 64 bits, extended by zeros.
pub(crate) fn number(
    rt: &impl Abort,
    builder: &mut FunctionBuilder<'_>,
    ty: Type,
    number: i64,
) -> Value {
    asserts_current(rt, builder);
    assert!(rt; ty.is_int());
    if ty == types::I128 {
        let narrow = builder
            .ins()
            .iconst(types::I64, number)
            .expect(rt, "a number");
        asserts_current(rt, builder);
        asserts_value(rt, builder, narrow);
        builder
            .ins()
            .uextend(ty, narrow)
            .expect(rt, "a wider number")
    } else {
        builder.ins().iconst(ty, number).expect(rt, "a number")
    }
}

// A switch without a case, to be emitted by a builder.
fn empty_switch(alloc: Global, _builder: &FunctionBuilder<'_>) -> Switch
    ensures { AllLead result _builder.now }
{
    Switch::new(alloc)
}

// Sets the block of a key, to which a branch may lead.
fn set_case(
    rt: &impl Abort,
    builder: &FunctionBuilder<'_>,
    switch: &mut Switch,
    key: u128,
    block: Block,
)
    requires { AllLead switch.old builder.now }
    ensures { AllLead switch.new builder.now }
{
    asserts_target(rt, builder, block);
    switch.set_entry(key, block).expect(rt, "a case");
}

// The switch whose cases are these keys, each with the block at its place.
fn switch_of(
    rt: &impl Abort,
    alloc: Global,
    builder: &FunctionBuilder<'_>,
    keys: &[u128],
    blocks: &[Block],
) -> Switch
    ensures { AllLead result builder.now }
{
    assert!(rt; keys.len() == blocks.len());
    let mut switch = empty_switch(alloc, builder);
    for place in 0..keys.len() {
        set_case(rt, builder, &mut switch, keys[place], blocks[place]);
    }
    switch
}

// What `emit` answers, at the switch whose cases are these keys, each with the block at its place.
pub(crate) fn emit(
    rt: &impl Abort,
    alloc: Global,
    builder: &mut FunctionBuilder<'_>,
    keys: &[u128],
    blocks: &[Block],
    value: Value,
    otherwise: Block,
) -> Result<(), SwitchError> {
    asserts_current(rt, builder);
    asserts_value(rt, builder, value);
    assert!(rt; builder.func().value_type(value).is_int());
    asserts_target(rt, builder, otherwise);
    let switch = switch_of(rt, alloc, builder, keys, blocks);
    switch.emit(builder, value, otherwise)
}

// The lines of a function's text between its first one and its last one.
pub(crate) fn lines(rt: &impl Abort, alloc: Global, func: &Function) -> String {
    let text = format!(in alloc; "{}", func.display()).expect(rt, "a text");
    let mut inside = String::new(alloc);
    for line in text.lines() {
        if !line.starts_with("function") && line != "}" {
            inside.push_str(line).expect(rt, "room");
            inside.push_str("\n").expect(rt, "room");
        }
    }
    inside
}
