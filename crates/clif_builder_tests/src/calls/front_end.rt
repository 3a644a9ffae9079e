//! Calls on a builder, one at a time. Each asserts what it asks for, and that it succeeds.
#![tactic(auto)]

use crate::asserted::{
    asserts_block, asserts_current, asserts_edge, asserts_target, asserts_unsealed, asserts_value,
    asserts_values, last_inst,
};
use crate::calls::generic::there_and_back;
use clif_types::types::I32;
use cranelift_frontend::{
    Block, BlockArg, BuildError, ConstantOperands, DefVariableError, EntityRef, FunctionBuilder,
    InstBuilder, InstBuilderBase, InstructionData, TrapCode, Type, UseVariableError, Value,
    Variable,
};
use std::process::Abort;

/// A new block, which gets the next number.
pub fn create(rt: &impl Abort, builder: &mut FunctionBuilder<'_>) {
    let number = builder.func().block_count();
    let block = builder.create_block().expect(rt, "a block");
    assert!(rt; block.index() == number);
}

/// Makes a block the current one, where the one that was current is filled.
pub fn enter(rt: &impl Abort, builder: &mut FunctionBuilder<'_>, block: Block) {
    asserts_block(rt, builder, block);
    assert!(rt; !builder.is_filled(block));
    if let Some(current) = builder.current_block() {
        assert!(rt; builder.is_filled(current));
    }
    builder.switch_to_block(block);
}

/// Seals a block.
pub fn seal(rt: &impl Abort, builder: &mut FunctionBuilder<'_>, block: Block) {
    asserts_block(rt, builder, block);
    asserts_unsealed(rt, builder, block);
    builder.seal_block(block).expect(rt, "a seal");
}

/// Seals each block.
pub fn seal_all(rt: &impl Abort, builder: &mut FunctionBuilder<'_>) {
    builder.seal_all_blocks().expect(rt, "seals");
}

/// A new variable, which gets this number.
pub fn declare(rt: &impl Abort, builder: &mut FunctionBuilder<'_>, ty: Type, number: u8) {
    assert!(rt; ty.is_valid());
    let variable = builder.declare_var(ty).expect(rt, "a variable");
    assert!(rt; variable.index() == usize::from(number));
}

/// What a variable holds, or that its use is refused.
pub fn try_use(
    rt: &impl Abort,
    builder: &mut FunctionBuilder<'_>,
    variable: Variable,
) -> Result<Value, UseVariableError> {
    asserts_current(rt, builder);
    builder.try_use_var(variable).expect(rt, "an answer")
}

/// Assigns a value to a variable, or says that this is refused.
pub fn try_define(
    rt: &impl Abort,
    builder: &mut FunctionBuilder<'_>,
    variable: Variable,
    value: Value,
) -> Result<(), DefVariableError> {
    asserts_current(rt, builder);
    asserts_value(rt, builder, value);
    builder.try_def_var(variable, value).expect(rt, "an answer")
}

/// A constant.
pub fn constant(rt: &impl Abort, builder: &mut FunctionBuilder<'_>, ty: Type, imm: i64) -> Value {
    asserts_current(rt, builder);
    assert!(rt; ty.is_int());
    builder.ins().iconst(ty, imm).expect(rt, "a constant")
}

/// A constant by the cursor.
pub fn constant_at_cursor(rt: &impl Abort, builder: &mut FunctionBuilder<'_>, imm: i64) -> Value {
    asserts_current(rt, builder);
    let made = builder.cursor().ins().iconst(I32, imm);
    made.expect(rt, "a constant")
}

/// The double of a value by the cursor.
pub fn double_at_cursor(rt: &impl Abort, builder: &mut FunctionBuilder<'_>, x: Value) -> Value {
    asserts_current(rt, builder);
    asserts_value(rt, builder, x);
    let made = builder.cursor().ins().iadd(x, x);
    made.expect(rt, "a sum")
}

/// A constant, which is built by its shape.
pub fn shaped_constant(rt: &impl Abort, builder: &mut FunctionBuilder<'_>, imm: i64) {
    asserts_current(rt, builder);
    let shape = InstructionData::UnaryImm { imm };
    let inst = builder.ins().build(shape, I32).expect(rt, "a constant");
    assert!(rt; builder.inst_results(inst).len() == 1);
}

/// The same, as an instruction that neither branches nor ends its block.
pub fn auxiliary_constant(rt: &impl Abort, builder: &mut FunctionBuilder<'_>, imm: i64) {
    asserts_current(rt, builder);
    let shape = InstructionData::UnaryImm { imm };
    let inst = builder.ins().build_aux_inst(shape, I32);
    let inst = inst.expect(rt, "a constant");
    assert!(rt; builder.inst_results(inst).len() == 1);
}

/// A value, by way of its double, which a generic caller makes.
pub fn by_double(rt: &impl Abort, builder: &mut FunctionBuilder<'_>, x: Value) -> Value {
    asserts_current(rt, builder);
    asserts_value(rt, builder, x);
    there_and_back(builder, x).expect(rt, "a difference")
}

/// Ends the current block with a branch.
pub fn branch(
    rt: &impl Abort,
    builder: &mut FunctionBuilder<'_>,
    condition: Value,
    taken: Block,
    other: Block,
) {
    asserts_current(rt, builder);
    asserts_value(rt, builder, condition);
    asserts_target(rt, builder, taken);
    asserts_target(rt, builder, other);
    let made = builder.ins().brif(condition, taken, &[], other, &[]);
    made.expect(rt, "a branch");
}

/// Lets the branch that was made last, which leads to a block, lead to another one.
pub fn change(rt: &impl Abort, builder: &mut FunctionBuilder<'_>, from: Block, to: Block) {
    let inst = last_inst(rt, builder);
    asserts_block(rt, builder, to);
    asserts_unsealed(rt, builder, from);
    asserts_unsealed(rt, builder, to);
    assert!(rt; builder.leads_to(inst, from));
    builder
        .change_jump_destination(inst, from, to)
        .expect(rt, "a change");
}

/// Ends the current block with a return of a value.
pub fn give_back(rt: &impl Abort, builder: &mut FunctionBuilder<'_>, value: Value) {
    asserts_current(rt, builder);
    asserts_value(rt, builder, value);
    let inst = builder.ins().return_(&[value]).expect(rt, "a return");
    assert!(rt; builder.inst_results(inst).len() == 0);
}

/// Ends the current block with a return of these values.
pub fn give_back_each(rt: &impl Abort, builder: &mut FunctionBuilder<'_>, values: &[Value]) {
    asserts_current(rt, builder);
    asserts_values(rt, builder, values);
    builder.ins().return_(values).expect(rt, "a return");
}

/// Ends the current block with a jump that passes this.
pub fn jump(rt: &impl Abort, builder: &mut FunctionBuilder<'_>, block: Block, passed: &[BlockArg]) {
    asserts_current(rt, builder);
    asserts_edge(rt, builder, block, passed);
    builder.ins().jump(block, passed).expect(rt, "a jump");
}

/// Ends the current block with a trap.
pub fn trap(rt: &impl Abort, builder: &mut FunctionBuilder<'_>, code: u8) {
    asserts_current(rt, builder);
    builder
        .ins()
        .trap(TrapCode::User(code))
        .expect(rt, "a trap");
}

/// The sum of a value and a constant.
pub fn sum(rt: &impl Abort, builder: &mut FunctionBuilder<'_>, x: Value, imm: i64) -> Value {
    asserts_current(rt, builder);
    asserts_value(rt, builder, x);
    assert!(rt; builder.func().value_type(x).is_int());
    builder.ins().iadd_imm_s(x, imm).expect(rt, "a sum")
}

/// Appends the function's parameters to a block.
pub fn take_params(rt: &impl Abort, builder: &mut FunctionBuilder<'_>, block: Block) {
    asserts_block(rt, builder, block);
    assert!(rt; builder.is_pristine(block));
    assert!(rt; !builder.has_any_predecessors(block));
    builder
        .append_block_params_for_function_params(block)
        .expect(rt, "parameters");
}

/// The parameter at a place of a block.
pub fn param_at(
    rt: &impl Abort,
    builder: &FunctionBuilder<'_>,
    block: Block,
    place: usize,
) -> Value {
    asserts_block(rt, builder, block);
    *builder
        .block_params(block)
        .get(place)
        .expect(rt, "a parameter")
}

/// Fails, as a call does to which memory is refused.
pub fn fail(rt: &impl Abort, builder: &mut FunctionBuilder<'_>) {
    let error = builder.refuse();
    assert!(rt; error == BuildError::Memory);
    assert!(rt; builder.has_failed());
}

/// Ends the current block with a return of nothing.
pub fn end(rt: &impl Abort, builder: &mut FunctionBuilder<'_>) {
    asserts_current(rt, builder);
    builder.ins().return_(&[]).expect(rt, "a return");
}
