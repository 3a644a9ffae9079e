//! Calls on a builder of eight variables of type I32. Each asks first whether it may be made.
ghost use Rattle.std.specs.Prelude.{◌≡◌, ◌<◌, length, slice_get, Some, OnOk, [], false};
ghost use Rattle.clif_ssa.specs.Ssa.{sealed_of};
ghost use Rattle.clif_records.specs.Tables.{is_yes};
ghost use Rattle.clif_builder.specs.Builder.{HasCurrent};
ghost use Rattle.benches.specs.Variables.{eight, refused, word};

use clif_types::types::{I32, I64};
use cranelift_frontend::{
    AbiParam, Block, BuildError, CallConv, EntityRef, ExtFuncData, ExternalName, FuncRef,
    FunctionBuilder, InstBuilder, IntCC, Signature, TrapCode, Value, Variable,
};
use std::alloc::Global;

/// Why a function wasn't built.
#[derive(Clone, Copy, PartialEq, Eq)]
pub enum Fault {
    /// A call was refused.
    Refused(BuildError),
    /// A call may not be made.
    Misuse,
}

impl From<BuildError> for Fault {
    ghost from_gives = { λ error fault. fault ≡ refused error };

    fn from(error: BuildError) -> Fault {
        Fault::Refused(error)
    }
}

/// One of the eight variables.
pub fn variable(number: usize) -> Variable
    ensures exists { result < 8 }
    ensures has_type { slice_get eight result ≡ Some word }
{
    let place = match number % 8 {
        0 => 0,
        1 => 1,
        2 => 2,
        3 => 3,
        4 => 4,
        5 => 5,
        6 => 6,
        _ => 7,
    };
    Variable::from_u32(place)
}

/// Declares the eight variables.
pub fn declare_all(builder: &mut FunctionBuilder<'_>) -> Result<(), Fault>
    requires { builder.old.ctx.now.parts.variables ≡ [] }
    ensures { OnOk result (builder.new.ctx.now.parts.variables ≡ eight) }
{
    builder.declare_var(I32)?;
    builder.declare_var(I32)?;
    builder.declare_var(I32)?;
    builder.declare_var(I32)?;
    builder.declare_var(I32)?;
    builder.declare_var(I32)?;
    builder.declare_var(I32)?;
    builder.declare_var(I32)?;
    Ok(())
}

// There is a current block, which isn't filled.
pub(crate) fn open(builder: &FunctionBuilder<'_>) -> Result<(), Fault>
    ensures { OnOk result (HasCurrent builder.now) }
{
    match builder.current_block() {
        Some(block) if block.index() < builder.func().block_count() && !builder.is_filled(block) =>
            { Ok(()) }
        _ => Err(Fault::Misuse),
    }
}

// A block exists and isn't sealed.
pub(crate) fn unsealed(builder: &FunctionBuilder<'_>, block: Block) -> Result<(), Fault>
    ensures exists { OnOk result (block < length builder.now.func.now.blocks) }
    ensures unsealed { OnOk result (is_yes (sealed_of builder.now.ctx.now.parts.ssa block) ≡ false) }
{
    if block.index() >= builder.func().block_count() || builder.is_sealed(block) {
        return Err(Fault::Misuse);
    }
    Ok(())
}

// A value exists.
pub(crate) fn exists(builder: &FunctionBuilder<'_>, value: Value) -> Result<(), Fault>
    ensures { OnOk result (value < length builder.now.func.now.values) }
{
    if value.index() >= builder.func().value_count() {
        return Err(Fault::Misuse);
    }
    Ok(())
}

/// A new block.
pub fn create(builder: &mut FunctionBuilder<'_>) -> Result<Block, Fault>
    ensures { builder.new.ctx.now.parts.variables ≡ builder.old.ctx.now.parts.variables }
{
    Ok(builder.create_block()?)
}

/// Goes on in a block, where the one before is filled.
pub fn enter(builder: &mut FunctionBuilder<'_>, block: Block) -> Result<(), Fault>
    ensures { builder.new.ctx.now.parts.variables ≡ builder.old.ctx.now.parts.variables }
{
    if block.index() >= builder.func().block_count() || builder.is_filled(block) {
        return Err(Fault::Misuse);
    }
    if let Some(current) = builder.current_block() {
        if current.index() >= builder.func().block_count() || !builder.is_filled(current) {
            return Err(Fault::Misuse);
        }
    }
    builder.switch_to_block(block);
    Ok(())
}

/// Seals a block.
pub fn seal(builder: &mut FunctionBuilder<'_>, block: Block) -> Result<(), Fault>
    ensures { builder.new.ctx.now.parts.variables ≡ builder.old.ctx.now.parts.variables }
{
    unsealed(builder, block)?;
    builder.seal_block(block)?;
    Ok(())
}

/// What a variable holds.
pub fn read(builder: &mut FunctionBuilder<'_>, number: usize) -> Result<Value, Fault>
    requires { builder.old.ctx.now.parts.variables ≡ eight }
    ensures { builder.new.ctx.now.parts.variables ≡ builder.old.ctx.now.parts.variables }
{
    open(builder)?;
    Ok(builder.use_var(variable(number))?)
}

/// Assigns a value to a variable.
pub fn assign(builder: &mut FunctionBuilder<'_>, number: usize, value: Value) -> Result<(), Fault>
    requires { builder.old.ctx.now.parts.variables ≡ eight }
    ensures { builder.new.ctx.now.parts.variables ≡ builder.old.ctx.now.parts.variables }
{
    open(builder)?;
    exists(builder, value)?;
    if builder.func().value_type(value) != I32 {
        return Err(Fault::Misuse);
    }
    builder.def_var(variable(number), value)?;
    Ok(())
}

/// A constant.
pub fn constant(builder: &mut FunctionBuilder<'_>, number: i64) -> Result<Value, Fault>
    ensures { builder.new.ctx.now.parts.variables ≡ builder.old.ctx.now.parts.variables }
{
    open(builder)?;
    Ok(builder.ins().iconst(I32, number)?)
}

/// A sum.
pub fn sum(builder: &mut FunctionBuilder<'_>, x: Value, y: Value) -> Result<Value, Fault>
    ensures { builder.new.ctx.now.parts.variables ≡ builder.old.ctx.now.parts.variables }
{
    open(builder)?;
    exists(builder, x)?;
    exists(builder, y)?;
    Ok(builder.ins().iadd(x, y)?)
}

/// A comparison.
pub fn less(builder: &mut FunctionBuilder<'_>, x: Value, y: Value) -> Result<Value, Fault>
    ensures { builder.new.ctx.now.parts.variables ≡ builder.old.ctx.now.parts.variables }
{
    open(builder)?;
    exists(builder, x)?;
    exists(builder, y)?;
    Ok(builder.ins().icmp(IntCC::UnsignedLessThan, x, y)?)
}

/// One of two values.
pub fn choose(
    builder: &mut FunctionBuilder<'_>,
    condition: Value,
    x: Value,
    y: Value,
) -> Result<Value, Fault>
    ensures { builder.new.ctx.now.parts.variables ≡ builder.old.ctx.now.parts.variables }
{
    open(builder)?;
    exists(builder, condition)?;
    exists(builder, x)?;
    exists(builder, y)?;
    Ok(builder.ins().select(condition, x, y)?)
}

/// A value with zero bits above, of type I64.
pub fn widen(builder: &mut FunctionBuilder<'_>, x: Value) -> Result<Value, Fault>
    ensures { builder.new.ctx.now.parts.variables ≡ builder.old.ctx.now.parts.variables }
{
    open(builder)?;
    exists(builder, x)?;
    Ok(builder.ins().uextend(I64, x)?)
}

/// The low bits of a value, of type I32.
pub fn narrow(builder: &mut FunctionBuilder<'_>, x: Value) -> Result<Value, Fault>
    ensures { builder.new.ctx.now.parts.variables ≡ builder.old.ctx.now.parts.variables }
{
    open(builder)?;
    exists(builder, x)?;
    Ok(builder.ins().ireduce(I32, x)?)
}

/// The other bits.
pub fn inverse(builder: &mut FunctionBuilder<'_>, x: Value) -> Result<Value, Fault>
    ensures { builder.new.ctx.now.parts.variables ≡ builder.old.ctx.now.parts.variables }
{
    open(builder)?;
    exists(builder, x)?;
    Ok(builder.ins().bnot(x)?)
}

/// A float.
pub fn float(builder: &mut FunctionBuilder<'_>) -> Result<Value, Fault>
    ensures { builder.new.ctx.now.parts.variables ≡ builder.old.ctx.now.parts.variables }
{
    open(builder)?;
    Ok(builder.ins().f64const(0x3ff0_0000_0000_0000)?)
}

/// A trap where a value is zero.
pub fn guard(builder: &mut FunctionBuilder<'_>, x: Value) -> Result<(), Fault>
    ensures { builder.new.ctx.now.parts.variables ≡ builder.old.ctx.now.parts.variables }
{
    open(builder)?;
    exists(builder, x)?;
    builder.ins().trapz(x, TrapCode::User(1))?;
    Ok(())
}

/// Ends the current block with a jump.
pub fn jump(builder: &mut FunctionBuilder<'_>, block: Block) -> Result<(), Fault>
    ensures { builder.new.ctx.now.parts.variables ≡ builder.old.ctx.now.parts.variables }
{
    open(builder)?;
    unsealed(builder, block)?;
    builder.ins().jump(block, &[])?;
    Ok(())
}

/// Ends the current block with a branch.
pub fn branch(
    builder: &mut FunctionBuilder<'_>,
    condition: Value,
    taken: Block,
    other: Block,
) -> Result<(), Fault>
    ensures { builder.new.ctx.now.parts.variables ≡ builder.old.ctx.now.parts.variables }
{
    open(builder)?;
    exists(builder, condition)?;
    unsealed(builder, taken)?;
    unsealed(builder, other)?;
    builder.ins().brif(condition, taken, &[], other, &[])?;
    Ok(())
}

/// Ends the current block with a return of a value.
pub fn give_back(builder: &mut FunctionBuilder<'_>, value: Value) -> Result<(), Fault>
    ensures { builder.new.ctx.now.parts.variables ≡ builder.old.ctx.now.parts.variables }
{
    open(builder)?;
    exists(builder, value)?;
    builder.ins().return_(&[value])?;
    Ok(())
}

/// Imports a function that takes and returns nothing.
pub fn import_first(alloc: Global, builder: &mut FunctionBuilder<'_>) -> Result<(), Fault>
    ensures { builder.new.ctx.now.parts.variables ≡ builder.old.ctx.now.parts.variables }
{
    import(builder, Signature::new(alloc, CallConv::SystemV))
}

/// Imports a function that takes four values of type I32 and returns one.
pub fn import_of_four(alloc: Global, builder: &mut FunctionBuilder<'_>) -> Result<(), Fault>
    ensures { builder.new.ctx.now.parts.variables ≡ builder.old.ctx.now.parts.variables }
{
    match signature_of_four(alloc) {
        Ok(signature) => import(builder, signature),
        Err(error) => Err(Fault::Refused(error)),
    }
}

fn signature_of_four(alloc: Global) -> Result<Signature, BuildError> {
    let mut signature = Signature::new(alloc, CallConv::SystemV);
    for _ in 0..4 {
        signature.params.push(AbiParam::new(I32))?;
    }
    signature.returns.push(AbiParam::new(I32))?;
    Ok(signature)
}

// Imports a function.
fn import(builder: &mut FunctionBuilder<'_>, signature: Signature) -> Result<(), Fault>
    ensures { builder.new.ctx.now.parts.variables ≡ builder.old.ctx.now.parts.variables }
{
    let signature = builder.import_signature(signature)?;
    if signature.index() >= builder.func().tables().signature_count() {
        return Err(Fault::Misuse);
    }
    builder.import_function(ExtFuncData {
        name: ExternalName::user(0, 0),
        signature,
        colocated: false,
        patchable: false,
    })?;
    Ok(())
}

/// Calls the function that was imported first, which takes and returns nothing.
pub fn call_first(builder: &mut FunctionBuilder<'_>) -> Result<(), Fault>
    ensures { builder.new.ctx.now.parts.variables ≡ builder.old.ctx.now.parts.variables }
{
    open(builder)?;
    if builder.func().tables().function_count() == 0 {
        return Err(Fault::Misuse);
    }
    builder.ins().call(FuncRef::from_u32(0), &[])?;
    Ok(())
}

/// What the function that was imported first returns, which takes four values.
pub fn call_of_four(builder: &mut FunctionBuilder<'_>, x: Value, y: Value) -> Result<Value, Fault>
    ensures { builder.new.ctx.now.parts.variables ≡ builder.old.ctx.now.parts.variables }
{
    open(builder)?;
    exists(builder, x)?;
    exists(builder, y)?;
    if builder.func().tables().function_count() == 0 {
        return Err(Fault::Misuse);
    }
    let inst = builder.ins().call(FuncRef::from_u32(0), &[x, y, x, y])?;
    if inst.index() >= builder.func().inst_count() {
        return Err(Fault::Misuse);
    }
    match builder.inst_results(inst) {
        [value] => Ok(*value),
        _ => Err(Fault::Misuse),
    }
}
