//! Entries of a function's tables, one at a time: each gets the next number.
#![tactic(auto)]

ghost use Rattle.std.specs.Prelude.{◌≡◌, ◌<◌, length};

use crate::asserted::{asserts_current, asserts_function, asserts_signature, asserts_values};
use crate::fixture::signature;
use cranelift_frontend::{
    DynamicStackSlotData, EntityRef, ExtFuncData, ExternalName, FuncRef, FunctionBuilder,
    GlobalValueData, Inst, InstBuilder, SigRef, StackSlotData, Type, Value,
};
use std::alloc::Global;
use std::process::Abort;
use std::test::Fail;

/// The signature that was imported first.
pub fn first_signature(rt: &impl Abort, builder: &FunctionBuilder<'_>) -> SigRef
    ensures exists { result < length builder.now.func.now.tables.signatures }
    ensures first { result ≡ 0 }
{
    assert!(rt; builder.func().tables().signature_count() > 0);
    SigRef::new(0)
}

/// The function that was imported first.
pub fn first_function(rt: &impl Abort, builder: &FunctionBuilder<'_>) -> FuncRef
    ensures { result < length builder.now.func.now.tables.functions }
{
    assert!(rt; builder.func().tables().function_count() > 0);
    FuncRef::new(0)
}

/// Imports the next signature.
pub fn import_signature(
    rt: &impl Abort,
    alloc: Global,
    builder: &mut FunctionBuilder<'_>,
    params: &[Type],
    returns: &[Type],
) -> Result<(), Fail> {
    let count = builder.func().tables().signature_count();
    assert!(rt; count < 10);
    assert!(rt; builder.signature(SigRef::new(count)).is_none());
    let number = builder.import_signature(signature(alloc, params, returns)?)?;
    assert!(rt; number.index() == count);
    assert!(rt; builder.signature(number).is_some());
    Ok(())
}

// Imports the next function.
fn import(
    rt: &impl Abort,
    builder: &mut FunctionBuilder<'_>,
    name: ExternalName,
    signature: SigRef,
    colocated: bool,
) {
    asserts_signature(rt, builder, signature);
    let count = builder.func().tables().function_count();
    let function = ExtFuncData {
        name,
        signature,
        colocated,
        patchable: false,
    };
    let number = builder.import_function(function).expect(rt, "a function");
    assert!(rt; number.index() == count);
}

/// Imports the next function, which has this name, and a signature that was imported before.
pub fn import_function(
    rt: &impl Abort,
    alloc: Global,
    builder: &mut FunctionBuilder<'_>,
    name: &str,
    signature: SigRef,
) -> Result<(), Fail> {
    let name = ExternalName::testcase(String::from_str(alloc, name)?);
    import(rt, builder, name, signature, false);
    Ok(())
}

/// Imports the next function, which is named `u0:0`, is colocated, and has the first signature.
pub fn import_colocated(rt: &impl Abort, builder: &mut FunctionBuilder<'_>) {
    import(rt, builder, ExternalName::user(0, 0), SigRef::new(0), true);
}

/// Makes the first stack slot, of four bytes.
pub fn create_slot(rt: &impl Abort, builder: &mut FunctionBuilder<'_>) {
    let number = builder
        .create_sized_stack_slot(StackSlotData::new(4, 2))
        .expect(rt, "a slot");
    assert!(rt; number.index() == 0);
}

/// Makes the first stack slot of a dynamic type.
pub fn create_dynamic_slot(rt: &impl Abort, builder: &mut FunctionBuilder<'_>) {
    let number = builder
        .create_dynamic_stack_slot(DynamicStackSlotData { dyn_ty: 0 })
        .expect(rt, "a slot");
    assert!(rt; number.index() == 0);
}

/// Makes the first global value, the context of the virtual machine.
pub fn create_context(rt: &impl Abort, builder: &mut FunctionBuilder<'_>) {
    let number = builder
        .create_global_value(GlobalValueData::VMContext)
        .expect(rt, "a global value");
    assert!(rt; number.index() == 0);
}

/// Calls a function that was imported, with these values.
pub fn call(
    rt: &impl Abort,
    builder: &mut FunctionBuilder<'_>,
    function: FuncRef,
    args: &[Value],
) -> Inst
    ensures { result < length builder.new.func.now.insts }
{
    asserts_current(rt, builder);
    asserts_function(rt, builder, function);
    asserts_values(rt, builder, args);
    builder.ins().call(function, args).expect(rt, "a call")
}

/// What such a call returns, which is one value.
pub fn returned(
    rt: &impl Abort,
    builder: &mut FunctionBuilder<'_>,
    function: FuncRef,
    args: &[Value],
) -> Value {
    let inst = call(rt, builder, function, args);
    let results = builder.inst_results(inst);
    assert!(rt; results.len() == 1);
    results[0]
}
