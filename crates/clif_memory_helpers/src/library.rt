//! Calls of functions of the C library.
#![tactic(auto)]

ghost use Rattle.std.specs.Prelude.{◌≡◌, ◌<◌, [], ◌∷◌, length, All, IfOk};
ghost use Rattle.clif_builder.specs.Builder.{HasCurrent};
ghost use Rattle.clif_helper_calls.specs.LibraryCodes.{copying_function};
ghost use Rattle.clif_memory_helpers.specs.Helpers.{library_signature};
ghost use Rattle.clif_memory_helpers.specs.Steps.{CallsForNumber, CallsFunction, ComparesKnown, ComparesSized, CopiesKnown, CopiesSized, FillsKnown, FillsSized, GivesNumber, GivesOne, ImportsFunction};

use clif_builder::laws::{ledger_is_read_by_number, requests_ask_for_their_shapes};
use clif_builder::{FunctionBuilder, InstBuilder, InstBuilderBase};
use clif_types::types::{I8, I32};
use clif_types::{
    AbiParam, BuildError, ExtFuncData, ExternalName, FuncRef, Inst, IntCC, LibCall, Signature,
    TargetFrontendConfig, Value,
};
use std::alloc::{AllocError, Global};

// The signature of a function of the C library.
fn library_signature(
    alloc: Global,
    config: TargetFrontendConfig,
    callee: LibCall,
) -> Result<Signature, AllocError>
    ensures { IfOk result (λ signature. signature ≡ library_signature config callee) }
{
    let pointer = AbiParam::new(config.pointer_type());
    let number = AbiParam::new(I32);
    let (second, returned) = match callee {
        LibCall::Memcpy | LibCall::Memmove => (pointer, pointer),
        LibCall::Memset => (number, pointer),
        LibCall::Memcmp => (pointer, number),
    };
    Ok(Signature {
        params: vec![in alloc; pointer, second, pointer]?,
        returns: vec![in alloc; returned]?,
        call_conv: config.default_call_conv,
    })
}

// Imports a function of the C library, and its signature.
fn import_library<R>(
    bx: &mut FunctionBuilder<'_, R>,
    config: TargetFrontendConfig,
    callee: LibCall,
) -> Result<FuncRef, BuildError>
    requires current { HasCurrent bx.old }
    ensures { ImportsFunction config callee bx.old bx.new result }
{
    ledger_is_read_by_number();
    let Ok(signature) = library_signature(bx.func().allocator(), config, callee) else {
        return Err(bx.refuse());
    };
    let signature = bx.import_signature(signature)?;
    bx.import_function(ExtFuncData {
        name: ExternalName::LibCall(callee),
        signature,
        colocated: false,
        patchable: false,
    })
}

// The function that copies bytes which don't overlap, or which may.
pub(crate) fn copying_function(non_overlapping: bool) -> LibCall
    ensures { result ≡ copying_function non_overlapping }
{
    if non_overlapping {
        LibCall::Memcpy
    } else {
        LibCall::Memmove
    }
}

// A copy of bytes of which there are as many as a value says, by this function.
pub(crate) fn copy_by_call<R>(
    bx: &mut FunctionBuilder<'_, R>,
    config: TargetFrontendConfig,
    callee: LibCall,
    target: Value,
    source: Value,
    size: Value,
) -> Result<(), BuildError>
    requires current { HasCurrent bx.old }
    requires target_exists { target < length bx.old.func.now.values }
    requires source_exists { source < length bx.old.func.now.values }
    requires size_exists { size < length bx.old.func.now.values }
    ensures { CopiesSized config callee (target ∷ source ∷ size ∷ []) bx.old bx.new result }
{
    ledger_is_read_by_number();
    requests_ask_for_their_shapes();
    let function = import_library(bx, config, callee)?;
    call_library(bx, function, &[target, source, size])
}

// A copy of so many bytes.
pub(crate) fn copy_known_by_call<R>(
    bx: &mut FunctionBuilder<'_, R>,
    config: TargetFrontendConfig,
    callee: LibCall,
    target: Value,
    source: Value,
    size: u64,
) -> Result<(), BuildError>
    requires current { HasCurrent bx.old }
    requires target_exists { target < length bx.old.func.now.values }
    requires source_exists { source < length bx.old.func.now.values }
    ensures { CopiesKnown config callee size (target ∷ source ∷ []) bx.old bx.new result }
{
    ledger_is_read_by_number();
    requests_ask_for_their_shapes();
    let function = import_library(bx, config, callee)?;
    let size = bx.iconst(config.pointer_type(), size.cast_signed())?;
    call_library(bx, function, &[target, source, size])
}

// A fill of bytes of which there are as many as a value says.
pub(crate) fn fill_by_call<R>(
    bx: &mut FunctionBuilder<'_, R>,
    config: TargetFrontendConfig,
    target: Value,
    byte: Value,
    size: Value,
) -> Result<(), BuildError>
    requires current { HasCurrent bx.old }
    requires target_exists { target < length bx.old.func.now.values }
    requires byte_exists { byte < length bx.old.func.now.values }
    requires size_exists { size < length bx.old.func.now.values }
    ensures { FillsSized config (target ∷ byte ∷ size ∷ []) bx.old bx.new result }
{
    ledger_is_read_by_number();
    requests_ask_for_their_shapes();
    let function = import_library(bx, config, LibCall::Memset)?;
    let wide = bx.uextend(I32, byte)?;
    call_library(bx, function, &[target, wide, size])
}

// A fill of so many bytes.
pub(crate) fn fill_known_by_call<R>(
    bx: &mut FunctionBuilder<'_, R>,
    config: TargetFrontendConfig,
    target: Value,
    byte: u8,
    size: u64,
) -> Result<(), BuildError>
    requires current { HasCurrent bx.old }
    requires target_exists { target < length bx.old.func.now.values }
    ensures { FillsKnown config byte size (target ∷ []) bx.old bx.new result }
{
    ledger_is_read_by_number();
    requests_ask_for_their_shapes();
    let function = import_library(bx, config, LibCall::Memset)?;
    let byte = bx.iconst(I8, i64::from(byte))?;
    let size = bx.iconst(config.pointer_type(), size.cast_signed())?;
    let wide = bx.uextend(I32, byte)?;
    call_library(bx, function, &[target, wide, size])
}

// A comparison of bytes of which there are as many as a value says.
pub(crate) fn compare_by_call<R>(
    bx: &mut FunctionBuilder<'_, R>,
    config: TargetFrontendConfig,
    left: Value,
    right: Value,
    size: Value,
) -> Result<Value, BuildError>
    requires current { HasCurrent bx.old }
    requires left_exists { left < length bx.old.func.now.values }
    requires right_exists { right < length bx.old.func.now.values }
    requires size_exists { size < length bx.old.func.now.values }
    ensures { ComparesSized config (left ∷ right ∷ size ∷ []) bx.old bx.new result }
{
    ledger_is_read_by_number();
    requests_ask_for_their_shapes();
    let function = import_library(bx, config, LibCall::Memcmp)?;
    call_for_number(bx, function, &[left, right, size])
}

// A comparison of so many bytes: the number that the function answers is compared with zero.
pub(crate) fn compare_known_by_call<R>(
    bx: &mut FunctionBuilder<'_, R>,
    config: TargetFrontendConfig,
    cond: IntCC,
    left: Value,
    right: Value,
    size: u64,
) -> Result<Value, BuildError>
    requires current { HasCurrent bx.old }
    requires left_exists { left < length bx.old.func.now.values }
    requires right_exists { right < length bx.old.func.now.values }
    ensures { ComparesKnown config cond size (left ∷ right ∷ []) bx.old bx.new result }
{
    ledger_is_read_by_number();
    requests_ask_for_their_shapes();
    let function = import_library(bx, config, LibCall::Memcmp)?;
    let size = bx.iconst(config.pointer_type(), size.cast_signed())?;
    let order = call_for_number(bx, function, &[left, right, size])?;
    let zero = bx.iconst(I32, 0)?;
    bx.icmp(cond, order, zero)
}

// A call whose result isn't used.
fn call_library<R>(
    bx: &mut FunctionBuilder<'_, R>,
    function: FuncRef,
    args: &[Value],
) -> Result<(), BuildError>
    requires current { HasCurrent bx.old }
    requires function_exists { function < length bx.old.func.now.tables.functions }
    requires args_exist { All (λ value. value < length bx.old.func.now.values) args.now }
    requires gives { GivesOne bx.old.func.now.tables function }
    ensures { CallsFunction function args.now bx.old bx.new result }
{
    ledger_is_read_by_number();
    requests_ask_for_their_shapes();
    bx.call(function, args)?;
    Ok(())
}

// A call for its one result.
fn call_for_number<R>(
    bx: &mut FunctionBuilder<'_, R>,
    function: FuncRef,
    args: &[Value],
) -> Result<Value, BuildError>
    requires current { HasCurrent bx.old }
    requires function_exists { function < length bx.old.func.now.tables.functions }
    requires args_exist { All (λ value. value < length bx.old.func.now.values) args.now }
    requires gives { GivesNumber bx.old.func.now.tables function }
    ensures { CallsForNumber function args.now bx.old bx.new result }
{
    ledger_is_read_by_number();
    requests_ask_for_their_shapes();
    let call = bx.call(function, args)?;
    Ok(bx.inst_results(call)[0])
}
