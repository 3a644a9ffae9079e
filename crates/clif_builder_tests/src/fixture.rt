//! The functions that tests build, the configuration that they are finished with, and the answers of steps.
#![tactic(auto)]

ghost use Rattle.std.specs.Prelude.{◌≡◌, IfOk};
ghost use Rattle.clif_ir.specs.Body.{empty_body};

use cranelift_frontend::{
    AbiParam, BlockArg, CallConv, Function, PointerWidth, Signature, TargetFrontendConfig, Type,
    UserFuncName, Value,
};
use std::alloc::{AllocError, Global};
use std::process::Abort;

/// The target of each function.
pub const CONFIG: TargetFrontendConfig = TargetFrontendConfig {
    default_call_conv: CallConv::SystemV,
    pointer_width: PointerWidth::U64,
    page_size_align_log2: 12,
};

fn abi_params(alloc: Global, types: &[Type]) -> Result<Vec<AbiParam>, AllocError> {
    let mut params = Vec::new(alloc);
    for ty in types {
        params.push(AbiParam::new(*ty))?;
    }
    Ok(params)
}

/// A signature with parameters of these types, which returns values of those.
pub fn signature(
    alloc: Global,
    params: &[Type],
    returns: &[Type],
) -> Result<Signature, AllocError> {
    Ok(Signature {
        params: abi_params(alloc, params)?,
        returns: abi_params(alloc, returns)?,
        call_conv: CallConv::SystemV,
    })
}

fn func_name(alloc: Global, name: Option<&str>) -> Result<UserFuncName, AllocError> {
    match name {
        Some(text) => Ok(UserFuncName::testcase(String::from_str(alloc, text)?)),
        None => Ok(UserFuncName::user(0, 0)),
    }
}

/// The function of this name, or `u0:0`, and of this signature.
pub fn function(
    alloc: Global,
    name: Option<&str>,
    signature: Signature,
) -> Result<Function, AllocError>
    ensures { IfOk result (λ func. func ≡ empty_body func.name func.signature) }
{
    let name = func_name(alloc, name)?;
    Ok(Function::with_name_signature(alloc, name, signature))
}

/// The value at a place among the answers.
pub fn named(rt: &impl Abort, values: &[Value], place: usize) -> Value {
    *values.get(place).expect(rt, "an answer")
}

/// The values at these places among the answers.
pub fn all_named(
    rt: &impl Abort,
    alloc: Global,
    values: &[Value],
    places: &[usize],
) -> Result<Vec<Value>, AllocError> {
    let mut found = Vec::new(alloc);
    for place in places {
        found.push(named(rt, values, *place))?;
    }
    Ok(found)
}

/// What an edge passes: these values.
pub fn passing(alloc: Global, values: &[Value]) -> Result<Vec<BlockArg>, AllocError> {
    let mut passed = Vec::new(alloc);
    for value in values {
        passed.push(BlockArg::Value(*value))?;
    }
    Ok(passed)
}
