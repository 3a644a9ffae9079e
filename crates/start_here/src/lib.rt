//! A crate to copy: it builds one function, and is proved to meet the conditions of each call that it makes.
#![tactic(auto)]

use cranelift_frontend::types::I32;
use cranelift_frontend::{
    AbiParam, BuildError, CallConv, FinalizeError, Function, FunctionBuilder,
    FunctionBuilderContext, InstBuilder, Signature, TargetFrontendConfig, UserFuncName,
};
use std::alloc::Global;

/// Builds `x = n; return x * x`, where `n` is the function's parameter.
///
/// # Errors
///
/// That memory was refused: each block is sealed and has its terminator.
pub fn square(alloc: Global, config: TargetFrontendConfig) -> Result<Function, FinalizeError> {
    let name = UserFuncName::user(0, 0);
    let mut func = Function::with_name_signature(alloc, name, signature(alloc)?);
    let mut ctx = FunctionBuilderContext::new(alloc);
    let mut builder = FunctionBuilder::new(&mut func, &mut ctx);

    let x = builder.declare_var(I32)?;
    let block = builder.create_block()?;
    let n = builder.append_block_param(block, I32)?;
    builder.switch_to_block(block);
    builder.seal_block(block)?;
    builder.def_var(x, n)?;
    let value = builder.use_var(x)?;
    let product = builder.ins().imul(value, value)?;
    builder.ins().return_(&[product])?;
    builder.finalize(config)?;
    Ok(func)
}

// It takes an integer of 32 bits, and returns one.
fn signature(alloc: Global) -> Result<Signature, BuildError> {
    let mut signature = Signature::new(alloc, CallConv::SystemV);
    signature.params.push(AbiParam::new(I32))?;
    signature.returns.push(AbiParam::new(I32))?;
    Ok(signature)
}
