//! A loop, whose header is sealed once the jump back to it is built.
#![tactic(auto)]

ghost use Rattle.clif_builder.specs.Clear.{IsClear};
ghost use Rattle.clif_builder.specs.Context.{IsFresh};

use clif_types::types::I32;
use cranelift_frontend::{
    FinalizeError, Function, FunctionBuilder, FunctionBuilderContext, InstBuilder,
    TargetFrontendConfig,
};

/// Builds `sum = 0; while n != 0 { sum = sum + n; n = n - 1 } return sum`, where `n` is the function's parameter.
pub fn count_down(
    func: &mut Function,
    ctx: &mut FunctionBuilderContext,
    config: TargetFrontendConfig,
) -> Result<(), FinalizeError>
    requires fresh { IsFresh func.old }
    requires empty { IsClear ctx.old }
{
    let mut builder = FunctionBuilder::new(func, ctx);
    let n = builder.declare_var(I32)?;
    let sum = builder.declare_var(I32)?;
    let entry = builder.create_block()?;
    let header = builder.create_block()?;
    let body = builder.create_block()?;
    let exit = builder.create_block()?;

    let start = builder.append_block_param(entry, I32)?;
    builder.switch_to_block(entry);
    builder.seal_block(entry)?;
    builder.def_var(n, start)?;
    let zero = builder.ins().iconst(I32, 0)?;
    builder.def_var(sum, zero)?;
    builder.ins().jump(header, &[])?;

    builder.switch_to_block(header);
    let left = builder.use_var(n)?;
    builder.ins().brif(left, body, &[], exit, &[])?;
    builder.seal_block(body)?;
    builder.seal_block(exit)?;

    builder.switch_to_block(body);
    let before = builder.use_var(sum)?;
    let count = builder.use_var(n)?;
    let after = builder.ins().iadd(before, count)?;
    builder.def_var(sum, after)?;
    let one = builder.ins().iconst(I32, 1)?;
    let less = builder.ins().isub(count, one)?;
    builder.def_var(n, less)?;
    builder.ins().jump(header, &[])?;
    builder.seal_block(header)?;

    builder.switch_to_block(exit);
    let total = builder.use_var(sum)?;
    builder.ins().return_(&[total])?;
    builder.finalize(config)
}
