//! A straight line: one block.
#![tactic(auto)]

ghost use Rattle.clif_builder.specs.Clear.{IsClear};
ghost use Rattle.clif_builder.specs.Context.{IsFresh};

use clif_types::types::I32;
use cranelift_frontend::{
    FinalizeError, Function, FunctionBuilder, FunctionBuilderContext, InstBuilder,
    TargetFrontendConfig,
};

/// Builds `x = x + 7; return x`, where the variable `x` is unassigned at first.
pub fn straight_line(
    func: &mut Function,
    ctx: &mut FunctionBuilderContext,
    config: TargetFrontendConfig,
) -> Result<(), FinalizeError>
    requires fresh { IsFresh func.old }
    requires empty { IsClear ctx.old }
{
    let mut builder = FunctionBuilder::new(func, ctx);
    let x = builder.declare_var(I32)?;
    let block = builder.create_block()?;
    builder.switch_to_block(block);
    let before = builder.use_var(x)?;
    let seven = builder.ins().iconst(I32, 7)?;
    let sum = builder.ins().iadd(before, seven)?;
    builder.def_var(x, sum)?;
    let after = builder.use_var(x)?;
    builder.ins().return_(&[after])?;
    builder.seal_block(block)?;
    builder.finalize(config)
}
