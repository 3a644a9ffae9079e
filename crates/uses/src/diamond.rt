//! A diamond: two arms that meet again.
#![tactic(auto)]

ghost use Rattle.clif_builder.specs.Clear.{IsClear};
ghost use Rattle.clif_builder.specs.Context.{IsFresh};

use clif_types::types::I32;
use cranelift_frontend::{
    FinalizeError, Function, FunctionBuilder, FunctionBuilderContext, InstBuilder,
    TargetFrontendConfig,
};

/// Builds `if c != 0 { x = a - b } else { x = b - a } return x`, where `c`, `a` and `b` are the function's parameters.
pub fn diamond(
    func: &mut Function,
    ctx: &mut FunctionBuilderContext,
    config: TargetFrontendConfig,
) -> Result<(), FinalizeError>
    requires fresh { IsFresh func.old }
    requires empty { IsClear ctx.old }
{
    let mut builder = FunctionBuilder::new(func, ctx);
    let x = builder.declare_var(I32)?;
    let entry = builder.create_block()?;
    let then_arm = builder.create_block()?;
    let else_arm = builder.create_block()?;
    let meeting = builder.create_block()?;

    let c = builder.append_block_param(entry, I32)?;
    let a = builder.append_block_param(entry, I32)?;
    let b = builder.append_block_param(entry, I32)?;
    builder.switch_to_block(entry);
    builder.seal_block(entry)?;
    builder.ins().brif(c, then_arm, &[], else_arm, &[])?;

    builder.switch_to_block(then_arm);
    builder.seal_block(then_arm)?;
    let difference = builder.ins().isub(a, b)?;
    builder.def_var(x, difference)?;
    builder.ins().jump(meeting, &[])?;

    builder.switch_to_block(else_arm);
    builder.seal_block(else_arm)?;
    let opposite = builder.ins().isub(b, a)?;
    builder.def_var(x, opposite)?;
    builder.ins().jump(meeting, &[])?;

    builder.switch_to_block(meeting);
    builder.seal_block(meeting)?;
    let result = builder.use_var(x)?;
    builder.ins().return_(&[result])?;
    builder.finalize(config)
}
