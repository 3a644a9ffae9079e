//! A switch: control goes by a number to the block of its case.
#![tactic(auto)]

ghost use Rattle.std.specs.Prelude.{◌<◌, length, OnOk, IsTrue};
ghost use Rattle.clif_types.specs.Types.{is_int};
ghost use Rattle.clif_ir.specs.Body.{value_at};
ghost use Rattle.clif_builder.specs.Builder.{HasCurrent};
ghost use Rattle.clif_builder.specs.Clear.{IsClear};
ghost use Rattle.clif_builder.specs.Context.{IsFresh};
ghost use Rattle.clif_switch.specs.Emission.{MayLead};
ghost use Rattle.uses.specs.Choosing.{Chooses};

use crate::error::UseError;
use clif_types::types::I32;
use cranelift_frontend::{
    Block, Function, FunctionBuilder, FunctionBuilderContext, InstBuilder, Switch, SwitchError,
    TargetFrontendConfig, Value,
};

/// Builds `match n { 0 => 1, 7 => 2, _ => n }`, where `n` is the function's parameter.
pub fn choose(
    func: &mut Function,
    ctx: &mut FunctionBuilderContext,
    config: TargetFrontendConfig,
) -> Result<(), UseError>
    requires fresh { IsFresh func.old }
    requires empty { IsClear ctx.old }
{
    let mut builder = FunctionBuilder::new(func, ctx);
    let entry = builder.create_block()?;
    let zero = builder.create_block()?;
    let seven = builder.create_block()?;
    let other = builder.create_block()?;

    let n = builder.append_block_param(entry, I32)?;
    builder.switch_to_block(entry);
    builder.seal_block(entry)?;
    go_by(&mut builder, n, zero, seven, other)?;

    builder.switch_to_block(zero);
    builder.seal_block(zero)?;
    let one = builder.ins().iconst(I32, 1)?;
    builder.ins().return_(&[one])?;

    builder.switch_to_block(seven);
    builder.seal_block(seven)?;
    let two = builder.ins().iconst(I32, 2)?;
    builder.ins().return_(&[two])?;

    builder.switch_to_block(other);
    builder.seal_block(other)?;
    builder.ins().return_(&[n])?;
    Ok(builder.finalize(config)?)
}

// A switch with the keys 0 and 7.
fn go_by(
    builder: &mut FunctionBuilder<'_>,
    value: Value,
    zero: Block,
    seven: Block,
    other: Block,
) -> Result<(), SwitchError>
    requires current { HasCurrent builder.old }
    requires exists { value < length builder.old.func.now.values }
    requires integer { IsTrue (is_int (value_at builder.old.func.now value).ty) }
    requires zero_leads { MayLead builder.old zero }
    requires seven_leads { MayLead builder.old seven }
    requires other_leads { MayLead builder.old other }
    ensures { OnOk result (Chooses builder.old builder.new) }
{
    let mut switch = Switch::new(builder.func().allocator());
    switch.set_entry(0, zero)?;
    switch.set_entry(7, seven)?;
    switch.emit(builder, value, other)
}
