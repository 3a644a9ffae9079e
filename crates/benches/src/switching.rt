//! Switches.
ghost use Rattle.std.specs.Prelude.{◌≡◌, OnOk, IfOk};
ghost use Rattle.clif_switch.specs.Emission.{MayLead};
ghost use Rattle.benches.specs.Cases.{AllLead};

use crate::calls::{Fault, exists, open, unsealed};
use cranelift_frontend::{Block, FunctionBuilder, Switch, SwitchError, Value};
use std::alloc::Global;

// A branch may lead to a block.
fn may_lead(builder: &FunctionBuilder<'_>, block: Block) -> Result<(), Fault>
    ensures { OnOk result (MayLead builder.now block) }
{
    unsealed(builder, block)
}

// A switch without a case, to be emitted by a builder.
fn no_case(alloc: Global, _builder: &FunctionBuilder<'_>) -> Switch
    ensures { AllLead result _builder.now }
{
    Switch::new(alloc)
}

// Sets the block of a key, to which a branch of this builder may lead.
fn set_case(
    builder: &FunctionBuilder<'_>,
    switch: &mut Switch,
    key: u128,
    block: Block,
) -> Result<(), SwitchError>
    requires leads { MayLead builder.now block }
    requires all { AllLead switch.old builder.now }
    ensures { AllLead switch.new builder.now }
{
    switch.set_entry(key, block)
}

// Why a switch wasn't built.
fn fault_of(error: SwitchError) -> Fault {
    match error {
        SwitchError::Build(error) => Fault::Refused(error),
        SwitchError::SetTwice(_) | SwitchError::KeyTooWide { .. } | SwitchError::TableTooLong => {
            Fault::Misuse
        }
    }
}

// The switch that takes each of these keys to a block.
fn switch_to(
    alloc: Global,
    builder: &FunctionBuilder<'_>,
    keys: &[u128],
    block: Block,
) -> Result<Switch, Fault>
    ensures { IfOk result (λ switch. AllLead switch builder.now) }
{
    let mut switch = no_case(alloc, builder);
    for place in 0..keys.len() {
        may_lead(builder, block)?;
        if let Err(error) = set_case(builder, &mut switch, keys[place], block) {
            return Err(fault_of(error));
        }
    }
    Ok(switch)
}

/// Ends the current block with a switch that takes each of these keys to one block, and what is none of them to another.
pub fn switch(
    builder: &mut FunctionBuilder<'_>,
    value: Value,
    keys: &[u128],
    taken: Block,
    other: Block,
) -> Result<(), Fault>
    ensures { builder.new.ctx.now.parts.variables ≡ builder.old.ctx.now.parts.variables }
{
    open(builder)?;
    exists(builder, value)?;
    if !builder.func().value_type(value).is_int() {
        return Err(Fault::Misuse);
    }
    may_lead(builder, other)?;
    let switch = switch_to(builder.func().allocator(), builder, keys, taken)?;
    match switch.emit(builder, value, other) {
        Ok(()) => Ok(()),
        Err(error) => Err(fault_of(error)),
    }
}
