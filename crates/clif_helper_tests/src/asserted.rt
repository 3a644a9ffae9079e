//! What calls on the builder ask for, asserted.
#![tactic(auto)]

ghost use Rattle.std.specs.Prelude.{◌<◌, length};
ghost use Rattle.clif_builder.specs.Builder.{HasCurrent};

use cranelift_frontend::{
    CallConv, EntityRef, FunctionBuilder, PointerWidth, TargetFrontendConfig, Value,
};
use std::process::Abort;

/// The target of each function.
pub const CONFIG: TargetFrontendConfig = TargetFrontendConfig {
    default_call_conv: CallConv::SystemV,
    pointer_width: PointerWidth::U64,
    page_size_align_log2: 12,
};

/// Asserts that there is a current block, which isn't filled.
pub fn asserts_current(rt: &impl Abort, builder: &FunctionBuilder<'_>)
    ensures { HasCurrent builder.now }
{
    let block = builder.current_block().expect(rt, "a current block");
    assert!(rt; block.index() < builder.func().block_count());
    assert!(rt; !builder.is_filled(block));
}

/// Asserts that a value exists.
pub fn asserts_value(rt: &impl Abort, builder: &FunctionBuilder<'_>, value: Value)
    ensures { value < length builder.now.func.now.values }
{
    assert!(rt; value.index() < builder.func().value_count());
}
