//! A first variable that stack maps need.
#![tactic(auto)]

ghost use Rattle.std.specs.Prelude.{◌≡◌, Some, slice_get};
ghost use Rattle.clif_builder.specs.Context.{empty_context};
ghost use Rattle.clif_builder.specs.Marks.{IsUnused};
ghost use Rattle.clif_stack_slots.specs.Sizes.{FitsStackMap};

use cranelift_frontend::{FunctionBuilder, Type, Variable};
use std::process::Abort;

// Asserts that a stack map has room for a value of this type.
fn asserts_room(rt: &impl Abort, ty: Type)
    ensures { FitsStackMap ty }
{
    let bytes = ty.bytes();
    assert!(rt; bytes >= 1);
    assert!(rt; bytes <= 16);
}

#[tactic(auto, using(crate::proofs::Unused::unused))]
// Declares a variable. A new builder has no record of it.
fn declare(rt: &impl Abort, builder: &mut FunctionBuilder<'_>, ty: Type) -> Variable
    requires { builder.old.ctx.now.parts ≡ empty_context }
    ensures declared { slice_get builder.new.ctx.now.parts.variables result ≡ Some ty }
    ensures unused { IsUnused builder.new.ctx.now.parts result }
{
    assert!(rt; ty.is_valid());
    builder.declare_var(ty).expect(rt, "a variable")
}

// Marks a variable.
fn mark(rt: &impl Abort, builder: &mut FunctionBuilder<'_>, variable: Variable, ty: Type)
    requires declared { slice_get builder.old.ctx.now.parts.variables variable ≡ Some ty }
    requires unused { IsUnused builder.old.ctx.now.parts variable }
{
    asserts_room(rt, ty);
    builder
        .declare_var_needs_stack_map(variable)
        .expect(rt, "room");
}

/// Declares a variable of this type that stack maps need, as the first one.
pub fn declare_marked(rt: &impl Abort, builder: &mut FunctionBuilder<'_>, ty: Type)
    requires { builder.old.ctx.now.parts ≡ empty_context }
{
    let variable = declare(rt, builder, ty);
    assert!(rt; variable == Variable::from_u32(0));
    mark(rt, builder, variable, ty);
}
