//! A caller that knows of its builder only that it makes instructions.
#![tactic(auto)]

ghost use Rattle.std.specs.Prelude.{IfOk, Ok};
ghost use Rattle.clif_inst_builder.specs.Shapes.{binary};

use cranelift_frontend::{BinaryOpcode, BuildError, InstBuilder, Value};

/// `x + x - x`, in two instructions.
pub fn there_and_back<B: InstBuilder>(builder: &mut B, x: Value) -> Result<Value, BuildError>
    requires current { B.can_build builder.old }
    requires exists { B.has_value builder.old x }
    ensures built { IfOk result (λ value. (between : _) × (sum : _)
        × B.builds_like builder.old between (binary BinaryOpcode.Iadd x x) x (B.answer_value (Ok sum))
        × B.builds_like between builder.new (binary BinaryOpcode.Isub sum x) sum (B.answer_value (Ok value))) }
    ensures goes_on { IfOk result (λ value.
        B.can_build builder.new × B.has_value builder.new value) }
{
    let sum = B::value_in(builder.iadd(x, x))?;
    B::value_in(builder.isub(sum, x))
}
