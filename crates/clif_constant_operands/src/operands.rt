//! Instructions with a constant as an operand.
ghost use Rattle.std.specs.Prelude.{◌≡◌, ℕ, IsTrue, IfOk, OnOk};
ghost use Rattle.clif_types.specs.Types.{is_int};
ghost use Rattle.clif_inst_builder.specs.Shapes.{binary, int_compare};
ghost use Rattle.clif_constant_operands.specs.Chains.{AnswersConstant, AnswersWithConstant, is_wide};

use clif_inst_builder::InstBuilderBase;
use clif_instructions::instructions::InstructionData;
use clif_opcodes::{BinaryOpcode, ConvertOpcode};
use clif_types::types::I64;
use clif_types::{BuildError, IntCC, LaneType, Type, Value};

/// Instructions with a constant as an operand, by name: `builder.ins().iadd_imm_s(x, 1)?`.
///
/// Each makes the constant first, an `iconst` at the type of the operand. There is no `iconst` of 128 bits: there an `iconst` of 64
/// bits is made, and a `sextend` of it. As for the methods of `InstBuilder`, all is appended to the current block, which must not
/// have its terminator, and the errors are those of [`BuildError`]: after one a `FunctionBuilder` has failed, and the function may
/// still contain the constant. From the documentation of Cranelift's `InstBuilder`; that the operand is an integer is own.
pub trait ConstantOperands: InstBuilderBase {
    /// The sum of an integer and a constant, modulo two to the width of the type. The constant is cut to the type, or its sign is
    /// repeated.
    final fn iadd_imm_s(&mut self, x: Value, imm: i64) -> Self::ValueAnswer
        requires current { Self.can_build self.old }
        requires x_exists { Self.has_value self.old x }
        requires integer { Self.asks (IsTrue (is_int (Self.type_of self.old x))) }
        ensures built { AnswersWithConstant Self.answer_value Self.builds_value Self.builds_like
            (λ constant. binary BinaryOpcode.Iadd x constant) (Self.type_of self.old x) imm x
            self.old self.new result }
        ensures current { OnOk (Self.value_in result) (Self.can_build self.new) }
        ensures exists { IfOk (Self.value_in result) (λ value. Self.has_value self.new value) }
        ensures others { (y : ℕ) → Self.has_value self.old y →
            OnOk (Self.value_in result) (Self.has_value self.new y) }
    {
        let ty = self.value_type(x);
        match Self::value_in(self.integer_constant(ty, imm)) {
            Ok(constant) => {
                let args = [x, constant];
                let opcode = BinaryOpcode::Iadd;
                self.build_like(InstructionData::Binary { opcode, args }, x)
            }
            Err(error) => Self::answer_value(Err(error)),
        }
    }

    /// An I8 that is 1 if the condition holds of an integer and a constant, and 0 otherwise. The constant is cut to the integer's
    /// type, or its sign is repeated.
    final fn icmp_imm_s(&mut self, cond: IntCC, x: Value, imm: i64) -> Self::ValueAnswer
        requires current { Self.can_build self.old }
        requires x_exists { Self.has_value self.old x }
        requires integer { Self.asks (IsTrue (is_int (Self.type_of self.old x))) }
        ensures built { AnswersWithConstant Self.answer_value Self.builds_value Self.builds_like
            (λ constant. int_compare cond x constant) (Self.type_of self.old x) imm x
            self.old self.new result }
        ensures current { OnOk (Self.value_in result) (Self.can_build self.new) }
        ensures exists { IfOk (Self.value_in result) (λ value. Self.has_value self.new value) }
        ensures others { (y : ℕ) → Self.has_value self.old y →
            OnOk (Self.value_in result) (Self.has_value self.new y) }
    {
        let ty = self.value_type(x);
        match Self::value_in(self.integer_constant(ty, imm)) {
            Ok(constant) => {
                let args = [x, constant];
                self.build_like(InstructionData::IntCompare { cond, args }, x)
            }
            Err(error) => Self::answer_value(Err(error)),
        }
    }

    /// A constant of this integer type: an `iconst`, or at 128 bits an `iconst` of 64 and its `sextend`. The number is cut to the
    /// type, or its sign is repeated. Own.
    final fn integer_constant(&mut self, ty: Type, imm: i64) -> Self::ValueAnswer
        requires current { Self.can_build self.old }
        requires integer { Self.asks (IsTrue (is_int ty)) }
        ensures built { AnswersConstant Self.answer_value Self.builds_value ty imm
            self.old self.new result }
        ensures current { OnOk (Self.value_in result) (Self.can_build self.new) }
        ensures exists { IfOk (Self.value_in result) (λ constant. Self.has_value self.new constant) }
        ensures others { (y : ℕ) → Self.has_value self.old y →
            OnOk (Self.value_in result) (Self.has_value self.new y) }
    {
        if is_wide(ty) {
            match Self::value_in(self.build_value(InstructionData::UnaryImm { imm }, I64)) {
                Ok(arg) => {
                    let opcode = ConvertOpcode::Sextend;
                    self.build_value(InstructionData::Convert { opcode, arg }, ty)
                }
                Err(error) => Self::answer_value(Err(error)),
            }
        } else {
            self.build_value(InstructionData::UnaryImm { imm }, ty)
        }
    }
}

impl<B: InstBuilderBase> ConstantOperands for B {}

// Whether it is the integer type that has no `iconst`.
fn is_wide(ty: Type) -> bool
    ensures { result ≡ is_wide ty }
{
    match ty {
        Type::Lane(lane) => matches!(lane, LaneType::I128),
        Type::Invalid | Type::Vector(_, _) => false,
    }
}
