//! The types of an instruction's operands and results, by its controlling type.
#![tactic(auto)]

ghost use Rattle.std.specs.Prelude.{◌≡◌, ◌↔◌, IsTrue};
ghost use Rattle.clif_opcodes.specs.Kinds.{IsOfKind, double_of, half_of, is_met, result_type};

use clif_types::types::{I8, I16, I32, I64, I128};
use clif_types::{LaneType, Type};

/// Where an instruction's controlling type comes from.
#[derive(Clone, Copy, PartialEq, Eq)]
pub enum Control {
    /// There is none: no type varies.
    Absent,
    /// It is given with the instruction, and is always printed.
    Given,
    /// It is the type of the operand at this place. It is printed where that operand is defined in another block.
    Operand(usize),
}

/// What an instruction requires of its controlling type.
#[derive(Clone, Copy, PartialEq, Eq)]
pub enum Demand {
    /// Nothing.
    Nothing,
    /// A type.
    AType,
    /// An integer.
    AnInteger,
    /// An integer type that has one of twice its width.
    ADoubled,
    /// An integer type that has one of half its width.
    AHalved,
    /// A vector.
    AVector,
}

impl Demand {
    /// Whether the controlling type meets the requirement.
    pub fn is_met(self, controlling: Type) -> bool
        ensures { result ≡ is_met self controlling }
    {
        match self {
            Demand::Nothing => true,
            Demand::AType => controlling.is_valid(),
            Demand::AnInteger => controlling.is_int(),
            Demand::ADoubled => double(controlling).is_valid(),
            Demand::AHalved => half(controlling).is_valid(),
            Demand::AVector => controlling.is_vector() && controlling.is_valid(),
        }
    }
}

/// The types that an operand may have.
#[derive(Clone, Copy, PartialEq, Eq)]
pub enum OperandKind {
    /// The controlling type.
    Controlling,
    /// Any integer.
    AnInteger,
    /// An integer that is narrower than the controlling type.
    Narrower,
    /// An integer that is wider than the controlling type.
    Wider,
    /// The type of a lane of the controlling type.
    Lane,
    /// An address: I16, I32 or I64.
    Address,
    /// This type.
    Exactly(Type),
}

impl OperandKind {
    /// Whether an operand of this kind may have this type.
    pub fn admits(self, controlling: Type, operand: Type) -> bool
        ensures { IsTrue result ↔ IsOfKind controlling self operand }
    {
        match self {
            OperandKind::Controlling => operand == controlling,
            OperandKind::AnInteger => operand.is_int(),
            OperandKind::Narrower => operand.is_int() && operand.bits() < controlling.bits(),
            OperandKind::Wider => operand.is_int() && operand.bits() > controlling.bits(),
            OperandKind::Lane => operand == controlling.lane_type(),
            OperandKind::Address => operand == I16 || operand == I32 || operand == I64,
            OperandKind::Exactly(ty) => operand == ty,
        }
    }
}

/// The type of a result.
#[derive(Clone, Copy, PartialEq, Eq)]
pub enum ResultKind {
    /// The controlling type.
    Controlling,
    /// The integer of half the controlling type's width.
    Half,
    /// The integer of twice the controlling type's width.
    Double,
    /// This type.
    Exactly(Type),
}

impl ResultKind {
    /// The type of a result of this kind.
    pub fn at(self, controlling: Type) -> Type
        ensures { result ≡ result_type controlling self }
    {
        match self {
            ResultKind::Controlling => controlling,
            ResultKind::Half => half(controlling),
            ResultKind::Double => double(controlling),
            ResultKind::Exactly(ty) => ty,
        }
    }
}

/// The operands of an instruction beside those of fixed number.
#[derive(Clone, Copy, PartialEq, Eq)]
pub enum OtherOperands {
    /// There are none.
    Nothing,
    /// The arguments of the signature that is called.
    Arguments,
    /// What the function returns.
    Returned,
}

// The integer of half the width, or the invalid type if there is none.
fn half(ty: Type) -> Type
    ensures { result ≡ half_of ty }
{
    match ty {
        Type::Lane(LaneType::I16) => I8,
        Type::Lane(LaneType::I32) => I16,
        Type::Lane(LaneType::I64) => I32,
        Type::Lane(LaneType::I128) => I64,
        _ => Type::Invalid,
    }
}

// The integer of twice the width, or the invalid type if there is none.
fn double(ty: Type) -> Type
    ensures { result ≡ double_of ty }
{
    match ty {
        Type::Lane(LaneType::I8) => I16,
        Type::Lane(LaneType::I16) => I32,
        Type::Lane(LaneType::I32) => I64,
        Type::Lane(LaneType::I64) => I128,
        _ => Type::Invalid,
    }
}
