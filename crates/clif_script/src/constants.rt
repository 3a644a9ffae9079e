//! Constants of which an instruction takes the low bits alone.
use clif_calls::{Call, Plan};
use clif_instructions::immediates::signed_at;
use clif_script_program::instruction::plan_of;
use clif_types::Type;
use std::fmt;

/// A number that an `iconst` cuts. It prints as `iconst.i8 4000 is cut to -96`.
#[derive(Clone, Copy)]
pub struct CutConstant {
    /// The type of the constant.
    pub ty: Type,
    /// The number that the call gives.
    pub given: i64,
    /// What its low bits mean as a signed number of the type.
    pub kept: i64,
}

impl fmt::Display for CutConstant {
    fn fmt<W: fmt::Write>(&self, f: &mut fmt::Formatter<W>) -> fmt::Result {
        let ty = self.ty;
        let given = self.given;
        let kept = self.kept;
        write!(f, "iconst.{ty} {given} is cut to {kept}")
    }
}

/// The constant that a call makes, if its number is neither a signed nor an unsigned one of its type: the instruction takes
/// the low bits, as many as the type has.
pub fn cut_constant(call: &Call) -> Option<CutConstant> {
    let Some(Plan::UnaryImm { ty, imm: given }) = plan_of(call) else {
        return None;
    };
    let kept = signed_at(given, ty);
    if kept == given || is_unsigned_at(given, ty) {
        return None;
    }
    Some(CutConstant { ty, given, kept })
}

// Whether a number is an unsigned one of a type.
fn is_unsigned_at(number: i64, ty: Type) -> bool {
    match (ty, u128::try_from(number)) {
        (Type::Invalid, _) | (_, Err(_)) => false,
        (_, Ok(number)) => number <= ty.bounds(false).1,
    }
}
