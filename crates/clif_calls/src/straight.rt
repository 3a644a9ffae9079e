//! The instructions of a script that end no block, and the builder's method by which each is made.
use crate::call::PlainInstruction;
use crate::outside::OutsideCall;
use clif_types::Type;

/// The builder's method that lends it for an instruction, which is appended to the current block by either.
#[derive(Clone, Copy, Debug, PartialEq, Eq)]
pub enum Lender {
    /// `ins()`.
    Ins,
    /// `cursor()`, behind the last instruction of the current block.
    Cursor,
}

/// An instruction that ends no block, with names in place of values.
pub enum StraightInstruction {
    /// An instruction that calls nothing and pools no constant.
    Plain(PlainInstruction),
    /// An outside call.
    Outside(OutsideCall),
    /// `f128const bytes`: the float with the bits that these 16 bytes make, the lowest first. It has one result.
    F128const { bytes: Vec<u8> },
    /// `vconst.ty bytes`, at a type of vectors: the vector that these bytes make, the lowest first; there are as many as the
    /// type has. It has one result.
    Vconst { ty: Type, bytes: Vec<u8> },
}

// By hand: a derived one is proved anew at each way out of a function that holds such a value.
impl Drop for StraightInstruction {
    fn drop(self) {
        match self {
            StraightInstruction::Plain(_) => {}
            StraightInstruction::Outside(_) => {}
            StraightInstruction::F128const { bytes: _ } => {}
            StraightInstruction::Vconst { ty: _, bytes: _ } => {}
        }
    }
}
