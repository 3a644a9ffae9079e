//! Conditions of comparisons.
#![tactic(auto)]

ghost use Rattle.std.specs.Prelude.{◌≡◌, Some};
ghost use Rattle.clif_types.specs.Texts.{int_cc_text};

use std::fmt;

/// A comparison of two integers of one type, read as signed or as unsigned numbers.
#[derive(Clone, Copy, PartialEq, Eq, Hash, Debug)]
pub enum IntCC {
    /// `eq`
    Equal,
    /// `ne`
    NotEqual,
    /// `slt`
    SignedLessThan,
    /// `sge`
    SignedGreaterThanOrEqual,
    /// `sgt`
    SignedGreaterThan,
    /// `sle`
    SignedLessThanOrEqual,
    /// `ult`
    UnsignedLessThan,
    /// `uge`
    UnsignedGreaterThanOrEqual,
    /// `ugt`
    UnsignedGreaterThan,
    /// `ule`
    UnsignedLessThanOrEqual,
}

impl IntCC {
    /// The name, as `slt`.
    pub fn to_static_str(self) -> &'static str
        ensures { result.now ≡ int_cc_text self }
    {
        match self {
            IntCC::Equal => "eq",
            IntCC::NotEqual => "ne",
            IntCC::SignedLessThan => "slt",
            IntCC::SignedGreaterThanOrEqual => "sge",
            IntCC::SignedGreaterThan => "sgt",
            IntCC::SignedLessThanOrEqual => "sle",
            IntCC::UnsignedLessThan => "ult",
            IntCC::UnsignedGreaterThanOrEqual => "uge",
            IntCC::UnsignedGreaterThan => "ugt",
            IntCC::UnsignedLessThanOrEqual => "ule",
        }
    }
}

impl fmt::Display for IntCC {
    ghost output = { λ c. Some (int_cc_text c) };

    fn fmt<W: fmt::Write>(&self, f: &mut fmt::Formatter<W>) -> fmt::Result {
        f.write_str(self.to_static_str())
    }
}
