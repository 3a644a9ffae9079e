//! Variables of the language that is translated.
ghost use Rattle.std.specs.Prelude.{◌≡◌, ℕ, ◌-◌, ◌^◌, ◌<◌, ◌++◌, Some, codes};
ghost use Rattle.std.specs.Fmt.{decimal};

use clif_types::EntityRef;
use std::fmt;
use std::marker::Model;

/// A variable, by its number, which is below 2^32 - 1. It prints as `var0`.
#[derive(Clone, Copy, PartialEq, Eq, PartialOrd, Ord, Hash)]
pub struct Variable(u32);

impl Model for Variable {
    ghost Value = { ℕ };

    ghost view = { λ v. v.0 };

    ghost invariant = { λ v. v.0 < 2 ^ 32 - 1 };

    ghost inverse = { λ n. record { 0 = n } };
}

impl Variable {
    /// The variable with this number.
    pub fn new(index: usize) -> Variable
        requires { index < 2 ^ 32 - 1 }
        ensures { result ≡ index }
    {
        Variable(index as u32)
    }

    /// The variable with this number.
    pub fn from_u32(number: u32) -> Variable
        requires { number < 2 ^ 32 - 1 }
        ensures { result ≡ number }
    {
        Variable(number)
    }

    /// The number of the variable.
    pub fn as_u32(self) -> u32
        ensures number { result ≡ self }
        ensures bounded { result < 2 ^ 32 - 1 }
    {
        self.0
    }

    /// The number of the variable, as an index.
    pub fn index(self) -> usize
        ensures number { result ≡ self }
        ensures bounded { result < 2 ^ 32 - 1 }
    {
        self.as_u32() as usize
    }
}

impl EntityRef for Variable {
    ghost index_of = { λ v. v };

    ghost same = { λ x y h. h };

    fn new(index: usize) -> Variable {
        Variable::new(index)
    }

    fn index(self) -> usize {
        Variable::index(self)
    }
}

impl fmt::Display for Variable {
    ghost output = { λ v. Some (codes "var" ++ decimal v) };

    fn fmt<W: fmt::Write>(&self, f: &mut fmt::Formatter<W>) -> fmt::Result {
        let number = self.as_u32();
        write!(f, "var{number}")
    }
}

impl fmt::Debug for Variable {
    ghost debug_output = { λ v. Some (codes "var" ++ decimal v) };

    fn fmt<W: fmt::Write>(&self, f: &mut fmt::Formatter<W>) -> fmt::Result {
        fmt::Display::fmt(self, f)
    }
}
