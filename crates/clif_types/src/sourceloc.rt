//! Places in a source.
#![tactic(auto)]

ghost use Rattle.std.specs.Prelude.{◌≡◌, ◌==◌, ◌-◌, ◌^◌, ℕ};

use std::marker::Model;

/// A place in a source: a number that only its maker understands, kept as given.
#[derive(Clone, Copy, PartialEq, Eq, PartialOrd, Ord, Hash, Debug)]
pub struct SourceLoc(u32);

impl Model for SourceLoc {
    ghost Value = { ℕ };

    ghost view = { λ l. l.0 };

    ghost inverse = { λ n. record { 0 = n } };
}

impl SourceLoc {
    /// The place with these bits.
    pub fn new(bits: u32) -> SourceLoc
        ensures { result ≡ bits }
    {
        SourceLoc(bits)
    }

    /// The bits of the place.
    pub fn bits(self) -> u32
        ensures { result ≡ self }
    {
        self.0
    }

    /// Whether it is the default place, 2^32 - 1, which stands for no place.
    pub fn is_default(self) -> bool
        ensures { result ≡ (self == 2 ^ 32 - 1) }
    {
        self.bits() == u32::MAX
    }
}
