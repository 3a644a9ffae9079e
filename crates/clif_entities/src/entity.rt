//! What every number of the IR has in common.
#![tactic(auto)]

ghost use Rattle.std.specs.Prelude.{◌≡◌, ℕ, ◌-◌, ◌^◌, ◌<◌};

/// A number that names an entry of a table: a value, a block, an instruction and so on.
///
/// A table holds at most 2^32 - 1 entries, so a number is below 2^32 - 1.
pub trait EntityRef: Copy + Eq + Drop {
    // The place of the entry in its table.
    ghost index_of: { Self → ℕ };

    /// The number of the entry at `index`.
    fn new(index: usize) -> Self
        requires { index < 2 ^ 32 - 1 }
        ensures { index_of result ≡ index };

    /// The place of the entry in its table.
    fn index(self) -> usize
        ensures place { result ≡ index_of self }
        ensures bounded { result < 2 ^ 32 - 1 };

    // Two numbers with one index are one number.
    ghost same: { (x y : Self) → index_of x ≡ index_of y → x ≡ y };
}
