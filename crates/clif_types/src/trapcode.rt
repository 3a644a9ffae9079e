//! Reasons for a trap.
#![tactic(auto)]

ghost use Rattle.std.specs.Prelude.{Some};
ghost use Rattle.clif_types.specs.Texts.{trap_code_text};

use std::fmt;

/// Why a run trapped.
#[derive(Clone, Copy, PartialEq, Eq, Hash, Debug)]
pub enum TrapCode {
    /// A reason of the program that makes the function. It prints as `user7`.
    User(u8),
    /// The least number was divided by -1. It prints as `int_ovf`.
    IntegerOverflow,
    /// It prints as `int_divz`.
    DivisionByZero,
    /// A byte that isn't accessible was read or written. It prints as `heap_oob`.
    HeapOutOfBounds,
}

impl fmt::Display for TrapCode {
    ghost output = { λ c. Some (trap_code_text c) };

    fn fmt<W: fmt::Write>(&self, f: &mut fmt::Formatter<W>) -> fmt::Result {
        match self {
            TrapCode::User(code) => write!(f, "user{code}"),
            TrapCode::IntegerOverflow => f.write_str("int_ovf"),
            TrapCode::DivisionByZero => f.write_str("int_divz"),
            TrapCode::HeapOutOfBounds => f.write_str("heap_oob"),
        }
    }
}
