//! Functions of the C library.
#![tactic(auto)]

ghost use Rattle.std.specs.Prelude.{Some};
ghost use Rattle.clif_types.specs.Texts.{lib_call_text};

use std::fmt;

/// A function of the C library that helpers call.
#[derive(Clone, Copy, PartialEq, Eq, Hash, Debug)]
pub enum LibCall {
    /// Copies bytes between places that don't overlap.
    Memcpy,
    /// Copies bytes as if through a buffer.
    Memmove,
    /// Writes one byte to each place.
    Memset,
    /// Compares bytes.
    Memcmp,
}

impl fmt::Display for LibCall {
    ghost output = { λ c. Some (lib_call_text c) };

    fn fmt<W: fmt::Write>(&self, f: &mut fmt::Formatter<W>) -> fmt::Result {
        f.write_str(match self {
            LibCall::Memcpy => "Memcpy",
            LibCall::Memmove => "Memmove",
            LibCall::Memset => "Memset",
            LibCall::Memcmp => "Memcmp",
        })
    }
}
