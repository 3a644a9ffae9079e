//! Calling conventions.
#![tactic(auto)]

ghost use Rattle.std.specs.Prelude.{Some};
ghost use Rattle.clif_types.specs.Texts.{call_conv_text};

use std::fmt;

/// How arguments and results are passed.
#[derive(Clone, Copy, PartialEq, Eq, Hash, Debug)]
pub enum CallConv {
    /// The fastest, with no promise of a layout. It prints as `fast`.
    Fast,
    /// The System V convention. It prints as `system_v`.
    SystemV,
    /// The convention of functions that may make tail calls. It prints as `tail`.
    Tail,
}

impl fmt::Display for CallConv {
    ghost output = { λ c. Some (call_conv_text c) };

    fn fmt<W: fmt::Write>(&self, f: &mut fmt::Formatter<W>) -> fmt::Result {
        f.write_str(match self {
            CallConv::Fast => "fast",
            CallConv::SystemV => "system_v",
            CallConv::Tail => "tail",
        })
    }
}
