//! What the check tells of an instruction that isn't well typed.
ghost use Rattle.std.specs.Prelude.{Some};
ghost use Rattle.clif_check.specs.Texts.{check_error_text, kind_text};

use clif_types::Inst;
use std::error::Error;
use std::fmt;

/// Which part of an instruction isn't well typed. Where several aren't, the first of these is told.
#[derive(Clone, Copy, Debug, PartialEq, Eq)]
pub enum CheckErrorKind {
    /// The type of an operand, or the type that the instruction is made at.
    Operand,
    /// The arguments of a call, against the parameters of what it calls.
    Arguments,
    /// The returned values, against what the function's signature returns.
    Return,
    /// The arguments of an edge, against the parameters of its target.
    Edge,
}

impl fmt::Display for CheckErrorKind {
    ghost output = { λ k. Some (kind_text k) };

    fn fmt<W: fmt::Write>(&self, f: &mut fmt::Formatter<W>) -> fmt::Result {
        f.write_str(match self {
            CheckErrorKind::Operand => "an operand's type",
            CheckErrorKind::Arguments => "the arguments of a call",
            CheckErrorKind::Return => "the returned values",
            CheckErrorKind::Edge => "the arguments of an edge",
        })
    }
}

/// An instruction that isn't well typed. It prints as `inst3: an operand's type`.
#[derive(Clone, Copy, Debug, PartialEq, Eq)]
pub struct CheckError {
    /// The instruction.
    pub inst: Inst,
    /// Which part of it isn't well typed.
    pub kind: CheckErrorKind,
}

impl fmt::Display for CheckError {
    ghost output = { λ e. Some (check_error_text e) };

    fn fmt<W: fmt::Write>(&self, f: &mut fmt::Formatter<W>) -> fmt::Result {
        let inst = self.inst;
        let kind = self.kind;
        write!(f, "{inst}: {kind}")
    }
}

impl Error for CheckError {}
