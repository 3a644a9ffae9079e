//! Why an instruction gives nothing.
use clif_opcodes::Opcode;
use clif_types::{TrapCode, Type};
use std::alloc::{AllocError, AllocFailed};
use std::fmt;

/// Why an instruction has no outcome.
#[derive(Clone, Copy)]
pub enum Fault {
    /// Memory was refused.
    Memory,
    /// A value of this type has more than 128 bits, and no more are kept.
    TooWide(Type),
    /// A stack slot has no place in accessible memory, or within the width of pointers.
    NoPlace,
    /// The instruction with this opcode isn't defined at such types.
    Types(Opcode),
    /// A switch goes by a value of this type, which is no integer.
    Switched(Type),
    /// The returned values don't have the types that the function returns.
    Returned,
    /// The address isn't aligned, and the flag `aligned` claims that it is.
    NotAligned,
    /// A byte isn't accessible, and the flag `notrap` claims that it is.
    NotAccessible,
    /// A byte is hidden: it lies in a stack slot that only the finished function has.
    Hidden,
    /// An instruction doesn't give as many results as it has.
    Results,
    /// A function of the C library touches a byte that isn't accessible.
    LibraryBytes,
    /// `Memcpy` copies between bytes that overlap.
    Overlap,
    /// A function of the C library is called by another signature than its own.
    LibrarySignature,
    /// A memory helper of a known size touches a byte that isn't accessible.
    HelperBytes,
    /// Bytes overlap, and a memory helper says that they don't.
    HelperOverlap,
    /// An address doesn't have the alignment that a memory helper says, or that is no power of two.
    HelperAlignment,
}

impl Fault {
    /// Whether it is a limit of this library, and no fault of what is run.
    pub fn is_limit(self) -> bool {
        matches!(&self, Fault::Memory | Fault::TooWide(_) | Fault::NoPlace)
    }

    // The text of a fault that has no parts.
    fn text(self) -> &'static str {
        match self {
            Fault::Memory => "no memory",
            Fault::NoPlace => "the stack slots don't fit into memory",
            Fault::Returned => "the returned values don't fit the signature",
            Fault::NotAligned => "the address isn't aligned, as the flag aligned claims",
            Fault::NotAccessible => "a byte isn't accessible, as the flag notrap claims",
            Fault::Hidden => "a byte lies in a stack slot that only the function has",
            Fault::LibraryBytes =>
                "a function of the C library touches a byte that isn't accessible",
            Fault::Overlap => "Memcpy copies between bytes that overlap",
            Fault::LibrarySignature => {
                "a function of the C library is called by another signature than its own"
            }
            Fault::HelperBytes => "a memory helper touches a byte that isn't accessible",
            Fault::HelperOverlap => "bytes overlap, and a memory helper says that they don't",
            Fault::HelperAlignment => {
                "an address doesn't have the alignment that a memory helper says"
            }
            _ => "the instruction doesn't give its results",
        }
    }
}

impl fmt::Display for Fault {
    fn fmt<W: fmt::Write>(&self, f: &mut fmt::Formatter<W>) -> fmt::Result {
        match self {
            Fault::TooWide(ty) => write!(f, "a value of type {ty} has more than 128 bits"),
            Fault::Types(opcode) => write!(f, "{opcode} isn't defined at such types"),
            Fault::Switched(ty) => write!(f, "a switch isn't defined at type {ty}"),
            fault => f.write_str(fault.text()),
        }
    }
}

impl From<AllocError> for Fault {
    fn from(_error: AllocError) -> Fault {
        Fault::Memory
    }
}

impl<T: Drop> From<AllocFailed<T>> for Fault {
    fn from(_error: AllocFailed<T>) -> Fault {
        Fault::Memory
    }
}

/// Why an instruction gives nothing: the run ends with a trap, or it has no outcome.
#[derive(Clone, Copy)]
pub(crate) enum Stop {
    Trap(TrapCode),
    Fault(Fault),
}

impl From<TrapCode> for Stop {
    fn from(code: TrapCode) -> Stop {
        Stop::Trap(code)
    }
}

impl From<Fault> for Stop {
    fn from(fault: Fault) -> Stop {
        Stop::Fault(fault)
    }
}

impl<T: Drop> From<AllocFailed<T>> for Stop {
    fn from(_error: AllocFailed<T>) -> Stop {
        Stop::Fault(Fault::Memory)
    }
}
