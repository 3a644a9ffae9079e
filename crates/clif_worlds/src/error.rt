//! Why a run can't go on.
ghost use Rattle.std.specs.Prelude.{◌<◌};

use clif_calls::Name;
use clif_operations::Fault;
use clif_types::{Inst, Value};
use std::alloc::{AllocError, AllocFailed};
use std::error::Error;
use std::fmt;

/// What an instruction, a use or an assignment names.
#[derive(Clone, Copy)]
pub enum Operand {
    /// An answer of a call of a script. It prints as scripts write it without a name, `$7.1`.
    Name(Name),
    /// A variable of a script, by its number. It prints as `var0`.
    Variable(usize),
    /// A value of a function.
    Value(Value),
}

impl fmt::Display for Operand {
    fn fmt<W: fmt::Write>(&self, f: &mut fmt::Formatter<W>) -> fmt::Result {
        match self {
            Operand::Name(name) => {
                let place = name.place;
                let answer = name.answer;
                write!(f, "${place}.{answer}")
            }
            Operand::Variable(number) => write!(f, "var{number}"),
            Operand::Value(value) => write!(f, "{value}"),
        }
    }
}

/// Why a run can't go on.
#[derive(Clone, Copy)]
pub enum Cause {
    /// An instruction has no outcome, or a limit is reached.
    Fault(Fault),
    /// The arguments of the run aren't as many as the entry block's parameters, or don't fit their types.
    Arguments,
    /// The caller's parameters of the entry block don't have the types of the signature's.
    EntryParameters,
    /// A branch leads to the entry block.
    EntryTarget,
    /// A branch leads to a block without a terminator.
    NotFilled,
    /// A branch leads to no block.
    NoTarget,
    /// This leads to no value.
    Unknown(Operand),
    /// This is used before it is given.
    NotGiven(Operand),
    /// A value of another type is assigned to this variable.
    Assigned(Operand),
    /// A tracked name is assigned to this variable, or answered by a use of it, which isn't marked.
    Unmarked(Operand),
    /// The arguments of an edge don't have the types of its target's parameters.
    Edge,
    /// The operands of a call don't have the types of its signature's parameters.
    CallArguments,
    /// The instruction calls a function that wasn't imported.
    NoFunction,
    /// A call throws, and has no item of this number.
    NoItem(usize),
}

impl Cause {
    /// Whether it is a limit of the interpreters, and no fault of what is run.
    pub fn is_limit(self) -> bool {
        match self {
            Cause::Fault(fault) => fault.is_limit(),
            Cause::NoItem(_) => true,
            _ => false,
        }
    }

    /// The exit status of a program that runs: 1 where the interpreters have reached a limit, and 4 where nothing is promised of
    /// what is run.
    pub fn status(self) -> u8
        ensures { result < 6 }
    {
        if self.is_limit() { 1 } else { 4 }
    }

    /// This, at a place.
    pub fn at(self, place: Place) -> RunError {
        RunError { cause: self, place }
    }

    // The text of a cause that has no parts.
    fn text(self) -> &'static str {
        match self {
            Cause::Arguments => "the arguments don't fit the entry block's parameters",
            Cause::EntryParameters => "the entry block's parameters aren't the signature's",
            Cause::EntryTarget => "a branch leads to the entry block",
            Cause::NotFilled => "a branch leads to a block without a terminator",
            Cause::NoTarget => "a branch leads to no block",
            Cause::CallArguments => "the operands of a call don't fit its signature",
            Cause::NoFunction => "a function is called that wasn't imported",
            _ => "the arguments of an edge don't fit its target's parameters",
        }
    }
}

impl fmt::Display for Cause {
    fn fmt<W: fmt::Write>(&self, f: &mut fmt::Formatter<W>) -> fmt::Result {
        match self {
            Cause::Fault(fault) => write!(f, "{fault}"),
            Cause::Unknown(operand) => write!(f, "{operand} leads to no value"),
            Cause::NotGiven(operand) => write!(f, "{operand} is used before it is given"),
            Cause::Assigned(operand) => write!(
                f,
                "a value of another type is assigned to {operand}"
            ),
            Cause::Unmarked(operand) => write!(
                f,
                "{operand} isn't marked, and what it holds may move"
            ),
            Cause::NoItem(number) => write!(f, "a call throws, and has no item {number}"),
            cause => f.write_str(cause.text()),
        }
    }
}

impl From<Fault> for Cause {
    fn from(fault: Fault) -> Cause {
        Cause::Fault(fault)
    }
}

impl From<AllocError> for Cause {
    fn from(_error: AllocError) -> Cause {
        Cause::Fault(Fault::Memory)
    }
}

impl<T: Drop> From<AllocFailed<T>> for Cause {
    fn from(_error: AllocFailed<T>) -> Cause {
        Cause::Fault(Fault::Memory)
    }
}

/// Why there is no run to show. It prints as `no memory`, `can't run this: ..` at a limit of the interpreters, or
/// `the promise doesn't cover this: ..`.
#[derive(Clone, Copy)]
pub struct Told(pub Cause);

impl fmt::Display for Told {
    fn fmt<W: fmt::Write>(&self, f: &mut fmt::Formatter<W>) -> fmt::Result {
        let cause = self.0;
        if let Cause::Fault(Fault::Memory) = cause {
            write!(f, "{cause}")
        } else if cause.is_limit() {
            write!(f, "can't run this: {cause}")
        } else {
            write!(f, "the promise doesn't cover this: {cause}")
        }
    }
}

/// Where a run can't go on.
#[derive(Clone, Copy)]
pub enum Place {
    /// Before the first step.
    Start,
    /// At the call at this place of a script.
    Call(usize),
    /// At this instruction of a function.
    Inst(Inst),
}

/// Why a run can't go on, and where. It prints as `v3 is used before it is given at inst5`.
#[derive(Clone, Copy)]
pub struct RunError {
    /// Why.
    pub cause: Cause,
    /// Where.
    pub place: Place,
}

impl RunError {
    /// Memory was refused before the first step.
    pub fn memory() -> RunError {
        Cause::Fault(Fault::Memory).at(Place::Start)
    }
}

impl fmt::Display for RunError {
    fn fmt<W: fmt::Write>(&self, f: &mut fmt::Formatter<W>) -> fmt::Result {
        let cause = self.cause;
        match self.place {
            Place::Start => write!(f, "{cause}"),
            Place::Call(place) => write!(f, "{cause} at call {place}"),
            Place::Inst(inst) => write!(f, "{cause} at {inst}"),
        }
    }
}

/// As it is displayed.
impl fmt::Debug for RunError {
    fn fmt<W: fmt::Write>(&self, f: &mut fmt::Formatter<W>) -> fmt::Result {
        write!(f, "{self}")
    }
}

impl Error for RunError {}
