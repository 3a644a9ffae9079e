//! Why a text is no program.
ghost use Rattle.std.specs.Prelude.{◌<◌};

use crate::tokens::Place;
use clif_replay::ReplayError;
use std::alloc::{AllocError, AllocFailed};
use std::error::Error;
use std::fmt;

/// What is wrong at a place.
#[derive(Clone, Copy, Debug)]
pub enum Fault<'a> {
    /// A character that stands in no program.
    Character(char),
    /// Something else stands where this should.
    Expected(&'static str),
    /// Digits that are no number below 2^63.
    Number,
    /// A variable that isn't declared here.
    Undeclared(&'a str),
    /// A function that isn't in the program.
    Unknown(&'a str),
    /// A function, or a parameter, that is there already.
    Twice(&'a str),
    /// What a variable of references gets is the value of one of numbers.
    NoReference(&'a str),
    /// What a variable of numbers gets is the value of one of references.
    NoNumber(&'a str),
    /// A call with another number of arguments than the function has parameters.
    Arguments {
        name: &'a str,
        wanted: usize,
        given: usize,
    },
    /// A function that ends without a `return`.
    MissingReturn,
    /// A statement that can't be reached.
    Unreachable,
    /// More blocks, brackets and arms behind `else` stand within one another than are allowed.
    TooDeep,
    /// The function has more than a table holds.
    Full,
}

impl fmt::Display for Fault<'_> {
    fn fmt<W: fmt::Write>(&self, f: &mut fmt::Formatter<W>) -> fmt::Result {
        match self {
            Fault::Character(character) => write!(f, "a program has no `{character}`"),
            Fault::Expected(what) => write!(f, "expected {what}"),
            Fault::Number => f.write_str("expected a number below 2^63"),
            Fault::Undeclared(name) => write!(f, "the variable {name} isn't declared"),
            Fault::Unknown(name) => write!(f, "there is no function {name}"),
            Fault::Twice(name) => write!(f, "{name} is there already"),
            Fault::NoReference(name) => write!(
                f,
                "expected a reference for {name}, found a number"
            ),
            Fault::NoNumber(name) => write!(f, "expected a number for {name}, found a reference"),
            Fault::Arguments {
                name,
                wanted,
                given,
            } => {
                let plural = if *wanted == 1 { "" } else { "s" };
                write!(f, "{name} takes {wanted} argument{plural}, not {given}")
            }
            Fault::MissingReturn => f.write_str("the function ends without a return"),
            Fault::Unreachable => f.write_str("the statement can't be reached"),
            Fault::TooDeep => f.write_str("blocks and brackets are nested too deeply"),
            Fault::Full => f.write_str("the function is too large"),
        }
    }
}

/// Why a text is no program. It prints as `3:14: expected an expression`.
#[derive(Clone, Copy, Debug)]
pub enum ToyError<'a> {
    /// This is wrong at this place.
    At(Place, Fault<'a>),
    /// The builder refused the calls of a function, or a table was full.
    Unbuilt(ReplayError),
    /// A text couldn't be written.
    Unwritten,
    /// Memory was refused.
    Memory,
}

impl<'a> ToyError<'a> {
    /// The error that this is wrong at this place.
    pub fn at(place: Place, fault: Fault<'a>) -> ToyError<'a> {
        ToyError::At(place, fault)
    }

    /// The exit status of a program that meets it: 2 where the text is no program, and else 1.
    pub fn status(&self) -> u8
        ensures { (0 < result) × (result < 3) }
    {
        match self {
            ToyError::At(..) => 2,
            ToyError::Unbuilt(_) | ToyError::Unwritten | ToyError::Memory => 1,
        }
    }
}

impl fmt::Display for ToyError<'_> {
    fn fmt<W: fmt::Write>(&self, f: &mut fmt::Formatter<W>) -> fmt::Result {
        match self {
            ToyError::At(place, fault) => write!(f, "{place}: {fault}"),
            ToyError::Unbuilt(error) => write!(f, "{error}"),
            ToyError::Unwritten => f.write_str("the text can't be written"),
            ToyError::Memory => f.write_str("no memory"),
        }
    }
}

impl Error for ToyError<'_> {}

impl From<AllocError> for ToyError<'_> {
    fn from(_error: AllocError) -> Self {
        ToyError::Memory
    }
}

impl<T: Drop> From<AllocFailed<T>> for ToyError<'_> {
    fn from(_error: AllocFailed<T>) -> Self {
        ToyError::Memory
    }
}

impl From<ReplayError> for ToyError<'_> {
    fn from(error: ReplayError) -> Self {
        ToyError::Unbuilt(error)
    }
}
