//! A script and the function that is built of it run side by side.
ghost use Rattle.std.specs.Prelude.{◌<◌};

use crate::options::Options;
use crate::shown::Shown;
use crate::table::Answers;
use crate::trace::{Numbering, Trace};
use clif_calls::{Call, EntryCall, Moves, OutsideAnswer};
use clif_interpreter::{function, script};
use clif_ir::Function;
use clif_types::{AbiParam, PointerWidth, Signature};
use clif_worlds::{Beside, Cause, Collector, End, Ending, Memory, Mover, RunError, World};
use std::alloc::{AllocError, Global};
use std::fmt;

/// The address of the first accessible byte, a multiple of 256.
const START: u64 = 0x1000;

/// How many bytes are accessible.
const SIZE: usize = 0xf000;

/// The address from which on the stack slots lie.
const SLOTS: u64 = 0x8000;

/// What two runs are given.
#[derive(Clone, Copy)]
pub struct Given<'a> {
    /// The bits of the arguments.
    pub arguments: &'a [u128],
    /// How outside calls end. What isn't named returns zeros.
    pub answers: &'a [OutsideAnswer],
    /// How a collector moves, if it moves anything.
    pub moves: Option<Moves>,
    /// The width of a pointer.
    pub pointer_width: PointerWidth,
    /// How they are made.
    pub options: Options,
}

/// What both runs show.
#[derive(Drop)]
pub struct Comparison {
    /// How the script's run ended.
    pub script: Ending,
    /// How the function's run ended. A function that can't go on is wrong.
    pub function: Result<Ending, RunError>,
    /// The bound on the steps of each.
    pub steps: u64,
}

/// How two runs compare. It prints as `the runs differ`.
#[derive(Clone, Copy)]
pub enum Verdict {
    /// They show the same outside calls, and end with the same values or trap, and the same memory outside the stack slots in which
    /// the function keeps what moves.
    Equal,
    /// One of them hasn't ended within this bound on steps.
    Unknown(u64),
    /// They differ.
    Differ,
    /// They differ in memory alone, first in the byte at this address.
    DifferInMemory(u64),
}

impl Verdict {
    /// The exit status of a program that compares: 0 where they are equal, 3 where they differ, and 5 where one hasn't ended.
    pub fn status(self) -> u8
        ensures { result < 6 }
    {
        match self {
            Verdict::Equal => 0,
            Verdict::Differ | Verdict::DifferInMemory(_) => 3,
            Verdict::Unknown(_) => 5,
        }
    }
}

impl fmt::Display for Verdict {
    fn fmt<W: fmt::Write>(&self, f: &mut fmt::Formatter<W>) -> fmt::Result {
        match self {
            Verdict::Equal => f.write_str("the runs are equal"),
            Verdict::Differ => f.write_str("the runs differ"),
            Verdict::DifferInMemory(address) => {
                write!(f, "the runs differ in memory at address {address:#x}")
            }
            Verdict::Unknown(steps) => {
                write!(f, "stopped after {steps} steps: --steps N allows more")
            }
        }
    }
}

// Memory as the runs begin: each byte is the low byte of its address.
fn first_memory(alloc: Global) -> Result<Memory, AllocError> {
    let mut memory = Memory::zeros(alloc, START, SIZE)?;
    for place in 0..SIZE {
        memory.put(place, (place % 256) as u8);
    }
    Ok(memory)
}

/// Runs a script and its function on the same. At an outside call the collector moves the marked variables and the tracked names of
/// the script, and of the function what lies in the slots that the call's stack map names.
///
/// The bytes from address 0x1000 up to 0xffff are accessible, and no others. Each is the low byte of its address at
/// first. Stack slots lie from 0x8000 on, in order, each at the next address that its alignment allows.
///
/// # Errors
///
/// Those of [`script::run_beside`], and where a stack slot of the function has no place, a value of its run has more than 128 bits,
/// or memory is refused there.
pub fn compare(
    alloc: Global,
    calls: &[Call],
    signature: &Signature,
    func: &Function,
    given: &Given<'_>,
) -> Result<Comparison, RunError> {
    let memory = match first_memory(alloc) {
        Ok(memory) => memory,
        Err(_) => return Err(RunError::memory()),
    };
    let world = World {
        arguments: given.arguments,
        memory: &memory,
        pointer_width: given.pointer_width,
        slots: SLOTS,
        outside: &Answers(given.answers),
        is_traced: given.options.is_traced,
    };
    let steps = given.options.steps;
    let hidden = function::slots_behind(alloc, func, &world, slot_count(calls))?;
    let beside = Beside {
        mover: given.moves.map(Mover::of),
        hidden: hidden.as_slice(),
    };
    let collector = match beside.mover {
        Some(mover) => Collector::ByMaps(mover),
        None => Collector::Nothing,
    };
    let script = script::run_beside(alloc, calls, signature, &world, &beside, steps)?;
    let function = match function::run_collected(alloc, func, &world, collector, steps) {
        Ok((ending, _)) => Ok(ending),
        // A limit of the interpreter says nothing of the function.
        Err(error) if is_limit(error.cause) => return Err(error),
        Err(error) => Err(error),
    };
    Ok(Comparison {
        script,
        function,
        steps,
    })
}

// Whether the interpreter can't go on. That a call lacks an item is a fault of what is run.
fn is_limit(cause: Cause) -> bool {
    match cause {
        Cause::Fault(fault) => fault.is_limit(),
        _ => false,
    }
}

// How many stack slots calls make.
fn slot_count(calls: &[Call]) -> usize {
    let mut count = 0usize;
    for call in calls {
        if let Call::Entry(EntryCall::CreateSizedStackSlot { .. }) = call {
            count = count.saturating_add(1);
        }
    }
    count
}

impl Comparison {
    /// How the runs compare.
    pub fn verdict(&self) -> Verdict {
        match &self.function {
            _ if self.is_cut() => Verdict::Unknown(self.steps),
            Ok(function) => compared(&self.script, function),
            Err(_) => Verdict::Differ,
        }
    }

    // Whether one of the runs hasn't ended.
    fn is_cut(&self) -> bool {
        let is_function_cut = match &self.function {
            Ok(function) => is_out_of_steps(&function.end),
            Err(_) => false,
        };
        is_function_cut || is_out_of_steps(&self.script.end)
    }
}

/// Two runs of a function that returns these types. It prints a line for each outside call and one for
/// the end of each run: `script: called %f(64)`, `script: returned 7`, and the same of the function. A function that can't go on
/// has its reason in place of them. Before these lines stands the [`Trace`] of the blocks, if they were kept.
#[derive(Clone, Copy)]
pub struct Report<'a> {
    /// The runs.
    pub runs: &'a Comparison,
    /// What the function returns.
    pub returns: &'a [AbiParam],
    /// How the function numbers the script's blocks.
    pub numbering: Numbering<'a>,
}

impl fmt::Display for Report<'_> {
    fn fmt<W: fmt::Write>(&self, f: &mut fmt::Formatter<W>) -> fmt::Result {
        let trace = self.trace();
        write!(f, "{trace}")?;
        self.write_run(f, "script", &self.runs.script)?;
        match &self.runs.function {
            Ok(ending) => self.write_run(f, "function", ending),
            Err(error) => writeln!(f, "function: {error}"),
        }
    }
}

impl Report<'_> {
    // The blocks that were passed. Of a function that can't go on none are kept.
    fn trace(&self) -> Trace<'_> {
        Trace {
            script: self.runs.script.passed.as_slice(),
            function: match &self.runs.function {
                Ok(ending) => ending.passed.as_slice(),
                Err(_) => &[],
            },
            numbering: self.numbering,
        }
    }

    // What one of them shows.
    fn write_run<W: fmt::Write>(
        &self,
        f: &mut fmt::Formatter<W>,
        name: &str,
        ending: &Ending,
    ) -> fmt::Result {
        for event in &ending.events {
            writeln!(f, "{name}: called {event}")?;
        }
        let shown = Shown {
            end: &ending.end,
            returns: self.returns,
            steps: self.runs.steps,
        };
        writeln!(f, "{name}: {shown}")
    }
}

fn compared(script: &Ending, function: &Ending) -> Verdict {
    if script.end != function.end || script.events != function.events {
        return Verdict::Differ;
    }
    match script.memory.first_difference(&function.memory) {
        Some(address) => Verdict::DifferInMemory(address),
        None => Verdict::Equal,
    }
}

fn is_out_of_steps(end: &End) -> bool {
    matches!(end, End::OutOfSteps)
}
