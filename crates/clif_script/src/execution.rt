//! Runs of a script and of the function that is built of it, side by side: `execute` is `clif_build --run` over two
//! writers.
ghost use Rattle.std.specs.Prelude.{◌<◌, IfOk, IfSome};

use crate::command::Run;
use crate::program::{Notes, tell_call, tell_unbuilt};
use crate::source::{Source, tell_unread};
use clif_regions::RegionOf;
use clif_replay::{Condition, FunctionBuilderContext, ReplayError, ReplayNotes, replay_noted};
use clif_runs::{
    ArgumentError, Comparison, Given, Numbering, Options, Report, Verdict, arguments_of, compare,
};
use clif_text::{ReadError, Script};
use clif_types::AbiParam;
use clif_worlds::{Place, RunError, Told};
use std::alloc::{AllocError, Global};
use std::io;

/// Builds the function of a script, as [`crate::build`] does, runs the script's variable program and the function with
/// the same arguments and the same memory, and prints to `out` what each calls and how it ends, as `script: called %f(64)`,
/// `script: returned 7` and `function: returned 7`; before them the blocks that both pass, if the run is traced (see
/// [`Report`]). Answers the exit status.
///
/// The bytes from address 0x1000 up to 0xffff are accessible, and no others. Each is the low byte of its address at
/// first. Stack slots lie from 0x8000 on, in order, each at the next address that its alignment allows. Outside calls
/// end as the script's lines `answer` and `throw` say, return zeros where none says it, and leave memory as it is. By a line
/// `moves` they move the script's marked variables and tracked names, and of the function what the call's stack map names.
///
/// | Status | When |
/// |---|---|
/// | 0 | both runs end with the same values or trap, and the same memory outside the stack slots that only the function has |
/// | 1 | the function couldn't be built, and `err` has the reason, as [`crate::build`] tells it; or this can't be run: memory or a write was refused, a value has more than 128 bits, the stack slots don't fit into memory, or a call throws to an item that it doesn't have |
/// | 2 | of [`Source::read`]: the bytes are no script; or the words aren't the function's arguments, and `err` has the reason |
/// | 3 | the runs differ, and `err` says so |
/// | 4 | the theorem promises nothing of this run, and `err` has the reason, as `the promise doesn't cover this: $4.1 is used before it is given`, and then the line of the call |
/// | 5 | a run hasn't ended within the bound on steps, and `err` says so |
///
/// Where both ran, `err` first has a note for each constant that is cut, as [`crate::build`] tells it. Nothing is printed
/// to `out` but with status 0, 3 and 5. Where a write fails, what was written before it stays
/// written.
pub fn execute<O: io::Write, E: io::Write>(
    alloc: Global,
    source: &Source<'_>,
    run: &Run<'_>,
    region: Option<RegionOf>,
    out: &mut O,
    err: &mut E,
) -> u8
    requires callable { IfSome region RegionOf.IsAlwaysCallable }
    ensures { result < 6 }
{
    match execute_script(alloc, source, run, region, out, err) {
        Ok(status) => status,
        Err(_) => 1,
    }
}

fn execute_script<O: io::Write, E: io::Write>(
    alloc: Global,
    source: &Source<'_>,
    run: &Run<'_>,
    region: Option<RegionOf>,
    out: &mut O,
    err: &mut E,
) -> io::Result<u8>
    requires callable { IfSome region RegionOf.IsAlwaysCallable }
    ensures { IfOk result (λ status. status < 6) }
{
    let Source { text, script } = source;
    let params = script.signature.params.as_slice();
    let arguments = match arguments_of(alloc, params, run.arguments) {
        Ok(arguments) => arguments,
        Err(error) => return tell_arguments(error, err),
    };
    match both_run(alloc, script, arguments.as_slice(), run.options, region) {
        Ok(both) => {
            let notes = Notes {
                calls: script.calls.as_slice(),
                lines: script.lines.as_slice(),
            };
            write!(err, "{notes}")?;
            tell_runs(&both, script.signature.returns.as_slice(), out, err)
        }
        Err(Unrun::Unbuilt(error, condition)) => tell_unbuilt(
            alloc,
            error,
            condition,
            text,
            script.lines.as_slice(),
            err,
        ),
        Err(Unrun::Memory) => tell_unread(ReadError::Memory, err),
        Err(Unrun::Cannot(error)) => tell_unrun(error, text, script.lines.as_slice(), err),
    }
}

/// Why there are no two runs to compare.
#[derive(Drop)]
enum Unrun {
    Memory,
    // and the condition that doesn't hold, if that is why
    Unbuilt(ReplayError, Option<Condition>),
    Cannot(RunError),
}

impl From<AllocError> for Unrun {
    fn from(_error: AllocError) -> Unrun {
        Unrun::Memory
    }
}

impl From<RunError> for Unrun {
    fn from(error: RunError) -> Unrun {
        Unrun::Cannot(error)
    }
}

/// Two runs, and how the blocks are numbered.
#[derive(Drop)]
struct Both {
    runs: Comparison,
    // the numbers in the function of the script's blocks
    numbers: Vec<usize>,
}

// Builds the function of a script and runs both.
fn both_run(
    alloc: Global,
    script: &Script,
    arguments: &[u128],
    options: Options,
    region: Option<RegionOf>,
) -> Result<Both, Unrun>
    requires callable { IfSome region RegionOf.IsAlwaysCallable }
{
    let mut ctx = FunctionBuilderContext::new(alloc);
    let name = script.name.clone()?;
    let signature = script.signature.clone()?;
    let calls = script.calls.as_slice();
    let config = script.config;
    let mut told = ReplayNotes::new(alloc);
    let func = match replay_noted(
        alloc, calls, name, signature, &mut ctx, config, region, &mut told,
    ) {
        Ok(func) => func,
        Err(error) => return Err(Unrun::Unbuilt(error, told.condition)),
    };
    let given = Given {
        arguments,
        answers: script.answers.as_slice(),
        moves: script.moves,
        pointer_width: config.pointer_width,
        options,
    };
    let runs = compare(alloc, calls, &script.signature, &func, &given)?;
    let ReplayNotes { blocks, .. } = told;
    Ok(Both {
        runs,
        numbers: blocks,
    })
}

// Prints what both runs show, and tells it where they aren't equal.
fn tell_runs<O: io::Write, E: io::Write>(
    both: &Both,
    returns: &[AbiParam],
    out: &mut O,
    err: &mut E,
) -> io::Result<u8>
    ensures { IfOk result (λ status. status < 6) }
{
    let runs = &both.runs;
    let report = Report {
        runs,
        returns,
        numbering: Numbering::Listed(both.numbers.as_slice()),
    };
    write!(out, "{report}")?;
    let verdict = runs.verdict();
    if let Verdict::Equal = verdict {
        return Ok(0);
    }
    writeln!(err, "{verdict}")?;
    Ok(verdict.status())
}

// Tells why words aren't the arguments of the function.
fn tell_arguments<E: io::Write>(error: ArgumentError<'_>, err: &mut E) -> io::Result<u8>
    ensures { IfOk result (λ status. status < 6) }
{
    writeln!(err, "{error}")?;
    Ok(error.status())
}

// Tells why the script can't be run, and the line of the call.
fn tell_unrun<E: io::Write>(
    error: RunError,
    text: &str,
    lines: &[usize],
    err: &mut E,
) -> io::Result<u8>
    ensures { IfOk result (λ status. status < 6) }
{
    let told = Told(error.cause);
    writeln!(err, "{told}")?;
    if let Place::Call(place) = error.place {
        tell_call(place, text, lines, err)?;
    }
    Ok(error.cause.status())
}
