//! `execute` is `toy --run` over two writers.
ghost use Rattle.std.specs.Prelude.{◌<◌, IfOk};

use crate::command::Run;
use clif_ir::Function;
use clif_runs::{
    ArgumentError, Comparison, Given, Numbering, Report, Verdict, arguments_of, compare,
};
use clif_types::{AbiParam, PointerWidth};
use clif_worlds::{RunError, Told};
use std::alloc::Global;
use std::{io, str};
use toy_compiler::{CompiledFunction, Program, ToyError, compile};

/// Compiles the program of the bytes of a file, runs a function of it twice, as the calls that the compiler made and as the
/// function that was built of them, and prints to `out` what each calls and how it ends, as `script: called %gcd(48, 36)`,
/// `script: returned 12` and `function: returned 12`; before them the blocks that both pass, if the run is traced. Answers the
/// exit status.
///
/// A call of another function, or of itself, is an outside call. It returns what the line `answer NAME NUMBER;` of the program
/// says, and 0 where none says it.
///
/// | Status | When |
/// |---|---|
/// | 0 | both runs end with the same value or trap, and made the same calls |
/// | 1 | the function couldn't be built, or memory or a write was refused, and `err` has the reason |
/// | 2 | the bytes are no program, it has no such function, or the words aren't its arguments, and `err` has the reason |
/// | 3 | the runs differ, and `err` says so |
/// | 4 | the theorem promises nothing of this run, and `err` has the reason |
/// | 5 | a run hasn't ended within the bound on steps, and `err` says so |
///
/// Nothing is printed to `out` but with status 0, 3 and 5. Where a write fails, what was written before it stays
/// written.
pub fn execute<O: io::Write, E: io::Write>(
    alloc: Global,
    bytes: &[u8],
    run: &Run<'_>,
    out: &mut O,
    err: &mut E,
) -> u8
    ensures { result < 6 }
{
    let Ok(text) = str::from_utf8(bytes) else {
        let _ = writeln!(err, "expected UTF-8 text");
        return 2;
    };
    let told = match compile(alloc, text) {
        Ok(program) => execute_program(alloc, &program, run, out, err),
        Err(error) => tell_error(error, err),
    };
    match told {
        Ok(status) => status,
        Err(_) => 1,
    }
}

fn execute_program<O: io::Write, E: io::Write>(
    alloc: Global,
    program: &Program<'_>,
    run: &Run<'_>,
    out: &mut O,
    err: &mut E,
) -> io::Result<u8>
    ensures { IfOk result (λ status. status < 6) }
{
    let Some(function) = named(program.functions.as_slice(), run.function) else {
        let name = run.function;
        writeln!(err, "there is no function {name}")?;
        return Ok(2);
    };
    match function.build(alloc) {
        Ok(built) => execute_function(alloc, program, function, &built, run, out, err),
        Err(error) => {
            function.tell(alloc, error, err)?;
            Ok(error.status())
        }
    }
}

// The function of this name.
fn named<'p, 'a>(
    functions: &'p [CompiledFunction<'a>],
    name: &str,
) -> Option<&'p CompiledFunction<'a>> {
    for function in functions {
        if function.name == name {
            return Some(function);
        }
    }
    None
}

fn execute_function<O: io::Write, E: io::Write>(
    alloc: Global,
    program: &Program<'_>,
    function: &CompiledFunction<'_>,
    built: &Function,
    run: &Run<'_>,
    out: &mut O,
    err: &mut E,
) -> io::Result<u8>
    ensures { IfOk result (λ status. status < 6) }
{
    let signature = built.signature();
    let arguments = match arguments_of(alloc, signature.params.as_slice(), run.arguments) {
        Ok(arguments) => arguments,
        Err(error) => return tell_arguments(error, err),
    };
    let given = Given {
        arguments: arguments.as_slice(),
        answers: program.answers.as_slice(),
        moves: program.moves,
        pointer_width: PointerWidth::U64,
        options: run.options,
    };
    let calls = function.calls.as_slice();
    match compare(alloc, calls, signature, built, &given) {
        Ok(runs) => tell_runs(&runs, signature.returns.as_slice(), out, err),
        Err(error) => tell_unrun(error, err),
    }
}

// Prints what both runs show, and tells it where they aren't equal.
fn tell_runs<'r, O: io::Write, E: io::Write>(
    runs: &'r Comparison,
    returns: &'r [AbiParam],
    out: &mut O,
    err: &mut E,
) -> io::Result<u8>
    ensures { IfOk result (λ status. status < 6) }
{
    let report = Report {
        runs,
        returns,
        numbering: Numbering::InOrder,
    };
    write!(out, "{report}")?;
    let verdict = runs.verdict();
    if let Verdict::Equal = verdict {
        return Ok(0);
    }
    writeln!(err, "{verdict}")?;
    Ok(verdict.status())
}

// Tells why there are no runs.
fn tell_unrun<E: io::Write>(error: RunError, err: &mut E) -> io::Result<u8>
    ensures { IfOk result (λ status. status < 6) }
{
    let told = Told(error.cause);
    writeln!(err, "{told}")?;
    Ok(error.cause.status())
}

// Tells why words aren't the arguments of the function.
fn tell_arguments<E: io::Write>(error: ArgumentError<'_>, err: &mut E) -> io::Result<u8>
    ensures { IfOk result (λ status. status < 6) }
{
    writeln!(err, "{error}")?;
    Ok(error.status())
}

// Tells why a text is no program.
fn tell_error<E: io::Write>(error: ToyError<'_>, err: &mut E) -> io::Result<u8>
    ensures { IfOk result (λ status. status < 6) }
{
    writeln!(err, "{error}")?;
    Ok(error.status())
}
