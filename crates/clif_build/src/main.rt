//! `clif_build FILE` builds the function of a script, checks its types and prints it, `clif_build --unchecked FILE` without the
//! check; `--cfg` before the file prints its control-flow graph. `clif_build --run FILE ARGUMENTS` builds it and runs the script
//! and the function. Where the file is `-`, the script is read from standard input. A line `region` of the script says what the
//! program's callback answers.
#![tactic(auto)]

ghost use Rattle.std.specs.Prelude.{IfSome};

use clif_command_line::{Question, bytes_of, tell_no_words, words};
use clif_script::{Command, RegionOf, Source, USAGE, build, execute, tell_no_memory};
use clif_types::{AliasRegion, AliasRegionSet, StackSlot, Type};
use std::alloc::AllocError;
use std::cell::Cell;
use std::io;
use std::process::ExitCode;

fn main(rt: HostRuntime) -> ExitCode {
    let words = match words(&rt) {
        Ok(words) => words,
        Err(error) => return ExitCode::from(tell_no_words(&error, USAGE, &mut rt.stderr())),
    };
    if let Some(question) = Question::of(words.as_slice()) {
        let printed = rt.println(question.answer(USAGE));
        return ExitCode::from(u8::from(printed.is_err()));
    }
    let Some(command) = Command::of(words.as_slice()) else {
        let _ = rt.eprintln(USAGE);
        return ExitCode::from(2);
    };
    match bytes_of(&rt, command.path()) {
        Ok(bytes) => match carry_out(&rt, &command, bytes.as_slice()) {
            Ok(status) => ExitCode::from(status),
            Err(_) => ExitCode::from(tell_no_memory(&mut rt.stderr())),
        },
        Err(error) => {
            let _ = eprintln!(rt; "{}: {error}", command.path());
            ExitCode::from(2)
        }
    }
}

// Does what is asked for, for the bytes of the file; answers the exit status.
fn carry_out(rt: &HostRuntime, command: &Command<'_>, bytes: &[u8]) -> Result<u8, AllocError> {
    let source = match Source::read(rt.alloc(), bytes, &mut rt.stderr()) {
        Ok(source) => source,
        Err(status) => return Ok(status),
    };
    let Some(kind) = source.region() else {
        return Ok(perform(rt, command, source, None));
    };
    let calls = Cell::new(0u32);
    let region: RegionOf = Box::new(
        rt.alloc(),
        move |set: &mut AliasRegionSet, _ty: Type, slot: StackSlot, _offset: u32| -> Option<
            AliasRegion,
        > {
            let before = calls.get();
            calls.set(before.wrapping_add(1));
            kind.ask(before, set, slot)
        },
    )?;
    Ok(perform(rt, command, source, Some(region)))
}

// Does what is asked for, for a script, with this callback; answers the exit status.
fn perform(
    rt: &HostRuntime,
    command: &Command<'_>,
    source: Source<'_>,
    region: Option<RegionOf>,
) -> u8
    requires callable { IfSome region RegionOf.IsAlwaysCallable }
{
    let alloc = rt.alloc();
    let mut out = io::writer(rt);
    let mut err = rt.stderr();
    match command {
        Command::Build { printing, .. } => {
            build(alloc, source, *printing, region, &mut out, &mut err)
        }
        Command::Run { run, .. } => execute(alloc, &source, run, region, &mut out, &mut err),
    }
}
