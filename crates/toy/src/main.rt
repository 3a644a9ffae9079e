//! `toy FILE` compiles a program of the toy language and prints its functions; `toy --run FILE FUNCTION ARGUMENTS` runs one of
//! them. Where the file is `-`, the program is read from standard input.
#![tactic(auto)]

mod command;
mod execution;

use clif_command_line::{Question, bytes_of, tell_no_words, words};
use command::{Command, USAGE};
use execution::execute;
use std::io;
use std::process::ExitCode;

fn main(rt: HostRuntime) -> ExitCode {
    let words = match words(&rt) {
        Ok(words) => words,
        Err(error) => return ExitCode::from(tell_no_words(&error, USAGE, &mut rt.stderr())),
    };
    if let Some(question) = Question::of(words.as_slice()) {
        let printed = rt.println(question.answer(USAGE));
        return ExitCode::from(u8::from(printed.is_err()));
    }
    let Some(command) = Command::of(words.as_slice()) else {
        let _ = rt.eprintln(USAGE);
        return ExitCode::from(2);
    };
    match bytes_of(&rt, command.path()) {
        Ok(bytes) => ExitCode::from(carry_out(&rt, &command, bytes.as_slice())),
        Err(error) => {
            let _ = eprintln!(rt; "{}: {error}", command.path());
            ExitCode::from(2)
        }
    }
}

// Does what is asked for, for the bytes of the file; answers the exit status.
fn carry_out(rt: &HostRuntime, command: &Command<'_>, bytes: &[u8]) -> u8 {
    let mut out = io::writer(rt);
    let mut err = rt.stderr();
    match command {
        Command::Print { .. } => toy_compiler::print(rt.alloc(), bytes, &mut out, &mut err),
        Command::Run { run, .. } => execute(rt.alloc(), bytes, run, &mut out, &mut err),
    }
}
