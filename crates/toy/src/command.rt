//! What the program `toy` is asked for.
use clif_runs::Options;

/// A run of a function of a program.
#[derive(Clone, Copy)]
pub struct Run<'a> {
    /// The function's name.
    pub function: &'a str,
    /// One word for each parameter: a number, decimal or hexadecimal after `0x`, and `-` before it if it is negative.
    pub arguments: &'a [String],
    /// How it is made.
    pub options: Options,
}

/// What the program is asked for, for the toy program of a file.
#[derive(Clone, Copy)]
pub enum Command<'a> {
    /// To compile it and to print its functions.
    Print {
        /// The file, or `-` for standard input.
        path: &'a str,
    },
    /// To compile it and to run one of its functions.
    Run {
        /// The file, or `-` for standard input.
        path: &'a str,
        /// The run.
        run: Run<'a>,
    },
}

/// What the program answers to words that ask for nothing.
pub const USAGE: &str = "usage: toy FILE
       toy --run [--trace] [--steps N] FILE FUNCTION [ARGUMENT ..]
       toy --help
       toy --version";

impl<'a> Command<'a> {
    /// What the words after the program's name ask for: `FILE`, or `--run [--trace] [--steps N] FILE FUNCTION [ARGUMENT ..]`.
    pub fn of(words: &'a [String]) -> Option<Command<'a>> {
        let (first, rest) = words.split_first()?;
        match first.as_str() {
            "--run" => Command::run(rest),
            path if rest.is_empty() => Some(Command::Print { path }),
            _ => None,
        }
    }

    // What the words after `--run` ask for.
    fn run(words: &'a [String]) -> Option<Command<'a>> {
        let (options, path, rest) = Options::of(words)?;
        let (function, arguments) = rest.split_first()?;
        let function = function.as_str();
        let run = Run {
            function,
            arguments,
            options,
        };
        Some(Command::Run { path, run })
    }

    /// The file of the program.
    pub fn path(&self) -> &'a str {
        match *self {
            Command::Print { path } | Command::Run { path, .. } => path,
        }
    }
}
