//! What the program `clif_build` is asked for.
use crate::program::{Form, Printing, TypeCheck};
use clif_runs::Options;

/// A run: the words of its arguments, and how it is made.
#[derive(Clone, Copy)]
pub struct Run<'a> {
    /// One word for each parameter of the function's signature: a number, decimal or hexadecimal after `0x`, and `-`
    /// before it if it is negative. For a float or a vector it is the bits.
    pub arguments: &'a [String],
    /// How it is made.
    pub options: Options,
}

/// What the program is asked for, for the script of a file.
#[derive(Clone, Copy)]
pub enum Command<'a> {
    /// To build the function of a script and to print it.
    Build {
        /// The file, or `-` for standard input.
        path: &'a str,
        /// How it is printed.
        printing: Printing,
    },
    /// To build the function and to run the script and the function.
    Run {
        /// The file, or `-` for standard input.
        path: &'a str,
        /// The run.
        run: Run<'a>,
    },
}

/// What the program answers to words that ask for nothing.
pub const USAGE: &str = "usage: clif_build [--unchecked] [--cfg] FILE
       clif_build --run [--trace] [--steps N] FILE [ARGUMENT ..]
       clif_build --help
       clif_build --version";

impl<'a> Command<'a> {
    /// What the words after the program's name ask for: `[--unchecked] [--cfg] FILE`, or
    /// `--run [--trace] [--steps N] FILE [ARGUMENT ..]`.
    pub fn of(words: &'a [String]) -> Option<Command<'a>> {
        let (first, rest) = words.split_first()?;
        match first.as_str() {
            "--run" => Command::run(rest),
            "--unchecked" => Command::print(rest, TypeCheck::Unchecked),
            _ => Command::print(words, TypeCheck::Checked),
        }
    }

    // What the words of a build ask for.
    fn print(words: &'a [String], types: TypeCheck) -> Option<Command<'a>> {
        let (first, rest) = words.split_first()?;
        let (form, words) = match first.as_str() {
            "--cfg" => (Form::Graph, rest),
            _ => (Form::Text, words),
        };
        match words {
            [path] => Some(Command::Build {
                path: path.as_str(),
                printing: Printing { types, form },
            }),
            _ => None,
        }
    }

    // What the words after `--run` ask for.
    fn run(words: &'a [String]) -> Option<Command<'a>> {
        let (options, path, arguments) = Options::of(words)?;
        let run = Run { arguments, options };
        Some(Command::Run { path, run })
    }

    /// The file of the script.
    pub fn path(&self) -> &'a str {
        match *self {
            Command::Build { path, .. } | Command::Run { path, .. } => path,
        }
    }
}
