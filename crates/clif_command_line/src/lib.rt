//! What a program gets from its command line: the words, and the bytes of the file that one of them names. And what each
//! program tells of itself.
#![tactic(auto)]

use std::io::Read;
use std::rt::{Env, Files};
use std::{env, fs, io};

/// The words after the program's name.
///
/// # Errors
///
/// Where memory is refused, or a word isn't UTF-8.
pub fn words<R: Env + AllocGlobal>(rt: &R) -> io::Result<Vec<String>> {
    let mut words = Vec::new(rt.alloc());
    for word in env::args(rt)?.skip(1) {
        words.push(word)?;
    }
    Ok(words)
}

/// Tells a program's user why there are no [`words`], and answers the exit status: 1 where memory is refused, and 2 where a word
/// isn't UTF-8, which is told as wrong arguments are.
pub fn tell_no_words<E: io::Write>(error: &io::Error, wrong_arguments: &str, err: &mut E) -> u8 {
    let (line, status) = match error.kind() {
        io::ErrorKind::InvalidData => (wrong_arguments, 2),
        _ => ("no memory", 1),
    };
    let _ = writeln!(err, "{line}");
    status
}

/// The bytes of a file, or of standard input where the path is `-`.
///
/// # Errors
///
/// Those of [`fs::read`] and of [`Read::read_to_end`].
pub fn bytes_of<R: Files + Input + AllocGlobal>(rt: &R, path: &str) -> io::Result<Vec<u8>> {
    if path != "-" {
        return fs::read(rt, path);
    }
    let mut bytes = Vec::new(rt.alloc());
    rt.reader().read_to_end(&mut bytes)?;
    Ok(bytes)
}

/// What `--version` prints.
pub const VERSION: &str = "cranelift-frontend 0.137.1, in Rattle";

/// What a program is asked about itself.
#[derive(Clone, Copy)]
pub enum Question {
    /// How it is used.
    Usage,
    /// Which version it is.
    Version,
}

impl Question {
    /// The question that the only word asks: `--help` or `-h`, or `--version`.
    pub fn of(words: &[String]) -> Option<Question> {
        let (word, others) = words.split_first()?;
        if !others.is_empty() {
            return None;
        }
        match word.as_str() {
            "--help" | "-h" => Some(Question::Usage),
            "--version" => Some(Question::Version),
            _ => None,
        }
    }

    /// The answer of a program that is used so.
    pub fn answer<'a>(self, usage: &'a str) -> &'a str {
        match self {
            Question::Usage => usage,
            Question::Version => VERSION,
        }
    }
}
