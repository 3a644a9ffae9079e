//! Runs of the programs over writers in memory, and functions of scripts.
#![tactic(auto)]

use clif_builder::FunctionBuilderContext;
use clif_ir::Function;
use clif_script::{
    Form, Options, Printing, RegionOf, Run, Source, TypeCheck, build, execute, replay, row_text,
    run,
};
use clif_text::{Script, read, write};
use clif_types::{AliasRegion, AliasRegionData, AliasRegionSet, StackSlot, Type};
use std::alloc::{AllocError, Global};
use std::io;
use std::io::Write;
use std::test::Fail;

/// A script, and what its calls are written as.
pub type Row = (&'static str, &'static str);

/// Takes so many writes, and refuses each later one.
#[derive(Drop)]
struct Limited {
    bytes: Vec<u8>,
    left: usize,
}

impl Limited {
    // The room is there from the start, so that no write is refused for want of memory.
    fn new(alloc: Global, writes: usize) -> Result<Limited, AllocError> {
        Ok(Limited {
            bytes: Vec::with_capacity(alloc, 65_536)?,
            left: writes,
        })
    }
}

impl Write for Limited {
    fn write(&mut self, buf: &[u8]) -> io::Result<usize> {
        let Some(left) = self.left.checked_sub(1) else {
            return Err(io::Error::from(io::ErrorKind::BrokenPipe));
        };
        self.bytes.extend_from_slice(buf)?;
        self.left = left;
        Ok(buf.len())
    }

    fn flush(&mut self) -> io::Result<()> {
        Ok(())
    }
}

/// A program, and what it is given.
#[derive(Clone, Copy)]
pub enum Program<'a> {
    /// `clif_build`, with the bytes of a script.
    Build(&'a [u8]),
    /// `clif_build --run`, with the bytes of a script, its arguments and a bound on steps.
    Execute(&'a [u8], &'a str, u64),
    /// `rows`, with its arguments.
    Rows(&'a [&'a str]),
}

/// What a run answered, and what it wrote to standard output and to standard error.
#[derive(Drop)]
pub struct Outcome {
    pub status: u8,
    pub out: Vec<u8>,
    pub err: Vec<u8>,
}

/// More writes than a run makes.
pub const MANY: usize = 1_000;

/// The words of a text, with blanks between them.
pub fn words_of(alloc: Global, text: &str) -> Result<Vec<String>, AllocError> {
    let mut words = Vec::new(alloc);
    for word in text.split_whitespace() {
        words.push(String::from_str(alloc, word)?)?;
    }
    Ok(words)
}

// As `clif_build` prints where no word asks for something else.
const AS_TEXT: Printing = Printing {
    types: TypeCheck::Checked,
    form: Form::Text,
};

impl Program<'_> {
    // Runs it over these writers, and answers its status.
    fn status(self, alloc: Global, out: &mut Limited, err: &mut Limited) -> Result<u8, AllocError> {
        let mut arguments = Vec::new(alloc);
        match self {
            Program::Build(_) => {}
            Program::Execute(_, text, _) => arguments = words_of(alloc, text)?,
            Program::Rows(words) => {
                for word in words {
                    arguments.push(String::from_str(alloc, word)?)?;
                }
            }
        }
        let arguments = arguments.as_slice();
        Ok(match self {
            Program::Build(script) => match Source::read(alloc, script, err) {
                Ok(source) => build(alloc, source, AS_TEXT, None, out, err),
                Err(status) => status,
            },
            Program::Execute(script, _, steps) => match Source::read(alloc, script, err) {
                Ok(source) => {
                    let options = Options {
                        steps,
                        is_traced: false,
                    };
                    let run = Run { arguments, options };
                    execute(alloc, &source, &run, None, out, err)
                }
                Err(status) => status,
            },
            Program::Rows(_) => print_rows(alloc, arguments, out, err)?,
        })
    }

    /// Runs it over writers that take so many writes; where memory was refused the test itself fails.
    pub fn run(self, alloc: Global, out_writes: usize, err_writes: usize) -> Result<Outcome, Fail> {
        let mut out = Limited::new(alloc, out_writes)?;
        let mut err = Limited::new(alloc, err_writes)?;
        let status = self.status(alloc, &mut out, &mut err)?;
        if err.bytes.as_slice() == b"no memory\n".as_slice() && status == 1 {
            Err("no memory")?;
        }
        Ok(Outcome {
            status,
            out: out.bytes,
            err: err.bytes,
        })
    }
}

// Runs `rows`, with the callback of the program: it answers the region of user id 7.
fn print_rows(
    alloc: Global,
    arguments: &[String],
    out: &mut Limited,
    err: &mut Limited,
) -> Result<u8, AllocError> {
    let region: RegionOf = Box::new(
        alloc,
        |set: &mut AliasRegionSet, _ty: Type, _slot: StackSlot, _offset: u32| -> Option<
            AliasRegion,
        > {
            match set.insert(AliasRegionData { user_id: 7 }) {
                Ok(region) => Some(region),
                Err(_) => None,
            }
        },
    )?;
    Ok(run(alloc, arguments, region, out, err))
}

/// What stands before `=>` in a row, a script, and what is expected of it.
pub fn parts(row: &str) -> Result<(&str, &str), Fail> {
    match row.split_once(" => ") {
        Some(parts) => Ok(parts),
        None => Err("no row")?,
    }
}

/// A text that is a script.
pub fn script_of(alloc: Global, text: &str) -> Result<Script, Fail> {
    match read(alloc, text) {
        Ok(script) => Ok(script),
        Err(_) => Err("no script")?,
    }
}

/// The function that a script makes.
pub fn function_of(alloc: Global, text: &str) -> Result<Function, Fail> {
    let Script {
        name,
        signature,
        config,
        answers: _,
        moves: _,
        region: _,
        calls,
        lines: _,
    } = script_of(alloc, text)?;
    let mut ctx = FunctionBuilderContext::new(alloc);
    Ok(replay(
        alloc,
        calls.as_slice(),
        name,
        signature,
        &mut ctx,
        config,
        None,
    )?)
}

/// The script that the calls of a script are written as.
pub fn rewritten(alloc: Global, script: &str) -> Result<String, Fail> {
    let read = script_of(alloc, script)?;
    let calls = read.calls.as_slice();
    Ok(write(alloc, &read.name, &read.signature, read.config, calls)?)
}

/// The script of the row of this name.
pub fn row_of(name: &str) -> Result<&'static str, Fail> {
    match row_text(name) {
        Some(text) => Ok(text),
        None => Err("no row")?,
    }
}
