//! Programs: the functions of a text, and what is said of outside calls.
//!
//! ```text
//! program   = {"fn" name "(" [parameter {"," parameter}] ")" block | "answer" name ["-"] number ";" | moves}
//! parameter = ["ref"] name
//! moves     = "moves" ("add" ["-"] number | "one" | "events") ";"
//! ```
ghost use Rattle.std.specs.Prelude.{◌≡◌, ◌<◌, IfOk};
ghost use Rattle.toy_compiler.specs.Meaning.{MeansItsCalls, toy_signature};

use crate::error::{Fault, ToyError};
use crate::function::{Compiler, Kind};
use crate::parser::Parser;
use crate::tokens::{Token, tokens_of};
use clif_calls::{Call, Moves, OutsideAnswer};
use clif_ir::Function;
use clif_replay::{
    Condition, FunctionBuilderContext, ReplayError, ReplayNotes, replay, replay_noted,
};
use clif_types::types::I64;
use clif_types::{AbiParam, CallConv, PointerWidth, Signature, TargetFrontendConfig, UserFuncName};
use std::alloc::{AllocError, Global};
use std::{io, str};

/// The target of every function.
const TARGET: TargetFrontendConfig = TargetFrontendConfig {
    default_call_conv: CallConv::SystemV,
    pointer_width: PointerWidth::U64,
    page_size_align_log2: 12,
};

/// How many blocks, brackets and arms behind `else` may stand within one another.
const DEPTH: u32 = 200;

/// A parameter of a function.
#[derive(Clone, Copy)]
pub(crate) struct Parameter<'a> {
    pub(crate) name: &'a str,
    pub(crate) kind: Kind,
}

/// The name of a function, and its parameters.
#[derive(Drop)]
pub(crate) struct Header<'a> {
    pub(crate) name: &'a str,
    pub(crate) parameters: Vec<Parameter<'a>>,
}

/// A function of a program, as the calls that build it.
#[derive(Drop)]
pub struct CompiledFunction<'a> {
    /// Its name.
    pub name: &'a str,
    /// How many parameters it has.
    pub parameters: usize,
    /// The calls on the builder, in order.
    pub calls: Vec<Call>,
}

/// A program.
#[derive(Drop)]
pub struct Program<'a> {
    /// Its functions, in order.
    pub functions: Vec<CompiledFunction<'a>>,
    /// What outside calls of its functions return, where one of them is run. `answer gcd 12;` says that of `gcd`.
    pub answers: Vec<OutsideAnswer>,
    /// What a collector makes of references at each outside call, where a function is run.
    pub moves: Option<Moves>,
}

/// The program of a text.
///
/// # Errors
///
/// What is wrong with the text, and refused memory.
pub fn compile<'a>(alloc: Global, text: &'a str) -> Result<Program<'a>, ToyError<'a>> {
    let tokens = tokens_of(alloc, text)?;
    let headers = headers_of(alloc, tokens.as_slice())?;
    let mut parser = Parser::new(tokens.as_slice());
    let mut functions = Vec::new(alloc);
    let mut answers = Vec::new(alloc);
    let mut moves = None;
    for _ in 0..tokens.len() {
        if parser.left() == 0 {
            break;
        }
        if parser.skips("answer") {
            answers.push(take_answer(alloc, &mut parser, headers.as_slice())?)?;
        } else if parser.peek() == "fn" {
            functions.push(take_function(alloc, &mut parser, headers.as_slice())?)?;
        } else {
            moves = Some(take_moves(&mut parser, moves)?);
        }
    }
    Ok(Program {
        functions,
        answers,
        moves,
    })
}

// What the collector does, which is said once.
fn take_moves<'a>(
    parser: &mut Parser<'_, 'a>,
    earlier: Option<Moves>,
) -> Result<Moves, ToyError<'a>> {
    if parser.peek() != "moves" {
        return Err(parser.wanted("fn, answer or moves"));
    }
    if earlier.is_some() {
        return Err(parser.fault(Fault::Twice("moves")));
    }
    parser.take();
    let moves = if parser.skips("add") {
        Moves::Add(take_number(parser)?)
    } else if parser.skips("one") {
        Moves::One
    } else if parser.skips("events") {
        Moves::Events
    } else {
        return Err(parser.wanted("add, one or events"));
    };
    parser.expect(";")?;
    Ok(moves)
}

// A number, with `-` before it if it is negative.
fn take_number<'a>(parser: &mut Parser<'_, 'a>) -> Result<i64, ToyError<'a>> {
    let is_negative = parser.skips("-");
    let Ok(size) = parser.peek().parse::<i64>() else {
        return Err(parser.fault(Fault::Number));
    };
    parser.take();
    Ok(if is_negative {
        size.wrapping_neg()
    } else {
        size
    })
}

// A function, with its header.
fn take_function<'t, 'a>(
    alloc: Global,
    parser: &mut Parser<'t, 'a>,
    headers: &'t [Header<'a>],
) -> Result<CompiledFunction<'a>, ToyError<'a>> {
    let header = take_header(alloc, parser)?;
    let mut compiler = Compiler::new(alloc, *parser, headers);
    compiler.enter_function(header.parameters.as_slice())?;
    compiler.block(DEPTH)?;
    if compiler.is_open {
        return Err(compiler.parser.fault(Fault::MissingReturn));
    }
    if compiler.is_out_of_memory {
        return Err(ToyError::Memory);
    }
    *parser = compiler.parser;
    Ok(CompiledFunction {
        name: header.name,
        parameters: header.parameters.len(),
        calls: compiler.calls,
    })
}

// What the calls of a function return: its name, and a number.
fn take_answer<'a>(
    alloc: Global,
    parser: &mut Parser<'_, 'a>,
    headers: &[Header<'a>],
) -> Result<OutsideAnswer, ToyError<'a>> {
    let place = parser.place();
    let name = parser.name()?;
    if !headers.iter().any(|header| header.name == name) {
        return Err(ToyError::at(place, Fault::Unknown(name)));
    }
    let number = take_number(parser)?;
    parser.expect(";")?;
    let mut values = Vec::new(alloc);
    values.push(number)?;
    let callee = UserFuncName::testcase(String::from_str(alloc, name)?);
    Ok(OutsideAnswer {
        callee,
        item: None,
        values,
    })
}

// The headers of all functions, so that each function may call each other.
fn headers_of<'a>(alloc: Global, tokens: &[Token<'a>]) -> Result<Vec<Header<'a>>, ToyError<'a>> {
    let mut headers: Vec<Header<'a>> = Vec::new(alloc);
    let mut parser = Parser::new(tokens);
    for token in tokens {
        if token.text != "fn" {
            parser.take();
            continue;
        }
        let mut ahead = parser;
        let found = take_header(alloc, &mut ahead)?;
        if headers.iter().any(|header| header.name == found.name) {
            return Err(ToyError::at(token.place, Fault::Twice(found.name)));
        }
        headers.push(found)?;
        parser.take();
    }
    Ok(headers)
}

// `fn name(parameter, ref parameter, ..)`
fn take_header<'a>(alloc: Global, parser: &mut Parser<'_, 'a>) -> Result<Header<'a>, ToyError<'a>> {
    parser.expect("fn")?;
    let name = parser.name()?;
    parser.expect("(")?;
    let mut parameters: Vec<Parameter<'a>> = Vec::new(alloc);
    if parser.skips(")") {
        return Ok(Header { name, parameters });
    }
    for _ in 0..parser.left() {
        let kind = if parser.skips("ref") {
            Kind::Reference
        } else {
            Kind::Number
        };
        let place = parser.place();
        let parameter = Parameter {
            name: parser.name()?,
            kind,
        };
        if parameters.iter().any(|other| other.name == parameter.name) {
            return Err(ToyError::at(place, Fault::Twice(parameter.name)));
        }
        parameters.push(parameter)?;
        if parser.skips(")") {
            return Ok(Header { name, parameters });
        }
        parser.expect(",")?;
    }
    Err(parser.wanted("a name"))
}

/// The signature of a function with so many parameters.
pub(crate) fn signature_of(alloc: Global, parameters: usize) -> Result<Signature, AllocError>
    ensures { IfOk result (λ signature. signature ≡ toy_signature parameters) }
{
    let mut params = Vec::new(alloc);
    for _ in 0..parameters {
        params.push(AbiParam::new(I64))?;
    }
    let mut returns = Vec::new(alloc);
    returns.push(AbiParam::new(I64))?;
    Ok(Signature {
        params,
        returns,
        call_conv: CallConv::SystemV,
    })
}

impl CompiledFunction<'_> {
    /// Builds the function. It means what the calls mean that the compiler made, in every world that meets the premises.
    ///
    /// # Errors
    ///
    /// Those of [`replay`].
    pub fn build(&self, alloc: Global) -> Result<Function, ToyError<'static>>
        ensures { IfOk result (MeansItsCalls self.now) }
    {
        let name = String::from_str(alloc, self.name)?;
        let signature = signature_of(alloc, self.parameters)?;
        let mut ctx = FunctionBuilderContext::new(alloc);
        let name = UserFuncName::testcase(name);
        let calls = self.calls.as_slice();
        Ok(replay(alloc, calls, name, signature, &mut ctx, TARGET, None)?)
    }

    /// Why the function wasn't built, where a call was a misuse or refused: the condition that doesn't hold. It is built once
    /// more for that. There is none after another error, or where memory is refused.
    pub fn broken_condition(&self, alloc: Global, error: ToyError<'_>) -> Option<Condition> {
        match error {
            ToyError::Unbuilt(ReplayError::Misuse(_) | ReplayError::Refused(_)) => {}
            _ => return None,
        }
        let signature = signature_of(alloc, self.parameters).ok()?;
        let name = UserFuncName::user(0, 0);
        let mut ctx = FunctionBuilderContext::new(alloc);
        let mut notes = ReplayNotes::new(alloc);
        let calls = self.calls.as_slice();
        match replay_noted(
            alloc, calls, name, signature, &mut ctx, TARGET, None, &mut notes,
        ) {
            Ok(_) => None,
            Err(_) => notes.condition,
        }
    }

    /// Tells an error of this function: a line, and where a condition doesn't hold a second one, as `gcd: block1 is
    /// filled`.
    ///
    /// # Errors
    ///
    /// Where the writer refuses.
    pub fn tell<E: io::Write>(
        &self,
        alloc: Global,
        error: ToyError<'_>,
        err: &mut E,
    ) -> io::Result<()> {
        writeln!(err, "{error}")?;
        match self.broken_condition(alloc, error) {
            Some(condition) => {
                let name = self.name;
                writeln!(err, "{name}: {condition}")
            }
            None => Ok(()),
        }
    }
}

/// Prints each function of a program to `out`, with an empty line between two, and nothing unless all were built. Answers the
/// exit status.
///
/// | Status | When |
/// |---|---|
/// | 0 | all functions were printed |
/// | 1 | a function couldn't be built, or memory or a write was refused |
/// | 2 | the bytes are no program, and `err` has the reason |
pub fn print<O: io::Write, E: io::Write>(
    alloc: Global,
    bytes: &[u8],
    out: &mut O,
    err: &mut E,
) -> u8
    ensures { result < 3 }
{
    let Ok(text) = str::from_utf8(bytes) else {
        let _ = writeln!(err, "expected UTF-8 text");
        return 2;
    };
    match compile(alloc, text) {
        Ok(program) => print_functions(alloc, program.functions.as_slice(), out, err),
        Err(error) => {
            let _ = writeln!(err, "{error}");
            error.status()
        }
    }
}

// All functions are made into one text before anything is printed, so that nothing is where one is refused.
fn print_functions<O: io::Write, E: io::Write>(
    alloc: Global,
    functions: &[CompiledFunction<'_>],
    out: &mut O,
    err: &mut E,
) -> u8
    ensures { result < 3 }
{
    let mut text = String::new(alloc);
    for (index, function) in functions.iter().enumerate() {
        let gap = if index == 0 { "" } else { "\n" };
        if let Err(error) = add_function(alloc, function, gap, &mut text) {
            let _ = function.tell(alloc, error, err);
            return error.status();
        }
    }
    if out.write_all(text.as_bytes()).is_err() {
        let error = ToyError::Unwritten;
        let _ = writeln!(err, "{error}");
        return error.status();
    }
    0
}

// Adds the text of a function, behind a gap.
fn add_function(
    alloc: Global,
    function: &CompiledFunction<'_>,
    gap: &str,
    text: &mut String,
) -> Result<(), ToyError<'static>> {
    let built = function.build(alloc)?;
    let shown = built.display();
    let shown = format!(in alloc; "{gap}{shown}")?;
    text.push_str(shown.as_str())?;
    Ok(())
}
