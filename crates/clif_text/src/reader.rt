//! A script's text, read line by line.
ghost use Rattle.std.specs.Prelude.{◌≡◌, ◌≢◌, ◌++◌, ◌∷◌, [], ℕ, List, IfOk, IfErr, IfNone, IfSome, OnOk, codes, true};
ghost use Rattle.std.specs.List.{All};
ghost use Rattle.clif_words.specs.Cursor.{texts};
ghost use Rattle.clif_arguments.specs.Given.{is_declaration};
ghost use Rattle.clif_text.specs.Explanation.{ExplainsText};
ghost use Rattle.clif_text.specs.Reader.{IsUnreadLine, NamesAnswers, SaysLines, said_to};
ghost use Rattle.clif_text.specs.Script as script;

use crate::calls::{Answers, answers_of, call_of, refused_in_call};
use crate::explanation::{Explanation, hint_of};
use clif_arguments::header::{Header, is_header};
use clif_arguments::scope::{Scope, is_name};
use clif_calls::{Call, Moves, Name, OutsideAnswer};
use clif_region_kinds::RegionKind;
use clif_types::{Signature, TargetFrontendConfig, UserFuncName};
use clif_words::cursor::Cursor;
use clif_words::error::{Expected, Fault, LineError, ReadError};
use clif_words::words::{place_of, words_of};
use std::alloc::{AllocError, Global};

/// What a text says.
#[derive(Drop)]
pub struct Script {
    /// The function's name.
    pub name: UserFuncName,
    /// The function's signature.
    pub signature: Signature,
    /// The target.
    pub config: TargetFrontendConfig,
    /// How outside calls end in a run, in the order of the lines that say it.
    pub answers: Vec<OutsideAnswer>,
    /// How a collector moves in a run; `None`, where the text doesn't say it: it moves nothing.
    pub moves: Option<Moves>,
    /// How a callback answers that is asked for the alias regions of accesses to stack slots; `None`, where the text doesn't
    /// say it: there is no callback.
    pub region: Option<RegionKind>,
    /// The calls, in order.
    pub calls: Vec<Call>,
    /// For each call the number of its line; lines are numbered from 1 on.
    pub lines: Vec<usize>,
}

// What the lines so far say.
struct Reader<'a> {
    alloc: Global,
    header: Header,
    scope: Scope<'a>,
    calls: Vec<Call>,
    lines: Vec<usize>,
}

// By hand: a derived one is proved anew at each way out of a function that holds such a value.
impl Drop for Reader<'_> {
    fn drop(self) {
        let Reader {
            alloc: _,
            header: _,
            scope: _,
            calls: _,
            lines: _,
        } = self;
    }
}

impl<'a> Reader<'a> {
    ghost use Rattle.clif_text.specs.Reader.{IsCounted, LineAdds, RefusesWords, WordsSay};
    ghost use Rattle.clif_text.specs.Script.{IsScriptOf};

    fn new(alloc: Global) -> Reader<'a>
        ensures said { said_to result ≡ script.nothing_said }
        ensures counted { IsCounted result }
    {
        Reader {
            alloc,
            header: Header::new(alloc),
            scope: Scope::new(alloc),
            calls: Vec::new(alloc),
            lines: Vec::new(alloc),
        }
    }

    // What the lines said.
    fn script(self) -> Script
        ensures { IsScriptOf (said_to self.entry) result }
    {
        let config = self.header.config();
        let moves = self.header.moves();
        let region = self.header.region();
        let Reader {
            alloc,
            mut header,
            scope: _,
            calls,
            lines,
        } = self;
        let answers = header.take_answers(alloc);
        let (name, signature) = header.function(alloc);
        Script {
            name,
            signature,
            config,
            answers,
            moves,
            region,
            calls,
            lines,
        }
    }

    // Reads the line of this number.
    fn line(&mut self, number: usize, line: &'a str) -> Result<(), LineError<'a>>
        ensures ok { OnOk result (LineAdds line.now number self.old self.new) }
        ensures err { IfErr result (RefusesWords line.now) }
    {
        let words = words_of(self.alloc, line)?;
        let words = words.as_slice();
        if let Some((names, rest)) = parts_at_equals(words) {
            if names.is_empty() {
                return Err(LineError::wanted(Expected::AnswerName));
            }
            return self.call(number, names, rest);
        }
        match words.split_first() {
            None => Ok(()),
            Some((head, rest)) if is_header(head) => {
                self.header.read(self.alloc, head, &mut Cursor::new(rest))
            }
            Some(_) => self.call(number, &[], words),
        }
    }

    // Reads a call, after which its answers have these names.
    fn call(
        &mut self,
        number: usize,
        names: &[&'a str],
        words: &[&'a str],
    ) -> Result<(), LineError<'a>>
        ensures { OnOk result (WordsSay (texts names.now) (texts words.now) number self.old self.new) }
    {
        let call = call_of(self.alloc, words, &self.scope)?;
        let answers = answers_of(&call);
        self.scope.count(declares_variable(&call))?;
        give_names(&mut self.scope, self.calls.len(), names, answers)?;
        self.calls.push(call)?;
        self.lines.push(number)?;
        Ok(())
    }
}

// Where lines that are refused are at fault.
impl<'a> Reader<'a> {
    ghost use Rattle.clif_text.specs.Explanation.{ExplainsLine};

    // The place, from 0 on, of the word for which a line of these words is refused. There is none where memory is refused.
    fn refused_word(&mut self, words: &[&'a str]) -> Option<usize> {
        let Some((names, rest)) = parts_at_equals(words) else {
            return match words.split_first() {
                Some((head, rest)) if is_header(head) => self.refused_in_header(head, rest),
                _ => refused_in_call(self.alloc, words, &self.scope),
            };
        };
        if names.is_empty() {
            return Some(0);
        }
        match call_of(self.alloc, rest, &self.scope) {
            Ok(call) => Some(refused_name(names, answers_of(&call))),
            Err(_) => {
                let place = refused_in_call(self.alloc, rest, &self.scope)?;
                Some(place.saturating_add(names.len() + 1))
            }
        }
    }

    // The same of a header line, of which `head` is the first word.
    fn refused_in_header(&mut self, head: &'a str, rest: &[&'a str]) -> Option<usize> {
        let mut words = Cursor::new(rest);
        match self.header.read(self.alloc, head, &mut words) {
            Err(LineError::Fault(Fault::UnknownCall(_) | Fault::Repeated(_))) => Some(0),
            Err(LineError::Fault(fault)) => Some(words.refused(&fault).saturating_add(1)),
            Ok(()) | Err(LineError::Memory) => None,
        }
    }

    // Why a line that is refused for this fault can't be read. It isn't known where memory is refused.
    fn explanation(&mut self, line: &'a str, fault: Fault<'a>) -> Option<Explanation<'a>>
        ensures { IfSome result (ExplainsLine line.now fault.entry) }
    {
        let words = words_of(self.alloc, line).ok()?;
        let place = place_of(line, self.refused_word(words.as_slice())?);
        Some(Explanation {
            column: place.column(),
            found: place.word,
            expected: fault.expected(),
            hint: hint_of(words.as_slice(), place.word, fault),
        })
    }
}

// Whether the call declares a variable.
fn declares_variable(call: &Call) -> bool
    ensures { result ≡ is_declaration call.now }
{
    matches!(call, Call::DeclareVar { .. })
}

// The name that the word gives to an instruction, if it has an `@` before it and the call makes one.
fn instruction_name(word: &str, instruction: bool) -> Option<&str>
    ensures some { IfSome result (λ name. (instruction ≡ true) × (word.now ≡ codes "@" ++ name.now)) }
    ensures none { IfNone result ((name : List ℕ) → instruction ≡ true → word.now ≢ codes "@" ++ name) }
{
    if instruction {
        word.strip_prefix('@')
    } else {
        None
    }
}

// Gives names to the answers of the call at a place, in order.
fn give_names<'a>(
    scope: &mut Scope<'a>,
    place: usize,
    names: &[&'a str],
    answers: Answers,
) -> Result<(), LineError<'a>>
    ensures { OnOk result (NamesAnswers answers.instruction place (texts names.now) scope.old scope.new) }
{
    let mut given = 0;
    for word in names {
        if let Some(name) = instruction_name(word, answers.instruction) {
            scope.give(checked(name)?, Name { place, answer: 0 })?;
        } else if given < answers.names {
            let answer = given + usize::from(answers.instruction);
            scope.give(checked(word)?, Name { place, answer })?;
            given += 1;
        } else {
            return Err(LineError::Fault(Fault::TooManyNames(answers.names)));
        }
    }
    Ok(())
}

// The place, from 0 on, of the first name that can't be given to answers.
fn refused_name(names: &[&str], answers: Answers) -> usize {
    let mut given = 0;
    for (index, word) in names.iter().enumerate() {
        match instruction_name(word, answers.instruction) {
            Some(name) if is_name(name) => {}
            None if given < answers.names && is_name(word) => given += 1,
            _ => return index,
        }
    }
    names.len()
}

// The words before the first `=` and those behind it, if there is one.
fn parts_at_equals<'w, 'a>(words: &'w [&'a str]) -> Option<(&'w [&'a str], &'w [&'a str])>
    ensures some { IfSome result (λ parts. (texts words.now ≡ texts parts.0.now ++ (codes "=" ∷ texts parts.1.now)) × All (λ word. word ≢ codes "=") (texts parts.0.now)) }
    ensures none { IfNone result (All (λ word. word ≢ codes "=") (texts words.now)) }
{
    for (index, word) in words.iter().enumerate() {
        if *word == "=" {
            return Some((&words[..index], &words[index + 1..]));
        }
    }
    None
}

// The word, which may be given as a name.
fn checked(word: &str) -> Result<&str, LineError<'_>>
    ensures { IfOk result (λ name. name.now ≡ word.now) }
{
    if is_name(word) {
        Ok(word)
    } else {
        Err(LineError::wanted(Expected::AnswerName))
    }
}

// The lines of a text. They are pushed, since `collect` goes on where its first request is refused.
fn lines_of(alloc: Global, text: &str) -> Result<Vec<&str>, AllocError>
    ensures { IfOk result (λ lines. texts lines.items ≡ script.lines_of text.now) }
{
    let mut lines = Vec::new(alloc);
    for line in text.split('\n') {
        lines.push(line)?;
    }
    Ok(lines)
}

// A line that can't be read, and why.
#[derive(Drop)]
struct Unread<'a> {
    // what the lines before say
    reader: Reader<'a>,
    // from 1 on; 0 where memory was refused before the first line
    number: usize,
    line: &'a str,
    error: LineError<'a>,
}

// What all lines of a text say, or the first that can't be read.
fn read_lines<'a>(alloc: Global, text: &'a str) -> Result<Reader<'a>, Unread<'a>>
    ensures says { IfOk result (λ reader. SaysLines text.now (said_to reader)) }
    ensures unread { IfErr result (IsUnreadLine text.now) }
{
    let mut reader = Reader::new(alloc);
    let Ok(lines) = lines_of(alloc, text) else {
        return Err(Unread {
            reader,
            number: 0,
            line: "",
            error: LineError::Memory,
        });
    };
    for (index, line) in lines.iter().enumerate() {
        if let Err(error) = reader.line(index + 1, line) {
            return Err(Unread {
                reader,
                number: index + 1,
                line,
                error,
            });
        }
    }
    Ok(reader)
}

/// Reads a script. The format is described in docs/SCRIPTS.md.
///
/// # Errors
///
/// `ReadError::Line` tells the first line that can't be read, and why; `ReadError::Memory` that memory was
/// refused.
pub fn read(alloc: Global, text: &str) -> Result<Script, ReadError<'_>>
    ensures says { IfOk result (script.SaysScript text.now) }
    ensures line { IfErr result (script.TellsLine text.now) }
{
    match read_lines(alloc, text) {
        Ok(reader) => Ok(reader.script()),
        Err(unread) => Err(unread.error.at(unread.number)),
    }
}

/// Where the first line of a text that can't be read is at fault, and what helps. There is nothing to explain where the text
/// is a script, or where memory is refused.
pub fn explain(alloc: Global, text: &str) -> Option<Explanation<'_>>
    ensures { IfSome result (ExplainsText text.now) }
{
    let Err(unread) = read_lines(alloc, text) else {
        return None;
    };
    let Unread {
        mut reader,
        number: _,
        line,
        error,
    } = unread;
    match error {
        LineError::Fault(fault) => reader.explanation(line, fault),
        LineError::Memory => None,
    }
}
