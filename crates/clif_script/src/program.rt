//! A function from the text of a script: `build` is the program `clif_build` over two writers.
ghost use Rattle.std.specs.Prelude.{◌≡◌, ◌<◌, IfOk, IfSome, OnOk};
ghost use Rattle.clif_script.specs.Program.{HasTypesAs, IsAccepted, MakesFunction};

use crate::constants::cut_constant;
use crate::source::{Source, tell_unread};
use clif_calls::{Call, Name};
use clif_check::{CheckError, check};
use clif_graph::Graph;
use clif_ir::Function;
use clif_regions::RegionOf;
use clif_replay::{Condition, FunctionBuilderContext, ReplayError, ReplayNotes, replay_noted};
use clif_text::{Hint, ReadError, Script};
use clif_type_messages::type_message;
use clif_words::words::words_of;
use std::alloc::{AllocError, Global};
use std::{fmt, io};

/// Whether the types of a function's instructions are checked before it is printed.
#[derive(Clone, Copy, PartialEq, Eq)]
pub enum TypeCheck {
    /// They are, by [`check`].
    Checked,
    /// They aren't.
    Unchecked,
}

/// As what a function is printed.
#[derive(Clone, Copy, PartialEq, Eq)]
pub enum Form {
    /// As its text.
    Text,
    /// As its control-flow graph, in the language DOT (`clif_graph`).
    Graph,
}

/// How a function is printed.
#[derive(Clone, Copy, PartialEq, Eq)]
pub struct Printing {
    /// Whether its types are checked before.
    pub types: TypeCheck,
    /// As what it is printed.
    pub form: Form,
}

/// Builds the function of a script and prints it to `out` in this form. Answers the exit status. `region`, which may be called
/// with every argument, is asked for the alias regions of the accesses that spills make; a program makes it as the script's
/// [`Source::region`] says.
///
/// | Status | When |
/// |---|---|
/// | 0 | the function was finished and printed to `out`, and to `err` a line for each constant that was cut, as `note: line 3: iconst.i8 4000 is cut to -96` |
/// | 1 | the function couldn't be built, and `err` has the reason, as `misuse at call 3` and then `line 12: jump b1: block1 is sealed`, or `refused at call 4` and then `at the end: block0 isn't filled`; or its types are checked, and `err` has an instruction that isn't well typed, as `inst2: iadd: the second operand is i64, i32 is needed`; or memory or a write was refused |
/// | 2 | of [`Source::read`]: the bytes are no script, and `err` has the reason, as `script error at line 12: expected a block`, and then where the line can't be read ([`Explanation`](clif_text::Explanation)) |
///
/// Nothing is printed to `out` unless the function was finished. Where a write fails, what was written before
/// it stays written.
pub fn build<O: io::Write, E: io::Write>(
    alloc: Global,
    source: Source<'_>,
    printing: Printing,
    region: Option<RegionOf>,
    out: &mut O,
    err: &mut E,
) -> u8
    requires callable { IfSome region RegionOf.IsAlwaysCallable }
    ensures status { result < 3 }
    ensures accepted { result ≡ 0 → IsAccepted printing.types source.entry.text.now
        region (λ ask. RegionOf.post ask) }
{
    let Source { text, script } = source;
    match build_script(alloc, text, script, printing, region, out, err) {
        Ok(status) => status,
        Err(_) => 1,
    }
}

fn build_script<O: io::Write, E: io::Write>(
    alloc: Global,
    text: &str,
    script: Script,
    printing: Printing,
    region: Option<RegionOf>,
    out: &mut O,
    err: &mut E,
) -> io::Result<u8>
    requires callable { IfSome region RegionOf.IsAlwaysCallable }
    ensures status { IfOk result (λ status. status < 3) }
    ensures makes { IfOk result (λ status. status ≡ 0 → MakesFunction printing.types script
        region (λ ask. RegionOf.post ask)) }
{
    let Script {
        name,
        signature,
        config,
        answers: _,
        moves: _,
        region: _,
        calls,
        lines,
    } = script;
    let mut ctx = FunctionBuilderContext::new(alloc);
    let notes = Notes {
        calls: calls.as_slice(),
        lines: lines.as_slice(),
    };
    let mut told = ReplayNotes::new(alloc);
    let func = match replay_noted(
        alloc,
        notes.calls,
        name,
        signature,
        &mut ctx,
        config,
        region,
        &mut told,
    ) {
        Ok(func) => func,
        Err(error) => return tell_unbuilt(alloc, error, told.condition, text, notes.lines, err),
    };
    show(alloc, &func, printing, &notes, out, err)
}

// Prints a function, unless its types are checked and wrong. It is made into a text before anything is printed, so that
// nothing is where memory is refused.
fn show<O: io::Write, E: io::Write>(
    alloc: Global,
    func: &Function,
    printing: Printing,
    notes: &Notes<'_>,
    out: &mut O,
    err: &mut E,
) -> io::Result<u8>
    ensures status { IfOk result (λ status. status < 3) }
    ensures typed { IfOk result (λ status. status ≡ 0 → HasTypesAs printing.types func.now) }
{
    if let Err(error) = check_as(printing.types, func) {
        return tell_ill_typed(func, error, err);
    }
    let Ok(printed) = printed(alloc, func, printing.form) else {
        return tell_unread(ReadError::Memory, err);
    };
    write!(err, "{notes}")?;
    out.write_all(printed.as_bytes())?;
    Ok(0)
}

// What is printed of a function.
fn printed(alloc: Global, func: &Function, form: Form) -> Result<String, AllocError> {
    match form {
        Form::Text => {
            let shown = func.display();
            format!(in alloc; "{shown}")
        }
        Form::Graph => {
            let graph = Graph::of(alloc, func)?;
            format!(in alloc; "{graph}")
        }
    }
}

// Checks the types of a function, if they are to be.
fn check_as(types: TypeCheck, func: &Function) -> Result<(), CheckError>
    ensures { OnOk result (HasTypesAs types func.now) }
{
    match types {
        TypeCheck::Checked => check(func),
        TypeCheck::Unchecked => Ok(()),
    }
}

// Tells which instruction isn't well typed.
fn tell_ill_typed<E: io::Write>(func: &Function, error: CheckError, err: &mut E) -> io::Result<u8>
    ensures { IfOk result (λ status. status ≡ 1) }
{
    match type_message(func, error) {
        Some(message) => writeln!(err, "{message}")?,
        None => writeln!(err, "{error}")?,
    }
    Ok(1)
}

/// The notes on a script: a line for each constant that is cut, as `note: line 3: iconst.i8 4000 is cut to -96`.
#[derive(Clone, Copy)]
pub(crate) struct Notes<'a> {
    pub(crate) calls: &'a [Call],
    // the line of each call
    pub(crate) lines: &'a [usize],
}

impl fmt::Display for Notes<'_> {
    fn fmt<W: fmt::Write>(&self, f: &mut fmt::Formatter<W>) -> fmt::Result {
        for (call, number) in self.calls.iter().zip(self.lines.iter()) {
            if let Some(cut) = cut_constant(call) {
                writeln!(f, "note: line {number}: {cut}")?;
            }
        }
        Ok(())
    }
}

// Tells why a function couldn't be built, and the line of the call, with the condition that doesn't hold.
pub(crate) fn tell_unbuilt<E: io::Write>(
    alloc: Global,
    error: ReplayError,
    condition: Option<Condition>,
    text: &str,
    lines: &[usize],
    err: &mut E,
) -> io::Result<u8>
    ensures { IfOk result (λ status. status ≡ 1) }
{
    writeln!(err, "{error}")?;
    match error {
        ReplayError::Misuse(place) | ReplayError::Refused(place) => {
            tell_condition(alloc, place, condition, text, lines, err)?;
        }
        ReplayError::Memory | ReplayError::Full => {}
    }
    Ok(1)
}

// Tells the line of a misused or refused call, or that it is the end, and which condition doesn't hold.
fn tell_condition<E: io::Write>(
    alloc: Global,
    place: usize,
    condition: Option<Condition>,
    text: &str,
    lines: &[usize],
    err: &mut E,
) -> io::Result<()> {
    let Some(condition) = condition else {
        return tell_call(place, text, lines, err);
    };
    let Some(number) = lines.get(place) else {
        return writeln!(err, "at the end: {condition}");
    };
    let line = line_of(text, *number);
    writeln!(err, "line {number}: {line}: {condition}")?;
    let Some(name) = no_value(condition) else {
        return Ok(());
    };
    let declaration = match lines.get(name.place) {
        Some(number) => line_of(text, *number),
        None => "",
    };
    match variable_named(alloc, declaration, line, name) {
        Ok(Some(word)) => {
            let hint = Hint::Variable(word);
            writeln!(err, "{hint}")
        }
        _ => Ok(()),
    }
}

// The answer that a call takes as a value and that is none.
fn no_value(condition: Condition) -> Option<Name> {
    match condition {
        Condition::NoValue(name) => Some(name),
        _ => None,
    }
}

// The word of a line that names this answer, if that is the variable of a declaration: `$P.K`, or the name that the
// declaration gives.
fn variable_named<'a>(
    alloc: Global,
    declaration: &'a str,
    line: &'a str,
    name: Name,
) -> Result<Option<&'a str>, AllocError> {
    let Name { place, answer } = name;
    let declared = words_of(alloc, declaration)?;
    let given = match declared.as_slice() {
        [head, ..] if *head == "declare_var" => None,
        [given, equals, head, ..] if *equals == "=" && *head == "declare_var" => Some(*given),
        _ => return Ok(None),
    };
    if answer != 0 {
        return Ok(None);
    }
    let numbered = format!(in alloc; "${place}.{answer}")?;
    let mut named = None;
    for word in words_of(alloc, line)?.iter() {
        if *word == numbered.as_str() {
            return Ok(Some(*word));
        }
        if given == Some(*word) {
            named = given;
        }
    }
    Ok(named)
}

// Tells the line of the call at a place.
pub(crate) fn tell_call<E: io::Write>(
    place: usize,
    text: &str,
    lines: &[usize],
    err: &mut E,
) -> io::Result<()> {
    match lines.get(place) {
        Some(number) => {
            let line = line_of(text, *number);
            writeln!(err, "line {number}: {line}")
        }
        None => writeln!(err, "at the end"),
    }
}

// The line with this number, without blanks at its ends.
fn line_of(text: &str, number: usize) -> &str {
    match text.split('\n').nth(number.saturating_sub(1)) {
        Some(line) => line.trim_ascii(),
        None => "",
    }
}
