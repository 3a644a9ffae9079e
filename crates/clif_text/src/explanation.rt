//! What is printed of a line that can't be read, after the reason.
ghost use Rattle.std.specs.Prelude.{IfSome, Some};
ghost use Rattle.clif_text.specs.Explanation.{FitsFault, IsOfLine, IsVariableWord, NamesVariable, explanation_text, found_text, hint_line, hint_text};

use clif_words::error::{Expected, Fault};
use clif_words::number::decimal;
use std::fmt;

/// Where a line can't be read, what should be there, and what helps. It prints as lines, each with its end:
/// ``column 14: found `i33`, expected a type`` or `column 20: the line ends, expected a value`, and the hint.
#[derive(Clone, Copy, Debug)]
pub struct Explanation<'a> {
    /// The column where the word begins, or where the last word ends: 1 more than there are characters before.
    pub column: usize,
    /// The word; none where the line ends.
    pub found: Option<&'a str>,
    /// What should be there.
    pub expected: Expected,
    /// What helps, if the line looks as if something else was meant.
    pub hint: Option<Hint<'a>>,
}

// What is at the place: the word, or that the line ends.
#[derive(Clone, Copy)]
struct FoundText<'a>(Option<&'a str>);

impl fmt::Display for FoundText<'_> {
    ghost output = { λ text. Some (found_text text.0) };

    fn fmt<W: fmt::Write>(&self, f: &mut fmt::Formatter<W>) -> fmt::Result {
        match self.0 {
            Some(word) => write!(f, "found `{word}`"),
            None => f.write_str("the line ends"),
        }
    }
}

// The line of a hint, if there is one.
#[derive(Clone, Copy)]
struct HintLine<'a>(Option<Hint<'a>>);

impl fmt::Display for HintLine<'_> {
    ghost output = { λ line. Some (hint_line line.0) };

    fn fmt<W: fmt::Write>(&self, f: &mut fmt::Formatter<W>) -> fmt::Result {
        match self.0 {
            Some(hint) => writeln!(f, "{hint}"),
            None => f.write_str(""),
        }
    }
}

impl fmt::Display for Explanation<'_> {
    ghost output = { λ explanation. Some (explanation_text explanation) };

    fn fmt<W: fmt::Write>(&self, f: &mut fmt::Formatter<W>) -> fmt::Result {
        let Explanation {
            column,
            found,
            expected,
            hint,
        } = self;
        let found = FoundText(*found);
        let hint = HintLine(*hint);
        write!(f, "column {column}: {found}, expected {expected}\n{hint}")
    }
}

/// What may have been meant by a line that can't be read.
#[derive(Clone, Copy, Debug, PartialEq, Eq)]
pub enum Hint<'a> {
    /// The value of this variable. It prints as `v is a variable: use_var v`.
    Variable(&'a str),
    /// A comment, by `;`.
    Comment,
    /// A block that begins, as in a `.clif` file.
    Block,
    /// A function that begins or ends, as in a `.clif` file.
    Brace,
    /// Another name of a value, as in a `.clif` file.
    Alias,
}

impl fmt::Display for Hint<'_> {
    ghost output = { λ hint. Some (hint_text hint) };

    fn fmt<W: fmt::Write>(&self, f: &mut fmt::Formatter<W>) -> fmt::Result {
        match self {
            Hint::Variable(name) => write!(f, "{name} is a variable: use_var {name}"),
            Hint::Comment => f.write_str("a script has no `;` comments: `#` begins one"),
            Hint::Block => f.write_str(
                "this is a line of a .clif file: in a script `switch_to_block b` begins a block",
            ),
            Hint::Brace => {
                f.write_str("this is a line of a .clif file: a script has no `{` and no `}`")
            }
            Hint::Alias => f.write_str(
                "this is a line of a .clif file: a script has no second names of values",
            ),
        }
    }
}

// The number of a word of the form `varN`.
fn variable_number(word: &str) -> Option<usize>
    ensures { IfSome result (IsVariableWord word.now) }
{
    decimal(word.strip_prefix("var")?)
}

// The name of a variable, where a value should be.
fn variable_for_value<'a>(fault: Fault<'a>) -> Option<&'a str>
    ensures { IfSome result (NamesVariable fault.entry) }
{
    match fault {
        Fault::UnknownName(name, Expected::Value | Expected::ValueOrClose) => {
            variable_number(name)?;
            Some(name)
        }
        _ => None,
    }
}

// Whether the word is of the form `blockN`, with or without a colon.
fn is_block(word: &str) -> bool {
    match word.strip_suffix(':').unwrap_or(word).strip_prefix("block") {
        Some(digits) => decimal(digits).is_some(),
        None => false,
    }
}

// The words before a comment that begins with `;`.
fn without_comment<'w, 'a>(words: &'w [&'a str]) -> &'w [&'a str] {
    match words.iter().position(|word| word.contains(';')) {
        Some(end) => &words[..end],
        None => words,
    }
}

// What a line of a `.clif` file says that a script can't.
fn clif_hint<'a>(words: &[&'a str]) -> Option<Hint<'a>>
    ensures { IfSome result IsOfLine }
{
    let words = without_comment(words);
    let first = words.first()?;
    let last = words.last()?;
    if *last == "{" || *first == "}" {
        return Some(Hint::Brace);
    }
    if is_block(first) && last.ends_with(':') {
        return Some(Hint::Block);
    }
    match words.get(1) {
        Some(arrow) if *arrow == "->" => Some(Hint::Alias),
        _ => None,
    }
}

/// What may have been meant by a line of these words, which is refused for this fault at this word.
#[tactic(auto, using(crate::proofs::Hints::of_line_fits))]
pub(crate) fn hint_of<'a>(
    words: &[&'a str],
    found: Option<&'a str>,
    fault: Fault<'a>,
) -> Option<Hint<'a>>
    ensures { IfSome result (FitsFault fault.entry) }
{
    if let Some(hint) = clif_hint(words) {
        return Some(hint);
    }
    if found?.contains(';') {
        return Some(Hint::Comment);
    }
    Some(Hint::Variable(variable_for_value(fault)?))
}
