//! The words of a program, and where they stand.
use crate::error::{Fault, ToyError};
use std::alloc::Global;
use std::fmt;

/// A place in a text, by line and column, both from 1 on. Columns count bytes. It prints as `3:14`.
#[derive(Clone, Copy, Debug, PartialEq, Eq)]
pub struct Place {
    pub line: usize,
    pub column: usize,
}

impl fmt::Display for Place {
    fn fmt<W: fmt::Write>(&self, f: &mut fmt::Formatter<W>) -> fmt::Result {
        let (line, column) = (self.line, self.column);
        write!(f, "{line}:{column}")
    }
}

/// A word, and where it begins.
#[derive(Clone, Copy)]
pub struct Token<'a> {
    pub text: &'a str,
    pub place: Place,
}

/// What a character is to a word.
#[derive(Clone, Copy, PartialEq, Eq)]
enum Class {
    /// It stands between words.
    Blank,
    /// It belongs to a name or a number.
    Word,
    /// It belongs to a comparison or an assignment.
    Relation,
    /// It is a word of its own.
    Mark,
    /// It stands in no program.
    Unknown,
}

fn class_of(character: char) -> Class {
    match character {
        ' ' | '\t' | '\r' => Class::Blank,
        'a'..='z' | 'A'..='Z' | '0'..='9' | '_' => Class::Word,
        '=' | '!' | '<' | '>' => Class::Relation,
        '(' | ')' | '{' | '}' | ',' | ';' | '+' | '-' | '*' | '/' | '%' => Class::Mark,
        _ => Class::Unknown,
    }
}

/// The words of a program, in order. What follows `#` on a line is left out.
///
/// # Errors
///
/// A character that stands in no program, and refused memory.
pub fn tokens_of(alloc: Global, text: &str) -> Result<Vec<Token<'_>>, ToyError<'_>> {
    let mut tokens = Vec::new(alloc);
    for (index, line) in text.lines().enumerate() {
        let code = match line.split_once('#') {
            Some((code, _)) => code,
            None => line,
        };
        push_line(&mut tokens, index.saturating_add(1), code)?;
    }
    Ok(tokens)
}

// Adds the words of a line.
fn push_line<'a>(
    tokens: &mut Vec<Token<'a>>,
    line: usize,
    code: &'a str,
) -> Result<(), ToyError<'a>> {
    let mut start = 0;
    let mut open = Class::Blank;
    for (index, character) in code.char_indices() {
        let class = class_of(character);
        let column = index.saturating_add(1);
        if class == Class::Unknown {
            return Err(ToyError::at(Place { line, column }, Fault::Character(character)));
        }
        if class != open || class == Class::Mark {
            push_word(tokens, line, start, code.get(start..index), open)?;
            start = index;
            open = class;
        }
    }
    push_word(tokens, line, start, code.get(start..), open)
}

// Adds a word that begins at this byte of a line, unless it is blank.
fn push_word<'a>(
    tokens: &mut Vec<Token<'a>>,
    line: usize,
    start: usize,
    text: Option<&'a str>,
    class: Class,
) -> Result<(), ToyError<'a>> {
    let Some(text) = text else {
        return Ok(());
    };
    if class == Class::Blank {
        return Ok(());
    }
    let column = start.saturating_add(1);
    tokens.push(Token {
        text,
        place: Place { line, column },
    })?;
    Ok(())
}

/// Whether a word is a name: it begins with a letter or `_`, and means nothing by itself.
pub fn is_name(text: &str) -> bool {
    let begins_so = match text.as_bytes().first() {
        Some(first) => first.is_ascii_alphabetic() || *first == b'_',
        None => false,
    };
    begins_so
        && !matches!(
            text,
            "fn" | "let" | "ref" | "while" | "if" | "else" | "return"
        )
}

/// Whether a word is a number: it begins with a digit.
pub fn is_number(text: &str) -> bool {
    match text.as_bytes().first() {
        Some(first) => first.is_ascii_digit(),
        None => false,
    }
}
