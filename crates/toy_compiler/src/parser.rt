//! The words of a program, one after the other.
use crate::error::{Fault, ToyError};
use crate::tokens::{Place, Token, is_name};

/// The words, of which so many were taken.
#[derive(Clone, Copy)]
pub(crate) struct Parser<'t, 'a> {
    tokens: &'t [Token<'a>],
    taken: usize,
}

impl<'t, 'a> Parser<'t, 'a> {
    /// All words, none of them taken.
    pub(crate) fn new(tokens: &'t [Token<'a>]) -> Parser<'t, 'a> {
        Parser { tokens, taken: 0 }
    }

    /// How many words are left.
    pub(crate) fn left(&self) -> usize {
        self.tokens.len().saturating_sub(self.taken)
    }

    /// The next word; an empty one behind the last.
    pub(crate) fn peek(&self) -> &'a str {
        match self.tokens.get(self.taken) {
            Some(token) => token.text,
            None => "",
        }
    }

    /// Where the next word begins; behind the last one its place is told.
    pub(crate) fn place(&self) -> Place {
        let last = self.tokens.len().saturating_sub(1);
        match self.tokens.get(self.taken.min(last)) {
            Some(token) => token.place,
            None => Place { line: 1, column: 1 },
        }
    }

    /// Takes the next word.
    pub(crate) fn take(&mut self) -> &'a str {
        let text = self.peek();
        self.taken = self.taken.saturating_add(1);
        text
    }

    /// Takes the next word if it is this one.
    pub(crate) fn skips(&mut self, word: &str) -> bool {
        let is_next = self.peek() == word;
        if is_next {
            self.taken = self.taken.saturating_add(1);
        }
        is_next
    }

    /// Takes the next word, which is this one.
    pub(crate) fn expect(&mut self, word: &'static str) -> Result<(), ToyError<'a>> {
        if self.skips(word) {
            Ok(())
        } else {
            Err(self.wanted(word))
        }
    }

    /// Takes the next word, which is a name.
    pub(crate) fn name(&mut self) -> Result<&'a str, ToyError<'a>> {
        if is_name(self.peek()) {
            Ok(self.take())
        } else {
            Err(self.wanted("a name"))
        }
    }

    /// The error that something else should stand here.
    pub(crate) fn wanted(&self, what: &'static str) -> ToyError<'a> {
        self.fault(Fault::Expected(what))
    }

    /// The error that this is wrong here.
    pub(crate) fn fault(&self, fault: Fault<'a>) -> ToyError<'a> {
        ToyError::at(self.place(), fault)
    }
}
