//! The words of a line.
ghost use Rattle.std.specs.Prelude.{◌≡◌, ◌≢◌, ◌≤◌, ◌<◌, ◌++◌, List, ℕ, length, take, drop, slice_index, map, IfOk, MatchOption};
ghost use Rattle.std.specs.Str.{IsCharBoundary};
ghost use Rattle.clif_words.specs.Words.{kind_of, AllOf, AreWords, BeginsNoWord, EndsLine, IsPlace, IsWord};

use std::alloc::{AllocError, Global};

/// What a byte is to a line.
#[derive(Clone, Copy, Debug, PartialEq, Eq)]
pub enum Kind {
    /// It stands between words.
    Blank,
    /// It is a word of its own.
    Mark,
    /// It and what follows are left out.
    Comment,
    /// It belongs to a word.
    Plain,
}

fn byte_kind(byte: u8) -> Kind
    ensures { result ≡ kind_of byte }
{
    match byte {
        b' ' | b',' | b'\t' | b'\r' | b'\x0c' => Kind::Blank,
        b'(' | b')' | b'=' => Kind::Mark,
        b'#' => Kind::Comment,
        _ => Kind::Plain,
    }
}

// How many bytes of this kind stand at the front.
fn front_len(bytes: &[u8], wanted: Kind) -> usize
    ensures within { result ≤ length bytes.now }
    ensures same { AllOf wanted (take result bytes.now) }
    ensures other { result < length bytes.now → kind_of (slice_index bytes.now result) ≢ wanted }
{
    for (index, byte) in bytes.iter().enumerate() {
        if byte_kind(*byte) != wanted {
            return index;
        }
    }
    bytes.len()
}

// How many bytes the word has that the text begins with; 0 where no word begins there.
fn word_len(text: &str) -> usize
    ensures cut { IsCharBoundary text.now result }
    ensures word { 0 < result → IsWord (take result text.now) (drop result text.now) }
    ensures none { result ≡ 0 → BeginsNoWord text.now }
{
    let bytes = text.as_bytes();
    let Some(first) = bytes.first() else {
        return 0;
    };
    match byte_kind(*first) {
        Kind::Mark => 1,
        Kind::Plain => front_len(bytes, Kind::Plain),
        Kind::Blank | Kind::Comment => 0,
    }
}

// The text behind the blanks at its front.
fn without_blanks(text: &str) -> &str
    ensures { (blanks : List ℕ) × (text.now ≡ blanks ++ result.now) × AllOf Kind.Blank blanks × (0 < length result.now → kind_of (slice_index result.now 0) ≢ Kind.Blank) }
{
    let start = front_len(text.as_bytes(), Kind::Blank);
    &text[start..]
}

// The first word of a line and what follows it, if there is one.
fn first_word(line: &str) -> Option<(&str, &str)>
    ensures { MatchOption result (EndsLine line.now) (λ found. (blanks : List ℕ) × (line.now ≡ blanks ++ (found.0.now ++ found.1.now)) × AllOf Kind.Blank blanks × IsWord found.0.now found.1.now) }
{
    let text = without_blanks(line);
    let len = word_len(text);
    if len == 0 {
        return None;
    }
    Some(text.split_at(len))
}

/// The words of a line, in order.
///
/// # Errors
///
/// `AllocError`, where memory is refused.
pub fn words_of(alloc: Global, line: &str) -> Result<Vec<&str>, AllocError>
    ensures { IfOk result (λ words. AreWords (map (λ word. word.now) words.items) line.now) }
{
    let mut words = Vec::new(alloc);
    let mut rest = line;
    while let Some((word, after)) = first_word(rest) {
        words.push(word)?;
        rest = after;
    }
    Ok(words)
}

/// Where a word is in its line.
#[derive(Clone, Copy, Debug)]
pub struct WordPlace<'a> {
    /// What comes before it; up to the end of the last word, if the line has no such word.
    pub before: &'a str,
    /// The word, if the line has it.
    pub word: Option<&'a str>,
}

impl WordPlace<'_> {
    ghost use Rattle.std.specs.Prelude.{◌+◌};
    ghost use Rattle.std.specs.Str.{chars};

    /// The column: 1 more than there are characters before it.
    pub fn column(&self) -> usize
        ensures { result ≡ length (chars self.now.before.now) + 1 }
    {
        self.before.chars().count() + 1
    }
}

// What comes before this word of a line and what follows it.
fn before<'a>(line: &'a str, word: &str, after: &str) -> &'a str
    requires { (front : List ℕ) × (line.now ≡ front ++ (word.now ++ after.now)) }
    ensures { line.now ≡ result.now ++ (word.now ++ after.now) }
{
    &line[..line.len() - after.len() - word.len()]
}

/// Where the word with this index, from 0 on, is in the line.
pub fn place_of(line: &str, index: usize) -> WordPlace<'_>
    ensures { IsPlace index line.now result }
{
    let mut left = index;
    let mut rest = line;
    while let Some((word, after)) = first_word(rest) {
        if left == 0 {
            return WordPlace {
                before: before(line, word, after),
                word: Some(word),
            };
        }
        left -= 1;
        rest = after;
    }
    WordPlace {
        before: before(line, "", rest),
        word: None,
    }
}
