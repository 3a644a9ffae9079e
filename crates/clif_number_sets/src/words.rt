//! Slices of words: which of them have a bit, and the union of two.
ghost use Rattle.std.specs.Prelude.{◌≡◌, ℕ, ◌+◌, ◌*◌, ◌^◌, ◌<◌, ◌≤◌, false, length, replicate, IsTrue};
ghost use Rattle.clif_number_sets.specs.Words.{spread, word_of, AreUnited, HasNew, IsFirstUsed, IsNextMark, IsUsedEnd, LieWithin};

/// The number of the first word that has a bit, of those from `first` to before `end`.
pub(crate) fn first_used(words: &[u64], first: usize, end: usize) -> Option<usize>
    requires { end ≤ length words.now }
    ensures { IsFirstUsed words.now first end result }
{
    for number in first..end {
        if words[number] != 0 {
            return Some(number);
        }
    }
    None
}

/// The number after the last word that has a bit, or zero. It takes time for the words from there on.
pub(crate) fn used_end(words: &[u64]) -> usize
    ensures { IsUsedEnd words.now result }
{
    for number in (0..words.len()).rev() {
        if words[number] != 0 {
            return number + 1;
        }
    }
    0
}

/// The least marked place at or above `place`. It takes time for the words from there to the one found.
pub(crate) fn next_mark(words: &[u64], place: usize) -> Option<usize>
    requires { 64 * length words.now ≤ 2 ^ 64 }
    ensures { IsNextMark words.now place result }
{
    let number = place / 64;
    if number >= words.len() {
        return None;
    }
    let rest = words[number] >> (place % 64);
    if rest != 0 {
        return Some(place + rest.trailing_zeros() as usize);
    }
    first_mark(words, number + 1)
}

// The least marked place in the words from a number on.
fn first_mark(words: &[u64], start: usize) -> Option<usize>
    requires { 64 * length words.now ≤ 2 ^ 64 }
    ensures { IsNextMark words.now (64 * start) result }
{
    let next = first_used(words, start, words.len())?;
    Some(64 * next + words[next].trailing_zeros() as usize)
}

/// Adds the bits of the source to the words of the target from `start` on, and tells whether any of them is new.
pub(crate) fn join_words(target: &mut [u64], start: usize, source: &[u64]) -> bool
    requires { start + length source.now ≤ length target.old }
    ensures size { length target.new ≡ length target.old }
    ensures united { AreUnited target.old (spread start source.now) target.new }
    ensures grown { IsTrue result → HasNew target.old target.new }
    ensures unchanged { result ≡ false → target.new ≡ target.old }
{
    let mut grown = false;
    for number in 0..source.len() {
        let joined = target[start + number] | source[number];
        if joined != target[start + number] {
            target[start + number] = joined;
            grown = true;
        }
    }
    grown
}

/// Makes all words zero, where those outside a range are so. It takes time for the words of the range.
pub(crate) fn erase(words: &mut [u64], first: usize, end: usize)
    requires { LieWithin first end words.old }
    ensures { words.new ≡ replicate (length words.old) 0 }
{
    if first >= end {
        return;
    }
    words[first..end].fill(0);
}

/// Each word has no more than 64 bits.
pub(crate) fn law_fits(words: &[u64])
    ensures { (number : ℕ) → word_of words.now number < 2 ^ 64 }
{}
