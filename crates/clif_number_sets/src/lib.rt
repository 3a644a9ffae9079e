//! Sets of numbers below a size, as words of 64 bits.
//!
//! Number `n` is bit `n % 64` of word `n / 64`. A [`NumberSet`](number_set::NumberSet) has a bit for each number, and is
//! made once, to work in. A [`NumberRow`](number_row::NumberRow) only grows, and keeps the words between its least and its
//! greatest member: many rows whose members are near one another take little memory. Contracts see both as a list of
//! marks, one for each number (`specs/Sets.antt`).
#![tactic(auto)]

pub mod number_row;
pub mod number_set;
mod word_run;
mod words;
