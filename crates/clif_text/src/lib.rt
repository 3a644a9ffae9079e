//! Scripts as text: `read` makes calls of a text, `explain` says where it can't be read, and `write` makes a text of calls.
#![tactic(auto)]

mod calls;
mod entries;
mod explanation;
mod immediate;
mod instructions;
mod memory;
mod outside;
mod reader;
mod switch;
mod throwing;
mod writer;

pub use clif_words::error::{Expected, Fault, ReadError};
pub use explanation::{Explanation, Hint};
pub use reader::{Script, explain, read};
pub use writer::{CallText, write};
