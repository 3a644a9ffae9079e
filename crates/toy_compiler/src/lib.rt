//! A compiler of a toy language, for a front-end author to copy: from a text to the calls on the builder, and from these
//! to functions.
//!
//! Every value is an integer of 64 bits, and may be a reference that a collector moves. A program is a list of functions. Each is compiled by itself: a call is an outside
//! call. `answer gcd 12;` says what calls of `gcd` return where a function is run; of two such lines the first counts.
//!
//! ```text
//! fn gcd(a, b) {
//!     while b != 0 {
//!         let r = a % b;
//!         a = b;
//!         b = r;
//!     }
//!     return a;
//! }
//! ```
//!
//! The parser makes calls as it reads, and keeps no tree: a variable of the language is one of the builder's, and the
//! builder finds which value each use means.
#![tactic(auto)]

mod error;
mod expressions;
mod function;
mod parser;
mod program;
mod statements;
mod tokens;

pub use clif_calls::OutsideAnswer;
pub use error::{Fault, ToyError};
pub use program::{CompiledFunction, Program, compile, print};
pub use tokens::Place;
