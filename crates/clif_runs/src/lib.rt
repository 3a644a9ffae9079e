//! A script and the function that is built of it are run side by side, on the two interpreters of `clif_interpreter`: the
//! arguments of a run as words, outside calls answered by a table, and what is shown of both runs ([`compare`],
//! [`Report`]).
#![tactic(auto)]

pub mod arguments;
pub mod comparison;
pub mod options;
pub mod shown;
pub mod table;
pub mod trace;

pub use arguments::{ArgumentError, arguments_of};
pub use comparison::{Comparison, Given, Report, Verdict, compare};
pub use options::Options;
pub use shown::Shown;
pub use table::Answers;
pub use trace::{Numbering, Trace};
