//! The control-flow graph of a function as a picture, in the language DOT of Graphviz: `dot -Tsvg` draws it.
//!
//! It is proved that each call is safe and ends, and tested which text is written.
#![tactic(auto)]

pub mod reached;
pub mod write;

pub use write::Graph;
