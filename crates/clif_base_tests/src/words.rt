//! Tests of `clif_words`, of what no clause says: which words are refused, and that calls succeed. The values are those
//! that docs/SCRIPTS.md gives.
#![tactic(auto)]

mod lines;
mod spellings;
