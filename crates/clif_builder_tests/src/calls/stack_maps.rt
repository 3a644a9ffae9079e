//! What `finalize` spills, the stack maps that it makes and the alias regions that it asks for, by the texts of functions.
#![tactic(auto)]

mod callbacks;
mod kept;
mod regions;
mod rows;
mod tally;
mod upstream;
