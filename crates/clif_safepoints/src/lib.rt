//! Safepoints: which recorded values are live across the calls of a function.
//!
//! A call is a safepoint: a collector may run there, and may move what the recorded values hold. [`liveness`] finds,
//! for each call that is reached, the recorded values that are live across it, for each block those that are live at its
//! front, and the order of the blocks in which a depth-first search leaves them. Its contract speaks of paths alone
//! (`specs/Liveness.antt`, `specs/Order.antt`, `specs/Analysis.antt`); how sets are kept is its own affair. [`contexts`]
//! finds a try call whose context is recorded, which no collector can serve.
#![tactic(auto)]

pub mod contexts;
mod fronts;
mod graph;
mod last_pass;
pub mod laws;
mod lists;
pub mod liveness;
mod reading;
mod recorded;
mod scan;
mod work_list;
