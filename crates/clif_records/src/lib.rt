//! What the construction of SSA form keeps: variables, their records, predecessors, and the stacks of a look-up.
//!
//! Each table is seen by contracts as plain data: the records as a finite map (`specs/Tables`), which one hash map
//! keeps (`specs/Records`); the blocks as a list of what is known of each, for which rows and one table of what waits stand
//! (`specs/Waiting`); the blocks that a walk passes as a list
//! (`specs/Passed`); a look-up that is under way as its stacks, the top of each first (`specs/Stacks`); and what a collector
//! that moves objects must know as two sets (`specs/Tracking`). Nothing here knows a function: `clif_ssa` above does.
#![tactic(auto)]

pub mod look_up;
mod page_key;
pub mod passed;
mod runs;
pub mod side_effects;
pub mod tables;
pub mod tracking;
pub mod variable;
pub mod waiting;

pub use side_effects::SideEffects;
pub use variable::Variable;
