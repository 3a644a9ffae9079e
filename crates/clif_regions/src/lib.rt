//! The alias regions of accesses to stack slots, which a callback of the caller's tells: the instructions from a number on are gone
//! through in the order in which they were inserted, and for each access the callback is asked once.
#![tactic(auto)]

pub mod asking;
pub mod callback;

pub use asking::ask_regions;
pub use callback::{Callback, RegionOf};
