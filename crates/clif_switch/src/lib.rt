//! Switches on the builder: the cases of a value, and the blocks and instructions that find them.
#![tactic(auto)]

pub mod emission;
pub mod laws;
pub mod switch;

pub use clif_ranges::SwitchError;
pub use switch::Switch;
