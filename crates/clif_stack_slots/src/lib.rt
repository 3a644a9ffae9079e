//! Stack slots of spilled values: one for each, which a later value of its size takes over once it is free.
//!
//! The spiller gives each value that a stack map names a slot when it meets the value's last use, and frees the slot
//! where the value is defined. Which slot a value gets is said by `specs/Slots.antt`.
#![tactic(auto)]

pub mod size;
pub mod slots;

pub use size::{SlotSize, SlotSizeMap};
pub use slots::StackSlots;
