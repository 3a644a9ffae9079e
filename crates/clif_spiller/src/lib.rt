//! The spiller: it keeps references that live across calls in stack slots, which a collector finds by stack maps.
//!
//! A value that is live across a call, and that a collector may have to move, is stored in a stack slot right after it
//! is given, and reloaded from there before each use; the slot is named by the stack map of each such call. Which
//! values those are says the liveness analysis of `clif_safepoints`, and which slot each gets `clif_stack_slots`. The
//! order in which slots are taken and instructions inserted is Cranelift's (`SafepointSpiller` of cranelift-frontend).
#![tactic(auto)]

mod accesses;
mod blocks;
mod definitions;
mod landing;
mod maps;
mod plan;
pub mod spiller;
mod uses;

pub use spiller::SafepointSpiller;
