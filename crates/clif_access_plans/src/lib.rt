//! How memory helpers are made: copies, fills and comparisons of a known size by loads and stores, or by a call of a function of
//! the C library. Pure functions of sizes and alignments; the instructions are built elsewhere.
#![tactic(auto)]

pub mod comparing;
pub mod laws;
pub mod moving;

pub use comparing::{ComparePlan, is_aligned_load, plan_compare};
pub use moving::{Accesses, MovePlan, fits_pointer, may_move, plan_move, repeated_byte};
