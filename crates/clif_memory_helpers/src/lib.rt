//! Memory helpers: copies, fills and comparisons of bytes, by loads and stores or by calls of the C library.
#![tactic(auto)]

pub mod accesses;
pub mod helpers;
pub mod laws;
pub mod library;

pub use helpers::MemoryHelpers;
