//! Variables on paths: why the values that SSA construction answers are right.
//!
//! This crate holds laws alone. Each public function has an empty body; its contract names a statement of `specs/`,
//! and the check proves it. A caller has that statement as what the call ensures.
//!
//! Read `specs/` in this order: `Places` (places, arms, paths, domination), `State` (the tables of a program and of a
//! function under construction), `Denotation` (what variables, names and values denote on a path), `Sound` (when the
//! one side stands for the other), `Steps` (how a state grows) and `Laws` (what holds after any steps); then `Blocks`,
//! `ValueLabels`, `BlockLaws` and `LookUp` (the same for tables kept by block, the labels of their values, and the stack
//! of a look-up), `Labels`, `Runs` and `LabelLaws` (types, marks and bits along paths) and `Shape` (the structure of
//! blocks, reached or not); `Moves`, `MoveLaws`, `Examples` and `Failures` show that the laws aren't empty.
#![tactic(auto)]

pub mod blocks;
pub mod conclusion;
pub mod engine;
pub mod examples;
pub mod execution;
pub mod failures;
pub mod labels;
pub mod look_up;
pub mod runs;
pub mod steps;
pub mod structure;
