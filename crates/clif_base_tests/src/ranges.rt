//! Tests of `clif_ranges`, of what no clause says: that calls succeed. The cases are those of Cranelift's tests of `Switch`,
//! and the ranges those that their jump tables and comparisons show.
#![tactic(auto)]

mod cases;
mod search;
mod switches;
