//! Tests of the memory helpers: the texts of what they build, which are upstream's or worked out by hand.
#![tactic(auto)]

mod asserted;
mod comparing;
mod fixture;
mod moving;
