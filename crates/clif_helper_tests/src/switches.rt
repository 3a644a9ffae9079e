//! Switches, made by the builder's calls: their texts, their refusals, and that what they make is accepted.
#![tactic(auto)]

mod asserted;
mod refusals;
mod texts;
mod whole;
