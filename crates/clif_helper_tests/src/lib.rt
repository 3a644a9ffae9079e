//! Tests of what the builder makes of one call: switches, and copies, fills and comparisons of bytes. The texts are
//! upstream's or worked out by hand.
#![tactic(auto)]

#[cfg(test)]
mod asserted;
#[cfg(test)]
mod memory;
#[cfg(test)]
mod plans;
#[cfg(test)]
mod switches;
