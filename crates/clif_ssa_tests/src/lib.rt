//! Tests of `clif_records` and `clif_ssa`, of what no clause says: that calls succeed, what they make of a function's
//! text, and that long look-ups end in time.
#![tactic(auto)]

#[cfg(test)]
mod facts;
#[cfg(test)]
mod long;
#[cfg(test)]
mod marks;
#[cfg(test)]
mod moves;
#[cfg(test)]
mod predecessors;
#[cfg(test)]
mod programs;
#[cfg(test)]
mod records;
#[cfg(test)]
mod steps;
#[cfg(test)]
mod support;
#[cfg(test)]
mod undefined;
