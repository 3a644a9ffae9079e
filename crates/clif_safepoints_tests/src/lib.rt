//! Tests of `clif_safepoints` and `clif_spiller`: what is live across calls and what is spilled, by hand and in random functions, of
//! which those that are spilled run beside what they were.
#![tactic(auto)]

#[cfg(test)]
mod contexts;
#[cfg(test)]
mod counts;
#[cfg(test)]
mod fits;
#[cfg(test)]
mod fronts;
#[cfg(test)]
mod paths;
#[cfg(test)]
mod random;
#[cfg(test)]
mod rows;
#[cfg(test)]
mod shapes;
#[cfg(test)]
mod slots;
#[cfg(test)]
mod spilled_rows;
#[cfg(test)]
mod spilled_runs;
#[cfg(test)]
mod spills;
#[cfg(test)]
mod steps;
#[cfg(test)]
mod well_placed;
