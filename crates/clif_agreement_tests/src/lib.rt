//! Tests of what scripts and the functions that are built of them do when they run, on the two interpreters of
//! `clif_interpreter`, of what no program prints: memory, worlds that answer and throw, counts of branches, orders of sealing, and
//! what is told of functions alone. The expected answers are those of the documented meanings of instructions. The files in the
//! folder `tests` have the runs whose arguments and answers are texts.
#![tactic(auto)]

#[cfg(test)]
mod helpers;
#[cfg(test)]
mod library;
#[cfg(test)]
mod memory;
#[cfg(test)]
mod outside;
#[cfg(test)]
mod refusals;
#[cfg(test)]
mod sealing;
#[cfg(test)]
mod support;
#[cfg(test)]
mod switches;
