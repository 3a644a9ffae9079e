//! Tests of `clif_script` and `clif_text`, of what no clause says and no program prints: scripts that calls are written as, replays
//! with a context that served before, the condition for which a call is misused or refused, writers that refuse, and what functions hold. The
//! files in the folder `tests` have the cases that are a text in and a text out.
#![tactic(auto)]

#[cfg(test)]
mod blocks;
#[cfg(test)]
mod changes;
#[cfg(test)]
mod commands;
#[cfg(test)]
mod constants;
#[cfg(test)]
mod data;
#[cfg(test)]
mod entries;
#[cfg(test)]
mod explanations;
#[cfg(test)]
mod functions;
#[cfg(test)]
mod helpers;
#[cfg(test)]
mod instructions;
#[cfg(test)]
mod notes;
#[cfg(test)]
mod outside;
#[cfg(test)]
mod parameters;
#[cfg(test)]
mod placements;
#[cfg(test)]
mod refusals;
#[cfg(test)]
mod refused_writes;
#[cfg(test)]
mod replays;
#[cfg(test)]
mod support;
#[cfg(test)]
mod switches;
#[cfg(test)]
mod tables;
#[cfg(test)]
mod toys;
#[cfg(test)]
mod tries;
#[cfg(test)]
mod undefined;
#[cfg(test)]
mod written;
