//! Tests of the table of records of `clif_records`, beside a sorted map with the same specification.
#![tactic(auto)]

#[cfg(test)]
mod beside;
mod plain;
