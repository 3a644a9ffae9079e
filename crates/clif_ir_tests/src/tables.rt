//! Tests of `clif_tables`: printed lines, as the printer's rules give them, and each public call on its plain path.
#![tactic(auto)]

mod callees;
mod edges;
mod labels;
mod lines;
mod numbers;
mod stack_maps;
mod steps;
