//! Laws of the builder's calls that make a constant as an operand: `iadd_imm_s` and `icmp_imm_s`.
#![tactic(auto)]

pub mod laws;
