//! Tests of `cranelift_frontend`: the builder's calls that are made directly, and each method that makes an instruction.
#![tactic(auto)]

#[cfg(test)]
mod asserted;
#[cfg(test)]
mod calls;
#[cfg(test)]
mod fixture;
#[cfg(test)]
mod instructions;
