//! Tests of `clif_access_plans`. Sizes, types and constants are those of Cranelift's tests of its memory helpers and of the worked
//! rows of copies, fills and comparisons.
#![tactic(auto)]

mod comparing;
mod moving;
