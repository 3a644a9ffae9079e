//! The texts of what an instruction names: its operands, its edges, and of a call what it calls and where it goes.
//!
//! Nothing here takes memory or knows a function. It is proved that each call is safe and ends, and tested in
//! `clif_ir_tests` which text it writes.
#![tactic(auto)]

pub mod calls;
pub mod operands;
