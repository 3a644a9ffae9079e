//! Tests of `cranelift_frontend`: the builder's calls that are made directly, by tables of steps, and the texts of errors.
//!
//! They are what scripts don't say: queries, source places and labels as they are read, the cursor, an instruction by its
//! shape, a generic caller, what holds after a refusal, marks for stack maps, and the stack maps themselves. The other calls
//! of `FunctionBuilder` are made by `clif_replay`, for the scripts of `clif_script_tests` and `clif_agreement_tests`:
//! `use_var`, `def_var`, `append_block_params_for_function_returns`, `insert_block_after`, `set_cold_block`,
//! `ensure_inserted_block` and `block_call`. `instructions` makes each instruction by its method, and the
//! jump table and the exception tables that some of them take.
#![tactic(auto)]

mod building;
mod built;
mod entries;
mod front_end;
mod generic;
mod marks;
mod notes;
mod queries;
mod refusals;
mod stack_maps;
mod steps;
mod tracked;
mod try_calls;
mod variables;
