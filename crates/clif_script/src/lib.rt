//! Scripts: `Call` and `replay`, the rows with the program that prints them, a function from the text of a script, and
//! runs of both.
#![tactic(auto)]

mod command;
mod constants;
mod execution;
mod helper_rows;
mod program;
mod row_texts;
mod rows;
mod source;
mod stack_map_rows;

pub use clif_calls::{
    Call, Edge, EntryCall, MemoryCall, Name, OutsideAnswer, OutsideCall, Passed, PlainInstruction,
    Plan, SwitchEntry, TableEdge, TableItem, ThrowingCall,
};
pub use clif_graph::Graph;
pub use clif_region_kinds::RegionKind;
pub use clif_regions::RegionOf;
pub use clif_replay::{Condition, ReplayError, ReplayNotes, replay, replay_noted};
pub use clif_runs::Options;
pub use clif_worlds::STEPS;
pub use command::{Command, Run, USAGE};
pub use execution::execute;
pub use program::{Form, Printing, TypeCheck, build};
pub use rows::{row_text, run};
pub use source::{Source, tell_no_memory};
