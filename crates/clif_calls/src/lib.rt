//! The calls of scripts, which `clif_replay` makes and `clif_text` reads and writes.
#![tactic(auto)]

mod answer;
mod call;
mod entry;
mod immediate;
mod memory;
mod outside;
mod plan;
mod straight;
mod switch;
mod table;

pub use answer::{Moves, OutsideAnswer};
pub use call::{Call, Edge, Name, PlainInstruction};
pub use entry::{EntryCall, ImportedFunction};
pub use immediate::ImmediateCall;
pub use memory::{MemoryCall, is_unsigned};
pub use outside::OutsideCall;
pub use plan::Plan;
pub use straight::{Lender, StraightInstruction};
pub use switch::SwitchEntry;
pub use table::{Passed, TableEdge, TableItem, ThrowingCall};
