//! What a run of a script or of a function is given, and what it shows: outside calls as events, answered by whoever the
//! world names; collectors, which move references at such calls; how the run ended, or why it can't go on (`RunError`).
//! No contract names them.
#![tactic(auto)]

pub mod collector;
pub mod error;
pub mod outside;
pub mod run;

pub use clif_operations::{Fault, Memory, SlotRange};
pub use collector::{Beside, Collector, Mover};
pub use error::{Cause, Operand, Place, RunError, Told};
pub use outside::{Callee, Event, Outside};
pub use run::{Choices, End, Ending, STEPS, World};
