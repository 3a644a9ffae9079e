//! What calls answered, and why one didn't succeed.
ghost use Rattle.std.specs.Prelude.{◌≡◌, ◌<◌};
ghost use Rattle.clif_resolution.specs.Errors.{call_error_of, call_memory};

use crate::condition::Condition;
use clif_ir::BlockCall;
use clif_records::Variable;
use clif_types::{
    Block, BuildError, ExceptionTable, FuncRef, Inst, JumpTable, SigRef, StackSlot, Value,
};
use std::alloc::{AllocError, AllocFailed};

/// An entry of a table of the function.
#[derive(Clone, Copy, Debug, PartialEq, Eq)]
pub enum Entry {
    /// a stack slot
    StackSlot(StackSlot),
    /// a signature that was imported
    Signature(SigRef),
    /// a function that was imported
    Function(FuncRef),
    /// a jump table
    JumpTable(JumpTable),
    /// an exception table
    ExceptionTable(ExceptionTable),
    /// an entry that no call names: a dynamic stack slot or a global value
    Unnamed,
}

/// What a call answered: its values have numbers that follow one another, and the results of an
/// instruction are asked of the function.
#[derive(Drop)]
pub enum Answer {
    /// nothing
    Nothing,
    /// a block
    Block(Block),
    /// a variable
    Variable(Variable),
    /// values, whose numbers follow one another
    Values {
        /// the first of them
        first: Value,
        /// how many there are
        count: usize,
    },
    /// an instruction
    Inst(Inst),
    /// an entry of a table
    Entry(Entry),
    /// an edge, of which tables get copies
    Edge(BlockCall),
}

/// Why one call didn't succeed.
#[derive(Clone, Copy)]
pub enum CallError {
    /// this condition of the call doesn't hold, or a name in it leads to no such answer
    Misuse(Condition),
    /// the builder refused the call, for another cause than the two below
    Refused(Condition),
    /// memory was refused
    Memory,
    /// a table is full
    Full,
}

impl From<BuildError> for CallError {
    ghost from_gives = { λ refusal error. error ≡ call_error_of refusal };

    fn from(error: BuildError) -> CallError {
        match error {
            BuildError::Memory => CallError::Memory,
            BuildError::Full => CallError::Full,
            BuildError::Failed => CallError::Refused(Condition::Failed),
        }
    }
}

impl From<AllocError> for CallError {
    ghost from_gives = { λ _ error. error ≡ call_memory };

    fn from(_error: AllocError) -> CallError {
        CallError::Memory
    }
}

impl<T: Drop> From<AllocFailed<T>> for CallError {
    ghost from_gives = { λ _ error. error ≡ call_memory };

    fn from(_error: AllocFailed<T>) -> CallError {
        CallError::Memory
    }
}
