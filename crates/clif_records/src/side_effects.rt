//! What a call of the construction did beside its answer.
ghost use Rattle.std.specs.Prelude.{◌≡◌, ◌++◌, [], OnOk, OnErr};

use clif_types::{Block, BuildError};
use std::alloc::Global;

/// What a call did beside its answer.
#[derive(Debug, Drop)]
pub struct SideEffects {
    /// The block of each zero that was put, in order.
    pub instructions_added_to_blocks: Vec<Block>,
}

impl SideEffects {
    /// Nothing was done.
    pub fn new(alloc: Global) -> Self
        ensures { result.instructions_added_to_blocks.items ≡ [] }
    {
        SideEffects {
            instructions_added_to_blocks: Vec::new(alloc),
        }
    }

    /// Puts what another call did behind.
    ///
    /// # Errors
    ///
    /// `Memory`, where memory is refused.
    pub fn append(&mut self, later: &SideEffects) -> Result<(), BuildError>
        ensures ok { OnOk result (self.new.instructions_added_to_blocks.items ≡ self.old.instructions_added_to_blocks.items ++ later.now.instructions_added_to_blocks.items) }
        ensures only_memory { OnErr result (result ≡ Err BuildError.Memory) }
    {
        self.instructions_added_to_blocks
            .extend_from_slice(later.instructions_added_to_blocks.as_slice())?;
        Ok(())
    }
}
