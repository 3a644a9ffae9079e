//! The blocks that a walk passes.
ghost use Rattle.std.specs.Prelude.{◌≡◌, ◌↔◌, ◌++◌, ◌∷◌, [], false, IsTrue, Some, OnOk, OnErr, slice_get};
ghost use Rattle.clif_instructions.specs.Members.{Stands};

use clif_types::{Block, BuildError, EntityRef};
use std::alloc::Global;
use std::marker::Model;

/// The blocks that a walk passes, in order, each once.
///
/// It is a sparse set (Briggs and Torczon, "An Efficient Representation for Sparse Sets", 1993): it is
/// asked, grows and is emptied in a step each, and no entry is ever cleared.
#[derive(Debug, Drop)]
pub struct PassedBlocks {
    blocks: Vec<Block>,
    // For each block of the set, where it stands in `blocks`. What it says of other blocks means nothing.
    places: Vec<u32>,
}

impl Model for PassedBlocks {
    ghost use Rattle.std.specs.Prelude.{ℕ, List};
    ghost use Rattle.clif_records.specs.Passed.{KnowsPlaces};

    ghost Value = { List ℕ };

    ghost view = { λ p. p.blocks.items };

    ghost invariant = { λ p. KnowsPlaces p.places.items p.blocks.items };
}

impl PassedBlocks {
    /// No block was passed.
    #[inline(always)]
    pub fn new(alloc: Global) -> Self
        ensures { result ≡ [] }
    {
        PassedBlocks {
            blocks: Vec::new(alloc),
            places: Vec::new(alloc),
        }
    }

    /// The blocks, in order.
    #[inline(always)]
    pub fn as_slice(&self) -> &[Block]
        ensures { result.now ≡ self.now }
    {
        self.blocks.as_slice()
    }

    /// Forgets all blocks, in a step.
    #[inline(always)]
    pub fn clear(&mut self)
        ensures { self.new ≡ [] }
    {
        self.blocks.clear();
    }

    #[tactic(auto, using(crate::proofs::SparseSet::passed_rules))]
    /// Whether a block was passed.
    #[inline(always)]
    pub fn contains(&self, block: Block) -> bool
        ensures { IsTrue result ↔ Stands block self.now }
    {
        match self.places.get(block.index()) {
            Some(place) => self.stands_at(block, *place as usize),
            None => false,
        }
    }

    // Whether this block stands at this place.
    #[inline(always)]
    fn stands_at(&self, block: Block, place: usize) -> bool
        ensures { IsTrue result ↔ (slice_get self.now place ≡ Some block) }
    {
        match self.blocks.get(place) {
            Some(other) => *other == block,
            None => false,
        }
    }

    /// Puts a block that wasn't passed behind the others.
    ///
    /// # Errors
    ///
    /// `Memory`, where memory is refused; the blocks are as they were then.
    #[tactic(auto, using(crate::proofs::SparseSet::passed_rules))]
    #[inline(always)]
    pub fn push(&mut self, block: Block) -> Result<(), BuildError>
        requires { Stands block self.old → ⊥ }
        ensures ok { OnOk result (self.new ≡ self.old ++ block ∷ []) }
        ensures err { OnErr result (self.new ≡ self.old) }
        ensures only_memory { OnErr result (result ≡ Err BuildError.Memory) }
    {
        let Ok(place) = u32::try_from(self.blocks.len()) else {
            return Err(BuildError::Memory);
        };
        let missing = (block.index() + 1).saturating_sub(self.places.len());
        for _ in 0..missing {
            self.places.push(0)?;
        }
        self.blocks.push(block)?;
        self.places[block.index()] = place;
        Ok(())
    }
}
