//! Where the branches of a script lead.
use std::alloc::{AllocError, Global};

/// For each call the numbers of the blocks that its edges lead to, in order; none where a name leads to no block.
#[derive(Drop)]
pub struct Branches {
    targets: Vec<Vec<Option<usize>>>,
}

impl Branches {
    /// Of no calls.
    pub fn new(alloc: Global) -> Branches {
        Branches {
            targets: Vec::new(alloc),
        }
    }

    /// Adds the next call, whose edges lead to these blocks.
    ///
    /// # Errors
    ///
    /// `AllocError`, where memory is refused.
    pub fn push(&mut self, targets: Vec<Option<usize>>) -> Result<(), AllocError> {
        self.targets.push(targets)?;
        Ok(())
    }

    /// Where the edges of the call at a place lead.
    pub fn targets(&self, place: usize) -> &[Option<usize>] {
        match self.targets.get(place) {
            Some(targets) => targets.as_slice(),
            None => &[],
        }
    }

    /// Whether one of these edges leads to a block.
    pub fn leads_to(&self, place: usize, block: usize) -> bool {
        self.targets(place).contains(&Some(block))
    }

    /// Lets each of them that leads to one block lead to another one, and answers how many these are.
    pub fn change(&mut self, place: usize, from: usize, to: usize) -> usize {
        let mut changed = 0usize;
        let Some(targets) = self.targets.get_mut(place) else {
            return changed;
        };
        for target in targets.iter_mut() {
            if *target == Some(from) {
                *target = Some(to);
                changed = changed.saturating_add(1);
            }
        }
        changed
    }
}
