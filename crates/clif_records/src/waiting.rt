//! The parameters that wait in unsealed blocks: one table for all blocks, in which each has the place of the one
//! before it in its block.
ghost use Rattle.std.specs.Prelude.{◌≡◌, ◌++◌, ◌∷◌, [], ◌≤◌, length, OnOk, OnErr, IfOk};
ghost use Rattle.clif_records.specs.Waiting.{listed_to};

use crate::tables::Pending;
use crate::variable::Variable;
use clif_types::{BuildError, Value};
use std::alloc::Global;
use std::marker::Model;

/// The parameters that wait in a block, in the order in which they were made.
#[derive(Debug, Drop)]
pub struct PendingList {
    items: Vec<Pending>,
}

impl Model for PendingList {
    ghost use Rattle.std.specs.Prelude.{List};
    ghost use Rattle.clif_records.specs.declared.tables.Pending.{Pending};

    ghost Value = { List Pending };

    ghost view = { λ l. l.items.items };
}

impl PendingList {
    /// No parameter waits.
    pub(crate) fn new(alloc: Global) -> Self
        ensures { result ≡ [] }
    {
        PendingList {
            items: Vec::new(alloc),
        }
    }

    /// The parameters that wait, in order.
    pub fn as_slice(&self) -> &[Pending]
        ensures { result.now ≡ self.now }
    {
        self.items.as_slice()
    }
}

/// A parameter that waits, and the place of the one that waited last before it in its block.
#[derive(Clone, Copy, Debug)]
pub(crate) struct PendingNode {
    pending: Pending,
    previous: u32,
}

// How many parameters the table has room for.
const MOST_NODES: usize = 0xffff_ffff;

/// The parameters that wait, in all blocks. Their places count from 1, and 0 is the place of none.
#[derive(Debug, Drop)]
pub(crate) struct PendingTable {
    nodes: Vec<PendingNode>,
}

impl Model for PendingTable {
    ghost use Rattle.std.specs.Prelude.{List};
    ghost use Rattle.clif_records.specs.declared.waiting.PendingNode.{PendingNode};
    ghost use Rattle.clif_records.specs.Waiting.{AreLinked};

    ghost Value = { List PendingNode };

    ghost view = { λ t. t.nodes.items };

    ghost invariant = { λ t. AreLinked t.nodes.items };
}

impl PendingTable {
    /// No parameter waits.
    pub(crate) fn new(alloc: Global) -> Self
        ensures { result ≡ [] }
    {
        PendingTable {
            nodes: Vec::new(alloc),
        }
    }

    /// Forgets all parameters, and keeps the memory.
    pub(crate) fn clear(&mut self)
        ensures { self.new ≡ [] }
    {
        self.nodes.clear();
    }

    /// Puts a parameter behind the others, in a block in which the one at `previous` waits last. Returns its place.
    /// After an error the table is as it was.
    #[inline(always)]
    pub(crate) fn push(
        &mut self,
        variable: Variable,
        param: Value,
        previous: u32,
    ) -> Result<u32, BuildError>
        requires { previous ≤ length self.old }
        ensures ok { OnOk result
            (self.new ≡ self.old ++ record {
              pending = record { variable = variable; param = param };
              previous = previous;
            } ∷ []) }
        ensures place { IfOk result (λ place. place ≡ length self.new) }
        ensures err { OnErr result (self.new ≡ self.old) }
        ensures only_memory { OnErr result (result ≡ Err BuildError.Memory) }
    {
        if self.nodes.len() >= MOST_NODES {
            return Err(BuildError::Memory);
        }
        self.nodes.push(PendingNode {
            pending: Pending { variable, param },
            previous,
        })?;
        Ok(self.nodes.len() as u32)
    }

    /// The parameters that wait in the block in which the one at this place waits last, in order.
    ///
    /// # Errors
    ///
    /// `Memory`, where memory is refused.
    pub(crate) fn list_to(&self, last: u32) -> Result<PendingList, BuildError>
        requires { last ≤ length self.now }
        ensures ok { IfOk result (λ l. l ≡ listed_to self.now last) }
        ensures only_memory { OnErr result (result ≡ Err BuildError.Memory) }
    {
        let mut items = Vec::new(*self.nodes.allocator());
        let mut place = last;
        while place > 0 {
            let node = &self.nodes[place as usize - 1];
            items.push(node.pending)?;
            place = node.previous;
        }
        items.reverse();
        Ok(PendingList { items })
    }
}
