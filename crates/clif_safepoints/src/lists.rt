//! Lists of blocks and of instructions, as rows of tables.
ghost use Rattle.std.specs.Prelude.{◌≡◌, [], ◌∷◌, ◌++◌, OnOk, OnErr, IsOkUnless};

use clif_types::{Block, BuildError, Inst};
use std::alloc::Global;
use std::marker::Model;

/// A list of blocks.
#[derive(Drop)]
pub(crate) struct BlockList {
    blocks: Vec<Block>,
}

impl Model for BlockList {
    ghost use Rattle.std.specs.Prelude.{ℕ, List};

    ghost Value = { List ℕ };

    ghost view = { λ l. l.blocks.items };
}

impl BlockList {
    /// The empty list.
    pub(crate) fn new(alloc: Global) -> Self
        ensures { result ≡ [] }
    {
        BlockList {
            blocks: Vec::new(alloc),
        }
    }

    /// Puts a block at the end. The only error is `Memory`, and the list is then as it was.
    pub(crate) fn push(&mut self, block: Block) -> Result<(), BuildError>
        ensures ok { OnOk result (self.new ≡ self.old ++ block ∷ []) }
        ensures err { OnErr result (self.new ≡ self.old) }
        ensures memory_alone { IsOkUnless result BuildError.Memory }
    {
        self.blocks.push(block)?;
        Ok(())
    }

    /// The blocks, in order.
    pub(crate) fn as_slice(&self) -> &[Block]
        ensures { result.now ≡ self.now }
    {
        self.blocks.as_slice()
    }
}

/// A list of instructions.
#[derive(Drop)]
pub(crate) struct InstList {
    insts: Vec<Inst>,
}

impl Model for InstList {
    ghost use Rattle.std.specs.Prelude.{ℕ, List};

    ghost Value = { List ℕ };

    ghost view = { λ l. l.insts.items };
}

impl InstList {
    /// The empty list.
    pub(crate) fn new(alloc: Global) -> Self
        ensures { result ≡ [] }
    {
        InstList {
            insts: Vec::new(alloc),
        }
    }

    /// Puts an instruction at the end. The only error is `Memory`, and the list is then as it was.
    pub(crate) fn push(&mut self, inst: Inst) -> Result<(), BuildError>
        ensures ok { OnOk result (self.new ≡ self.old ++ inst ∷ []) }
        ensures err { OnErr result (self.new ≡ self.old) }
        ensures memory_alone { IsOkUnless result BuildError.Memory }
    {
        self.insts.push(inst)?;
        Ok(())
    }

    /// The instructions, in order.
    pub(crate) fn as_slice(&self) -> &[Inst]
        ensures { result.now ≡ self.now }
    {
        self.insts.as_slice()
    }
}
