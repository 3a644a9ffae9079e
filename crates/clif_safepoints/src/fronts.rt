//! The values that are live at the fronts of blocks, as the last pass puts them down.
use crate::last_pass::{members, no_values};
use crate::recorded::Recorded;
use crate::scan::remove_defs;
use clif_ir::{Function, ValueList};
use clif_number_sets::number_set::NumberSet;
use clif_types::{Block, BuildError, EntityRef};
use std::alloc::Global;

/// The values that are live at the front of each block, by its number.
#[derive(Drop)]
pub(crate) struct Fronts {
    /// Before the parameters are given.
    pub(crate) live_in: Vec<ValueList>,
    /// After that, before the first instruction.
    pub(crate) after_params: Vec<ValueList>,
}

impl Fronts {
    ghost use Rattle.std.specs.Prelude.{◌≡◌, ◌<◌, length, IfOk, OnOk, IsOkUnless};
    ghost use Rattle.clif_safepoints.specs.FrontTables.{AreNoFronts, HaveSize, IsFrontPut, tables_of};
    ghost use Rattle.clif_number_sets.specs.Sets.{is_in};

    /// No values for so many blocks. The only error is `Memory`.
    pub(crate) fn new(alloc: Global, blocks: usize) -> Result<Fronts, BuildError>
        ensures ok { IfOk result (λ fronts. AreNoFronts blocks (tables_of fronts)) }
        ensures memory_alone { IsOkUnless result BuildError.Memory }
    {
        Ok(Fronts {
            live_in: no_values(alloc, blocks)?,
            after_params: no_values(alloc, blocks)?,
        })
    }

    /// Puts down the values for a block, where `live` is what is live before its first instruction. It is then what is live
    /// before the parameters are given. The only error is `Memory`.
    pub(crate) fn put(
        &mut self,
        func: &Function,
        recorded: &Recorded<'_>,
        block: Block,
        live: &mut NumberSet,
    ) -> Result<(), BuildError>
        requires exists { block < length func.now.blocks }
        requires live { length live.old ≡ length recorded.now }
        requires tables { HaveSize (length func.now.blocks) (tables_of self.old) }
        ensures ok { OnOk result (IsFrontPut func.now recorded.now (is_in live.old) block
            (tables_of self.old) (tables_of self.new)) }
        ensures live { OnOk result (length live.new ≡ length recorded.now) }
        ensures memory_alone { IsOkUnless result BuildError.Memory }
    {
        let after = members(func.allocator(), recorded, live)?;
        remove_defs(recorded, func.block_params(block), live);
        let before = members(func.allocator(), recorded, live)?;
        self.after_params[block.index()] = after;
        self.live_in[block.index()] = before;
        Ok(())
    }
}
