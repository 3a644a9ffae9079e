//! The stack maps of instructions.
ghost use Rattle.std.specs.Prelude.{◌≡◌, [], OnErr, OnOk};
ghost use Rattle.clif_tables.specs.Sparse.{list_at, with_list};

use clif_types::{BuildError, Inst, UserStackMapEntry};
use std::alloc::Global;
use std::collections::BTreeMap;
use std::marker::Model;

// What an instruction's stack map tells.
#[derive(Drop)]
struct StackMap {
    entries: Vec<UserStackMapEntry>,
}

impl Model for StackMap {
    ghost use Rattle.std.specs.Prelude.{List};
    ghost use Rattle.clif_types.specs.declared.stackmap.UserStackMapEntry.{UserStackMapEntry};

    ghost Value = { List UserStackMapEntry };

    ghost view = { λ m. m.entries.items };
}

/// The stack maps of a function's instructions, by the number of the instruction. One that has none takes
/// no room.
#[derive(Drop)]
pub struct StackMaps {
    maps: BTreeMap<Inst, StackMap>,
}

impl Model for StackMaps {
    ghost use Rattle.std.specs.Prelude.{ℕ, List};
    ghost use Rattle.clif_types.specs.declared.stackmap.UserStackMapEntry.{UserStackMapEntry};

    ghost Value = { List (ℕ × List UserStackMapEntry) };

    ghost view = { λ m. m.maps.entries };
}

impl StackMaps {
    /// No stack maps.
    pub(crate) fn new(alloc: Global) -> StackMaps
        ensures { result ≡ [] }
    {
        StackMaps {
            maps: BTreeMap::new(alloc),
        }
    }

    /// The stack map of an instruction, which is empty where it has none.
    pub(crate) fn get(&self, inst: Inst) -> &[UserStackMapEntry]
        ensures { result.now ≡ list_at self.now inst }
    {
        match self.maps.get(&inst) {
            Some(map) => map.entries.as_slice(),
            None => &[],
        }
    }

    /// Gives an instruction a stack map, in place of the one that it had. The only error is `Memory`;
    /// nothing is changed then.
    pub(crate) fn set(
        &mut self,
        inst: Inst,
        entries: Vec<UserStackMapEntry>,
    ) -> Result<(), BuildError>
        ensures ok { OnOk result (self.new ≡ with_list self.old inst entries.items) }
        ensures err { OnErr result (self.new ≡ self.old) }
        ensures only_memory { OnErr result (result ≡ Err BuildError.Memory) }
    {
        self.maps.insert(inst, StackMap { entries })?;
        Ok(())
    }
}
