//! The switches of a script.
use clif_calls::SwitchEntry;
use clif_operations::SwitchMap;
use std::alloc::{AllocError, Global};
use std::collections::BTreeMap;

/// What each switch does, by the place of its call.
#[derive(Drop)]
pub struct Switches {
    alloc: Global,
    maps: BTreeMap<usize, SwitchMap>,
}

impl Switches {
    /// None.
    pub fn new(alloc: Global) -> Switches {
        Switches {
            alloc,
            maps: BTreeMap::new(alloc),
        }
    }

    /// Adds the switch at a place, which has these cases.
    ///
    /// # Errors
    ///
    /// `AllocError`, where memory is refused.
    pub fn add(&mut self, place: usize, entries: &[SwitchEntry]) -> Result<(), AllocError> {
        let mut map = SwitchMap::new(self.alloc);
        for entry in entries {
            map.push(entry.key)?;
        }
        self.maps.insert(place, map)?;
        Ok(())
    }

    /// What the switch at a place does.
    pub fn at(&self, place: usize) -> Option<&SwitchMap> {
        self.maps.get(&place)
    }
}
