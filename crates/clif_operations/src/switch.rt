//! What a switch does. In a script it is one step.
use crate::fault::Fault;
use crate::operation::Typed;
use std::alloc::{AllocError, Global};
use std::collections::BTreeMap;

/// A finite map from keys to edges: a value that is a key, as an unsigned number, goes along the key's edge, and any other
/// one along the last edge.
#[derive(Drop)]
pub struct SwitchMap {
    edges: BTreeMap<u128, usize>,
    count: usize,
}

impl SwitchMap {
    /// Without a key.
    pub fn new(alloc: Global) -> SwitchMap {
        SwitchMap {
            edges: BTreeMap::new(alloc),
            count: 0,
        }
    }

    /// Adds a key, with the next edge.
    ///
    /// # Errors
    ///
    /// `AllocError`, where memory is refused.
    pub fn push(&mut self, key: u128) -> Result<(), AllocError> {
        self.edges.insert(key, self.count)?;
        self.count = self.count.saturating_add(1);
        Ok(())
    }

    /// The number of the edge along which a value goes.
    ///
    /// # Errors
    ///
    /// The value is no integer.
    pub fn edge(&self, value: Typed) -> Result<usize, Fault> {
        if !value.ty.is_int() {
            return Err(Fault::Switched(value.ty));
        }
        Ok(self.edges.get(&value.bits).copied().unwrap_or(self.count))
    }
}
