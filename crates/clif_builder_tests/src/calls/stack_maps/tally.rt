//! What a callback for alias regions was asked.
#![tactic(auto)]

use clif_types::types::I32;
use cranelift_frontend::{EntityRef, StackSlot, Type};
use std::cell::Cell;

/// How often a callback was called.
///
/// The callback shares it with the test that made it, so that the number of its owners tells whether the callback was dropped.
#[derive(Drop)]
pub struct Tally {
    calls: Cell<u32>,
    // The calls with anything but an I32, the first slot and its first byte.
    others: Cell<u32>,
}

impl Tally {
    /// No call.
    pub fn new() -> Tally {
        Tally {
            calls: Cell::new(0),
            others: Cell::new(0),
        }
    }

    /// Counts a call with these arguments, and answers how many came before it.
    pub fn count(&self, ty: Type, slot: StackSlot, offset: u32) -> u32 {
        let before = self.calls.get();
        self.calls.set(before.wrapping_add(1));
        if ty != I32 || slot.index() != 0 || offset != 0 {
            self.others.set(self.others.get().wrapping_add(1));
        }
        before
    }

    /// How many calls there were.
    pub fn calls(&self) -> u32 {
        self.calls.get()
    }

    /// How many of them weren't for an I32 at the beginning of the first slot.
    pub fn others(&self) -> u32 {
        self.others.get()
    }
}
