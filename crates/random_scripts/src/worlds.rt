//! The worlds that scripts run in.
use clif_worlds::{Event, Memory, Outside};

/// How many bytes scripts access, from [`START`] on.
pub const SIZE: usize = 64;

/// The address from which on stack slots lie, behind those bytes.
pub const SLOTS: u64 = START + SIZE as u64;

/// How many bytes there are for stack slots.
pub const SLOTS_SIZE: usize = 4096;

/// The address of the first accessible byte.
pub const START: u64 = 4096;

/// Who answers outside calls. Each returns or throws numbers that tell which call it was, by the count of calls so far.
#[derive(Clone, Copy)]
pub enum Answering {
    /// Every call returns, and leaves memory as it is.
    Counting,
    /// Every third call throws, if it can, along one item after the other.
    Throwing,
    /// Every call returns, and writes a byte of memory.
    Writing,
}

impl Outside for Answering {
    fn thrown(&self, events: &[Event], items: usize) -> Option<usize> {
        let count = events.len();
        match self {
            Answering::Throwing if count % 3 == 0 => (count / 3).checked_rem(items),
            _ => None,
        }
    }

    fn value(&self, events: &[Event], place: usize) -> u128 {
        let count = events.len() as u128;
        count.wrapping_mul(8).wrapping_add(place as u128)
    }

    fn change(&self, events: &[Event], memory: &mut Memory) {
        if let Answering::Writing = self {
            let count = events.len();
            memory.put(count % SIZE, (count % 256) as u8);
        }
    }
}
