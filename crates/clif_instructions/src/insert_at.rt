//! The place at which an instruction is put into a block.

/// Where an instruction is put among those of a block.
#[derive(Clone, Copy, Debug, PartialEq, Eq)]
pub enum InsertAt {
    /// Behind the first so many, and so before all others: behind none of them at the front.
    Behind(usize),
    /// After the last one.
    Back,
}
