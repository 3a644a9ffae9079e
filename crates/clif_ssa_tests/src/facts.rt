//! What is so once some steps are made.
#![tactic(auto)]

/// A fact, where blocks, values, instructions and variables are told by their numbers.
#[derive(Clone, Copy)]
pub enum Fact {
    /// So many look-ups of a variable in the predecessors of a block began.
    Lookups(u32, u8, u32),
    /// In so many pairs of a variable and a block something is recorded.
    Records(usize),
    /// A block has so many parameters.
    Params(u32, usize),
    /// The parameter of a block at a place is a value.
    ParamAt(u32, usize, u32),
    /// A value stands for a value.
    Resolves(u32, u32),
    /// Whether any branch leads to a block.
    HasAny(u32, bool),
    /// Whether an instruction is the one that was declared last at a block.
    IsLast(u32, u32, bool),
    /// Whether a block is sealed.
    IsSealed(u32, bool),
    /// The last use, or the last sealing, put so many zeros.
    Told(usize),
    /// The zero at a place among them was put into a block.
    ToldAt(usize, u32),
    /// Whether stack maps need a value.
    IsNeeded(u32, bool),
    /// Stack maps need so many values.
    Needed(usize),
}
