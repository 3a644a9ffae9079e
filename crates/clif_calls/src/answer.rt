//! What lies outside in a run of a script: how calls end, and what becomes of what they move.
use clif_types::UserFuncName;

/// How an outside call of a function ends, where a script is run. What the script means holds for every such answer.
pub struct OutsideAnswer {
    /// The name of the function.
    pub callee: UserFuncName,
    /// Where the call throws, the item of its table to which it goes: its number from 0 on, among the items with an edge.
    pub item: Option<u32>,
    /// What it returns, or else throws, in order. Each number is cut to the type that it has there; of a wider type it is
    /// the one with the same sign.
    pub values: Vec<i64>,
}

// By hand: a derived one is proved anew at each way out of a function that holds such a value.
impl Drop for OutsideAnswer {
    fn drop(self) {
        let OutsideAnswer {
            callee: _,
            item: _,
            values: _,
        } = self;
    }
}

/// What a collector makes of the bits that an outside call moves, where a script is run. Zero stays zero.
#[derive(Clone, Copy, PartialEq, Eq, Debug)]
pub enum Moves {
    /// This is added to other numbers, and the sum cut to their type.
    Add(i64),
    /// Other numbers become 1.
    One,
    /// The count of the outside calls so far, the call's own included, is added in the same way.
    Events,
}
