//! What a function that carries a list of calls means.

ghost use Rattle.clif_simulation.specs.Laws.{CarryingMeansTheSame, CarryingReadsRight, CarryingReadsRightComing, CarryingReadsRightFromAnywhere};
ghost use Rattle.clif_simulation.specs.Marked.{CarryingMeansTheSameMoving, CarryingMeansTheSameTracked, CarryingMeansTheSameUnrecorded};

/// A finished function that carries a list of calls, with any branches, joins and loops, means what the list's variable
/// program means.
pub fn carrying_means_the_same()
    ensures { CarryingMeansTheSame }
{}

/// It does under any marks of variables and any tracked names, where its collector is over values that agree with them, and whatever
/// addresses are hidden.
pub fn carrying_means_the_same_moving()
    ensures { CarryingMeansTheSameMoving }
{}

/// It does under the marks of the calls, where its collector is over what the construction recorded for stack maps.
pub fn carrying_means_the_same_tracked()
    ensures { CarryingMeansTheSameTracked }
{}

/// Where the construction recorded nothing for stack maps, it does under the marks of the calls and the collector by stack
/// maps, of which the function has none.
pub fn carrying_means_the_same_unrecorded()
    ensures { CarryingMeansTheSameUnrecorded }
{}

/// An unfinished function that carries a list of calls, with any branches and parameters of the caller's, has the bits of the
/// names and variables of the list's program, beside each run that is interrupted at unsealed blocks; edges need not match
/// into blocks that are unsealed or have the caller's parameters alone.
pub fn carrying_reads_right()
    ensures { CarryingReadsRight }
{}

/// It has them beside runs that also go along edges that may still come, from a block's end so far into unsealed blocks.
pub fn carrying_reads_right_coming()
    ensures { CarryingReadsRightComing }
{}

/// Where no branch was made, it has them from every pair of states at the front of an unsealed entry.
pub fn carrying_reads_right_from_anywhere()
    ensures { CarryingReadsRightFromAnywhere }
{}
