//! What holds of a function that carries a list of calls, beside what it means.

ghost use Rattle.clif_simulation.specs.Structure.{SparedEntryIsFree, CarryingIsWellPlaced, CarryingLeavesNoParameters, CarryingMatchesEdges, ConstructionLeavesFewParameters, ConstructionMatchesEdges, RecordsAreWellPlaced};

/// In every program, a block to which at most one branch leads has no variable's parameter once it is sealed.
pub fn construction_leaves_few_parameters()
    ensures { ConstructionLeavesFewParameters }
{}

/// In every program, edges' arguments match once no parameter waits, where the caller's do.
pub fn construction_matches_edges()
    ensures { ConstructionMatchesEdges }
{}

/// Once no parameter waits, no block of it to which at most one branch leads has a variable's parameter.
pub fn carrying_leaves_no_parameters()
    ensures { CarryingLeavesNoParameters }
{}

/// Once no parameter waits, its edges' arguments match, where the caller's do.
pub fn carrying_matches_edges()
    ensures { CarryingMatchesEdges }
{}

/// Where no branch of the calls names the entry, it is free: once it is sealed, no branch leads to it.
pub fn spared_entry_is_free()
    ensures { SparedEntryIsFree }
{}

/// Its values are defined before they are named, finished or not, where the program's names are given before and the entry is
/// free: with branches, joins and loops.
pub fn carrying_is_well_placed()
    ensures { CarryingIsWellPlaced }
{}

/// What the builder recorded, and what answered uses, is defined before it counts, finished or not.
pub fn records_are_well_placed()
    ensures { RecordsAreWellPlaced }
{}
