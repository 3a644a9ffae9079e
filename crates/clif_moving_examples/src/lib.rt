//! Worked examples of the whole theorem with a collector that moves: scripts that ask for stack maps, beside the finished functions,
//! whose values lie in spill slots across calls. The functions here have empty bodies, and their contracts are the examples.
#![tactic(auto)]

ghost use Rattle.clif_moving_examples.specs.Examples.{TheTheoremIsMet, WrongMapsAreRefused};
ghost use Rattle.clif_moving_examples.specs.Sparing.{SparingIsNeeded};

/// A parameter that lives across two calls, and a variable behind a join that lives across one: each script meets all premises at once,
/// in a world whose collector moves, and the finished function means what the script means and returns what was moved.
pub fn moving_theorem_is_met()
    ensures { TheTheoremIsMet }
{}

/// Where a stack map lacks the entry, names another slot, or names the slot twice, the function returns something else in such a world,
/// and the theorem isn't true of it.
pub fn wrong_maps_are_refused()
    ensures { WrongMapsAreRefused }
{}

/// A function that stores in the place of a later spill slot means what the script means before it is spilled, in a world that places the
/// slot there, and doesn't after: the composition asks that runs spare the addresses of spill slots. Without the store it does.
pub fn sparing_is_needed()
    ensures { SparingIsNeeded }
{}
