//! Worked examples of the premises of the theorem on whole scripts: scripts that meet them all at once, and for each premise one
//! that fails it and meets the others. The functions here have empty bodies, and their contracts are the examples.
#![tactic(auto)]

ghost use Rattle.clif_meaning.specs.FunctionView.{FunctionView};
ghost use Rattle.clif_meaning.specs.World.{World};
ghost use Rattle.clif_premise_examples.specs.Examples.{EachPremiseFailsAlone, PremisesAreMet};
ghost use Rattle.clif_premise_examples.specs.Premise.{ThePremisesAreThese};

/// The premises of the theorem on a script's calls are those of the table.
pub fn the_premises_are_these()
    ensures { ThePremisesAreThese }
{}

/// Accepted calls meet all premises at once, beside every function with these slots and in every world with these arguments and places: a
/// load, a store and a stack slot right before a hidden byte; copies of 12 bytes, one said not to overlap, and a call of `Memcpy`; a
/// branch table, a trap and a switch; and a try call, whatever is answered.
pub fn premises_are_met()
    ensures { (function : FunctionView) (world : World) → PremisesAreMet function world }
{}

/// For each premise there are accepted calls that meet all others and fail it, in a world and beside a function that are such.
pub fn each_premise_fails_alone()
    ensures { (function : FunctionView) (world : World) → EachPremiseFailsAlone function world }
{}
