//! Laws of names and their numbers.

ghost use Rattle.clif_simulation.specs.Laws.{CodesDiffer};

/// Different names have different numbers.
pub fn codes_differ()
    ensures { CodesDiffer }
{}
