//! Laws of scripts, their programs and their ledgers.
#![tactic(auto)]

ghost use Rattle.clif_meaning.specs.Name.{SameNameDecides};
ghost use Rattle.clif_meaning.specs.SameType.{SameTypeDecides};
ghost use Rattle.clif_meaning.specs.Laws.{OneMoreCall, PlacesCount, NumbersStay};

/// The test for equal types answers whether they are equal.
pub fn same_type_decides()
    ensures { SameTypeDecides }
{}

/// The test for equal names answers whether they are equal.
pub fn same_name_decides()
    ensures { SameNameDecides }
{}

/// A call at the end of a script changes program and ledger by that call alone.
pub fn one_more_call()
    ensures { OneMoreCall }
{}

/// The place of the next call is how many calls there were.
pub fn places_count()
    ensures { PlacesCount }
{}

/// A call at the end leaves the numbers that answered earlier calls.
pub fn numbers_stay()
    ensures { NumbersStay }
{}
