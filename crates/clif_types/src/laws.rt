//! Laws of the definitions that the contracts of this crate use. No code runs here.
#![tactic(auto)]

ghost use Rattle.clif_types.specs.EntitySet.{InsertedIsMember, InsertedStaysRising};
ghost use Rattle.clif_types.specs.Types.{WholeBytes, TypesAreSmall, IntegersByWidth};

/// Each type is whole bytes.
pub fn whole_bytes()
    ensures { WholeBytes }
{}

/// A type of the IR has from 1 to 64 bytes.
pub fn types_are_small()
    ensures { TypesAreSmall }
{}

/// An integer type is found by its width.
pub fn integers_by_width()
    ensures { IntegersByWidth }
{}

/// The members of a set with one more are that one and the members before.
pub fn inserted_is_member()
    ensures { InsertedIsMember }
{}

/// The members of a set stay in rising order.
pub fn inserted_stays_rising()
    ensures { InsertedStaysRising }
{}
