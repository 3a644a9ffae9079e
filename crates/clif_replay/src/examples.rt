//! Worked examples of the definitions.

ghost use Rattle.clif_replay.specs.Examples.{EmissionExamples, NamingExamples};

/// The names of an answer lead to those of one call's answers, or to an instruction's results behind its number, and
/// to no other ones.
pub fn naming_examples()
    ensures { NamingExamples }
{}

/// A sum with a constant asks the builder for the constant and for the sum, at 128 bits for one instruction more, and meets no full
/// table where none is full.
pub fn emission_examples()
    ensures { EmissionExamples }
{}
