//! Laws of the plain code of memory helpers: it performs copies and fills of scripts. The functions here have empty bodies, and
//! their contracts are the laws of the definitions.
#![tactic(auto)]

ghost use Rattle.clif_helper_calls.specs.CodeExamples.{CodeExamples};
ghost use Rattle.clif_helper_calls.specs.FillStanding.{FillCallsStand};
ghost use Rattle.clif_helper_calls.specs.KnownStanding.{KnownCallsStand};
ghost use Rattle.clif_helper_calls.specs.Laying.{CodesAreLaid};
ghost use Rattle.clif_helper_calls.specs.Performing.{LoadsArePerformed, PiecesArePerformed};
ghost use Rattle.clif_helper_calls.specs.PerformingCalls.{CallsArePerformed, KnownCallsArePerformed};
ghost use Rattle.clif_helper_calls.specs.PieceStanding.{PiecesStand};
ghost use Rattle.clif_helper_calls.specs.Standing.{SingleCallsStand};

/// Loads of all pieces and then stores of them perform a copy, and stores of a constant a fill.
pub fn pieces_are_performed()
    ensures { PiecesArePerformed }
{}

/// Calls of functions of the C library perform the operations of scripts that call them.
pub fn calls_are_performed()
    ensures { CallsArePerformed }
{}

/// Calls with a constant size perform copies, fills and comparisons.
pub fn known_calls_are_performed()
    ensures { KnownCallsArePerformed }
{}

/// Loads of both sides, and the comparison of what they give, perform a comparison.
pub fn loads_are_performed()
    ensures { LoadsArePerformed }
{}

/// The code names what it gave before or what the operation of the script names.
pub fn codes_are_laid()
    ensures { CodesAreLaid }
{}

/// A call of a function of the C library with a size that is a value stands for its emission.
pub fn single_calls_stand()
    ensures { SingleCallsStand }
{}

/// Calls of the C library with a constant size stand for the copy or the comparison that is emitted.
pub fn known_calls_stand()
    ensures { KnownCallsStand }
{}

/// Calls of `Memset` stand for fills, and two loads for a comparison.
pub fn fill_calls_stand()
    ensures { FillCallsStand }
{}

/// Loads and stores of pieces stand for the copy or the fill that is emitted.
pub fn pieces_stand()
    ensures { PiecesStand }
{}

/// A copy of twelve bytes and a fill of six, worked out, and what isn't the code of one.
pub fn code_examples()
    ensures { CodeExamples }
{}
