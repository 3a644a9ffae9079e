//! Laws of helpers. The functions here have empty bodies, and their contracts are the laws.

ghost use Rattle.clif_memory_helpers.specs.Calls.{HelpersStandForCalls};
ghost use Rattle.clif_memory_helpers.specs.HelperLines.{HelpersAreLines};

/// The calls that a helper makes perform what scripts emit for it: they copy, fill and compare bytes as the operations of scripts do, of
/// every size that may be, overlap and wrap-around of addresses included.
pub fn helpers_are_lines()
    ensures { HelpersAreLines }
{}

/// So behind a helper a builder that stood for the calls of a script stands for them with the helper as one call more.
pub fn helpers_stand_for_calls<R>()
    ensures { HelpersStandForCalls R }
{}
