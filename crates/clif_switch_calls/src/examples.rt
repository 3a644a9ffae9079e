//! The examples.

ghost use Rattle.clif_switch_calls.specs.SwitchCallExamples.{SwitchCallExamples};

/// A search among four ranges, and the plain calls of a switch at 128 bits, worked out.
pub fn switch_call_examples()
    ensures { SwitchCallExamples }
{}
