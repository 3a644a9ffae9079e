//! Laws of switches. The functions here have empty bodies, and their contracts are the laws.

ghost use Rattle.clif_switch.specs.Calls.{SwitchesStandForCalls};

/// Behind [`crate::Switch::emit`] a builder that stood for the calls of a script stands for them with the switch as one call more.
pub fn switches_stand_for_calls<R>()
    ensures { SwitchesStandForCalls R }
{}
