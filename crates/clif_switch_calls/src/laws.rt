//! The laws.

ghost use Rattle.clif_switch_calls.specs.SwitchLaw.{LaterBlocksAreUnwritten, RefusalsAreOfKeys, SwitchCallsAreCode};
ghost use Rattle.clif_switch_calls.specs.SwitchSizes.{SwitchCallsAreFew};

/// The plain calls of a switch, node by node of a search among its cases, are code of the switch: from before it control walks to
/// the block of each key's case.
pub fn switch_calls_are_code()
    ensures { SwitchCallsAreCode }
{}

/// Of each table of the function the plain calls of a switch make at most so many entries, by the number of keys.
pub fn switch_calls_are_few()
    ensures { SwitchCallsAreFew }
{}

/// Behind calls that may be made nothing was built in blocks that aren't there yet.
pub fn later_blocks_are_unwritten()
    ensures { LaterBlocksAreUnwritten }
{}

/// The keys of a switch are refused as the builder refuses its cases, and where it finds ranges of the cases, they aren't.
pub fn refusals_are_of_keys()
    ensures { RefusalsAreOfKeys }
{}
