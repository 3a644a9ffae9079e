//! The laws. The body of a function here cites other laws, and its contract is the law.

ghost use Rattle.clif_constant_calls.specs.Calls.{ConstantsStandForCalls};
ghost use Rattle.clif_constant_calls.specs.Stands.{ConstantOperandsStand};

use clif_builder::laws::{ledger_is_read_by_number, requests_ask_for_their_shapes};

/// Behind a sum with a constant, or a comparison with one, a builder that stood for a list of calls stands for the list with the
/// plain calls at its end, and what was answered is the last one's result.
pub fn constant_operands_stand<R>()
    ensures { ConstantOperandsStand R }
{
    ledger_is_read_by_number();
    requests_ask_for_their_shapes();
}

/// So a builder that stood for the calls of a script stands for them with the whole sum, or the whole comparison, as one call more.
pub fn constants_stand_for_calls<R>()
    ensures { ConstantsStandForCalls R }
{
    constant_operands_stand::<R>();
}
