//! The law of sealing orders: which orders of sealing are allowed, and that acceptance depends on no more of them. The functions
//! here have empty bodies, and their contracts are the laws of the definitions.
#![tactic(auto)]

ghost use Rattle.clif_sealing_order_laws.specs.EmittingExamples.{EmittingOrderExamples};
ghost use Rattle.clif_sealing_order_laws.specs.Examples.{OrderExamples};
ghost use Rattle.clif_sealing_order_laws.specs.Laws.{AllowedOrdersAgree, AttemptsAgree, CallAttemptsAgree};

/// Calls that differ only in when blocks are sealed, some of which may emit or are only tried, are all accepted where their orders are
/// allowed, or stopped alike at one call; and accepted calls have an allowed order.
pub fn call_attempts_agree()
    ensures { CallAttemptsAgree }
{}

/// The same of the builder's own calls, of which none emits.
pub fn attempts_agree()
    ensures { AttemptsAgree }
{}

/// The same of scripts, of which no call is only tried.
pub fn allowed_orders_agree()
    ensures { AllowedOrdersAgree }
{}

/// Allowed orders of one script, orders that aren't allowed, and scripts that are stopped whatever their order.
pub fn order_examples()
    ensures { OrderExamples }
{}

/// A switch whose blocks are sealed in orders that are allowed and in one that isn't, and switches that are stopped whatever the order.
pub fn emitting_order_examples()
    ensures { EmittingOrderExamples }
{}
