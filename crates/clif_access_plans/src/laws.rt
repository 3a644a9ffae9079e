//! Laws of plans. The functions here have empty bodies, and their contracts are the laws.

ghost use Rattle.clif_access_plans.specs.Plans.{PlansAreExact};

/// The power of two is the greatest one that divides the size, and the accesses of a plan are the whole size.
pub fn plans_are_exact()
    ensures { PlansAreExact }
{}
