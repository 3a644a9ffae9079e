//! Laws of liveness and of the order of blocks. The functions have empty bodies.
ghost use Rattle.clif_safepoints.specs.Examples.{LivenessExamples};
ghost use Rattle.clif_safepoints.specs.Order.{HasOneOrder};

/// What is live across the calls of two small functions, and what isn't.
pub fn liveness_examples()
    ensures { LivenessExamples }
{}

/// A depth-first search leaves the blocks in one order alone.
pub fn one_depth_first_order()
    ensures { HasOneOrder }
{}
