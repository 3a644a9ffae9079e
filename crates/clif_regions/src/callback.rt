//! A callback that may always be called.
ghost use Rattle.std.specs.Prelude.{◌≡◌};

use clif_types::{AliasRegion, AliasRegionSet, StackSlot, Type};

/// Answers the region of an access, by the type of what it loads or stores, the stack slot, and where in the slot it begins. It
/// may add regions to the function's.
pub type RegionOf = Box<dyn Fn(&mut AliasRegionSet, Type, StackSlot, u32) -> Option<AliasRegion>>;

/// One that may be called with every argument.
#[derive(Drop)]
pub struct Callback {
    /// What is asked.
    pub ask: RegionOf,
    ghost callable: { RegionOf.IsAlwaysCallable ask },
}

impl Callback {
    /// A callback of what is always callable.
    pub fn new(ask: RegionOf) -> Callback
        requires { RegionOf.IsAlwaysCallable ask }
        ensures { result.ask ≡ ask }
    {
        Callback { ask }
    }
}
