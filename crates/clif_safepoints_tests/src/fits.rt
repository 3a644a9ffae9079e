//! Recorded values that stack maps have room for.
#![tactic(auto)]

ghost use Rattle.std.specs.Prelude.{◌≡◌, ◌<◌, ◌⊎◌, ℕ, length, Contains, IsTrue};
ghost use Rattle.clif_spiller.specs.Plans.{MayBeSpilled};

use clif_ir::Function;
use clif_types::{EntityRef, EntitySet, Value};

// Whether a value exists and a stack map has room for it.
fn fits(func: &Function, value: Value) -> bool
    ensures { IsTrue result → MayBeSpilled func.now value }
{
    if value.index() >= func.value_count() {
        return false;
    }
    let bytes = func.value_type(value).bytes();
    1 <= bytes && bytes <= 16
}

/// Whether these values exist and stack maps have room for them.
pub fn all_fit(func: &Function, recorded: &EntitySet<Value>) -> bool
    ensures { IsTrue result → (v : ℕ) → Contains recorded.now v → MayBeSpilled func.now v }
{
    let mut members = recorded.iter();
    while let Some(value) = members.next() {
        if !fits(func, value) {
            return false;
        }
    }
    true
}
