//! The recorded values by their places among these.
ghost use Rattle.std.specs.Prelude.{◌≡◌, ◌≢◌, ◌<◌, ◌==◌, ◌^◌, ℕ, length, None, IfOk, IfSome, IsOkUnless, slice_index};
ghost use Rattle.std.specs.List.Sorted.{IsStrictlyIncreasing};
ghost use Rattle.clif_ir.specs.Body.{resolved};
ghost use Rattle.clif_safepoints.specs.Numbered.{numbered};

use clif_ir::Function;
use clif_types::{BuildError, EntityRef, EntitySet, Value};
use std::marker::Model;

/// The recorded values that are no aliases, by rising number.
#[derive(Drop)]
pub(crate) struct Recorded<'a> {
    set: &'a EntitySet<Value>,
    values: Vec<Value>,
}

impl<'a> Model for Recorded<'a> {
    ghost use Rattle.std.specs.Prelude.{ℕ, List, All, Contains};
    ghost use Rattle.std.specs.List.Sorted.{IsStrictlyIncreasing};

    ghost Value = { List ℕ };

    ghost view = { λ r. r.values.items };

    ghost invariant = { λ r. All (Contains r.set.now) r.values.items
        × IsStrictlyIncreasing r.values.items };
}

impl<'a> Recorded<'a> {
    /// The members of a set. The only error is `Memory`.
    pub(crate) fn new(
        func: &Function,
        set: &'a EntitySet<Value>,
    ) -> Result<Recorded<'a>, BuildError>
        ensures ok { IfOk result (λ recorded. recorded ≡ numbered func.now set.now) }
        ensures memory_alone { IsOkUnless result BuildError.Memory }
    {
        let mut values = Vec::new(func.allocator());
        let mut members = set.iter();
        while let Some(value) = members.next() {
            if is_no_alias(func, value) {
                values.push(value)?;
            }
        }
        Ok(Recorded { set, values })
    }

    /// The law that they rise.
    pub(crate) fn law_rising(&self)
        ensures { IsStrictlyIncreasing self.now }
    {
        let _ = &self.values;
    }

    /// The law that their number fits.
    pub(crate) fn law_fits(&self)
        ensures { length self.now < 2 ^ 64 }
    {
        let _count = self.values.len();
    }

    /// How many there are.
    pub(crate) fn len(&self) -> usize
        ensures { result ≡ length self.now }
    {
        self.values.len()
    }

    /// The value at a place.
    pub(crate) fn at(&self, place: usize) -> Value
        requires { place < length self.now }
        ensures { result ≡ slice_index self.now place }
    {
        self.values[place]
    }

    /// The place of a value, if it is recorded.
    pub(crate) fn place_of(&self, value: Value) -> Option<usize>
        ensures some { IfSome result (λ place. (place < length self.now) × (slice_index self.now place ≡ value)) }
        ensures none { result ≡ None → (place : ℕ) → place < length self.now → slice_index self.now place ≢ value }
    {
        if !self.set.contains(value) {
            return None;
        }
        match self.values.binary_search(&value) {
            Ok(place) => Some(place),
            Err(_) => None,
        }
    }
}

// Whether a value is no alias. One that the function lacks is none.
fn is_no_alias(func: &Function, value: Value) -> bool
    ensures { result ≡ (resolved func.now value == value) }
{
    if value.index() >= func.value_count() {
        return true;
    }
    func.resolve_aliases(value) == value
}
