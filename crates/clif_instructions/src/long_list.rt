//! Long lists of values.
ghost use Rattle.std.specs.Prelude.{◌≡◌, [], ◌∷◌, ◌++◌, length, slice_set, drop, OnOk, OnErr, ◌<◌, IfOk};
ghost use Rattle.clif_instructions.specs.Members.{Stands, without};

use crate::value_list::place_in;
use clif_types::{BuildError, Value};
use std::alloc::Global;
use std::marker::Model;

/// A list from which the first value is taken away without a move of those behind it: to take away one after another
/// costs in all about as much as to go along the list once.
pub(crate) struct LongList {
    // The values, behind those that were taken away from the front.
    values: Vec<Value>,
    // How many these are.
    gone: usize,
}

// By hand: a derived one is proved anew at each way out of a function that holds such a value.
impl Drop for LongList {
    fn drop(self) {
        let LongList { values: _, gone: _ } = self;
    }
}

impl Model for LongList {
    ghost use Rattle.std.specs.Prelude.{ℕ, List, drop, length, ◌≤◌};

    ghost Value = { List ℕ };

    ghost view = { λ l. drop l.gone l.values.items };

    ghost invariant = { λ l. l.gone ≤ length l.values.items };
}

impl LongList {
    /// A list of these values. The only error is `Memory`.
    pub(crate) fn from_slice(alloc: Global, values: &[Value]) -> Result<Self, BuildError>
        ensures ok { IfOk result (λ l. l ≡ values.now) }
        ensures only_memory { OnErr result (result ≡ Err BuildError.Memory) }
    {
        let values = Vec::from_slice(alloc, values)?;
        Ok(LongList { values, gone: 0 })
    }

    /// The values, in order.
    #[inline(always)]
    pub(crate) fn as_slice(&self) -> &[Value]
        ensures { result.now ≡ self.now }
    {
        &self.values.as_slice()[self.gone..]
    }

    /// Puts a value at the end. The only error is `Memory`; the list is as it was then.
    pub(crate) fn push(&mut self, value: Value) -> Result<(), BuildError>
        ensures ok { OnOk result (self.new ≡ self.old ++ value ∷ []) }
        ensures err { OnErr result (self.new ≡ self.old) }
        ensures only_memory { OnErr result (result ≡ Err BuildError.Memory) }
    {
        self.values.push(value)?;
        Ok(())
    }

    /// Makes `value` the one at `place`, in place of what was there.
    pub(crate) fn set(&mut self, place: usize, value: Value)
        requires { place < length self.old }
        ensures { self.new ≡ slice_set self.old place value }
    {
        self.values[self.gone + place] = value;
    }

    // Moves the values to the front of the memory.
    fn close_gap(&mut self)
        ensures { self.new ≡ self.old }
    {
        let kept = self.values.len() - self.gone;
        self.values.copy_within(self.gone.., 0);
        self.values.truncate(kept);
        self.gone = 0;
    }

    // Takes the first value away, where there is one.
    fn remove_first(&mut self)
        requires { 0 < length self.old }
        ensures { self.new ≡ drop 1 self.old }
    {
        self.gone += 1;
        if self.gone > self.values.len() - self.gone {
            self.close_gap();
        }
    }

    /// Takes the first `value` away, which stands in the list; those behind it move up.
    #[tactic(auto, using(crate::proofs::Members::place_rules))]
    pub(crate) fn remove(&mut self, value: Value)
        requires { Stands value self.old }
        ensures { self.new ≡ without value self.old }
    {
        match place_in(self.as_slice(), value) {
            0 => self.remove_first(),
            place => {
                let _ = self.values.remove(self.gone + place);
            }
        }
    }
}
