//! Short lists of values.
ghost use Rattle.std.specs.Prelude.{◌≡◌, [], ◌∷◌, ◌++◌, length, slice_set, OnOk, OnErr, ◌<◌, IfOk};
ghost use Rattle.clif_instructions.specs.Members.{Stands, place_of, without};
ghost use Rattle.clif_instructions.specs.Kept.{values_of};

use crate::long_list::LongList;
use arrayvec::ArrayVec;
use clif_types::{BuildError, Value};
use std::alloc::Global;
use std::marker::Model;
use std::slice;

/// A list of values, most of the time a short one: up to two take no memory of their own.
pub struct ValueList {
    alloc: Global,
    values: Values,
}

// By hand: a derived one is proved anew at each way out of a function that holds such a value.
impl Drop for ValueList {
    fn drop(self) {
        let ValueList {
            alloc: _,
            values: _,
        } = self;
    }
}

// The values of a list.
enum Values {
    None,
    One(Value),
    Two([Value; 2]),
    // Three to eight, or fewer that are left of these.
    Few(Box<ArrayVec<Value, 8>>),
    // Nine or more, or fewer that are left of these.
    Many(Box<LongList>),
}

// By hand: a derived one is proved anew at each way out of a function that holds such a value.
impl Drop for Values {
    fn drop(self) {
        match self {
            Values::None => {}
            Values::One(_) => {}
            Values::Two(_) => {}
            Values::Few(_) => {}
            Values::Many(_) => {}
        }
    }
}

const _: () = prove!(size_of::<ValueList>() == 16);

impl Model for ValueList {
    ghost use Rattle.std.specs.Prelude.{ℕ, List};
    ghost use Rattle.clif_instructions.specs.Kept.{values_of};

    ghost Value = { List ℕ };

    ghost view = { λ l. values_of l.values };
}

impl ValueList {
    /// The empty list.
    pub fn new(alloc: Global) -> Self
        ensures { result ≡ [] }
    {
        ValueList {
            alloc,
            values: Values::None,
        }
    }

    /// A list of these values.
    ///
    /// # Errors
    ///
    /// `Memory`, where memory is refused.
    pub fn from_slice(alloc: Global, values: &[Value]) -> Result<Self, BuildError>
        ensures ok { IfOk result (λ l. l ≡ values.now) }
        ensures only_memory { OnErr result (result ≡ Err BuildError.Memory) }
    {
        let values = match values {
            [] => Values::None,
            [value] => Values::One(*value),
            [first, second] => Values::Two([*first, *second]),
            _ => more_values(alloc, values)?,
        };
        Ok(ValueList { alloc, values })
    }

    /// The values, in order.
    #[inline(always)]
    pub fn as_slice(&self) -> &[Value]
        ensures { result.now ≡ self.now }
    {
        match &self.values {
            Values::None => &[],
            Values::One(value) => slice::from_ref(value),
            Values::Two(pair) => pair,
            Values::Few(few) => few.as_slice(),
            Values::Many(many) => many.as_slice(),
        }
    }

    /// Puts a value at the end.
    ///
    /// # Errors
    ///
    /// `Memory`, where memory is refused; the list is as it was then.
    #[inline(always)]
    pub fn push(&mut self, value: Value) -> Result<(), BuildError>
        ensures ok { OnOk result (self.new ≡ self.old ++ value ∷ []) }
        ensures err { OnErr result (self.new ≡ self.old) }
        ensures only_memory { OnErr result (result ≡ Err BuildError.Memory) }
    {
        match &mut self.values {
            Values::None => self.values = Values::One(value),
            Values::One(first) => self.values = Values::Two([*first, value]),
            Values::Two(pair) => {
                let [first, second] = *pair;
                self.values = more_values(self.alloc, &[first, second, value])?;
            }
            Values::Few(few) => {
                if few.is_full() {
                    self.values = grown(self.alloc, few.as_slice(), value)?;
                } else {
                    few.push(value);
                }
            }
            Values::Many(many) => many.push(value)?,
        }
        Ok(())
    }

    /// Makes `value` the one at `place`, in place of what was there.
    pub fn set(&mut self, place: usize, value: Value)
        requires { place < length self.old }
        ensures { self.new ≡ slice_set self.old place value }
    {
        match &mut self.values {
            Values::None => {}
            Values::One(only) => *only = value,
            Values::Two(pair) => set_value(pair, place, value),
            Values::Few(few) => few[place] = value,
            Values::Many(many) => many.set(place, value),
        }
    }

    /// The place of the first `value`, which stands in the list.
    pub fn place_of(&self, value: Value) -> usize
        requires { Stands value self.now }
        ensures exact { result ≡ place_of value self.now }
        ensures inside { result < length self.now }
    {
        place_in(self.as_slice(), value)
    }

    /// Takes the first `value` away, which stands in the list; those behind it move up.
    #[tactic(auto, using(crate::proofs::Members::place_rules))]
    pub fn remove(&mut self, value: Value)
        requires { Stands value self.old }
        ensures { self.new ≡ without value self.old }
    {
        match &mut self.values {
            Values::None | Values::One(_) => self.values = Values::None,
            Values::Two(pair) => {
                let [first, second] = *pair;
                self.values = Values::One(if first == value { second } else { first });
            }
            Values::Few(few) => {
                let place = place_in(few.as_slice(), value);
                let _ = few.remove(place);
            }
            Values::Many(many) => many.remove(value),
        }
    }
}

// Makes `value` the one at `place` among these.
pub(crate) fn set_value(values: &mut [Value], place: usize, value: Value)
    requires { place < length values.old }
    ensures { values.new ≡ slice_set values.old place value }
{
    values[place] = value;
}

// Values that lie in memory of their own. The only error is `Memory`.
fn more_values(alloc: Global, values: &[Value]) -> Result<Values, BuildError>
    ensures ok { IfOk result (λ more. values_of more ≡ values.now) }
    ensures only_memory { OnErr result (result ≡ Err BuildError.Memory) }
{
    let mut few = ArrayVec::new();
    if few.try_extend_from_slice(values).is_ok() {
        return Ok(Values::Few(Box::new(alloc, few)?));
    }
    let many = LongList::from_slice(alloc, values)?;
    Ok(Values::Many(Box::new(alloc, many)?))
}

// These values and one more, in memory for many. The only error is `Memory`.
fn grown(alloc: Global, values: &[Value], last: Value) -> Result<Values, BuildError>
    ensures ok { IfOk result (λ more. values_of more ≡ values.now ++ last ∷ []) }
    ensures only_memory { OnErr result (result ≡ Err BuildError.Memory) }
{
    let mut many = LongList::from_slice(alloc, values)?;
    many.push(last)?;
    Ok(Values::Many(Box::new(alloc, many)?))
}

// The place of the first `value`, which is one of these.
#[tactic(auto, using(crate::proofs::Members::place_rules))]
pub(crate) fn place_in(values: &[Value], value: Value) -> usize
    requires { Stands value values.now }
    ensures exact { result ≡ place_of value values.now }
    ensures inside { result < length values.now }
{
    for (place, other) in values.iter().enumerate() {
        if *other == value {
            return place;
        }
    }
    unreachable!()
}
