//! The aliases of values, found by rising or by falling number.
//!
//! The aliases of one value hang in a tree. On the two sides below each stand those that have a zero and a one at the
//! next bit of their numbers, the highest bit first. So no way down is longer than a number has bits, in whatever order
//! aliases come, and a new one is put where its way ends and moves no other.
ghost use Rattle.std.specs.Prelude.{◌≡◌, ◌++◌, ◌∷◌, [], length, map, ◌<◌, ◌-◌, ◌^◌, ◌↔◌, IsTrue, IfSome, OnOk, OnErr};
ghost use Rattle.clif_nodes.specs.Aliases.{alias_of_row};

use clif_types::{BuildError, EntityRef, Value};
use std::alloc::Global;
use std::marker::Model;

// How many bits the number of a value has.
const BITS: u32 = 32;

// The place of no row.
const NO_ROW: u32 = 0xffff_ffff;

/// The order in which aliases are asked for.
#[derive(Clone, Copy, PartialEq, Eq)]
pub enum AliasOrder {
    /// By rising number.
    Rising,
    /// By falling number.
    Falling,
}

impl AliasOrder {
    fn is_before(self, first: Value, second: Value) -> bool {
        match self {
            AliasOrder::Rising => first < second,
            AliasOrder::Falling => second < first,
        }
    }
}

// An alias, and the places of the rows right below it.
#[derive(Clone, Copy)]
struct AliasRow {
    alias: Value,
    lower: u32,
    higher: u32,
}

const _: () = prove!(size_of::<AliasRow>() == 12);

impl AliasRow {
    fn below(&self, is_higher: bool) -> u32 {
        if is_higher { self.higher } else { self.lower }
    }
}

/// The aliases of values. Contracts see their numbers, in the order in which they came.
pub struct AliasTable {
    rows: Vec<AliasRow>,
    // by the number of a value, the place of the alias that it got first
    tops: Vec<u32>,
}

impl Model for AliasTable {
    ghost use Rattle.std.specs.Prelude.{ℕ, List, map};
    ghost use Rattle.clif_nodes.specs.Aliases.{alias_of_row};

    ghost Value = { List ℕ };

    ghost view = { λ t. map alias_of_row t.rows.items };
}

// By hand: a derived one is proved anew at each way out of a function that holds such a value.
impl Drop for AliasTable {
    fn drop(self) {
        let AliasTable { rows: _, tops: _ } = self;
    }
}

impl AliasTable {
    /// No aliases.
    pub fn new(alloc: Global) -> Self
        ensures { result ≡ [] }
    {
        AliasTable {
            rows: Vec::new(alloc),
            tops: Vec::new(alloc),
        }
    }

    /// Whether no value has an alias.
    pub fn is_empty(&self) -> bool
        ensures { IsTrue result ↔ (length self.now ≡ 0) }
    {
        self.rows.len() == 0
    }

    /// Makes `alias` one of `original`.
    ///
    /// # Errors
    ///
    /// `Memory`, where memory is refused. The aliases are as they were then.
    pub fn insert(&mut self, original: Value, alias: Value) -> Result<(), BuildError>
        requires room { length self.old < 2 ^ 32 - 1 }
        ensures ok { OnOk result (self.new ≡ self.old ++ alias ∷ []) }
        ensures only_memory { OnErr result (result ≡ Err BuildError.Memory) }
        ensures err { OnErr result (self.new ≡ self.old) }
    {
        self.rows.reserve(1)?;
        if self.tops.len() <= original.index() {
            self.tops.resize(original.index() + 1, NO_ROW)?;
        }
        // From here on nothing can fail.
        let place = self.rows.len() as u32;
        let top = self.tops[original.index()];
        if top == NO_ROW {
            self.tops[original.index()] = place;
        }
        if let Some((above, is_higher)) = end_of_way(&self.rows, top, alias) {
            hang(&mut self.rows, above, is_higher, place);
        }
        self.rows.push_reserved(AliasRow {
            alias,
            lower: NO_ROW,
            higher: NO_ROW,
        });
        Ok(())
    }

    /// The first alias of `original` in this order.
    pub fn first(&self, original: Value, order: AliasOrder) -> Option<Value> {
        let top = *self.tops.get(original.index())?;
        first_below(&self.rows, top, None, order)
    }

    /// The alias of `original` that comes right after `bound` in this order.
    pub fn next(&self, original: Value, bound: Value, order: AliasOrder) -> Option<Value> {
        let top = *self.tops.get(original.index())?;
        first_behind(&self.rows, top, bound, order)
    }
}

// The row, and the side of it, where a new alias has its place below `top`.
fn end_of_way(rows: &[AliasRow], top: u32, alias: Value) -> Option<(usize, bool)>
    ensures { IfSome result (λ end. end.0 < length rows.now) }
{
    let mut place = top as usize;
    let mut bits = alias.as_u32();
    for _ in 0..BITS {
        let row = rows.get(place)?;
        let is_higher = bits >= 1 << (BITS - 1);
        let below = row.below(is_higher);
        if below == NO_ROW {
            return Some((place, is_higher));
        }
        place = below as usize;
        bits = bits.wrapping_shl(1);
    }
    None
}

// Puts the row at place `below` below another one, on a side where none is.
fn hang(rows: &mut [AliasRow], above: usize, is_higher: bool, below: u32)
    requires { above < length rows.old }
    ensures { map alias_of_row rows.new ≡ map alias_of_row rows.old }
{
    let row = &mut rows[above];
    if is_higher {
        row.higher = below;
    } else {
        row.lower = below;
    }
}

// What comes first in this order among `found`, the alias at `top` and those below it.
fn first_below(
    rows: &[AliasRow],
    top: u32,
    found: Option<Value>,
    order: AliasOrder,
) -> Option<Value> {
    let mut first = found;
    let mut place = top;
    for _ in 0..=BITS {
        let Some(row) = rows.get(place as usize) else {
            return first;
        };
        first = earlier(first, row.alias, order);
        let near = row.below(order == AliasOrder::Falling);
        place = if near == NO_ROW {
            row.below(order == AliasOrder::Rising)
        } else {
            near
        };
    }
    first
}

// The first alias behind `bound` in this order, at `top` and below it. If it isn't on the way of `bound` itself, it
// stands below the last row on that way that has aliases on the far side of it.
fn first_behind(rows: &[AliasRow], top: u32, bound: Value, order: AliasOrder) -> Option<Value> {
    let mut first = None;
    let mut beside = NO_ROW;
    let mut place = top;
    let mut bits = bound.as_u32();
    for _ in 0..=BITS {
        let Some(row) = rows.get(place as usize) else {
            break;
        };
        if order.is_before(bound, row.alias) {
            first = earlier(first, row.alias, order);
        }
        let is_higher = bits >= 1 << (BITS - 1);
        let far = row.below(!is_higher);
        if is_higher == (order == AliasOrder::Falling) && far != NO_ROW {
            beside = far;
        }
        place = row.below(is_higher);
        bits = bits.wrapping_shl(1);
    }
    first_below(rows, beside, first, order)
}

// Which of two aliases comes first in this order.
fn earlier(found: Option<Value>, alias: Value, order: AliasOrder) -> Option<Value> {
    match found {
        Some(first) if order.is_before(first, alias) => Some(first),
        _ => Some(alias),
    }
}
