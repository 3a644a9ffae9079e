//! Sets of numbers.
#![tactic(auto)]

ghost use Rattle.std.specs.Prelude.{◌≡◌, ◌↔◌, ◌+◌, ◌-◌, ◌^◌, ◌<◌, ◌≤◌, ℕ, [], ◌∷◌, ◌++◌, length, replicate, true, false, not, IsTrue, IfOk, OnOk, OnErr, IsOk, IsOkUnless};
ghost use Rattle.std.specs.Iterator.{YieldsFirstBy, item_count};
ghost use Rattle.std.specs.List.Sorted.{IsStrictlyIncreasing};
ghost use Rattle.clif_types.specs.EntitySet.{has, with_member, marked_from};

use crate::error::BuildError;
use clif_entities::entity::EntityRef;
use std::alloc::Global;
use std::marker::{Model, PhantomData};

/// A set of numbers of one kind.
///
/// It keeps a mark for each number up to its greatest member. So a look-up takes one step, and a walk over
/// the members is linear in the greatest. A byte a mark is eight times what single bits take, and spares
/// shifts and masks in code and proofs: a function has few such sets, each no longer than its tables.
#[derive(Debug, Drop)]
pub struct EntitySet<K> {
    marks: Vec<bool>,
    entity: PhantomData<K>,
}

impl<K> Model for EntitySet<K> {
    ghost use Rattle.std.specs.Prelude.{◌≡◌, ◌-◌, ◌^◌, ◌≤◌, ℕ, List, length, IsTrue};
    ghost use Rattle.clif_types.specs.EntitySet.{marked_from, last_is_set};

    ghost Value = { List ℕ };

    ghost view = { λ s. marked_from 0 s.marks.items };

    ghost invariant = { λ s. (length s.marks.items ≤ 2 ^ 32 - 1) × IsTrue (last_is_set s.marks.items) };
}

impl<K: EntityRef> EntitySet<K> {
    /// The set with no member.
    pub fn new(alloc: Global) -> EntitySet<K>
        ensures { result ≡ [] }
    {
        EntitySet {
            marks: Vec::new(alloc),
            entity: PhantomData,
        }
    }

    /// Whether it has no member.
    pub fn is_empty(&self) -> bool
        ensures { IsTrue result ↔ (self.now ≡ []) }
    {
        self.marks.is_empty()
    }

    /// Whether the number is a member.
    pub fn contains(&self, key: K) -> bool
        ensures { result ≡ has self.now (K.index_of key) }
    {
        self.marks.get(key.index()).copied().unwrap_or(false)
    }

    /// Makes the number a member, and answers whether it was none before.
    ///
    /// # Errors
    ///
    /// `Memory`, only for a number that is no member. Nothing changes then.
    pub fn insert(&mut self, key: K) -> Result<bool, BuildError>
        ensures members { OnOk result (self.new ≡ with_member self.old (K.index_of key)) }
        ensures added { IfOk result (λ added. added ≡ not (has self.old (K.index_of key))) }
        ensures memory_alone { IsOkUnless result BuildError.Memory }
        ensures known { IsTrue (has self.old (K.index_of key)) → IsOk result }
        ensures unchanged { OnErr result (self.new ≡ self.old) }
    {
        let index = key.index();
        if index >= self.marks.len() {
            extend(&mut self.marks, index)?;
            return Ok(true);
        }
        let added = !self.marks[index];
        self.marks[index] = true;
        Ok(added)
    }

    /// The members, each once, by rising number.
    pub fn iter(&self) -> Members<'_, K>
        ensures all { result ≡ self.now }
        ensures rising { IsStrictlyIncreasing self.now }
    {
        Members {
            marks: self.marks.as_slice(),
            first: 0,
            entity: PhantomData,
        }
    }
}

/// Marks up to `index`, of which the last is set.
fn extend(marks: &mut Vec<bool>, index: usize) -> Result<(), BuildError>
    requires room { length marks.old.items ≤ index }
    requires bounded { index < 2 ^ 32 - 1 }
    ensures marks { OnOk result (marks.new.items ≡ marks.old.items ++ replicate (index - length marks.old.items) false ++ true ∷ []) }
    ensures memory_alone { IsOkUnless result BuildError.Memory }
    ensures unchanged { OnErr result (marks.new.items ≡ marks.old.items) }
{
    marks.resize(index + 1, false)?;
    marks[index] = true;
    Ok(())
}

/// The members of a set, by rising number.
#[derive(Drop)]
pub struct Members<'a, K> {
    marks: &'a [bool],
    first: usize,
    entity: PhantomData<K>,
}

impl<'a, K> Model for Members<'a, K> {
    ghost use Rattle.std.specs.Prelude.{◌+◌, ◌-◌, ◌^◌, ◌≤◌, ℕ, List, length};
    ghost use Rattle.clif_types.specs.EntitySet.{marked_from};

    ghost Value = { List ℕ };

    ghost view = { λ m. marked_from m.first m.marks.now };

    ghost invariant = { λ m. m.first + length m.marks.now ≤ 2 ^ 32 - 1 };
}

impl<K: EntityRef> Iterator for Members<'_, K> {
    type Item = K;

    ghost next_gives = { YieldsFirstBy K.index_of (λ members. members) };

    ghost remaining = { item_count (λ members. members) };

    fn next(&mut self) -> Option<K> {
        while let Some((mark, others)) = self.marks.split_first() {
            let index = self.first;
            self.marks = others;
            self.first = index + 1;
            if *mark {
                return Some(K::new(index));
            }
        }
        None
    }
}
