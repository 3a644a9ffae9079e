//! A table of entries by number.
ghost use Rattle.std.specs.Prelude.{◌≡◌, ◌<◌, ◌≤◌, ◌∷◌, ◌++◌, ◌-◌, ◌^◌, [], length, slice_get, slice_index_or, option_copied, IfOk, OnOk, OnErr};
ghost use Rattle.std.specs.Borrow.{sem};
ghost use Rattle.clif_tables.specs.Makes.{MakesEntry};

use clif_types::{BuildError, EntityRef};
use std::alloc::Global;
use std::marker::{Model, PhantomData};

/// How many entries a table of a function holds at most.
pub const TABLE_LIMIT: usize = 0xffff_ffff;

/// The number of the next entry of a table that holds `len` entries.
///
/// # Errors
///
/// `Full` alone, where the table holds 2^32 - 1 entries.
pub fn next_number(len: usize) -> Result<u32, BuildError>
    ensures ok { IfOk result (λ n. (n ≡ len) × (n < 2 ^ 32 - 1)) }
    ensures full { OnErr result ((result ≡ Err BuildError.Full) × (TABLE_LIMIT ≤ len)) }
{
    if len >= TABLE_LIMIT {
        return Err(BuildError::Full);
    }
    Ok(len as u32)
}

/// A table whose entries are named by numbers of the kind `K`.
#[derive(Drop)]
pub struct PrimaryMap<K, V> {
    entries: Vec<V>,
    entity: PhantomData<K>,
}

impl<K, V> Model for PrimaryMap<K, V> {
    ghost use Rattle.std.specs.Prelude.{◌-◌, ◌^◌, ◌≤◌, List, length};

    ghost Value = { List V };

    ghost view = { λ t. t.entries.items };

    ghost invariant = { λ t. length t.entries.items ≤ 2 ^ 32 - 1 };
}

impl<K: EntityRef, V: Drop> PrimaryMap<K, V> {
    ghost use Rattle.clif_tables.specs.Lends.{lends_entry};

    /// The table with no entry.
    pub(crate) fn new(alloc: Global) -> PrimaryMap<K, V>
        ensures { result ≡ [] }
    {
        PrimaryMap {
            entries: Vec::new(alloc),
            entity: PhantomData,
        }
    }

    /// Puts an entry at the end. It gets the next number.
    pub(crate) fn push(&mut self, entry: V) -> Result<K, BuildError>
        ensures { MakesEntry K.index_of (length self.old) self.old self.new (self.old ++ entry ∷ []) result }
    {
        let number = next_number(self.entries.len())?;
        self.entries.push(entry)?;
        Ok(K::new(number as usize))
    }

    /// How many entries there are.
    pub(crate) fn len(&self) -> usize
        ensures exact { result ≡ length self.now }
        ensures fits { result < 2 ^ 32 }
    {
        self.entries.len()
    }

    // Tells whether one more entry gets a number.
    pub(crate) fn check_room(&self) -> Result<(), BuildError>
        ensures room { OnOk result (length self.now < 2 ^ 32 - 1) }
        ensures full { OnErr result ((result ≡ Err BuildError.Full) × (length self.now ≡ 2 ^ 32 - 1)) }
    {
        next_number(self.entries.len())?;
        Ok(())
    }

    /// The entry of this number, if there is one.
    pub(crate) fn get(&self, number: K) -> Option<&V>
        ensures { option_copied result ≡ slice_get self.now (K.index_of number) }
    {
        self.entries.get(number.index())
    }

    /// An entry, which may be changed.
    pub(crate) fn entry_mut(&mut self, number: K) -> &mut V
        requires { K.index_of number < length self.old }
        ensures* writes_back { sem 𝓛 (lends_entry K.row V.row self.entry (K.index_of number) result) }
        ensures value { result.now ≡ slice_index_or self.old (K.index_of number) result.now }
    {
        &mut self.entries[number.index()]
    }

    /// The entries, by rising number.
    pub(crate) fn as_slice(&self) -> &[V]
        ensures { result.now ≡ self.now }
    {
        self.entries.as_slice()
    }
}
