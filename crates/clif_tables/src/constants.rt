//! Pooled constants: equal bytes are one constant.
ghost use Rattle.std.specs.Prelude.{◌≡◌, Some, OnErr, IfOk};
ghost use Rattle.clif_types.specs.Texts.{bytes_text};

use crate::primary_map::next_number;
use clif_types::{BuildError, Constant, EntityRef, HexBytes};
use std::alloc::Global;
use std::collections::BTreeMap;
use std::fmt;
use std::marker::Model;

/// The bytes of a constant, the lowest first. It prints as `0x` and the bytes from last to first, two
/// hexadecimal digits each.
#[derive(Drop)]
pub struct ConstantData {
    bytes: Vec<u8>,
}

impl Model for ConstantData {
    ghost use Rattle.std.specs.Prelude.{ℕ, List};

    ghost Value = { List ℕ };

    ghost view = { λ c. c.bytes.items };
}

impl ConstantData {
    // A constant of these bytes. The only error is `Memory`.
    fn from_slice(alloc: Global, bytes: &[u8]) -> Result<ConstantData, BuildError>
        ensures ok { IfOk result (λ constant. constant ≡ bytes.now) }
        ensures only_memory { OnErr result (result ≡ Err BuildError.Memory) }
    {
        let bytes = Vec::from_slice(alloc, bytes)?;
        Ok(ConstantData { bytes })
    }

    /// The bytes, the lowest first.
    pub fn as_slice(&self) -> &[u8]
        ensures { result.now ≡ self.now }
    {
        self.bytes.as_slice()
    }
}

impl fmt::Display for ConstantData {
    ghost output = { λ c. Some (bytes_text c) };

    fn fmt<W: fmt::Write>(&self, f: &mut fmt::Formatter<W>) -> fmt::Result {
        write!(f, "{}", HexBytes(self.bytes.as_slice()))
    }
}

/// The constants of a function, by number, of which no two have equal bytes.
///
/// Beside their list it keeps the number of each by its bytes, so that equal bytes are found in a step for
/// each doubling of their count.
#[derive(Drop)]
pub struct ConstantPool {
    alloc: Global,
    constants: Vec<ConstantData>,
    numbers: BTreeMap<Vec<u8>, Constant>,
}

impl Model for ConstantPool {
    ghost use Rattle.std.specs.Prelude.{ℕ, List};
    ghost use Rattle.clif_tables.specs.Constants.{IsIndexed};

    ghost Value = { List (List ℕ) };

    ghost view = { λ p. p.constants.items };

    ghost invariant = { λ p. IsIndexed p.constants.items p.numbers };
}

impl ConstantPool {
    ghost use Rattle.std.specs.Prelude.{◌<◌, ◌^◌, [], length, slice_get, option_copied};
    ghost use Rattle.clif_tables.specs.Makes.{Pools};
    ghost use Rattle.clif_tables.specs.Constants.{with_constant};

    /// The pool with no constant.
    pub(crate) fn new(alloc: Global) -> ConstantPool
        ensures { result ≡ [] }
    {
        ConstantPool {
            alloc,
            constants: Vec::new(alloc),
            numbers: BTreeMap::new(alloc),
        }
    }

    /// The constant of these bytes, which is made if there is none.
    pub(crate) fn insert(&mut self, bytes: &[u8]) -> Result<Constant, BuildError>
        ensures { Pools bytes.now self.old self.old self.new (with_constant self.old bytes.now) result }
    {
        if let Some(constant) = self.numbers.get(bytes) {
            return Ok(*constant);
        }
        let constant = Constant::from_u32(next_number(self.constants.len())?);
        self.constants.reserve(1)?;
        let data = ConstantData::from_slice(self.alloc, bytes)?;
        let key = Vec::from_slice(self.alloc, bytes)?;
        self.numbers.insert(key, constant)?;
        // From here on nothing can fail.
        self.constants.push_reserved(data);
        Ok(constant)
    }

    /// How many constants there are.
    pub(crate) fn len(&self) -> usize
        ensures exact { result ≡ length self.now }
        ensures fits { result < 2 ^ 32 }
    {
        self.constants.len()
    }

    /// The bytes of a constant, if there is one of this number.
    pub(crate) fn get(&self, constant: Constant) -> Option<&ConstantData>
        ensures { option_copied result ≡ slice_get self.now constant }
    {
        self.constants.get(constant.index())
    }

    /// The constants, by rising number.
    pub(crate) fn as_slice(&self) -> &[ConstantData]
        ensures { result.now ≡ self.now }
    {
        self.constants.as_slice()
    }
}
