//! The sizes of values that a stack map can name.
#![tactic(auto)]

ghost use Rattle.std.specs.Prelude.{◌≡◌, ◌<◌, codes, Some, IsSome, length, slice_index_or};
ghost use Rattle.std.specs.Borrow.{sem};
ghost use Rattle.clif_stack_slots.specs.Lends.{lends_entry};
ghost use Rattle.clif_stack_slots.specs.Sizes.{bytes_in, IsSizeOf, shift_of, size_of_bytes};

use clif_types::Type;
use std::convert::TryFrom;
use std::fmt;
use std::marker::Model;

/// The size of a value that a stack map can name, and of its slot: 1 to 16 bytes, named by their bits.
#[derive(Clone, Copy, PartialEq, Eq, Debug)]
pub enum SlotSize {
    /// 1 byte.
    Size8,
    /// 2 bytes.
    Size16,
    /// 4 bytes.
    Size32,
    /// 8 bytes.
    Size64,
    /// 16 bytes.
    Size128,
}

/// How many sizes there are.
pub const SLOT_SIZE_LEN: usize = 5;

impl SlotSize {
    /// The size of so many bytes, if a stack map can name a value of it.
    pub fn new(bytes: u32) -> Option<SlotSize>
        ensures { result ≡ size_of_bytes bytes }
    {
        match bytes {
            1 => Some(SlotSize::Size8),
            2 => Some(SlotSize::Size16),
            4 => Some(SlotSize::Size32),
            8 => Some(SlotSize::Size64),
            16 => Some(SlotSize::Size128),
            _ => None,
        }
    }

    /// The size of so many bytes, of which a stack map can name a value.
    pub fn unwrap_new(bytes: u32) -> SlotSize
        requires { IsSome (size_of_bytes bytes) }
        ensures { size_of_bytes bytes ≡ Some result }
    {
        SlotSize::new(bytes).unwrap()
    }

    /// The binary logarithm of the bytes: a slot is aligned to its size.
    pub fn align_shift(self) -> u8
        ensures shift { result ≡ shift_of self }
        ensures bounded { result < 5 }
    {
        match self {
            SlotSize::Size8 => 0,
            SlotSize::Size16 => 1,
            SlotSize::Size32 => 2,
            SlotSize::Size64 => 3,
            SlotSize::Size128 => 4,
        }
    }

    /// How many bytes a value of the size has.
    pub fn bytes(self) -> u32
        ensures { result ≡ bytes_in self }
    {
        1 << self.align_shift()
    }
}

/// No stack map has room for a value of the type: it has no byte, or more than 16.
#[derive(Clone, Copy, PartialEq, Eq, Debug)]
pub struct UnsupportedType;

impl fmt::Display for UnsupportedType {
    ghost output = { λ _. Some (codes "type is not supported in stack maps") };

    fn fmt<W: fmt::Write>(&self, f: &mut fmt::Formatter<W>) -> fmt::Result {
        f.write_str("type is not supported in stack maps")
    }
}

impl TryFrom<Type> for SlotSize {
    type Error = UnsupportedType;

    ghost try_from_gives = { IsSizeOf };

    fn try_from(ty: Type) -> Result<Self, Self::Error> {
        SlotSize::new(ty.bytes()).ok_or(UnsupportedType)
    }
}

/// For each size a thing of its own.
#[derive(Drop)]
pub struct SlotSizeMap<T>([T; SLOT_SIZE_LEN]);

impl<T> Model for SlotSizeMap<T> {
    ghost use Rattle.std.specs.Prelude.{◌≡◌, List, length};

    ghost Value = { List T };

    ghost view = { λ m. m.0 };

    ghost invariant = { λ m. length m.0 ≡ 5 };
}

impl<T> SlotSizeMap<T> {
    /// These things, by rising sizes.
    pub fn of_each(things: [T; SLOT_SIZE_LEN]) -> SlotSizeMap<T>
        ensures { result ≡ things }
    {
        SlotSizeMap(things)
    }

    /// That of a size.
    pub fn get(&self, size: SlotSize) -> &T
        ensures { result.now ≡ slice_index_or self.now (shift_of size) result.now }
    {
        &self.0[size.align_shift() as usize]
    }

    /// That of a size, to be changed.
    pub fn get_mut(&mut self, size: SlotSize) -> &mut T
        ensures* writes_back { sem 𝓛 (lends_entry T.row self.entry (shift_of size) result) }
        ensures value { result.now ≡ slice_index_or self.old (shift_of size) result.now }
        ensures sizes { length self.old ≡ 5 }
    {
        &mut self.0[size.align_shift() as usize]
    }
}
