//! Copies and fills.
#![tactic(auto)]

ghost use Rattle.std.specs.Prelude.{◌≡◌, ◌<◌, nat_le};
ghost use Rattle.clif_access_plans.specs.Constants.{RepeatsByte};
ghost use Rattle.clif_access_plans.specs.Plans.{IsAccess, fits_pointer, may_move, move_plan};
ghost use Rattle.clif_meaning.specs.ByteOperation.{greatest_power};

use clif_instructions::immediates::signed_at;
use clif_types::types::INVALID;
use clif_types::{PointerWidth, Type};

/// How many accesses are made at most; more bytes are moved by a call.
const MOST_ACCESSES: u64 = 4;

/// How many bytes one access moves at most.
const WIDEST_ACCESS: u64 = 8;

/// Accesses of one type, one behind another.
#[derive(Clone, Copy, PartialEq, Eq, Debug)]
pub struct Accesses {
    /// The integer type of each.
    pub ty: Type,
    /// How many bytes that type has.
    pub bytes: u8,
    /// How many accesses there are.
    pub count: u8,
}

impl Accesses {
    /// Whether each access is aligned where the first address has this alignment.
    pub fn are_aligned(self, alignment: u8) -> bool
        ensures { result ≡ nat_le self.bytes alignment }
    {
        alignment >= self.bytes
    }
}

/// How bytes are moved.
#[derive(Clone, Copy, PartialEq, Eq, Debug)]
pub enum MovePlan {
    /// There are none.
    Nothing,
    /// By these accesses.
    Inline(Accesses),
    /// By a call of a function of the C library.
    LibraryCall,
}

/// How a copy or a fill of so many bytes is made: by at most four accesses of the greatest power of two that divides the size, at
/// most 8, or else by a call.
pub fn plan_move(size: u64) -> MovePlan
    ensures { result ≡ move_plan size }
{
    if size == 0 {
        return MovePlan::Nothing;
    }
    let bytes = greatest_power(size).min(WIDEST_ACCESS);
    let count = size / bytes;
    if count > MOST_ACCESSES {
        return MovePlan::LibraryCall;
    }
    MovePlan::Inline(Accesses {
        ty: Type::int_with_byte_size(bytes as u16).unwrap_or(INVALID),
        bytes: bytes as u8,
        count: count as u8,
    })
}

/// Whether a copy or a fill of so many bytes may be made, with this alignment, which for a copy is the smaller of the two: its size
/// fits a pointer, and the alignment is at most the greatest power of two that divides it. Of no bytes any may be made.
pub fn may_move(pointer: PointerWidth, size: u64, alignment: u8) -> bool
    ensures { result ≡ may_move pointer size alignment }
{
    size == 0 || (u64::from(alignment) <= greatest_power(size) && fits_pointer(pointer, size))
}

/// Whether the size is a number of a pointer's width.
pub fn fits_pointer(pointer: PointerWidth, size: u64) -> bool
    ensures { result ≡ fits_pointer pointer size }
{
    match pointer {
        PointerWidth::U16 => size < 1 << 16,
        PointerWidth::U32 => size < 1 << 32,
        PointerWidth::U64 => true,
    }
}

/// The constant that is this byte in each place of an access, with its sign repeated above.
pub fn repeated_byte(accesses: Accesses, byte: u8) -> i64
    requires { IsAccess accesses.ty accesses.bytes }
    ensures { RepeatsByte accesses.ty byte result }
{
    let everywhere = u64::from(byte) * 0x0101_0101_0101_0101;
    signed_at(everywhere.cast_signed(), accesses.ty)
}

// The greatest power of two that divides a size.
fn greatest_power(size: u64) -> u64
    requires { 0 < size }
    ensures { result ≡ greatest_power size }
{
    1 << size.trailing_zeros()
}
