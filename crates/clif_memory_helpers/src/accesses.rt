//! Copies, fills and comparisons by loads and stores.
#![tactic(auto)]

ghost use Rattle.std.specs.Prelude.{◌≡◌, ◌<◌, ◌*◌, false, length, IsTrue, pos};
ghost use Rattle.clif_types.specs.Types.{is_type};
ghost use Rattle.clif_builder.specs.Builder.{HasCurrent};
ghost use Rattle.clif_helper_calls.specs.Codes.{flags_where};
ghost use Rattle.clif_memory_helpers.specs.Steps.{AllTyped, ArePlanned, ComparesLoads, CopiesPieces, FillsPieces, LoadsPieces, StoresPieces, copy_flags};

use clif_access_plans::{Accesses, repeated_byte};
use clif_builder::laws::{ledger_is_read_by_number, requests_ask_for_their_shapes};
use clif_builder::{FunctionBuilder, InstBuilder};
use clif_types::{BuildError, IntCC, MemFlagsData, Type, Value};

// How many accesses a copy or a fill makes at most.
const MOST_ACCESSES: usize = 4;

/// What is loaded, and with which flags.
#[derive(Clone, Copy)]
pub(crate) struct Side {
    pub(crate) address: Value,
    pub(crate) flags: MemFlagsData,
}

// A copy: all is loaded before anything is stored, since the places may overlap.
pub(crate) fn copy_pieces<R>(
    bx: &mut FunctionBuilder<'_, R>,
    accesses: Accesses,
    flags: MemFlagsData,
    target: Value,
    source: Value,
) -> Result<(), BuildError>
    requires current { HasCurrent bx.old }
    requires planned { ArePlanned accesses }
    requires target_exists { target < length bx.old.func.now.values }
    requires source_exists { source < length bx.old.func.now.values }
    requires sound { bx.old.failed ≡ false }
    ensures { CopiesPieces accesses flags target source bx.old bx.new result }
{
    ledger_is_read_by_number();
    let loaded = load_pieces(bx, accesses, flags, source)?;
    store_pieces(
        bx,
        accesses,
        flags,
        target,
        &loaded[..usize::from(accesses.count)],
    )
}

// A fill: one constant, which is stored into each place.
pub(crate) fn fill_pieces<R>(
    bx: &mut FunctionBuilder<'_, R>,
    accesses: Accesses,
    flags: MemFlagsData,
    target: Value,
    byte: u8,
) -> Result<(), BuildError>
    requires current { HasCurrent bx.old }
    requires planned { ArePlanned accesses }
    requires target_exists { target < length bx.old.func.now.values }
    ensures { FillsPieces accesses flags target byte bx.old bx.new result }
{
    ledger_is_read_by_number();
    requests_ask_for_their_shapes();
    let constant = bx.iconst(accesses.ty, repeated_byte(accesses, byte))?;
    let stored = [constant; MOST_ACCESSES];
    store_pieces(
        bx,
        accesses,
        flags,
        target,
        &stored[..usize::from(accesses.count)],
    )
}

// Loads, one place behind another. Behind what was loaded the array has the address again.
fn load_pieces<R>(
    bx: &mut FunctionBuilder<'_, R>,
    accesses: Accesses,
    flags: MemFlagsData,
    source: Value,
) -> Result<[Value; MOST_ACCESSES], BuildError>
    requires current { HasCurrent bx.old }
    requires planned { ArePlanned accesses }
    requires source_exists { source < length bx.old.func.now.values }
    requires sound { bx.old.failed ≡ false }
    ensures { LoadsPieces accesses flags source accesses.count bx.old bx.new result }
{
    ledger_is_read_by_number();
    requests_ask_for_their_shapes();
    let mut loaded = [source; MOST_ACCESSES];
    for number in 0..accesses.count {
        let offset = offset_of(number, accesses.bytes);
        loaded[usize::from(number)] = bx.load(accesses.ty, flags, source, offset)?;
    }
    Ok(loaded)
}

// Stores of these values, one place behind another.
fn store_pieces<R>(
    bx: &mut FunctionBuilder<'_, R>,
    accesses: Accesses,
    flags: MemFlagsData,
    target: Value,
    values: &[Value],
) -> Result<(), BuildError>
    requires current { HasCurrent bx.old }
    requires many { length values.now ≡ accesses.count }
    requires target_exists { target < length bx.old.func.now.values }
    requires typed { AllTyped bx.old accesses.ty values.now }
    requires sound { bx.old.failed ≡ false }
    ensures { StoresPieces accesses flags target values.now bx.old bx.new result }
{
    ledger_is_read_by_number();
    requests_ask_for_their_shapes();
    for number in 0..accesses.count {
        let offset = offset_of(number, accesses.bytes);
        bx.store(flags, values[usize::from(number)], target, offset)?;
    }
    Ok(())
}

// Where the piece with this number begins.
fn offset_of(number: u8, bytes: u8) -> i32
    ensures { result ≡ pos (number * bytes) }
{
    i32::from(u16::from(number) * u16::from(bytes))
}

// A comparison of what is loaded on both sides.
pub(crate) fn compare_loads<R>(
    bx: &mut FunctionBuilder<'_, R>,
    cond: IntCC,
    ty: Type,
    left: Side,
    right: Side,
) -> Result<Value, BuildError>
    requires current { HasCurrent bx.old }
    requires valid { IsTrue (is_type ty) }
    requires left_exists { left.address < length bx.old.func.now.values }
    requires right_exists { right.address < length bx.old.func.now.values }
    ensures { ComparesLoads cond ty left right bx.old bx.new result }
{
    ledger_is_read_by_number();
    requests_ask_for_their_shapes();
    let left = bx.load(ty, left.flags, left.address, 0)?;
    let right = bx.load(ty, right.flags, right.address, 0)?;
    bx.icmp(cond, left, right)
}

// The flags of a copy, which say that its accesses are aligned where both addresses are.
pub(crate) fn copy_flags(
    flags: MemFlagsData,
    accesses: Accesses,
    dest_align: u8,
    src_align: u8,
) -> MemFlagsData
    ensures { result ≡ copy_flags flags accesses dest_align src_align }
{
    flags_where(
        flags,
        accesses.are_aligned(dest_align) && accesses.are_aligned(src_align),
    )
}

// The flags, which say that the access is aligned if it is.
pub(crate) fn flags_where(mut flags: MemFlagsData, reaches: bool) -> MemFlagsData
    ensures { result ≡ flags_where flags reaches }
{
    if reaches {
        flags.set_aligned();
    }
    flags
}
