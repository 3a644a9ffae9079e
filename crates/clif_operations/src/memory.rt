//! Memory of a run: accessible bytes that lie one after another, and the stack slots in it.
use crate::arithmetic::{constant, greatest};
use crate::fault::{Fault, Stop};
use crate::library::pointer_type;
use clif_types::{EntityRef, MemFlagsData, PointerWidth, StackSlot, TrapCode, Type};
use std::alloc::{AllocError, Global};

/// The accessible bytes, which lie one after another from an address on. No other byte is accessible. Some of them may be hidden:
/// those of stack slots that only the other one of two runs has.
#[derive(Clone, PartialEq, Eq, Drop)]
pub struct Memory {
    start: u64,
    bytes: Vec<u8>,
    hidden: Vec<SlotRange>,
}

/// The addresses of a stack slot: from one up to another, which isn't among them.
#[derive(Clone, Copy, PartialEq, Eq)]
pub struct SlotRange {
    start: u64,
    end: u64,
}

impl SlotRange {
    fn contains(self, address: u128) -> bool {
        u128::from(self.start) <= address && address < u128::from(self.end)
    }
}

/// An access: of what type, where, and what is claimed of it.
#[derive(Drop)]
pub(crate) struct Access {
    /// The type of what is accessed.
    pub(crate) ty: Type,
    /// The type of the address.
    pub(crate) address_type: Type,
    /// The address, to which the offset is added.
    pub(crate) address: u128,
    /// The distance from the address.
    pub(crate) offset: i32,
    /// What is claimed.
    pub(crate) flags: MemFlagsData,
}

impl Access {
    /// The address of a byte of what is accessed. Addresses count modulo their width.
    pub(crate) fn byte_address(&self, byte: u32) -> u128 {
        let offset = constant(self.address_type, i64::from(self.offset));
        let sum = self.address.wrapping_add(offset);
        sum.wrapping_add(u128::from(byte)) & greatest(self.address_type)
    }

    fn is_aligned(&self) -> bool {
        self.byte_address(0) % u128::from(self.ty.bytes().max(1)) == 0
    }
}

impl Memory {
    /// Memory whose accessible bytes, so many from an address on, are zero.
    ///
    /// # Errors
    ///
    /// `AllocError`, where memory is refused.
    pub fn zeros(alloc: Global, start: u64, size: usize) -> Result<Memory, AllocError> {
        let mut bytes = Vec::new(alloc);
        for _ in 0..size {
            bytes.push(0)?;
        }
        let hidden = Vec::new(alloc);
        Ok(Memory {
            start,
            bytes,
            hidden,
        })
    }

    /// Hides the bytes of a stack slot. An access to one of them is a fault from now on.
    ///
    /// # Errors
    ///
    /// `AllocError`, where memory is refused.
    pub fn hide(&mut self, slot: SlotRange) -> Result<(), AllocError> {
        self.hidden.push(slot)?;
        Ok(())
    }

    // Whether the byte at an address is hidden.
    pub(crate) fn is_hidden(&self, address: u128) -> bool {
        self.hidden.iter().any(|slot| slot.contains(address))
    }

    /// The address of the first byte in which it differs from memory that begins at the same address. Hidden bytes aren't compared.
    pub fn first_difference(&self, other: &Memory) -> Option<u64> {
        for (place, (one, two)) in self.bytes.iter().zip(other.bytes.iter()).enumerate() {
            let address = self.start.saturating_add(place as u64);
            if *one != *two && !self.is_hidden(u128::from(address)) {
                return Some(address);
            }
        }
        None
    }

    /// The address of the first accessible byte.
    pub fn start(&self) -> u64 {
        self.start
    }

    /// The accessible bytes.
    pub fn bytes(&self) -> &[u8] {
        self.bytes.as_slice()
    }

    // The address behind the last accessible byte, where addresses don't count modulo any width.
    pub(crate) fn end(&self) -> u128 {
        let size = self.bytes.len();
        u128::from(self.start).wrapping_add(size as u128)
    }

    /// Puts a byte at a place among the accessible ones, if there are so many.
    pub fn put(&mut self, place: usize, byte: u8) {
        if let Some(held) = self.bytes.get_mut(place) {
            *held = byte;
        }
    }

    // A byte at a place among the accessible ones; zero where there are fewer.
    pub(crate) fn get(&self, place: usize) -> u8 {
        self.bytes.get(place).copied().unwrap_or(0)
    }

    // Where a byte of what is accessed lies among the accessible ones, if it is one of them.
    fn place(&self, access: &Access, byte: u32) -> Option<usize> {
        self.place_of(access.byte_address(byte))
    }

    // Where the byte at an address lies among the accessible ones, if it is one of them.
    pub(crate) fn place_of(&self, address: u128) -> Option<usize> {
        let distance = address.checked_sub(u128::from(self.start))?;
        let place = usize::try_from(distance).ok()?;
        if place < self.bytes.len() {
            Some(place)
        } else {
            None
        }
    }

    // A byte of what is accessed, or zero if it isn't accessible.
    fn byte(&self, access: &Access, byte: u32) -> u8 {
        let Some(place) = self.place(access, byte) else {
            return 0;
        };
        self.get(place)
    }

    // What becomes of an access before it is made. What is hidden is asked first, and then what is claimed.
    fn allows(&self, access: &Access) -> Result<(), Stop> {
        if (0..access.ty.bytes()).any(|byte| self.is_hidden(access.byte_address(byte))) {
            return Err(Stop::Fault(Fault::Hidden));
        }
        if access.flags.aligned() && !access.is_aligned() {
            return Err(Stop::Fault(Fault::NotAligned));
        }
        if (0..access.ty.bytes()).all(|byte| self.place(access, byte).is_some()) {
            return Ok(());
        }
        if access.flags.notrap() {
            Err(Stop::Fault(Fault::NotAccessible))
        } else {
            Err(Stop::Trap(TrapCode::HeapOutOfBounds))
        }
    }

    /// The bits that are there, of which at most 128 are kept. The lowest byte comes first.
    pub(crate) fn load(&self, access: &Access) -> Result<u128, Stop> {
        self.allows(access)?;
        let mut bits = 0u128;
        for byte in (0..access.ty.bytes()).rev() {
            bits = bits.wrapping_shl(8) | u128::from(self.byte(access, byte));
        }
        Ok(bits)
    }

    /// Puts bits there.
    pub(crate) fn store(&mut self, access: &Access, bits: u128) -> Result<(), Stop> {
        self.allows(access)?;
        let mut left = bits;
        for byte in 0..access.ty.bytes() {
            if let Some(place) = self.place(access, byte) {
                self.put(place, (left % 256) as u8);
            }
            left = left / 256;
        }
        Ok(())
    }
}

/// Where the stack slots lie: in order, each at the next address that its alignment allows.
#[derive(Drop)]
pub struct Slots {
    pointer: Type,
    ranges: Vec<SlotRange>,
    next: u64,
}

impl Slots {
    /// No slot so far; the first one comes to this address, or behind it.
    pub fn new(alloc: Global, pointer: PointerWidth, start: u64) -> Slots {
        Slots {
            pointer: pointer_type(pointer),
            ranges: Vec::new(alloc),
            next: start,
        }
    }

    /// Where the slots so far lie, in order.
    pub fn ranges(&self) -> &[SlotRange] {
        self.ranges.as_slice()
    }

    /// Places one more slot, of so many bytes, whose address is a multiple of 2 to the power of `shift`. It ends at most
    /// at `limit`, where accessible memory ends.
    pub(crate) fn add(&mut self, size: u32, shift: u8, limit: u128) -> Result<(), Fault> {
        let Some(range) = placed(self.next, size, shift) else {
            return Err(Fault::NoPlace);
        };
        let end = u128::from(range.end);
        let above = greatest(self.pointer).saturating_add(1);
        if end > above || end > limit {
            return Err(Fault::NoPlace);
        }
        self.ranges.push(range)?;
        self.next = range.end;
        Ok(())
    }

    /// An access to a slot, which claims nothing. Its address counts modulo the width of pointers.
    pub(crate) fn access(&self, ty: Type, slot: StackSlot, offset: i32) -> Result<Access, Fault> {
        let Some(range) = self.ranges.get(slot.index()) else {
            return Err(Fault::NoPlace);
        };
        Ok(Access {
            ty,
            address_type: self.pointer,
            address: u128::from(range.start),
            offset,
            flags: MemFlagsData::new(),
        })
    }
}

// Where a slot lies that begins at an address or behind it.
fn placed(next: u64, size: u32, shift: u8) -> Option<SlotRange> {
    let align = 1u64.checked_shl(u32::from(shift))?.max(1);
    let start = next.checked_add(align - 1)? / align * align;
    let end = start.checked_add(u64::from(size))?;
    Some(SlotRange { start, end })
}
