//! Memory helpers, of accessible bytes alone, which promise what is true.
use super::Generator;
use crate::worlds::{SIZE, START};
use clif_calls::{Call, MemoryCall, Name, PlainInstruction};
use clif_types::types::{I8, I64};
use clif_types::{IntCC, LibCall, MemFlagsData};
use rand::RngExt;
use rand::seq::IndexedRandom;
use std::alloc::AllocError;
use std::num::NonZeroU8;

/// What a helper does.
#[derive(Clone, Copy)]
enum Help {
    Copy,
    Fill,
    Compare,
    CallCopy,
    CallFill,
    CallCompare,
}

const HELPS: [Help; 6] = [
    Help::Copy,
    Help::Fill,
    Help::Compare,
    Help::CallCopy,
    Help::CallFill,
    Help::CallCompare,
];

/// The conditions by which bytes are compared.
const ORDERS: [IntCC; 6] = [
    IntCC::Equal,
    IntCC::NotEqual,
    IntCC::UnsignedLessThan,
    IntCC::UnsignedGreaterThanOrEqual,
    IntCC::UnsignedGreaterThan,
    IntCC::UnsignedLessThanOrEqual,
];

/// Some accessible bytes: how far the first one lies behind the first of all, and how many there are.
#[derive(Clone, Copy)]
struct Range {
    place: u64,
    size: u64,
}

impl Range {
    // No byte is in both.
    fn is_apart(self, other: Range) -> bool {
        self.place.saturating_add(self.size) <= other.place
            || other.place.saturating_add(other.size) <= self.place
    }
}

impl Generator {
    // A helper at random.
    pub(super) fn help(&mut self) -> Result<(), AllocError> {
        let Some(help) = HELPS.as_slice().choose(&mut self.random) else {
            return Ok(());
        };
        let size = self.random.random_range(0u64..41);
        let (one, other) = (self.range(size), self.range(size));
        match *help {
            Help::Copy => self.copy(one, other),
            Help::Fill => self.fill_bytes(one),
            Help::Compare => self.compare(one, other),
            Help::CallCopy => self.call_copy(one, other),
            Help::CallFill => self.call_fill(one),
            Help::CallCompare => self.call_compare(one, other),
        }
    }

    // So many bytes, of which there are at most 40.
    fn range(&mut self, size: u64) -> Range {
        let places = (SIZE as u64).saturating_sub(size).saturating_add(1);
        let place = self.random.random_range(0u64..1024);
        let place = place.checked_rem(places).unwrap_or(0);
        Range { place, size }
    }

    // The address of its first byte.
    fn address_of(&mut self, range: Range) -> Result<Name, AllocError> {
        let address = START.saturating_add(range.place);
        self.constant(i64::try_from(address).unwrap_or(i64::MAX))
    }

    // How many bytes there are.
    fn size_of(&mut self, range: Range) -> Result<Name, AllocError> {
        self.constant(i64::try_from(range.size).unwrap_or(i64::MAX))
    }

    // A power of two that divides the address and the size.
    fn alignment(&mut self, range: Range) -> u8 {
        let shifts = (range.place | range.size | 8).trailing_zeros().min(3);
        let shift = self.random.random_range(0u32..4).min(shifts);
        1u8.wrapping_shl(shift)
    }

    fn flags(&mut self) -> MemFlagsData {
        let mut flags = MemFlagsData::new();
        if self.random.random_range(0u32..2) == 0 {
            flags.set_notrap();
        }
        flags
    }

    fn copy(&mut self, target: Range, source: Range) -> Result<(), AllocError> {
        let (dest, src) = (self.address_of(target)?, self.address_of(source)?);
        let (dest_align, src_align) = (self.alignment(target), self.alignment(source));
        let flags = self.flags();
        self.call(Call::Memory(MemoryCall::Copy {
            dest,
            src,
            size: target.size,
            dest_align,
            src_align,
            non_overlapping: target.is_apart(source),
            flags,
        }))?;
        Ok(())
    }

    fn fill_bytes(&mut self, target: Range) -> Result<(), AllocError> {
        let buffer = self.address_of(target)?;
        let ch = (self.random.random_range(0u32..256) % 256) as u8;
        let buffer_align = self.alignment(target);
        let flags = self.flags();
        self.call(Call::Memory(MemoryCall::Fill {
            buffer,
            ch,
            size: target.size,
            buffer_align,
            flags,
        }))?;
        Ok(())
    }

    fn compare(&mut self, one: Range, other: Range) -> Result<(), AllocError> {
        let (left, right) = (self.address_of(one)?, self.address_of(other)?);
        let (Some(left_align), Some(right_align)) = (
            NonZeroU8::new(self.alignment(one)),
            NonZeroU8::new(self.alignment(other)),
        ) else {
            return Ok(());
        };
        let Some(int_cc) = ORDERS.as_slice().choose(&mut self.random) else {
            return Ok(());
        };
        let int_cc = *int_cc;
        let flags = self.flags();
        let holds = self.call(Call::Memory(MemoryCall::Compare {
            int_cc,
            left,
            right,
            size: one.size,
            left_align,
            right_align,
            flags,
        }))?;
        self.give_wide(holds)
    }

    // A call of a function of the C library.
    fn call_helper(
        &mut self,
        callee: LibCall,
        first: Name,
        second: Name,
        size: Name,
    ) -> Result<Name, AllocError> {
        self.call(Call::Memory(MemoryCall::CallLibrary {
            callee,
            first,
            second,
            size,
        }))
    }

    fn call_copy(&mut self, target: Range, source: Range) -> Result<(), AllocError> {
        let (first, second) = (self.address_of(target)?, self.address_of(source)?);
        let size = self.size_of(target)?;
        let callee = if target.is_apart(source) {
            LibCall::Memcpy
        } else {
            LibCall::Memmove
        };
        self.call_helper(callee, first, second, size)?;
        Ok(())
    }

    fn call_fill(&mut self, target: Range) -> Result<(), AllocError> {
        let first = self.address_of(target)?;
        let size = self.size_of(target)?;
        let x = self.value();
        let ch = self.instruction(PlainInstruction::Ireduce { ty: I8, x })?;
        self.call_helper(LibCall::Memset, first, ch, size)?;
        Ok(())
    }

    fn call_compare(&mut self, one: Range, other: Range) -> Result<(), AllocError> {
        let (first, second) = (self.address_of(one)?, self.address_of(other)?);
        let size = self.size_of(one)?;
        let number = self.call_helper(LibCall::Memcmp, first, second, size)?;
        self.give_wide(number)
    }

    // An answer, made as wide as the other values.
    pub(super) fn give_wide(&mut self, x: Name) -> Result<(), AllocError> {
        let value = self.instruction(PlainInstruction::Uextend { ty: I64, x })?;
        self.give(value)
    }
}
