//! The calls of a script that copy, fill and compare bytes.
ghost use Rattle.std.specs.Prelude.{◌≡◌};
ghost use Rattle.clif_meaning.specs.ByteOperation.{is_unsigned};
ghost use Rattle.clif_calls.specs.Memory.{called_by_compare, called_by_move, called_function, copying_function, is_nothing, result_of};

use crate::call::Name;
use clif_access_plans::{ComparePlan, MovePlan, plan_compare, plan_move};
use clif_types::types::{I8, I32};
use clif_types::{IntCC, LibCall, MemFlagsData, Type};
use std::num::NonZeroU8;

/// A memory helper, with names in place of values.
///
/// Addresses and sizes that are values are to be of the target's pointer type. A size that is a number fits that type.
#[derive(Clone, Copy)]
pub enum MemoryCall {
    /// `call_memcpy(dest, src, size)`, `call_memmove(dest, src, size)`, `call_memset(buffer, ch, size)` or
    /// `call_memcmp(left, right, size)`: a call of a function of the C library, imported anew with its signature. `ch` is an I8.
    /// Only a comparison answers: the function's number, an I32.
    CallLibrary {
        callee: LibCall,
        first: Name,
        second: Name,
        size: Name,
    },
    /// `emit_small_memory_copy(dest, src, size, dest_align, src_align, non_overlapping, flags)`, which answers nothing. The smaller
    /// alignment is at most the greatest power of two that divides the size. Of no bytes nothing is made.
    Copy {
        dest: Name,
        src: Name,
        size: u64,
        dest_align: u8,
        src_align: u8,
        non_overlapping: bool,
        flags: MemFlagsData,
    },
    /// `emit_small_memset(buffer, ch, size, buffer_align, flags)`, which answers nothing. The alignment is at most the greatest
    /// power of two that divides the size. Of no bytes nothing is made.
    Fill {
        buffer: Name,
        ch: u8,
        size: u64,
        buffer_align: u8,
        flags: MemFlagsData,
    },
    /// `emit_small_memory_compare(int_cc, left, right, size, left_align, right_align, flags)`, which answers an I8: 1 if the
    /// condition holds of the bytes, as unsigned numbers, and else 0. The condition is none of signed numbers.
    Compare {
        int_cc: IntCC,
        left: Name,
        right: Name,
        size: u64,
        left_align: NonZeroU8,
        right_align: NonZeroU8,
        flags: MemFlagsData,
    },
}

impl MemoryCall {
    /// The type of what it answers, if it compares.
    pub fn result(&self) -> Option<Type>
        ensures { result ≡ result_of self.now }
    {
        match self {
            MemoryCall::CallLibrary { callee, .. } => match callee {
                LibCall::Memcmp => Some(I32),
                LibCall::Memcpy | LibCall::Memmove | LibCall::Memset => None,
            },
            MemoryCall::Copy { .. } | MemoryCall::Fill { .. } => None,
            MemoryCall::Compare { .. } => Some(I8),
        }
    }

    /// Whether nothing is made: no bytes are copied or filled.
    pub fn is_nothing(&self) -> bool
        ensures { result ≡ is_nothing self.now }
    {
        match self {
            MemoryCall::Copy { size, .. } | MemoryCall::Fill { size, .. } => *size == 0,
            MemoryCall::CallLibrary { .. } | MemoryCall::Compare { .. } => false,
        }
    }

    /// The function of the C library that is called, if one is. It is imported anew, and its signature.
    pub fn called_function(&self) -> Option<LibCall>
        ensures { result ≡ called_function self.now }
    {
        match self {
            MemoryCall::CallLibrary { callee, .. } => Some(*callee),
            MemoryCall::Copy {
                size,
                non_overlapping,
                ..
            } => called_by_move(plan_move(*size), copying_function(*non_overlapping)),
            MemoryCall::Fill { size, .. } => called_by_move(plan_move(*size), LibCall::Memset),
            MemoryCall::Compare { int_cc, size, .. } => {
                if is_unsigned(*int_cc) {
                    called_by_compare(plan_compare(*int_cc, *size))
                } else {
                    None
                }
            }
        }
    }
}

// The function that copies bytes which don't overlap, or which may.
fn copying_function(non_overlapping: bool) -> LibCall
    ensures { result ≡ copying_function non_overlapping }
{
    if non_overlapping {
        LibCall::Memcpy
    } else {
        LibCall::Memmove
    }
}

// The function that is called where bytes are moved so: this one, if any.
fn called_by_move(plan: MovePlan, callee: LibCall) -> Option<LibCall>
    ensures { result ≡ called_by_move plan callee }
{
    match plan {
        MovePlan::LibraryCall => Some(callee),
        MovePlan::Nothing | MovePlan::Inline(_) => None,
    }
}

// The function that is called where bytes are compared so.
fn called_by_compare(plan: ComparePlan) -> Option<LibCall>
    ensures { result ≡ called_by_compare plan }
{
    match plan {
        ComparePlan::LibraryCall(_) => Some(LibCall::Memcmp),
        ComparePlan::Constant(_) | ComparePlan::Inline(_) => None,
    }
}

/// Whether bytes may be compared by the condition: it tells equality, or the order of unsigned numbers.
pub fn is_unsigned(cond: IntCC) -> bool
    ensures { result ≡ is_unsigned cond }
{
    match cond {
        IntCC::SignedLessThan
        | IntCC::SignedGreaterThanOrEqual
        | IntCC::SignedGreaterThan
        | IntCC::SignedLessThanOrEqual => false,
        _ => true,
    }
}
