//! What memory helpers do to bytes: a row for each. In a script each is one step.
use crate::arithmetic::greatest;
use crate::fault::Fault;
use crate::library::{LibraryCall, pointer_type};
use crate::memory::Memory;
use crate::operation::Typed;
use clif_opcodes::Opcode;
use clif_types::types::{I8, I32};
use clif_types::{IntCC, LibCall, PointerWidth, Type};
use std::alloc::Global;
use std::cmp::Ordering;

/// What is promised of an address: that it is a multiple of each of these numbers, which are powers of two.
#[derive(Clone, Copy)]
pub struct Promise {
    // the alignment that a helper is given
    alignment: u8,
    // that of an access with the flag `aligned`; 1 where there is none
    access: u8,
}

impl Promise {
    /// By the alignment that a helper is given, and that of its accesses with the flag `aligned`, which is 1 where there are none.
    pub fn new(alignment: u8, access: u8) -> Promise {
        Promise { alignment, access }
    }

    fn holds(self, address: u128) -> Result<(), Fault> {
        if !is_multiple(address, self.alignment) {
            Err(Fault::HelperAlignment)
        } else if is_multiple(address, self.access) {
            Ok(())
        } else {
            Err(Fault::NotAligned)
        }
    }
}

// Whether the alignment is a power of two that divides the address.
fn is_multiple(address: u128, alignment: u8) -> bool {
    alignment.is_power_of_two() && address % u128::from(alignment) == 0
}

/// What a memory helper does to bytes. Its operands are addresses, and what else a function of the C library takes.
#[derive(Clone, Copy)]
pub enum ByteOperation {
    /// Puts so many bytes that lie from the second operand on where they come from the first one on.
    Copy {
        size: u64,
        target: Promise,
        source: Promise,
        non_overlapping: bool,
    },
    /// Puts a byte to so many places from the operand on.
    Fill {
        byte: u8,
        size: u64,
        target: Promise,
    },
    /// Tells by 1 or 0 whether a condition holds of so many bytes from the first operand on and as many from the second one on.
    Compare {
        int_cc: IntCC,
        size: u64,
        left: Promise,
        right: Promise,
    },
    /// Calls a function of the C library on its operands, of which the byte of a fill is an I8.
    CallLibrary(LibCall),
}

impl ByteOperation {
    // The opcode of the last instruction that stands for it, where it is by accesses.
    fn opcode(self) -> Opcode {
        match self {
            ByteOperation::Copy { .. } | ByteOperation::Fill { .. } => Opcode::Store,
            ByteOperation::Compare { .. } => Opcode::Icmp,
            ByteOperation::CallLibrary(_) => Opcode::Call,
        }
    }

    /// What it does to memory; the answer is what it gives, if it compares.
    ///
    /// # Errors
    ///
    /// `Types` where an operand isn't a pointer, or the byte of a fill no I8; `HelperAlignment`, `NotAligned`, `HelperOverlap` and, of
    /// a call, `Overlap` where what is promised isn't true; `HelperBytes` and `LibraryBytes` where a byte isn't accessible; and
    /// `Memory` where memory is refused.
    pub fn run(
        self,
        alloc: Global,
        pointer_width: PointerWidth,
        operands: &[Typed],
        memory: &mut Memory,
    ) -> Result<Option<Typed>, Fault> {
        let row = Row {
            pointer_width,
            alloc,
        };
        match (self, operands) {
            (ByteOperation::CallLibrary(callee), [first, second, size]) => {
                row.has_types(self, &[*first, *size])?;
                row.has_second(callee, *second)?;
                row.call(callee, [first.bits, second.bits, size.bits], memory)
            }
            (
                ByteOperation::Copy {
                    size,
                    target,
                    source,
                    non_overlapping,
                },
                [to, from],
            ) => {
                row.has_types(self, operands)?;
                target.holds(to.bits)?;
                source.holds(from.bits)?;
                let callee = if non_overlapping {
                    LibCall::Memcpy
                } else {
                    LibCall::Memmove
                };
                row.does(callee, [to.bits, from.bits, u128::from(size)], memory)
            }
            (ByteOperation::Fill { byte, size, target }, [to]) => {
                row.has_types(self, operands)?;
                target.holds(to.bits)?;
                let (byte, size) = (u128::from(byte), u128::from(size));
                row.does(LibCall::Memset, [to.bits, byte, size], memory)
            }
            (
                ByteOperation::Compare {
                    int_cc,
                    size,
                    left,
                    right,
                },
                [one, other],
            ) => {
                row.has_types(self, operands)?;
                left.holds(one.bits)?;
                right.holds(other.bits)?;
                row.compare(int_cc, [one.bits, other.bits, u128::from(size)], memory)
            }
            _ => Err(Fault::Types(self.opcode())),
        }
    }
}

// Why a helper of a known size can't run, where a function of the C library can't that does the same.
fn of_helper(fault: Fault) -> Fault {
    match fault {
        Fault::LibraryBytes => Fault::HelperBytes,
        Fault::Overlap => Fault::HelperOverlap,
        other => other,
    }
}

// What a run of a helper needs beside memory.
#[derive(Clone, Copy)]
struct Row {
    alloc: Global,
    pointer_width: PointerWidth,
}

impl Row {
    fn pointer(self) -> Type {
        pointer_type(self.pointer_width)
    }

    // The operands are pointers.
    fn has_types(self, operation: ByteOperation, operands: &[Typed]) -> Result<(), Fault> {
        if operands.iter().all(|operand| operand.ty == self.pointer()) {
            Ok(())
        } else {
            Err(Fault::Types(operation.opcode()))
        }
    }

    // The second operand of a function of the C library is a pointer, or a byte.
    fn has_second(self, callee: LibCall, second: Typed) -> Result<(), Fault> {
        let wanted = match callee {
            LibCall::Memset => I8,
            LibCall::Memcpy | LibCall::Memmove | LibCall::Memcmp => self.pointer(),
        };
        if second.ty == wanted {
            Ok(())
        } else {
            Err(Fault::Types(Opcode::Call))
        }
    }

    // Calls a function of the C library on these bits; what `Memcmp` gives is given.
    fn call(
        self,
        callee: LibCall,
        operands: [u128; 3],
        memory: &mut Memory,
    ) -> Result<Option<Typed>, Fault> {
        let [first, second, size] = operands;
        let call = LibraryCall {
            callee,
            pointer_width: self.pointer_width,
            first,
            second,
            size,
        };
        let bits = call.run(self.alloc, memory)?;
        Ok(match callee {
            LibCall::Memcmp => Some(Typed { ty: I32, bits }),
            LibCall::Memcpy | LibCall::Memmove | LibCall::Memset => None,
        })
    }

    // Does the same by accesses.
    fn does(
        self,
        callee: LibCall,
        operands: [u128; 3],
        memory: &mut Memory,
    ) -> Result<Option<Typed>, Fault> {
        match self.call(callee, operands, memory) {
            Err(fault) => Err(of_helper(fault)),
            given => given,
        }
    }

    // Whether a condition holds of the order of bytes.
    fn compare(
        self,
        int_cc: IntCC,
        operands: [u128; 3],
        memory: &mut Memory,
    ) -> Result<Option<Typed>, Fault> {
        let order = match self.does(LibCall::Memcmp, operands, memory)? {
            Some(Typed { bits, .. }) if bits == 0 => Ordering::Equal,
            Some(Typed { bits, .. }) if bits <= greatest(I32) / 2 => Ordering::Greater,
            _ => Ordering::Less,
        };
        let bits = u128::from(holds(int_cc, order));
        Ok(Some(Typed { ty: I8, bits }))
    }
}

// Whether a condition holds of two lists of bytes in this order. Bytes are unsigned, so that signed conditions say nothing of them.
fn holds(int_cc: IntCC, order: Ordering) -> bool {
    match int_cc {
        IntCC::Equal => order.is_eq(),
        IntCC::NotEqual => order.is_ne(),
        IntCC::UnsignedLessThan => order.is_lt(),
        IntCC::UnsignedGreaterThanOrEqual => order.is_ge(),
        IntCC::UnsignedGreaterThan => order.is_gt(),
        IntCC::UnsignedLessThanOrEqual => order.is_le(),
        _ => false,
    }
}
