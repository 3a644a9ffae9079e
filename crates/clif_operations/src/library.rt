//! Functions of the C library: their signatures, and what they do to bytes.
use crate::arithmetic::greatest;
use crate::fault::Fault;
use crate::memory::Memory;
use clif_types::{AbiParam, CallConv, LibCall, PointerWidth, Signature, Type, types};
use std::alloc::{AllocError, Global};
use std::cmp::Ordering;

/// A call of a function of the C library, by its three arguments: two addresses and how many bytes there are from each,
/// or for `Memset` an address, a number whose low byte is meant, and how many bytes.
#[derive(Clone, Copy)]
pub struct LibraryCall {
    /// The function.
    pub callee: LibCall,
    /// The width of a pointer.
    pub pointer_width: PointerWidth,
    /// The first argument.
    pub first: u128,
    /// The second.
    pub second: u128,
    /// How many bytes.
    pub size: u128,
}

/// The integer type of a pointer.
pub(crate) fn pointer_type(pointer_width: PointerWidth) -> Type {
    match pointer_width {
        PointerWidth::U16 => types::I16,
        PointerWidth::U32 => types::I32,
        PointerWidth::U64 => types::I64,
    }
}

/// The type of what a function gives.
pub fn library_result(callee: LibCall, pointer_width: PointerWidth) -> Type {
    match callee {
        LibCall::Memcmp => types::I32,
        LibCall::Memcpy | LibCall::Memmove | LibCall::Memset => pointer_type(pointer_width),
    }
}

// The types of what a function takes.
fn library_parameters(callee: LibCall, pointer_width: PointerWidth) -> [Type; 3] {
    let pointer = pointer_type(pointer_width);
    let second = match callee {
        LibCall::Memset => types::I32,
        LibCall::Memcpy | LibCall::Memmove | LibCall::Memcmp => pointer,
    };
    [pointer, second, pointer]
}

/// Whether a signature is the function's, by its types.
pub fn is_library_signature(
    callee: LibCall,
    pointer_width: PointerWidth,
    signature: &Signature,
) -> bool {
    let takes = library_parameters(callee, pointer_width);
    let params = signature.params.as_slice();
    let returns = signature.returns.as_slice();
    params.len() == 3
        && returns.len() == 1
        && params
            .iter()
            .zip(takes.iter())
            .all(|(param, ty)| param.value_type == *ty)
        && returns.iter().all(|given| given.value_type == library_result(callee, pointer_width))
}

/// The signature of a function, with this convention.
///
/// # Errors
///
/// `AllocError`, where memory is refused.
pub fn library_signature(
    alloc: Global,
    callee: LibCall,
    pointer_width: PointerWidth,
    call_conv: CallConv,
) -> Result<Signature, AllocError> {
    let mut params = Vec::new(alloc);
    for ty in library_parameters(callee, pointer_width).iter() {
        params.push(AbiParam::new(*ty))?;
    }
    let mut returns = Vec::new(alloc);
    returns.push(AbiParam::new(library_result(callee, pointer_width)))?;
    Ok(Signature {
        params,
        returns,
        call_conv,
    })
}

impl LibraryCall {
    // Where the bytes from an address on lie in memory. Addresses count modulo their width.
    fn places(&self, alloc: Global, memory: &Memory, address: u128) -> Result<Vec<usize>, Fault> {
        let mask = greatest(pointer_type(self.pointer_width));
        let mut places = Vec::new(alloc);
        let size = u64::try_from(self.size).unwrap_or(u64::MAX);
        for byte in 0..size {
            let at = address.wrapping_add(u128::from(byte)) & mask;
            if memory.is_hidden(at) {
                return Err(Fault::Hidden);
            }
            let Some(place) = memory.place_of(at) else {
                return Err(Fault::LibraryBytes);
            };
            places.push(place)?;
        }
        Ok(places)
    }

    // Whether a byte from the one address on is also one from the other address on: the other begins within it, or it
    // within the other.
    fn overlaps(&self) -> bool {
        let mask = greatest(pointer_type(self.pointer_width));
        let up = self.second.wrapping_sub(self.first) & mask;
        let down = self.first.wrapping_sub(self.second) & mask;
        up < self.size || down < self.size
    }

    // Puts the bytes that are at some places to other ones. They are all read before any is written.
    fn copies(
        alloc: Global,
        memory: &mut Memory,
        target: &[usize],
        source: &[usize],
    ) -> Result<(), Fault> {
        let mut bytes = Vec::new(alloc);
        for place in source {
            bytes.push(memory.get(*place))?;
        }
        for (place, byte) in target.iter().zip(bytes.iter()) {
            memory.put(*place, *byte);
        }
        Ok(())
    }

    // The order of the bytes at some places and at other ones, as a number of 32 bits with its sign.
    fn compares(memory: &Memory, left: &[usize], right: &[usize]) -> u128 {
        for (one, other) in left.iter().zip(right.iter()) {
            match memory.get(*one).cmp(&memory.get(*other)) {
                Ordering::Less => return greatest(types::I32),
                Ordering::Equal => {}
                Ordering::Greater => return 1,
            }
        }
        0
    }

    /// Does what the function does to memory; the answer is what it gives.
    ///
    /// # Errors
    ///
    /// `Hidden` where it touches a byte that is hidden, `LibraryBytes` where it touches one that isn't accessible, `Overlap` where
    /// `Memcpy` copies between bytes that overlap, and `Memory` where memory is refused.
    pub fn run(&self, alloc: Global, memory: &mut Memory) -> Result<u128, Fault> {
        let first = self.places(alloc, memory, self.first)?;
        let first = first.as_slice();
        if matches!(&self.callee, LibCall::Memset) {
            for place in first {
                memory.put(*place, (self.second % 256) as u8);
            }
            return Ok(self.first);
        }
        let second = self.places(alloc, memory, self.second)?;
        let second = second.as_slice();
        if matches!(&self.callee, LibCall::Memcmp) {
            return Ok(LibraryCall::compares(memory, first, second));
        }
        if matches!(&self.callee, LibCall::Memcpy) && self.overlaps() {
            return Err(Fault::Overlap);
        }
        LibraryCall::copies(alloc, memory, first, second)?;
        Ok(self.first)
    }
}
