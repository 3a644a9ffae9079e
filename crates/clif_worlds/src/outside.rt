//! Outside calls: what is shown of them, and what answers them.
use crate::error::Cause;
use clif_operations::arithmetic::greatest;
use clif_operations::{Fault, LibraryCall, Memory, Typed, is_library_signature, library_result};
use clif_types::{AbiParam, ExternalName, LibCall, PointerWidth, SigRef, Signature, Type, types};
use std::alloc::Global;
use std::fmt;

/// What is called.
#[derive(PartialEq, Eq, Drop)]
pub enum Callee {
    /// The function of this name.
    Named(ExternalName),
    /// What lies at this address, by the signature of this number.
    AtAddress(u128, SigRef),
}

impl fmt::Display for Callee {
    fn fmt<W: fmt::Write>(&self, f: &mut fmt::Formatter<W>) -> fmt::Result {
        match self {
            Callee::Named(name) => write!(f, "{name}"),
            Callee::AtAddress(address, signature) => write!(f, "{signature}, {address:#x}"),
        }
    }
}

/// An outside call as it is shown. What is in memory then isn't kept. It prints as `%f(64, 3)`, or as `sig0, 0x1000(64)`,
/// with the bits of the arguments as numbers.
#[derive(PartialEq, Eq, Drop)]
pub struct Event {
    /// What is called.
    pub callee: Callee,
    /// The bits of the arguments.
    pub arguments: Vec<u128>,
}

impl fmt::Display for Event {
    fn fmt<W: fmt::Write>(&self, f: &mut fmt::Formatter<W>) -> fmt::Result {
        let callee = &self.callee;
        write!(f, "{callee}(")?;
        for (index, bits) in self.arguments.iter().enumerate() {
            let comma = if index == 0 { "" } else { ", " };
            write!(f, "{comma}{bits}")?;
        }
        f.write_str(")")
    }
}

/// What lies outside. It answers each call by the events so far, of which the call itself is the last.
pub trait Outside {
    /// Which of so many items with an edge a try call goes along, from 0 on, where it throws; `None` where it returns.
    /// Where there is no such item, also since it is no try call, the run can't go on.
    fn thrown(&self, events: &[Event], items: usize) -> Option<usize>;

    /// The bits of what is returned or thrown at a place, from 0 on. They are cut to its type.
    fn value(&self, events: &[Event], place: usize) -> u128;

    /// Makes memory what it is after the call, outside spill slots.
    fn change(&self, events: &[Event], memory: &mut Memory);
}

/// Answers each call with zeros, and leaves memory as it is.
#[derive(Clone, Copy)]
pub struct Zeros;

impl Outside for Zeros {
    fn thrown(&self, _events: &[Event], _items: usize) -> Option<usize> {
        None
    }

    fn value(&self, _events: &[Event], _place: usize) -> u128 {
        0
    }

    fn change(&self, _events: &[Event], _memory: &mut Memory) {}
}

/// How a call was answered: what the parts `ret0` or `exn0` of its edges hold.
#[derive(Clone, Copy)]
pub enum Payload<'a> {
    /// The instruction is no call.
    None,
    /// It returned values of these types.
    Returned(&'a [AbiParam]),
    /// It threw.
    Thrown,
    /// A function of the C library gave what the state keeps.
    Gave,
}

impl Payload<'_> {
    /// The type of what was returned at a place.
    pub fn returned(self, place: usize) -> Option<Type> {
        match self {
            Payload::Returned(returns) => returns.get(place).map(|param| param.value_type),
            Payload::None | Payload::Thrown | Payload::Gave => None,
        }
    }

    /// The type of what was thrown at a place: two integers of 64 bits are.
    pub fn thrown(self, place: usize) -> Option<Type> {
        match self {
            Payload::Thrown if place < 2 => Some(types::I64),
            _ => None,
        }
    }
}

/// The low bits of an answer, as many as a type has.
pub fn cut(ty: Type, bits: u128) -> u128 {
    bits & greatest(ty)
}

/// Shows a call, and has it answered, which may change memory. The answer is which of so many items with an edge it goes
/// along, if it throws.
///
/// # Errors
///
/// Where it throws to an item that isn't there, and where memory is refused.
pub fn show<O: Outside>(
    outside: &O,
    events: &mut Vec<Event>,
    event: Event,
    items: usize,
    memory: &mut Memory,
) -> Result<Option<usize>, Cause> {
    events.push(event)?;
    let thrown = outside.thrown(events.as_slice(), items);
    outside.change(events.as_slice(), memory);
    match thrown {
        Some(item) if item >= items => Err(Cause::NoItem(item)),
        _ => Ok(thrown),
    }
}

/// What a function of the C library gives, called by this signature: it does its work.
///
/// # Errors
///
/// Where it has another signature or other arguments, touches bytes that aren't accessible, copies between bytes that
/// overlap though it must not, and where memory is refused.
pub fn call_library(
    alloc: Global,
    callee: LibCall,
    pointer_width: PointerWidth,
    signature: &Signature,
    arguments: &[u128],
    memory: &mut Memory,
) -> Result<Typed, Cause> {
    if !is_library_signature(callee, pointer_width, signature) {
        return Err(Cause::Fault(Fault::LibrarySignature));
    }
    let [first, second, size] = arguments else {
        return Err(Cause::CallArguments);
    };
    let call = LibraryCall {
        callee,
        pointer_width,
        first: *first,
        second: *second,
        size: *size,
    };
    let bits = call.run(alloc, memory)?;
    let ty = library_result(callee, pointer_width);
    Ok(Typed { ty, bits })
}
