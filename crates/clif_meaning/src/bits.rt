//! Laws of bits, bytes and memory.
#![tactic(auto)]

ghost use Rattle.clif_meaning.specs.Memory.{MemoryLaws};
ghost use Rattle.clif_meaning.specs.Bits.{BitsAreLists, ValuesAreBytes};

/// The numbers below a power of two are the lists of bits.
pub fn bits_are_lists()
    ensures { BitsAreLists }
{}

/// Values of whole bytes are the lists of bytes, lowest first.
pub fn values_are_bytes()
    ensures { ValuesAreBytes }
{}

/// What was written, copied or filled is read again, and nothing else changes.
pub fn memory_laws()
    ensures { MemoryLaws }
{}
