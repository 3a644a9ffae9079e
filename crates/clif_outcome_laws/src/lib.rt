//! Laws of what instructions mean: the table of outcomes against memory. The functions here have empty bodies, and their
//! contracts are the laws of the definitions.
#![tactic(auto)]

ghost use Rattle.clif_outcome_laws.specs.ByteOperationExamples.{BytesWorkedOut};
ghost use Rattle.clif_outcome_laws.specs.Divisions.{SignedDivisionIsMathematical};
ghost use Rattle.clif_outcome_laws.specs.Integers.{ConversionsKeepNumbers, HalvesAreParts, PartsMakeWhole};
ghost use Rattle.clif_outcome_laws.specs.Lanes.{LaneExamples, VectorsAreLanes};
ghost use Rattle.clif_outcome_laws.specs.LibraryExamples.{LibraryExamples};
ghost use Rattle.clif_outcome_laws.specs.Locality.{OutcomesAreLocal};
ghost use Rattle.clif_outcome_laws.specs.MemoryExamples.{MemoryExamples};
ghost use Rattle.clif_outcome_laws.specs.Orders.{SignedOrderIsMathematical};

/// Loads, stores and traps, worked out.
pub fn memory_examples()
    ensures { MemoryExamples }
{}

/// Calls of functions of the C library, worked out.
pub fn library_examples()
    ensures { LibraryExamples }
{}

/// Copies, fills and comparisons as operations of scripts, worked out.
pub fn byte_operation_examples()
    ensures { BytesWorkedOut }
{}

/// An instruction depends on the bytes that it may touch alone, and changes those alone.
pub fn outcomes_are_local()
    ensures { OutcomesAreLocal }
{}

/// `iconcat` puts its operands side by side, the first one low.
pub fn halves_are_parts()
    ensures { HalvesAreParts }
{}

/// `isplit` takes an integer apart into its halves, which `iconcat` puts together again.
pub fn parts_make_whole()
    ensures { PartsMakeWhole }
{}

/// `sextend` keeps the signed number, `uextend` the unsigned one, and `ireduce` takes the low bits.
pub fn conversions_keep_numbers()
    ensures { ConversionsKeepNumbers }
{}

/// The conditions of `icmp` are the orders of the signed and of the unsigned numbers.
pub fn signed_order_is_mathematical()
    ensures { SignedOrderIsMathematical }
{}

/// Quotients and remainders are those of the signed and of the unsigned numbers, rounded toward zero.
pub fn signed_division_is_mathematical()
    ensures { SignedDivisionIsMathematical }
{}

/// A value of a vector is the list of its lanes, lowest first, also in memory, and `splat` fills each of them.
pub fn vectors_are_lanes()
    ensures { VectorsAreLanes }
{}

/// Lanes and `splat`, worked out.
pub fn lane_examples()
    ensures { LaneExamples }
{}
