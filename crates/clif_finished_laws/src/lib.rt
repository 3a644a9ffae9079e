//! What a finished function means: the laws that compose what the construction promises of a function and what the spiller makes of it.
//! The functions here have empty bodies, and their contracts are the laws of the definitions.
#![tactic(auto)]

ghost use Rattle.clif_finished_laws.specs.Laws.{CarryingKeepsInOrder, CarryingSpares, SpilledMeansTheScript};

/// Where the accesses of a script's run spare the addresses of spill slots, so do those of the function that carries its calls.
pub fn carrying_spares()
    ensures { CarryingSpares }
{}

/// A finished function that carries calls keeps its runs in order: recorded values fit their types, each result gets bits, and spill
/// slots are spared where the script spares them.
pub fn carrying_keeps_in_order()
    ensures { CarryingKeepsInOrder }
{}

/// A function means the script under a collector over the recorded values; where the script's premises about places hold, the spilled
/// one means under the collector by stack maps what that function means. So the spilled one means the script.
pub fn spilled_means_the_script()
    ensures { SpilledMeansTheScript }
{}
