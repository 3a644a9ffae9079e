//! Laws of machines and of same meaning.
#![tactic(auto)]

ghost use Rattle.clif_meaning.specs.SameMeaning.{SameMeaningIsAnEquivalence, KeepingUpMeansTheSame};
ghost use Rattle.clif_meaning.specs.Laws.{EndedMachinesStay, OutcomesFit};

/// Same meaning is an equivalence.
pub fn same_meaning_is_an_equivalence()
    ensures { SameMeaningIsAnEquivalence }
{}

/// Two runs of which one keeps up with the other, however many steps it takes for each of the other's, have the same
/// meaning.
pub fn keeping_up_means_the_same()
    ensures { KeepingUpMeansTheSame }
{}

/// A machine that returned, trapped or is stuck stays so.
pub fn ended_machines_stay()
    ensures { EndedMachinesStay }
{}

/// An instruction whose operands have the types that the typing table asks for has a meaning, and gives values of the
/// types of its results.
pub fn outcomes_fit()
    ensures { OutcomesFit }
{}
