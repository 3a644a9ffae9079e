//! Laws on two finished functions whose scripts differ only in when blocks are sealed, or in the order in which the entries of a
//! switch are set. The contracts of the functions here are the laws; their bodies are empty, or cite other laws.
#![tactic(auto)]

ghost use Rattle.clif_sealing_laws.specs.Examples.{SealingLawExamples};
ghost use Rattle.clif_sealing_laws.specs.Laws.{BuiltFunctionsAgree, ReplayedFunctionsAgree, ReplayedSlotsAgree};
ghost use Rattle.clif_sealing_laws.specs.SwitchOrder.{SwitchOrderIsFree};

use clif_premise_examples::{premises_are_met, the_premises_are_these};
use clif_simulation::examples::sample_meets_premises;

/// Two finished functions, whose builders stood for calls that differ only in when blocks are sealed, have the same meaning
/// in each world in which one of the scripts meets the premises.
pub fn built_functions_agree()
    ensures { BuiltFunctionsAgree }
{}

/// So do the functions that `replay` returns for two lists of calls that differ only in when blocks are sealed, if these functions
/// have the same list of slots, also where calls emit and ask for stack maps; and they have, where no value is recorded for maps.
pub fn replayed_functions_agree()
    ensures agree { ReplayedFunctionsAgree }
    ensures slots { ReplayedSlotsAgree }
{}

/// Lists of calls that differ in the order in which the entries of a switch are set are one script: all that `replay` says of
/// what they mean, and of whether they are accepted, is the same.
pub fn switch_order_is_free()
    ensures { SwitchOrderIsFree }
{}

/// Lists of calls that differ only in when blocks are sealed, some of which emit, and three that differ in more; a loop, copies and a
/// switch that meet the premises however their blocks are sealed.
pub fn sealing_law_examples()
    ensures { SealingLawExamples }
{
    sample_meets_premises();
    premises_are_met();
    the_premises_are_these();
}
