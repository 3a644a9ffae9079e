//! Laws of values and their types in the runs of accepted scripts, and of functions that carry calls or pass `check`: in
//! each state every variable, name and value fits its type. The functions here have empty bodies, and their contracts are
//! the laws of the definitions.
#![tactic(auto)]

ghost use Rattle.clif_meaning.specs.World.{World};
ghost use Rattle.clif_value_laws.specs.Functions.{AcceptedScriptsNameValues, CarriedFunctionsFit, CheckedFunctionsFit};
ghost use Rattle.clif_value_laws.specs.FittingExamples.{FittingExamples};
ghost use Rattle.clif_value_laws.specs.Laws.{AcceptedScriptsFit};

/// In each state of the run of an accepted script that is well typed the values fit their types.
pub fn accepted_scripts_fit()
    ensures { AcceptedScriptsFit }
{}

/// In each state of the run of a function that passes the check, and whose results and aliases have their types, the
/// values fit their types.
pub fn checked_functions_fit()
    ensures { CheckedFunctionsFit }
{}

/// The operands and the contexts of the instructions of an accepted script are values.
pub fn accepted_scripts_name_values()
    ensures { AcceptedScriptsNameValues }
{}

/// In each state of the run of a function that carries well-typed calls, the values fit their types, once no parameter
/// waits.
pub fn carried_functions_fit()
    ensures { CarriedFunctionsFit }
{}

/// Values and their types, worked out, in every world.
pub fn fitting_examples()
    ensures { (world : World) → FittingExamples world }
{}
