//! Laws of typed runs: in each state of the run of a typed script or function every variable, name and value fits its
//! type. The functions here have empty bodies, and their contracts are the laws of the definitions.
#![tactic(auto)]

ghost use Rattle.clif_typed_runs.specs.Laws.{FunctionRunsFit, FunctionStepsFit, MemoryHoldsBytes, ScriptRunsFit, ScriptStepsFit};

/// A step of the script's machine from a state whose values fit their types leads to another one.
pub fn script_steps_fit()
    ensures { ScriptStepsFit }
{}

/// In each state of the run of a typed script the values fit their types.
pub fn script_runs_fit()
    ensures { ScriptRunsFit }
{}

/// A step of the function's machine from a state whose values fit their types leads to another one.
pub fn function_steps_fit()
    ensures { FunctionStepsFit }
{}

/// In each state of the run of a typed function the values fit their types.
pub fn function_runs_fit()
    ensures { FunctionRunsFit }
{}

/// In each state of a script's run memory holds bytes.
pub fn memory_holds_bytes()
    ensures { MemoryHoldsBytes }
{}
