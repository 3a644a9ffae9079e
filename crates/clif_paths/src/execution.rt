//! Execution of both sides, one arm at a time.

ghost use Rattle.clif_paths.specs.Laws.{ProgramIsExecuted, FunctionIsExecuted, ProgramKnowsThePast, FunctionKnowsThePast};

/// What variables and names denote after one arm more.
pub fn program_is_executed()
    ensures { ProgramIsExecuted }
{}

/// What values denote after one arm more.
pub fn function_is_executed()
    ensures { FunctionIsExecuted }
{}

/// What variables and names denote arose on the path so far.
pub fn program_knows_the_past()
    ensures { ProgramKnowsThePast }
{}

/// What values denote arose on the path so far.
pub fn function_knows_the_past()
    ensures { FunctionKnowsThePast }
{}
