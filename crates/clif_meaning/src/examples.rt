//! Worked examples of the definitions, by computation.
#![tactic(auto)]

ghost use Rattle.clif_meaning.specs.BranchExamples.{BranchExamples};
ghost use Rattle.clif_meaning.specs.ChangeExamples.{ChangeExamples};
ghost use Rattle.clif_meaning.specs.CallExamples.{CallExamples, EdgeExamples};
ghost use Rattle.clif_meaning.specs.Examples.{ArithmeticExamples, ByteExamples, SwitchExamples, FirstAnswersSeven, FirstMeansTheSame, WrongFunctionsAreRefused, EightIsNotSeven, EmptyIsStuck, VerdictExamples, RefusalExamples};
ghost use Rattle.clif_meaning.specs.ParameterExamples.{ParameterExamples};
ghost use Rattle.clif_meaning.specs.SampleExamples.{SampleExamples};
ghost use Rattle.clif_meaning.specs.ScriptExamples.{LedgerExamples, PathExamples};
ghost use Rattle.clif_meaning.specs.TryExamples.{TryExamples};
ghost use Rattle.clif_meaning.specs.ViewExamples.{ViewExamples};

/// Constants and sums.
pub fn arithmetic_examples()
    ensures { ArithmeticExamples }
{}

/// Differences, branches, and the row `both_arms`, which answers 0 on both machines in every world.
pub fn branch_examples()
    ensures { BranchExamples }
{}

/// Branches that are changed, and the rows `change_both` and `change_one`, which answer 1 on both machines in every world; and
/// an unsealed entry that a branch names, which is changed then.
pub fn change_examples()
    ensures { ChangeExamples }
{}

/// Bytes of values, copies over themselves, fills and comparisons.
pub fn byte_examples()
    ensures { ByteExamples }
{}

/// A switch of seven keys.
pub fn switch_examples()
    ensures { SwitchExamples }
{}

/// The row `first` answers 7 on both machines, in every world.
pub fn first_answers_seven()
    ensures { FirstAnswersSeven }
{}

/// The row `first` meets the premises, and its function means what its script means.
pub fn first_means_the_same()
    ensures { FirstMeansTheSame }
{}

/// Functions of which the theorem isn't true, and a signature that doesn't meet the premises.
pub fn wrong_functions_are_refused()
    ensures { WrongFunctionsAreRefused }
{}

/// A function that answers 8 in its place has not the same meaning, in any world.
pub fn eight_is_not_seven()
    ensures { EightIsNotSeven }
{}

/// A script without calls and a function without blocks are stuck at once.
pub fn empty_is_stuck()
    ensures { EmptyIsStuck }
{}

/// What the ledger of the row `first` tells.
pub fn ledger_examples()
    ensures { LedgerExamples }
{}

/// A script whose entry takes the function's parameters and passes their difference to a block.
pub fn parameter_examples()
    ensures { ParameterExamples }
{}

/// The rows `sample` and `sample_late`, and a loop that names an earlier block's reading, answer 0 on both machines for
/// several arguments, in every world.
pub fn sample_examples()
    ensures { SampleExamples }
{}

/// Paths of an irreducible loop.
pub fn path_examples()
    ensures { PathExamples }
{}

/// What the machines see of the function of the row `first`.
pub fn view_examples()
    ensures { ViewExamples }
{}

/// An outside call under a collector that moves, on both machines.
pub fn call_examples()
    ensures { CallExamples }
{}

/// A script with an exception table and the try call that it serves, and scripts that misuse one.
pub fn try_examples()
    ensures { TryExamples }
{}

/// What may stand on the edges of a try call.
pub fn edge_examples()
    ensures { EdgeExamples }
{}

/// Scripts that are a misuse, and scripts that are refused.
pub fn verdict_examples()
    ensures { VerdictExamples }
{}

/// What `finalize` refuses, and which block it names.
pub fn refusal_examples()
    ensures { RefusalExamples }
{}
