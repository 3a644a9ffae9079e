//! The law of renaming: what a script means doesn't depend on names, and so neither on when blocks are sealed. The functions
//! here have empty bodies, and their contracts are the laws of the definitions.
#![tactic(auto)]

ghost use Rattle.clif_renaming.specs.Examples.{RenamingExamples};
ghost use Rattle.clif_renaming.specs.Laws.{FunctionsMeanTheSame, NamesAreFree, PremisesStay, SealingIsFree};

/// The run of a script's program and the same run with its names renamed show the same after each number of steps.
pub fn names_are_free()
    ensures { NamesAreFree }
{}

/// Scripts that differ only in when blocks are sealed show the same after each number of steps.
pub fn sealing_is_free()
    ensures { SealingIsFree }
{}

/// Where one of two such scripts meets the premises of the theorem on finished functions, the other one does.
pub fn premises_stay()
    ensures { PremisesStay }
{}

/// Functions that mean what such scripts mean have the same meaning.
pub fn functions_mean_the_same()
    ensures { FunctionsMeanTheSame }
{}

/// Scripts that differ only in when blocks are sealed, and some that differ in more.
pub fn renaming_examples()
    ensures { RenamingExamples }
{}
