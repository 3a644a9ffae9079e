//! The laws.

ghost use Rattle.clif_expansion.specs.CallsVerdict.{VerdictsAreRead};
ghost use Rattle.clif_expansion.specs.ConstantCalls.{ConstantCallsArePerformed, ConstantsAreEmitted};
ghost use Rattle.clif_expansion.specs.Constants.{ConstantsAreOperands, ConstantsArePerformed};
ghost use Rattle.clif_expansion.specs.Emission.{EmittingKeepsJoins};
ghost use Rattle.clif_expansion.specs.HeadlineLaws.{AskingMeansTheSame, CallsMeanWhatPlainCallsMean, CallsNameValues, JoinedCallsKeepPremises};
ghost use Rattle.clif_expansion.specs.JoinedCalls.{JoinedCallsHaveJoinedLedgers};
ghost use Rattle.clif_expansion.specs.JoinedPrograms.{JoinedCallsHaveJoinedPrograms};
ghost use Rattle.clif_expansion.specs.JoinedRuns.{JoinedCallsMeanTheSame};
ghost use Rattle.clif_expansion.specs.Joining.{AskingKeepsJoins, ConditionsAreRead};
ghost use Rattle.clif_expansion.specs.Laying.{CodesAreLaid, LayingKeepsPlaces};
ghost use Rattle.clif_expansion.specs.Laws.{ExpandingKeepsPremises, ExpandingMeansTheSame, ValuesAreTaken};
ghost use Rattle.clif_expansion.specs.ScriptCall.{AskingStays};
ghost use Rattle.clif_expansion.specs.ScriptsAlone.{ScriptsAlone};
ghost use Rattle.clif_expansion.specs.Switching.{KeysFindTheirBlocks};
ghost use Rattle.clif_expansion.specs.WalkLaws.{WalksGoOn};

/// Where each item of a script's program is expanded to code that does what the item does, the plain program means the
/// same.
pub fn expanding_means_the_same()
    ensures { ExpandingMeansTheSame }
{}

/// What the plain program's run claims is true, and it spares spill slots, where the script's does.
pub fn expanding_keeps_premises()
    ensures { ExpandingKeepsPremises }
{}

/// The code of a sum with a constant and of a comparison with one computes with the constant, cut to the type or with
/// its sign repeated.
pub fn constants_are_operands()
    ensures { ConstantsAreOperands }
{}

/// So it performs a script's one instruction that adds a constant, or that compares with one.
pub fn constants_are_performed()
    ensures { ConstantsArePerformed }
{}

/// Operands are values of their types where each name holds one.
pub fn values_are_taken()
    ensures { ValuesAreTaken }
{}

/// A walk to a generated block goes on through its code, and code that grows keeps its walks.
pub fn walks_go_on()
    ensures { WalksGoOn }
{}

/// The edge along which a switch goes for a key leads to the block that the finite map of its entries has for the key.
pub fn keys_find_their_blocks()
    ensures { KeysFindTheirBlocks }
{}

/// No function has an instruction that only scripts have, and no call builds one.
pub fn scripts_alone()
    ensures { ScriptsAlone }
{}

/// Where each item of a script's program is laid out as code that names what was given before or what the item names,
/// all that the plain program names was given before, on every path from the entry, if it is so in the script's
/// program.
pub fn laying_keeps_places()
    ensures { LayingKeepsPlaces }
{}

/// Code that is the item is laid out so, and so is the code of a sum with a constant or of a comparison with one.
pub fn codes_are_laid()
    ensures { CodesAreLaid }
{}

/// A call of the builder's on both sides, with its names read, keeps the ledger of a script's plain calls joined to the
/// script's.
pub fn asking_keeps_joins()
    ensures { AskingKeepsJoins }
{}

/// What a script may call the builder, and what it is refused for, is the same for its plain calls.
pub fn conditions_are_read()
    ensures { ConditionsAreRead }
{}

/// A script that emits nothing has the ledger and the program of its calls of the builder.
pub fn asking_stays()
    ensures { AskingStays }
{}

/// Code in a line keeps the ledger of a script's plain calls joined to that of a script that emits an instruction with
/// such results.
pub fn emitting_keeps_joins()
    ensures { EmittingKeepsJoins }
{}

/// So the calls of a script and its plain calls have joined ledgers.
pub fn joined_calls_have_joined_ledgers()
    ensures { JoinedCallsHaveJoinedLedgers }
{}

/// Where a script may emit a sum with a constant or a comparison with one, its plain calls may be made, and they keep
/// its ledger joined.
pub fn constants_are_emitted()
    ensures { ConstantsAreEmitted }
{}

/// And the items of the plain program are cut into the script's items with their names read, and into the code of each
/// emission; what a switch is made into beside decides in blocks that are generated.
pub fn joined_calls_have_joined_programs()
    ensures { JoinedCallsHaveJoinedPrograms }
{}

/// So a script whose emissions are performed means what its plain calls mean, in each world in which the calls' own run
/// is sound. There the plain calls' run meets the premise on claims, and the one on spill slots where the script's own
/// run spares them. And the plain program is well placed where the script's own is.
pub fn joined_calls_mean_the_same()
    ensures { JoinedCallsMeanTheSame }
{}

/// Joined calls whose emissions are performed stay so with a sum with a constant, or a comparison with one, and its
/// plain calls.
pub fn constant_calls_are_performed()
    ensures { ConstantCallsArePerformed }
{}

/// What a script may call, what it is refused for, and whom a refusal blames is the same for its plain calls; and the
/// verdict on calls is found call by call.
pub fn verdicts_are_read()
    ensures { VerdictsAreRead }
{}

/// A script that emits nothing has the premises, the theorem and the edges of its calls of the builder.
pub fn asking_means_the_same()
    ensures { AskingMeansTheSame }
{}

/// Targets, types, tracked names, edges and calls of the C library are as the premises ask in the plain program, where
/// they are so in the script's.
pub fn joined_calls_keep_premises()
    ensures { JoinedCallsKeepPremises }
{}

/// In the run of well-typed calls that may be made the values fit their types, so the run is sound where its claims are
/// true.
pub fn calls_name_values()
    ensures { CallsNameValues }
{}

/// So a function that means what the plain calls mean means what the script's calls mean.
pub fn calls_mean_what_plain_calls_mean()
    ensures { CallsMeanWhatPlainCallsMean }
{}
