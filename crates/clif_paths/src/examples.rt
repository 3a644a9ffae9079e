//! Worked examples, so that the laws aren't empty: lists of moves whose tests pass by computation.

ghost use Rattle.clif_paths.specs.MoveLaws.{AllowedMovesAreSound, FinishedMovesAreCorrect, AgreeingMovesKeepLabels};
ghost use Rattle.clif_paths.specs.Examples.{LoopSealedLate, LoopUnderCollector, DiamondDropped, IrreducibleLoop, UnreachableCycle, LoopLabelled, LoopMixed, CycleLabelled, LookUpFills, BothArmsMatch};

/// Moves whose tests pass, each in its turn, make sound tables.
pub fn allowed_moves_are_sound()
    ensures { AllowedMovesAreSound }
{}

/// Where nothing waits and assigned names are given before, they are correct.
pub fn finished_moves_are_correct()
    ensures { FinishedMovesAreCorrect }
{}

/// Labels that agree on each of them are kept.
pub fn agreeing_moves_keep_labels()
    ensures { AgreeingMovesKeepLabels }
{}

/// A loop whose header is sealed last.
pub fn loop_sealed_late()
    ensures { LoopSealedLate }
{}

/// The same loop under a collector that moves.
pub fn loop_under_collector()
    ensures { LoopUnderCollector }
{}

/// A diamond whose parameter is dropped.
pub fn diamond_dropped()
    ensures { DiamondDropped }
{}

/// A loop with two entries.
pub fn irreducible_loop()
    ensures { IrreducibleLoop }
{}

/// A cycle that nothing reaches, whose parameters become aliases of one zero.
pub fn unreachable_cycle()
    ensures { UnreachableCycle }
{}

/// The loop's parameter and its arguments have the variable's label.
pub fn loop_labelled()
    ensures { LoopLabelled }
{}

/// Labels that don't agree on the loop aren't kept.
pub fn loop_mixed()
    ensures { LoopMixed }
{}

/// What answers in a cycle that nothing reaches has the variable's label.
pub fn cycle_labelled()
    ensures { CycleLabelled }
{}

/// A whole look-up that finds two values, move by move.
pub fn look_up_fills()
    ensures { LookUpFills }
{}

/// Both arms of a branch carry the argument.
pub fn both_arms_match()
    ensures { BothArmsMatch }
{}
