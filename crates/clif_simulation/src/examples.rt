//! Worked examples of the definitions.

ghost use Rattle.clif_simulation.specs.CallCarryingExamples.{CallCarryingExamples};
ghost use Rattle.clif_simulation.specs.CarryingExamples.{CarryingExamples, LoopMeetsPremises, SampleMeetsPremises};
ghost use Rattle.clif_simulation.specs.ComingExamples.{ComingExamples};
ghost use Rattle.clif_simulation.specs.InterruptedExamples.{InterruptedExamples};
ghost use Rattle.clif_simulation.specs.MarkedExamples.{MarkedExamples};
ghost use Rattle.clif_simulation.specs.ParameterCarryingExamples.{ParameterCarryingExamples};
ghost use Rattle.clif_simulation.specs.ReadingExamples.{ReadingExamples};
ghost use Rattle.clif_simulation.specs.RecordingExamples.{RecordingExamples};
ghost use Rattle.clif_simulation.specs.TrackedExamples.{TrackedExamples};

/// The row `first`, half built, reads right on bits from every start; with another constant, another record, or a parameter that doesn't
/// wait, it doesn't.
pub fn half_built_reads_right()
    ensures { ReadingExamples }
{}

/// Beside interrupted runs the half built row reads right, and so do the row `both_arms`, a loop, a loop whose block is
/// unsealed, and one whose block has a parameter of the caller's too; with another constant, another record, a parameter
/// that doesn't wait, or another argument, they don't. So does a jump that comes before its target's parameter.
pub fn interrupted_reads_right()
    ensures { InterruptedExamples }
{}

/// A block that only an edge that may still come reaches is read along that edge; with another constant there it doesn't read right.
pub fn coming_reads_right()
    ensures { ComingExamples }
{}

/// A block with a tracked parameter that is used behind an outside call meets the premises, is carried and reads right, and the
/// parameter and its value move; a collector that forgets the value, or that is over others too, doesn't move alike, and no collector
/// does where what a use answers is tracked, or where a tracked name is assigned to a variable.
pub fn tracked_names_move()
    ensures { TrackedExamples }
{}

/// The names and values of the row `both_arms` agree where its variable is marked and its collector is over what was assigned to it and
/// the parameter of the loop's block; without the parameter, with a constant too, where a use's answer isn't tracked, or where the
/// variable isn't marked, they don't. In a run with an outside call both sides move, and neither does where it isn't marked.
pub fn marks_agree()
    ensures { MarkedExamples }
{}

/// The row `both_arms`, a loop with both arms of one branch, is consistent, carried and finished; with another argument
/// or constant, with swapped arms, or with one argument left out, it isn't carried, and with an unsealed block it isn't
/// finished.
pub fn loop_is_carried()
    ensures { CarryingExamples }
{}

/// The row `both_arms` meets the premises of the theorem in every world, and there is a world in which its function can run.
pub fn loop_meets_premises()
    ensures { LoopMeetsPremises }
{}

/// The row `sample` meets them too.
pub fn sample_meets_premises()
    ensures { SampleMeetsPremises }
{}

/// A block with a parameter of the caller's is carried; where the parameter is missing, or of another type, it isn't.
pub fn parameter_is_carried()
    ensures { ParameterCarryingExamples }
{}

/// A parameter of the caller's is recorded where stack maps were asked for it, or where it was assigned to a marked variable; where it
/// isn't, the calls aren't carried, nor are they where it is recorded though none were asked for.
pub fn parameter_is_recorded()
    ensures { RecordingExamples }
{}

/// A block with an outside call is carried; where the call's result has another type, it isn't.
pub fn call_is_carried()
    ensures { CallCarryingExamples }
{}
