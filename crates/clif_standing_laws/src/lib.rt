//! Laws of the unfinished function of a builder that stands for a list of calls: it reads right, and its values are placed
//! well; and a worked example of a finished function whose collector moves what is recorded. The functions here have empty bodies,
//! and their contracts are the laws.
#![tactic(auto)]

ghost use Rattle.clif_standing_laws.specs.Laws.{StandingIsWellPlaced, StandingIsWellPlacedComing, StandingReadsRight, StandingReadsRightComing, StandingReadsRightFromAnywhere, StandingReadsRightMarked, StandingReadsRightMarkedComing, StandingReadsRightMarkedFromAnywhere, StandingReadsRightRecorded, StandingReadsRightRecordedComing, StandingReadsRightRecordedFromAnywhere, StandingRecordsAreWellPlaced, StandingUnmarkedAgrees};
ghost use Rattle.clif_standing_laws.specs.MarkedComingExamples.{MarkedComingExamples};
ghost use Rattle.clif_standing_laws.specs.MarkedExamples.{MarkedExamples};
ghost use Rattle.clif_standing_laws.specs.MovingExamples.{MovingExamples};
ghost use Rattle.clif_standing_laws.specs.RecordedExamples.{RecordedExamples};

/// The unfinished function of a builder that stands for a list of calls has the bits of the names and variables of the
/// list's program, with any branches and parameters of the caller's, beside each run that is interrupted at unsealed blocks;
/// edges into unsealed or pristine blocks need not match yet.
pub fn standing_reads_right()
    ensures { StandingReadsRight }
{}

/// It has them beside runs that also go along edges that may still come, from a block's end so far into unsealed blocks.
pub fn standing_reads_right_coming()
    ensures { StandingReadsRightComing }
{}

/// Where no branch was made, it has them from every pair of states at the front of an unsealed entry.
pub fn standing_reads_right_from_anywhere()
    ensures { StandingReadsRightFromAnywhere }
{}

/// It has them across outside calls whatever variables are marked, where what both runs move agrees with the marks of the calls.
pub fn standing_reads_right_marked()
    ensures { StandingReadsRightMarked }
{}

/// It has them beside runs that also go along edges that may still come, those of outside calls among them.
pub fn standing_reads_right_marked_coming()
    ensures { StandingReadsRightMarkedComing }
{}

/// Where no branch was made, it has them from every pair of states at the front of an unsealed entry.
pub fn standing_reads_right_marked_from_anywhere()
    ensures { StandingReadsRightMarkedFromAnywhere }
{}

/// What moves where no variable is marked agrees with the marks of the calls: nothing, or tracked names that are apart from variables,
/// and exactly the values that answered them.
pub fn standing_unmarked_agrees()
    ensures { StandingUnmarkedAgrees }
{}

/// Where no tracked name is assigned to an unmarked variable, or returned by a use of one, what was recorded for stack maps so far
/// agrees with the marks of the calls: so it has them under a collector over exactly that, beside the run of the list's program in
/// which marked variables and tracked names move.
pub fn standing_reads_right_recorded()
    ensures { StandingReadsRightRecorded }
{}

/// It has them beside runs that also go along edges that may still come, those of outside calls among them.
pub fn standing_reads_right_recorded_coming()
    ensures { StandingReadsRightRecordedComing }
{}

/// Where no branch was made, it has them from every pair of states at the front of an unsealed entry.
pub fn standing_reads_right_recorded_from_anywhere()
    ensures { StandingReadsRightRecordedFromAnywhere }
{}

/// The values of the unfinished function of a builder that stands for a list of calls are defined before they are named, where
/// the names of the list's program are given before and the entry is free: once it is sealed, no branch leads to it.
pub fn standing_is_well_placed()
    ensures { StandingIsWellPlaced }
{}

/// They stay so along edges that may still come, whichever of a set into unsealed blocks, where the names of the list's program do.
pub fn standing_is_well_placed_coming()
    ensures { StandingIsWellPlacedComing }
{}

/// What the builder recorded is defined before the ends of its blocks, and what uses returned before these uses.
pub fn standing_records_are_well_placed()
    ensures { StandingRecordsAreWellPlaced }
{}

/// A list of calls that asks for stack maps for a variable, assigns a parameter to it, makes an outside call, and returns what a
/// use of the variable answers behind that is accepted, a builder may stand for it, and its function is finished. It meets the
/// premises of the law on collectors over what is recorded (`carrying_means_the_same_tracked` of `clif_simulation`), in a world in
/// which the parameter moves; so the function means what the list means. Under a collector over nothing it doesn't, and where the
/// parameter isn't recorded the list isn't carried.
pub fn marked_parameter_moves()
    ensures { MovingExamples }
{}

/// A use of a variable in a block that isn't sealed makes a parameter for it. What is recorded then is the parameter, if the variable
/// is marked, and else nothing: no other set is right.
pub fn made_parameter_is_recorded()
    ensures { RecordedExamples }
{}

/// The unfinished function of that list up to its use reads right under a collector over what is recorded, in a world in which the
/// parameter moves at the outside call; where the parameter isn't recorded it doesn't. The list meets no premise of the law on
/// unmarked variables.
pub fn marked_variable_reads_right()
    ensures { MarkedExamples }
{}

/// An unfinished function in which a marked variable is used in a block that only an edge reaches that may still come, and what the
/// use answers is named behind another such edge, an outside call's, reads right along these edges, and its values are defined before
/// they are named. Edges that lead around the use are none that may come, and along them they aren't.
pub fn marked_variable_crosses_edges()
    ensures { MarkedComingExamples }
{}
