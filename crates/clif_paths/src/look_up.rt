//! The look-up of a variable as a machine with an explicit stack: each move keeps what stands on it.

ghost use Rattle.clif_paths.specs.LookUp.{ResultIsPushed, LastResultAnswers, FoundIsDelivered, NextIsExpected, RecordIsFound, ParameterIsAdded, FrameIsPushed, SealingBegins, DroppingFinishes, FillingFinishes, ZeroFinishes, ResultsAreCounted};

/// A result goes to the topmost frame, for the predecessor that it is for.
pub fn result_is_pushed()
    ensures { ResultIsPushed }
{}

/// The last result of a use is what the block's record resolves as.
pub fn last_result_answers()
    ensures { LastResultAnswers }
{}

/// What a look-up finds is a result.
pub fn found_is_delivered()
    ensures { FoundIsDelivered }
{}

/// The next predecessor is looked up.
pub fn next_is_expected()
    ensures { NextIsExpected }
{}

/// A record is found, along a chain of single predecessors.
pub fn record_is_found()
    ensures { RecordIsFound }
{}

/// None is found, and a parameter is added where the chain begins.
pub fn parameter_is_added()
    ensures { ParameterIsAdded }
{}

/// A parameter of a sealed block begins a look-up in its predecessors.
pub fn frame_is_pushed()
    ensures { FrameIsPushed }
{}

/// At sealing, the look-up for a parameter begins with an empty stack.
pub fn sealing_begins()
    ensures { SealingBegins }
{}

/// A look-up ends with one value beside the parameter.
pub fn dropping_finishes()
    ensures { DroppingFinishes }
{}

/// A look-up ends with more than one.
pub fn filling_finishes()
    ensures { FillingFinishes }
{}

/// A look-up ends with none.
pub fn zero_finishes()
    ensures { ZeroFinishes }
{}

/// A frame has one result for each predecessor that is done.
pub fn results_are_counted()
    ensures { ResultsAreCounted }
{}
