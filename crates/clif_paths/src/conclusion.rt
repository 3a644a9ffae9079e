//! What holds after any steps.

ghost use Rattle.clif_paths.specs.Laws.{AnswersHold, RecordsHold, ParametersHold, ArgumentsHold, FunctionStandsAlone, SoundAnswersHold, SoundIsCorrect, ConstructionIsCorrect, SealingOrderIsFree};

/// While construction goes on, a name's answer holds the name wherever the name's home dominates.
pub fn answers_hold()
    ensures { AnswersHold }
{}

/// The same in any sound state.
pub fn sound_answers_hold()
    ensures { SoundAnswersHold }
{}

/// While construction goes on, each record holds its variable.
pub fn records_hold()
    ensures { RecordsHold }
{}

/// A complete parameter holds its variable at its home.
pub fn parameters_hold()
    ensures { ParametersHold }
{}

/// Each argument of a complete parameter holds the parameter's variable where its arm leaves.
pub fn arguments_hold()
    ensures { ArgumentsHold }
{}

/// Where no parameter waits, what a value denotes is read off the function alone.
pub fn function_stands_alone()
    ensures { FunctionStandsAlone }
{}

/// After any steps, with every edge known and nothing pending, each name's answer is there and denotes what the name
/// denotes, wherever the name's home dominates.
pub fn construction_is_correct()
    ensures { ConstructionIsCorrect }
{}

/// The same in any sound state.
pub fn sound_is_correct()
    ensures { SoundIsCorrect }
{}

/// When places were sealed makes no difference.
pub fn sealing_order_is_free()
    ensures { SealingOrderIsFree }
{}
