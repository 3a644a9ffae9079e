//! The law of the words of the check. The function here has an empty body, and its contract is the law.
ghost use Rattle.clif_check.specs.WellTyped.{AgreesWithPremise};

/// What the check asks of an instruction is what the premises on scripts ask of one.
pub fn agrees_with_premise()
    ensures { AgreesWithPremise }
{}
