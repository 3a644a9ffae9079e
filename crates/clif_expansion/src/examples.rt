//! Worked examples of the definitions.

ghost use Rattle.clif_expansion.specs.Constants.{ConstantExamples};
ghost use Rattle.clif_expansion.specs.Examples.{ExpansionExamples};
ghost use Rattle.clif_expansion.specs.HeadlineExamples.{HeadlineExamples};
ghost use Rattle.clif_expansion.specs.JoinedRunExamples.{JoinedRunExamples};
ghost use Rattle.clif_expansion.specs.LayingExamples.{LayingExamples};
ghost use Rattle.clif_expansion.specs.ByteEmissionExamples.{ByteEmissionExamples};
ghost use Rattle.clif_expansion.specs.ScriptCallExamples.{ScriptCallExamples};
ghost use Rattle.clif_expansion.specs.SwitchExamples.{SwitchExamples};
ghost use Rattle.clif_expansion.specs.WalkExamples.{WalkExamples};
ghost use Rattle.clif_meaning.specs.World.{World};

/// A difference with zero performs a negation, in every world, and one with another number doesn't.
pub fn expansion_examples()
    ensures { (world : World) → ExpansionExamples world }
{}

/// A comparison with zero decides a table of one entry, by one conditional branch and not by none.
pub fn walk_examples()
    ensures { (world : World) → WalkExamples world }
{}

/// Sums with constants and comparisons with them.
pub fn constant_examples()
    ensures { ConstantExamples }
{}

/// Code that names what was given is laid, and code that names what nothing gave, or leads elsewhere, isn't.
pub fn laying_examples()
    ensures { LayingExamples }
{}

/// A sum with a constant is emitted, and isn't where its operand or its context is no value. Its ledger is joined to
/// that of its plain calls, and another one isn't. So it is with an exception table whose context is the sum, and isn't
/// with another tag or context.
pub fn script_call_examples()
    ensures { ScriptCallExamples }
{}

/// The plain calls of a sum with a constant are joined to the script's and perform it, in every world, and the script's
/// own run is sound; the plain calls of the negated constant don't perform it. The run of a negation is sound; the run
/// in which 300 is said to have 8 bits isn't.
pub fn joined_run_examples()
    ensures { (world : World) → JoinedRunExamples world }
{}

/// The calls that return the sum of five and seven meet the premises and are accepted; a function that returns 12 means
/// what they mean, and one that returns 7 doesn't. The sum at another type isn't well typed, and the sum of no value is
/// a misuse at its place. Code that compares at another type, or calls the library by another signature, performs no
/// comparison.
pub fn headline_examples()
    ensures { HeadlineExamples }
{}

/// A switch of one key fills its block and leads to both blocks, and behind it there is no current one; a key that is
/// set twice is refused, and one that is no number of the type. A comparison and a branch are its code and are joined
/// with it; the branch with its edges turned round isn't.
pub fn switch_examples()
    ensures { SwitchExamples }
{}

/// Which copies, fills and comparisons may be emitted.
pub fn byte_emission_examples()
    ensures { ByteEmissionExamples }
{}
