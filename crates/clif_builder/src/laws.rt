//! Laws of the builder's calls, and of what a builder stands for. The functions here have empty bodies, and their contracts
//! are the laws.

ghost use Rattle.clif_builder.specs.CallsLaw.{BuildersStandForCalls};
ghost use Rattle.clif_builder.specs.Growth.{BuilderUsesAgree};
ghost use Rattle.clif_builder.specs.Laws.{StandingMatchesEdges};
ghost use Rattle.clif_builder.specs.LeadsLaw.{LeadsAreReadByNumber};
ghost use Rattle.clif_builder.specs.LedgerLaws.{LedgerIsReadByNumber, NotesAddNothing, RequestsAskForTheirShapes, TableCallsAddNothing};

/// Two uses of a variable in a block stand for one value, where no call between them assigns it there.
pub fn uses_agree<R>()
    ensures { BuilderUsesAgree R }
{}

/// Once no parameter waits, the edges of the function of a builder that stands for a list of calls match, where the
/// caller's do.
pub fn standing_matches_edges()
    ensures { StandingMatchesEdges }
{}

/// What a ledger that agrees with a builder says of names, the builder says of their numbers: of blocks and their states,
/// of the layout, and of the types of values and variables.
pub fn ledger_is_read_by_number()
    ensures { LedgerIsReadByNumber }
{}

/// Where a builder stands for a list of calls, the ledger tells by names which branch leads to which block, and the builder
/// tells the same by their numbers.
pub fn leads_are_read_by_number()
    ensures { LeadsAreReadByNumber }
{}

/// Where a ledger agrees with a builder, the request of each format, with names of its operands, asks for the shape that
/// the method of the format builds: so what `ledger` and `stands` say of instructions holds of these requests.
pub fn requests_ask_for_their_shapes()
    ensures { RequestsAskForTheirShapes }
{}

/// A builder stands for the same list with the calls at its end that make an edge or a jump table: such a call changes
/// nothing that a builder stands for, until its table serves an instruction.
pub fn table_calls_add_nothing()
    ensures { TableCallsAddNothing }
{}

/// A builder stands for the same list with a note at its end, for a source place or a label: a note changes nothing that a
/// builder stands for.
pub fn notes_add_nothing()
    ensures { NotesAddNothing }
{}

/// How a builder comes to stand for the calls of a script, of which a sum or comparison with a constant, a switch and a memory helper are
/// one each: each call of the builder that the script's ledger allows puts itself at the end. What is emitted is said where it is made.
pub fn builders_stand_for_calls<R>()
    ensures { BuildersStandForCalls R }
{}
