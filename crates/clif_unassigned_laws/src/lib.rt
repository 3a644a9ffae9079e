//! The law of variables that weren't assigned: on a path that assigns a variable nothing a use of it reads zero. The functions here
//! have empty bodies, and their contracts are the laws of the definitions.
#![tactic(auto)]

ghost use Rattle.clif_unassigned_laws.specs.Examples.{UnassignedExamples};
ghost use Rattle.clif_unassigned_laws.specs.Laws.{ShownAsZero, UnassignedReadsZero};

/// In every run of a variable program, in every world, a use of a variable that no step before assigned gives its name zero. In a
/// run of a script's program the name keeps it until the use is run again, whatever the collector moves.
pub fn unassigned_reads_zero()
    ensures { UnassignedReadsZero }
{}

/// So a function that means what its script means returns zero where the script returns what such a use read, and passes zero to an
/// outside call where the script passes it.
pub fn shown_as_zero()
    ensures { ShownAsZero }
{}

/// A script that returns a variable that is never assigned, beside its finished function; one that assigns it on one of two paths;
/// uses before an assignment, in a loop and across a call, whose collector moves; and what the laws refuse.
pub fn unassigned_examples()
    ensures { UnassignedExamples }
{}
