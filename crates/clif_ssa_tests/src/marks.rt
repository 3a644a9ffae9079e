//! Which values stack maps need: those that are declared, those that are assigned to a marked variable, and the parameters
//! that are made for one. The zero of a marked variable isn't needed.
#![tactic(auto)]

use super::facts::Fact::{IsNeeded, Needed, Params, Resolves};
use super::steps::Step::{
    Brif, Create, Define, Goes, Iconst, Is, Mark, NeedValue, Seal, SealAll, Use,
};
use super::steps::{Case, makes_each};
use std::test::Fail;

/// Declared values, and marked variables in one block and in several.
const MARKS: [Case; 9] = [
    // A value that is declared, and no other one.
    (
        "declared_value",
        &[
            Create,
            Seal(0, 0),
            Iconst(0, 5),
            Iconst(0, 6),
            Is(Needed(0)),
            NeedValue(1),
            NeedValue(1),
            Is(IsNeeded(0, false)),
            Is(IsNeeded(1, true)),
            Is(Needed(1)),
        ],
    ),
    // Both values that are assigned to a marked variable, and none that is assigned to another one.
    (
        "assigned_values",
        &[
            Create,
            Seal(0, 0),
            Mark(1),
            Iconst(0, 5),
            Iconst(0, 6),
            Iconst(0, 7),
            Define(0, 1, 0),
            Define(0, 1, 1),
            Define(0, 0, 2),
            Is(IsNeeded(0, true)),
            Is(IsNeeded(1, true)),
            Is(IsNeeded(2, false)),
            Is(Needed(2)),
        ],
    ),
    // A use in a block with one predecessor makes no parameter, if the block is sealed, and one, if it isn't sealed yet.
    (
        "one_predecessor_sealed",
        &[
            Create,
            Create,
            Seal(0, 0),
            Mark(0),
            Iconst(0, 5),
            Define(0, 0, 0),
            Goes(0, 1),
            Seal(1, 0),
            Use(1, 0, 0),
            Is(Needed(1)),
        ],
    ),
    (
        "one_predecessor_not_sealed",
        &[
            Create,
            Create,
            Seal(0, 0),
            Mark(0),
            Iconst(0, 5),
            Define(0, 0, 0),
            Goes(0, 1),
            Use(1, 0, 1),
            Is(IsNeeded(1, true)),
            Seal(1, 0),
            Is(Resolves(1, 0)),
            Is(IsNeeded(0, true)),
            Is(IsNeeded(1, true)),
            Is(Needed(2)),
        ],
    ),
    // The parameter of a block in which two arms meet, that a look-up or a sealing makes; and none for a variable that isn't
    // marked.
    (
        "two_predecessors",
        &[
            Create,
            Create,
            Create,
            Create,
            Seal(0, 0),
            Mark(0),
            Iconst(0, 1),
            Brif(0, 0, 1, 2),
            Iconst(1, 5),
            Define(1, 0, 1),
            Define(1, 1, 1),
            Goes(1, 3),
            Iconst(2, 6),
            Define(2, 0, 2),
            Define(2, 1, 2),
            Goes(2, 3),
            Seal(3, 0),
            Is(Needed(2)),
            Use(3, 1, 3),
            Is(Needed(2)),
            Use(3, 0, 4),
            Is(Params(3, 2)),
            Is(IsNeeded(1, true)),
            Is(IsNeeded(2, true)),
            Is(IsNeeded(3, false)),
            Is(IsNeeded(4, true)),
            Is(Needed(3)),
        ],
    ),
    // The parameter of a loop's head, and what is assigned above it and in it.
    (
        "loops",
        &[
            Create,
            Create,
            Create,
            Mark(0),
            Iconst(0, 5),
            Define(0, 0, 0),
            Goes(0, 1),
            Use(1, 0, 1),
            Iconst(1, 6),
            Define(1, 0, 2),
            Goes(1, 1),
            SealAll(0),
            Is(Params(1, 1)),
            Is(IsNeeded(0, true)),
            Is(IsNeeded(1, true)),
            Is(IsNeeded(2, true)),
            Is(Needed(3)),
        ],
    ),
    // A sealing makes a parameter in another block, which isn't sealed yet. Sealing that puts a zero in its place.
    (
        "made_by_sealing",
        &[
            Create,
            Create,
            Mark(0),
            Goes(0, 1),
            Use(1, 0, 0),
            Iconst(1, 6),
            Define(1, 0, 1),
            Goes(1, 1),
            Is(Needed(2)),
            Seal(1, 0),
            Is(Params(0, 1)),
            Is(IsNeeded(2, true)),
            Is(Needed(3)),
            Seal(0, 1),
            Is(Params(0, 0)),
            Is(Resolves(2, 3)),
            Is(IsNeeded(3, false)),
            Is(Needed(3)),
        ],
    ),
    // A marked variable that is never assigned: its zero isn't needed, and what the zero replaces is another name of it.
    (
        "zero_marked",
        &[
            Create,
            Seal(0, 0),
            Mark(0),
            Use(0, 0, 1),
            Is(Params(0, 0)),
            Is(Resolves(0, 1)),
            Is(IsNeeded(1, false)),
            Use(0, 0, 0),
            Is(IsNeeded(1, false)),
            Is(Needed(1)),
        ],
    ),
    // The same where the zero is put by the sealing of a block to which nothing comes.
    (
        "zero_sealed",
        &[
            Create,
            Mark(0),
            Use(0, 0, 0),
            Is(IsNeeded(0, true)),
            Seal(0, 1),
            Is(Resolves(0, 1)),
            Is(IsNeeded(1, false)),
            Is(Needed(1)),
        ],
    ),
];

/// Which values stack maps need, and how many.
#[test]
fn marks(rt: HostRuntime) -> Result<(), Fail> {
    makes_each(&rt, rt.alloc(), &MARKS)
}
