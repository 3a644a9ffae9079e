//! What the theorem asks of a whole script, away from any run.
use clif_calls::Call;
use clif_script_program::program::Program;
use clif_worlds::{Cause, Operand, Place, RunError};

// Why the theorem covers no branch to a block, if it covers none: the block has a terminator and isn't the entry.
fn bad_target(program: &Program, target: Option<usize>) -> Option<Cause> {
    let Some(number) = target else {
        return Some(Cause::NoTarget);
    };
    if program.entry == Some(number) {
        return Some(Cause::EntryTarget);
    }
    match program.block(number) {
        Some(block) if block.is_filled => None,
        Some(_) => Some(Cause::NotFilled),
        None => Some(Cause::NoTarget),
    }
}

// The same of the edges of the call at a place.
fn bad_branch(program: &Program, place: usize) -> Option<Cause> {
    for target in program.targets(place) {
        let bad = bad_target(program, *target);
        if bad.is_some() {
            return bad;
        }
    }
    None
}

// Looks at each edge of a script, also at those that no run takes: the theorem asks it of all of them.
pub(crate) fn check_targets(program: &Program, calls: usize) -> Result<(), RunError> {
    for place in 0..calls {
        if let Some(cause) = bad_branch(program, place) {
            return Err(cause.at(Place::Call(place)));
        }
    }
    Ok(())
}

// Looks at each use and assignment of a script: the theorem asks that no unmarked variable gets or gives a tracked name.
pub(crate) fn check_marks(program: &Program, calls: &[Call]) -> Result<(), RunError> {
    for (place, call) in calls.iter().enumerate() {
        if let Some(number) = program.tracking.unmarked(place, call) {
            let cause = Cause::Unmarked(Operand::Variable(number));
            return Err(cause.at(Place::Call(place)));
        }
    }
    Ok(())
}
