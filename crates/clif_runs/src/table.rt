//! Outside calls, answered by a table.
use clif_calls::OutsideAnswer;
use clif_types::{ExternalName, UserFuncName};
use clif_worlds::{Callee, Event, Memory, Outside};

/// Has the first call of a named function end as the first entry of its name says, the second one as the second, and so on, and
/// all later ones as the last. What no entry says returns zeros. Memory stays as it is.
#[derive(Clone, Copy)]
pub struct Answers<'a>(pub &'a [OutsideAnswer]);

impl Outside for Answers<'_> {
    fn thrown(&self, events: &[Event], _items: usize) -> Option<usize> {
        let item = entry_for(self.0, events)?.item?;
        Some(item as usize)
    }

    fn value(&self, events: &[Event], place: usize) -> u128 {
        match entry_for(self.0, events) {
            Some(entry) => value_at(entry, place),
            None => 0,
        }
    }

    fn change(&self, _events: &[Event], _memory: &mut Memory) {}
}

// The entry for the last of these calls.
fn entry_for<'a>(table: &'a [OutsideAnswer], events: &[Event]) -> Option<&'a OutsideAnswer> {
    let callee = &events.last()?.callee;
    let mut found = None;
    // the calls behind the one for which the entry is that was found
    let mut later = events;
    for entry in table {
        if is_named(callee, &entry.callee) {
            later = match behind_next(later, callee) {
                Some(behind) => behind,
                None => return found,
            };
            found = Some(entry);
        }
    }
    found
}

// The calls behind the next one of a function, if there is such a one.
fn behind_next<'e>(events: &'e [Event], callee: &Callee) -> Option<&'e [Event]> {
    let mut left = events;
    for event in events {
        let (_, behind) = left.split_first()?;
        if event.callee == *callee {
            return Some(behind);
        }
        left = behind;
    }
    None
}

// What an entry says of a place.
fn value_at(entry: &OutsideAnswer, place: usize) -> u128 {
    match entry.values.get(place) {
        Some(value) => i128::from(*value).cast_unsigned(),
        None => 0,
    }
}

fn is_named(callee: &Callee, name: &UserFuncName) -> bool {
    match (callee, name) {
        (Callee::Named(ExternalName::User(called)), UserFuncName::User(name)) => called == name,
        (Callee::Named(ExternalName::TestCase(called)), UserFuncName::Testcase(name)) => {
            called == name
        }
        _ => false,
    }
}
