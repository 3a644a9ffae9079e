//! What a moving collector moves in a run of a script: marked variables and tracked names.
use clif_calls::{Call, Name};
use clif_types::EntityRef;
use std::alloc::{AllocError, Global};

/// The marked variables and the tracked names of a script: the names that stack maps were asked to name, and those that were
/// assigned to a marked variable or answered by a use of one, anywhere in the script.
#[derive(Drop)]
pub struct Tracking {
    // for each variable whether it is marked
    marked: Vec<bool>,
    // for each call whether its answers are tracked
    tracked: Vec<Vec<bool>>,
    // the tracked names, each once
    names: Vec<Name>,
}

impl Tracking {
    /// None.
    pub(crate) fn new(alloc: Global) -> Tracking {
        Tracking {
            marked: Vec::new(alloc),
            tracked: Vec::new(alloc),
            names: Vec::new(alloc),
        }
    }

    /// Those of these calls, of which each has so many answers.
    ///
    /// # Errors
    ///
    /// `AllocError`, where memory is refused.
    pub(crate) fn of(
        alloc: Global,
        calls: &[Call],
        answers: &[usize],
    ) -> Result<Tracking, AllocError> {
        let mut tracking = Tracking::new(alloc);
        for call in calls {
            tracking.add_mark(call)?;
        }
        for count in answers {
            let mut flags = Vec::new(alloc);
            for _ in 0..*count {
                flags.push(false)?;
            }
            tracking.tracked.push(flags)?;
        }
        for (place, call) in calls.iter().enumerate() {
            tracking.add_name(place, call)?;
        }
        Ok(tracking)
    }

    // Adds the variable that a call declares, or its mark.
    fn add_mark(&mut self, call: &Call) -> Result<(), AllocError> {
        match call {
            Call::DeclareVar { .. } => self.marked.push(false)?,
            Call::DeclareVarNeedsStackMap { variable } => {
                if let Some(is_marked) = self.marked.get_mut(variable.index()) {
                    *is_marked = true;
                }
            }
            _ => {}
        }
        Ok(())
    }

    // Adds the name that the call at a place tracks, if it tracks one.
    fn add_name(&mut self, place: usize, call: &Call) -> Result<(), AllocError> {
        let name = match call {
            Call::DeclareValueNeedsStackMap { value } => *value,
            _ => match passed(place, call) {
                Some((variable, name)) if self.is_marked(variable) => name,
                _ => return Ok(()),
            },
        };
        if !self.is_tracked(name) && self.track(name) {
            self.names.push(name)?;
        }
        Ok(())
    }

    // The answer is tracked, if it is one that a call has.
    fn track(&mut self, name: Name) -> bool {
        let Some(flags) = self.tracked.get_mut(name.place) else {
            return false;
        };
        let Some(is_tracked) = flags.get_mut(name.answer) else {
            return false;
        };
        *is_tracked = true;
        true
    }

    /// Whether the variable of this number is marked.
    pub fn is_marked(&self, variable: usize) -> bool {
        self.marked.get(variable).copied().unwrap_or(false)
    }

    /// Whether a name is tracked.
    pub fn is_tracked(&self, name: Name) -> bool {
        match self.tracked.get(name.place) {
            Some(flags) => flags.get(name.answer).copied().unwrap_or(false),
            None => false,
        }
    }

    /// The tracked names, each once.
    pub fn names(&self) -> &[Name] {
        self.names.as_slice()
    }

    /// The unmarked variable to which the call at a place assigns a tracked name, or a use of which it answers by one, if there is
    /// such a variable.
    pub fn unmarked(&self, place: usize, call: &Call) -> Option<usize> {
        let (variable, name) = passed(place, call)?;
        (self.is_tracked(name) && !self.is_marked(variable)).then_some(variable)
    }
}

// The variable that the call at a place assigns or uses, and the name that is assigned or answered.
fn passed(place: usize, call: &Call) -> Option<(usize, Name)> {
    match call {
        Call::DefVar { variable, value } | Call::TryDefVar { variable, value } => {
            Some((variable.index(), *value))
        }
        Call::UseVar { variable } | Call::TryUseVar { variable } => {
            Some((variable.index(), Name { place, answer: 0 }))
        }
        _ => None,
    }
}
