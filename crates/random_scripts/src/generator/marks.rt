//! Marked variables and tracked values. The theorem asks that no tracked name is assigned to an unmarked variable or answered by a
//! use of one.
use super::{FUEL, Generator, VARIABLES};
use clif_calls::{Call, Name};
use clif_records::Variable;
use clif_types::EntityRef;
use clif_types::types::I64;
use rand::RngExt;
use std::alloc::AllocError;

/// Whether a value is tracked.
#[derive(Clone, Copy, PartialEq, Eq)]
pub(super) enum Kept {
    /// It isn't so far.
    Free,
    /// It is.
    Tracked,
    /// It never is: an unmarked variable has it.
    Apart,
}

/// A value that was given.
#[derive(Clone, Copy)]
pub(super) struct Given {
    pub(super) name: Name,
    kept: Kept,
}

impl Given {
    pub(super) fn new(name: Name) -> Given {
        Given {
            name,
            kept: Kept::Free,
        }
    }
}

impl Generator {
    // The variables. Some are marked, but never the one that counts blocks.
    pub(super) fn declare_variables(&mut self) -> Result<(), AllocError> {
        for number in 0..VARIABLES {
            self.call(Call::DeclareVar { ty: I64 })?;
            let is_marked = number != FUEL && self.random.random_range(0u32..2) == 0;
            self.marked.push(is_marked)?;
            if is_marked {
                let variable = Variable::new(number);
                self.call(Call::DeclareVarNeedsStackMap { variable })?;
            }
        }
        Ok(())
    }

    // What a value becomes that a variable gets or gives.
    fn kept_by(&self, variable: Variable) -> Kept {
        match self.marked.get(variable.index()) {
            Some(true) => Kept::Tracked,
            _ => Kept::Apart,
        }
    }

    // A value of the current block that may become so, and does.
    fn keep(&mut self, wanted: Kept) -> Option<Name> {
        let place = self.random.random_range(0usize..1024);
        let given = self.values.get_mut(place.checked_rem(self.values.len())?)?;
        if given.kept != Kept::Free && given.kept != wanted {
            return None;
        }
        given.kept = wanted;
        Some(given.name)
    }

    // A variable is used.
    pub(super) fn use_var(&mut self) -> Result<(), AllocError> {
        let variable = self.variable();
        let kept = self.kept_by(variable);
        let name = self.call(Call::UseVar { variable })?;
        self.values.push(Given { name, kept })?;
        Ok(())
    }

    // A variable is assigned, where a value is found for it.
    pub(super) fn def_var(&mut self) -> Result<(), AllocError> {
        let variable = self.variable();
        if let Some(value) = self.keep(self.kept_by(variable)) {
            self.call(Call::DefVar { variable, value })?;
        }
        Ok(())
    }

    // Stack maps are asked for a value, where one is found.
    pub(super) fn need(&mut self) -> Result<(), AllocError> {
        if let Some(value) = self.keep(Kept::Tracked) {
            self.call(Call::DeclareValueNeedsStackMap { value })?;
        }
        Ok(())
    }
}
