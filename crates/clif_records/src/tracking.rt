//! Which variables are marked, and which values are recorded, for a collector that moves objects.
ghost use Rattle.std.specs.Prelude.{◌≡◌, ◌↔◌, IsTrue, OnOk, OnErr};
ghost use Rattle.std.specs.Borrow.{sem};
ghost use Rattle.clif_types.specs.EntitySet.{has};
ghost use Rattle.clif_records.specs.Lends.{lends_recorded};
ghost use Rattle.clif_records.specs.Tracking.{marked_of, nothing_tracked, recorded_of, with_binding, with_mark};

use crate::variable::Variable;
use clif_types::{BuildError, EntitySet, Value};
use std::alloc::Global;
use std::marker::Model;

/// The variables whose values stack maps need, and the values that stack maps need.
#[derive(Debug)]
pub struct Tracking {
    marked: EntitySet<Variable>,
    recorded: EntitySet<Value>,
}

// By hand: a derived one is proved anew at each way out of a function that holds such a value.
impl Drop for Tracking {
    fn drop(self) {
        let Tracking {
            marked: _,
            recorded: _,
        } = self;
    }
}

impl Model for Tracking {
    ghost use Rattle.clif_records.specs.Tracking.{sets, Tracked, tracked_code};

    ghost Value = { Tracked };

    ghost coded = { tracked_code };

    ghost view = { λ t. sets t.marked t.recorded };
}

impl Tracking {
    /// Nothing is marked, and nothing is recorded.
    pub fn new(alloc: Global) -> Self
        ensures { result ≡ nothing_tracked }
    {
        Tracking {
            marked: EntitySet::new(alloc),
            recorded: EntitySet::new(alloc),
        }
    }

    /// Whether nothing is marked and nothing recorded.
    pub fn is_empty(&self) -> bool
        ensures { IsTrue result ↔ (self.now ≡ nothing_tracked) }
    {
        self.marked.is_empty() && self.recorded.is_empty()
    }

    /// Whether a variable is marked.
    pub fn is_marked(&self, variable: Variable) -> bool
        ensures { result ≡ has (marked_of self.now) variable }
    {
        self.marked.contains(variable)
    }

    /// Marks a variable.
    ///
    /// # Errors
    ///
    /// `Memory`, where memory is refused. Nothing has changed then.
    pub fn mark(&mut self, variable: Variable) -> Result<(), BuildError>
        ensures ok { OnOk result (self.new ≡ with_mark self.old variable) }
        ensures err { OnErr result (self.new ≡ self.old) }
        ensures only_memory { OnErr result (result ≡ Err BuildError.Memory) }
    {
        self.marked.insert(variable)?;
        Ok(())
    }

    /// A variable gets a value, which is recorded if the variable is marked.
    ///
    /// # Errors
    ///
    /// `Memory`, where memory is refused. Nothing has changed then.
    pub fn bind(&mut self, variable: Variable, value: Value) -> Result<(), BuildError>
        ensures ok { OnOk result (self.new ≡ with_binding self.old variable value) }
        ensures err { OnErr result (self.new ≡ self.old) }
        ensures only_memory { OnErr result (result ≡ Err BuildError.Memory) }
    {
        if self.is_marked(variable) {
            self.recorded.insert(value)?;
        }
        Ok(())
    }

    /// The recorded values.
    pub fn recorded(&self) -> &EntitySet<Value>
        ensures { result.now ≡ recorded_of self.now }
    {
        &self.recorded
    }

    /// The recorded values, to which more may be added.
    pub fn recorded_mut(&mut self) -> &mut EntitySet<Value>
        ensures* writes_back { sem 𝓛 (lends_recorded self.entry result) }
        ensures value { result.now ≡ recorded_of self.old }
    {
        &mut self.recorded
    }
}
