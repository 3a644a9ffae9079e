//! The labels of values, by which a debugger finds variables of the source.
ghost use Rattle.std.specs.Prelude.{◌≡◌, [], OnErr, OnOk};
ghost use Rattle.clif_tables.specs.Sparse.{list_at, with_one_more};

use clif_types::{BuildError, SourceLoc, Value, ValueLabel};
use std::alloc::Global;
use std::collections::BTreeMap;
use std::marker::Model;

/// A label of a value, and the place in the source from which on the value has it.
#[derive(Clone, Copy, PartialEq, Eq)]
pub struct ValueLabelStart {
    /// Where the label begins.
    pub from: SourceLoc,
    /// The label.
    pub label: ValueLabel,
}

// The labels of one value, in the order of the calls that set them.
#[derive(Drop)]
struct LabelStarts {
    starts: Vec<ValueLabelStart>,
}

impl Model for LabelStarts {
    ghost use Rattle.std.specs.Prelude.{List};
    ghost use Rattle.clif_tables.specs.declared.labels.ValueLabelStart.{ValueLabelStart};

    ghost Value = { List ValueLabelStart };

    ghost view = { λ l. l.starts.items };
}

/// The labels of a function's values, by the value's number. A value that has none takes no room.
#[derive(Drop)]
pub struct ValueLabels {
    alloc: Global,
    labels: BTreeMap<Value, LabelStarts>,
}

impl Model for ValueLabels {
    ghost use Rattle.std.specs.Prelude.{ℕ, List};
    ghost use Rattle.clif_tables.specs.declared.labels.ValueLabelStart.{ValueLabelStart};

    ghost Value = { List (ℕ × List ValueLabelStart) };

    ghost view = { λ l. l.labels.entries };
}

impl ValueLabels {
    /// No labels.
    pub(crate) fn new(alloc: Global) -> ValueLabels
        ensures { result ≡ [] }
    {
        ValueLabels {
            alloc,
            labels: BTreeMap::new(alloc),
        }
    }

    /// The labels of a value, in the order of the calls that set them; none where none was set.
    pub(crate) fn get(&self, value: Value) -> &[ValueLabelStart]
        ensures { result.now ≡ list_at self.now value }
    {
        match self.labels.get(&value) {
            Some(labels) => labels.starts.as_slice(),
            None => &[],
        }
    }

    /// Gives a value one label more. The only error is `Memory`; nothing is changed then.
    pub(crate) fn push(&mut self, value: Value, start: ValueLabelStart) -> Result<(), BuildError>
        ensures ok { OnOk result (self.new ≡ with_one_more self.old value start) }
        ensures err { OnErr result (self.new ≡ self.old) }
        ensures only_memory { OnErr result (result ≡ Err BuildError.Memory) }
    {
        match self.labels.get_mut(&value) {
            Some(labels) => labels.starts.push(start)?,
            None => {
                let starts = vec![in self.alloc; start]?;
                self.labels.insert(value, LabelStarts { starts })?;
            }
        }
        Ok(())
    }
}
