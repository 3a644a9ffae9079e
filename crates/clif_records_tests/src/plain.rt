//! A plain table of records: a sorted map with an entry for each pair of a variable and a block.
ghost use Rattle.std.specs.Prelude.{◌≡◌, ◌==◌, ◌&&◌, ◌↔◌, IsTrue, ℕ, OnOk, OnErr, Some, if◌then◌else◌};
ghost use Rattle.std.specs.FinMap as map;
ghost use Rattle.clif_records.specs.Records.{recording, counting, HasEntry, RecordsUpTo, RecordsSome};
ghost use Rattle.clif_records.specs.Tables.{recorded_at, record_at, lookups_at};

use clif_records::Variable;
use clif_records::tables::Recorded;
use clif_types::{Block, BuildError, Value};
use std::alloc::Global;
use std::collections::BTreeMap;
use std::marker::Model;

/// The records of all variables, by the variable and the block.
#[derive(Drop)]
pub struct PlainTable {
    sorted: BTreeMap<(Variable, Block), Recorded>,
}

impl Model for PlainTable {
    ghost use Rattle.std.specs.FinMap as map;
    ghost use Rattle.clif_records.specs.Tables.{RecordMap, record_map_code};

    ghost Value = { RecordMap };

    ghost coded = { record_map_code };

    ghost view = { λ t. map.from_entries t.sorted.entries };
}

impl PlainTable {
    /// No records.
    pub fn new(alloc: Global) -> Self
        ensures { result ≡ map.empty }
    {
        PlainTable {
            sorted: BTreeMap::new(alloc),
        }
    }

    /// Forgets all records.
    pub fn clear(&mut self)
        ensures { self.new ≡ map.empty }
    {
        self.sorted.clear();
    }

    /// Whether nothing is recorded.
    pub fn is_empty(&self) -> bool
        ensures { IsTrue result ↔ (self.now ≡ map.empty) }
    {
        self.records() == 0
    }

    /// In how many pairs of a variable and a block something is recorded.
    pub fn records(&self) -> usize
        ensures { result ≡ map.len self.now }
    {
        self.sorted.len()
    }

    // What is known of a variable in a block.
    fn recorded(&self, variable: Variable, block: Block) -> Recorded
        ensures { result ≡ recorded_at self.now variable block }
    {
        match self.sorted.get(&(variable, block)) {
            Some(recorded) => *recorded,
            None => Recorded {
                value: None,
                lookups: 0,
            },
        }
    }

    /// The record of a variable in a block.
    pub fn get(&self, variable: Variable, block: Block) -> Option<Value>
        ensures { result ≡ record_at self.now variable block }
    {
        self.recorded(variable, block).value
    }

    /// How many look-ups of a variable in a block's predecessors began.
    pub fn lookups(&self, variable: Variable, block: Block) -> u32
        ensures { result ≡ lookups_at self.now variable block }
    {
        self.recorded(variable, block).lookups
    }

    // Puts an entry for a variable in a block. After an error the records are as they were.
    fn put(
        &mut self,
        variable: Variable,
        block: Block,
        value: Option<Value>,
        lookups: u32,
    ) -> Result<(), BuildError>
        ensures entry { OnOk result (self.new ≡ map.insert self.old (variable, block) (record { value = value; lookups = lookups })) }
        ensures refused { OnErr result (self.new ≡ self.old) }
        ensures only_memory { OnErr result (result ≡ Err BuildError.Memory) }
    {
        self.sorted
            .insert((variable, block), Recorded { value, lookups })?;
        Ok(())
    }

    /// Records a value for a variable in a block.
    ///
    /// # Errors
    ///
    /// `Memory`, where memory is refused. The records are as they were then.
    pub fn set(&mut self, variable: Variable, block: Block, value: Value) -> Result<(), BuildError>
        ensures entry { OnOk result (HasEntry self.old self.new variable block (recording value)) }
        ensures refused { OnErr result (self.new ≡ self.old) }
        ensures only_memory { OnErr result (result ≡ Err BuildError.Memory) }
    {
        let lookups = self.lookups(variable, block);
        self.put(variable, block, Some(value), lookups)
    }

    /// Records a value for a variable in these blocks, up to the first `from` among them.
    ///
    /// # Errors
    ///
    /// `Memory`, where memory is refused. The value may be recorded in some of the blocks then.
    pub fn set_each(
        &mut self,
        variable: Variable,
        blocks: &[Block],
        from: Block,
        value: Value,
    ) -> Result<(), BuildError>
        ensures ok { OnOk result (RecordsUpTo self.old self.new variable value blocks.now from) }
        ensures part { RecordsSome self.old self.new variable value blocks.now }
        ensures lookups { (v b : ℕ) → lookups_at self.new v b ≡ lookups_at self.old v b }
        ensures only_memory { OnErr result (result ≡ Err BuildError.Memory) }
    {
        for block in blocks.iter() {
            if *block == from {
                return Ok(());
            }
            self.set(variable, *block, value)?;
        }
        Ok(())
    }

    /// Counts a look-up of a variable in a block's predecessors.
    ///
    /// # Errors
    ///
    /// `Memory`, where memory is refused. The records are as they were then.
    pub fn count_lookup(&mut self, variable: Variable, block: Block) -> Result<(), BuildError>
        ensures entry { OnOk result (HasEntry self.old self.new variable block counting) }
        ensures refused { OnErr result (self.new ≡ self.old) }
        ensures only_memory { OnErr result (result ≡ Err BuildError.Memory) }
    {
        let Recorded { value, lookups } = self.recorded(variable, block);
        self.put(variable, block, value, lookups.saturating_add(1))
    }
}
