//! Switches: control goes by a value to the block of its case.
#![tactic(auto)]

ghost use Rattle.std.specs.Prelude.{◌≡◌, ◌≢◌, ◌↔◌, ◌⊎◌, IsTrue, OnErr, OnOk, false};
ghost use Rattle.std.specs.FinMap as map;
ghost use Rattle.clif_types.specs.declared.error.BuildError.TheVariants as BuildError;
ghost use Rattle.clif_ranges.specs.declared.error.SwitchError.TheVariants as SwitchError;
ghost use Rattle.clif_ranges.specs.Cases.{cases_in, CaseMap, case_map_code};
ghost use Rattle.clif_switch.specs.Switches.{Emits, MayEmit};

use crate::emission::{SwitchedValue, emit_nodes};
use clif_builder::laws::{ledger_is_read_by_number, requests_ask_for_their_shapes};
use clif_builder::{FunctionBuilder, InstBuilderBase};
use clif_ranges::{Cases, SwitchError, search_tree};
use clif_switch_calls::laws::switch_calls_are_code;
use clif_types::{Block, BuildError, Value};
use std::alloc::Global;
use std::collections::HashMap;
use std::marker::Model;

/// The cases of a switch: for some values a block.
///
/// [`Switch::set_entry`] sets the case of a value, and [`Switch::emit`] appends the instructions and blocks that find the case
/// of a value when they run, and go to its block.
///
/// ```
/// let mut switch = Switch::new(alloc);
/// switch.set_entry(0, zero)?;
/// switch.set_entry(7, seven)?;
/// switch.emit(&mut builder, value, otherwise)?;
/// ```
#[derive(Debug, Drop)]
pub struct Switch {
    cases: Cases,
}

impl Model for Switch {
    ghost Value = { CaseMap };

    ghost coded = { case_map_code };

    ghost view = { λ s. s.cases };
}

impl Switch {
    /// A switch without a case.
    pub fn new(alloc: Global) -> Switch
        ensures { result ≡ map.empty }
    {
        Switch {
            cases: Cases::new(alloc),
        }
    }

    /// Sets the block for an index.
    ///
    /// # Errors
    ///
    /// `SetTwice`, exactly where the index has a block; or `Build(Memory)`, where memory is refused. The switch is as it was then.
    pub fn set_entry(&mut self, index: u128, block: Block) -> Result<(), SwitchError>
        ensures ok { OnOk result (self.new ≡ map.insert self.old index block) }
        ensures err { OnErr result (self.new ≡ self.old) }
        ensures twice { (result ≡ Err (SwitchError.SetTwice index)) ↔ IsTrue (map.contains_key self.old index) }
        ensures only { OnErr result ((result ≡ Err (SwitchError.SetTwice index)) ⊎ (result ≡ Err (SwitchError.Build BuildError.Memory))) }
    {
        self.cases.set(index, block)
    }

    /// The block of each index that was set.
    pub fn entries(&self) -> &HashMap<u128, Block>
        ensures { cases_in result.now ≡ self.now }
    {
        self.cases.entries()
    }

    /// Appends the instructions that go by a value to the block of its case, or to `otherwise` where it has none: tests, each in a block of
    /// its own but for the first one, and jump tables for ranges of consecutive indices. The order in which entries were set doesn't
    /// matter. The current block is left afterwards, and so are the blocks that were made, which are sealed. Each instruction has
    /// the builder's source place.
    ///
    /// # Errors
    ///
    /// `Build(Failed)`, exactly where the builder failed before. `KeyTooWide`, exactly where it hadn't and the greatest index is no number
    /// of the value's type, and `TableTooLong`, where 2^32 indices or more are consecutive: the builder is as it was then. And
    /// `Build(Memory)`, where memory is refused, or `Build(Full)`, where a table of the function holds 2^32 - 1 entries: the builder
    /// has failed then.
    pub fn emit(
        self,
        bx: &mut FunctionBuilder<'_>,
        val: Value,
        otherwise: Block,
    ) -> Result<(), SwitchError>
        requires { MayEmit self val otherwise bx.old }
        ensures { Emits self val otherwise bx.old bx.new result }
    {
        ledger_is_read_by_number();
        requests_ask_for_their_shapes();
        switch_calls_are_code();
        if bx.has_failed() {
            return Err(SwitchError::Build(BuildError::Failed));
        }
        let alloc = bx.func().allocator();
        let ty = bx.func().value_type(val);
        let ranges = match self.cases.ranges(alloc, ty) {
            Ok(ranges) => ranges,
            Err(SwitchError::KeyTooWide { max, .. }) => {
                return Err(SwitchError::KeyTooWide { ty, max });
            }
            Err(SwitchError::TableTooLong) => return Err(SwitchError::TableTooLong),
            Err(SwitchError::Build(_)) => return Err(SwitchError::Build(bx.refuse())),
            Err(SwitchError::SetTwice(_)) => unreachable!(),
        };
        let Ok(nodes) = search_tree(alloc, ranges.as_slice()) else {
            return Err(SwitchError::Build(bx.refuse()));
        };
        let switched = SwitchedValue { ty, val, otherwise };
        match emit_nodes(bx, switched, nodes.as_slice()) {
            Ok(()) => Ok(()),
            Err(error) => Err(SwitchError::Build(error)),
        }
    }
}
