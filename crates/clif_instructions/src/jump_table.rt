//! Jump tables.
ghost use Rattle.std.specs.Prelude.{◌≡◌, ◌∷◌, ◌<◌, length, slice_index_or, slice_set, drop, OnOk, OnErr, IfOk};
ghost use Rattle.clif_instructions.specs.Edges.{edge_at, with_argument_to, with_passed_at, with_target_changed};

use crate::block_call::BlockCall;
use crate::edges::{append_to_edges, redirect_edges, set_argument_at, set_edge_at};
use clif_types::{Block, BuildError, Value};
use std::marker::Model;

/// The edges of a `br_table`: the default, and one for each index from 0 on.
///
/// Contracts see it as the list of its edges, the default first.
#[derive(Drop)]
pub struct JumpTableData {
    edges: Vec<BlockCall>,
}

impl Model for JumpTableData {
    ghost use Rattle.std.specs.Prelude.{◌<◌, List, length};
    ghost use Rattle.clif_instructions.specs.declared.block_call.BlockCall.{BlockCall};

    ghost Value = { List BlockCall };

    ghost view = { λ t. t.edges.items };

    ghost invariant = { λ t. 0 < length t.edges.items };
}

impl JumpTableData {
    /// The table of this default and these entries.
    ///
    /// # Errors
    ///
    /// `Memory`, where memory is refused.
    pub fn new(default: BlockCall, entries: Vec<BlockCall>) -> Result<JumpTableData, BuildError>
        ensures ok { IfOk result (λ table. table ≡ default ∷ entries.items) }
        ensures only_memory { OnErr result (result ≡ Err BuildError.Memory) }
    {
        let mut edges = entries;
        edges.insert(0, default)?;
        Ok(JumpTableData { edges })
    }

    /// The edge for an index past the entries.
    pub fn default_block(&self) -> &BlockCall
        ensures { result.now ≡ slice_index_or self.now 0 result.now }
    {
        &self.edges[0]
    }

    /// The entries, in order.
    pub fn as_slice(&self) -> &[BlockCall]
        ensures { result.now ≡ drop 1 self.now }
    {
        &self.edges[1..]
    }

    /// All edges as they are printed: the default, and then the entries.
    pub fn all_branches(&self) -> &[BlockCall]
        ensures { result.now ≡ self.now }
    {
        self.edges.as_slice()
    }

    /// Puts a value at the end of what each edge passes that goes to `block`. The only error is `Memory`, and
    /// the table is then as it was.
    pub(crate) fn append_argument(&mut self, block: Block, value: Value) -> Result<(), BuildError>
        ensures ok { OnOk result (self.new ≡ with_argument_to block value self.old) }
        ensures err { OnErr result (self.new ≡ self.old) }
        ensures only_memory { OnErr result (result ≡ Err BuildError.Memory) }
    {
        append_to_edges(self.edges.as_mut_slice(), block, value)
    }

    /// Makes each edge that goes to `from` go to `to`. What it passes stays.
    pub fn change_target(&mut self, from: Block, to: Block)
        ensures { self.new ≡ with_target_changed from to self.old }
    {
        redirect_edges(self.edges.as_mut_slice(), from, to);
    }

    /// Makes the edge at `edge` pass `value` at `place`, in place of what it passed there.
    pub(crate) fn set_argument(&mut self, edge: usize, place: usize, value: Value)
        requires edge_exists { edge < length self.old }
        requires place_exists { place < length (edge_at self.old edge).args }
        ensures { self.new ≡ with_passed_at edge place value self.old }
    {
        set_argument_at(self.edges.as_mut_slice(), edge, place, value);
    }

    /// Makes the edge at `edge` another one.
    pub(crate) fn set_edge(&mut self, edge: usize, call: BlockCall)
        requires { edge < length self.old }
        ensures { self.new ≡ slice_set self.old edge call }
    {
        set_edge_at(self.edges.as_mut_slice(), edge, call);
    }
}
