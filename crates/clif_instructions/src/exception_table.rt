//! Exception tables.
ghost use Rattle.std.specs.Prelude.{◌≡◌, ◌<◌, ◌++◌, ◌∷◌, [], length, slice_index_or, slice_set, OnOk, OnErr, IfOk};
ghost use Rattle.clif_instructions.specs.Edges.{edge_at, with_argument_to, with_passed_at, with_target_changed};
ghost use Rattle.clif_instructions.specs.ExceptionTables.{exception_shape, item_edges, kept_item, with_context_at};

use crate::block_call::BlockCall;
use crate::edges::{append_to_edges, redirect_edges, set_argument_at, set_edge_at};
use clif_types::{Block, BuildError, SigRef, Value};
use std::alloc::Global;
use std::marker::Model;

/// An item of an exception table, as it is given.
#[derive(Drop)]
pub enum ExceptionTableItem {
    /// Where an exception with this tag goes.
    Tag(u32, BlockCall),
    /// Where each other exception goes.
    Default(BlockCall),
    /// The context of the tags that follow.
    Context(Value),
}

/// What a call that may throw goes to, as it is given.
#[derive(Drop)]
pub struct ExceptionTableData {
    /// The signature of the call.
    pub sig: SigRef,
    /// Where the call goes when it returns.
    pub normal: BlockCall,
    /// Where it goes when it throws, in the order in which they are tried.
    pub items: Vec<ExceptionTableItem>,
}

/// An item of an exception table without its edge.
#[derive(Clone, Copy, Debug, PartialEq, Eq)]
pub enum ExceptionItem {
    /// Where an exception with this tag goes: to the next edge.
    Tag(u32),
    /// Where each other exception goes: to the next edge.
    Default,
    /// The context of the tags that follow. It has no edge.
    Context(Value),
}

// What a call that may throw goes to: all edges in one list.
struct Targets {
    sig: SigRef,
    edges: Vec<BlockCall>,
    items: Vec<ExceptionItem>,
}

// By hand: a derived one is proved anew at each way out of a function that holds such a value.
impl Drop for Targets {
    fn drop(self) {
        let Targets {
            sig: _,
            edges: _,
            items: _,
        } = self;
    }
}

/// What a call that may throw goes to, as a table and an instruction keep it, in memory of its own.
///
/// Contracts see it as its signature, the list of its edges, the normal one first, and the list of its items.
#[derive(Drop)]
pub struct ExceptionTargets {
    targets: Box<Targets>,
}

impl Model for ExceptionTargets {
    ghost use Rattle.std.specs.Prelude.{◌<◌, length};
    ghost use Rattle.clif_instructions.specs.ExceptionTables.{ExceptionShape};

    ghost Value = { ExceptionShape };

    ghost view = { λ t. record {
      sig = t.targets.value.sig;
      edges = t.targets.value.edges.items;
      items = t.targets.value.items.items;
    } };

    ghost invariant = { λ t. 0 < length t.targets.value.edges.items };
}

// Puts an item at the end of the edges and items of a table.
fn push_item(
    edges: &mut Vec<BlockCall>,
    items: &mut Vec<ExceptionItem>,
    item: ExceptionTableItem,
) -> Result<(), BuildError>
    ensures edges { OnOk result (edges.new.items ≡ edges.old.items ++ item_edges item) }
    ensures items { OnOk result (items.new.items ≡ items.old.items ++ kept_item item ∷ []) }
    ensures only_memory { OnErr result (result ≡ Err BuildError.Memory) }
{
    match item {
        ExceptionTableItem::Tag(tag, edge) => {
            items.push(ExceptionItem::Tag(tag))?;
            edges.push(edge)?;
        }
        ExceptionTableItem::Default(edge) => {
            items.push(ExceptionItem::Default)?;
            edges.push(edge)?;
        }
        ExceptionTableItem::Context(value) => items.push(ExceptionItem::Context(value))?,
    }
    Ok(())
}

impl ExceptionTargets {
    /// The table of this signature, normal edge and items.
    ///
    /// # Errors
    ///
    /// `Memory`, where memory is refused.
    pub fn new(alloc: Global, table: ExceptionTableData) -> Result<ExceptionTargets, BuildError>
        ensures ok { IfOk result (λ kept. kept ≡ exception_shape table) }
        ensures only_memory { OnErr result (result ≡ Err BuildError.Memory) }
    {
        let ExceptionTableData {
            sig,
            normal,
            items: given,
        } = table;
        let mut edges = Vec::new(alloc);
        let mut items = Vec::new(alloc);
        edges.push(normal)?;
        for item in given {
            push_item(&mut edges, &mut items, item)?;
        }
        let targets = Targets { sig, edges, items };
        Ok(ExceptionTargets {
            targets: Box::new(alloc, targets)?,
        })
    }

    /// The signature of the call.
    pub fn signature(&self) -> SigRef
        ensures { result ≡ self.now.sig }
    {
        self.targets.sig
    }

    /// Where the call goes when it returns.
    pub fn normal_return(&self) -> &BlockCall
        ensures { result.now ≡ slice_index_or self.now.edges 0 result.now }
    {
        &self.targets.edges[0]
    }

    /// All edges as they are printed: the normal one, and then those of the items.
    pub fn all_branches(&self) -> &[BlockCall]
        ensures { result.now ≡ self.now.edges }
    {
        self.targets.edges.as_slice()
    }

    /// The items, in order. Each tag and each default has the next edge after the normal one.
    pub fn items(&self) -> &[ExceptionItem]
        ensures { result.now ≡ self.now.items }
    {
        self.targets.items.as_slice()
    }

    /// Puts a value at the end of what each edge passes that goes to `block`. The only error is `Memory`, and
    /// the table is then as it was.
    pub(crate) fn append_argument(&mut self, block: Block, value: Value) -> Result<(), BuildError>
        ensures ok { OnOk result (self.new ≡ record self.old { edges = with_argument_to block value self.old.edges }) }
        ensures err { OnErr result (self.new ≡ self.old) }
        ensures only_memory { OnErr result (result ≡ Err BuildError.Memory) }
    {
        append_to_edges(self.targets.edges.as_mut_slice(), block, value)
    }

    /// Makes each edge that goes to `from` go to `to`. What it passes stays.
    pub fn change_target(&mut self, from: Block, to: Block)
        ensures { self.new ≡ record self.old { edges = with_target_changed from to self.old.edges } }
    {
        redirect_edges(self.targets.edges.as_mut_slice(), from, to);
    }

    /// Makes the edge at `edge` pass `value` at `place`, in place of what it passed there.
    pub(crate) fn set_argument(&mut self, edge: usize, place: usize, value: Value)
        requires edge_exists { edge < length self.old.edges }
        requires place_exists { place < length (edge_at self.old.edges edge).args }
        ensures { self.new ≡ record self.old { edges = with_passed_at edge place value self.old.edges } }
    {
        set_argument_at(self.targets.edges.as_mut_slice(), edge, place, value);
    }

    /// Makes the edge at `edge` another one.
    pub(crate) fn set_edge(&mut self, edge: usize, call: BlockCall)
        requires { edge < length self.old.edges }
        ensures { self.new ≡ record self.old { edges = slice_set self.old.edges edge call } }
    {
        set_edge_at(self.targets.edges.as_mut_slice(), edge, call);
    }

    /// Makes the item at `item` the context `value`.
    pub(crate) fn set_context(&mut self, item: usize, value: Value)
        requires { item < length self.old.items }
        ensures { self.new ≡ with_context_at item value self.old }
    {
        self.targets.items[item] = ExceptionItem::Context(value);
    }
}
