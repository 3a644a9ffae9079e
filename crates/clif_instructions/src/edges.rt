//! Changes of the edges of a branch or of a table, all at once.
ghost use Rattle.std.specs.Prelude.{◌≡◌, ◌<◌, ◌≤◌, length, slice_set, OnOk, OnErr};
ghost use Rattle.clif_instructions.specs.Edges.{appended_to, redirected, with_argument_to, with_target_changed, edge_at, with_passed, with_passed_at, taken_from, taken_back};

use crate::block_call::{BlockArg, BlockCall};
use clif_types::{Block, BuildError, Value};

/// Puts a value at the end of what each edge passes that goes to `block`.
///
/// # Errors
///
/// `Memory`, where memory is refused; the edges are as they were then.
pub fn append_to_edges(
    edges: &mut [BlockCall],
    block: Block,
    value: Value,
) -> Result<(), BuildError>
    ensures ok { OnOk result (edges.new ≡ with_argument_to block value edges.old) }
    ensures err { OnErr result (edges.new ≡ edges.old) }
    ensures only_memory { OnErr result (result ≡ Err BuildError.Memory) }
{
    for place in 0..edges.len() {
        if let Err(error) = append_to_edge(&mut edges[place], block, value) {
            take_back(edges, place, block);
            return Err(error);
        }
    }
    Ok(())
}

// Puts a value at the end of what an edge passes, if it goes to `block`. The only error is `Memory`, and the
// edge is then as it was.
pub(crate) fn append_to_edge(
    edge: &mut BlockCall,
    block: Block,
    value: Value,
) -> Result<(), BuildError>
    ensures ok { OnOk result (edge.new ≡ appended_to block value edge.old) }
    ensures err { OnErr result (edge.new ≡ edge.old) }
    ensures only_memory { OnErr result (result ≡ Err BuildError.Memory) }
{
    if edge.block == block {
        edge.args.push(BlockArg::Value(value))?;
    }
    Ok(())
}

// Takes the last argument from each of the first `count` edges that goes to `block`.
fn take_back(edges: &mut [BlockCall], count: usize, block: Block)
    requires { count ≤ length edges.old }
    ensures { edges.new ≡ taken_back block count edges.old }
{
    for place in 0..count {
        take_from_edge(&mut edges[place], block);
    }
}

// Takes the last argument from an edge, if it goes to `block`.
fn take_from_edge(edge: &mut BlockCall, block: Block)
    ensures { edge.new ≡ taken_from block edge.old }
{
    if edge.block == block {
        edge.args.pop();
    }
}

/// Makes each edge that goes to `from` go to `to`. What it passes stays.
pub fn redirect_edges(edges: &mut [BlockCall], from: Block, to: Block)
    ensures { edges.new ≡ with_target_changed from to edges.old }
{
    for place in 0..edges.len() {
        redirect_edge(&mut edges[place], from, to);
    }
}

// Makes an edge that goes to `from` go to `to`.
pub(crate) fn redirect_edge(edge: &mut BlockCall, from: Block, to: Block)
    ensures { edge.new ≡ redirected from to edge.old }
{
    if edge.block == from {
        edge.block = to;
    }
}

// Makes an edge pass `value` at `place`, in place of what it passed there.
pub(crate) fn set_argument(edge: &mut BlockCall, place: usize, value: Value)
    requires { place < length edge.old.args }
    ensures { edge.new ≡ with_passed place value edge.old }
{
    edge.args.set(place, BlockArg::Value(value));
}

// Makes one of these edges pass `value` at `place`, in place of what it passed there.
pub(crate) fn set_argument_at(edges: &mut [BlockCall], edge: usize, place: usize, value: Value)
    requires edge_exists { edge < length edges.old }
    requires place_exists { place < length (edge_at edges.old edge).args }
    ensures { edges.new ≡ with_passed_at edge place value edges.old }
{
    set_argument(&mut edges[edge], place, value);
}

// Makes one of these edges another one.
pub(crate) fn set_edge_at(edges: &mut [BlockCall], edge: usize, call: BlockCall)
    requires { edge < length edges.old }
    ensures { edges.new ≡ slice_set edges.old edge call }
{
    edges[edge] = call;
}
