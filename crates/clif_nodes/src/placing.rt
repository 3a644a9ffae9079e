//! An instruction more among those of a block: its links, and what the block knows of its ends.
ghost use Rattle.std.specs.Prelude.{◌≡◌, length, ◌-◌, ◌^◌, ◌<◌, slice_index_or, slice_set, vec_len, vec_capacity, IfSome};
ghost use Rattle.clif_nodes.specs.Links.{linked_between, links_behind, with_inst_between};
ghost use Rattle.clif_nodes.specs.Nodes.{no_data};
ghost use Rattle.clif_nodes.specs.Places.{last_after};

use crate::inst_links::{InstLink, InstLinks, link_from_next, link_from_previous, next_of};
use crate::nodes::BlockData;
use clif_types::{Block, EntityRef, Inst};

/// The links that a new instruction gets behind `previous`, or at the front of the block where `previous` is none.
#[inline(always)]
pub fn links_behind(block: &BlockData, links: &[InstLinks], previous: Option<Inst>) -> InstLinks
    requires { IfSome previous (λ previous. previous < length links.now) }
    ensures { result ≡ links_behind block.now links.now previous }
{
    match previous {
        None => InstLinks::new(None, block.first_inst.get()),
        Some(previous) => InstLinks::new(Some(previous), next_of(links, previous)),
    }
}

/// Puts the links of a new instruction, which has the next number, into the table, which has room for them, and those
/// of its neighbours to it.
#[inline(always)]
pub fn link_between(links: &mut Vec<InstLinks>, own: InstLinks, inst: Inst)
    requires room { vec_len links.old < vec_capacity links.old }
    requires new { inst ≡ length links.old.items }
    requires previous_exists { IfSome own.previous (λ previous. previous < length links.old.items) }
    requires next_exists { IfSome own.next (λ next. next < length links.old.items) }
    ensures { links.new.items ≡ linked_between links.old.items own }
{
    links.push_reserved(own);
    link_from_previous(links, inst);
    link_from_next(links, inst);
}

/// Counts an instruction, which has these neighbours, as one of `block`.
#[inline(always)]
pub fn put_between(blocks: &mut [BlockData], block: Block, inst: Inst, own: &InstLinks)
    requires exists { block < length blocks.old }
    requires room { (slice_index_or blocks.old block no_data).inst_count < 2 ^ 32 - 1 }
    ensures { blocks.new ≡ slice_set blocks.old block
        (with_inst_between (slice_index_or blocks.old block no_data) inst own.now) }
{
    let data = &mut blocks[block.index()];
    let first = end_with(data.first_inst.get(), own.previous.get(), inst);
    let last = end_with(data.last_inst.get(), own.next.get(), inst);
    data.first_inst = InstLink::new(first);
    data.last_inst = InstLink::new(last);
    data.inst_count += 1;
}

// The instruction at one end of a block as `inst` is put where `neighbour` is, or at the end where it is none.
#[inline(always)]
fn end_with(end: Option<Inst>, neighbour: Option<Inst>, inst: Inst) -> Option<Inst>
    ensures { result ≡ last_after end neighbour inst }
{
    match neighbour {
        None => Some(inst),
        Some(_) => end,
    }
}
