//! The links from each block of the layout to the next one.
ghost use Rattle.std.specs.Prelude.{◌≡◌, ◌<◌, length, slice_index_or, slice_set, true};
ghost use Rattle.clif_nodes.specs.Places.{last_after, linked_after, no_place};

use crate::nodes::BlockPlace;
use clif_types::{Block, EntityRef};

/// The place of a block, by its number.
pub fn place_at(places: &[BlockPlace], block: Block) -> BlockPlace
    requires { block < length places.now }
    ensures { result ≡ slice_index_or places.now block no_place }
{
    places[block.index()]
}

/// Puts a block behind another one in the links.
pub fn link_after(places: &mut [BlockPlace], block: Block, after: Block)
    requires block_exists { block < length places.old }
    requires after_exists { after < length places.old }
    ensures { places.new ≡ linked_after places.old block after }
{
    let before = places[after.index()];
    places[block.index()] = BlockPlace {
        next: before.next,
        is_inserted: true,
    };
    places[after.index()] = BlockPlace {
        next: Some(block),
        is_inserted: before.is_inserted,
    };
}

/// Marks a block as one of the layout.
pub fn mark_inserted(places: &mut [BlockPlace], block: Block)
    requires { block < length places.old }
    ensures { places.new ≡ slice_set places.old block (record (slice_index_or places.old block no_place) { is_inserted = true }) }
{
    places[block.index()].is_inserted = true;
}

/// The last block as `block` is put behind a block that `next` followed.
pub fn last_after(last: Option<Block>, next: Option<Block>, block: Block) -> Option<Block>
    ensures { result ≡ last_after last next block }
{
    match next {
        None => Some(block),
        Some(_) => last,
    }
}
