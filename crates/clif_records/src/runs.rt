//! A value that is put into cells of one page, for blocks beside one another.
ghost use Rattle.std.specs.Prelude.{◌≡◌, ◌≢◌, ◌<◌, ◌≤◌, ℕ, length, slice_index};
ghost use Rattle.clif_records.specs.Pages.{PutsRun, page_number};

use crate::tables::{Page, page_number, place_in_page, put_value};
use clif_types::{Block, Value};

/// In how many blocks a value was put, and how many cells more keep something.
#[derive(Clone, Copy, Debug)]
pub(crate) struct Run {
    pub(crate) blocks: usize,
    pub(crate) added: usize,
}

/// Makes the cells of the first of these blocks keep a value, as far as they are in the page, which has this number, and
/// up to the first `from`.
pub(crate) fn put_run(
    page: &mut Page,
    number: u32,
    blocks: &[Block],
    from: Block,
    value: Value,
) -> Run
    ensures run { PutsRun blocks.now value page.old page.new result.added result.blocks }
    ensures of_page { (k : ℕ) → k < result.blocks
        → page_number (slice_index blocks.now k) ≡ number }
    ensures apart { (k : ℕ) → k < result.blocks → slice_index blocks.now k ≢ from }
    ensures few { result.added ≤ result.blocks }
    ensures within { result.blocks ≤ length blocks.now }
    ensures some { 0 < length blocks.now → page_number (slice_index blocks.now 0) ≡ number
        → slice_index blocks.now 0 ≢ from → 0 < result.blocks }
{
    let mut run = Run {
        blocks: 0,
        added: 0,
    };
    for block in blocks.iter() {
        if *block == from || page_number(*block) != number {
            break;
        }
        run.added += put_value(page, place_in_page(*block), value);
        run.blocks += 1;
    }
    run
}
