//! The blocks that are reached from the entry.
ghost use Rattle.std.specs.Prelude.{◌<◌, length, IfOk, OnOk, EachIndex, slice_index};

use clif_ir::Function;
use clif_types::{Block, EntityRef};
use std::alloc::{AllocError, Global};

/// The blocks found so far.
#[derive(Drop)]
struct Found {
    // in the order in which they were found
    blocks: Vec<Block>,
    // whether each block of the function is one of them
    marks: Vec<bool>,
}

impl Found {
    fn add(&mut self, block: Block) -> Result<(), AllocError> {
        let Some(mark) = self.marks.get_mut(block.index()) else {
            return Ok(());
        };
        if !*mark {
            *mark = true;
            self.blocks.push(block)?;
        }
        Ok(())
    }

    // Adds the blocks that a block leads to.
    fn add_targets(&mut self, func: &Function, block: Block) -> Result<(), AllocError> {
        if block.index() >= func.block_count() {
            return Ok(());
        }
        for target in func.block_successors(block) {
            self.add(target)?;
        }
        Ok(())
    }
}

/// Whether each block, by its number, is reached from the entry.
///
/// # Errors
///
/// Where memory is refused.
pub fn reached_blocks(alloc: Global, func: &Function) -> Result<Vec<bool>, AllocError> {
    let count = func.block_count();
    let mut found = Found {
        blocks: Vec::with_capacity(alloc, count)?,
        marks: vec![in alloc; false; count]?,
    };
    if let Some(entry) = func.entry_block() {
        found.add(entry)?;
    }
    for place in 0..count {
        let Some(block) = found.blocks.get(place).copied() else {
            break;
        };
        found.add_targets(func, block)?;
    }
    Ok(found.marks)
}
