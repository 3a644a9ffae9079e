//! The order of the blocks, and of the instructions in them.
ghost use Rattle.std.specs.Prelude.{◌≡◌, [], ◌<◌, ◌≤◌, ◌-◌, ◌↔◌, length, IfSome, IsTrue, Some, slice_get, slice_index_or, slice_set, true, ◌^◌, OnOk, OnErr};
ghost use Rattle.clif_ir.specs.Body.{Body, inst_at, block_at};
ghost use Rattle.clif_ir.specs.Changes.{inserted_in, with_cold, with_layout, with_layout_after};
ghost use Rattle.clif_instructions.specs.Members.{IsPlaceOf, Stands, next_in, stands_in};
ghost use Rattle.clif_ir.specs.Reading.{place_in_block};
ghost use Rattle.clif_ir.specs.Whole.{count_before, entry_before, place_behind};
ghost use Rattle.clif_nodes.specs.Places.{last_after, linked_after, no_place};

use crate::function::Function;
use clif_instructions::insert_at::InsertAt;
use clif_nodes::inst_links::{next_of, previous_of};
use clif_nodes::links::{last_after, link_after, mark_inserted, place_at};
use clif_types::{Block, BuildError, EntityRef, Inst};

impl Function {
    /// The block in which an instruction stands. Each stands in one, from its making on.
    pub fn inst_block(&self, inst: Inst) -> Option<Block>
        requires { inst < length self.now.insts }
        ensures { result ≡ Some (inst_at self.now inst).block }
    {
        Some(self.insts[inst.index()].block)
    }

    /// The first instruction of a block, if it has any.
    pub fn first_inst(&self, block: Block) -> Option<Inst>
        requires { block < length self.now.blocks }
        ensures exact { result ≡ slice_get (block_at self.now block).insts 0 }
        ensures exists { IfSome result (λ inst. inst < length self.now.insts) }
    {
        self.blocks[block.index()].first_inst.get()
    }

    /// The last instruction of a block, if it has any.
    pub fn last_inst(&self, block: Block) -> Option<Inst>
        requires { block < length self.now.blocks }
        ensures exact { result ≡ slice_get (block_at self.now block).insts (length (block_at self.now block).insts - 1) }
        ensures exists { IfSome result (λ inst. inst < length self.now.insts) }
    {
        self.blocks[block.index()].last_inst.get()
    }

    /// How many instructions a block has.
    pub fn block_inst_count(&self, block: Block) -> usize
        requires { block < length self.now.blocks }
        ensures { result ≡ length (block_at self.now block).insts }
    {
        self.blocks[block.index()].inst_count as usize
    }

    /// The instruction after `inst` in its block, if `inst` isn't the last. It walks along nothing.
    pub fn next_inst(&self, inst: Inst) -> Option<Inst>
        requires { inst < length self.now.insts }
        ensures exact { result ≡ next_in (block_at self.now (inst_at self.now inst).block).insts inst }
        ensures exists { IfSome result (λ next. next < length self.now.insts) }
    {
        next_of(&self.inst_links, inst)
    }

    // The block of an instruction, and the instruction before it there, if it isn't the first.
    pub(crate) fn place_before(&self, inst: Inst) -> (Block, Option<Inst>)
        requires { inst < length self.now.insts }
        ensures block { result.0 ≡ (inst_at self.now inst).block }
        ensures exists { result.0 < length self.now.blocks }
        ensures place { place_behind result.1 (block_at self.now result.0).insts ≡ place_in_block self.now inst }
        ensures stands { IfSome result.1 (λ previous. Stands previous (block_at self.now result.0).insts) }
    {
        self.law_consistent();
        (
            self.insts[inst.index()].block,
            previous_of(&self.inst_links, inst),
        )
    }

    // The instruction right before a place of a block, if the place isn't its front.
    pub(crate) fn inst_before_place(&self, block: Block, at: InsertAt) -> Option<Inst>
        requires block_exists { block < length self.now.blocks }
        requires place_exists { IsPlaceOf at (length (block_at self.now block).insts) }
        ensures { result ≡ entry_before (block_at self.now block).insts (count_before at (length (block_at self.now block).insts)) }
    {
        match at {
            InsertAt::Behind(count) => self.last_of_first(block, count),
            InsertAt::Back => self.last_inst(block),
        }
    }

    // The last of the first `count` instructions of a block, if there are any.
    fn last_of_first(&self, block: Block, count: usize) -> Option<Inst>
        requires block_exists { block < length self.now.blocks }
        requires fits { count ≤ length (block_at self.now block).insts }
        ensures { result ≡ entry_before (block_at self.now block).insts count }
    {
        self.law_consistent();
        if count == 0 {
            return None;
        }
        let mut inst = self.first_inst(block)?;
        for place in 1..count {
            let Some(next) = self.next_inst(inst) else {
                unreachable!();
            };
            inst = next;
        }
        Some(inst)
    }

    /// The entry: the first block of the layout, if there is one.
    pub fn entry_block(&self) -> Option<Block>
        ensures exact { result ≡ slice_get self.now.layout 0 }
        ensures exists { IfSome result (λ block. block < length self.now.blocks) }
    {
        self.first_block
    }

    /// Whether a block is in the layout.
    pub fn is_block_inserted(&self, block: Block) -> bool
        requires { block < length self.now.blocks }
        ensures meaning { IsTrue result ↔ Stands block self.now.layout }
        ensures test { result ≡ stands_in block self.now.layout }
    {
        place_at(&self.block_places, block).is_inserted
    }

    /// The block after `block` in the layout, if `block` is in it and isn't the last. It walks along
    /// nothing.
    pub fn next_block(&self, block: Block) -> Option<Block>
        requires { block < length self.now.blocks }
        ensures exact { result ≡ next_in self.now.layout block }
        ensures exists { IfSome result (λ next. next < length self.now.blocks) }
    {
        place_at(&self.block_places, block).next
    }

    // The last block of the layout, if there is one.
    fn last_block(&self) -> Option<Block>
        ensures { result ≡ slice_get self.now.layout (length self.now.layout - 1) }
    {
        self.last_block
    }

    /// Puts a block, which isn't in the layout, behind a block that is in it. It walks along nothing, and
    /// can't fail.
    pub fn insert_block_after(&mut self, block: Block, after: Block)
        requires exists { block < length self.old.blocks }
        requires outside { Stands block self.old.layout → ⊥ }
        requires inside { Stands after self.old.layout }
        ensures { self.new ≡ with_layout_after self.old block after }
    {
        let next = place_at(&self.block_places, after).next;
        self.last_block = last_after(self.last_block, next, block);
        link_after(&mut self.block_places, block, after);
    }

    // Puts a block into a layout that is empty.
    fn insert_only_block(&mut self, block: Block)
        requires exists { block < length self.old.blocks }
        requires empty { self.old.layout ≡ [] }
        ensures { self.new ≡ with_layout self.old block }
    {
        self.first_block = Some(block);
        self.last_block = Some(block);
        mark_inserted(&mut self.block_places, block);
    }

    /// Puts a block, which isn't in the layout, at its end. The first one so put is the entry.
    ///
    /// # Errors
    ///
    /// `Memory`, where memory is refused; the function is as it was then.
    pub fn append_block(&mut self, block: Block) -> Result<(), BuildError>
        requires exists { block < length self.old.blocks }
        requires outside { Stands block self.old.layout → ⊥ }
        ensures ok { OnOk result (self.new ≡ with_layout self.old block) }
        ensures only_memory { OnErr result (result ≡ Err BuildError.Memory) }
        ensures err { OnErr result (self.new ≡ self.old) }
    {
        self.law_consistent();
        match self.last_block() {
            Some(last) => self.insert_block_after(block, last),
            None => self.insert_only_block(block),
        }
        Ok(())
    }

    /// Puts a block at the end of the layout, unless it is in the layout.
    ///
    /// # Errors
    ///
    /// `Memory`, where memory is refused; the function is as it was then.
    pub fn ensure_block_inserted(&mut self, block: Block) -> Result<(), BuildError>
        requires { block < length self.old.blocks }
        ensures ok { OnOk result (self.new ≡ inserted_in self.old block) }
        ensures only_memory { OnErr result (result ≡ Err BuildError.Memory) }
        ensures err { OnErr result (self.new ≡ self.old) }
    {
        if self.is_block_inserted(block) {
            return Ok(());
        }
        self.append_block(block)
    }

    /// Marks a block as cold: as one that is seldom reached. It takes no memory, and can't fail.
    pub fn set_cold_block(&mut self, block: Block)
        requires { block < length self.old.blocks }
        ensures { self.new ≡ with_cold self.old block }
    {
        self.blocks[block.index()].is_cold = true;
    }

    /// Whether a block was marked as cold.
    pub fn is_cold(&self, block: Block) -> bool
        requires { block < length self.now.blocks }
        ensures { result ≡ (block_at self.now block).is_cold }
    {
        let node = &self.blocks[block.index()];
        node.is_cold
    }
}
