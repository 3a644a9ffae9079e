//! The blocks to which a block leads.
ghost use Rattle.std.specs.Prelude.{◌≡◌, ◌<◌, ◌-◌, length, EachIndex, slice_get, slice_index};
ghost use Rattle.std.specs.Iterator.{YieldsFirst, item_count};
ghost use Rattle.clif_ir.specs.Body.{block_at};
ghost use Rattle.clif_ir.specs.Reading.{edges_of, successors};

use crate::function::Function;
use clif_instructions::block_call::BlockCall;
use clif_types::Block;
use std::marker::Model;

/// The targets of edges, in order. A block comes as often as edges lead to it.
#[derive(Drop)]
pub struct Successors<'a> {
    edges: &'a [BlockCall],
}

impl<'a> Model for Successors<'a> {
    ghost use Rattle.std.specs.Prelude.{ℕ, List};
    ghost use Rattle.clif_instructions.specs.Edges.{targets};

    ghost Value = { List ℕ };

    ghost view = { λ s. targets s.edges.now };
}

impl<'a> Iterator for Successors<'a> {
    type Item = Block;

    ghost next_gives = { YieldsFirst (λ blocks. blocks) };

    ghost remaining = { item_count (λ blocks. blocks) };

    fn next(&mut self) -> Option<Block> {
        let (edge, others) = self.edges.split_first()?;
        self.edges = others;
        Some(edge.block)
    }
}

impl Function {
    /// The blocks to which the edges of a block's last instruction lead, in the order in which they are
    /// printed; none where there is no instruction or it is no branch.
    pub fn block_successors(&self, block: Block) -> Successors<'_>
        requires { block < length self.now.blocks }
        ensures exact { result ≡ successors self.now block }
        ensures exist { EachIndex result (λ k. slice_index result k < length self.now.blocks) }
    {
        self.law_consistent();
        Successors {
            edges: self.last_edges(block),
        }
    }

    // The edges of a block's last instruction.
    fn last_edges(&self, block: Block) -> &[BlockCall]
        requires { block < length self.now.blocks }
        ensures { result.now ≡ edges_of self.now (slice_get (block_at self.now block).insts (length (block_at self.now block).insts - 1)) }
    {
        match self.last_inst(block) {
            Some(inst) => self.inst_data(inst).branch_destination(),
            None => &[],
        }
    }
}
