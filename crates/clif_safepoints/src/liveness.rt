//! Exact liveness of recorded values, across calls and at the fronts of blocks.
ghost use Rattle.std.specs.Prelude.{◌≡◌, IfOk, OnOk, OnErr, IsOkUnless};
ghost use Rattle.clif_safepoints.specs.Analysis.{Findings, IsAnalysis, found_across, found_after_params, found_in, nothing_found};

use crate::graph::post_order;
use crate::last_pass::last_pass;
use crate::reading::{insts_by_block, successors_by_block};
use crate::recorded::Recorded;
use crate::work_list::live_ins;
use clif_ir::{Function, ValueList};
use clif_types::{Block, BuildError, EntityRef, EntitySet, Inst, Value};
use std::alloc::Global;
use std::marker::Model;

/// The blocks of a function that are reached, and the recorded values that are live at their fronts and across their
/// calls.
#[derive(Drop)]
pub struct LivenessAnalysis {
    alloc: Global,
    order: Vec<Block>,
    live_in: Vec<ValueList>,
    after_params: Vec<ValueList>,
    across: Vec<ValueList>,
    handled: u128,
}

impl Model for LivenessAnalysis {
    ghost use Rattle.clif_safepoints.specs.Analysis.{Findings};

    ghost Value = { Findings };

    ghost view = { λ a. record {
      order = a.order.items;
      live_in = a.live_in.items;
      after_params = a.after_params.items;
      across = a.across.items;
      handled = a.handled;
    } };
}

impl LivenessAnalysis {
    /// An analysis that has looked at nothing.
    pub fn new(alloc: Global) -> Self
        ensures { result ≡ nothing_found }
    {
        LivenessAnalysis {
            alloc,
            order: Vec::new(alloc),
            live_in: Vec::new(alloc),
            after_params: Vec::new(alloc),
            across: Vec::new(alloc),
            handled: 0,
        }
    }

    /// Forgets what was found.
    pub fn clear(&mut self)
        ensures { self.new ≡ nothing_found }
    {
        self.order.clear();
        self.live_in.clear();
        self.after_params.clear();
        self.across.clear();
        self.handled = 0;
    }

    /// Finds the blocks that are reached, and the recorded values that are live at their fronts and across their calls.
    ///
    /// # Errors
    ///
    /// `Memory`, where memory is refused. Nothing is found then.
    pub fn run(&mut self, func: &Function, recorded: &EntitySet<Value>) -> Result<(), BuildError>
        ensures ok { OnOk result (IsAnalysis func.now recorded.now self.new) }
        ensures err { OnErr result (self.new ≡ nothing_found) }
        ensures memory_alone { IsOkUnless result BuildError.Memory }
    {
        self.clear();
        let found = analyse(func, recorded)?;
        *self = found;
        Ok(())
    }

    /// The blocks that are reached, as a depth-first search from the entry leaves them: one after all that were entered
    /// from it. The first edge of an instruction is followed first, but the normal edge of a try call last.
    pub fn order(&self) -> &[Block]
        ensures { result.now ≡ self.now.order }
    {
        self.order.as_slice()
    }

    /// The values that are live as control comes to a block, before its parameters are given, by rising number: none, if
    /// it isn't reached.
    pub fn live_in(&self, block: Block) -> &[Value]
        ensures { result.now ≡ found_in self.now block }
    {
        match self.live_in.get(block.index()) {
            Some(values) => values.as_slice(),
            None => &[],
        }
    }

    /// The values that are live before the first instruction of a block, its parameters given, by rising number: none, if
    /// it isn't reached.
    pub fn live_after_params(&self, block: Block) -> &[Value]
        ensures { result.now ≡ found_after_params self.now block }
    {
        match self.after_params.get(block.index()) {
            Some(values) => values.as_slice(),
            None => &[],
        }
    }

    /// The values that were found for an instruction, by rising number: none, if it is no call that is reached.
    pub fn live_across(&self, inst: Inst) -> &[Value]
        ensures { result.now ≡ found_across self.now inst }
    {
        match self.across.get(inst.index()) {
            Some(values) => values.as_slice(),
            None => &[],
        }
    }

    /// How many blocks were handled before the last pass.
    pub fn handled(&self) -> u128
        ensures { result ≡ self.now.handled }
    {
        self.handled
    }
}

// The analysis of a function. The only error is `Memory`.
fn analyse(func: &Function, recorded: &EntitySet<Value>) -> Result<LivenessAnalysis, BuildError>
    ensures ok { IfOk result (λ found. IsAnalysis func.now recorded.now found) }
    ensures memory_alone { IsOkUnless result BuildError.Memory }
{
    func.law_consistent();
    let alloc = func.allocator();
    let inst_lists = insts_by_block(func)?;
    let insts = inst_lists.as_slice();
    let successor_lists = successors_by_block(func, insts)?;
    let successors = successor_lists.as_slice();
    let blocks = post_order(alloc, func.entry_block(), successors)?;
    let order = blocks.as_slice();
    let recorded = Recorded::new(func, recorded)?;
    recorded.law_rising();
    let work = live_ins(func, &recorded, insts, successors, order)?;
    let passed = last_pass(func, &recorded, work.sets.as_slice(), insts, order)?;
    Ok(LivenessAnalysis {
        alloc,
        order: blocks,
        live_in: passed.fronts.live_in,
        after_params: passed.fronts.after_params,
        across: passed.across,
        handled: work.handled,
    })
}
