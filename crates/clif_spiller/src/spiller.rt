//! The spiller of safepoints.

ghost use Rattle.std.specs.Prelude.{◌≡◌, ◌≢◌, ◌⊎◌, ℕ, length, Contains, OnOk};
ghost use Rattle.clif_ir.specs.Body.{resolved};
ghost use Rattle.clif_spiller.specs.Keeping.{Keeps};
ghost use Rattle.clif_spiller.specs.Plans.{IsFull, MayBeSpilled};
ghost use Rattle.clif_spiller.specs.Spilling.{HasSpilledNothing};
ghost use Rattle.clif_spiller.specs.Regions.{HasAllRegions, SpillsAndAsks};
ghost use Rattle.clif_spiller.specs.Spills.{Spills};

use crate::blocks::rewrite;
use crate::plan::Plan;
use clif_ir::Function;
use clif_regions::{Callback, ask_regions};
use clif_safepoints::liveness::LivenessAnalysis;
use clif_spilling_laws::{
    consistent_gives_once, consistent_leads_inside, edges_stay_matched, slot_contents,
    spilling_means_the_same,
};
use clif_stack_slots::StackSlots;
use clif_types::{BuildError, EntitySet, Type, Value};
use std::alloc::Global;

/// What spills values that live across calls. One serves for many functions, and keeps its memory.
#[derive(Drop)]
pub struct SafepointSpiller {
    liveness: LivenessAnalysis,
    slots: StackSlots,
}

impl SafepointSpiller {
    /// A spiller that has spilled nothing. It takes no memory.
    pub fn new(alloc: Global) -> SafepointSpiller
        ensures { HasSpilledNothing result }
    {
        SafepointSpiller {
            liveness: LivenessAnalysis::new(alloc),
            slots: StackSlots::new(alloc),
        }
    }

    /// Forgets what was spilled. It takes no memory.
    pub fn clear(&mut self)
        ensures { HasSpilledNothing self.new }
    {
        self.liveness.clear();
        self.slots.clear();
    }

    /// Spills the recorded values that live across a call that is reached, and gives each such call its stack map.
    /// `pointer` is the type of addresses. Then `region` is asked, if there is one, for the alias region of each access
    /// that was inserted, in the order of insertion: with the type of what is stored or loaded, the slot, and 0.
    ///
    /// # Errors
    ///
    /// `Memory`, where memory is refused, or `Full`, where a table of the function has 2^32 - 1 entries; the refusal that
    /// the function's set of regions holds after a call of `region`, which isn't asked again then. The function is
    /// consistent then, and otherwise nothing is said of it.
    pub fn run(
        &mut self,
        func: &mut Function,
        recorded: &EntitySet<Value>,
        pointer: Type,
        region: &Option<Callback>,
    ) -> Result<(), BuildError>
        requires recorded { (value : ℕ) → Contains recorded.now value
            → resolved func.old value ≡ value → MayBeSpilled func.old value }
        ensures spilled { OnOk result (SpillsAndAsks func.old recorded.now pointer
            region.now (λ c. post (c.ask.vtable, c.ask.value)) func.new) }
        ensures full { result ≡ Err BuildError.Full → IsFull func.new ⊎ HasAllRegions func.new }
        ensures never_failed { result ≢ Err BuildError.Failed }
    {
        let first = func.inst_count();
        self.spill(func, recorded, pointer)?;
        match region {
            Some(callback) => ask_regions(func, first, callback),
            None => Ok(()),
        }
    }

    // Spills, and gives maps. No access names a region then.
    fn spill(
        &mut self,
        func: &mut Function,
        recorded: &EntitySet<Value>,
        pointer: Type,
    ) -> Result<(), BuildError>
        requires recorded { (value : ℕ) → Contains recorded.now value
            → resolved func.old value ≡ value → MayBeSpilled func.old value }
        ensures kept { OnOk result (Keeps (length func.old.blocks) func.old func.new) }
        ensures spills { OnOk result (Spills func.old recorded.now pointer func.new) }
        ensures full { result ≡ Err BuildError.Full → IsFull func.new }
        ensures never_failed { result ≢ Err BuildError.Failed }
    {
        func.law_consistent();
        consistent_gives_once();
        consistent_leads_inside();
        edges_stay_matched();
        slot_contents();
        spilling_means_the_same();
        self.clear();
        self.liveness.run(func, recorded)?;
        let plan = Plan::new(func, &self.liveness, pointer)?;
        rewrite(func, &mut self.slots, &plan)
    }
}
