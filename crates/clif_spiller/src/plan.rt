//! What is spilled.
ghost use Rattle.std.specs.Prelude.{◌≡◌, ◌<◌, ◌||◌, ◌==◌, ℕ, length, Contains, IfOk, IsOkUnless, OnOk};
ghost use Rattle.clif_types.specs.EntitySet.{has};
ghost use Rattle.clif_safepoints.specs.Analysis.{found_across};
ghost use Rattle.clif_spiller.specs.Plans.{AreNamed, HasMembers};

use clif_ir::Function;
use clif_safepoints::liveness::LivenessAnalysis;
use clif_types::{BuildError, EntityRef, EntitySet, Inst, Type, Value};

/// What the spiller goes by: what is live where, which values are spilled, and the type of addresses.
#[derive(Drop)]
pub(crate) struct Plan<'a> {
    pub(crate) liveness: &'a LivenessAnalysis,
    /// The values that the stack map of some call names.
    spilled: EntitySet<Value>,
    pub(crate) pointer: Type,
}

impl<'a> Plan<'a> {
    /// The plan for a function. The only error is `Memory`.
    pub(crate) fn new(
        func: &Function,
        liveness: &'a LivenessAnalysis,
        pointer: Type,
    ) -> Result<Plan<'a>, BuildError>
        requires named { (inst value : ℕ) → Contains (found_across liveness.now inst) value
            → inst < length func.now.insts }
        ensures named { IfOk result (λ plan. AreNamed liveness.now plan.spilled) }
        ensures liveness { IfOk result (λ plan. plan.liveness.now ≡ liveness.now) }
        ensures pointer { IfOk result (λ plan. plan.pointer ≡ pointer) }
        ensures memory_alone { IsOkUnless result BuildError.Memory }
    {
        let mut spilled = EntitySet::new(func.allocator());
        for number in 0..func.inst_count() {
            insert_all(&mut spilled, liveness.live_across(Inst::new(number)))?;
        }
        Ok(Plan {
            liveness,
            spilled,
            pointer,
        })
    }

    /// Whether a value, which is no alias, is spilled.
    pub(crate) fn is_spilled(&self, value: Value) -> bool
        ensures { result ≡ has self.now.spilled value }
    {
        self.spilled.contains(value)
    }
}

// Makes these values members. The only error is `Memory`.
fn insert_all(set: &mut EntitySet<Value>, values: &[Value]) -> Result<(), BuildError>
    ensures ok { OnOk result (HasMembers set.old values.now set.new) }
    ensures memory_alone { IsOkUnless result BuildError.Memory }
{
    for value in values {
        set.insert(*value)?;
    }
    Ok(())
}
