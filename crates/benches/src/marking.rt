//! What is live across the calls of a finished function, and its spills.
ghost use Rattle.std.specs.Prelude.{◌≡◌, ◌<◌, ℕ, length, Contains, IfOk, IsTrue};
ghost use Rattle.clif_spiller.specs.Plans.{MayBeSpilled};

use clif_safepoints::liveness::LivenessAnalysis;
use clif_spiller::SafepointSpiller;
use clif_types::EntitySet;
use clif_types::types::I64;
use cranelift_frontend::{BuildError, EntityRef, Function, Inst, Value};
use std::alloc::Global;

// Whether stack maps have room for a value.
fn fits(func: &Function, value: Value) -> bool
    requires { value < length func.now.values }
    ensures { IsTrue result → MayBeSpilled func.now value }
{
    let bytes = func.value_type(value).bytes();
    1 <= bytes && bytes <= 16
}

// All values of a function that stack maps have room for.
fn all_values(alloc: Global, func: &Function) -> Result<EntitySet<Value>, BuildError>
    ensures { IfOk result (λ values. (v : ℕ) → Contains values v → MayBeSpilled func.now v) }
{
    let mut values = EntitySet::new(alloc);
    for number in 0..func.value_count() {
        let value = Value::new(number);
        if fits(func, value) {
            values.insert(value)?;
        }
    }
    Ok(values)
}

/// How many values are live across the calls of a function, summed over these, where all values are recorded.
pub fn live_across_calls(alloc: Global, func: &Function) -> Result<usize, BuildError> {
    let recorded = all_values(alloc, func)?;
    let mut analysis = LivenessAnalysis::new(alloc);
    analysis.run(func, &recorded)?;
    let mut live: usize = 0;
    for number in 0..func.inst_count() {
        live = live.saturating_add(analysis.live_across(Inst::new(number)).len());
    }
    Ok(live)
}

/// Spills what is live across the calls of a function, where all values are recorded. Returns how many slots the function
/// has then.
pub fn spill_all(alloc: Global, func: &mut Function) -> Result<usize, BuildError> {
    let recorded = all_values(alloc, func)?;
    let mut spiller = SafepointSpiller::new(alloc);
    spiller.run(func, &recorded, I64, &None)?;
    Ok(func.tables().stack_slot_count())
}
