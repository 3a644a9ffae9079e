//! The end of a look-up in the predecessors of a block.
ghost use Rattle.std.specs.Prelude.{◌≡◌, ◌≢◌, ◌<◌, ◌≤◌, ◌⊎◌, [], ◌∷◌, ◌++◌, ℕ, List, length, slice_index, EachIndex, OnOk, OnErr, IfOk, Some, reverse, take, drop};
ghost use Rattle.std.specs.Option.{option_to_list};
ghost use Rattle.clif_ir.specs.Reading.{param_home};
ghost use Rattle.clif_ssa.specs.Constructs.{OnlyConstructs, TellsZeros, TellsMore};
ghost use Rattle.clif_ir.specs.Body.{value_at};
ghost use Rattle.clif_ssa.specs.Counted.{AddsAtMost};
ghost use Rattle.clif_ssa.specs.Pools.{MayPool, UseIsFull};
ghost use Rattle.clif_ssa.specs.Ssa.{SsaState, predecessors_of, HasMore};
ghost use Rattle.clif_ssa.specs.LookUp.{EndsLookUp, IsNoParameter, FinishesLookUp, with_arguments};
ghost use Rattle.clif_ssa.specs.Incoming.{IncomingExists, IsIncoming};
ghost use Rattle.clif_ssa.specs.Running.{stage};

use crate::zeros::{Ending, become_zero};
use clif_ir::Function;
use clif_records::look_up::LookUp;
use clif_types::{Block, BuildError, Inst, Value};

/// What comes to a parameter from the predecessors of its block, beside itself.
#[derive(Clone, Copy, Debug, PartialEq, Eq)]
pub enum Incoming {
    /// Nothing.
    Nothing,
    /// This value alone.
    One(Value),
    /// Two values at least.
    Several,
}

/// What comes to a parameter with these results of its block's predecessors.
pub(crate) fn what_comes(func: &Function, param: Value, results: &[Value]) -> Incoming
    requires { EachIndex results.now (λ k. slice_index results.now k < length func.now.values) }
    ensures exact { IsIncoming func.now param results.now result }
    ensures exists { IncomingExists func.now result }
{
    let mut one = None;
    for result in results.iter() {
        let value = func.resolve_aliases(*result);
        if value == param {
            continue;
        }
        match one {
            None => one = Some(value),
            Some(other) => {
                if other != value {
                    return Incoming::Several;
                }
            }
        }
    }
    match one {
        None => Incoming::Nothing,
        Some(value) => Incoming::One(value),
    }
}

/// Passes each value on each edge of its branch to a block, at the end. The only error is `Memory`; some
/// edges may pass theirs then.
pub(crate) fn pass_arguments(
    func: &mut Function,
    block: Block,
    branches: &[Inst],
    values: &[Value],
) -> Result<(), BuildError>
    requires count { length values.now ≡ length branches.now }
    requires branches_exist { EachIndex branches.now
        (λ k. slice_index branches.now k < length func.old.insts) }
    requires values_exist { EachIndex values.now (λ k. slice_index values.now k < length
        func.old.values) }
    ensures ok { OnOk result (func.new ≡ with_arguments func.old block branches.now values.now) }
    ensures more { HasMore func.old func.new }
    ensures constructs { OnlyConstructs func.old func.new }
    ensures tables { func.new.tables ≡ func.old.tables }
    ensures at_most { AddsAtMost 0 func.old func.new }
    ensures tells { TellsZeros func.old func.new [] }
    ensures only_memory { OnErr result (result ≡ Err BuildError.Memory) }
{
    for (place, branch) in branches.iter().enumerate() {
        func.append_branch_argument(*branch, block, values[place])?;
    }
    Ok(())
}

/// Ends the look-up of a parameter, by the results of the predecessors of its block, in their order:
/// where nothing comes to it, it becomes a name of a new zero; where one value does, a name of that; and
/// where several do, the edges of the predecessors pass them.
pub(crate) fn end_look_up(
    func: &mut Function,
    param: Value,
    home: Block,
    block: Block,
    predecessors: &[Inst],
    results: &[Value],
) -> Result<Ending, BuildError>
    requires is_parameter { param_home func.old param ≡ Some home }
    requires count { length results.now ≡ length predecessors.now }
    requires branches_exist { EachIndex predecessors.now
        (λ k. slice_index predecessors.now k < length func.old.insts) }
    requires values_exist { EachIndex results.now (λ k. slice_index results.now k < length
        func.old.values) }
    ensures ends { IfOk result (λ e. EndsLookUp param home block predecessors.now results.now
        func.old func.new e.value (option_to_list e.zero)) }
    ensures exists { IfOk result (λ e. e.value < length func.new.values) }
    ensures more { HasMore func.old func.new }
    ensures constructs { OnlyConstructs func.old func.new }
    ensures tells { IfOk result (λ e. TellsZeros func.old func.new (option_to_list e.zero)) }
    ensures at_most { AddsAtMost 2 func.old func.new }
    ensures pools { MayPool (value_at func.old param).ty func.old.tables func.new.tables }
    ensures full { result ≡ Err BuildError.Full → UseIsFull (value_at func.old param).ty func.new }
    ensures never_failed { result ≢ Err BuildError.Failed }
{
    func.law_consistent();
    match what_comes(func, param, results) {
        Incoming::Nothing => become_zero(func, param),
        Incoming::One(value) => {
            func.change_param_to_alias(param, value)?;
            Ok(Ending { value, zero: None })
        }
        Incoming::Several => {
            pass_arguments(func, block, predecessors, results)?;
            Ok(Ending {
                value: param,
                zero: None,
            })
        }
    }
}

// Ends the look-up of what may be a parameter.
fn end_or_stay(
    func: &mut Function,
    predecessors: &[Inst],
    param: Value,
    block: Block,
    results: &[Value],
) -> Result<Ending, BuildError>
    requires param_exists { param < length func.old.values }
    requires count { length results.now ≡ length predecessors.now }
    requires branches_exist { EachIndex predecessors.now
        (λ k. slice_index predecessors.now k < length func.old.insts) }
    requires values_exist { EachIndex results.now (λ k. slice_index results.now k < length
        func.old.values) }
    ensures ends { IfOk result (λ e. IsNoParameter param func.old func.new e.value
        (option_to_list e.zero) ⊎ ((home : ℕ) × (param_home func.old param ≡ Some home)
        × EndsLookUp param home block predecessors.now results.now func.old func.new e.value
        (option_to_list e.zero))) }
    ensures exists { IfOk result (λ e. e.value < length func.new.values) }
    ensures more { HasMore func.old func.new }
    ensures constructs { OnlyConstructs func.old func.new }
    ensures tells { IfOk result (λ e. TellsZeros func.old func.new (option_to_list e.zero)) }
    ensures at_most { AddsAtMost 2 func.old func.new }
    ensures pools { MayPool (value_at func.old param).ty func.old.tables func.new.tables }
    ensures full { result ≡ Err BuildError.Full → UseIsFull (value_at func.old param).ty func.new }
    ensures never_failed { result ≢ Err BuildError.Failed }
{
    match func.param_home(param) {
        Some(home) => end_look_up(func, param, home, block, predecessors, results),
        None => Ok(Ending {
            value: param,
            zero: None,
        }),
    }
}

/// Ends the look-up of a parameter of a block: the last results, one for each of these predecessors,
/// make way for one. A value that isn't a parameter any more is the result itself.
pub(crate) fn finish_look_up(
    func: &mut Function,
    predecessors: &[Inst],
    param: Value,
    block: Block,
    look_up: &mut LookUp,
) -> Result<(), BuildError>
    requires count { length predecessors.now ≤ length look_up.old.results }
    requires param_exists { param < length func.old.values }
    requires branches_exist { EachIndex predecessors.now
        (λ k. slice_index predecessors.now k < length func.old.insts) }
    requires values_exist { EachIndex look_up.old.results
        (λ k. slice_index look_up.old.results k < length func.old.values) }
    ensures ok { (s : SsaState) → predecessors_of s block ≡ predecessors.now
        → OnOk result (FinishesLookUp param block (stage func.old s look_up.old)
        (stage func.new s look_up.new)) }
    ensures exist { OnOk result (EachIndex look_up.new.results
        (λ k. slice_index look_up.new.results k < length func.new.values)) }
    ensures more { HasMore func.old func.new }
    ensures constructs { OnlyConstructs func.old func.new }
    ensures tells { OnOk result (TellsMore func.old func.new look_up.old.zeros look_up.new.zeros) }
    ensures at_most { AddsAtMost 2 func.old func.new }
    ensures pools { MayPool (value_at func.old param).ty func.old.tables func.new.tables }
    ensures full { result ≡ Err BuildError.Full → UseIsFull (value_at func.old param).ty func.new }
    ensures never_failed { result ≢ Err BuildError.Failed }
{
    let count = predecessors.len();
    let ending = end_or_stay(
        func,
        predecessors,
        param,
        block,
        look_up.last_results(count),
    )?;
    look_up.tell_zero(ending.zero)?;
    look_up.drop_results(count);
    look_up.push_result(ending.value)
}
