//! Room in the tables of a function, the numbers that come next, and the results of a new instruction.
//!
//! The errors are `Memory`, where memory was refused, and `Full`, which comes exactly where a table that grows holds
//! 2^32 - 1 entries already, or has fewer numbers left than are asked for. The tables are then as they were.
ghost use Rattle.std.specs.Prelude.{◌≡◌, ◌≢◌, ◌++◌, length, ◌+◌, ◌-◌, ◌^◌, ◌≤◌, ◌<◌, ◌⊎◌, map, vec_len, vec_capacity, IfOk, OnOk, OnErr};
ghost use Rattle.std.specs.List.{range_with_len};
ghost use Rattle.clif_opcodes.specs.Kinds.{result_type};
ghost use Rattle.clif_tables.specs.Callees.{types_of};
ghost use Rattle.clif_nodes.specs.Nodes.{result_nodes};

use crate::inst_links::InstLinks;
use crate::nodes::{InstNode, ValueNode, ValueOrigin};
use clif_instructions::value_list::ValueList;
use clif_opcodes::ResultKind;
use clif_tables::primary_map::{TABLE_LIMIT, next_number};
use clif_types::{AbiParam, BuildError, EntityRef, Inst, Type, Value};
use std::alloc::Global;

/// The number of the next value, for which it makes room in the table.
///
/// # Errors
///
/// `Memory`, where memory is refused, or `Full`, where the table holds 2^32 - 1 values.
#[inline(always)]
pub fn next_value(values: &mut Vec<ValueNode>) -> Result<Value, BuildError>
    ensures ok { IfOk result (λ v. v ≡ length values.old.items) }
    ensures few { OnOk result (length values.old.items < 2 ^ 32 - 1) }
    ensures room { OnOk result (vec_len values.new < vec_capacity values.new) }
    ensures same { values.new.items ≡ values.old.items }
    ensures full { result ≡ Err BuildError.Full → TABLE_LIMIT ≤ length values.old.items }
    ensures at_limit { TABLE_LIMIT ≤ length values.old.items → result ≡ Err BuildError.Full }
    ensures never_failed { result ≢ Err BuildError.Failed }
{
    let number = next_number(values.len())?;
    values.reserve(1)?;
    Ok(Value::from_u32(number))
}

/// The list of `count` numbers of values, from `first` on.
///
/// # Errors
///
/// `Memory`, where memory is refused.
#[tactic(auto, using(crate::proofs::Results::range_with_len_more))]
#[inline(always)]
pub fn numbered_results(alloc: Global, first: usize, count: usize) -> Result<ValueList, BuildError>
    requires { first + count < 2 ^ 32 }
    ensures ok { IfOk result (λ l. l ≡ range_with_len first count) }
    ensures only_memory { OnErr result (result ≡ Err BuildError.Memory) }
{
    let mut results = ValueList::new(alloc);
    if count == 1 {
        // Most instructions have one result, for which this needs no loop.
        results.push(Value::new(first))?;
        return Ok(results);
    }
    for place in 0..count {
        results.push(Value::new(first + place))?;
    }
    Ok(results)
}

/// The number of the first of so many values that come next, for which there are numbers left.
///
/// # Errors
///
/// `Full` alone, where the table holds 2^32 - 1 entries, or has fewer numbers left than that.
#[inline(always)]
pub fn next_numbers(len: usize, count: usize) -> Result<usize, BuildError>
    ensures ok { IfOk result (λ n. (n ≡ len) × (len < 2 ^ 32 - 1) × (len + count < 2 ^ 32)) }
    ensures full { OnErr result ((result ≡ Err BuildError.Full) × ((TABLE_LIMIT ≤ len) ⊎ (TABLE_LIMIT < len + count))) }
{
    let first = next_number(len)? as usize;
    if TABLE_LIMIT - first < count {
        return Err(BuildError::Full);
    }
    Ok(first)
}

/// Makes room in the tables for an instruction with so many results, and makes the list of these.
///
/// # Errors
///
/// `Memory`, where memory is refused, or `Full`, where a table has no number left for the instruction or for each
/// result.
#[inline(always)]
pub fn room_for_inst(
    alloc: Global,
    values: &mut Vec<ValueNode>,
    insts: &mut Vec<InstNode>,
    links: &mut Vec<InstLinks>,
    count: usize,
) -> Result<ValueList, BuildError>
    ensures ok { IfOk result (λ l. l ≡ range_with_len (length values.old.items) count) }
    ensures few_values { OnOk result (length values.old.items + count < 2 ^ 32) }
    ensures few_insts { OnOk result (length insts.old.items < 2 ^ 32 - 1) }
    ensures room_for_values { OnOk result (vec_len values.new + count ≤ vec_capacity values.new) }
    ensures room_for_inst { OnOk result (vec_len insts.new < vec_capacity insts.new) }
    ensures room_for_links { OnOk result (vec_len links.new < vec_capacity links.new) }
    ensures same_values { values.new.items ≡ values.old.items }
    ensures same_insts { insts.new.items ≡ insts.old.items }
    ensures same_links { links.new.items ≡ links.old.items }
    ensures full { result ≡ Err BuildError.Full →
        (TABLE_LIMIT ≤ length insts.old.items)
        ⊎ ((TABLE_LIMIT ≤ length values.old.items) ⊎ (TABLE_LIMIT < length values.old.items + count)) }
    ensures insts_at_limit { TABLE_LIMIT ≤ length insts.old.items → result ≡ Err BuildError.Full }
    ensures values_at_limit { TABLE_LIMIT ≤ length values.old.items → result ≡ Err BuildError.Full }
    ensures results_past_limit { TABLE_LIMIT < length values.old.items + count → result ≡ Err BuildError.Full }
    ensures never_failed { result ≢ Err BuildError.Failed }
{
    next_number(insts.len())?;
    let first = next_numbers(values.len(), count)?;
    values.reserve(count)?;
    insts.reserve(1)?;
    links.reserve(1)?;
    numbered_results(alloc, first, count)
}

/// Puts results of these kinds of `inst` into the table of values, which has room for them.
#[inline(always)]
pub fn push_result_nodes(
    values: &mut Vec<ValueNode>,
    inst: Inst,
    controlling: Type,
    kinds: &[ResultKind],
)
    requires room { vec_len values.old + length kinds.now ≤ vec_capacity values.old }
    requires few { length kinds.now < 2 ^ 32 }
    ensures exact { values.new.items ≡
        values.old.items ++ result_nodes inst 0 (map (result_type controlling) kinds.now) }
    ensures len { vec_len values.new ≡ vec_len values.old + length kinds.now }
    ensures capacity { vec_capacity values.new ≡ vec_capacity values.old }
{
    if let [kind] = kinds {
        let ty = kind.at(controlling);
        let origin = ValueOrigin::Result(inst, 0);
        values.push_reserved(ValueNode { ty, origin });
        return;
    }
    for (place, kind) in kinds.iter().enumerate() {
        let ty = kind.at(controlling);
        let origin = ValueOrigin::Result(inst, place as u32);
        values.push_reserved(ValueNode { ty, origin });
    }
}

/// Puts results of `inst` into the table of values, which has room for them: what a call gives, whose places among the
/// results are those from `first` on.
pub fn push_given_nodes(values: &mut Vec<ValueNode>, inst: Inst, first: usize, given: &[AbiParam])
    requires room { vec_len values.old + length given.now ≤ vec_capacity values.old }
    requires few { first + length given.now < 2 ^ 32 }
    ensures { values.new.items ≡ values.old.items ++ result_nodes inst first (types_of given.now) }
{
    for (place, param) in given.iter().enumerate() {
        let origin = ValueOrigin::Result(inst, (first + place) as u32);
        values.push_reserved(ValueNode {
            ty: param.value_type,
            origin,
        });
    }
}

/// Puts the results of `inst` into the table of values, which has room for them: those of these kinds, and what a call
/// gives.
#[inline(always)]
pub fn push_results(
    values: &mut Vec<ValueNode>,
    inst: Inst,
    controlling: Type,
    kinds: &[ResultKind],
    given: &[AbiParam],
)
    requires room { vec_len values.old + length kinds.now + length given.now ≤ vec_capacity values.old }
    requires few { length kinds.now + length given.now < 2 ^ 32 }
    ensures { values.new.items ≡
        values.old.items ++ result_nodes inst 0 (map (result_type controlling) kinds.now ++ types_of given.now) }
{
    push_result_nodes(values, inst, controlling, kinds);
    push_given_nodes(values, inst, kinds.len(), given);
}
