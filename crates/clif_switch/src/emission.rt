//! How a switch is emitted: each node of its search tree in a block of its own, the first one in the current block.
#![tactic(auto)]

ghost use Rattle.std.specs.Prelude.{◌≡◌, ◌<◌, ◌≤◌, suc, [], ◌∷◌, ◌++◌, false, IfOk, IsTrue, OnOk, length, map, All};
ghost use Rattle.std.specs.List.{AllByRecursion};
ghost use Rattle.clif_ir.specs.Body.{value_at};
ghost use Rattle.clif_ranges.specs.Search.{AreInOrder, named_by, number_of};
ghost use Rattle.clif_builder.specs.Adding.{AddsAtMost};
ghost use Rattle.clif_builder.specs.Builder.{HasCurrent, IsLeft, is_free};
ghost use Rattle.clif_switch.specs.Emission.{AddsBlocks, EndsBlock, GivesValue, HasItsBlock, IsEntered, IsOpenFor, IsSwitchedIn, Makes, MakesBlock, MakesBranch, MakesCheck, MakesEntry, MakesNext, MakesNodes, MakesOf, MakesTable, MakesTest, MakesValue, MayLead, StaysHere, Steps, bare_to, cases_in, difference_calls, difference_named, key_calls, number_calls, number_named, tables_in};
ghost use Rattle.clif_switch_calls.specs.SwitchCalls.{compared, i32, index_calls, index_name, is_widest, signed_64, table_calls, tables_of};
ghost use Rattle.clif_switch_calls.specs.SwitchSizes.{nodes_make, so_many, test_makes};

use clif_builder::laws::{
    ledger_is_read_by_number, requests_ask_for_their_shapes, table_calls_add_nothing,
};
use clif_builder::{ConstantOperands, FunctionBuilder, InstBuilder, InstBuilderBase};
use clif_constant_calls::laws::constant_operands_stand;
use clif_ir::JumpTableData;
use clif_ranges::{CaseRange, Next, Node, Test};
use clif_regions::Callback;
use clif_types::types::{I32, I64};
use clif_types::{Block, BuildError, IntCC, JumpTable, LaneType, Type, Value};

/// What is switched on, and the block of all values without a case.
#[derive(Clone, Copy)]
pub struct SwitchedValue {
    pub ty: Type,
    pub val: Value,
    pub otherwise: Block,
}

// All nodes, of which the first stands in the current block, and each later one in the block that was made for it.
pub(crate) fn emit_nodes(
    bx: &mut FunctionBuilder<'_>,
    switched: SwitchedValue,
    nodes: &[Node<'_>],
) -> Result<(), BuildError>
    requires current { HasCurrent bx.old }
    requires switched { IsSwitchedIn bx.old switched }
    requires sound { bx.old.failed ≡ false }
    requires leads { AllByRecursion (λ node. All (MayLead bx.old) (cases_in node.test)) nodes.now }
    requires filled { AllByRecursion (λ node. HasItsBlock node.test) nodes.now }
    requires order { AreInOrder (0 ∷ []) 1 nodes.now }
    ensures ends { EndsBlock (tables_in nodes.now) bx.old bx.new result }
    ensures most { AddsAtMost (nodes_make nodes.now) bx.old bx.new result }
    ensures made { MakesNodes switched nodes.now bx.old bx.new result }
{
    let mut blocks = Vec::new(bx.func().allocator());
    let on = switched;
    emit_test(bx, on, &mut blocks, nodes[0].test)?;
    for node in &nodes[1..] {
        let on = switched;
        enter(bx, blocks[node.number - 1])?;
        emit_test(bx, on, &mut blocks, node.test)?;
    }
    Ok(())
}

// Makes a block the current one, once the one branch to it was made.
fn enter(bx: &mut FunctionBuilder<'_>, block: Block) -> Result<(), BuildError>
    requires open { IsOpenFor bx.old block }
    requires left { IsLeft bx.old }
    requires free { IsTrue (is_free bx.old) }
    ensures steps { Steps bx.old bx.new result }
    ensures most { AddsAtMost (so_many 0 0 0 0) bx.old bx.new result }
    ensures entered { OnOk result (IsEntered block bx.old bx.new) }
    ensures made { MakesEntry block bx.old bx.new result }
{
    ledger_is_read_by_number();
    bx.seal_block(block)?;
    bx.switch_to_block(block);
    Ok(())
}

// The test of a node, in the current block, and the blocks of the nodes to which control goes from there.
fn emit_test(
    bx: &mut FunctionBuilder<'_>,
    switched: SwitchedValue,
    blocks: &mut Vec<Block>,
    test: Test<'_>,
) -> Result<(), BuildError>
    requires current { HasCurrent bx.old }
    requires switched { IsSwitchedIn bx.old switched }
    requires leads { All (MayLead bx.old) (cases_in test) }
    requires filled { HasItsBlock test }
    requires sound { bx.old.failed ≡ false }
    ensures ends { EndsBlock (tables_of test.entry) bx.old bx.new result }
    ensures most { AddsAtMost (test_makes test.entry) bx.old bx.new result }
    ensures blocks { OnOk result (AddsBlocks (length (named_by test.entry)) bx.old bx.new blocks.old.items blocks.new.items) }
    ensures made { MakesTest switched test.entry bx.old bx.new blocks.old.items blocks.new.items result }
{
    ledger_is_read_by_number();
    requests_ask_for_their_shapes();
    let on = switched;
    match test {
        Test::Nothing => {
            bx.jump(switched.otherwise, &[])?;
            Ok(())
        }
        Test::OneKey { range, other } => {
            let other = block_for(bx, on, blocks, other)?;
            branch_on_key(bx, switched, range.first, range.blocks[0], other)
        }
        Test::NotBelow { first, other, .. } => {
            let other = block_for(bx, on, blocks, other)?;
            let above = new_block(bx, blocks)?;
            let cond = IntCC::UnsignedGreaterThanOrEqual;
            branch_on(bx, switched, cond, first, above, other)
        }
        Test::Table { range } => emit_table(bx, switched, range),
    }
}

// A branch to the block of a key, or else to another one.
fn branch_on_key(
    bx: &mut FunctionBuilder<'_>,
    switched: SwitchedValue,
    key: u128,
    block: Block,
    other: Block,
) -> Result<(), BuildError>
    requires current { HasCurrent bx.old }
    requires switched { IsSwitchedIn bx.old switched }
    requires block_leads { MayLead bx.old block }
    requires other_leads { MayLead bx.old other }
    ensures ends { EndsBlock 0 bx.old bx.new result }
    ensures most { AddsAtMost (so_many 4 5 0 0) bx.old bx.new result }
    ensures made { MakesBranch switched block other (λ s place. key_calls s key place) bx.old bx.new result }
{
    ledger_is_read_by_number();
    requests_ask_for_their_shapes();
    if key == 0 {
        bx.brif(switched.val, other, &[], block, &[])?;
        Ok(())
    } else {
        branch_on(bx, switched, IntCC::Equal, key, block, other)
    }
}

// A new block, for the node with the next number.
fn new_block(bx: &mut FunctionBuilder<'_>, blocks: &mut Vec<Block>) -> Result<Block, BuildError>
    requires current { HasCurrent bx.old }
    ensures here { StaysHere bx.old bx.new result }
    ensures most { AddsAtMost (so_many 0 0 1 0) bx.old bx.new result }
    ensures open { IfOk result (IsOpenFor bx.new) }
    ensures number { IfOk result (λ block. (block ≡ length bx.old.func.now.blocks) × (length bx.new.func.now.blocks ≡ suc block)) }
    ensures added { IfOk result (λ block. blocks.new.items ≡ blocks.old.items ++ block ∷ []) }
    ensures made { MakesBlock bx.old bx.new result }
{
    ledger_is_read_by_number();
    let block = bx.create_block()?;
    if blocks.push(block).is_err() {
        return Err(bx.refuse());
    }
    Ok(block)
}

// Where control goes next: to `otherwise`, or to a new block.
fn block_for(
    bx: &mut FunctionBuilder<'_>,
    switched: SwitchedValue,
    blocks: &mut Vec<Block>,
    next: Next,
) -> Result<Block, BuildError>
    requires current { HasCurrent bx.old }
    requires switched { IsSwitchedIn bx.old switched }
    requires sound { bx.old.failed ≡ false }
    ensures here { StaysHere bx.old bx.new result }
    ensures most { AddsAtMost (so_many 0 0 (length (number_of next)) 0) bx.old bx.new result }
    ensures leads { IfOk result (MayLead bx.new) }
    ensures blocks { OnOk result (AddsBlocks (length (number_of next)) bx.old bx.new blocks.old.items blocks.new.items) }
    ensures made { MakesNext switched next bx.old bx.new blocks.old.items blocks.new.items result }
{
    ledger_is_read_by_number();
    match next {
        Next::Otherwise => Ok(switched.otherwise),
        Next::Node(_) => new_block(bx, blocks),
    }
}

// A comparison of the value with a number, and the branch on it.
fn branch_on(
    bx: &mut FunctionBuilder<'_>,
    switched: SwitchedValue,
    cond: IntCC,
    number: u128,
    taken: Block,
    other: Block,
) -> Result<(), BuildError>
    requires current { HasCurrent bx.old }
    requires switched { IsSwitchedIn bx.old switched }
    requires taken_leads { MayLead bx.old taken }
    requires other_leads { MayLead bx.old other }
    ensures ends { EndsBlock 0 bx.old bx.new result }
    ensures most { AddsAtMost (so_many 4 5 0 0) bx.old bx.new result }
    ensures made { MakesBranch switched taken other (λ s place. compared s cond number place) bx.old bx.new result }
{
    ledger_is_read_by_number();
    requests_ask_for_their_shapes();
    let value = switched.val;
    let constant = emit_number(bx, switched, number)?;
    let holds = bx.icmp(cond, value, constant)?;
    bx.brif(holds, taken, &[], other, &[])?;
    Ok(())
}

// A number of the value's type. At 128 bits it has no constant where it isn't one of 64 bits with its sign repeated: then it is made
// of its halves.
fn emit_number(
    bx: &mut FunctionBuilder<'_>,
    switched: SwitchedValue,
    number: u128,
) -> Result<Value, BuildError>
    requires current { HasCurrent bx.old }
    requires switched { IsSwitchedIn bx.old switched }
    ensures gives { GivesValue switched.ty bx.old bx.new result }
    ensures most { AddsAtMost (so_many 3 3 0 0) bx.old bx.new result }
    ensures position { OnOk result (bx.new.position ≡ bx.old.position) }
    ensures made { MakesValue switched (number_calls number) (number_named number) bx.old bx.new result }
{
    ledger_is_read_by_number();
    requests_ask_for_their_shapes();
    if is_widest(switched.ty) && number >= 1 << 63 {
        let low = bx.iconst(I64, signed_64(number))?;
        let high = bx.iconst(I64, signed_64(number >> 64))?;
        bx.iconcat(low, high)
    } else {
        bx.integer_constant(switched.ty, signed_64(number))
    }
}

// The low 64 bits of a number, the highest of which is a sign.
fn signed_64(number: u128) -> i64
    ensures { result ≡ signed_64 number }
{
    let low = (number & 0xffff_ffff_ffff_ffff) as u64;
    low.cast_signed()
}

fn is_widest(ty: Type) -> bool
    ensures { result ≡ is_widest ty }
{
    match ty {
        Type::Lane(lane) => matches!(lane, LaneType::I128),
        Type::Invalid | Type::Vector(_, _) => false,
    }
}

// A jump table for the keys of a range, and the branch by it.
fn emit_table(
    bx: &mut FunctionBuilder<'_>,
    switched: SwitchedValue,
    range: &CaseRange,
) -> Result<(), BuildError>
    requires current { HasCurrent bx.old }
    requires switched { IsSwitchedIn bx.old switched }
    requires leads { All (MayLead bx.old) range.now.blocks.items }
    ensures ends { EndsBlock 1 bx.old bx.new result }
    ensures most { AddsAtMost (so_many 8 10 1 1) bx.old bx.new result }
    ensures made { Makes switched range.now.blocks.items (λ s tables place. table_calls s tables range.now place) bx.old bx.new result }
{
    ledger_is_read_by_number();
    requests_ask_for_their_shapes();
    table_calls_add_nothing();
    let on = switched;
    let table = jump_table(bx, on.otherwise, range.blocks.as_slice())?;
    let place = emit_difference(bx, on, range.first)?;
    let index = emit_index(bx, switched, place)?;
    bx.br_table(index, table)?;
    Ok(())
}

// The table of these blocks, none of which is passed anything.
fn jump_table(
    bx: &mut FunctionBuilder<'_>,
    otherwise: Block,
    blocks: &[Block],
) -> Result<JumpTable, BuildError>
    ensures made { MakesTable (map bare_to (otherwise ∷ blocks.now)) bx.old bx.new result }
    ensures most { AddsAtMost (so_many 0 0 0 1) bx.old bx.new result }
{
    let default = bx.block_call(otherwise, &[])?;
    let mut entries = Vec::new(bx.func().allocator());
    for block in blocks {
        let entry = bx.block_call(*block, &[])?;
        if entries.push(entry).is_err() {
            return Err(bx.refuse());
        }
    }
    let Ok(table) = JumpTableData::new(default, entries) else {
        return Err(bx.refuse());
    };
    bx.create_jump_table(table)
}

// The value less the first key of a range.
fn emit_difference(
    bx: &mut FunctionBuilder<'_>,
    switched: SwitchedValue,
    first: u128,
) -> Result<Value, BuildError>
    requires current { HasCurrent bx.old }
    requires switched { IsSwitchedIn bx.old switched }
    requires sound { bx.old.failed ≡ false }
    ensures gives { GivesValue switched.ty bx.old bx.new result }
    ensures most { AddsAtMost (so_many 4 4 0 0) bx.old bx.new result }
    ensures position { OnOk result (bx.new.position ≡ bx.old.position) }
    ensures made { MakesValue switched (difference_calls first) (difference_named first) bx.old bx.new result }
{
    ledger_is_read_by_number();
    requests_ask_for_their_shapes();
    constant_operands_stand::<Callback>();
    let value = switched.val;
    if first == 0 {
        return Ok(value);
    }
    if is_widest(switched.ty) && first > 1 << 63 {
        let first = emit_number(bx, switched, first)?;
        return bx.isub(value, first);
    }
    let negated = signed_64((1 << 64) - first % (1 << 64));
    bx.iadd_imm_s(value, negated)
}

// The index of 32 bits: control goes to `otherwise` where the number is too great for one.
fn emit_index(
    bx: &mut FunctionBuilder<'_>,
    switched: SwitchedValue,
    place: Value,
) -> Result<Value, BuildError>
    requires current { HasCurrent bx.old }
    requires switched { IsSwitchedIn bx.old switched }
    requires exists { place < length bx.old.func.now.values }
    requires typed { (value_at bx.old.func.now place).ty ≡ switched.ty }
    requires sound { bx.old.failed ≡ false }
    ensures gives { GivesValue i32 bx.old bx.new result }
    ensures most { AddsAtMost (so_many 4 5 1 0) bx.old bx.new result }
    ensures made { MakesOf switched place index_calls index_name bx.old bx.new result }
{
    ledger_is_read_by_number();
    requests_ask_for_their_shapes();
    let bits = switched.ty.bits();
    if bits > 32 {
        let block = check_index(bx, switched, place)?;
        enter(bx, block)?;
        bx.ireduce(I32, place)
    } else if bits < 32 {
        bx.uextend(I32, place)
    } else {
        Ok(place)
    }
}

// The branch to `otherwise` where a number is greater than each index, and else to a new block, which is answered.
fn check_index(
    bx: &mut FunctionBuilder<'_>,
    switched: SwitchedValue,
    place: Value,
) -> Result<Block, BuildError>
    requires current { HasCurrent bx.old }
    requires switched { IsSwitchedIn bx.old switched }
    requires exists { place < length bx.old.func.now.values }
    requires typed { (value_at bx.old.func.now place).ty ≡ switched.ty }
    ensures ends { EndsBlock 0 bx.old bx.new result }
    ensures most { AddsAtMost (so_many 3 4 1 0) bx.old bx.new result }
    ensures open { IfOk result (IsOpenFor bx.new) }
    ensures behind { IfOk result (λ block. length bx.old.func.now.blocks ≤ block) }
    ensures made { MakesCheck switched place bx.old bx.new result }
{
    ledger_is_read_by_number();
    requests_ask_for_their_shapes();
    constant_operands_stand::<Callback>();
    let block = bx.create_block()?;
    let cond = IntCC::UnsignedGreaterThan;
    let is_greater = bx.icmp_imm_s(cond, place, 0xffff_ffff)?;
    bx.brif(is_greater, switched.otherwise, &[], block, &[])?;
    Ok(block)
}
