//! The parts of one instruction, each against what the typing table, the signature or a target says.
ghost use Rattle.std.specs.Prelude.{◌≡◌, ◌<◌, ◌↔◌, length, All, IsTrue, None, IfSome, take, drop};
ghost use Rattle.clif_opcodes.specs.Typing.{AreOfKinds};
ghost use Rattle.clif_ir.specs.Body.{inst_at};
ghost use Rattle.clif_ir.specs.Consistent.{EdgeExists, PassedExists};
ghost use Rattle.clif_tables.specs.Callees.{types_of};
ghost use Rattle.clif_meaning.specs.View.{first_type};
ghost use Rattle.clif_check.specs.WellTyped.{AllMatch, Fails, HasArguments, HasEdges, HasOperands, HasReturned, HasType, IsWellTyped, Matches, TryCallMatches, ValuesExist, callee_types, controlling_type, fixed_operands, types_at};

use crate::error::CheckErrorKind;
use clif_ir::{BlockArg, BlockCall, ExceptionTargets, Function, InstructionData};
use clif_opcodes::{Control, OperandKind, OtherOperands, ResultKind};
use clif_types::types::I64;
use clif_types::{AbiParam, Inst, Type, Value};

// The first part of an instruction that isn't well typed, if one isn't.
pub(crate) fn failing_part(func: &Function, inst: Inst) -> Option<CheckErrorKind>
    requires { inst < length func.now.insts }
    ensures none { result ≡ None → IsWellTyped func.now inst }
    ensures some { IfSome result (Fails func.now inst) }
{
    if !has_operands(func, inst) {
        Some(CheckErrorKind::Operand)
    } else if !has_arguments(func, inst) {
        Some(CheckErrorKind::Arguments)
    } else if !has_returned(func, inst) {
        Some(CheckErrorKind::Return)
    } else if !has_edges(func, inst) {
        Some(CheckErrorKind::Edge)
    } else {
        None
    }
}

// OPERANDS

// Whether an instruction is defined at its controlling type, and its operands have types that it admits.
fn has_operands(func: &Function, inst: Inst) -> bool
    requires { inst < length func.now.insts }
    ensures { IsTrue result ↔ HasOperands func.now (inst_at func.now inst) }
{
    let shape = func.inst_data(inst);
    let typing = shape.opcode().typing();
    let controlling = controlling_type(func, inst);
    let count = typing.operands.len();
    let operands = fixed_operands(typing.others, count, shape.arguments());
    typing.demand.is_met(controlling) && are_of_kinds(func, controlling, typing.operands, operands)
}

// The type that an instruction is made at.
fn controlling_type(func: &Function, inst: Inst) -> Type
    requires { inst < length func.now.insts }
    ensures { result ≡ controlling_type func.now (inst_at func.now inst) }
{
    let shape = func.inst_data(inst);
    if let Some(ResultKind::Controlling) = shape.result_kinds().first() {
        return first_type(func, func.inst_results(inst));
    }
    match shape.control() {
        Control::Operand(place) => first_type(func, values_from(shape.arguments(), place)),
        Control::Absent | Control::Given => Type::Invalid,
    }
}

// The type of the first of these values, if there is one.
fn first_type(func: &Function, values: &[Value]) -> Type
    requires { ValuesExist func.now values.now }
    ensures { result ≡ first_type func.now values.now }
{
    match values.first() {
        Some(value) => func.value_type(*value),
        None => Type::Invalid,
    }
}

// The operands whose number the typing table gives.
fn fixed_operands(others: OtherOperands, count: usize, found: &[Value]) -> &[Value]
    ensures { result.now ≡ fixed_operands others count found.now }
{
    match others {
        OtherOperands::Nothing => found,
        OtherOperands::Arguments | OtherOperands::Returned => first_values(found, count),
    }
}

// The first so many of these values, or all where there are fewer.
fn first_values(values: &[Value], count: usize) -> &[Value]
    ensures { result.now ≡ take count values.now }
{
    if count < values.len() {
        &values[..count]
    } else {
        values
    }
}

// The values behind the first so many.
fn values_from(values: &[Value], count: usize) -> &[Value]
    ensures { result.now ≡ drop count values.now }
{
    if count < values.len() {
        &values[count..]
    } else {
        &[]
    }
}

// Whether values have types of these kinds, and are as many.
fn are_of_kinds(func: &Function, controlling: Type, kinds: &[OperandKind], values: &[Value]) -> bool
    requires { ValuesExist func.now values.now }
    ensures { IsTrue result ↔ AreOfKinds controlling kinds.now (types_at func.now values.now) }
{
    if values.len() != kinds.len() {
        return false;
    }
    for place in 0..values.len() {
        if !kinds[place].admits(controlling, func.value_type(values[place])) {
            return false;
        }
    }
    true
}

// ARGUMENTS AND RETURNED VALUES

// Whether the arguments of a call have the types of its callee's parameters; so too where nothing is called.
fn has_arguments(func: &Function, inst: Inst) -> bool
    requires { inst < length func.now.insts }
    ensures { IsTrue result ↔ HasArguments func.now (inst_at func.now inst) }
{
    let shape = func.inst_data(inst);
    let typing = shape.opcode().typing();
    match typing.others {
        OtherOperands::Arguments => {
            let arguments = values_from(shape.arguments(), typing.operands.len());
            have_types(func, arguments, callee_params(func, shape))
        }
        OtherOperands::Nothing | OtherOperands::Returned => true,
    }
}

// The parameters of what an instruction calls; none where it calls nothing.
#[tactic(auto, using(crate::proofs::Calls::types_taken))]
fn callee_params<'a>(func: &'a Function, shape: &InstructionData) -> &'a [AbiParam]
    ensures { types_of result.now ≡ callee_types func.now.tables shape.now }
{
    func.tables().callee_params(shape)
}

// Whether the values that an instruction returns have the types that the function returns; so too where it returns none.
fn has_returned(func: &Function, inst: Inst) -> bool
    requires { inst < length func.now.insts }
    ensures { IsTrue result ↔ HasReturned func.now (inst_at func.now inst) }
{
    let shape = func.inst_data(inst);
    match shape.opcode().typing().others {
        OtherOperands::Returned => {
            let returns = &func.signature().returns;
            have_types(func, shape.arguments(), returns.as_slice())
        }
        OtherOperands::Nothing | OtherOperands::Arguments => true,
    }
}

// Whether values have the types of these parameters, and are as many.
fn have_types(func: &Function, values: &[Value], params: &[AbiParam]) -> bool
    requires { ValuesExist func.now values.now }
    ensures { IsTrue result ↔ (types_at func.now values.now ≡ types_of params.now) }
{
    if values.len() != params.len() {
        return false;
    }
    for place in 0..values.len() {
        if !same_type(func.value_type(values[place]), params[place].value_type) {
            return false;
        }
    }
    true
}

fn same_type(one: Type, other: Type) -> bool
    ensures { IsTrue result ↔ (one ≡ other) }
{
    one == other
}

// EDGES

// The types of the parts of an exception.
const PAYLOAD: [Type; 2] = [I64, I64];

// Whether the arguments of each edge of an instruction have the types of its target's parameters.
fn has_edges(func: &Function, inst: Inst) -> bool
    requires { inst < length func.now.insts }
    ensures { IsTrue result ↔ HasEdges func.now (inst_at func.now inst) }
{
    let shape = func.inst_data(inst);
    match shape.exception_targets() {
        Some(exception) => try_call_matches(func, exception),
        None => edges_match(func, &[], &[], shape.branch_destination()),
    }
}

// The same of the edges of a call with this exception table. Its normal edge, the first one, may pass what the
// signature returns, and the edge of an item the parts of an exception.
fn try_call_matches(func: &Function, exception: &ExceptionTargets) -> bool
    requires { All (EdgeExists func.now) exception.now.edges }
    ensures { IsTrue result ↔ TryCallMatches func.now exception.now }
{
    let returns = func.tables().signature_returns(exception.signature());
    match exception.all_branches().split_first() {
        Some((normal, items)) => {
            edge_matches(func, returns, &[], normal) && edges_match(func, &[], &PAYLOAD, items)
        }
        None => true,
    }
}

// Whether the arguments of each of these edges have the types of its target's parameters, where the call at their
// start gives results and a payload of these types.
fn edges_match(func: &Function, results: &[AbiParam], payload: &[Type], edges: &[BlockCall]) -> bool
    requires { All (EdgeExists func.now) edges.now }
    ensures { IsTrue result ↔ AllMatch func.now (types_of results.now) payload.now edges.now }
{
    for place in 0..edges.len() {
        if !edge_matches(func, results, payload, &edges[place]) {
            return false;
        }
    }
    true
}

// Whether the arguments of an edge have the types of its target's parameters, and are as many.
fn edge_matches(func: &Function, results: &[AbiParam], payload: &[Type], edge: &BlockCall) -> bool
    requires { EdgeExists func.now edge.now }
    ensures { IsTrue result ↔ Matches func.now (types_of results.now) payload.now edge.now }
{
    let arguments = edge.args.as_slice();
    let params = func.block_params(edge.block);
    if arguments.len() != params.len() {
        return false;
    }
    for place in 0..arguments.len() {
        let ty = func.value_type(params[place]);
        if !has_type(func, results, payload, arguments[place], ty) {
            return false;
        }
    }
    true
}

// Whether an argument of an edge has this type. What the call at its start doesn't give there has none.
fn has_type(
    func: &Function,
    results: &[AbiParam],
    payload: &[Type],
    argument: BlockArg,
    ty: Type,
) -> bool
    requires { PassedExists func.now argument }
    ensures { IsTrue result ↔ HasType func.now (types_of results.now) payload.now argument ty }
{
    match argument {
        BlockArg::Value(value) => same_type(func.value_type(value), ty),
        BlockArg::TryCallRet(place) => match results.get(place as usize) {
            Some(param) => same_type(param.value_type, ty),
            None => false,
        },
        BlockArg::TryCallExn(place) => match payload.get(place as usize) {
            Some(part) => same_type(*part, ty),
            None => false,
        },
    }
}
