//! Finds the part of an instruction that `check` told.
use crate::message::{Found, Needed, Part, TypeMessage, Values};
use clif_check::{CheckError, CheckErrorKind};
use clif_ir::{BlockArg, BlockCall, ExceptionTargets, Function, InstructionData};
use clif_opcodes::{Control, OtherOperands, ResultKind};
use clif_types::types::I64;
use clif_types::{AbiParam, Block, EntityRef, Inst, Type, Value};

/// What is wrong with the types of the instruction that `check` found: of the kind that it told, the first part. There is
/// no message where the function has no such instruction, or nothing of this kind is wrong with it.
pub fn type_message(func: &Function, error: CheckError) -> Option<TypeMessage> {
    let inst = error.inst;
    let shape = shape_of(func, inst)?;
    let misfit = match error.kind {
        CheckErrorKind::Operand => misfit_in_operands(func, inst, shape),
        CheckErrorKind::Arguments => misfit_in_arguments(func, shape),
        CheckErrorKind::Return => {
            let returns = &func.signature().returns;
            misfit_in_values(
                func,
                Values::Returned,
                shape.arguments(),
                returns.as_slice(),
            )
        }
        CheckErrorKind::Edge => misfit_in_edges(func, shape),
    };
    let Misfit {
        part,
        found,
        needed,
    } = misfit?;
    Some(TypeMessage {
        inst,
        opcode: shape.opcode(),
        part,
        found,
        needed,
    })
}

/// A part that isn't as needed.
#[derive(Clone, Copy)]
struct Misfit {
    part: Part,
    found: Found,
    needed: Needed,
}

impl Misfit {
    // One of some values has this type.
    fn at(values: Values, place: usize, found: Type, needed: Needed) -> Misfit {
        Misfit {
            part: Part::Value(values, place),
            found: Found::Type(found),
            needed,
        }
    }

    // There are so many values.
    fn number(values: Values, found: usize, needed: usize) -> Misfit {
        Misfit {
            part: Part::Number(values),
            found: Found::Count(found),
            needed: Needed::Count(needed),
        }
    }
}

// The shape of an instruction, if it is there.
fn shape_of(func: &Function, inst: Inst) -> Option<&InstructionData> {
    if inst.index() < func.inst_count() {
        Some(func.inst_data(inst))
    } else {
        None
    }
}

fn results_of(func: &Function, inst: Inst) -> &[Value] {
    if inst.index() < func.inst_count() {
        func.inst_results(inst)
    } else {
        &[]
    }
}

fn type_of(func: &Function, value: Value) -> Type {
    if value.index() < func.value_count() {
        func.value_type(value)
    } else {
        Type::Invalid
    }
}

fn params_of(func: &Function, block: Block) -> &[Value] {
    if block.index() < func.block_count() {
        func.block_params(block)
    } else {
        &[]
    }
}

fn misfit_in_operands(func: &Function, inst: Inst, shape: &InstructionData) -> Option<Misfit> {
    let typing = shape.opcode().typing();
    let controlling = controlling_type(func, inst, shape);
    if !typing.demand.is_met(controlling) {
        return Some(Misfit {
            part: match typing.control {
                Control::Operand(place) => Part::Value(Values::Operands, place),
                Control::Absent | Control::Given => Part::MadeAt,
            },
            found: Found::Type(controlling),
            needed: Needed::Demand(typing.demand),
        });
    }
    let values = shape.arguments();
    for (place, kind) in typing.operands.iter().enumerate() {
        let ty = values
            .get(place)
            .map_or(Type::Invalid, |value| type_of(func, *value));
        if !kind.admits(controlling, ty) {
            let needed = Needed::Kind(*kind, controlling);
            return Some(Misfit::at(Values::Operands, place, ty, needed));
        }
    }
    None
}

// The type that an instruction is made at.
fn controlling_type(func: &Function, inst: Inst, shape: &InstructionData) -> Type {
    let value = match (shape.result_kinds().first(), shape.control()) {
        (Some(ResultKind::Controlling), _) => results_of(func, inst).first(),
        (_, Control::Operand(place)) => shape.arguments().get(place),
        (_, Control::Absent | Control::Given) => None,
    };
    match value {
        Some(value) => type_of(func, *value),
        None => Type::Invalid,
    }
}

// The arguments of a call, which follow its operands of fixed number.
fn misfit_in_arguments(func: &Function, shape: &InstructionData) -> Option<Misfit> {
    let fixed = shape.opcode().typing().operands.len();
    let arguments = shape.arguments().get(fixed..)?;
    let params = func.tables().callee_params(shape);
    misfit_in_values(func, Values::Arguments, arguments, params)
}

// Values against the parameters that they are for.
fn misfit_in_values(
    func: &Function,
    values: Values,
    found: &[Value],
    params: &[AbiParam],
) -> Option<Misfit> {
    if found.len() != params.len() {
        return Some(Misfit::number(values, found.len(), params.len()));
    }
    for (place, (value, param)) in found.iter().zip(params.iter()).enumerate() {
        let ty = type_of(func, *value);
        if ty != param.value_type {
            let needed = Needed::Type(param.value_type);
            return Some(Misfit::at(values, place, ty, needed));
        }
    }
    None
}

// What the call at the start of an edge gives to it: what it returns, or the parts of an exception.
#[derive(Clone, Copy)]
struct Given<'a> {
    returns: &'a [AbiParam],
    payload: &'a [Type],
}

// The types of the parts of an exception.
const PAYLOAD: [Type; 2] = [I64, I64];

fn misfit_in_edges(func: &Function, shape: &InstructionData) -> Option<Misfit> {
    for (place, edge) in shape.branch_destination().iter().enumerate() {
        let given = given_to(func, shape.exception_targets(), place);
        if let Some(misfit) = misfit_in_edge(func, given, edge) {
            return Some(misfit);
        }
    }
    None
}

// What is given to the edge at a place: the first edge of a call with an exception table is the one where it returns.
fn given_to<'a>(
    func: &'a Function,
    exception: Option<&ExceptionTargets>,
    place: usize,
) -> Given<'a> {
    match (exception, place) {
        (None, _) => Given {
            returns: &[],
            payload: &[],
        },
        (Some(exception), 0) => Given {
            returns: func.tables().signature_returns(exception.signature()),
            payload: &[],
        },
        (Some(_), _) => Given {
            returns: &[],
            payload: &PAYLOAD,
        },
    }
}

fn misfit_in_edge(func: &Function, given: Given<'_>, edge: &BlockCall) -> Option<Misfit> {
    let arguments = edge.args.as_slice();
    let params = params_of(func, edge.block);
    let values = Values::Passed(edge.block);
    if arguments.len() != params.len() {
        return Some(Misfit::number(values, arguments.len(), params.len()));
    }
    for (place, (argument, param)) in arguments.iter().zip(params.iter()).enumerate() {
        let (ty, needed) = (passed_type(func, given, *argument), type_of(func, *param));
        if ty != needed {
            return Some(Misfit::at(values, place, ty, Needed::Type(needed)));
        }
    }
    None
}

// The type of what an edge passes; none where the call doesn't give it.
fn passed_type(func: &Function, given: Given<'_>, argument: BlockArg) -> Type {
    match argument {
        BlockArg::Value(value) => type_of(func, value),
        BlockArg::TryCallRet(place) => match given.returns.get(place as usize) {
            Some(param) => param.value_type,
            None => Type::Invalid,
        },
        BlockArg::TryCallExn(place) => match given.payload.get(place as usize) {
            Some(part) => *part,
            None => Type::Invalid,
        },
    }
}
