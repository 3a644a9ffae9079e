//! The calls of a script, each made on a builder if its condition holds.
ghost use Rattle.std.specs.Prelude.{◌≡◌, ◌<◌, length, slice_get, IsTrue, ◌↔◌};
ghost use Rattle.clif_replay.specs.Emits.{MakesScriptCall};
ghost use Rattle.clif_replay.specs.Makes.{MakesCall};
ghost use Rattle.clif_replay.specs.Ready.{IsSound, can_define, can_use};

use crate::make_blocks::{
    create_block, ensure_inserted_block, insert_block_after, seal_all_blocks, seal_block,
    set_cold_block, switch_to_block,
};
use crate::make_branches::change_jump_destination;
use crate::make_constants::make_constant;
use crate::make_entities::make_entry;
use crate::make_exceptions::{create_exception_table, make_throwing_call};
use crate::make_immediate::make_immediate;
use crate::make_instructions::make_instruction;
use crate::make_marks::{declare_value_needs_stack_map, declare_var_needs_stack_map};
use crate::make_memory::make_memory;
use crate::make_notes::{collect_debug_info, set_srcloc, set_val_label};
use crate::make_outside::make_outside_call;
use crate::make_parameters::{
    append_block_param, append_block_params_for_function_params,
    append_block_params_for_function_returns,
};
use crate::make_switch::make_switch;
use crate::make_tables::{block_call, br_table, create_jump_table};
use clif_builder::{DefVariableError, FunctionBuilder};
use clif_calls::{Call, Lender, Name, Plan, StraightInstruction};
use clif_opcodes::PooledConstOpcode;
use clif_records::Variable;
use clif_resolution::{Answer, CallError, Condition, current_fault, has_current, value_named};
use clif_types::{EntityRef, TargetFrontendConfig, Type, Value};

// Makes one call, where its conditions hold.
pub(crate) fn make_call(
    builder: &mut FunctionBuilder<'_>,
    answers: &[Answer],
    types: &[Type],
    config: TargetFrontendConfig,
    call: &Call,
) -> Result<Answer, CallError>
    requires sound { IsSound builder.old answers.now }
    requires types { types.now ≡ builder.old.ctx.now.parts.variables }
    ensures { MakesScriptCall config call.now builder.old builder.new answers.now result }
{
    match call {
        Call::CreateBlock => create_block(builder, answers),
        Call::SwitchToBlock { block } => switch_to_block(builder, answers, *block),
        Call::SealBlock { block } => seal_block(builder, answers, *block),
        Call::SealAllBlocks => seal_all_blocks(builder, answers),
        Call::InsertBlockAfter { block, after } => {
            insert_block_after(builder, answers, *block, *after)
        }
        Call::SetColdBlock { block } => set_cold_block(builder, answers, *block),
        Call::EnsureInsertedBlock => ensure_inserted_block(builder, answers),
        Call::AppendBlockParam { block, ty } => append_block_param(builder, answers, *block, *ty),
        Call::AppendBlockParamsForFunctionParams { block } => {
            append_block_params_for_function_params(builder, answers, *block)
        }
        Call::AppendBlockParamsForFunctionReturns { block } => {
            append_block_params_for_function_returns(builder, answers, *block)
        }
        Call::Entry(entry) => make_entry(builder, answers, entry),
        Call::BlockCall { edge } => block_call(builder, answers, edge),
        Call::CreateJumpTable { default, entries } => {
            create_jump_table(builder, answers, *default, entries.as_slice())
        }
        Call::CreateExceptionTable {
            signature,
            normal,
            items,
        } => create_exception_table(builder, answers, *signature, *normal, items.as_slice()),
        Call::DeclareVar { ty } => declare_var(builder, answers, *ty),
        Call::DeclareVarNeedsStackMap { variable } => {
            declare_var_needs_stack_map(builder, answers, *variable)
        }
        Call::DeclareValueNeedsStackMap { value } => {
            declare_value_needs_stack_map(builder, answers, *value)
        }
        Call::DefVar { variable, value } => def_var(builder, answers, types, *variable, *value),
        Call::UseVar { variable } => use_var(builder, answers, types, *variable),
        Call::TryDefVar { variable, value } => try_def_var(builder, answers, *variable, *value),
        Call::TryUseVar { variable } => try_use_var(builder, answers, *variable),
        Call::Straight(lender, instruction) => match instruction {
            StraightInstruction::Plain(plain) => {
                make_instruction(builder, answers, *lender, &plain.plan())
            }
            StraightInstruction::Outside(called) => {
                make_outside_call(builder, answers, *lender, called)
            }
            StraightInstruction::F128const { bytes } => {
                let opcode = PooledConstOpcode::F128const;
                let bytes = bytes.as_slice();
                make_constant(builder, answers, *lender, opcode, Type::Invalid, bytes)
            }
            StraightInstruction::Vconst { ty, bytes } => {
                let opcode = PooledConstOpcode::Vconst;
                make_constant(builder, answers, *lender, opcode, *ty, bytes.as_slice())
            }
        },
        Call::Immediate(called) => make_immediate(builder, answers, *called),
        Call::Memory(called) => make_memory(builder, answers, config, called),
        Call::SetSrcloc { srcloc } => set_srcloc(builder, answers, *srcloc),
        Call::CollectDebugInfo => collect_debug_info(builder, answers),
        Call::SetValLabel { value, label } => set_val_label(builder, answers, *value, *label),
        Call::ChangeJumpDestination { branch, from, to } => {
            change_jump_destination(builder, answers, *branch, *from, *to)
        }
        Call::Jump { destination } => {
            make_instruction(builder, answers, Lender::Ins, &Plan::Jump { destination })
        }
        Call::Brif {
            condition,
            block_then,
            block_else,
        } => {
            let condition = *condition;
            let plan = Plan::Brif {
                condition,
                block_then,
                block_else,
            };
            make_instruction(builder, answers, Lender::Ins, &plan)
        }
        Call::BrTable { index, table } => br_table(builder, answers, *index, *table),
        Call::Switch {
            entries,
            value,
            otherwise,
        } => make_switch(builder, answers, entries.as_slice(), *value, *otherwise),
        Call::Throwing(called) => make_throwing_call(builder, answers, called),
        Call::Return { values } => {
            let args = values.as_slice();
            make_instruction(builder, answers, Lender::Ins, &Plan::MultiAry { args })
        }
        Call::Trap { code } => make_instruction(
            builder,
            answers,
            Lender::Ins,
            &Plan::Trap { code: *code },
        ),
    }
}

// `declare_var(ty)`, for a type that a value may have.
fn declare_var(
    builder: &mut FunctionBuilder<'_>,
    answers: &[Answer],
    ty: Type,
) -> Result<Answer, CallError>
    requires { IsSound builder.old answers.now }
    ensures { MakesCall (Call.DeclareVar ty) builder.old builder.new answers.now result }
{
    if !ty.is_valid() {
        return Err(CallError::Misuse(Condition::VariableType(ty)));
    }
    let variable = builder.declare_var(ty)?;
    Ok(Answer::Variable(variable))
}

// Whether two types are equal.
pub(crate) fn is_same_type(a: Type, b: Type) -> bool
    ensures { IsTrue result ↔ (a ≡ b) }
{
    a == b
}

// Whether a value may be assigned to a variable of a type: in a current unfilled block, if the value has the type.
#[tactic(auto, using(crate::proofs::Conditions::same_from_iff))]
fn may_define(builder: &FunctionBuilder<'_>, ty: Type, value: Value) -> bool
    requires { value < length builder.now.func.now.values }
    ensures { result ≡ can_define builder.now ty value }
{
    has_current(builder) && is_same_type(ty, builder.func().value_type(value))
}

// Why a value may not be assigned to a variable of a type: there is no current block, or it has another type.
fn define_fault(builder: &FunctionBuilder<'_>, ty: Type, value: Value) -> Condition
    requires { value < length builder.now.func.now.values }
{
    if has_current(builder) {
        Condition::AssignedType(ty, builder.func().value_type(value))
    } else {
        current_fault(builder)
    }
}

// Why a variable may not be used: there is no current block, or it isn't declared.
fn use_fault(builder: &FunctionBuilder<'_>, variable: Variable) -> Condition {
    if has_current(builder) {
        Condition::NoVariable(variable)
    } else {
        current_fault(builder)
    }
}

// Whether a variable may be used: in a current unfilled block, if it is declared.
fn may_use(builder: &FunctionBuilder<'_>, types: &[Type], variable: Variable) -> bool
    ensures { result ≡ can_use builder.now types.now variable }
{
    has_current(builder) && type_of(types, variable).is_some()
}

// The type of a variable, if it is declared.
fn type_of(types: &[Type], variable: Variable) -> Option<Type>
    ensures { result ≡ slice_get types.now variable }
{
    types.get(variable.index()).copied()
}

// `def_var(variable, value)`, in a current unfilled block, where the variable is declared with the value's type.
fn def_var(
    builder: &mut FunctionBuilder<'_>,
    answers: &[Answer],
    types: &[Type],
    variable: Variable,
    name: Name,
) -> Result<Answer, CallError>
    requires sound { IsSound builder.old answers.now }
    requires types { types.now ≡ builder.old.ctx.now.parts.variables }
    ensures { MakesCall (Call.DefVar variable name) builder.old builder.new answers.now result }
{
    let Some(value) = value_named(builder.func(), answers, name) else {
        return Err(CallError::Misuse(Condition::NoValue(name)));
    };
    let Some(ty) = type_of(types, variable) else {
        return Err(CallError::Misuse(Condition::NoVariable(variable)));
    };
    if !may_define(builder, ty, value) {
        return Err(CallError::Misuse(define_fault(builder, ty, value)));
    }
    builder.def_var(variable, value)?;
    Ok(Answer::Nothing)
}

// `use_var(variable)`, in a current unfilled block, where the variable is declared.
fn use_var(
    builder: &mut FunctionBuilder<'_>,
    answers: &[Answer],
    types: &[Type],
    variable: Variable,
) -> Result<Answer, CallError>
    requires sound { IsSound builder.old answers.now }
    requires types { types.now ≡ builder.old.ctx.now.parts.variables }
    ensures { MakesCall (Call.UseVar variable) builder.old builder.new answers.now result }
{
    if !may_use(builder, types, variable) {
        return Err(CallError::Misuse(use_fault(builder, variable)));
    }
    let value = builder.use_var(variable)?;
    Ok(one_value(value))
}

// `try_def_var(variable, value)`, in a current unfilled block.
fn try_def_var(
    builder: &mut FunctionBuilder<'_>,
    answers: &[Answer],
    variable: Variable,
    name: Name,
) -> Result<Answer, CallError>
    requires { IsSound builder.old answers.now }
    ensures { MakesCall (Call.TryDefVar variable name) builder.old builder.new answers.now result }
{
    let Some(value) = value_named(builder.func(), answers, name) else {
        return Err(CallError::Misuse(Condition::NoValue(name)));
    };
    if !has_current(builder) {
        return Err(CallError::Misuse(current_fault(builder)));
    }
    let found = builder.func().value_type(value);
    match builder.try_def_var(variable, value)? {
        Ok(()) => Ok(Answer::Nothing),
        Err(error) => Err(CallError::Refused(assignment_fault(builder, error, found))),
    }
}

// Why an assignment was refused, of a value of this type.
fn assignment_fault(
    builder: &FunctionBuilder<'_>,
    error: DefVariableError,
    found: Type,
) -> Condition {
    let (DefVariableError::TypeMismatch(variable, _)
    | DefVariableError::DefinedBeforeDeclared(variable)) = error;
    match builder.variable_type(variable) {
        Some(wanted) => Condition::AssignedType(wanted, found),
        None => Condition::NoVariable(variable),
    }
}

// `try_use_var(variable)`, in a current unfilled block.
fn try_use_var(
    builder: &mut FunctionBuilder<'_>,
    answers: &[Answer],
    variable: Variable,
) -> Result<Answer, CallError>
    requires { IsSound builder.old answers.now }
    ensures { MakesCall (Call.TryUseVar variable) builder.old builder.new answers.now result }
{
    if !has_current(builder) {
        return Err(CallError::Misuse(current_fault(builder)));
    }
    match builder.try_use_var(variable)? {
        Ok(value) => Ok(one_value(value)),
        Err(_) => Err(CallError::Refused(Condition::NoVariable(variable))),
    }
}

// The answer of a call that answers this value alone.
pub(crate) fn one_value(value: Value) -> Answer
    ensures { result ≡ Answer.Values value 1 }
{
    Answer::Values {
        first: value,
        count: 1,
    }
}
