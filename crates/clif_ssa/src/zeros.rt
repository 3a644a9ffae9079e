//! Zeros, which stand for variables that are never assigned.
ghost use Rattle.std.specs.Prelude.{◌≡◌, ◌≢◌, ◌<◌, ◌^◌, ◌+◌, ◌++◌, ◌∷◌, [], length, ◌-◌, MatchOption, OnOk, OnErr, IfOk, Some};
ghost use Rattle.std.specs.Option.{option_to_list};
ghost use Rattle.clif_ir.specs.Body.{resolved, value_at};
ghost use Rattle.clif_ir.specs.Reading.{param_home};
ghost use Rattle.clif_ssa.specs.Constructs.{OnlyConstructs, TellsZeros};
ghost use Rattle.clif_ssa.specs.Counted.{AddsAtMost};
ghost use Rattle.clif_ssa.specs.Limits.{IsFull};
ghost use Rattle.clif_ssa.specs.Pools.{LacksZero, MayPool, UseIsFull};
ghost use Rattle.clif_ssa.specs.Ssa.{with_steps, with_zero, zero_value, zeroed_in, HasMore};
ghost use Rattle.clif_ssa.specs.Ssa.{HasSomeSteps, MayHaveSomeSteps};
ghost use Rattle.clif_ssa.specs.Zeros.{float_type, kind_of_zero, zero_size, zero_steps, zeros_number, with_pooled, IsStepAt, IsZeroConstant, only_step, first_or_last_step};

use clif_instructions::insert_at::InsertAt;
use clif_ir::{Function, InstructionData};
use clif_opcodes::{ConvertOpcode, FloatConstOpcode, PooledConstOpcode};
use clif_records::SideEffects;
use clif_types::types::{F16, F32, F64, F128, I64};
use clif_types::{Block, BuildError, Constant, EntityRef, LaneType, SourceLoc, Type, Value};

// Makes a parameter to which nothing comes a name of a new zero, and tells of the zero. What is no
// parameter stays.
pub(crate) fn replace_by_zero(
    func: &mut Function,
    param: Value,
    side_effects: &mut SideEffects,
) -> Result<Value, BuildError>
    ensures zero { OnOk result (func.new ≡ zeroed_in (param_home func.old param) func.old param) }
    ensures answer { MatchOption (param_home func.old param)
        (IfOk result (λ v. v ≡ param))
        (λ _. IfOk result (λ v. v ≡ zero_value func.old (value_at func.old param).ty)) }
    ensures told { OnOk result (side_effects.new.instructions_added_to_blocks.items ≡
        side_effects.old.instructions_added_to_blocks.items ++ option_to_list
        (param_home func.old param)) }
    ensures more { HasMore func.old func.new }
    ensures constructs { OnlyConstructs func.old func.new }
    ensures tells { OnOk result (TellsZeros func.old func.new (option_to_list
        (param_home func.old param))) }
    ensures at_most { AddsAtMost 2 func.old func.new }
    ensures pools { MayPool (value_at func.old param).ty func.old.tables func.new.tables }
    ensures full { result ≡ Err BuildError.Full → UseIsFull (value_at func.old param).ty func.new }
    ensures never_failed { result ≢ Err BuildError.Failed }
{
    let ending = become_zero(func, param)?;
    if let Some(block) = ending.zero {
        side_effects.instructions_added_to_blocks.push(block)?;
    }
    Ok(ending.value)
}

/// What a value stands for now, and the block into which a zero was put for it, if one was.
#[derive(Debug, Drop)]
pub struct Ending {
    pub value: Value,
    pub zero: Option<Block>,
}

// Puts a zero before the first instruction of the block of a parameter, to which nothing comes, takes
// the parameter away and makes it a name of the zero. What is no parameter stays.
pub(crate) fn become_zero(func: &mut Function, param: Value) -> Result<Ending, BuildError>
    ensures zero { OnOk result (func.new ≡ zeroed_in (param_home func.old param) func.old param) }
    ensures answer { MatchOption (param_home func.old param)
        (IfOk result (λ e. e.value ≡ param))
        (λ _. IfOk result (λ e. e.value ≡ zero_value func.old (value_at func.old param).ty)) }
    ensures told { IfOk result (λ e. e.zero ≡ param_home func.old param) }
    ensures more { HasMore func.old func.new }
    ensures constructs { OnlyConstructs func.old func.new }
    ensures tells { IfOk result (λ e. TellsZeros func.old func.new (option_to_list e.zero)) }
    ensures at_most { AddsAtMost 2 func.old func.new }
    ensures pools { MayPool (value_at func.old param).ty func.old.tables func.new.tables }
    ensures full { result ≡ Err BuildError.Full → UseIsFull (value_at func.old param).ty func.new }
    ensures never_failed { result ≢ Err BuildError.Failed }
{
    let Some(block) = func.param_home(param) else {
        return Ok(Ending {
            value: param,
            zero: None,
        });
    };
    let value = put_zero(func, block, func.value_type(param))?;
    func.law_consistent();
    func.change_param_to_alias(param, value)?;
    let zero = Some(block);
    Ok(Ending { value, zero })
}

// Puts a zero before the first instruction of a block, which enters the layout if it isn't there, and
// answers its value. Where it fails, the zero may lack steps.
fn put_zero(func: &mut Function, block: Block, ty: Type) -> Result<Value, BuildError>
    requires { block < length func.old.blocks }
    ensures ok { OnOk result (func.new ≡ with_zero func.old block ty) }
    ensures number { IfOk result (λ v. v ≡ zero_value func.old ty) }
    ensures exists { IfOk result (λ v. v < length func.new.values) }
    ensures unaliased { IfOk result (λ v. resolved func.new v ≡ v) }
    ensures pools { MayPool ty func.old.tables func.new.tables }
    ensures full { result ≡ Err BuildError.Full → UseIsFull ty func.new }
    ensures err { OnErr result (MayHaveSomeSteps func.old func.new block ty) }
    ensures more { HasMore func.old func.new }
    ensures constructs { OnlyConstructs func.old func.new }
    ensures tells { OnOk result (TellsZeros func.old func.new (block ∷ [])) }
    ensures never_failed { result ≢ Err BuildError.Failed }
{
    func.ensure_block_inserted(block)?;
    let constant = pool_zeros(func, ty)?;
    put_steps(func, block, ty, constant)?;
    Ok(latest_value(func))
}

// Pools the constant of a type's zero, if it has one.
fn pool_zeros(func: &mut Function, ty: Type) -> Result<Constant, BuildError>
    ensures ok { OnOk result (func.new ≡ with_pooled func.old ty) }
    ensures number { IfOk result (λ constant. constant ≡ zeros_number func.old.tables.constants
        (zero_size ty)) }
    ensures err { OnErr result (func.new ≡ func.old) }
    ensures full { result ≡ Err BuildError.Full → LacksZero ty func.old }
    ensures never_failed { result ≢ Err BuildError.Failed }
{
    match zero_size(ty) {
        Some(size) => {
            let bytes = vec![in func.allocator(); 0; size as usize]?;
            func.pool_constant(bytes.as_slice())
        }
        None => Ok(Constant::from_u32(0)),
    }
}

// Puts the steps of a zero before the first instruction of a block, in order. `constant` is the zero's constant, if it has
// one.
fn put_steps(
    func: &mut Function,
    block: Block,
    ty: Type,
    constant: Constant,
) -> Result<(), BuildError>
    requires block_exists { block < length func.old.blocks }
    requires pooled { IsZeroConstant func.old ty constant }
    ensures ok { OnOk result (func.new ≡ with_steps func.old block (zero_steps ty)) }
    ensures err { OnErr result (HasSomeSteps func.old func.new block ty) }
    ensures full { result ≡ Err BuildError.Full → IsFull func.new }
    ensures never_failed { result ≢ Err BuildError.Failed }
{
    let mut place = 0;
    while let Some((shape, result)) = zero_step(ty, place, constant, latest_value(func)) {
        func.law_consistent();
        let at = InsertAt::Behind(place);
        func.insert_inst(block, at, shape, result, SourceLoc::new(u32::MAX))?;
        place += 1;
    }
    Ok(())
}

// The value that was made last, if there is one.
fn latest_value(func: &Function) -> Value
    ensures { result ≡ length func.now.values - 1 }
{
    Value::new(func.value_count().saturating_sub(1))
}

/// How the zero of a type is made.
#[derive(Clone, Copy)]
pub enum ZeroKind {
    /// By a constant of an integer type.
    Number,
    /// By a constant of 64 bits that is extended.
    Extended,
    /// By a constant of a float.
    Float(FloatConstOpcode),
    /// By a constant of a float in every lane.
    Splatted(FloatConstOpcode),
    /// By a pooled constant.
    Pooled(PooledConstOpcode),
    /// By a pooled constant, which is a float, in every lane.
    SplattedPooled,
}

// How the zero of this type is made.
fn kind_of_zero(ty: Type) -> ZeroKind
    ensures { result ≡ kind_of_zero ty }
{
    match ty {
        Type::Lane(LaneType::I128) => ZeroKind::Extended,
        Type::Lane(LaneType::F16) => ZeroKind::Float(FloatConstOpcode::F16const),
        Type::Lane(LaneType::F32) => ZeroKind::Float(FloatConstOpcode::F32const),
        Type::Lane(LaneType::F64) => ZeroKind::Float(FloatConstOpcode::F64const),
        Type::Lane(LaneType::F128) => ZeroKind::Pooled(PooledConstOpcode::F128const),
        Type::Vector(LaneType::F16, _) => ZeroKind::Splatted(FloatConstOpcode::F16const),
        Type::Vector(LaneType::F32, _) => ZeroKind::Splatted(FloatConstOpcode::F32const),
        Type::Vector(LaneType::F64, _) => ZeroKind::Splatted(FloatConstOpcode::F64const),
        Type::Vector(LaneType::F128, _) => ZeroKind::SplattedPooled,
        Type::Vector(..) => ZeroKind::Pooled(PooledConstOpcode::Vconst),
        _ => ZeroKind::Number,
    }
}

// How many zero bytes the constant of a type's zero has, if it has one.
fn zero_size(ty: Type) -> Option<u32>
    ensures { result ≡ zero_size ty }
{
    match kind_of_zero(ty) {
        ZeroKind::Pooled(_) => Some(ty.bytes()),
        ZeroKind::SplattedPooled => Some(F128.bytes()),
        ZeroKind::Number | ZeroKind::Extended | ZeroKind::Float(_) | ZeroKind::Splatted(_) => None,
    }
}

// The type of a float constant.
fn float_type(opcode: FloatConstOpcode) -> Type
    ensures { result ≡ float_type opcode }
{
    match opcode {
        FloatConstOpcode::F16const => F16,
        FloatConstOpcode::F32const => F32,
        FloatConstOpcode::F64const => F64,
    }
}

// The instruction of a type's zero at a place among its steps, if it has so many, and the type of its result. `constant` is
// the zero's constant, if it has one, and `before` the result of the step before it.
fn zero_step(
    ty: Type,
    place: usize,
    constant: Constant,
    before: Value,
) -> Option<(InstructionData, Type)>
    ensures { IsStepAt ty place constant before result }
{
    match kind_of_zero(ty) {
        ZeroKind::Number => only(place, InstructionData::UnaryImm { imm: 0 }, ty),
        ZeroKind::Extended => {
            let opcode = ConvertOpcode::Uextend;
            let last = InstructionData::Convert {
                opcode,
                arg: before,
            };
            let first = InstructionData::UnaryImm { imm: 0 };
            first_or_last(place, first, I64, last, ty)
        }
        ZeroKind::Float(opcode) => only(place, InstructionData::UnaryIeee { opcode, bits: 0 }, ty),
        ZeroKind::Splatted(opcode) => {
            let first = InstructionData::UnaryIeee { opcode, bits: 0 };
            first_or_last(place, first, float_type(opcode), splat(before), ty)
        }
        ZeroKind::Pooled(opcode) => {
            only(place, InstructionData::UnaryConst { opcode, constant }, ty)
        }
        ZeroKind::SplattedPooled => {
            let opcode = PooledConstOpcode::F128const;
            let first = InstructionData::UnaryConst { opcode, constant };
            first_or_last(place, first, F128, splat(before), ty)
        }
    }
}

// A value in every lane.
fn splat(arg: Value) -> InstructionData
    ensures { result ≡ InstructionData.Convert ConvertOpcode.Splat arg }
{
    let opcode = ConvertOpcode::Splat;
    InstructionData::Convert { opcode, arg }
}

// The step of a zero that has one.
fn only(place: usize, shape: InstructionData, ty: Type) -> Option<(InstructionData, Type)>
    ensures { result ≡ only_step place shape ty }
{
    match place {
        0 => Some((shape, ty)),
        _ => None,
    }
}

// The step at a place of a zero that has two.
fn first_or_last(
    place: usize,
    first: InstructionData,
    first_type: Type,
    last: InstructionData,
    ty: Type,
) -> Option<(InstructionData, Type)>
    ensures { result ≡ first_or_last_step place first first_type last ty }
{
    match place {
        0 => Some((first, first_type)),
        1 => Some((last, ty)),
        _ => None,
    }
}
