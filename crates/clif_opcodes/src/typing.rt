//! The typing table: what is known of an instruction by its opcode.
#![tactic(auto)]

ghost use Rattle.std.specs.Prelude.{[]};
ghost use Rattle.clif_opcodes.specs.Typing.{IsRow, binary_row, calling, convert_row, ending, float_const_row, given, like_first, plain, pooled_const_row, stack_row, row_of, unary_row};

use crate::kinds::{Control, Demand, OperandKind, OtherOperands, ResultKind};
use crate::opcodes::{
    BinaryOpcode, ConvertOpcode, FloatConstOpcode, Opcode, PooledConstOpcode, StackOpcode,
};
use clif_types::types::{F16, F32, F64, F128, I8, I32};

/// A row of the typing table.
#[derive(Clone, Copy)]
pub struct Typing {
    /// What the instruction requires of its controlling type.
    pub demand: Demand,
    /// Where the controlling type comes from.
    pub control: Control,
    /// The operands of fixed number, in order.
    pub operands: &'static [OperandKind],
    /// The operands after those.
    pub others: OtherOperands,
    /// The results, in order.
    pub results: &'static [ResultKind],
    /// Whether the results are what the signature that is called returns.
    pub returns: bool,
    /// Whether the instruction ends its block.
    pub ends: bool,
}

impl Opcode {
    /// The row of the typing table.
    pub fn typing(self) -> Typing
        ensures { IsRow result (row_of self) }
    {
        match self {
            Opcode::Iconst => given(Demand::AnInteger, &[]),
            Opcode::FloatConst(opcode) => float_const(opcode),
            Opcode::PooledConst(opcode) => pooled_const(opcode),
            Opcode::Unary(_) => unary(),
            Opcode::Convert(opcode) => convert(opcode),
            Opcode::Binary(opcode) => binary(opcode),
            Opcode::Iconcat => like_first(
                Demand::ADoubled,
                &[OperandKind::Controlling, OperandKind::Controlling],
                &[ResultKind::Double],
            ),
            Opcode::Isplit => like_first(
                Demand::AHalved,
                &[OperandKind::Controlling],
                &[ResultKind::Half, ResultKind::Half],
            ),
            Opcode::Icmp => like_first(
                Demand::AnInteger,
                &[OperandKind::Controlling, OperandKind::Controlling],
                &[ResultKind::Exactly(I8)],
            ),
            Opcode::Select => plain(
                Demand::AType,
                Control::Operand(1),
                &[
                    OperandKind::AnInteger,
                    OperandKind::Controlling,
                    OperandKind::Controlling,
                ],
                &[ResultKind::Controlling],
            ),
            Opcode::Load => given(Demand::AType, &[OperandKind::Address]),
            Opcode::Store => like_first(
                Demand::AType,
                &[OperandKind::Controlling, OperandKind::Address],
                &[],
            ),
            Opcode::Stack(opcode) => stack(opcode),
            Opcode::StackStore => like_first(Demand::AType, &[OperandKind::Controlling], &[]),
            Opcode::Jump | Opcode::Trap => end(&[], OtherOperands::Nothing),
            Opcode::Brif => Typing {
                demand: Demand::AnInteger,
                control: Control::Operand(0),
                ..end(&[OperandKind::Controlling], OtherOperands::Nothing)
            },
            Opcode::BrTable => end(&[OperandKind::Exactly(I32)], OtherOperands::Nothing),
            Opcode::Return => end(&[], OtherOperands::Returned),
            Opcode::CondTrap(_) => like_first(Demand::AnInteger, &[OperandKind::Controlling], &[]),
            Opcode::Call => call(&[], false),
            Opcode::CallIndirect => call(&[OperandKind::Address], false),
            Opcode::TryCall => call(&[], true),
            Opcode::TryCallIndirect => call(&[OperandKind::Address], true),
        }
    }
}

fn float_const(opcode: FloatConstOpcode) -> Typing
    ensures { IsRow result (float_const_row opcode) }
{
    match opcode {
        FloatConstOpcode::F16const => constant(&[ResultKind::Exactly(F16)]),
        FloatConstOpcode::F32const => constant(&[ResultKind::Exactly(F32)]),
        FloatConstOpcode::F64const => constant(&[ResultKind::Exactly(F64)]),
    }
}

fn pooled_const(opcode: PooledConstOpcode) -> Typing
    ensures { IsRow result (pooled_const_row opcode) }
{
    match opcode {
        PooledConstOpcode::F128const => constant(&[ResultKind::Exactly(F128)]),
        PooledConstOpcode::Vconst => given(Demand::AVector, &[]),
    }
}

fn unary() -> Typing
    ensures { IsRow result unary_row }
{
    like_first(
        Demand::AnInteger,
        &[OperandKind::Controlling],
        &[ResultKind::Controlling],
    )
}

fn convert(opcode: ConvertOpcode) -> Typing
    ensures { IsRow result (convert_row opcode) }
{
    match opcode {
        ConvertOpcode::Splat => given(Demand::AVector, &[OperandKind::Lane]),
        ConvertOpcode::Uextend | ConvertOpcode::Sextend => {
            given(Demand::AnInteger, &[OperandKind::Narrower])
        }
        ConvertOpcode::Ireduce => given(Demand::AnInteger, &[OperandKind::Wider]),
    }
}

fn binary(opcode: BinaryOpcode) -> Typing
    ensures { IsRow result (binary_row opcode) }
{
    let operands: &'static [OperandKind] = match opcode {
        BinaryOpcode::Iadd
        | BinaryOpcode::Isub
        | BinaryOpcode::Imul
        | BinaryOpcode::Band
        | BinaryOpcode::Bor
        | BinaryOpcode::Bxor
        | BinaryOpcode::Udiv
        | BinaryOpcode::Sdiv
        | BinaryOpcode::Urem
        | BinaryOpcode::Srem => &[OperandKind::Controlling, OperandKind::Controlling],
        BinaryOpcode::Ishl | BinaryOpcode::Ushr | BinaryOpcode::Sshr => {
            &[OperandKind::Controlling, OperandKind::AnInteger]
        }
    };
    like_first(Demand::AnInteger, operands, &[ResultKind::Controlling])
}

fn stack(opcode: StackOpcode) -> Typing
    ensures { IsRow result (stack_row opcode) }
{
    match opcode {
        StackOpcode::StackAddr => given(Demand::AnInteger, &[]),
        StackOpcode::StackLoad => given(Demand::AType, &[]),
    }
}

// An instruction with these operands and no others, which gives these results.
fn plain(
    demand: Demand,
    control: Control,
    operands: &'static [OperandKind],
    results: &'static [ResultKind],
) -> Typing
    ensures { IsRow result (plain demand control operands.now results.now) }
{
    Typing {
        demand,
        control,
        operands,
        others: OtherOperands::Nothing,
        results,
        returns: false,
        ends: false,
    }
}

// An instruction whose controlling type is its first operand's.
fn like_first(
    demand: Demand,
    operands: &'static [OperandKind],
    results: &'static [ResultKind],
) -> Typing
    ensures { IsRow result (like_first demand operands.now results.now) }
{
    plain(demand, Control::Operand(0), operands, results)
}

// An instruction whose result has the type that is given.
fn given(demand: Demand, operands: &'static [OperandKind]) -> Typing
    ensures { IsRow result (given demand operands.now) }
{
    plain(demand, Control::Given, operands, &[ResultKind::Controlling])
}

// A constant of one type.
fn constant(results: &'static [ResultKind]) -> Typing
    ensures { IsRow result (plain Demand.Nothing Control.Absent [] results.now) }
{
    plain(Demand::Nothing, Control::Absent, &[], results)
}

// The end of a block, at no type.
fn end(operands: &'static [OperandKind], others: OtherOperands) -> Typing
    ensures { IsRow result (ending Demand.Nothing Control.Absent operands.now others) }
{
    Typing {
        others,
        ends: true,
        ..plain(Demand::Nothing, Control::Absent, operands, &[])
    }
}

// A call, with these operands before its arguments.
fn call(operands: &'static [OperandKind], ends: bool) -> Typing
    ensures { IsRow result (calling operands.now ends) }
{
    Typing {
        returns: !ends,
        ends,
        ..end(operands, OtherOperands::Arguments)
    }
}
