//! Instructions of pooled constants: the bytes are pooled, and then the instruction is made.
ghost use Rattle.std.specs.Prelude.{◌≡◌};
ghost use Rattle.clif_types.specs.Types.{bytes_of};
ghost use Rattle.clif_meaning.specs.Acceptance.{has_bytes};
ghost use Rattle.clif_builder.specs.Builder.{HasCurrent};
ghost use Rattle.clif_builder.specs.Entries.{PoolsConstant};
ghost use Rattle.clif_replay.specs.Makes.{MakesConstant};
ghost use Rattle.clif_replay.specs.Ready.{IsSound};

use crate::make_instructions::append;
use clif_builder::{FunctionBuilder, InstBuilderBase};
use clif_calls::Lender;
use clif_ir::InstructionData;
use clif_opcodes::{Demand, Opcode, PooledConstOpcode};
use clif_resolution::{Answer, CallError, Condition, current_fault, has_current};
use clif_types::{BuildError, Constant, Type};

// The instruction with this opcode, of the constant of these bytes, in a current unfilled block. The type is `Invalid` where the
// opcode tells it.
pub(crate) fn make_constant(
    builder: &mut FunctionBuilder<'_>,
    answers: &[Answer],
    lender: Lender,
    opcode: PooledConstOpcode,
    ty: Type,
    bytes: &[u8],
) -> Result<Answer, CallError>
    requires sound { IsSound builder.old answers.now }
    requires typed { opcode ≡ PooledConstOpcode.F128const → ty ≡ Type.Invalid }
    ensures { MakesConstant opcode ty bytes.now builder.old builder.new answers.now result }
{
    if !has_current(builder) {
        return Err(CallError::Misuse(current_fault(builder)));
    }
    if !has_bytes(opcode, ty, bytes) {
        return Err(CallError::Misuse(bytes_fault(opcode, ty, bytes)));
    }
    let constant = pool(builder, lender, bytes)?;
    let shape = InstructionData::UnaryConst { opcode, constant };
    let inst = append(builder, lender, shape, ty)?;
    Ok(Answer::Inst(inst))
}

// The constant of these bytes.
fn pool(
    builder: &mut FunctionBuilder<'_>,
    lender: Lender,
    bytes: &[u8],
) -> Result<Constant, BuildError>
    requires { HasCurrent builder.old }
    ensures { PoolsConstant builder.old builder.new bytes.now result }
{
    match lender {
        Lender::Ins => builder.ins().pool_constant(bytes),
        Lender::Cursor => builder.cursor().pool_constant(bytes),
    }
}

// Whether these are as many bytes as the type of the constant has.
fn has_bytes(opcode: PooledConstOpcode, ty: Type, bytes: &[u8]) -> bool
    ensures { result ≡ has_bytes opcode ty bytes.now }
{
    match opcode {
        PooledConstOpcode::F128const => bytes.len() == 16,
        PooledConstOpcode::Vconst => Demand::AVector.is_met(ty) && bytes.len() == width(ty),
    }
}

// Why they aren't: no constant has the type, or it has another number of bytes.
fn bytes_fault(opcode: PooledConstOpcode, ty: Type, bytes: &[u8]) -> Condition {
    match opcode {
        PooledConstOpcode::F128const => Condition::Bytes(16, bytes.len()),
        PooledConstOpcode::Vconst if Demand::AVector.is_met(ty) => {
            Condition::Bytes(ty.bytes(), bytes.len())
        }
        PooledConstOpcode::Vconst => Condition::MadeAt(Opcode::PooledConst(opcode), ty),
    }
}

// How many bytes a value of this type has.
fn width(ty: Type) -> usize
    ensures { result ≡ bytes_of ty }
{
    ty.bytes() as usize
}
