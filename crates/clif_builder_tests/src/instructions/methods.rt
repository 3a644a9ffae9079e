//! The methods of `InstBuilder`, each by the opcode of the instruction that it makes.
//!
//! `make` has each opcode, so that the compiler tells of one that has no group here. An opcode that its group has no method
//! for isn't made, so that the test of its row fails.
#![tactic(auto)]

ghost use Rattle.std.specs.Prelude.{◌≡◌, ◌∷◌, [], Bool, IsTrue, ℕ};
ghost use Rattle.clif_instructions.specs.Instruction.{AFunctionRef, ASignatureRef, ASlot};
ghost use Rattle.clif_instructions.specs.declared.block_call.BlockArg.TheVariants as arg;
ghost use Rattle.clif_inst_builder.specs.Shapes.{edge_to};

use crate::instructions::fixture::{Given, ResultBuilder, flags};
use cranelift_frontend::types::{I8X16, I16, I32, I32X4, I64, I128};
use cranelift_frontend::{
    BinaryOpcode, Block, BlockArg, CondTrapOpcode, ConvertOpcode, FloatConstOpcode, FuncRef, IntCC,
    Opcode, PooledConstOpcode, SigRef, StackOpcode, StackSlot, TrapCode, UnaryOpcode, Value,
};

/// The bytes of pooled constants, as many as an F128 and an I8X16 have.
pub const BYTES: [u8; 16] = [1, 2, 3, 4, 5, 6, 7, 8, 9, 10, 11, 12, 13, 14, 15, 16];

fn float_const<B: ResultBuilder>(ins: &mut B, opcode: FloatConstOpcode) -> bool
    requires { B.can_build ins.old }
{
    match opcode {
        FloatConstOpcode::F16const => ins.f16const(0x3c00).is_ok(),
        FloatConstOpcode::F32const => ins.f32const(0x3f80_0000).is_ok(),
        FloatConstOpcode::F64const => ins.f64const(0x3ff0_0000_0000_0000).is_ok(),
    }
}

fn pooled_const<B: ResultBuilder>(ins: &mut B, opcode: PooledConstOpcode) -> bool
    requires asked { (holds : Bool) → IsTrue holds → B.asks (IsTrue holds) }
    requires measured { (m n : ℕ) → m ≡ n → B.asks (m ≡ n) }
    requires current { B.can_build ins.old }
{
    match opcode {
        PooledConstOpcode::F128const => ins.f128const(&BYTES).is_ok(),
        PooledConstOpcode::Vconst => ins.vconst(I8X16, &BYTES).is_ok(),
    }
}

fn unary<B: ResultBuilder>(ins: &mut B, opcode: UnaryOpcode, x: Value) -> bool
    requires current { B.can_build ins.old }
    requires x_exists { B.has_value ins.old x }
{
    match opcode {
        UnaryOpcode::Ineg => ins.ineg(x).is_ok(),
        UnaryOpcode::Bnot => ins.bnot(x).is_ok(),
    }
}

fn convert<B: ResultBuilder>(ins: &mut B, opcode: ConvertOpcode, x: Value) -> bool
    requires asked { (holds : Bool) → IsTrue holds → B.asks (IsTrue holds) }
    requires current { B.can_build ins.old }
    requires x_exists { B.has_value ins.old x }
{
    match opcode {
        ConvertOpcode::Splat => ins.splat(I32X4, x).is_ok(),
        ConvertOpcode::Uextend => ins.uextend(I64, x).is_ok(),
        ConvertOpcode::Sextend => ins.sextend(I128, x).is_ok(),
        ConvertOpcode::Ireduce => ins.ireduce(I16, x).is_ok(),
    }
}

fn binary<B: ResultBuilder>(ins: &mut B, opcode: BinaryOpcode, x: Value, y: Value) -> bool
    requires current { B.can_build ins.old }
    requires x_exists { B.has_value ins.old x }
    requires y_exists { B.has_value ins.old y }
{
    match opcode {
        BinaryOpcode::Iadd => ins.iadd(x, y).is_ok(),
        BinaryOpcode::Isub => ins.isub(x, y).is_ok(),
        BinaryOpcode::Imul => ins.imul(x, y).is_ok(),
        BinaryOpcode::Band => ins.band(x, y).is_ok(),
        BinaryOpcode::Bor => ins.bor(x, y).is_ok(),
        BinaryOpcode::Bxor => ins.bxor(x, y).is_ok(),
        BinaryOpcode::Ishl => ins.ishl(x, y).is_ok(),
        BinaryOpcode::Ushr => ins.ushr(x, y).is_ok(),
        BinaryOpcode::Sshr => ins.sshr(x, y).is_ok(),
        BinaryOpcode::Udiv => ins.udiv(x, y).is_ok(),
        BinaryOpcode::Sdiv => ins.sdiv(x, y).is_ok(),
        BinaryOpcode::Urem => ins.urem(x, y).is_ok(),
        BinaryOpcode::Srem => ins.srem(x, y).is_ok(),
    }
}

fn stack<B: ResultBuilder>(ins: &mut B, opcode: StackOpcode, slot: StackSlot) -> bool
    requires asked { (holds : Bool) → IsTrue holds → B.asks (IsTrue holds) }
    requires current { B.can_build ins.old }
    requires slot_exists { B.has_entry ins.old (ASlot slot) }
{
    match opcode {
        StackOpcode::StackAddr => ins.stack_addr(I64, slot, 4).is_ok(),
        StackOpcode::StackLoad => ins.stack_load(I32, slot, -4).is_ok(),
    }
}

fn cond_trap<B: ResultBuilder>(ins: &mut B, opcode: CondTrapOpcode, x: Value, y: Value) -> bool
    requires current { B.can_build ins.old }
    requires x_exists { B.has_value ins.old x }
    requires y_exists { B.has_value ins.old y }
{
    match opcode {
        CondTrapOpcode::Trapz => ins.trapz(x, TrapCode::User(7)).is_ok(),
        CondTrapOpcode::Trapnz => ins.trapnz(y, TrapCode::HeapOutOfBounds).is_ok(),
    }
}

fn isplit<B: ResultBuilder>(ins: &mut B, p: Value) -> bool
    requires asked { (holds : Bool) → IsTrue holds → B.asks (IsTrue holds) }
    requires current { B.can_build ins.old }
    requires p_exists { B.has_value ins.old p }
    requires p_type { B.type_of ins.old p ≡ I64 }
{
    ins.isplit(p).is_ok()
}

// Those that compute from operands.
fn compute<B: ResultBuilder>(ins: &mut B, opcode: Opcode, x: Value, y: Value, p: Value) -> bool
    requires asked { (holds : Bool) → IsTrue holds → B.asks (IsTrue holds) }
    requires current { B.can_build ins.old }
    requires x_exists { B.has_value ins.old x }
    requires x_type { B.type_of ins.old x ≡ I32 }
    requires y_exists { B.has_value ins.old y }
    requires p_exists { B.has_value ins.old p }
    requires p_type { B.type_of ins.old p ≡ I64 }
{
    match opcode {
        Opcode::Unary(opcode) => unary(ins, opcode, x),
        Opcode::Convert(opcode) => convert(ins, opcode, x),
        Opcode::Binary(opcode) => binary(ins, opcode, x, y),
        Opcode::Iconcat => ins.iconcat(x, y).is_ok(),
        Opcode::Isplit => isplit(ins, p),
        Opcode::Icmp => ins.icmp(IntCC::UnsignedLessThan, x, y).is_ok(),
        Opcode::Select => ins.select(p, x, y).is_ok(),
        _ => false,
    }
}

// Those that read or write memory.
fn reach<B: ResultBuilder>(ins: &mut B, opcode: Opcode, x: Value, p: Value, slot: StackSlot) -> bool
    requires asked { (holds : Bool) → IsTrue holds → B.asks (IsTrue holds) }
    requires current { B.can_build ins.old }
    requires x_exists { B.has_value ins.old x }
    requires p_exists { B.has_value ins.old p }
    requires slot_exists { B.has_entry ins.old (ASlot slot) }
{
    match opcode {
        Opcode::Load => ins.load(I32, flags(true, false), p, 4).is_ok(),
        Opcode::Store => ins.store(flags(false, true), x, p, -8).is_ok(),
        Opcode::Stack(opcode) => stack(ins, opcode, slot),
        Opcode::StackStore => ins.stack_store(x, slot, 0).is_ok(),
        _ => false,
    }
}

fn call<B: ResultBuilder>(ins: &mut B, function: FuncRef, x: Value) -> bool
    requires current { B.can_build ins.old }
    requires x_exists { B.has_value ins.old x }
    requires function_exists { B.has_entry ins.old (AFunctionRef function) }
{
    ins.call(function, &[x]).is_ok()
}

fn call_indirect<B: ResultBuilder>(ins: &mut B, sig: SigRef, callee: Value, x: Value) -> bool
    requires current { B.can_build ins.old }
    requires x_exists { B.has_value ins.old x }
    requires callee_exists { B.has_value ins.old callee }
    requires signature_exists { B.has_entry ins.old (ASignatureRef sig) }
{
    ins.call_indirect(sig, callee, &[x]).is_ok()
}

// Those that leave a block, or may.
fn leave<B: ResultBuilder>(ins: &mut B, opcode: Opcode, x: Value, y: Value) -> bool
    requires current { B.can_build ins.old }
    requires x_exists { B.has_value ins.old x }
    requires y_exists { B.has_value ins.old y }
{
    match opcode {
        Opcode::CondTrap(opcode) => cond_trap(ins, opcode, x, y),
        Opcode::Return => ins.return_(&[x, y]).is_ok(),
        Opcode::Trap => ins.trap(TrapCode::IntegerOverflow).is_ok(),
        _ => false,
    }
}

/// Makes the instruction of a row by its method, and says whether that succeeded. Those that take a table of their own
/// aren't made here.
pub fn make<B: ResultBuilder>(ins: &mut B, opcode: Opcode, given: &Given) -> bool
    requires asked { (holds : Bool) → IsTrue holds → B.asks (IsTrue holds) }
    requires measured { (m n : ℕ) → m ≡ n → B.asks (m ≡ n) }
    requires current { B.can_build ins.old }
    requires x_exists { B.has_value ins.old given.now.x }
    requires x_type { B.type_of ins.old given.now.x ≡ I32 }
    requires y_exists { B.has_value ins.old given.now.y }
    requires p_exists { B.has_value ins.old given.now.p }
    requires p_type { B.type_of ins.old given.now.p ≡ I64 }
    requires slot_exists { B.has_entry ins.old (ASlot given.now.slot) }
    requires signature_exists { B.has_entry ins.old (ASignatureRef given.now.sig) }
    requires function_exists { B.has_entry ins.old (AFunctionRef given.now.function) }
{
    let Given {
        x,
        y,
        p,
        slot,
        sig,
        function,
    } = *given;
    match opcode {
        Opcode::Iconst => ins.iconst(I32, 7).is_ok(),
        Opcode::FloatConst(opcode) => float_const(ins, opcode),
        Opcode::PooledConst(opcode) => pooled_const(ins, opcode),
        Opcode::Unary(_)
        | Opcode::Convert(_)
        | Opcode::Binary(_)
        | Opcode::Iconcat
        | Opcode::Isplit
        | Opcode::Icmp
        | Opcode::Select => compute(ins, opcode, x, y, p),
        Opcode::Load | Opcode::Store | Opcode::Stack(_) | Opcode::StackStore => {
            reach(ins, opcode, x, p, slot)
        }
        Opcode::Call => call(ins, function, x),
        Opcode::CallIndirect => call_indirect(ins, sig, p, x),
        Opcode::CondTrap(_) | Opcode::Return | Opcode::Trap => leave(ins, opcode, x, y),
        Opcode::Jump | Opcode::Brif | Opcode::BrTable | Opcode::TryCall | Opcode::TryCallIndirect =>
            false,
    }
}

/// Makes the jump or the branch of a row by its method, to these blocks, and says whether that succeeded.
pub fn branch<B: ResultBuilder>(
    ins: &mut B,
    opcode: Opcode,
    given: &Given,
    first: Block,
    second: Block,
) -> bool
    requires current { B.can_build ins.old }
    requires y_exists { B.has_value ins.old given.now.y }
    requires leads_first { B.can_lead ins.old (edge_to first (arg.Value given.now.x ∷ [])) }
    requires leads_second { B.can_lead ins.old (edge_to second []) }
{
    let passed = [BlockArg::Value(given.x)];
    match opcode {
        Opcode::Jump => ins.jump(first, &passed).is_ok(),
        Opcode::Brif => ins.brif(given.y, first, &passed, second, &[]).is_ok(),
        _ => false,
    }
}
