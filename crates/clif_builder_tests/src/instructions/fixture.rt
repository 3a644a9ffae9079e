//! The function that each row is made in, and how what was made is compared with the row.
#![tactic(auto)]

ghost use Rattle.std.specs.Prelude.{◌≡◌, IfOk, IsTrue};
ghost use Rattle.clif_ir.specs.Body.{empty_body};

use crate::fixture;
use crate::instructions::rows::{Edge, Immediate, Passed, Row};
use cranelift_frontend::{
    BlockArg, BlockCall, BuildError, EntityRef, ExtFuncData, ExternalName, FuncRef, Function, Inst,
    InstBuilder, InstructionData, MemFlagsData, SigRef, Signature, StackSlot, Type, Value, types,
};
use std::alloc::{AllocError, Global};
use std::process::Abort;
use std::test::Fail;

/// A builder whose methods answer results.
pub trait ResultBuilder: InstBuilder<
    ValueAnswer = Result<Value, BuildError>,
    PairAnswer = Result<(Value, Value), BuildError>,
    InstAnswer = Result<Inst, BuildError>,
> {}

impl<B> ResultBuilder for B
where
    B: InstBuilder<
        ValueAnswer = Result<Value, BuildError>,
        PairAnswer = Result<(Value, Value), BuildError>,
        InstAnswer = Result<Inst, BuildError>,
    >,
{}

/// What the instruction of a row may name.
#[derive(Clone, Copy)]
pub struct Given {
    /// v0, of type I32.
    pub x: Value,
    /// v1, of type I32.
    pub y: Value,
    /// v2, of type I64.
    pub p: Value,
    /// ss0.
    pub slot: StackSlot,
    /// sig0, which takes and returns an I32.
    pub sig: SigRef,
    /// fn0, of this signature.
    pub function: FuncRef,
}

/// The function that a row is made in.
pub fn function(alloc: Global) -> Result<Function, AllocError>
    ensures { IfOk result (λ func. func ≡ empty_body func.name func.signature) }
{
    fixture::function(alloc, Some("row"), fixture::signature(alloc, &[], &[])?)
}

/// A signature that takes and returns an I32.
pub fn signature(alloc: Global) -> Result<Signature, AllocError> {
    fixture::signature(alloc, &[types::I32], &[types::I32])
}

/// The function `g`, which has a signature.
pub fn callee(alloc: Global, signature: SigRef) -> Result<ExtFuncData, AllocError>
    ensures { IfOk result (λ function. function.signature ≡ signature) }
{
    Ok(ExtFuncData {
        name: ExternalName::testcase(String::from_str(alloc, "g")?),
        signature,
        colocated: false,
        patchable: false,
    })
}

/// Whether two types are equal.
pub fn is_same_type(a: Type, b: Type) -> bool
    ensures { IsTrue result → (a ≡ b) }
{
    a == b
}

/// Flags that say `notrap` or `aligned`, or both.
pub fn flags(notrap: bool, aligned: bool) -> MemFlagsData {
    let mut flags = MemFlagsData::new();
    if notrap {
        flags.set_notrap();
    }
    if aligned {
        flags.set_aligned();
    }
    flags
}

fn memory(flags: MemFlagsData, offset: i32) -> Immediate {
    Immediate::Memory(flags.notrap(), flags.aligned(), offset)
}

// What the data has beside the opcode, the operands and the edges.
fn immediate_of(data: &InstructionData) -> Immediate {
    match data {
        InstructionData::UnaryImm { imm } => Immediate::Number(*imm),
        InstructionData::UnaryIeee { bits, .. } => Immediate::Bits(*bits),
        InstructionData::UnaryConst { constant, .. } => Immediate::Pooled(constant.as_u32()),
        InstructionData::IntCompare { cond, .. } => Immediate::Condition(*cond),
        InstructionData::Load { flags, offset, .. } => memory(*flags, *offset),
        InstructionData::Store { flags, offset, .. } => memory(*flags, *offset),
        InstructionData::StackLoad { slot, offset, .. } => {
            Immediate::Place(slot.as_u32(), *offset)
        }
        InstructionData::StackStore { slot, offset, .. } => {
            Immediate::Place(slot.as_u32(), *offset)
        }
        InstructionData::Trap { code } => Immediate::Reason(*code),
        InstructionData::CondTrap { code, .. } => Immediate::Reason(*code),
        InstructionData::Call { func_ref, .. } => Immediate::Function(func_ref.as_u32()),
        InstructionData::CallIndirect { sig_ref, .. } => Immediate::Signature(sig_ref.as_u32()),
        InstructionData::TryCall {
            func_ref,
            exception,
            ..
        } => Immediate::Both(func_ref.as_u32(), exception.signature().as_u32()),
        InstructionData::TryCallIndirect { exception, .. } => {
            Immediate::Signature(exception.signature().as_u32())
        }
        InstructionData::Unary { .. }
        | InstructionData::Binary { .. }
        | InstructionData::Concat { .. }
        | InstructionData::Split { .. }
        | InstructionData::Convert { .. }
        | InstructionData::Ternary { .. }
        | InstructionData::Jump { .. }
        | InstructionData::Brif { .. }
        | InstructionData::BranchTable { .. }
        | InstructionData::MultiAry { .. } => Immediate::Nothing,
    }
}

fn passed(arg: &BlockArg) -> Passed {
    match arg {
        BlockArg::Value(value) => Passed::Value(value.as_u32()),
        BlockArg::TryCallRet(place) => Passed::Returned(*place),
        BlockArg::TryCallExn(place) => Passed::Thrown(*place),
    }
}

// The operands have these numbers.
fn has_operands(rt: &impl Abort, found: &[Value], wanted: &[u32]) {
    assert!(rt; found.len() == wanted.len());
    for (value, number) in found.iter().zip(wanted.iter()) {
        assert!(rt; value.as_u32() == *number);
    }
}

fn is_edge(rt: &impl Abort, found: &BlockCall, wanted: &Edge) {
    let args = found.args.as_slice();
    assert!(rt; found.block.as_u32() == wanted.0);
    assert!(rt; args.len() == wanted.1.len());
    for (arg, expected) in args.iter().zip(wanted.1.iter()) {
        assert!(rt; passed(arg) == *expected);
    }
}

fn has_edges(rt: &impl Abort, found: &[BlockCall], wanted: &[Edge]) {
    assert!(rt; found.len() == wanted.len());
    for (edge, expected) in found.iter().zip(wanted.iter()) {
        is_edge(rt, edge, expected);
    }
}

// What stands before the line of a row.
const HEADER: &str = "block0(v0: i32, v1: i32, v2: i64):\n    ";

/// The function has one instruction, which is that of the row: by its data, and by its line, which is all that block0 has.
pub fn is_row(rt: &impl Abort, alloc: Global, func: &Function, row: &Row) -> Result<(), Fail> {
    assert!(rt; func.inst_count() == 1);
    let data = func.inst_data(Inst::new(0));
    assert!(rt; data.opcode() == row.0);
    has_operands(rt, data.arguments(), row.2);
    assert!(rt; immediate_of(data) == row.3);
    has_edges(rt, data.branch_destination(), row.4);
    let text = format!(in alloc; "{}", func.display())?;
    let wanted = format!(in alloc; "\n{HEADER}{}\n}}\n", row.1)?;
    assert!(rt; text.as_str().ends_with(wanted.as_str()));
    Ok(())
}
