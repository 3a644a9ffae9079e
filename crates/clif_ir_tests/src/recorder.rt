//! A builder without conditions, whose methods answer plain values: it notes the instructions that it is asked for. Its caller needs
//! no proof and no `?`, whatever it names.
#![tactic(auto)]

ghost use Rattle.std.proofs.Common.{refl};
ghost use Rattle.std.specs.Prelude.{◌≡◌, Ok};
ghost use Rattle.clif_ir_tests.specs.Recorder.{or_zero};
ghost use Rattle.clif_types.specs.declared.types.«Type».TheVariants.{Invalid};

use crate::support::b;
use clif_constant_operands::ConstantOperands;
use clif_inst_builder::{InstBuilder, InstBuilderBase};
use clif_instructions::block_call::BlockArg;
use clif_instructions::exception_table::ExceptionTargets;
use clif_instructions::instructions::InstructionData;
use clif_instructions::jump_table::JumpTableData;
use clif_opcodes::Opcode;
use clif_types::types::{I8X16, I16, I32, I64, I128};
use clif_types::{
    Block, BuildError, Constant, ExceptionTable, FuncRef, Inst, IntCC, JumpTable, SigRef,
    StackSlot, TrapCode, Type, Value,
};
use std::alloc::Global;
use std::test::Fail;

// The instructions that were asked for, by their opcodes.
#[derive(Drop)]
struct Recorder {
    alloc: Global,
    opcodes: Vec<Opcode>,
    failed: bool,
}

impl Recorder {
    // One that was asked for nothing.
    fn new(alloc: Global) -> Recorder {
        Recorder {
            alloc,
            opcodes: Vec::new(alloc),
            failed: false,
        }
    }

    // What was asked for, in order.
    fn opcodes(&self) -> &[Opcode] {
        &self.opcodes
    }

    // Whether something couldn't be noted.
    fn failed(&self) -> bool {
        self.failed
    }

    // Notes an instruction.
    fn note(&mut self, shape: &InstructionData) {
        if self.opcodes.push(shape.opcode()).is_err() {
            self.failed = true;
        }
    }
}

impl InstBuilderBase for Recorder {
    type ValueAnswer = Value;

    type PairAnswer = (Value, Value);

    type InstAnswer = Inst;

    ghost asks = { λ condition. Unit {0} };

    ghost answer_value = { λ made. or_zero made };

    ghost answer_inst = { λ made. or_zero made };

    ghost value_in = { λ answer. Ok answer };

    ghost can_build = { λ r. Unit {0} };

    ghost has_value = { λ r value. Unit {0} };

    ghost has_entry = { λ r entry. Unit {0} };

    ghost can_lead = { λ r edge. Unit {0} };

    ghost type_of = { λ r value. Invalid };

    ghost pools = { λ old new bytes answer. Unit {0} };

    ghost has_jump_table = { λ r table. Unit {0} };

    ghost takes = { λ old new table answer. Unit {0} };

    ghost has_exception_table = { λ r table. Unit {0} };

    ghost takes_exception = { λ old new table answer. Unit {0} };

    ghost builds = { λ old new shape ty answer. Unit {0} };

    ghost builds_value = { λ old new shape ty answer. Unit {0} };

    ghost builds_like = { λ old new shape like answer. Unit {0} };

    ghost builds_pair = { λ old new shape like answer. Unit {0} };

    ghost builds_on = { λ old new shape ty value built. tt };

    ghost built_exists = { λ old new shape ty value built. tt };

    ghost others_exist = { λ old new shape ty value built other here. tt };

    ghost entries_stay = { λ old new shape ty value built entry here. tt };

    ghost pooled_exists = { λ old new bytes constant pooled. tt };

    ghost pooled_builds = { λ old new bytes constant pooled current. tt };

    ghost taken_leads = { λ old new table edges taken serves k edge below. tt };

    ghost taken_values = { λ old new table edges taken value here. tt };

    ghost taken_builds = { λ old new table edges taken current. tt };

    ghost exception_can_be_named = { λ old new table exception taken serves.
        ((λ k edge below. tt), (λ k value below. tt), tt) };

    ghost exception_values = { λ old new table exception taken value here. tt };

    ghost exception_entries = { λ old new table exception taken entry here. tt };

    ghost exception_builds = { λ old new table exception taken current. tt };

    ghost answer_is = { λ answer. refl };

    ghost like_is_value = { λ old new shape like answer built. tt };

    fn answer_value(made: Result<Value, BuildError>) -> Value
        ensures { result ≡ or_zero made }
    {
        made.unwrap_or(Value::from_u32(0))
    }

    fn answer_inst(made: Result<Inst, BuildError>) -> Inst
        ensures { result ≡ or_zero made }
    {
        made.unwrap_or(Inst::from_u32(0))
    }

    fn value_in(answer: Value) -> Result<Value, BuildError>
        ensures { result ≡ Ok answer }
    {
        Ok(answer)
    }

    fn value_type(&self, _value: Value) -> Type {
        Type::Invalid
    }

    fn allocator(&self) -> Global {
        self.alloc
    }

    fn pool_constant(&mut self, _bytes: &[u8]) -> Result<Constant, BuildError> {
        Ok(Constant::from_u32(0))
    }

    fn take_jump_table(&mut self, _table: JumpTable) -> Result<JumpTableData, BuildError> {
        Err(self.refuse())
    }

    fn take_exception_table(
        &mut self,
        _table: ExceptionTable,
    ) -> Result<ExceptionTargets, BuildError> {
        Err(self.refuse())
    }

    fn build(&mut self, shape: InstructionData, _ctrl_type: Type) -> Inst {
        self.note(&shape);
        Inst::from_u32(0)
    }

    fn build_value(&mut self, shape: InstructionData, _ctrl_type: Type) -> Value {
        self.note(&shape);
        Value::from_u32(0)
    }

    fn build_like(&mut self, shape: InstructionData, _like: Value) -> Value {
        self.note(&shape);
        Value::from_u32(0)
    }

    fn build_pair(&mut self, shape: InstructionData, _like: Value) -> (Value, Value) {
        self.note(&shape);
        (Value::from_u32(0), Value::from_u32(0))
    }

    fn refuse(&mut self) -> BuildError {
        self.failed = true;
        BuildError::Failed
    }
}

// Forty calls, on what those before them answered, and on tables that aren't there.
fn ask(ins: &mut Recorder, block: Block, function: FuncRef, sig: SigRef, slot: StackSlot) {
    let x = ins.iconst(I32, 7);
    let y = ins.iadd(x, x);
    let x = ins.isub(x, y);
    let y = ins.imul(x, y);
    let x = ins.band(x, y);
    let y = ins.bor(x, y);
    let x = ins.bxor(x, y);
    let y = ins.ishl(x, y);
    let x = ins.ushr(x, y);
    let y = ins.sshr(x, y);
    let x = ins.udiv(x, y);
    let y = ins.sdiv(x, y);
    let x = ins.urem(x, y);
    let y = ins.srem(x, y);
    let x = ins.ineg(y);
    let y = ins.bnot(x);
    let wide = ins.uextend(I64, y);
    let wide = ins.sextend(I128, wide);
    let narrow = ins.ireduce(I16, wide);
    let c = ins.icmp(IntCC::Equal, narrow, narrow);
    let z = ins.select(c, x, y);
    let (lo, hi) = ins.isplit(z);
    let whole = ins.iconcat(lo, hi);
    let bytes = [1, 2, 3];
    let row = ins.vconst(I8X16, &bytes);
    let p = ins.f128const(&bytes);
    let q = ins.f64const(1);
    let sum = ins.iadd_imm_s(q, 1);
    let flag = ins.icmp_imm_s(IntCC::Equal, sum, 0);
    let a = ins.stack_addr(I64, slot, 0);
    let b = ins.stack_load(I64, slot, 8);
    ins.stack_store(b, slot, 16);
    ins.trapz(flag, TrapCode::User(1));
    ins.trapnz(flag, TrapCode::User(2));
    ins.call(function, &[a, b, whole]);
    ins.call_indirect(sig, a, &[row, p]);
    ins.br_table(x, JumpTable::from_u32(0));
    ins.try_call(function, &[x], ExceptionTable::from_u32(0));
    ins.brif(c, block, &[BlockArg::Value(x)], block, &[]);
    ins.jump(block, &[BlockArg::Value(y)]);
    ins.return_(&[x, y]);
}

#[test]
fn without_conditions(rt: HostRuntime) -> Result<(), Fail> {
    let mut recorder = Recorder::new(rt.alloc());
    ask(
        &mut recorder,
        b(&rt, 1),
        FuncRef::from_u32(0),
        SigRef::from_u32(0),
        StackSlot::from_u32(0),
    );
    let mut names = String::new(rt.alloc());
    for opcode in recorder.opcodes() {
        names.push_str(opcode.name())?;
        names.push_str(" ")?;
    }
    let expected =
        "iconst iadd isub imul band bor bxor ishl ushr sshr udiv sdiv urem srem ineg bnot uextend sextend ireduce icmp select isplit iconcat vconst f128const f64const iconst iadd iconst icmp stack_addr stack_load stack_store trapz trapnz call call_indirect brif jump return ";
    assert_eq!(rt; names.as_str(), expected);
    assert!(rt; recorder.failed());
    Ok(())
}
