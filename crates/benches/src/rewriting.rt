//! A pass over a finished function.
use clif_types::types::I32;
use cranelift_frontend::{EntityRef, Function, Inst, InstructionData, SourceLoc};

// Puts a constant right before an instruction, and right behind it unless it ends its block.
fn surround(func: &mut Function, inst: Inst) -> bool {
    if inst.index() >= func.inst_count() {
        return false;
    }
    let srcloc = func.srcloc(inst);
    let constant = InstructionData::UnaryImm { imm: 1 };
    if func
        .insert_inst_before(inst, constant, I32, srcloc)
        .is_err()
    {
        return false;
    }
    if inst.index() >= func.inst_count() || func.next_inst(inst).is_none() {
        return true;
    }
    let constant = InstructionData::UnaryImm { imm: 2 };
    func.insert_inst_after(inst, constant, I32, srcloc).is_ok()
}

/// Puts constants around each instruction that the function has, in the order of their numbers; answers whether it could.
pub fn surround_all(func: &mut Function) -> bool {
    for number in 0..func.inst_count() {
        if !surround(func, Inst::new(number)) {
            return false;
        }
    }
    true
}
