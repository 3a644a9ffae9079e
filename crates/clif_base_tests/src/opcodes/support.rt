//! A row of the tables, and how it is compared.
#![tactic(auto)]

use clif_opcodes::{Control, Demand, Opcode, OperandKind, OtherOperands, ResultKind};
use std::process::Abort;

/// The controlling type.
pub const T: OperandKind = OperandKind::Controlling;
/// A result of the controlling type.
pub const TO_T: &[ResultKind] = &[ResultKind::Controlling];
/// The first operand tells the controlling type.
pub const FIRST: Control = Control::Operand(0);

/// What is known of an instruction that neither calls nor ends a block.
#[derive(Clone, Copy)]
pub struct Plain {
    pub opcode: Opcode,
    pub name: &'static str,
    pub demand: Demand,
    pub control: Control,
    pub operands: &'static [OperandKind],
    pub results: &'static [ResultKind],
}

/// Asserts the row of such an instruction.
pub fn is_plain(rt: &impl Abort, row: &Plain) {
    let typing = row.opcode.typing();
    assert!(rt; row.opcode.name() == row.name);
    assert!(rt; typing.demand == row.demand);
    assert!(rt; typing.control == row.control);
    assert!(rt; typing.operands == row.operands);
    assert!(rt; typing.others == OtherOperands::Nothing);
    assert!(rt; typing.results == row.results);
    assert!(rt; !typing.returns && !typing.ends);
}

/// Asserts the rows of such instructions.
pub fn are_plain(rt: &impl Abort, rows: &[Plain]) {
    for row in rows {
        is_plain(rt, row);
    }
}

/// What is known of an instruction that calls or ends its block. It gives no results of fixed number.
#[derive(Clone, Copy)]
pub struct Leaving {
    pub opcode: Opcode,
    pub name: &'static str,
    pub demand: Demand,
    pub control: Control,
    pub operands: &'static [OperandKind],
    pub others: OtherOperands,
    pub returns: bool,
    pub ends: bool,
}

/// Asserts the rows of such instructions.
pub fn are_leaving(rt: &impl Abort, rows: &[Leaving]) {
    for row in rows {
        let typing = row.opcode.typing();
        assert!(rt; row.opcode.name() == row.name);
        assert!(rt; typing.demand == row.demand);
        assert!(rt; typing.control == row.control);
        assert!(rt; typing.operands == row.operands);
        assert!(rt; typing.others == row.others);
        assert!(rt; typing.results.is_empty());
        assert!(rt; typing.returns == row.returns);
        assert!(rt; typing.ends == row.ends);
    }
}
