//! The steps of a block that don't end it.
use super::marks::Given;
use super::{Generator, VARIABLES};
use crate::worlds::START;
use clif_calls::{
    Call, ImmediateCall, Lender, Name, OutsideCall, PlainInstruction, StraightInstruction,
};
use clif_records::Variable;
use clif_types::types::I64;
use clif_types::{IntCC, MemFlagsData};
use rand::RngExt;
use rand::seq::IndexedRandom;
use std::alloc::AllocError;

/// What a block may do.
#[derive(Clone, Copy)]
enum Step {
    Constant,
    Add,
    Subtract,
    AddConstant,
    CompareConstant,
    UseVar,
    DefVar,
    Need,
    Call,
    CallIndirect,
    Load,
    Store,
    Help,
}

const STEPS: [Step; 17] = [
    Step::Constant,
    Step::Add,
    Step::Subtract,
    Step::AddConstant,
    Step::CompareConstant,
    Step::UseVar,
    Step::UseVar,
    Step::DefVar,
    Step::DefVar,
    Step::Need,
    Step::Call,
    Step::CallIndirect,
    Step::Load,
    Step::Store,
    Step::Help,
    Step::Help,
    Step::Help,
];

const CONDITIONS: [IntCC; 10] = [
    IntCC::Equal,
    IntCC::NotEqual,
    IntCC::SignedLessThan,
    IntCC::SignedGreaterThanOrEqual,
    IntCC::SignedGreaterThan,
    IntCC::SignedLessThanOrEqual,
    IntCC::UnsignedLessThan,
    IntCC::UnsignedGreaterThanOrEqual,
    IntCC::UnsignedGreaterThan,
    IntCC::UnsignedLessThanOrEqual,
];

impl Generator {
    // A step at random.
    pub(super) fn step(&mut self) -> Result<(), AllocError> {
        let Some(step) = STEPS.as_slice().choose(&mut self.random) else {
            return Ok(());
        };
        match *step {
            Step::Constant => {
                let value = self.random.random_range(0i64..100);
                let value = self.constant(value)?;
                self.give(value)
            }
            Step::Add => {
                let (x, y) = (self.value(), self.value());
                let value = self.instruction(PlainInstruction::Iadd { x, y })?;
                self.give(value)
            }
            Step::Subtract => {
                let (x, y) = (self.value(), self.value());
                let value = self.instruction(PlainInstruction::Isub { x, y })?;
                self.give(value)
            }
            Step::AddConstant => self.add_constant(),
            Step::CompareConstant => self.compare_constant(),
            Step::UseVar => self.use_var(),
            Step::DefVar => self.def_var(),
            Step::Need => self.need(),
            Step::Call => {
                let args = self.operands()?;
                self.outside(OutsideCall::Call {
                    function: self.function,
                    args,
                })
            }
            Step::CallIndirect => {
                let args = self.operands()?;
                let callee = self.value();
                self.outside(OutsideCall::CallIndirect {
                    signature: self.signature,
                    callee,
                    args,
                })
            }
            Step::Load => self.load(),
            Step::Store => self.store(),
            Step::Help => self.help(),
        }
    }

    // A sum with a constant.
    fn add_constant(&mut self) -> Result<(), AllocError> {
        let x = self.value();
        let imm = self.random.random_range(-100i64..100);
        let call = ImmediateCall::IaddImmS { x, imm };
        let value = self.call(Call::Immediate(call))?;
        self.give(value)
    }

    // A comparison with a constant, made as wide as the other values.
    fn compare_constant(&mut self) -> Result<(), AllocError> {
        let Some(cond) = CONDITIONS.as_slice().choose(&mut self.random) else {
            return Ok(());
        };
        let cond = *cond;
        let x = self.value();
        let imm = self.random.random_range(-100i64..100);
        let call = ImmediateCall::IcmpImmS { cond, x, imm };
        let holds = self.call(Call::Immediate(call))?;
        self.give_wide(holds)
    }

    // A value that later steps of the block may name.
    pub(super) fn give(&mut self, value: Name) -> Result<(), AllocError> {
        self.values.push(Given::new(value))?;
        Ok(())
    }

    // One of the variables that don't count blocks.
    pub(super) fn variable(&mut self) -> Variable {
        Variable::new(self.random.random_range(1usize..VARIABLES))
    }

    // What is passed to a call.
    pub(super) fn operands(&mut self) -> Result<Vec<Name>, AllocError> {
        let (x, y) = (self.value(), self.value());
        Ok(vec![in self.alloc; x, y]?)
    }

    // A call, whose two results may be named.
    fn outside(&mut self, call: OutsideCall) -> Result<(), AllocError> {
        let place = self
            .call(Call::Straight(Lender::Ins, StraightInstruction::Outside(call)))?
            .place;
        self.give(Name { place, answer: 1 })?;
        self.give(Name { place, answer: 2 })
    }

    // The address of eight accessible bytes.
    fn address(&mut self) -> Result<Name, AllocError> {
        let offset = self.random.random_range(0i64..9);
        self.constant(offset.saturating_add(START as i64))
    }

    fn load(&mut self) -> Result<(), AllocError> {
        let p = self.address()?;
        let value = self.instruction(PlainInstruction::Load {
            ty: I64,
            flags: MemFlagsData::new(),
            p,
            offset: 0,
        })?;
        self.give(value)
    }

    fn store(&mut self) -> Result<(), AllocError> {
        let p = self.address()?;
        let x = self.value();
        self.call(Call::plain(PlainInstruction::Store {
            flags: MemFlagsData::new(),
            x,
            p,
            offset: 0,
        }))?;
        Ok(())
    }
}
