//! Functions and builders that are made by tables of steps.
#![tactic(auto)]

use super::facts::Fact;
use super::support::{Fixture, b, i, v};
use clif_ir::{BinaryOpcode, BlockCall, InstructionData, ValueList};
use clif_types::{Type, Value, types};
use std::alloc::Global;
use std::process::Abort;
use std::test::Fail;

/// A step, where blocks, values, instructions and variables are told by their numbers.
#[derive(Clone, Copy)]
pub enum Step {
    /// Makes a block known, which isn't in the layout yet.
    Declare,
    /// Makes a block known, and puts it at the end of the layout.
    Create,
    /// Puts a constant at the end of a block.
    Iconst(u32, i64),
    /// Puts a sum of two values at the end of a block.
    Iadd(u32, u32, u32),
    /// Puts a difference of two values at the end of a block.
    Isub(u32, u32, u32),
    /// Puts a jump at the end of a block. It isn't declared.
    Jump(u32, u32),
    /// Puts a jump at the end of a block, and declares that it leads to its target.
    Goes(u32, u32),
    /// Puts a branch by a value at the end of a block. It isn't declared.
    Brif(u32, u32, u32, u32),
    /// Puts a return of no values at the end of a block.
    Return(u32),
    /// Puts a return of one value at the end of a block.
    ReturnOne(u32, u32),
    /// Declares that an instruction leads to a block.
    Leads(u32, u32),
    /// Declares that two instructions lead to a block, and takes the first entry of the first of them back.
    LeadsInPlace(u32, u32, u32),
    /// Assigns a value to a variable in a block.
    Define(u32, u8, u32),
    /// Uses a variable of type I32 in a block, and finds a value.
    Use(u32, u8, u32),
    /// Uses a variable of a type in a block, whatever value it finds.
    Ask(u32, u8, Type),
    /// Marks a variable: stack maps need its values.
    Mark(u8),
    /// Declares that stack maps need a value.
    NeedValue(u32),
    /// Seals a block, and puts so many zeros.
    Seal(u32, usize),
    /// Seals all blocks, and puts so many zeros.
    SealAll(usize),
    /// Finds that a fact holds.
    Is(Fact),
    /// Finds that the function has this text.
    Prints(&'static str),
}

fn declare(made: &mut Fixture) -> Result<(), Fail> {
    made.declare()?;
    Ok(())
}

fn create(rt: &impl Abort, made: &mut Fixture) -> Result<(), Fail> {
    let block = made.declare()?;
    made.lay_out(rt, block)
}

fn iconst(rt: &impl Abort, made: &mut Fixture, block: u32, imm: i64) -> Result<(), Fail> {
    let shape = InstructionData::UnaryImm { imm };
    made.insert(rt, block, shape, types::I32)?;
    Ok(())
}

fn binary(
    rt: &impl Abort,
    made: &mut Fixture,
    block: u32,
    opcode: BinaryOpcode,
    args: [Value; 2],
) -> Result<(), Fail> {
    let shape = InstructionData::Binary { opcode, args };
    made.insert(rt, block, shape, types::I32)?;
    Ok(())
}

fn jump(rt: &impl Abort, made: &mut Fixture, block: u32, target: u32) -> Result<u32, Fail> {
    let destination = BlockCall::new(made.allocator(), b(rt, target), &[])?;
    let shape = InstructionData::Jump { destination };
    made.insert(rt, block, shape, Type::Invalid)
}

fn goes(rt: &impl Abort, made: &mut Fixture, block: u32, target: u32) -> Result<(), Fail> {
    let inst = jump(rt, made, block, target)?;
    made.leads(rt, b(rt, target), i(rt, inst))
}

fn brif(
    rt: &impl Abort,
    made: &mut Fixture,
    block: u32,
    arg: u32,
    targets: [u32; 2],
) -> Result<(), Fail> {
    let taken = BlockCall::new(made.allocator(), b(rt, targets[0]), &[])?;
    let other = BlockCall::new(made.allocator(), b(rt, targets[1]), &[])?;
    let shape = InstructionData::Brif {
        arg: v(rt, arg),
        blocks: [taken, other],
    };
    made.insert(rt, block, shape, Type::Invalid)?;
    Ok(())
}

fn ret(rt: &impl Abort, made: &mut Fixture, block: u32, values: &[Value]) -> Result<(), Fail> {
    let args = ValueList::from_slice(made.allocator(), values)?;
    let shape = InstructionData::MultiAry { args };
    made.insert(rt, block, shape, Type::Invalid)?;
    Ok(())
}

fn make(rt: &impl Abort, made: &mut Fixture, step: Step) -> Result<(), Fail> {
    match step {
        Step::Declare => declare(made),
        Step::Create => create(rt, made),
        Step::Iconst(block, imm) => iconst(rt, made, block, imm),
        Step::Iadd(block, x, y) => {
            binary(rt, made, block, BinaryOpcode::Iadd, [v(rt, x), v(rt, y)])
        }
        Step::Isub(block, x, y) => {
            binary(rt, made, block, BinaryOpcode::Isub, [v(rt, x), v(rt, y)])
        }
        Step::Jump(block, target) => {
            jump(rt, made, block, target)?;
            Ok(())
        }
        Step::Goes(block, target) => goes(rt, made, block, target),
        Step::Brif(block, x, taken, other) => brif(rt, made, block, x, [taken, other]),
        Step::Return(block) => ret(rt, made, block, &[]),
        Step::ReturnOne(block, x) => ret(rt, made, block, &[v(rt, x)]),
        Step::Leads(block, inst) => made.leads(rt, b(rt, block), i(rt, inst)),
        Step::LeadsInPlace(block, removed, other) => {
            made.leads_in_place(rt, b(rt, block), i(rt, removed), i(rt, other))
        }
        Step::Define(block, variable, value) => made.define(rt, block, variable, value),
        Step::Use(block, variable, value) => {
            made.uses(rt, block, variable, types::I32, Some(value))
        }
        Step::Ask(block, variable, ty) => made.uses(rt, block, variable, ty, None),
        Step::Mark(variable) => made.mark(variable),
        Step::NeedValue(value) => made.declare_value(rt, value),
        Step::Seal(block, zeros) => made.seal(rt, block, zeros),
        Step::SealAll(zeros) => made.seal_all(rt, zeros),
        Step::Is(fact) => {
            made.holds(rt, fact);
            Ok(())
        }
        Step::Prints(text) => made.prints(rt, text),
    }
}

/// Makes the steps in order.
pub fn make_all(rt: &impl Abort, made: &mut Fixture, steps: &[Step]) -> Result<(), Fail> {
    for step in steps.iter() {
        make(rt, made, *step)?;
    }
    Ok(())
}

/// What is tested, and the steps that test it.
pub type Case = (&'static str, &'static [Step]);

// Makes the steps of a case in order, from nothing.
fn makes(rt: &impl Abort, alloc: Global, (case, steps): Case) -> Result<(), Fail> {
    let mut made = Fixture::new(alloc, case);
    make_all(rt, &mut made, steps)
}

/// Makes the steps of each case in order, from nothing.
pub fn makes_each(rt: &impl Abort, alloc: Global, cases: &[Case]) -> Result<(), Fail> {
    for case in cases {
        makes(rt, alloc, *case)?;
    }
    Ok(())
}
