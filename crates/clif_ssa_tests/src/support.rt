//! What the steps are made on: a function and a builder, whose blocks, values, instructions and variables are told by
//! their numbers.
#![tactic(auto)]

ghost use Rattle.std.specs.Prelude.{◌≡◌, ◌<◌, length, IsTrue, EachIndex, All, OnOk, slice_index};
ghost use Rattle.clif_ir.specs.Consistent.{EdgeExists};
ghost use Rattle.clif_ssa.specs.Ssa.{Declares, NamesExist};

use super::facts::Fact;
use clif_instructions::insert_at::InsertAt;
use clif_ir::{BlockCall, Function, InstructionData};
use clif_ssa::{SSABuilder, SideEffects, Variable};
use clif_types::{Block, EntityRef, Inst, SourceLoc, Type, Value};
use std::alloc::Global;
use std::fmt::Write;
use std::process::Abort;
use std::test::Fail;

/// The source place that the tests give to every instruction.
const PLACE: u32 = 17;

/// The block with this number, which may not exist.
pub fn b(rt: &impl Abort, number: u32) -> Block {
    assert!(rt; number < u32::MAX);
    Block::from_u32(number)
}

/// The value with this number, which may not exist.
pub fn v(rt: &impl Abort, number: u32) -> Value {
    assert!(rt; number < u32::MAX);
    Value::from_u32(number)
}

/// The instruction with this number, which may not exist.
pub fn i(rt: &impl Abort, number: u32) -> Inst {
    assert!(rt; number < u32::MAX);
    Inst::from_u32(number)
}

/// The variable with this number.
pub fn var(number: u8) -> Variable {
    Variable::from_u32(u32::from(number))
}

/// Whether these values exist.
pub fn has_operands(func: &Function, args: &[Value]) -> bool
    ensures { IsTrue result → EachIndex args.now (λ k. slice_index args.now k < length func.now.values) }
{
    let count = func.value_count();
    args.iter().all(|value| value.index() < count)
}

// Whether the target of an edge exists, to which nothing is passed.
fn has_edge(func: &Function, edge: &BlockCall) -> bool
    ensures { IsTrue result → EdgeExists func.now edge.now }
{
    edge.block.index() < func.block_count() && edge.args.as_slice().is_empty()
}

/// Whether the targets of these edges exist, to which nothing is passed.
pub fn has_edges(func: &Function, edges: &[BlockCall]) -> bool
    ensures { IsTrue result → All (EdgeExists func.now) edges.now }
{
    edges.iter().all(|edge| has_edge(func, edge))
}

/// A function and a builder, where the function has what the builder names. Its methods assert what the
/// calls ask for.
#[derive(Drop)]
pub struct Fixture {
    // What is tested, which a failed assertion tells.
    case: &'static str,
    func: Function,
    ssa: SSABuilder,
    // What the last use, or the last sealing, did beside its answer.
    told: SideEffects,
    ghost named: { NamesExist func ssa },
}

impl Fixture {
    /// The empty function `u0:0` and a builder that knows nothing.
    pub fn new(alloc: Global, case: &'static str) -> Self {
        let func = Function::new(alloc);
        Fixture {
            case,
            func,
            ssa: SSABuilder::new(alloc),
            told: SideEffects::new(alloc),
        }
    }

    /// The allocator that the function grows by.
    pub fn allocator(&self) -> Global {
        self.func.allocator()
    }

    // The block with this number, which exists.
    fn block(&self, rt: &impl Abort, number: u32) -> Block
        ensures { result < length self.now.func.blocks }
    {
        let block = b(rt, number);
        assert!(rt; block.index() < self.func.block_count());
        block
    }

    // The value with this number, which exists.
    fn value(&self, rt: &impl Abort, number: u32) -> Value
        ensures { result < length self.now.func.values }
    {
        let value = v(rt, number);
        assert!(rt; value.index() < self.func.value_count());
        value
    }

    // Asserts that an instruction exists.
    fn asserts_inst(&self, rt: &impl Abort, inst: Inst)
        ensures { inst < length self.now.func.insts }
    {
        assert!(rt; inst.index() < self.func.inst_count());
    }

    /// Makes a block known, which isn't in the layout yet, and answers its number.
    pub fn declare(&mut self) -> Result<u32, Fail> {
        let block = self.func.create_block()?;
        self.ssa.declare_block(block)?;
        Ok(block.as_u32())
    }

    /// Puts a block at the end of the layout.
    pub fn lay_out(&mut self, rt: &impl Abort, block: u32) -> Result<(), Fail> {
        let block = self.block(rt, block);
        self.func.ensure_block_inserted(block)?;
        Ok(())
    }

    /// Puts an instruction at the end of a block, and answers its number.
    pub fn insert(
        &mut self,
        rt: &impl Abort,
        block: u32,
        shape: InstructionData,
        ty: Type,
    ) -> Result<u32, Fail> {
        let block = self.block(rt, block);
        assert!(rt; has_operands(&self.func, shape.arguments()));
        assert!(rt; has_edges(&self.func, shape.branch_destination()));
        assert!(rt; self.func.has_contexts(&shape));
        assert!(rt; self.func.has_entries(&shape));
        let inst = self
            .func
            .insert_inst(block, InsertAt::Back, shape, ty, SourceLoc::new(PLACE))?;
        Ok(inst.as_u32())
    }

    /// Declares that a branch leads to a block.
    pub fn leads(&mut self, rt: &impl Abort, block: Block, inst: Inst) -> Result<(), Fail>
        ensures { OnOk result (Declares self.old.ssa self.new.ssa block inst) }
    {
        self.asserts_inst(rt, inst);
        assert!(rt; !self.ssa.is_sealed(block));
        self.ssa.declare_block_predecessor(block, inst)?;
        Ok(())
    }

    /// Declares that two branches lead to a block, and takes back the first entry of the first of them.
    pub fn leads_in_place(
        &mut self,
        rt: &impl Abort,
        block: Block,
        removed: Inst,
        other: Inst,
    ) -> Result<(), Fail> {
        self.leads(rt, block, removed)?;
        self.leads(rt, block, other)?;
        assert!(rt; !self.ssa.is_sealed(block));
        self.ssa.remove_block_predecessor(block, removed);
        Ok(())
    }

    /// Assigns a value to a variable.
    pub fn define(
        &mut self,
        rt: &impl Abort,
        block: u32,
        variable: u8,
        value: u32,
    ) -> Result<(), Fail> {
        let value = self.value(rt, value);
        self.ssa.def_var(var(variable), value, b(rt, block))?;
        Ok(())
    }

    /// Marks a variable: stack maps need its values.
    pub fn mark(&mut self, variable: u8) -> Result<(), Fail> {
        self.ssa.mark_var_needs_stack_map(var(variable))?;
        Ok(())
    }

    /// Declares that stack maps need a value.
    pub fn declare_value(&mut self, rt: &impl Abort, value: u32) -> Result<(), Fail> {
        let value = self.value(rt, value);
        self.ssa.stack_map_values_mut().insert(value)?;
        Ok(())
    }

    /// Uses a variable of this type, and asserts the number of its value, if there is one to be found.
    pub fn uses(
        &mut self,
        rt: &impl Abort,
        block: u32,
        variable: u8,
        ty: Type,
        expected: Option<u32>,
    ) -> Result<(), Fail> {
        let block = self.block(rt, block);
        let (value, told) = self.ssa.use_var(&mut self.func, var(variable), ty, block)?;
        self.told = told;
        if let Some(number) = expected {
            assert!(rt; value.as_u32() == number, "{}", self.case);
        }
        Ok(())
    }

    /// Seals a block, and asserts how many zeros that puts.
    pub fn seal(&mut self, rt: &impl Abort, block: u32, zeros: usize) -> Result<(), Fail> {
        self.told = self.ssa.seal_block(b(rt, block), &mut self.func)?;
        self.holds(rt, Fact::Told(zeros));
        Ok(())
    }

    /// Seals all blocks, and asserts how many zeros that puts.
    pub fn seal_all(&mut self, rt: &impl Abort, zeros: usize) -> Result<(), Fail> {
        self.told = self.ssa.seal_all_blocks(&mut self.func)?;
        self.holds(rt, Fact::Told(zeros));
        Ok(())
    }

    // The parameters of a block.
    fn params(&self, rt: &impl Abort, block: u32) -> &[Value] {
        self.func.block_params(self.block(rt, block))
    }

    // The value that a value stands for.
    fn resolved(&self, rt: &impl Abort, value: u32) -> Value {
        self.func.resolve_aliases(self.value(rt, value))
    }

    // How many values stack maps need.
    fn needed_count(&self) -> usize {
        let mut count: usize = 0;
        for _value in self.ssa.stack_map_values().iter() {
            count = count.saturating_add(1);
        }
        count
    }

    // Whether a fact holds.
    fn is_so(&self, rt: &impl Abort, fact: Fact) -> bool {
        let (ssa, told) = (&self.ssa, self.told.instructions_added_to_blocks.as_slice());
        match fact {
            Fact::Lookups(block, variable, count) => {
                ssa.lookups(var(variable), b(rt, block)) == count
            }
            Fact::Records(count) => ssa.records() == count,
            Fact::Params(block, count) => self.params(rt, block).len() == count,
            Fact::ParamAt(block, place, value) => {
                self.params(rt, block).get(place) == Some(&v(rt, value))
            }
            Fact::Resolves(value, original) => self.resolved(rt, value) == v(rt, original),
            Fact::HasAny(block, has_any) => ssa.has_any_predecessors(b(rt, block)) == has_any,
            Fact::IsLast(block, inst, is_last) => {
                ssa.is_last_predecessor(b(rt, block), i(rt, inst)) == is_last
            }
            Fact::IsSealed(block, is_sealed) => ssa.is_sealed(b(rt, block)) == is_sealed,
            Fact::Told(count) => told.len() == count,
            Fact::ToldAt(place, block) => told.get(place) == Some(&b(rt, block)),
            Fact::IsNeeded(value, is_needed) => {
                ssa.stack_map_values().contains(v(rt, value)) == is_needed
            }
            Fact::Needed(count) => self.needed_count() == count,
        }
    }

    /// Asserts that a fact holds.
    pub fn holds(&self, rt: &impl Abort, fact: Fact) {
        assert!(rt; self.is_so(rt, fact), "{}", self.case);
    }

    /// Asserts the text of the function.
    pub fn prints(&self, rt: &impl Abort, text: &str) -> Result<(), Fail> {
        let shown = self.func.display();
        let found = format!(in self.func.allocator(); "{shown}")?;
        assert!(rt; found.as_str() == text, "{}", self.case);
        Ok(())
    }
}
