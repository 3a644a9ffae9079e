//! The calls that rewrite an instruction in its place, which are its targets, its operands, what its edges pass and the
//! alias region of an access, and those that put an instruction beside another one.
//!
//! A call that rewrites takes no memory, and can't fail. The number of the instruction stays, and so do its results,
//! its block and its source place.
ghost use Rattle.std.specs.Prelude.{◌≡◌, ◌≢◌, ◌<◌, ◌+◌, ◌-◌, ◌^◌, length, slice_index, EachIndex, All, IfOk, OnOk, OnErr};
ghost use Rattle.clif_instructions.specs.Edges.{edge_at};
ghost use Rattle.clif_instructions.specs.Instruction.{contexts, entries_of, items_of, operands, destinations};
ghost use Rattle.clif_tables.specs.Callees.{count_of_results, types_of_results};
ghost use Rattle.clif_ir.specs.Body.{block_at, inst_at, resolved};
ghost use Rattle.clif_ir.specs.Changes.{HasNoRoom, in_region, with_alias_region, with_branch_target, with_context_of, with_edge_at, with_inst, with_operand_at, with_passed_argument};
ghost use Rattle.clif_ir.specs.Consistent.{EdgeExists, EntryExists, ValueExists};
ghost use Rattle.clif_ir.specs.Reading.{place_in_block};

use crate::function::Function;
use clif_instructions::block_call::BlockCall;
use clif_instructions::insert_at::InsertAt;
use clif_instructions::instructions::InstructionData;
use clif_types::{AliasRegion, Block, BuildError, EntityRef, Inst, SourceLoc, Type, Value};

// Makes `region` the alias region of an access.
fn name_region(shape: &mut InstructionData, region: Option<AliasRegion>)
    ensures { shape.new ≡ in_region region shape.old }
{
    match shape {
        InstructionData::Load { flags, .. } => flags.set_alias_region(region),
        InstructionData::Store { flags, .. } => flags.set_alias_region(region),
        _ => {}
    }
}

impl Function {
    /// Makes each edge of an instruction that goes to `from` go to `to`. What it passes stays.
    pub fn change_branch_target(&mut self, inst: Inst, from: Block, to: Block)
        requires inst_exists { inst < length self.old.insts }
        requires target_exists { to < length self.old.blocks }
        ensures { self.new ≡ with_branch_target self.old inst from to }
    {
        self.insts[inst.index()].shape.change_target(from, to);
    }

    /// Makes `value` the operand of an instruction at `place`, in the order in which operands are printed.
    pub fn replace_operand(&mut self, inst: Inst, place: usize, value: Value)
        requires inst_exists { inst < length self.old.insts }
        requires place_exists { place < length (operands (inst_at self.old inst).shape) }
        requires value_exists { value < length self.old.values }
        ensures { self.new ≡ with_operand_at self.old inst place value }
    {
        self.insts[inst.index()].shape.set_operand(place, value);
    }

    /// Makes `value` what an edge of an instruction passes at `place`, in place of what it passed there. Edges
    /// are counted from 0 on, in the order in which they are printed.
    pub fn replace_branch_argument(&mut self, inst: Inst, edge: usize, place: usize, value: Value)
        requires inst_exists { inst < length self.old.insts }
        requires edge_exists { edge < length (destinations (inst_at self.old inst).shape) }
        requires place_exists { place < length (edge_at (destinations (inst_at self.old inst).shape) edge).args }
        requires value_exists { value < length self.old.values }
        ensures { self.new ≡ with_passed_argument self.old inst edge place value }
    {
        self.insts[inst.index()]
            .shape
            .set_edge_argument(edge, place, value);
    }

    /// Makes an edge of an instruction another one, whose target and arguments exist. Edges are counted from 0 on, in
    /// the order in which they are printed. The other edges stay, also those to the same block.
    pub fn replace_edge(&mut self, inst: Inst, edge: usize, call: BlockCall)
        requires inst_exists { inst < length self.old.insts }
        requires edge_exists { edge < length (destinations (inst_at self.old inst).shape) }
        requires call_exists { EdgeExists self.old call }
        ensures { self.new ≡ with_edge_at self.old inst edge call }
    {
        self.insts[inst.index()].shape.set_edge(edge, call);
    }

    /// Makes `value` the context at an item of the exception table of a try call, in place of that item.
    pub fn replace_context(&mut self, inst: Inst, item: usize, value: Value)
        requires inst_exists { inst < length self.old.insts }
        requires item_exists { item < length (items_of (inst_at self.old inst).shape) }
        requires value_exists { value < length self.old.values }
        ensures { self.new ≡ with_context_of self.old inst item value }
    {
        self.insts[inst.index()].shape.set_context(item, value);
    }

    /// Makes `region` the alias region that a load or a store names, or takes away the one that it names. Every other
    /// instruction stays as it is.
    pub fn set_alias_region(&mut self, inst: Inst, region: Option<AliasRegion>)
        requires { inst < length self.old.insts }
        ensures { self.new ≡ with_alias_region self.old inst region }
    {
        name_region(&mut self.insts[inst.index()].shape, region);
    }

    /// Makes an instruction and puts it right before the instruction `next` of a block.
    ///
    /// It walks along nothing, and is otherwise as [`Function::insert_inst`] says.
    ///
    /// # Errors
    ///
    /// Those of [`Function::insert_inst`].
    pub fn insert_inst_before(
        &mut self,
        next: Inst,
        shape: InstructionData,
        ctrl_type: Type,
        srcloc: SourceLoc,
    ) -> Result<Inst, BuildError>
        requires inst_exists { next < length self.old.insts }
        requires operands_exist { EachIndex (operands shape) (λ k. slice_index (operands shape) k < length self.old.values) }
        requires edges_exist { All (EdgeExists self.old) (destinations shape) }
        requires contexts_exist { All (ValueExists self.old) (contexts shape) }
        requires entries_exist { All (EntryExists self.old.tables) (entries_of shape) }
        ensures ok { OnOk result (self.new ≡
            with_inst self.old (inst_at self.old next).block (InsertAt.Behind (place_in_block self.old next)) shape (types_of_results self.old.tables shape ctrl_type) srcloc) }
        ensures number { IfOk result (λ i. i ≡ length self.old.insts) }
        ensures unaliased { OnOk result (resolved self.new (length self.old.values) ≡ length self.old.values) }
        ensures full { result ≡ Err BuildError.Full → HasNoRoom self.old (count_of_results self.old.tables shape) }
        ensures at_limit { HasNoRoom self.old (count_of_results self.old.tables shape) → result ≡ Err BuildError.Full }
        ensures never_failed { result ≢ Err BuildError.Failed }
        ensures err { OnErr result (self.new ≡ self.old) }
    {
        let (block, previous) = self.place_before(next);
        self.insert_inst_behind(block, previous, shape, ctrl_type, srcloc)
    }

    /// Makes an instruction and puts it right behind the instruction `previous` of a block.
    ///
    /// It walks along nothing, and is otherwise as [`Function::insert_inst`] says.
    ///
    /// # Errors
    ///
    /// Those of [`Function::insert_inst`].
    pub fn insert_inst_after(
        &mut self,
        previous: Inst,
        shape: InstructionData,
        ctrl_type: Type,
        srcloc: SourceLoc,
    ) -> Result<Inst, BuildError>
        requires inst_exists { previous < length self.old.insts }
        requires operands_exist { EachIndex (operands shape) (λ k. slice_index (operands shape) k < length self.old.values) }
        requires edges_exist { All (EdgeExists self.old) (destinations shape) }
        requires contexts_exist { All (ValueExists self.old) (contexts shape) }
        requires entries_exist { All (EntryExists self.old.tables) (entries_of shape) }
        ensures ok { OnOk result (self.new ≡
            with_inst self.old (inst_at self.old previous).block (InsertAt.Behind (place_in_block self.old previous + 1)) shape (types_of_results self.old.tables shape ctrl_type) srcloc) }
        ensures number { IfOk result (λ i. i ≡ length self.old.insts) }
        ensures unaliased { OnOk result (resolved self.new (length self.old.values) ≡ length self.old.values) }
        ensures full { result ≡ Err BuildError.Full → HasNoRoom self.old (count_of_results self.old.tables shape) }
        ensures at_limit { HasNoRoom self.old (count_of_results self.old.tables shape) → result ≡ Err BuildError.Full }
        ensures never_failed { result ≢ Err BuildError.Failed }
        ensures err { OnErr result (self.new ≡ self.old) }
    {
        self.law_consistent();
        let block = self.insts[previous.index()].block;
        self.insert_inst_behind(block, Some(previous), shape, ctrl_type, srcloc)
    }
}
