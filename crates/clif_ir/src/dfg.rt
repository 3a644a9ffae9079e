//! The calls that make blocks, parameters, instructions and aliases.
//!
//! Each call first makes room and then changes, so that after an error the function is as it was. The
//! errors are `Memory`, where memory was refused, and `Full`, which comes exactly where a table that
//! the call grows holds 2^32 - 1 entries already, or has fewer numbers left than the call gives.
ghost use Rattle.std.specs.Prelude.{◌≡◌, ◌≢◌, length, ◌-◌, ◌^◌, ◌<◌, slice_index, EachIndex, All, IfOk, IfSome, OnOk, OnErr};
ghost use Rattle.clif_ir.specs.Body.{Body, value_at, block_at, resolved};
ghost use Rattle.clif_instructions.specs.Members.{Stands, IsPlaceOf};
ghost use Rattle.clif_ir.specs.Consistent.{EdgeExists, EntryExists, ValueExists};
ghost use Rattle.clif_instructions.specs.Instruction.{contexts, entries_of, operands, destinations};
ghost use Rattle.clif_tables.specs.Callees.{count_of_results, types_of_results};
ghost use Rattle.clif_ir.specs.Whole.{place_behind};
ghost use Rattle.clif_ir.specs.Changes.{HasNoRoom, with_block, with_param, with_inst, with_branch_argument, with_alias, home_of};

use crate::function::Function;
use clif_instructions::insert_at::InsertAt;
use clif_instructions::instructions::InstructionData;
use clif_instructions::value_list::ValueList;
use clif_nodes::growth::{next_value, push_results, room_for_inst};
use clif_nodes::placing::{link_between, links_behind, put_between};
use clif_nodes::{BlockData, BlockPlace, InstLink, InstNode, ValueNode, ValueOrigin};
use clif_tables::primary_map::next_number;
use clif_types::{Block, BuildError, EntityRef, Inst, SourceLoc, Type, Value};

impl Function {
    /// Makes a block without parameters and instructions, which isn't in the layout yet.
    ///
    /// It gets the next number.
    ///
    /// # Errors
    ///
    /// `Memory`, where memory is refused, or `Full`, where there are 2^32 - 1 blocks. The function is as it was then.
    #[inline(always)]
    pub fn create_block(&mut self) -> Result<Block, BuildError>
        ensures ok { OnOk result (self.new ≡ with_block self.old) }
        ensures number { IfOk result (λ b. b ≡ length self.old.blocks) }
        ensures full { result ≡ Err BuildError.Full → length self.old.blocks ≡ 2 ^ 32 - 1 }
        ensures at_limit { length self.old.blocks ≡ 2 ^ 32 - 1 → result ≡ Err BuildError.Full }
        ensures never_failed { result ≢ Err BuildError.Failed }
        ensures err { OnErr result (self.new ≡ self.old) }
    {
        let number = next_number(self.blocks.len())?;
        self.blocks.reserve(1)?;
        self.block_places.reserve(1)?;
        // From here on nothing can fail.
        self.blocks.push_reserved(BlockData {
            params: ValueList::new(self.alloc),
            first_inst: InstLink::new(None),
            last_inst: InstLink::new(None),
            inst_count: 0,
            is_cold: false,
        });
        self.block_places.push_reserved(BlockPlace {
            next: None,
            is_inserted: false,
        });
        Ok(Block::from_u32(number))
    }

    /// Puts a parameter of type `ty` at the end of those of `block`.
    ///
    /// It gets the next number of a value.
    ///
    /// # Errors
    ///
    /// `Memory`, where memory is refused, or `Full`, where there are 2^32 - 1 values. The function is as it was then.
    #[inline(always)]
    pub fn append_block_param(&mut self, block: Block, ty: Type) -> Result<Value, BuildError>
        requires { block < length self.old.blocks }
        ensures ok { OnOk result (self.new ≡ with_param self.old block ty) }
        ensures number { IfOk result (λ v. v ≡ length self.old.values) }
        ensures full { result ≡ Err BuildError.Full → length self.old.values ≡ 2 ^ 32 - 1 }
        ensures at_limit { length self.old.values ≡ 2 ^ 32 - 1 → result ≡ Err BuildError.Full }
        ensures never_failed { result ≢ Err BuildError.Failed }
        ensures err { OnErr result (self.new ≡ self.old) }
    {
        let value = next_value(&mut self.values)?;
        self.blocks[block.index()].params.push(value)?;
        let origin = ValueOrigin::Param(block);
        self.values.push_reserved(ValueNode { ty, origin });
        Ok(value)
    }

    /// Makes an instruction and puts it into `block`. To find its place costs a step for each instruction before it,
    /// and one at the back. Behind or before an instruction that is known, [`Function::insert_inst_after`] and
    /// [`Function::insert_inst_before`] find it in a step.
    ///
    /// It gets the next number of an instruction, and its results get the next numbers of values. Their types come
    /// from `ctrl_type`, its controlling type, which is `Type::Invalid` where it has none, and for a call from the
    /// signature that it names.
    ///
    /// # Errors
    ///
    /// `Memory`, where memory is refused, or `Full`, where there are 2^32 - 1 instructions or 2^32 - 1 values, and so
    /// for an instruction without results too, or where fewer numbers of values are left than there are results. The
    /// function is as it was then.
    #[inline(always)]
    pub fn insert_inst(
        &mut self,
        block: Block,
        at: InsertAt,
        shape: InstructionData,
        ctrl_type: Type,
        srcloc: SourceLoc,
    ) -> Result<Inst, BuildError>
        requires block_exists { block < length self.old.blocks }
        requires place_exists { IsPlaceOf at (length (block_at self.old block).insts) }
        requires operands_exist { EachIndex (operands shape) (λ k. slice_index (operands shape) k < length self.old.values) }
        requires edges_exist { All (EdgeExists self.old) (destinations shape) }
        requires contexts_exist { All (ValueExists self.old) (contexts shape) }
        requires entries_exist { All (EntryExists self.old.tables) (entries_of shape) }
        ensures ok { OnOk result (self.new ≡
            with_inst self.old block at shape (types_of_results self.old.tables shape ctrl_type) srcloc) }
        ensures number { IfOk result (λ i. i ≡ length self.old.insts) }
        ensures unaliased { OnOk result (resolved self.new (length self.old.values) ≡ length self.old.values) }
        ensures full { result ≡ Err BuildError.Full → HasNoRoom self.old (count_of_results self.old.tables shape) }
        ensures at_limit { HasNoRoom self.old (count_of_results self.old.tables shape) → result ≡ Err BuildError.Full }
        ensures never_failed { result ≢ Err BuildError.Failed }
        ensures err { OnErr result (self.new ≡ self.old) }
    {
        self.law_consistent();
        let previous = self.inst_before_place(block, at);
        self.insert_inst_behind(block, previous, shape, ctrl_type, srcloc)
    }

    // Makes an instruction and puts it right behind `previous`, or at the front of `block` where that is none.
    #[inline(always)]
    pub(crate) fn insert_inst_behind(
        &mut self,
        block: Block,
        previous: Option<Inst>,
        shape: InstructionData,
        ctrl_type: Type,
        srcloc: SourceLoc,
    ) -> Result<Inst, BuildError>
        requires block_exists { block < length self.old.blocks }
        requires previous_stands { IfSome previous (λ previous. Stands previous (block_at self.old block).insts) }
        requires operands_exist { EachIndex (operands shape) (λ k. slice_index (operands shape) k < length self.old.values) }
        requires edges_exist { All (EdgeExists self.old) (destinations shape) }
        requires contexts_exist { All (ValueExists self.old) (contexts shape) }
        requires entries_exist { All (EntryExists self.old.tables) (entries_of shape) }
        ensures ok { OnOk result (self.new ≡ with_inst self.old block
            (InsertAt.Behind (place_behind previous (block_at self.old block).insts))
            shape (types_of_results self.old.tables shape ctrl_type) srcloc) }
        ensures number { IfOk result (λ i. i ≡ length self.old.insts) }
        ensures unaliased { OnOk result (resolved self.new (length self.old.values) ≡ length self.old.values) }
        ensures full { result ≡ Err BuildError.Full → HasNoRoom self.old (count_of_results self.old.tables shape) }
        ensures at_limit { HasNoRoom self.old (count_of_results self.old.tables shape) → result ≡ Err BuildError.Full }
        ensures never_failed { result ≢ Err BuildError.Failed }
        ensures err { OnErr result (self.new ≡ self.old) }
    {
        let kinds = shape.result_kinds();
        let given = self.tables.given_by_call(&shape);
        let results = room_for_inst(
            self.alloc,
            &mut self.values,
            &mut self.insts,
            &mut self.inst_links,
            kinds.len() + given.len(),
        )?;
        // From here on nothing can fail.
        let inst = Inst::new(self.insts.len());
        let links = links_behind(&self.blocks[block.index()], &self.inst_links, previous);
        put_between(&mut self.blocks, block, inst, &links);
        link_between(&mut self.inst_links, links, inst);
        push_results(&mut self.values, inst, ctrl_type, kinds, given);
        self.insts.push_reserved(InstNode {
            shape,
            results,
            block,
            srcloc,
        });
        Ok(inst)
    }

    /// Puts `value` at the end of what each edge of branch `inst` passes that goes to `block`.
    ///
    /// # Errors
    ///
    /// `Memory`, where memory is refused. The function is as it was then.
    pub fn append_branch_argument(
        &mut self,
        inst: Inst,
        block: Block,
        value: Value,
    ) -> Result<(), BuildError>
        requires inst_exists { inst < length self.old.insts }
        requires value_exists { value < length self.old.values }
        ensures ok { OnOk result (self.new ≡ with_branch_argument self.old inst block value) }
        ensures only_memory { OnErr result (result ≡ Err BuildError.Memory) }
        ensures err { OnErr result (self.new ≡ self.old) }
    {
        self.insts[inst.index()]
            .shape
            .append_argument(block, value)?;
        Ok(())
    }

    /// Takes parameter `param` away from its block and makes it another name of what `original` stands for. What
    /// named `param` names it still.
    ///
    /// `original` mustn't stand for `param` itself, so that aliases never run in a circle.
    ///
    /// # Errors
    ///
    /// `Memory`, where memory is refused. The function is as it was then.
    pub fn change_param_to_alias(&mut self, param: Value, original: Value) -> Result<(), BuildError>
        requires param_exists { param < length self.old.values }
        requires is_param { (value_at self.old param).origin ≡ ValueOrigin.Param (home_of (value_at self.old param).origin) }
        requires original_exists { original < length self.old.values }
        requires apart { resolved self.old original ≢ param }
        ensures ok { OnOk result (self.new ≡ with_alias self.old param original) }
        ensures only_memory { OnErr result (result ≡ Err BuildError.Memory) }
        ensures err { OnErr result (self.new ≡ self.old) }
    {
        let target = self.resolve_aliases(original);
        let block = self.param_block(param);
        self.aliases.insert(target, param)?;
        // From here on nothing can fail.
        self.blocks[block.index()].params.remove(param);
        self.values[param.index()].origin = ValueOrigin::Alias(target);
        Ok(())
    }

    // The block of a parameter.
    fn param_block(&self, param: Value) -> Block
        requires param_exists { param < length self.now.values }
        requires is_param { (value_at self.now param).origin ≡ ValueOrigin.Param (home_of (value_at self.now param).origin) }
        ensures exact { result ≡ home_of (value_at self.now param).origin }
        ensures exists { result < length self.now.blocks }
        ensures stands { Stands param (block_at self.now result).params }
    {
        match self.values[param.index()].origin {
            ValueOrigin::Param(block) => block,
            ValueOrigin::Result(..) | ValueOrigin::Alias(_) => unreachable!(),
        }
    }
}
