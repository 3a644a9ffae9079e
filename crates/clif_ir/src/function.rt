//! Functions: their tables, and the calls that read them.
ghost use Rattle.std.specs.Prelude.{◌≡◌, length, ◌<◌, ◌^◌, IfSome, IsSome, None, EachIndex, All, slice_index};
ghost use Rattle.clif_ir.specs.Body.{empty_body, empty_function, value_at, inst_at, block_at, resolved, alias_of};
ghost use Rattle.clif_ir.specs.Consistent.{IsConsistent, EdgeExists, ValueExists};
ghost use Rattle.clif_instructions.specs.Instruction.{contexts, operands, destinations};
ghost use Rattle.clif_ir.specs.Reading.{def_of, DefExists, param_home};

use clif_instructions::instructions::InstructionData;
use clif_nodes::aliases::AliasTable;
use clif_nodes::{BlockData, BlockPlace, InstLinks, InstNode, ValueNode, ValueOrigin};
use clif_tables::Tables;
use clif_types::{
    Block, CallConv, EntityRef, Inst, Signature, SourceLoc, Type, UserFuncName, Value,
};
use std::alloc::Global;
use std::marker::Model;

/// What defines the value that a value stands for.
#[derive(Clone, Copy, Debug, PartialEq, Eq)]
pub enum ValueDef {
    /// It is the result of an instruction, at this place among its results.
    Result(Inst, usize),
    /// It is a parameter of a block, at this place among its parameters.
    Param(Block, usize),
}

/// A function: blocks with parameters, instructions and values.
///
/// Contracts see it as a record of lists. The layout is kept as links from each block to the next, and the
/// instructions of a block as links from each to the one before it and the one after it, so that a block is
/// put behind any other in a step, and so is an instruction before or behind any other. Beside these it keeps
/// what makes some questions cheap, and what no contract speaks of: the ends and the number of each block's
/// instructions, and each value's aliases in order.
pub struct Function {
    pub(crate) alloc: Global,
    pub(crate) name: UserFuncName,
    pub(crate) signature: Signature,
    pub(crate) values: Vec<ValueNode>,
    pub(crate) insts: Vec<InstNode>,
    pub(crate) blocks: Vec<BlockData>,
    pub(crate) first_block: Option<Block>,
    pub(crate) last_block: Option<Block>,
    pub(crate) inst_links: Vec<InstLinks>,
    pub(crate) block_places: Vec<BlockPlace>,
    pub(crate) aliases: AliasTable,
    pub(crate) tables: Tables,
}

impl Model for Function {
    ghost use Rattle.clif_ir.specs.Body.{Body};

    ghost Value = { Body };

    ghost use Rattle.clif_ir.specs.Whole.{body_of, IsWhole};

    ghost view = { body_of };

    ghost invariant = { IsWhole };
}

// Written by hand, so that whoever drops a function meets one call and not the fields.
impl Drop for Function {
    fn drop(self) {
        let Function {
            alloc: _,
            name: _,
            signature: _,
            values: _,
            insts: _,
            blocks: _,
            first_block: _,
            last_block: _,
            inst_links: _,
            block_places: _,
            aliases: _,
            tables: _,
        } = self;
    }
}

impl Function {
    /// The function that cranelift's IR calls empty: `u0:0`, without parameters, returned values and blocks,
    /// by the convention `fast`.
    pub fn new(alloc: Global) -> Self
        ensures { result ≡ empty_function }
    {
        let signature = Signature::new(alloc, CallConv::Fast);
        Function::with_name_signature(alloc, UserFuncName::user(0, 0), signature)
    }

    /// A function of this name and signature, without blocks.
    pub fn with_name_signature(alloc: Global, name: UserFuncName, signature: Signature) -> Self
        ensures { result ≡ empty_body name signature }
    {
        Function {
            alloc,
            name,
            signature,
            values: Vec::new(alloc),
            insts: Vec::new(alloc),
            blocks: Vec::new(alloc),
            first_block: None,
            last_block: None,
            inst_links: Vec::new(alloc),
            block_places: Vec::new(alloc),
            aliases: AliasTable::new(alloc),
            tables: Tables::new(alloc),
        }
    }

    /// The law that every function is consistent: its numbers name what exists, a value knows where
    /// it comes from, an instruction stands in one block and a block in the layout at most once, and
    /// each way along aliases ends.
    pub fn law_consistent(&self)
        ensures { IsConsistent self.now }
    {
        // The invariant is known where a field is read.
        let _ = &self.alloc;
    }

    /// The parameters of a block, in order, without those that became aliases.
    pub fn block_params(&self, block: Block) -> &[Value]
        requires { block < length self.now.blocks }
        ensures exact { result.now ≡ (block_at self.now block).params }
        ensures exist { EachIndex result.now (λ k. slice_index result.now k < length self.now.values) }
    {
        self.blocks[block.index()].params.as_slice()
    }

    /// The results of an instruction, in order; none where it is a terminator.
    pub fn inst_results(&self, inst: Inst) -> &[Value]
        requires { inst < length self.now.insts }
        ensures exact { result.now ≡ (inst_at self.now inst).results }
        ensures exist { EachIndex result.now (λ k. slice_index result.now k < length self.now.values) }
    {
        self.insts[inst.index()].results.as_slice()
    }

    /// What an instruction does, and with which operands.
    pub fn inst_data(&self, inst: Inst) -> &InstructionData
        requires { inst < length self.now.insts }
        ensures exact { result.now ≡ (inst_at self.now inst).shape }
        ensures operands_exist { EachIndex (operands result.now) (λ k. slice_index (operands result.now) k < length self.now.values) }
        ensures contexts_exist { All (ValueExists self.now) (contexts result.now) }
        ensures edges_exist { All (EdgeExists self.now) (destinations result.now) }
    {
        &self.insts[inst.index()].shape
    }

    /// The type of a value, which it has for good.
    pub fn value_type(&self, value: Value) -> Type
        requires { value < length self.now.values }
        ensures { result ≡ (value_at self.now value).ty }
    {
        self.values[value.index()].ty
    }

    /// The value that `value` is another name of, if it is one.
    pub(crate) fn alias_original(&self, value: Value) -> Option<Value>
        requires { value < length self.now.values }
        ensures exact { result ≡ alias_of self.now.values value }
        ensures exists { IfSome result (λ original. original < length self.now.values) }
    {
        match self.values[value.index()].origin {
            ValueOrigin::Alias(original) => Some(original),
            ValueOrigin::Result(..) | ValueOrigin::Param(_) => None,
        }
    }

    /// The value that `value` stands for: the end of the way along its aliases.
    pub fn resolve_aliases(&self, value: Value) -> Value
        requires { value < length self.now.values }
        ensures exact { result ≡ resolved self.now value }
        ensures exists { result < length self.now.values }
        ensures no_alias { alias_of self.now.values result ≡ None }
    {
        let mut resolved = value;
        for _ in 0..self.values.len() {
            let Some(original) = self.alias_original(resolved) else {
                return resolved;
            };
            resolved = original;
        }
        resolved
    }

    /// What defines the value that `value` stands for.
    pub fn value_def(&self, value: Value) -> ValueDef
        requires { value < length self.now.values }
        ensures exact { result ≡ def_of self.now (resolved self.now value) (value_at self.now (resolved self.now value)).origin }
        ensures exists { DefExists self.now result }
    {
        let resolved = self.resolve_aliases(value);
        match self.values[resolved.index()].origin {
            ValueOrigin::Result(inst, place) => ValueDef::Result(inst, place as usize),
            ValueOrigin::Param(block) => {
                let params = &self.blocks[block.index()].params;
                ValueDef::Param(block, params.place_of(resolved))
            }
            ValueOrigin::Alias(_) => unreachable!(),
        }
    }

    /// The source place that was given where an instruction was made.
    pub fn srcloc(&self, inst: Inst) -> SourceLoc
        requires { inst < length self.now.insts }
        ensures { result ≡ (inst_at self.now inst).srcloc }
    {
        self.insts[inst.index()].srcloc
    }

    /// The name of the function.
    pub fn name(&self) -> &UserFuncName
        ensures { result.now ≡ self.now.name }
    {
        &self.name
    }

    /// The signature of the function.
    pub fn signature(&self) -> &Signature
        ensures { result.now ≡ self.now.signature }
    {
        &self.signature
    }

    /// The block of which `value` is a parameter, if there is such a value and it is one.
    pub fn param_home(&self, value: Value) -> Option<Block>
        ensures exact { result ≡ param_home self.now value }
        ensures known { IsSome result → value < length self.now.values }
        ensures exists { IfSome result (λ block. block < length self.now.blocks) }
    {
        let node = self.values.get(value.index())?;
        match node.origin {
            ValueOrigin::Param(block) => Some(block),
            ValueOrigin::Result(..) | ValueOrigin::Alias(_) => None,
        }
    }

    /// How many blocks there are.
    pub fn block_count(&self) -> usize
        ensures exact { result ≡ length self.now.blocks }
        ensures fits { result < 2 ^ 32 }
    {
        self.blocks.len()
    }

    /// How many instructions there are, which are numbered from 0 on.
    pub fn inst_count(&self) -> usize
        ensures exact { result ≡ length self.now.insts }
        ensures fits { result < 2 ^ 32 }
    {
        self.insts.len()
    }

    /// How many values there are, aliases among them, which are numbered from 0 on.
    pub fn value_count(&self) -> usize
        ensures exact { result ≡ length self.now.values }
        ensures fits { result < 2 ^ 32 }
    {
        self.values.len()
    }

    /// The allocator that the function grows by.
    pub fn allocator(&self) -> Global {
        self.alloc
    }
}
