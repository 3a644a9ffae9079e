//! The rows of a function's tables: values, instructions and blocks.
use crate::inst_links::InstLink;
use clif_instructions::instructions::InstructionData;
use clif_instructions::value_list::ValueList;
use clif_types::{Block, Inst, SourceLoc, Type, Value};

/// Where a value comes from, as its table says it.
#[derive(Clone, Copy, Debug, PartialEq, Eq)]
pub enum ValueOrigin {
    /// The result of an instruction, at this place among its results.
    Result(Inst, u32),
    /// A parameter of a block.
    Param(Block),
    /// Another name of a value.
    Alias(Value),
}

/// A value: its type and where it comes from.
#[derive(Clone, Copy, Debug, PartialEq, Eq)]
pub struct ValueNode {
    pub ty: Type,
    pub origin: ValueOrigin,
}

const _: () = prove!(size_of::<ValueNode>() == 16);

/// An instruction with its results, its block and its source place.
pub struct InstNode {
    pub shape: InstructionData,
    pub results: ValueList,
    pub block: Block,
    pub srcloc: SourceLoc,
}

// By hand: a derived one is proved anew at each way out of a function that holds such a value.
impl Drop for InstNode {
    fn drop(self) {
        let InstNode {
            shape: _,
            results: _,
            block: _,
            srcloc: _,
        } = self;
    }
}

const _: () = prove!(size_of::<InstNode>() == 80);

/// A block: its parameters, the first and the last of its instructions, how many these are, and whether it is seldom
/// reached.
pub struct BlockData {
    pub params: ValueList,
    pub first_inst: InstLink,
    pub last_inst: InstLink,
    pub inst_count: u32,
    pub is_cold: bool,
}

// By hand: a derived one is proved anew at each way out of a function that holds such a value.
impl Drop for BlockData {
    fn drop(self) {
        let BlockData {
            params: _,
            first_inst: _,
            last_inst: _,
            inst_count: _,
            is_cold: _,
        } = self;
    }
}

const _: () = prove!(size_of::<BlockData>() == 32);

/// Where a block stands in the layout: the block after it, and whether it is in the layout.
#[derive(Clone, Copy)]
pub struct BlockPlace {
    pub next: Option<Block>,
    pub is_inserted: bool,
}
