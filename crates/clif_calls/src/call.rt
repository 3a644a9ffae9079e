//! The calls of a script, and the names of their answers.
ghost use Rattle.std.specs.Prelude.{◌≡◌};

use crate::entry::EntryCall;
use crate::immediate::ImmediateCall;
use crate::memory::MemoryCall;
use crate::straight::{Lender, StraightInstruction};
use crate::switch::SwitchEntry;
use crate::table::{TableEdge, TableItem, ThrowingCall};
use clif_records::Variable;
use clif_types::{IntCC, MemFlagsData, SourceLoc, TrapCode, Type, ValueLabel};

/// An answer of an earlier call: which call, and which of its answers.
///
/// An instruction answers its number and then its results, so answer 0 is the instruction and answer
/// `k + 1` its result `k`. The two calls that append parameters by the function's signature answer these from
/// 0 on. Every other call has at most answer 0. A call is misused if a name in it leads to no answer, or to one
/// of another kind than the call takes. All but variables are named so: blocks, values, instructions, edges, stack slots,
/// signatures, functions and tables. No name leads to what a memory helper imports, or to a table that a switch makes.
#[derive(Clone, Copy, Debug, PartialEq, Eq)]
pub struct Name {
    /// The place of the call in the script, from 0 on.
    pub place: usize,
    /// Which of its answers, from 0 on.
    pub answer: usize,
}

/// An edge of a branch: its target, and the values that are passed to the target's parameters, in order.
pub struct Edge {
    /// The block, which isn't sealed.
    pub block: Name,
    /// Values.
    pub args: Vec<Name>,
}

// By hand: a derived one is proved anew at each way out of a function that holds such a value.
impl Drop for Edge {
    fn drop(self) {
        let Edge { block: _, args: _ } = self;
    }
}

/// An instruction that neither branches nor ends its block, with names in place of values.
///
/// Each variant is the instruction of its name. `Store`, `StackStore`, `Trapz` and `Trapnz` have no result, `Isplit`
/// has two, and each other one has one. A stack slot is an answer of [`EntryCall::CreateSizedStackSlot`].
#[derive(Clone, Copy)]
pub enum PlainInstruction {
    /// `iconst.ty imm`, at a type of integers.
    Iconst {
        ty: Type,
        imm: i64,
    },
    /// `f16const bits`.
    F16const {
        bits: u16,
    },
    /// `f32const bits`.
    F32const {
        bits: u32,
    },
    /// `f64const bits`.
    F64const {
        bits: u64,
    },
    /// `iadd x, y`.
    Iadd {
        x: Name,
        y: Name,
    },
    /// `isub x, y`.
    Isub {
        x: Name,
        y: Name,
    },
    /// `imul x, y`.
    Imul {
        x: Name,
        y: Name,
    },
    /// `band x, y`.
    Band {
        x: Name,
        y: Name,
    },
    /// `bor x, y`.
    Bor {
        x: Name,
        y: Name,
    },
    /// `bxor x, y`.
    Bxor {
        x: Name,
        y: Name,
    },
    /// `ishl x, y`.
    Ishl {
        x: Name,
        y: Name,
    },
    /// `ushr x, y`.
    Ushr {
        x: Name,
        y: Name,
    },
    /// `sshr x, y`.
    Sshr {
        x: Name,
        y: Name,
    },
    /// `udiv x, y`.
    Udiv {
        x: Name,
        y: Name,
    },
    /// `sdiv x, y`.
    Sdiv {
        x: Name,
        y: Name,
    },
    /// `urem x, y`.
    Urem {
        x: Name,
        y: Name,
    },
    /// `srem x, y`.
    Srem {
        x: Name,
        y: Name,
    },
    /// `splat.ty x`, at a type of vectors.
    Splat {
        ty: Type,
        x: Name,
    },
    /// `uextend.ty x`, at a type of integers.
    Uextend {
        ty: Type,
        x: Name,
    },
    /// `sextend.ty x`, at a type of integers.
    Sextend {
        ty: Type,
        x: Name,
    },
    /// `ireduce.ty x`, at a type of integers.
    Ireduce {
        ty: Type,
        x: Name,
    },
    /// `iconcat x, y`, with the low half first.
    Iconcat {
        x: Name,
        y: Name,
    },
    /// `isplit x`, which answers the low half and then the high half.
    Isplit {
        x: Name,
    },
    /// `icmp cond x, y`.
    Icmp {
        cond: IntCC,
        x: Name,
        y: Name,
    },
    /// `select c, x, y`.
    Select {
        c: Name,
        x: Name,
        y: Name,
    },
    /// `ineg x`.
    Ineg {
        x: Name,
    },
    /// `bnot x`.
    Bnot {
        x: Name,
    },
    /// `load.ty flags p+offset`.
    Load {
        ty: Type,
        flags: MemFlagsData,
        p: Name,
        offset: i32,
    },
    /// `store flags x, p+offset`.
    Store {
        flags: MemFlagsData,
        x: Name,
        p: Name,
        offset: i32,
    },
    /// `stack_addr.ty slot+offset`, at a type of integers.
    StackAddr {
        ty: Type,
        slot: Name,
        offset: i32,
    },
    /// `stack_load.ty slot+offset`.
    StackLoad {
        ty: Type,
        slot: Name,
        offset: i32,
    },
    /// `stack_store x, slot+offset`.
    StackStore {
        x: Name,
        slot: Name,
        offset: i32,
    },
    /// `trapz c, code`, which traps if the operand is zero.
    Trapz {
        c: Name,
        code: TrapCode,
    },
    /// `trapnz c, code`, which traps if the operand isn't zero.
    Trapnz {
        c: Name,
        code: TrapCode,
    },
}

/// One call on a builder, with names in place of what earlier calls answered.
///
/// Each variant but `Entry`, `Straight`, `Immediate`, `Memory`, `Switch` and `Throwing` is the builder's method, or the instruction, of
/// its name, and has its conditions. A variable is named by its number.
pub enum Call {
    /// `create_block()`: answers the block.
    CreateBlock,
    /// `switch_to_block(block)`: answers nothing. The block isn't filled, and the current block, if there
    /// is one, is pristine, filled or unreachable.
    SwitchToBlock {
        block: Name,
    },
    /// `seal_block(block)`: answers nothing. The block isn't sealed.
    SealBlock {
        block: Name,
    },
    /// `seal_all_blocks()`: answers nothing. Blocks that are sealed stay so.
    SealAllBlocks,
    /// `insert_block_after(block, after)`: answers nothing. The first block isn't in the layout, and the
    /// second one is.
    InsertBlockAfter {
        block: Name,
        after: Name,
    },
    /// `set_cold_block(block)`: answers nothing. It has no condition but that the name leads to a block.
    SetColdBlock {
        block: Name,
    },
    /// `ensure_inserted_block()`: answers nothing. There is a current block that isn't filled.
    EnsureInsertedBlock,
    /// `append_block_param(block, ty)`: answers the value. Nothing was made in the block.
    AppendBlockParam {
        block: Name,
        ty: Type,
    },
    /// `append_block_params_for_function_params(block)`: answers each value, in order. Nothing was made in the
    /// block, and no branch leads to it.
    AppendBlockParamsForFunctionParams {
        block: Name,
    },
    /// `append_block_params_for_function_returns(block)`: answers each value, in order. Nothing was made in the
    /// block.
    AppendBlockParamsForFunctionReturns {
        block: Name,
    },
    /// A call that makes an entry of a table: answers the entry.
    Entry(EntryCall),
    /// `block_call(block, args)`: answers the edge, which a table may be made of. Its target exists, and what it
    /// passes.
    BlockCall {
        edge: TableEdge,
    },
    /// `create_jump_table(JumpTableData::new(default, entries))`: answers the table. The names are answers of
    /// [`Call::BlockCall`].
    CreateJumpTable {
        default: Name,
        entries: Vec<Name>,
    },
    /// `create_exception_table(ExceptionTableData { sig, normal, items })`: answers the table. The names of edges are
    /// answers of [`Call::BlockCall`], and the signature is one that was imported.
    CreateExceptionTable {
        signature: Name,
        normal: Name,
        items: Vec<TableItem>,
    },
    /// `declare_var(ty)`: answers the variable, which is numbered from 0 on. The type is any but `Invalid`.
    DeclareVar {
        ty: Type,
    },
    /// `declare_var_needs_stack_map(variable)`: answers nothing. The variable is declared, was neither used nor assigned so
    /// far, and has a type of 1 to 16 bytes.
    DeclareVarNeedsStackMap {
        variable: Variable,
    },
    /// `declare_value_needs_stack_map(value)`: answers nothing. The value has a type of 1 to 16 bytes.
    DeclareValueNeedsStackMap {
        value: Name,
    },
    /// `def_var(variable, value)`: answers nothing. The variable is declared, the value has its type, and
    /// there is a current block that isn't filled.
    DefVar {
        variable: Variable,
        value: Name,
    },
    /// `use_var(variable)`: answers the value. The variable is declared, and there is a current block that
    /// isn't filled.
    UseVar {
        variable: Variable,
    },
    /// `try_def_var(variable, value)`: answers nothing. There is a current block that isn't filled. Refused where the
    /// variable isn't declared, or has another type than the value.
    TryDefVar {
        variable: Variable,
        value: Name,
    },
    /// `try_use_var(variable)`: answers the value. There is a current block that isn't filled. Refused where the
    /// variable isn't declared.
    TryUseVar {
        variable: Variable,
    },
    /// An instruction that ends no block, made through `ins()` or `cursor()`. There is a current block that isn't filled, as for
    /// each instruction.
    Straight(Lender, StraightInstruction),
    /// An instruction with a constant as an operand, which makes the constant and the plain instruction: its answer 0 is the
    /// value.
    Immediate(ImmediateCall),
    /// A copy, a fill or a comparison of bytes, in a current block that isn't filled: its answer 0 is the value, if it compares.
    Memory(MemoryCall),
    /// `set_srcloc(srcloc)`: answers nothing, and has no condition. Each later instruction gets this place in the source.
    SetSrcloc {
        srcloc: SourceLoc,
    },
    /// `collect_debug_info()`: answers nothing, and has no condition. Labels of values are kept from here on.
    CollectDebugInfo,
    /// `set_val_label(value, label)`: answers nothing. It has no condition but that the name leads to a value.
    SetValLabel {
        value: Name,
        label: ValueLabel,
    },
    /// `change_jump_destination(branch, from, to)`: answers nothing. The branch is an instruction that leads to the block
    /// `from`, and neither block is sealed; they may be one block.
    ChangeJumpDestination {
        branch: Name,
        from: Name,
        to: Name,
    },
    /// `jump destination`, an instruction without results, which fills the block.
    Jump {
        destination: Edge,
    },
    /// `brif condition, block_then, block_else`, an instruction without results, which fills the block: control
    /// goes along the first edge where the condition isn't zero, and else along the second.
    Brif {
        condition: Name,
        block_then: Edge,
        block_else: Edge,
    },
    /// `br_table index, table`, an instruction without results, which fills the block: control goes along the entry whose
    /// number the index is, and along the default where there is none. The table served no instruction before, and no target of
    /// its edges is sealed.
    BrTable {
        index: Name,
        table: Name,
    },
    /// `Switch::new`, `set_entry` for each entry, in this order, and `emit(value, otherwise)`: answers nothing, and fills the
    /// block, behind which there is no current one. Control goes to the block of the entry whose key the value is, as an
    /// unsigned number, and to `otherwise` where there is none. The value is an integer, and no target is sealed. Refused
    /// where a key comes twice, where a key is no number of the value's type, and where 2^32 keys or more follow one another.
    Switch {
        entries: Vec<SwitchEntry>,
        value: Name,
        otherwise: Name,
    },
    /// A call along the edges of an exception table, an instruction without results, which fills the block.
    Throwing(ThrowingCall),
    /// `return values`, an instruction without results, which fills the block.
    Return {
        values: Vec<Name>,
    },
    /// `trap code`, an instruction without operands and results, which fills the block.
    Trap {
        code: TrapCode,
    },
}

// By hand: a derived one is proved anew at each way out of a function that holds such a value.
impl Drop for Call {
    fn drop(self) {
        match self {
            Call::CreateBlock => {}
            Call::SwitchToBlock { block: _ } => {}
            Call::SealBlock { block: _ } => {}
            Call::SealAllBlocks => {}
            Call::InsertBlockAfter { block: _, after: _ } => {}
            Call::SetColdBlock { block: _ } => {}
            Call::EnsureInsertedBlock => {}
            Call::AppendBlockParam { block: _, ty: _ } => {}
            Call::AppendBlockParamsForFunctionParams { block: _ } => {}
            Call::AppendBlockParamsForFunctionReturns { block: _ } => {}
            Call::Entry(_) => {}
            Call::BlockCall { edge: _ } => {}
            Call::CreateJumpTable {
                default: _,
                entries: _,
            } => {}
            Call::CreateExceptionTable {
                signature: _,
                normal: _,
                items: _,
            } => {}
            Call::DeclareVar { ty: _ } => {}
            Call::DeclareVarNeedsStackMap { variable: _ } => {}
            Call::DeclareValueNeedsStackMap { value: _ } => {}
            Call::DefVar {
                variable: _,
                value: _,
            } => {}
            Call::UseVar { variable: _ } => {}
            Call::TryDefVar {
                variable: _,
                value: _,
            } => {}
            Call::TryUseVar { variable: _ } => {}
            Call::Straight(_, _) => {}
            Call::Immediate(_) => {}
            Call::Memory(_) => {}
            Call::SetSrcloc { srcloc: _ } => {}
            Call::CollectDebugInfo => {}
            Call::SetValLabel { value: _, label: _ } => {}
            Call::ChangeJumpDestination {
                branch: _,
                from: _,
                to: _,
            } => {}
            Call::Jump { destination: _ } => {}
            Call::Brif {
                condition: _,
                block_then: _,
                block_else: _,
            } => {}
            Call::BrTable { index: _, table: _ } => {}
            Call::Switch {
                entries: _,
                value: _,
                otherwise: _,
            } => {}
            Call::Throwing(_) => {}
            Call::Return { values: _ } => {}
            Call::Trap { code: _ } => {}
        }
    }
}

impl Call {
    /// The instruction, made through `ins()`.
    pub fn plain(instruction: PlainInstruction) -> Call
        ensures { result ≡ Call.Straight Lender.Ins (StraightInstruction.Plain instruction) }
    {
        Call::Straight(Lender::Ins, StraightInstruction::Plain(instruction))
    }
}
