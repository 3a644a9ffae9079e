//! Instructions: their shapes, operands and results.
ghost use Rattle.std.specs.Prelude.{◌≡◌, ◌<◌, length, option_copied, slice_set, OnOk, OnErr};
ghost use Rattle.clif_opcodes.specs.Typing.{float_const_row, pooled_const_row};
ghost use Rattle.clif_instructions.specs.Edges.{edge_at, with_passed_at, with_target_changed};
ghost use Rattle.clif_instructions.specs.Instruction.{operands, destinations, with_argument, with_targets_changed, with_edge, with_edge_argument, with_context, with_operand, items_of, exception_table, has_result, is_branch, is_terminator, opcode_of, typing_of};

use crate::block_call::BlockCall;
use crate::edges::{
    append_to_edge, append_to_edges, redirect_edge, redirect_edges, set_argument, set_argument_at,
    set_edge_at,
};
use crate::exception_table::ExceptionTargets;
use crate::jump_table::JumpTableData;
use crate::value_list::{ValueList, set_value};
use clif_opcodes::{
    BinaryOpcode, CondTrapOpcode, Control, ConvertOpcode, FloatConstOpcode, Opcode,
    PooledConstOpcode, ResultKind, StackOpcode, UnaryOpcode,
};
use clif_types::types::{F16, F32, F64, F128, I8};
use clif_types::{
    Block, BuildError, Constant, FuncRef, IntCC, MemFlagsData, SigRef, StackSlot, TrapCode, Value,
};
use std::slice;

/// An instruction without its results and its place: what it does, and with which operands.
///
/// The controlling type, which tells the types of the results, is given where an instruction is made.
pub enum InstructionData {
    /// `iconst.T imm`: the low bits of a 64-bit number.
    UnaryImm {
        imm: i64,
    },
    /// `f32const bits` and the like: the bits of a float, of which those above its width are zero.
    UnaryIeee {
        opcode: FloatConstOpcode,
        bits: u64,
    },
    /// `vconst.T constant` and `f128const constant`: the bytes of a pooled constant, the lowest first.
    UnaryConst {
        opcode: PooledConstOpcode,
        constant: Constant,
    },
    /// `ineg x` and the like.
    Unary {
        opcode: UnaryOpcode,
        arg: Value,
    },
    /// `iadd x, y` and the like.
    Binary {
        opcode: BinaryOpcode,
        args: [Value; 2],
    },
    /// `icmp cond x, y`: 1 if the condition holds of the two integers, and 0 otherwise.
    IntCompare {
        cond: IntCC,
        args: [Value; 2],
    },
    /// `iconcat x, y`: the integer of twice the width, with `x` as its low half and `y` as its high half.
    Concat {
        args: [Value; 2],
    },
    /// `isplit x`: the low half of an integer and its high half, each of half its width.
    Split {
        arg: Value,
    },
    /// `uextend.T x` and the like: the result has a type that is given.
    Convert {
        opcode: ConvertOpcode,
        arg: Value,
    },
    /// `select c, x, y`: `x` if `c` isn't zero, otherwise `y`.
    Ternary {
        args: [Value; 3],
    },
    /// `load.T flags p+offset`: what is in memory at an address.
    Load {
        flags: MemFlagsData,
        arg: Value,
        offset: i32,
    },
    /// `store flags x, p+offset`: puts `x` into memory at an address. `args` are `x` and `p`.
    Store {
        flags: MemFlagsData,
        args: [Value; 2],
        offset: i32,
    },
    /// `stack_addr.T slot+offset`: where a stack slot is, and `stack_load.T slot+offset`: what is in memory there.
    StackLoad {
        opcode: StackOpcode,
        slot: StackSlot,
        offset: i32,
    },
    /// `stack_store x, slot+offset`: puts `x` into memory where a stack slot is.
    StackStore {
        arg: Value,
        slot: StackSlot,
        offset: i32,
    },
    /// `jump block(x, ..)`: goes along its one edge.
    Jump {
        destination: BlockCall,
    },
    /// `brif c, block(x, ..), block(y, ..)`: goes along the first edge if `c` isn't zero, otherwise along the
    /// second.
    Brif {
        arg: Value,
        blocks: [BlockCall; 2],
    },
    /// `br_table x, default, [block(y, ..), ..]`: goes along the entry with the number `x`, counted from 0, or along the
    /// default if there is no such entry.
    BranchTable {
        arg: Value,
        table: JumpTableData,
    },
    /// `return x, ..`: ends the function with these values.
    MultiAry {
        args: ValueList,
    },
    /// `trap code`: ends the run with a trap.
    Trap {
        code: TrapCode,
    },
    /// `trapz x, code` and `trapnz x, code`: ends the run with a trap if `x` is zero, or if it isn't.
    CondTrap {
        opcode: CondTrapOpcode,
        arg: Value,
        code: TrapCode,
    },
    /// `call function(x, ..)`: calls a function that was imported. Its results are what the function's signature
    /// returns.
    Call {
        func_ref: FuncRef,
        args: ValueList,
    },
    /// `call_indirect sig, p(x, ..)`: calls what is at an address, by a signature that was imported. `args` are the
    /// address and then the arguments. Its results are what the signature returns.
    CallIndirect {
        sig_ref: SigRef,
        args: ValueList,
    },
    /// `try_call function(x, ..), sig, block(ret0, ..), [tag0: block(exn0, ..), ..]`: calls a function that was
    /// imported, and goes along the normal edge when it returns, or along that of an item when it throws. It has no
    /// results: what the signature returns is passed along the normal edge.
    TryCall {
        func_ref: FuncRef,
        args: ValueList,
        exception: ExceptionTargets,
    },
    /// `try_call_indirect p(x, ..), sig, ..`: the same for what is at an address. `args` are the address and then the
    /// arguments.
    TryCallIndirect {
        args: ValueList,
        exception: ExceptionTargets,
    },
}

// By hand: a derived one is proved anew at each way out of a function that holds such a value.
impl Drop for InstructionData {
    fn drop(self) {
        match self {
            InstructionData::UnaryImm { imm: _ } => {}
            InstructionData::UnaryIeee { opcode: _, bits: _ } => {}
            InstructionData::UnaryConst {
                opcode: _,
                constant: _,
            } => {}
            InstructionData::Unary { opcode: _, arg: _ } => {}
            InstructionData::Binary { opcode: _, args: _ } => {}
            InstructionData::IntCompare { cond: _, args: _ } => {}
            InstructionData::Concat { args: _ } => {}
            InstructionData::Split { arg: _ } => {}
            InstructionData::Convert { opcode: _, arg: _ } => {}
            InstructionData::Ternary { args: _ } => {}
            InstructionData::Load {
                flags: _,
                arg: _,
                offset: _,
            } => {}
            InstructionData::Store {
                flags: _,
                args: _,
                offset: _,
            } => {}
            InstructionData::StackLoad {
                opcode: _,
                slot: _,
                offset: _,
            } => {}
            InstructionData::StackStore {
                arg: _,
                slot: _,
                offset: _,
            } => {}
            InstructionData::Jump { destination: _ } => {}
            InstructionData::Brif { arg: _, blocks: _ } => {}
            InstructionData::BranchTable { arg: _, table: _ } => {}
            InstructionData::MultiAry { args: _ } => {}
            InstructionData::Trap { code: _ } => {}
            InstructionData::CondTrap {
                opcode: _,
                arg: _,
                code: _,
            } => {}
            InstructionData::Call {
                func_ref: _,
                args: _,
            } => {}
            InstructionData::CallIndirect {
                sig_ref: _,
                args: _,
            } => {}
            InstructionData::TryCall {
                func_ref: _,
                args: _,
                exception: _,
            } => {}
            InstructionData::TryCallIndirect {
                args: _,
                exception: _,
            } => {}
        }
    }
}

impl InstructionData {
    /// The operands, in the order in which they are printed.
    pub fn arguments(&self) -> &[Value]
        ensures { result.now ≡ operands self.now }
    {
        match self {
            InstructionData::UnaryImm { .. }
            | InstructionData::UnaryIeee { .. }
            | InstructionData::UnaryConst { .. }
            | InstructionData::StackLoad { .. }
            | InstructionData::Jump { .. }
            | InstructionData::Trap { .. } => &[],
            InstructionData::Unary { arg, .. } => slice::from_ref(arg),
            InstructionData::Binary { args, .. } => args,
            InstructionData::IntCompare { args, .. } => args,
            InstructionData::Concat { args } => args,
            InstructionData::Split { arg } => slice::from_ref(arg),
            InstructionData::Convert { arg, .. } => slice::from_ref(arg),
            InstructionData::Ternary { args } => args,
            InstructionData::Load { arg, .. } => slice::from_ref(arg),
            InstructionData::Store { args, .. } => args,
            InstructionData::StackStore { arg, .. } => slice::from_ref(arg),
            InstructionData::Brif { arg, .. } => slice::from_ref(arg),
            InstructionData::BranchTable { arg, .. } => slice::from_ref(arg),
            InstructionData::MultiAry { args } => args.as_slice(),
            InstructionData::CondTrap { arg, .. } => slice::from_ref(arg),
            InstructionData::Call { args, .. } => args.as_slice(),
            InstructionData::CallIndirect { args, .. } => args.as_slice(),
            InstructionData::TryCall { args, .. } => args.as_slice(),
            InstructionData::TryCallIndirect { args, .. } => args.as_slice(),
        }
    }

    /// The exception table, if the instruction has one.
    pub fn exception_targets(&self) -> Option<&ExceptionTargets>
        ensures { option_copied result ≡ exception_table self.now }
    {
        match self {
            InstructionData::TryCall { exception, .. } => Some(exception),
            InstructionData::TryCallIndirect { exception, .. } => Some(exception),
            _ => None,
        }
    }

    /// The edges, in the order in which they are printed; none where the instruction is no branch.
    pub fn branch_destination(&self) -> &[BlockCall]
        ensures { result.now ≡ destinations self.now }
    {
        match self {
            InstructionData::Jump { destination } => slice::from_ref(destination),
            InstructionData::Brif { blocks, .. } => blocks,
            InstructionData::BranchTable { table, .. } => table.all_branches(),
            InstructionData::TryCall { exception, .. } => exception.all_branches(),
            InstructionData::TryCallIndirect { exception, .. } => exception.all_branches(),
            _ => &[],
        }
    }

    /// Puts a value at the end of what each edge passes that goes to `block`.
    ///
    /// # Errors
    ///
    /// `Memory`, where memory is refused; the instruction is as it was then.
    pub fn append_argument(&mut self, block: Block, value: Value) -> Result<(), BuildError>
        ensures ok { OnOk result (self.new ≡ with_argument block value self.old) }
        ensures err { OnErr result (self.new ≡ self.old) }
        ensures only_memory { OnErr result (result ≡ Err BuildError.Memory) }
    {
        match self {
            InstructionData::Jump { destination } => append_to_edge(destination, block, value),
            InstructionData::Brif { blocks, .. } => append_to_edges(blocks, block, value),
            InstructionData::BranchTable { table, .. } => table.append_argument(block, value),
            InstructionData::TryCall { exception, .. } => exception.append_argument(block, value),
            InstructionData::TryCallIndirect { exception, .. } => {
                exception.append_argument(block, value)
            }
            _ => Ok(()),
        }
    }

    /// Makes each edge that goes to `from` go to `to`. What it passes stays.
    pub fn change_target(&mut self, from: Block, to: Block)
        ensures exact { self.new ≡ with_targets_changed from to self.old }
        ensures edges { destinations self.new ≡ with_target_changed from to (destinations self.old) }
    {
        match self {
            InstructionData::Jump { destination } => redirect_edge(destination, from, to),
            InstructionData::Brif { blocks, .. } => redirect_edges(blocks, from, to),
            InstructionData::BranchTable { table, .. } => table.change_target(from, to),
            InstructionData::TryCall { exception, .. } => exception.change_target(from, to),
            InstructionData::TryCallIndirect { exception, .. } => exception.change_target(from, to),
            _ => {}
        }
    }

    /// Makes the edge at `edge` pass `value` at `place`, in place of what it passed there.
    pub fn set_edge_argument(&mut self, edge: usize, place: usize, value: Value)
        requires edge_exists { edge < length (destinations self.old) }
        requires place_exists { place < length (edge_at (destinations self.old) edge).args }
        ensures exact { self.new ≡ with_edge_argument edge place value self.old }
        ensures edges { destinations self.new ≡ with_passed_at edge place value (destinations self.old) }
    {
        match self {
            InstructionData::Jump { destination } => set_argument(destination, place, value),
            InstructionData::Brif { blocks, .. } => set_argument_at(blocks, edge, place, value),
            InstructionData::BranchTable { table, .. } => table.set_argument(edge, place, value),
            InstructionData::TryCall { exception, .. } => {
                exception.set_argument(edge, place, value);
            }
            InstructionData::TryCallIndirect { exception, .. } => {
                exception.set_argument(edge, place, value);
            }
            _ => {}
        }
    }

    /// Makes the edge at `edge` another one.
    pub fn set_edge(&mut self, edge: usize, call: BlockCall)
        requires { edge < length (destinations self.old) }
        ensures exact { self.new ≡ with_edge edge call self.old }
        ensures edges { destinations self.new ≡ slice_set (destinations self.old) edge call }
    {
        match self {
            InstructionData::Jump { destination } => *destination = call,
            InstructionData::Brif { blocks, .. } => set_edge_at(blocks, edge, call),
            InstructionData::BranchTable { table, .. } => table.set_edge(edge, call),
            InstructionData::TryCall { exception, .. } => exception.set_edge(edge, call),
            InstructionData::TryCallIndirect { exception, .. } => exception.set_edge(edge, call),
            _ => {}
        }
    }

    /// Makes the item at `item` of a try call's exception table the context `value`.
    pub fn set_context(&mut self, item: usize, value: Value)
        requires { item < length (items_of self.old) }
        ensures exact { self.new ≡ with_context item value self.old }
    {
        match self {
            InstructionData::TryCall { exception, .. } => exception.set_context(item, value),
            InstructionData::TryCallIndirect { exception, .. } => {
                exception.set_context(item, value);
            }
            _ => {}
        }
    }

    /// Makes `value` the operand at `place`, in the order in which operands are printed.
    pub fn set_operand(&mut self, place: usize, value: Value)
        requires { place < length (operands self.old) }
        ensures exact { self.new ≡ with_operand place value self.old }
        ensures operands { operands self.new ≡ slice_set (operands self.old) place value }
        ensures edges { destinations self.new ≡ destinations self.old }
    {
        match self {
            InstructionData::UnaryImm { .. }
            | InstructionData::UnaryIeee { .. }
            | InstructionData::UnaryConst { .. }
            | InstructionData::StackLoad { .. }
            | InstructionData::Jump { .. }
            | InstructionData::Trap { .. } => {}
            InstructionData::Unary { arg, .. } => *arg = value,
            InstructionData::Binary { args, .. } => set_value(args, place, value),
            InstructionData::IntCompare { args, .. } => set_value(args, place, value),
            InstructionData::Concat { args } => set_value(args, place, value),
            InstructionData::Split { arg } => *arg = value,
            InstructionData::Convert { arg, .. } => *arg = value,
            InstructionData::Ternary { args } => set_value(args, place, value),
            InstructionData::Load { arg, .. } => *arg = value,
            InstructionData::Store { args, .. } => set_value(args, place, value),
            InstructionData::StackStore { arg, .. } => *arg = value,
            InstructionData::Brif { arg, .. } => *arg = value,
            InstructionData::BranchTable { arg, .. } => *arg = value,
            InstructionData::MultiAry { args } => args.set(place, value),
            InstructionData::CondTrap { arg, .. } => *arg = value,
            InstructionData::Call { args, .. } => args.set(place, value),
            InstructionData::CallIndirect { args, .. } => args.set(place, value),
            InstructionData::TryCall { args, .. } => args.set(place, value),
            InstructionData::TryCallIndirect { args, .. } => args.set(place, value),
        }
    }

    /// The opcode.
    pub fn opcode(&self) -> Opcode
        ensures { result ≡ opcode_of self.now }
    {
        match self {
            InstructionData::UnaryImm { .. } => Opcode::Iconst,
            InstructionData::UnaryIeee { opcode, .. } => Opcode::FloatConst(*opcode),
            InstructionData::UnaryConst { opcode, .. } => Opcode::PooledConst(*opcode),
            InstructionData::Unary { opcode, .. } => Opcode::Unary(*opcode),
            InstructionData::Binary { opcode, .. } => Opcode::Binary(*opcode),
            InstructionData::IntCompare { .. } => Opcode::Icmp,
            InstructionData::Concat { .. } => Opcode::Iconcat,
            InstructionData::Split { .. } => Opcode::Isplit,
            InstructionData::Convert { opcode, .. } => Opcode::Convert(*opcode),
            InstructionData::Ternary { .. } => Opcode::Select,
            InstructionData::Load { .. } => Opcode::Load,
            InstructionData::Store { .. } => Opcode::Store,
            InstructionData::StackLoad { opcode, .. } => Opcode::Stack(*opcode),
            InstructionData::StackStore { .. } => Opcode::StackStore,
            InstructionData::Jump { .. } => Opcode::Jump,
            InstructionData::Brif { .. } => Opcode::Brif,
            InstructionData::BranchTable { .. } => Opcode::BrTable,
            InstructionData::MultiAry { .. } => Opcode::Return,
            InstructionData::Trap { .. } => Opcode::Trap,
            InstructionData::CondTrap { opcode, .. } => Opcode::CondTrap(*opcode),
            InstructionData::Call { .. } => Opcode::Call,
            InstructionData::CallIndirect { .. } => Opcode::CallIndirect,
            InstructionData::TryCall { .. } => Opcode::TryCall,
            InstructionData::TryCallIndirect { .. } => Opcode::TryCallIndirect,
        }
    }

    /// The kinds of the results, in order: those of its row of the typing table, told by the format. What a call gives
    /// is no part of the row: its signature tells that.
    pub fn result_kinds(&self) -> &'static [ResultKind]
        ensures { result.now ≡ (typing_of self.now).results }
    {
        match self {
            InstructionData::UnaryIeee { opcode, .. } => float_kinds(*opcode),
            InstructionData::UnaryConst { opcode, .. } => pooled_kinds(*opcode),
            InstructionData::IntCompare { .. } => &[ResultKind::Exactly(I8)],
            InstructionData::Concat { .. } => &[ResultKind::Double],
            InstructionData::Split { .. } => &[ResultKind::Half, ResultKind::Half],
            InstructionData::UnaryImm { .. }
            | InstructionData::Unary { .. }
            | InstructionData::Binary { .. }
            | InstructionData::Convert { .. }
            | InstructionData::Ternary { .. }
            | InstructionData::Load { .. }
            | InstructionData::StackLoad { .. } => &[ResultKind::Controlling],
            InstructionData::Store { .. }
            | InstructionData::StackStore { .. }
            | InstructionData::Jump { .. }
            | InstructionData::Brif { .. }
            | InstructionData::BranchTable { .. }
            | InstructionData::MultiAry { .. }
            | InstructionData::Trap { .. }
            | InstructionData::CondTrap { .. }
            | InstructionData::Call { .. }
            | InstructionData::CallIndirect { .. }
            | InstructionData::TryCall { .. }
            | InstructionData::TryCallIndirect { .. } => &[],
        }
    }

    /// Whether the instruction has a result.
    pub fn has_result(&self) -> bool
        ensures { result ≡ has_result self.now }
    {
        !self.result_kinds().is_empty()
    }

    /// Where the controlling type comes from.
    pub fn control(&self) -> Control
        ensures { result ≡ (typing_of self.now).control }
    {
        self.opcode().typing().control
    }

    /// Whether the instruction has edges.
    pub fn is_branch(&self) -> bool
        ensures { result ≡ is_branch self.now }
    {
        matches!(
            self,
            InstructionData::Jump { .. }
                | InstructionData::Brif { .. }
                | InstructionData::BranchTable { .. }
                | InstructionData::TryCall { .. }
                | InstructionData::TryCallIndirect { .. }
        )
    }

    /// Whether the instruction ends its block, as its row of the typing table says.
    pub fn is_terminator(&self) -> bool
        ensures { result ≡ is_terminator self.now }
    {
        self.is_branch()
            || matches!(
                self,
                InstructionData::MultiAry { .. } | InstructionData::Trap { .. }
            )
    }
}

// The kind of the result of a float constant.
fn float_kinds(opcode: FloatConstOpcode) -> &'static [ResultKind]
    ensures { result.now ≡ (float_const_row opcode).results }
{
    match opcode {
        FloatConstOpcode::F16const => &[ResultKind::Exactly(F16)],
        FloatConstOpcode::F32const => &[ResultKind::Exactly(F32)],
        FloatConstOpcode::F64const => &[ResultKind::Exactly(F64)],
    }
}

// The kind of the result of a pooled constant.
fn pooled_kinds(opcode: PooledConstOpcode) -> &'static [ResultKind]
    ensures { result.now ≡ (pooled_const_row opcode).results }
{
    match opcode {
        PooledConstOpcode::F128const => &[ResultKind::Exactly(F128)],
        PooledConstOpcode::Vconst => &[ResultKind::Controlling],
    }
}
