//! The instructions by name, over anything that makes an instruction of any shape: `builder.ins().iadd(x, y)?`.
ghost use Rattle.std.specs.Prelude.{◌≡◌, ◌∷◌, [], length, IsTrue, IfOk, OnErr, Err, All};
ghost use Rattle.clif_types.specs.Types.{bytes_of, is_int, is_type};
ghost use Rattle.clif_instructions.specs.Instruction.{AFunctionRef, ASignatureRef, ASlot};
ghost use Rattle.clif_opcodes.specs.Kinds.{is_met};
ghost use Rattle.clif_opcodes.specs.declared.kinds.Demand.{Demand};
ghost use Rattle.clif_inst_builder.specs.Shapes.{GrowsThenAnswers, PoolsThenAnswers, TakesThenAnswers, binary, branch_table, brif_to, call, call_indirect, concat, cond_trap, convert, edge_to, int_compare, jump, load, multi_ary, split, stack, stack_store, store, ternary, trap, try_call, try_call_indirect, unary, unary_const, unary_ieee, unary_imm};

use crate::base::InstBuilderBase;
use clif_instructions::block_call::{BlockArg, BlockCall};
use clif_instructions::instructions::InstructionData;
use clif_instructions::value_list::ValueList;
use clif_opcodes::{
    BinaryOpcode, CondTrapOpcode, ConvertOpcode, FloatConstOpcode, PooledConstOpcode, StackOpcode,
    UnaryOpcode,
};
use clif_types::{
    Block, BuildError, ExceptionTable, FuncRef, Inst, IntCC, JumpTable, MemFlagsData, SigRef,
    StackSlot, TrapCode, Type, Value,
};
use std::alloc::Global;

/// The instructions, by name: `builder.ins().iadd(x, y)?`.
///
/// Each is appended to the current block, which must not have its terminator; the values and blocks that it names
/// exist. The method of an instruction with a result returns its value, that of one with two results their values in
/// order, and any other one the instruction's number.
/// Operands aren't checked for their types here. The only errors are those of [`BuildError`]: memory was refused, a
/// table is full, or the builder had failed before. After an error the builder has failed, and the function may
/// still contain the instruction.
pub trait InstBuilder: InstBuilderBase {
    /// `iconst.ty imm`: a constant of an integer type, which is the low bits of `imm`.
    final fn iconst(&mut self, ty: Type, imm: i64) -> Self::ValueAnswer
        requires current { Self.can_build self.old }
        requires integer { Self.asks (IsTrue (is_int ty)) }
        ensures built { Self.builds_value self.old self.new (unary_imm imm) ty result }
    {
        self.unary_imm(ty, imm)
    }

    /// `iadd x, y`: the sum, modulo two to the width of the type.
    final fn iadd(&mut self, x: Value, y: Value) -> Self::ValueAnswer
        requires current { Self.can_build self.old }
        requires x_exists { Self.has_value self.old x }
        requires y_exists { Self.has_value self.old y }
        ensures built { Self.builds_like self.old self.new (binary BinaryOpcode.Iadd x y) x result }
    {
        self.binary(BinaryOpcode::Iadd, x, y)
    }

    /// `isub x, y`: the difference, modulo two to the width of the type.
    final fn isub(&mut self, x: Value, y: Value) -> Self::ValueAnswer
        requires current { Self.can_build self.old }
        requires x_exists { Self.has_value self.old x }
        requires y_exists { Self.has_value self.old y }
        ensures built { Self.builds_like self.old self.new (binary BinaryOpcode.Isub x y) x result }
    {
        self.binary(BinaryOpcode::Isub, x, y)
    }

    /// `imul x, y`: the product, modulo two to the width of the type.
    final fn imul(&mut self, x: Value, y: Value) -> Self::ValueAnswer
        requires current { Self.can_build self.old }
        requires x_exists { Self.has_value self.old x }
        requires y_exists { Self.has_value self.old y }
        ensures built { Self.builds_like self.old self.new (binary BinaryOpcode.Imul x y) x result }
    {
        self.binary(BinaryOpcode::Imul, x, y)
    }

    /// `band x, y`: bitwise and.
    final fn band(&mut self, x: Value, y: Value) -> Self::ValueAnswer
        requires current { Self.can_build self.old }
        requires x_exists { Self.has_value self.old x }
        requires y_exists { Self.has_value self.old y }
        ensures built { Self.builds_like self.old self.new (binary BinaryOpcode.Band x y) x result }
    {
        self.binary(BinaryOpcode::Band, x, y)
    }

    /// `bor x, y`: bitwise or.
    final fn bor(&mut self, x: Value, y: Value) -> Self::ValueAnswer
        requires current { Self.can_build self.old }
        requires x_exists { Self.has_value self.old x }
        requires y_exists { Self.has_value self.old y }
        ensures built { Self.builds_like self.old self.new (binary BinaryOpcode.Bor x y) x result }
    {
        self.binary(BinaryOpcode::Bor, x, y)
    }

    /// `bxor x, y`: bitwise exclusive or.
    final fn bxor(&mut self, x: Value, y: Value) -> Self::ValueAnswer
        requires current { Self.can_build self.old }
        requires x_exists { Self.has_value self.old x }
        requires y_exists { Self.has_value self.old y }
        ensures built { Self.builds_like self.old self.new (binary BinaryOpcode.Bxor x y) x result }
    {
        self.binary(BinaryOpcode::Bxor, x, y)
    }

    /// `ishl x, y`: `x` shifted left. The shift amount `y` has any integer type, and is taken modulo the width of `x`.
    final fn ishl(&mut self, x: Value, y: Value) -> Self::ValueAnswer
        requires current { Self.can_build self.old }
        requires x_exists { Self.has_value self.old x }
        requires y_exists { Self.has_value self.old y }
        ensures built { Self.builds_like self.old self.new (binary BinaryOpcode.Ishl x y) x result }
    {
        self.binary(BinaryOpcode::Ishl, x, y)
    }

    /// `ushr x, y`: `x` shifted right, with zeros from the left. `y` is taken as in [`InstBuilder::ishl`].
    final fn ushr(&mut self, x: Value, y: Value) -> Self::ValueAnswer
        requires current { Self.can_build self.old }
        requires x_exists { Self.has_value self.old x }
        requires y_exists { Self.has_value self.old y }
        ensures built { Self.builds_like self.old self.new (binary BinaryOpcode.Ushr x y) x result }
    {
        self.binary(BinaryOpcode::Ushr, x, y)
    }

    /// `sshr x, y`: `x` shifted right, with copies of its sign bit from the left. `y` is taken as in
    /// [`InstBuilder::ishl`].
    final fn sshr(&mut self, x: Value, y: Value) -> Self::ValueAnswer
        requires current { Self.can_build self.old }
        requires x_exists { Self.has_value self.old x }
        requires y_exists { Self.has_value self.old y }
        ensures built { Self.builds_like self.old self.new (binary BinaryOpcode.Sshr x y) x result }
    {
        self.binary(BinaryOpcode::Sshr, x, y)
    }

    /// `udiv x, y`: the quotient of unsigned numbers. It traps with `int_divz` if `y` is zero.
    final fn udiv(&mut self, x: Value, y: Value) -> Self::ValueAnswer
        requires current { Self.can_build self.old }
        requires x_exists { Self.has_value self.old x }
        requires y_exists { Self.has_value self.old y }
        ensures built { Self.builds_like self.old self.new (binary BinaryOpcode.Udiv x y) x result }
    {
        self.binary(BinaryOpcode::Udiv, x, y)
    }

    /// `sdiv x, y`: the quotient of signed numbers, rounded toward zero. It traps with `int_divz` if `y` is zero,
    /// and with `int_ovf` if `x` is the least number and `y` is -1.
    final fn sdiv(&mut self, x: Value, y: Value) -> Self::ValueAnswer
        requires current { Self.can_build self.old }
        requires x_exists { Self.has_value self.old x }
        requires y_exists { Self.has_value self.old y }
        ensures built { Self.builds_like self.old self.new (binary BinaryOpcode.Sdiv x y) x result }
    {
        self.binary(BinaryOpcode::Sdiv, x, y)
    }

    /// `urem x, y`: the remainder of unsigned numbers. It traps with `int_divz` if `y` is zero.
    final fn urem(&mut self, x: Value, y: Value) -> Self::ValueAnswer
        requires current { Self.can_build self.old }
        requires x_exists { Self.has_value self.old x }
        requires y_exists { Self.has_value self.old y }
        ensures built { Self.builds_like self.old self.new (binary BinaryOpcode.Urem x y) x result }
    {
        self.binary(BinaryOpcode::Urem, x, y)
    }

    /// `srem x, y`: the remainder of signed numbers, with the sign of `x`. It traps with `int_divz` if `y` is zero;
    /// the least number by -1 gives 0.
    final fn srem(&mut self, x: Value, y: Value) -> Self::ValueAnswer
        requires current { Self.can_build self.old }
        requires x_exists { Self.has_value self.old x }
        requires y_exists { Self.has_value self.old y }
        ensures built { Self.builds_like self.old self.new (binary BinaryOpcode.Srem x y) x result }
    {
        self.binary(BinaryOpcode::Srem, x, y)
    }

    /// `ineg x`: the negative, in two's complement.
    final fn ineg(&mut self, x: Value) -> Self::ValueAnswer
        requires current { Self.can_build self.old }
        requires x_exists { Self.has_value self.old x }
        ensures built { Self.builds_like self.old self.new (unary UnaryOpcode.Ineg x) x result }
    {
        self.unary(UnaryOpcode::Ineg, x)
    }

    /// `bnot x`: bitwise not.
    final fn bnot(&mut self, x: Value) -> Self::ValueAnswer
        requires current { Self.can_build self.old }
        requires x_exists { Self.has_value self.old x }
        ensures built { Self.builds_like self.old self.new (unary UnaryOpcode.Bnot x) x result }
    {
        self.unary(UnaryOpcode::Bnot, x)
    }

    /// `uextend.ty x`: a wider integer, with zeros above the bits of `x`. That `x` is narrower isn't checked here.
    final fn uextend(&mut self, ty: Type, x: Value) -> Self::ValueAnswer
        requires current { Self.can_build self.old }
        requires integer { Self.asks (IsTrue (is_int ty)) }
        requires x_exists { Self.has_value self.old x }
        ensures built { Self.builds_value self.old self.new (convert ConvertOpcode.Uextend x) ty result }
    {
        self.convert(ConvertOpcode::Uextend, ty, x)
    }

    /// `ireduce.ty x`: a narrower integer, the low bits of `x`. That `x` is wider isn't checked here.
    final fn ireduce(&mut self, ty: Type, x: Value) -> Self::ValueAnswer
        requires current { Self.can_build self.old }
        requires integer { Self.asks (IsTrue (is_int ty)) }
        requires x_exists { Self.has_value self.old x }
        ensures built { Self.builds_value self.old self.new (convert ConvertOpcode.Ireduce x) ty result }
    {
        self.convert(ConvertOpcode::Ireduce, ty, x)
    }

    /// `splat.ty x`: a vector with `x` in every lane.
    final fn splat(&mut self, ty: Type, x: Value) -> Self::ValueAnswer
        requires current { Self.can_build self.old }
        requires vector { Self.asks (IsTrue (is_met Demand.AVector ty)) }
        requires x_exists { Self.has_value self.old x }
        ensures built { Self.builds_value self.old self.new (convert ConvertOpcode.Splat x) ty result }
    {
        self.convert(ConvertOpcode::Splat, ty, x)
    }

    /// `select c, x, y`: `x` if `c` isn't zero, and otherwise `y`. `c` is an integer of any type.
    final fn select(&mut self, c: Value, x: Value, y: Value) -> Self::ValueAnswer
        requires current { Self.can_build self.old }
        requires c_exists { Self.has_value self.old c }
        requires x_exists { Self.has_value self.old x }
        requires y_exists { Self.has_value self.old y }
        ensures built { Self.builds_like self.old self.new (ternary c x y) x result }
    {
        let args = [c, x, y];
        self.build_like(InstructionData::Ternary { args }, x)
    }

    /// `f16const bits`: the float with these bits.
    final fn f16const(&mut self, bits: u16) -> Self::ValueAnswer
        requires current { Self.can_build self.old }
        ensures built { Self.builds_value self.old self.new
            (unary_ieee FloatConstOpcode.F16const bits) Type.Invalid result }
    {
        let bits = u64::from(bits);
        let opcode = FloatConstOpcode::F16const;
        self.build_value(InstructionData::UnaryIeee { opcode, bits }, Type::Invalid)
    }

    /// `f32const bits`: the float with these bits.
    final fn f32const(&mut self, bits: u32) -> Self::ValueAnswer
        requires current { Self.can_build self.old }
        ensures built { Self.builds_value self.old self.new
            (unary_ieee FloatConstOpcode.F32const bits) Type.Invalid result }
    {
        let bits = u64::from(bits);
        let opcode = FloatConstOpcode::F32const;
        self.build_value(InstructionData::UnaryIeee { opcode, bits }, Type::Invalid)
    }

    /// `f64const bits`: the float with these bits.
    final fn f64const(&mut self, bits: u64) -> Self::ValueAnswer
        requires current { Self.can_build self.old }
        ensures built { Self.builds_value self.old self.new
            (unary_ieee FloatConstOpcode.F64const bits) Type.Invalid result }
    {
        let opcode = FloatConstOpcode::F64const;
        self.build_value(InstructionData::UnaryIeee { opcode, bits }, Type::Invalid)
    }

    /// `f128const constant`: the float with the bits that these bytes make, the lowest first. They are pooled.
    final fn f128const(&mut self, bytes: &[u8]) -> Self::ValueAnswer
        requires current { Self.can_build self.old }
        requires fits { Self.asks (length bytes.now ≡ 16) }
        ensures built { PoolsThenAnswers Self.answer_value Self.pools Self.builds_value
            self.old self.new (unary_const PooledConstOpcode.F128const) bytes.now Type.Invalid result }
    {
        self.pooled(PooledConstOpcode::F128const, Type::Invalid, bytes)
    }

    /// `vconst.ty constant`: the vector of type `ty` that these bytes make, the lowest first; there are as many as `ty` has.
    /// They are pooled.
    final fn vconst(&mut self, ty: Type, bytes: &[u8]) -> Self::ValueAnswer
        requires current { Self.can_build self.old }
        requires vector { Self.asks (IsTrue (is_met Demand.AVector ty)) }
        requires fits { Self.asks (length bytes.now ≡ bytes_of ty) }
        ensures built { PoolsThenAnswers Self.answer_value Self.pools Self.builds_value
            self.old self.new (unary_const PooledConstOpcode.Vconst) bytes.now ty result }
    {
        self.pooled(PooledConstOpcode::Vconst, ty, bytes)
    }

    /// `sextend.ty x`: a wider integer, with copies of the sign bit of `x` above its bits. That `x` is narrower isn't
    /// checked here.
    final fn sextend(&mut self, ty: Type, x: Value) -> Self::ValueAnswer
        requires current { Self.can_build self.old }
        requires integer { Self.asks (IsTrue (is_int ty)) }
        requires x_exists { Self.has_value self.old x }
        ensures built { Self.builds_value self.old self.new (convert ConvertOpcode.Sextend x) ty result }
    {
        self.convert(ConvertOpcode::Sextend, ty, x)
    }

    /// `icmp cond x, y`: an I8 that is 1 if the condition holds of two integers of one type, and 0 otherwise.
    final fn icmp(&mut self, cond: IntCC, x: Value, y: Value) -> Self::ValueAnswer
        requires current { Self.can_build self.old }
        requires x_exists { Self.has_value self.old x }
        requires y_exists { Self.has_value self.old y }
        ensures built { Self.builds_like self.old self.new (int_compare cond x y) x result }
    {
        let args = [x, y];
        self.build_like(InstructionData::IntCompare { cond, args }, x)
    }

    /// `iconcat lo, hi`: the integer of twice the width whose low half is `lo` and whose high half is `hi`. `lo` has one
    /// of the types I8 to I64.
    final fn iconcat(&mut self, lo: Value, hi: Value) -> Self::ValueAnswer
        requires current { Self.can_build self.old }
        requires lo_exists { Self.has_value self.old lo }
        requires hi_exists { Self.has_value self.old hi }
        requires doubled { Self.asks (IsTrue (is_met Demand.ADoubled (Self.type_of self.old lo))) }
        ensures built { Self.builds_like self.old self.new (concat lo hi) lo result }
    {
        let args = [lo, hi];
        self.build_like(InstructionData::Concat { args }, lo)
    }

    /// `isplit x`: the low half of an integer and its high half, each of half its width. `x` has one of the types I16 to
    /// I128.
    final fn isplit(&mut self, x: Value) -> Self::PairAnswer
        requires current { Self.can_build self.old }
        requires x_exists { Self.has_value self.old x }
        requires halved { Self.asks (IsTrue (is_met Demand.AHalved (Self.type_of self.old x))) }
        ensures built { Self.builds_pair self.old self.new (split x) x result }
    {
        self.build_pair(InstructionData::Split { arg: x }, x)
    }

    /// `load.ty flags p+offset`: the value of type `ty` that is in memory at the address `p` plus `offset`, which counts
    /// modulo the width of `p`. It traps with `heap_oob` if a byte isn't accessible, except if the flags say `notrap`.
    ///
    /// Flags that say more than is true (see [`MemFlagsData`]) leave the access without meaning.
    final fn load(
        &mut self,
        ty: Type,
        flags: MemFlagsData,
        p: Value,
        offset: i32,
    ) -> Self::ValueAnswer
        requires current { Self.can_build self.old }
        requires valid { Self.asks (IsTrue (is_type ty)) }
        requires p_exists { Self.has_value self.old p }
        ensures built { Self.builds_value self.old self.new (load flags p offset) ty result }
    {
        let shape = InstructionData::Load {
            flags,
            arg: p,
            offset,
        };
        self.build_value(shape, ty)
    }

    /// `store flags x, p+offset`: puts `x` into memory at the address `p` plus `offset`. The address and the flags are
    /// taken as in [`InstBuilder::load`].
    final fn store(
        &mut self,
        flags: MemFlagsData,
        x: Value,
        p: Value,
        offset: i32,
    ) -> Self::InstAnswer
        requires current { Self.can_build self.old }
        requires x_exists { Self.has_value self.old x }
        requires p_exists { Self.has_value self.old p }
        ensures built { Self.builds self.old self.new (store flags x p offset) Type.Invalid result }
    {
        let args = [x, p];
        let shape = InstructionData::Store {
            flags,
            args,
            offset,
        };
        self.build(shape, Type::Invalid)
    }

    /// `stack_addr.ty slot+offset`: the address of a stack slot plus `offset`, which counts modulo the width of pointers:
    /// its low bits, with zeros above them at a wider type. It may be made at any type, and `check` tells one that isn't an
    /// integer.
    final fn stack_addr(&mut self, ty: Type, slot: StackSlot, offset: i32) -> Self::ValueAnswer
        requires current { Self.can_build self.old }
        requires valid { Self.asks (IsTrue (is_type ty)) }
        requires slot_exists { Self.has_entry self.old (ASlot slot) }
        ensures built { Self.builds_value self.old self.new
            (stack StackOpcode.StackAddr slot offset) ty result }
    {
        self.stack(StackOpcode::StackAddr, ty, slot, offset)
    }

    /// `stack_load.ty slot+offset`: the value of type `ty` that is in memory at the address of a stack slot plus `offset`.
    /// It traps with `heap_oob` if a byte isn't accessible; those of the slot are.
    final fn stack_load(&mut self, ty: Type, slot: StackSlot, offset: i32) -> Self::ValueAnswer
        requires current { Self.can_build self.old }
        requires valid { Self.asks (IsTrue (is_type ty)) }
        requires slot_exists { Self.has_entry self.old (ASlot slot) }
        ensures built { Self.builds_value self.old self.new
            (stack StackOpcode.StackLoad slot offset) ty result }
    {
        self.stack(StackOpcode::StackLoad, ty, slot, offset)
    }

    /// `stack_store x, slot+offset`: puts `x` into memory at the address of a stack slot plus `offset`, which is taken as in
    /// [`InstBuilder::stack_load`].
    final fn stack_store(&mut self, x: Value, slot: StackSlot, offset: i32) -> Self::InstAnswer
        requires current { Self.can_build self.old }
        requires x_exists { Self.has_value self.old x }
        requires slot_exists { Self.has_entry self.old (ASlot slot) }
        ensures built { Self.builds self.old self.new (stack_store x slot offset) Type.Invalid result }
    {
        let shape = InstructionData::StackStore {
            arg: x,
            slot,
            offset,
        };
        self.build(shape, Type::Invalid)
    }

    /// `trap code`: ends the run with this trap. The current block is filled afterwards.
    final fn trap(&mut self, code: TrapCode) -> Self::InstAnswer
        requires current { Self.can_build self.old }
        ensures built { Self.builds self.old self.new (trap code) Type.Invalid result }
    {
        self.build(InstructionData::Trap { code }, Type::Invalid)
    }

    /// `trapz c, code`: ends the run with this trap if the integer `c` is zero. Otherwise the block goes on.
    final fn trapz(&mut self, c: Value, code: TrapCode) -> Self::InstAnswer
        requires current { Self.can_build self.old }
        requires c_exists { Self.has_value self.old c }
        ensures built { Self.builds self.old self.new
            (cond_trap CondTrapOpcode.Trapz c code) Type.Invalid result }
    {
        self.cond_trap(CondTrapOpcode::Trapz, c, code)
    }

    /// `trapnz c, code`: ends the run with this trap if the integer `c` isn't zero. Otherwise the block goes on.
    final fn trapnz(&mut self, c: Value, code: TrapCode) -> Self::InstAnswer
        requires current { Self.can_build self.old }
        requires c_exists { Self.has_value self.old c }
        ensures built { Self.builds self.old self.new
            (cond_trap CondTrapOpcode.Trapnz c code) Type.Invalid result }
    {
        self.cond_trap(CondTrapOpcode::Trapnz, c, code)
    }

    /// `jump block(x, ..)`: goes to `block`, and passes `args` to the parameters that the caller appended to it.
    /// Arguments for variables are added by the builder.
    ///
    /// The block must not be sealed, since this is one more predecessor. The current block is filled afterwards.
    final fn jump(&mut self, block: Block, args: &[BlockArg]) -> Self::InstAnswer
        requires current { Self.can_build self.old }
        requires leads { Self.can_lead self.old (edge_to block args.now) }
        ensures built { Self.builds self.old self.new (jump block args.now) Type.Invalid result }
    {
        match BlockCall::new(self.allocator(), block, args) {
            Ok(destination) => self.build(InstructionData::Jump { destination }, Type::Invalid),
            Err(_) => Self::answer_inst(Err(self.refuse())),
        }
    }

    /// `brif c, block_then(x, ..), block_else(y, ..)`: goes to `block_then` if `c` isn't zero, and otherwise to
    /// `block_else`, with the arguments of that block. The two may be the same block.
    ///
    /// Neither block may be sealed. The current block is filled afterwards.
    final fn brif(
        &mut self,
        c: Value,
        block_then: Block,
        block_then_args: &[BlockArg],
        block_else: Block,
        block_else_args: &[BlockArg],
    ) -> Self::InstAnswer
        requires current { Self.can_build self.old }
        requires c_exists { Self.has_value self.old c }
        requires leads_then { Self.can_lead self.old (edge_to block_then block_then_args.now) }
        requires leads_else { Self.can_lead self.old (edge_to block_else block_else_args.now) }
        ensures built { Self.builds self.old self.new
            (brif_to c block_then block_then_args.now block_else block_else_args.now)
            Type.Invalid result }
    {
        let alloc = self.allocator();
        let made = two_edges(
            alloc,
            block_then,
            block_then_args,
            block_else,
            block_else_args,
        );
        match made {
            Ok(blocks) => self.build(InstructionData::Brif { arg: c, blocks }, Type::Invalid),
            Err(_) => Self::answer_inst(Err(self.refuse())),
        }
    }

    /// `br_table x, default, [entries]`: goes along the entry of the table with the number `x`, and along the default where
    /// there is none.
    ///
    /// The table served no instruction before, and serves this one from now on. No target of its edges is sealed. The
    /// current block is filled afterwards.
    final fn br_table(&mut self, x: Value, table: JumpTable) -> Self::InstAnswer
        requires current { Self.can_build self.old }
        requires x_exists { Self.has_value self.old x }
        requires serves { Self.has_jump_table self.old table }
        ensures built { TakesThenAnswers Self.answer_inst Self.takes Self.builds
            self.old self.new (branch_table x) table Type.Invalid result }
    {
        match self.take_jump_table(table) {
            Ok(table) => {
                let shape = InstructionData::BranchTable { arg: x, table };
                self.build(shape, Type::Invalid)
            }
            Err(error) => Self::answer_inst(Err(error)),
        }
    }

    /// `call function(x, ..)`: calls a function that was imported, with these arguments. The results of the instruction are
    /// what the function's signature returns.
    final fn call(&mut self, function: FuncRef, args: &[Value]) -> Self::InstAnswer
        requires current { Self.can_build self.old }
        requires args_exist { All (Self.has_value self.old) args.now }
        requires function_exists { Self.has_entry self.old (AFunctionRef function) }
        ensures built { Self.builds self.old self.new (call function args.now) Type.Invalid result }
    {
        match ValueList::from_slice(self.allocator(), args) {
            Ok(args) => {
                let func_ref = function;
                self.build(InstructionData::Call { func_ref, args }, Type::Invalid)
            }
            Err(_) => Self::answer_inst(Err(self.refuse())),
        }
    }

    /// `call_indirect sig, callee(x, ..)`: calls what is at an address, by a signature that was imported, with these
    /// arguments. The results of the instruction are what the signature returns.
    final fn call_indirect(
        &mut self,
        sig: SigRef,
        callee: Value,
        args: &[Value],
    ) -> Self::InstAnswer
        requires current { Self.can_build self.old }
        requires callee_exists { Self.has_value self.old callee }
        requires args_exist { All (Self.has_value self.old) args.now }
        requires signature_exists { Self.has_entry self.old (ASignatureRef sig) }
        ensures built { Self.builds self.old self.new (call_indirect sig callee args.now) Type.Invalid result }
    {
        match callee_and_args(self.allocator(), callee, args) {
            Ok(args) => {
                let sig_ref = sig;
                self.build(
                    InstructionData::CallIndirect { sig_ref, args },
                    Type::Invalid,
                )
            }
            Err(_) => Self::answer_inst(Err(self.refuse())),
        }
    }

    /// `try_call function(x, ..), sig, normal, [items]`: calls a function that was imported, with these arguments, by the
    /// signature of an exception table. When the call returns it goes along the table's normal edge, which may pass what
    /// the call gave; when it throws, along the edge of an item, which may pass the exception. The instruction has no
    /// results.
    ///
    /// The table served no instruction before, and serves this one from now on. No target of its edges is sealed. The
    /// current block is filled afterwards.
    final fn try_call(
        &mut self,
        function: FuncRef,
        args: &[Value],
        exception: ExceptionTable,
    ) -> Self::InstAnswer
        requires current { Self.can_build self.old }
        requires args_exist { All (Self.has_value self.old) args.now }
        requires function_exists { Self.has_entry self.old (AFunctionRef function) }
        requires serves { Self.has_exception_table self.old exception }
        ensures built { GrowsThenAnswers Self.answer_inst Self.takes_exception Self.builds
            self.old self.new (try_call function args.now) exception Type.Invalid result }
    {
        match ValueList::from_slice(self.allocator(), args) {
            Ok(args) => {
                let func_ref = function;
                match self.take_exception_table(exception) {
                    Ok(exception) => {
                        let shape = InstructionData::TryCall {
                            func_ref,
                            args,
                            exception,
                        };
                        self.build(shape, Type::Invalid)
                    }
                    Err(error) => Self::answer_inst(Err(error)),
                }
            }
            Err(_) => Self::answer_inst(Err(self.refuse())),
        }
    }

    /// `try_call_indirect callee(x, ..), sig, normal, [items]`: calls what is at an address, with these arguments, by the
    /// signature of an exception table. It goes on as after [`InstBuilder::try_call`], and the table serves it in the
    /// same way.
    final fn try_call_indirect(
        &mut self,
        callee: Value,
        args: &[Value],
        exception: ExceptionTable,
    ) -> Self::InstAnswer
        requires current { Self.can_build self.old }
        requires callee_exists { Self.has_value self.old callee }
        requires args_exist { All (Self.has_value self.old) args.now }
        requires serves { Self.has_exception_table self.old exception }
        ensures built { GrowsThenAnswers Self.answer_inst Self.takes_exception Self.builds
            self.old self.new (try_call_indirect callee args.now) exception Type.Invalid result }
    {
        match callee_and_args(self.allocator(), callee, args) {
            Ok(args) => match self.take_exception_table(exception) {
                Ok(exception) => {
                    let shape = InstructionData::TryCallIndirect { args, exception };
                    self.build(shape, Type::Invalid)
                }
                Err(error) => Self::answer_inst(Err(error)),
            },
            Err(_) => Self::answer_inst(Err(self.refuse())),
        }
    }

    /// `return x, ..`: ends the function with these values, which the signature gives the types of. The current
    /// block is filled afterwards.
    final fn return_(&mut self, values: &[Value]) -> Self::InstAnswer
        requires current { Self.can_build self.old }
        requires values_exist { All (Self.has_value self.old) values.now }
        ensures built { Self.builds self.old self.new (multi_ary values.now) Type.Invalid result }
    {
        match ValueList::from_slice(self.allocator(), values) {
            Ok(args) => self.build(InstructionData::MultiAry { args }, Type::Invalid),
            Err(_) => Self::answer_inst(Err(self.refuse())),
        }
    }

    /// An instruction of a number alone.
    final fn unary_imm(&mut self, ty: Type, imm: i64) -> Self::ValueAnswer
        requires current { Self.can_build self.old }
        ensures built { Self.builds_value self.old self.new (unary_imm imm) ty result }
    {
        self.build_value(InstructionData::UnaryImm { imm }, ty)
    }

    /// An instruction of a pooled constant alone.
    final fn pooled(
        &mut self,
        opcode: PooledConstOpcode,
        ty: Type,
        bytes: &[u8],
    ) -> Self::ValueAnswer
        requires current { Self.can_build self.old }
        ensures built { PoolsThenAnswers Self.answer_value Self.pools Self.builds_value
            self.old self.new (unary_const opcode) bytes.now ty result }
    {
        match self.pool_constant(bytes) {
            Ok(constant) => self.build_value(InstructionData::UnaryConst { opcode, constant }, ty),
            Err(error) => Self::answer_value(Err(error)),
        }
    }

    /// An instruction of one operand, whose result has its type.
    final fn unary(&mut self, opcode: UnaryOpcode, x: Value) -> Self::ValueAnswer
        requires current { Self.can_build self.old }
        requires x_exists { Self.has_value self.old x }
        ensures built { Self.builds_like self.old self.new (unary opcode x) x result }
    {
        self.build_like(InstructionData::Unary { opcode, arg: x }, x)
    }

    /// An instruction of two operands, whose result has the type of the first.
    final fn binary(&mut self, opcode: BinaryOpcode, x: Value, y: Value) -> Self::ValueAnswer
        requires current { Self.can_build self.old }
        requires x_exists { Self.has_value self.old x }
        requires y_exists { Self.has_value self.old y }
        ensures built { Self.builds_like self.old self.new (binary opcode x y) x result }
    {
        let args = [x, y];
        self.build_like(InstructionData::Binary { opcode, args }, x)
    }

    /// An instruction that reads a stack slot or its address.
    final fn stack(
        &mut self,
        opcode: StackOpcode,
        ty: Type,
        slot: StackSlot,
        offset: i32,
    ) -> Self::ValueAnswer
        requires current { Self.can_build self.old }
        requires slot_exists { Self.has_entry self.old (ASlot slot) }
        ensures built { Self.builds_value self.old self.new (stack opcode slot offset) ty result }
    {
        let shape = InstructionData::StackLoad {
            opcode,
            slot,
            offset,
        };
        self.build_value(shape, ty)
    }

    /// An instruction that traps under a condition.
    final fn cond_trap(
        &mut self,
        opcode: CondTrapOpcode,
        c: Value,
        code: TrapCode,
    ) -> Self::InstAnswer
        requires current { Self.can_build self.old }
        requires c_exists { Self.has_value self.old c }
        ensures built { Self.builds self.old self.new (cond_trap opcode c code) Type.Invalid result }
    {
        let shape = InstructionData::CondTrap {
            opcode,
            arg: c,
            code,
        };
        self.build(shape, Type::Invalid)
    }

    /// An instruction of one operand, whose result has a type that is given.
    final fn convert(&mut self, opcode: ConvertOpcode, ty: Type, x: Value) -> Self::ValueAnswer
        requires current { Self.can_build self.old }
        requires x_exists { Self.has_value self.old x }
        ensures built { Self.builds_value self.old self.new (convert opcode x) ty result }
    {
        self.build_value(InstructionData::Convert { opcode, arg: x }, ty)
    }
}

impl<B: InstBuilderBase> InstBuilder for B {}

// What is called, and the arguments behind it.
fn callee_and_args(alloc: Global, callee: Value, args: &[Value]) -> Result<ValueList, BuildError>
    ensures ok { IfOk result (λ values. values ≡ callee ∷ args.now) }
    ensures only_memory { OnErr result (result ≡ Err BuildError.Memory) }
{
    let mut values = ValueList::new(alloc);
    values.push(callee)?;
    for arg in args {
        values.push(*arg)?;
    }
    Ok(values)
}

// The edges of a `brif`.
fn two_edges(
    alloc: Global,
    block_then: Block,
    block_then_args: &[BlockArg],
    block_else: Block,
    block_else_args: &[BlockArg],
) -> Result<[BlockCall; 2], BuildError>
    ensures ok { IfOk result (λ edges. edges ≡
        edge_to block_then block_then_args.now ∷ edge_to block_else block_else_args.now ∷ []) }
    ensures only_memory { OnErr result (result ≡ Err BuildError.Memory) }
{
    let taken = BlockCall::new(alloc, block_then, block_then_args)?;
    let other = BlockCall::new(alloc, block_else, block_else_args)?;
    Ok([taken, other])
}
