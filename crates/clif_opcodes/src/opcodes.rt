//! The opcodes, one type for each format that has several.
#![tactic(auto)]

ghost use Rattle.std.specs.Prelude.{◌≡◌, Some};
ghost use Rattle.clif_opcodes.specs.Names.{binary_name, cond_trap_name, convert_name, float_const_name, opcode_name, pooled_const_name, stack_name, unary_name};

use std::fmt;

/// Constants that are the bits of a float of at most 64 bits.
#[derive(Clone, Copy, PartialEq, Eq)]
pub enum FloatConstOpcode {
    /// The bits of an F16.
    F16const,
    /// The bits of an F32.
    F32const,
    /// The bits of an F64.
    F64const,
}

impl FloatConstOpcode {
    /// The name, as `f32const`.
    pub fn name(self) -> &'static str
        ensures { result.now ≡ float_const_name self }
    {
        match self {
            FloatConstOpcode::F16const => "f16const",
            FloatConstOpcode::F32const => "f32const",
            FloatConstOpcode::F64const => "f64const",
        }
    }
}

/// Constants whose bytes are pooled.
#[derive(Clone, Copy, PartialEq, Eq)]
pub enum PooledConstOpcode {
    /// An F128.
    F128const,
    /// A vector.
    Vconst,
}

impl PooledConstOpcode {
    /// The name, as `vconst`.
    pub fn name(self) -> &'static str
        ensures { result.now ≡ pooled_const_name self }
    {
        match self {
            PooledConstOpcode::F128const => "f128const",
            PooledConstOpcode::Vconst => "vconst",
        }
    }
}

/// Instructions of one operand, whose result has its type.
#[derive(Clone, Copy, PartialEq, Eq)]
pub enum UnaryOpcode {
    /// The negative in two's complement.
    Ineg,
    /// Each bit inverted.
    Bnot,
}

impl UnaryOpcode {
    /// The name, as `ineg`.
    pub fn name(self) -> &'static str
        ensures { result.now ≡ unary_name self }
    {
        match self {
            UnaryOpcode::Ineg => "ineg",
            UnaryOpcode::Bnot => "bnot",
        }
    }
}

/// Instructions with one operand and an explicit result type.
#[derive(Clone, Copy, PartialEq, Eq)]
pub enum ConvertOpcode {
    /// A vector with the operand in every lane.
    Splat,
    /// A wider integer, with zeros above the operand.
    Uextend,
    /// A wider integer, with copies of the operand's sign bit above it.
    Sextend,
    /// A narrower integer: the operand's low bits.
    Ireduce,
}

impl ConvertOpcode {
    /// The name, as `uextend`.
    pub fn name(self) -> &'static str
        ensures { result.now ≡ convert_name self }
    {
        match self {
            ConvertOpcode::Splat => "splat",
            ConvertOpcode::Uextend => "uextend",
            ConvertOpcode::Sextend => "sextend",
            ConvertOpcode::Ireduce => "ireduce",
        }
    }
}

/// Instructions of two operands, whose result has the type of the first.
#[derive(Clone, Copy, PartialEq, Eq)]
pub enum BinaryOpcode {
    /// The sum, modulo two to the type's width.
    Iadd,
    /// The difference, modulo two to the type's width.
    Isub,
    /// The product, modulo two to the type's width.
    Imul,
    /// The bits that are set in both.
    Band,
    /// The bits that are set in one or both.
    Bor,
    /// The bits that are set in exactly one.
    Bxor,
    /// Shifted left. Shift amounts are taken modulo the type's width.
    Ishl,
    /// Shifted right, with zeros from the left.
    Ushr,
    /// Shifted right, with copies of the sign bit from the left.
    Sshr,
    /// The quotient of unsigned numbers. Division by zero traps.
    Udiv,
    /// The quotient of signed numbers, rounded toward zero. Division by zero traps, and so does the least number
    /// divided by -1.
    Sdiv,
    /// The remainder of unsigned numbers. Division by zero traps.
    Urem,
    /// The remainder of signed numbers, with the dividend's sign. Division by zero traps. The least number by -1 gives
    /// 0.
    Srem,
}

impl BinaryOpcode {
    /// The name, as `iadd`.
    pub fn name(self) -> &'static str
        ensures { result.now ≡ binary_name self }
    {
        match self {
            BinaryOpcode::Iadd => "iadd",
            BinaryOpcode::Isub => "isub",
            BinaryOpcode::Imul => "imul",
            BinaryOpcode::Band => "band",
            BinaryOpcode::Bor => "bor",
            BinaryOpcode::Bxor => "bxor",
            BinaryOpcode::Ishl => "ishl",
            BinaryOpcode::Ushr => "ushr",
            BinaryOpcode::Sshr => "sshr",
            BinaryOpcode::Udiv => "udiv",
            BinaryOpcode::Sdiv => "sdiv",
            BinaryOpcode::Urem => "urem",
            BinaryOpcode::Srem => "srem",
        }
    }
}

/// Instructions that name a stack slot and give a value.
#[derive(Clone, Copy, PartialEq, Eq)]
pub enum StackOpcode {
    /// The address of a byte of the slot.
    StackAddr,
    /// What is stored there.
    StackLoad,
}

impl StackOpcode {
    /// The name, as `stack_addr`.
    pub fn name(self) -> &'static str
        ensures { result.now ≡ stack_name self }
    {
        match self {
            StackOpcode::StackAddr => "stack_addr",
            StackOpcode::StackLoad => "stack_load",
        }
    }
}

/// Instructions that trap under a condition.
#[derive(Clone, Copy, PartialEq, Eq)]
pub enum CondTrapOpcode {
    /// Traps if the operand is zero.
    Trapz,
    /// Traps if the operand isn't zero.
    Trapnz,
}

impl CondTrapOpcode {
    /// The name, as `trapz`.
    pub fn name(self) -> &'static str
        ensures { result.now ≡ cond_trap_name self }
    {
        match self {
            CondTrapOpcode::Trapz => "trapz",
            CondTrapOpcode::Trapnz => "trapnz",
        }
    }
}

/// The opcode of any instruction: one variant per format, with the format's own opcode where it has several.
#[derive(Clone, Copy, PartialEq, Eq)]
pub enum Opcode {
    /// An integer constant.
    Iconst,
    /// A float constant, by its bits.
    FloatConst(FloatConstOpcode),
    /// A constant whose bytes are pooled.
    PooledConst(PooledConstOpcode),
    /// One operand, and a result of its type.
    Unary(UnaryOpcode),
    /// One operand, and a result of a given type.
    Convert(ConvertOpcode),
    /// Two operands, and a result of the first one's type.
    Binary(BinaryOpcode),
    /// An integer of twice the width, of its low half and its high half.
    Iconcat,
    /// The low half and the high half of an integer: the one instruction with two results of its own.
    Isplit,
    /// A comparison of two integers: 1 or 0.
    Icmp,
    /// One of two operands, by a condition.
    Select,
    /// What is in memory at an address.
    Load,
    /// Puts a value into memory at an address.
    Store,
    /// The address of a byte of a stack slot, or what is there.
    Stack(StackOpcode),
    /// Puts a value into a stack slot.
    StackStore,
    /// Goes along its edge.
    Jump,
    /// Goes along one of two edges, by a condition.
    Brif,
    /// Goes along an edge of a table, by an index.
    BrTable,
    /// Ends the function.
    Return,
    /// Ends the run with a trap.
    Trap,
    /// Ends the run with a trap, under a condition.
    CondTrap(CondTrapOpcode),
    /// Calls a function.
    Call,
    /// Calls what is at an address.
    CallIndirect,
    /// Calls a function, and continues along an edge, by whether it returns or throws.
    TryCall,
    /// The same for what is at an address.
    TryCallIndirect,
}

impl Opcode {
    /// The name, as the printer writes it.
    pub fn name(self) -> &'static str
        ensures { result.now ≡ opcode_name self }
    {
        match self {
            Opcode::Iconst => "iconst",
            Opcode::FloatConst(opcode) => opcode.name(),
            Opcode::PooledConst(opcode) => opcode.name(),
            Opcode::Unary(opcode) => opcode.name(),
            Opcode::Binary(opcode) => opcode.name(),
            Opcode::Convert(opcode) => opcode.name(),
            Opcode::Iconcat => "iconcat",
            Opcode::Isplit => "isplit",
            Opcode::Icmp => "icmp",
            Opcode::Select => "select",
            Opcode::Load => "load",
            Opcode::Store => "store",
            Opcode::Stack(opcode) => opcode.name(),
            Opcode::StackStore => "stack_store",
            Opcode::Jump => "jump",
            Opcode::Brif => "brif",
            Opcode::BrTable => "br_table",
            Opcode::Return => "return",
            Opcode::Trap => "trap",
            Opcode::CondTrap(opcode) => opcode.name(),
            Opcode::Call => "call",
            Opcode::CallIndirect => "call_indirect",
            Opcode::TryCall => "try_call",
            Opcode::TryCallIndirect => "try_call_indirect",
        }
    }
}

impl fmt::Display for Opcode {
    ghost output = { λ opcode. Some (opcode_name opcode) };

    fn fmt<W: fmt::Write>(&self, f: &mut fmt::Formatter<W>) -> fmt::Result {
        f.write_str(self.name())
    }
}
