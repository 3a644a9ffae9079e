//! The table of the methods that make instructions.
#![tactic(auto)]

use cranelift_frontend::Opcode::{
    Binary, BrTable, Brif, Call, CallIndirect, CondTrap, Convert, FloatConst, Icmp, Iconcat,
    Iconst, Isplit, Jump, Load, PooledConst, Return, Select, Stack, StackStore, Store, Trap,
    TryCall, TryCallIndirect, Unary,
};
use cranelift_frontend::{
    BinaryOpcode, CondTrapOpcode, ConvertOpcode, FloatConstOpcode, IntCC, Opcode,
    PooledConstOpcode, StackOpcode, TrapCode, UnaryOpcode,
};

/// What the data of an instruction has beside its opcode, its operands and its edges. Entries of tables are named by their
/// numbers.
#[derive(Clone, Copy, PartialEq, Eq)]
pub enum Immediate {
    /// There is nothing else.
    Nothing,
    /// A number.
    Number(i64),
    /// The bits of a float.
    Bits(u64),
    /// A pooled constant.
    Pooled(u32),
    /// A condition.
    Condition(IntCC),
    /// Whether the flags say `notrap` and `aligned`, and the offset.
    Memory(bool, bool, i32),
    /// A stack slot and an offset.
    Place(u32, i32),
    /// A reason for a trap.
    Reason(TrapCode),
    /// A function.
    Function(u32),
    /// A signature.
    Signature(u32),
    /// A function, and the signature of an exception table.
    Both(u32, u32),
}

/// What an edge passes.
#[derive(Clone, Copy, PartialEq, Eq)]
pub enum Passed {
    /// A value.
    Value(u32),
    /// What a try call returns, at this place.
    Returned(u32),
    /// This part of an exception.
    Thrown(u32),
}

/// An edge: the number of its target, and what it passes.
pub type Edge = (u32, &'static [Passed]);

/// A row of the table: the opcode, which names the method; the line of the function's text; the operands, by their
/// numbers; what the data has beside these; and the edges.
pub struct Row(
    pub Opcode,
    pub &'static str,
    pub &'static [u32],
    pub Immediate,
    pub &'static [Edge],
);

/// The methods of `InstBuilder` for an instruction that has no edges: 40. The trait has 45 methods for an instruction, one
/// for each value of [`Opcode`]; [`branch_rows`] has two more, and [`table_rows`] the other three. Beside these it has
/// seven for a format, which make the instructions of the same rows.
///
/// v0 and v1 have the type I32 and v2 the type I64; v3 is a parameter of block1.
pub fn rows() -> &'static [Row] {
    &ROWS
}

/// The two whose edges are arguments.
pub fn branch_rows() -> &'static [Row] {
    &BRANCH_ROWS
}

/// The three that take a table of their own.
pub fn table_rows() -> &'static [Row] {
    &TABLE_ROWS
}

// A test asks for the rows by a call, since a proof about a loop over the table itself has all of it in sight.
static ROWS: [Row; 40] = [
    Row(Iconst, "v4 = iconst.i32 7", &[], Immediate::Number(7), &[]),
    Row(
        FloatConst(FloatConstOpcode::F16const),
        "v4 = f16const 0x3c00",
        &[],
        Immediate::Bits(0x3c00),
        &[],
    ),
    Row(
        FloatConst(FloatConstOpcode::F32const),
        "v4 = f32const 0x3f800000",
        &[],
        Immediate::Bits(0x3f80_0000),
        &[],
    ),
    Row(
        FloatConst(FloatConstOpcode::F64const),
        "v4 = f64const 0x3ff0000000000000",
        &[],
        Immediate::Bits(0x3ff0_0000_0000_0000),
        &[],
    ),
    Row(
        PooledConst(PooledConstOpcode::F128const),
        "v4 = f128const const0",
        &[],
        Immediate::Pooled(0),
        &[],
    ),
    Row(
        PooledConst(PooledConstOpcode::Vconst),
        "v4 = vconst.i8x16 const0",
        &[],
        Immediate::Pooled(0),
        &[],
    ),
    Row(
        Unary(UnaryOpcode::Ineg),
        "v4 = ineg v0",
        &[0],
        Immediate::Nothing,
        &[],
    ),
    Row(
        Unary(UnaryOpcode::Bnot),
        "v4 = bnot v0",
        &[0],
        Immediate::Nothing,
        &[],
    ),
    Row(
        Convert(ConvertOpcode::Splat),
        "v4 = splat.i32x4 v0",
        &[0],
        Immediate::Nothing,
        &[],
    ),
    Row(
        Convert(ConvertOpcode::Uextend),
        "v4 = uextend.i64 v0",
        &[0],
        Immediate::Nothing,
        &[],
    ),
    Row(
        Convert(ConvertOpcode::Sextend),
        "v4 = sextend.i128 v0",
        &[0],
        Immediate::Nothing,
        &[],
    ),
    Row(
        Convert(ConvertOpcode::Ireduce),
        "v4 = ireduce.i16 v0",
        &[0],
        Immediate::Nothing,
        &[],
    ),
    Row(
        Binary(BinaryOpcode::Iadd),
        "v4 = iadd v0, v1",
        &[0, 1],
        Immediate::Nothing,
        &[],
    ),
    Row(
        Binary(BinaryOpcode::Isub),
        "v4 = isub v0, v1",
        &[0, 1],
        Immediate::Nothing,
        &[],
    ),
    Row(
        Binary(BinaryOpcode::Imul),
        "v4 = imul v0, v1",
        &[0, 1],
        Immediate::Nothing,
        &[],
    ),
    Row(
        Binary(BinaryOpcode::Band),
        "v4 = band v0, v1",
        &[0, 1],
        Immediate::Nothing,
        &[],
    ),
    Row(
        Binary(BinaryOpcode::Bor),
        "v4 = bor v0, v1",
        &[0, 1],
        Immediate::Nothing,
        &[],
    ),
    Row(
        Binary(BinaryOpcode::Bxor),
        "v4 = bxor v0, v1",
        &[0, 1],
        Immediate::Nothing,
        &[],
    ),
    Row(
        Binary(BinaryOpcode::Ishl),
        "v4 = ishl v0, v1",
        &[0, 1],
        Immediate::Nothing,
        &[],
    ),
    Row(
        Binary(BinaryOpcode::Ushr),
        "v4 = ushr v0, v1",
        &[0, 1],
        Immediate::Nothing,
        &[],
    ),
    Row(
        Binary(BinaryOpcode::Sshr),
        "v4 = sshr v0, v1",
        &[0, 1],
        Immediate::Nothing,
        &[],
    ),
    Row(
        Binary(BinaryOpcode::Udiv),
        "v4 = udiv v0, v1",
        &[0, 1],
        Immediate::Nothing,
        &[],
    ),
    Row(
        Binary(BinaryOpcode::Sdiv),
        "v4 = sdiv v0, v1",
        &[0, 1],
        Immediate::Nothing,
        &[],
    ),
    Row(
        Binary(BinaryOpcode::Urem),
        "v4 = urem v0, v1",
        &[0, 1],
        Immediate::Nothing,
        &[],
    ),
    Row(
        Binary(BinaryOpcode::Srem),
        "v4 = srem v0, v1",
        &[0, 1],
        Immediate::Nothing,
        &[],
    ),
    Row(
        Iconcat,
        "v4 = iconcat v0, v1",
        &[0, 1],
        Immediate::Nothing,
        &[],
    ),
    Row(Isplit, "v4, v5 = isplit v2", &[2], Immediate::Nothing, &[]),
    Row(
        Icmp,
        "v4 = icmp ult v0, v1",
        &[0, 1],
        Immediate::Condition(IntCC::UnsignedLessThan),
        &[],
    ),
    Row(
        Select,
        "v4 = select v2, v0, v1",
        &[2, 0, 1],
        Immediate::Nothing,
        &[],
    ),
    Row(
        Load,
        "v4 = load.i32 notrap v2+4",
        &[2],
        Immediate::Memory(true, false, 4),
        &[],
    ),
    Row(
        Store,
        "store aligned v0, v2-8",
        &[0, 2],
        Immediate::Memory(false, true, -8),
        &[],
    ),
    Row(
        Stack(StackOpcode::StackAddr),
        "v4 = stack_addr.i64 ss0+4",
        &[],
        Immediate::Place(0, 4),
        &[],
    ),
    Row(
        Stack(StackOpcode::StackLoad),
        "v4 = stack_load.i32 ss0-4",
        &[],
        Immediate::Place(0, -4),
        &[],
    ),
    Row(
        StackStore,
        "stack_store v0, ss0",
        &[0],
        Immediate::Place(0, 0),
        &[],
    ),
    Row(
        CondTrap(CondTrapOpcode::Trapz),
        "trapz v0, user7",
        &[0],
        Immediate::Reason(TrapCode::User(7)),
        &[],
    ),
    Row(
        CondTrap(CondTrapOpcode::Trapnz),
        "trapnz v1, heap_oob",
        &[1],
        Immediate::Reason(TrapCode::HeapOutOfBounds),
        &[],
    ),
    Row(Call, "v4 = call fn0(v0)", &[0], Immediate::Function(0), &[]),
    Row(
        CallIndirect,
        "v4 = call_indirect sig0, v2(v0)",
        &[2, 0],
        Immediate::Signature(0),
        &[],
    ),
    Row(Return, "return v0, v1", &[0, 1], Immediate::Nothing, &[]),
    Row(
        Trap,
        "trap int_ovf",
        &[],
        Immediate::Reason(TrapCode::IntegerOverflow),
        &[],
    ),
];

static BRANCH_ROWS: [Row; 2] = [
    Row(
        Jump,
        "jump block1(v0)",
        &[],
        Immediate::Nothing,
        &[(1, &[Passed::Value(0)])],
    ),
    Row(
        Brif,
        "brif v1, block1(v0), block2",
        &[1],
        Immediate::Nothing,
        &[(1, &[Passed::Value(0)]), (2, &[])],
    ),
];

static TABLE_ROWS: [Row; 3] = [
    Row(
        BrTable,
        "br_table v0, block2, [block1(v1), block2]",
        &[0],
        Immediate::Nothing,
        &[(2, &[]), (1, &[Passed::Value(1)]), (2, &[])],
    ),
    Row(
        TryCall,
        "try_call fn0(v0), sig0, block1(ret0), [ default: block3(exn1) ]",
        &[0],
        Immediate::Both(0, 0),
        &[(1, &[Passed::Returned(0)]), (3, &[Passed::Thrown(1)])],
    ),
    Row(
        TryCallIndirect,
        "try_call_indirect v2(v0), sig0, block1(ret0), []",
        &[2, 0],
        Immediate::Signature(0),
        &[(1, &[Passed::Returned(0)])],
    ),
];
