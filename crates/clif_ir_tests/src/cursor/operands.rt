//! Instructions with a constant as an operand that a cursor appends. The lines are those of upstream's tests of switches and of stack maps,
//! with other numbers, and with no type where the operand stands in the same block.
#![tactic(auto)]

ghost use Rattle.std.specs.Prelude.{OnOk};
ghost use Rattle.clif_cursor.specs.Cursor.{CanAppend};

use crate::steps::Step::LaidOut;
use crate::steps::{SAMPLE, made_by};
use crate::support::{block_of, prints};
use clif_constant_operands::ConstantOperands;
use clif_cursor::{FuncCursor, InstBuilder};
use clif_types::types::{I8, I64, I128};
use clif_types::{BuildError, EntityRef, IntCC};
use std::test::Fail;

// Sums of zero and -10 in 8 bits, and of another constant and zero in 64.
fn add(cursor: &mut FuncCursor<'_>) -> Result<(), BuildError>
    requires open { CanAppend cursor.old }
    ensures open { OnOk result (CanAppend cursor.new) }
{
    let zero = cursor.ins().iconst(I8, 0)?;
    cursor.ins().iadd_imm_s(zero, -10)?;
    let constant = cursor.ins().iconst(I64, 0x1234_5678)?;
    cursor.ins().iadd_imm_s(constant, 0)?;
    Ok(())
}

// Whether zero in 128 bits is greater than the greatest number of 32 bits.
fn compare(cursor: &mut FuncCursor<'_>) -> Result<(), BuildError>
    requires open { CanAppend cursor.old }
    ensures open { OnOk result (CanAppend cursor.new) }
{
    let zero = cursor.ins().iconst(I64, 0)?;
    let wide = cursor.ins().uextend(I128, zero)?;
    cursor
        .ins()
        .icmp_imm_s(IntCC::UnsignedGreaterThan, wide, 0xffff_ffff)?;
    Ok(())
}

#[test]
fn sums(rt: HostRuntime) -> Result<(), Fail> {
    let mut func = made_by(&rt, rt.alloc(), SAMPLE, &[LaidOut], "sums")?;
    let block = block_of(&rt, &func, 0);
    let mut cursor = FuncCursor::new(&mut func, block);
    assert!(rt; block.index() < cursor.func().block_count());
    assert!(rt; !cursor.is_filled());
    add(&mut cursor)?;
    cursor.ins().return_(&[])?;
    let text =
        "function %sample() system_v {\nblock0:\n    v0 = iconst.i8 0\n    v1 = iconst.i8 -10\n    v2 = iadd v0, v1  ; v0 = 0, v1 = -10\n    v3 = iconst.i64 0x1234_5678\n    v4 = iconst.i64 0\n    v5 = iadd v3, v4  ; v3 = 0x1234_5678, v4 = 0\n    return\n}\n";
    prints(&rt, &func, text, "sums")
}

#[test]
fn a_comparison_of_128_bits(rt: HostRuntime) -> Result<(), Fail> {
    let mut func = made_by(
        &rt,
        rt.alloc(),
        SAMPLE,
        &[LaidOut],
        "a_comparison_of_128_bits",
    )?;
    let block = block_of(&rt, &func, 0);
    let mut cursor = FuncCursor::new(&mut func, block);
    assert!(rt; block.index() < cursor.func().block_count());
    assert!(rt; !cursor.is_filled());
    compare(&mut cursor)?;
    cursor.ins().return_(&[])?;
    let text =
        "function %sample() system_v {\nblock0:\n    v0 = iconst.i64 0\n    v1 = uextend.i128 v0  ; v0 = 0\n    v2 = iconst.i64 0xffff_ffff\n    v3 = sextend.i128 v2  ; v2 = 0xffff_ffff\n    v4 = icmp ugt v1, v3\n    return\n}\n";
    prints(&rt, &func, text, "a_comparison_of_128_bits")
}
