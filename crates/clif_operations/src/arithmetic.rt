//! What opcodes make of the bits of their operands, one function a format.
ghost use Rattle.std.specs.Prelude.{◌<◌, IfOk};

use clif_opcodes::{BinaryOpcode, CondTrapOpcode, ConvertOpcode, UnaryOpcode};
use clif_types::{IntCC, TrapCode, Type};

/// The greatest value of a type's width, of which at most 128 bits are kept.
pub fn greatest(ty: Type) -> u128 {
    let width = ty.bits();
    if width >= 128 {
        u128::MAX
    } else {
        (1u128 << width) - 1
    }
}

/// The bits of a value with these bytes, the lowest first, of which at most 128 bits are kept.
pub fn bits_of_bytes(bytes: &[u8]) -> u128 {
    let mut bits = 0u128;
    for byte in bytes.iter().rev() {
        bits = bits.wrapping_shl(8) | u128::from(*byte);
    }
    bits
}

/// A number of 64 bits in two's complement: its low bits, or its sign repeated.
pub fn constant(ty: Type, number: i64) -> u128 {
    let size = u128::from(number.unsigned_abs());
    if number < 0 {
        (size - 1) & greatest(ty) ^ greatest(ty)
    } else {
        size & greatest(ty)
    }
}

/// An operation on one operand, of a type.
pub fn unary(opcode: UnaryOpcode, ty: Type, x: u128) -> u128 {
    let bits = match opcode {
        UnaryOpcode::Ineg => 0u128.wrapping_sub(x),
        UnaryOpcode::Bnot => !x,
    };
    bits & greatest(ty)
}

// A vector of at most 128 bits, with the same bits in every lane.
fn splat(ty: Type, x: u128) -> u128 {
    let mut bits = 0u128;
    for _ in 0..ty.lane_count() {
        bits = bits.wrapping_shl(ty.lane_type().bits()) | x;
    }
    bits
}

/// A value of a type from the bits of one operand, and the type of that.
pub fn convert(opcode: ConvertOpcode, ty: Type, from: Type, x: u128) -> u128 {
    let bits = match opcode {
        ConvertOpcode::Uextend | ConvertOpcode::Ireduce => x,
        ConvertOpcode::Sextend if is_negative(from, x) => x | !greatest(from),
        ConvertOpcode::Sextend => x,
        ConvertOpcode::Splat => splat(ty, x),
    };
    bits & greatest(ty)
}

/// Whether a number of a type is negative in two's complement.
pub fn is_negative(ty: Type, x: u128) -> bool {
    x > greatest(ty) >> 1
}

/// How far a number in two's complement is from zero.
pub fn magnitude(ty: Type, x: u128) -> u128 {
    if is_negative(ty, x) {
        0u128.wrapping_sub(x) & greatest(ty)
    } else {
        x
    }
}

// A number of a sign, from how far it is from zero.
fn with_sign(negative: bool, x: u128) -> u128 {
    if negative { 0u128.wrapping_sub(x) } else { x }
}

// A divisor that isn't zero.
fn divisor(y: u128) -> Result<u128, TrapCode>
    ensures { IfOk result (λ d. 0 < d) }
{
    if y == 0 {
        return Err(TrapCode::DivisionByZero);
    }
    Ok(y)
}

// The quotient and the remainder of unsigned numbers.
fn divided(x: u128, y: u128) -> Result<(u128, u128), TrapCode> {
    let by = divisor(y)?;
    Ok((x / by, x % by))
}

// The quotient and the remainder of signed numbers.
fn divided_signed(ty: Type, x: u128, y: u128) -> Result<(u128, u128), TrapCode> {
    let (quotient, rest) = divided(magnitude(ty, x), magnitude(ty, y))?;
    let (above, below) = (is_negative(ty, x), is_negative(ty, y));
    Ok((with_sign(above != below, quotient), with_sign(above, rest)))
}

// The quotient of signed numbers, which may be too great for the type.
fn quotient(ty: Type, x: u128, y: u128) -> Result<u128, TrapCode> {
    let (bits, _) = divided_signed(ty, x, y)?;
    let is_too_great = is_negative(ty, x) == is_negative(ty, y) && is_negative(ty, bits);
    if is_too_great {
        Err(TrapCode::IntegerOverflow)
    } else {
        Ok(bits)
    }
}

// By how many bits a shift goes.
fn amount(ty: Type, y: u128) -> u32 {
    (y % u128::from(ty.bits().max(1))) as u32
}

// Shifted right, with copies of the sign.
fn shifted(ty: Type, x: u128, count: u32) -> u128 {
    if is_negative(ty, x) {
        !((!x & greatest(ty)).wrapping_shr(count))
    } else {
        x.wrapping_shr(count)
    }
}

/// An operation on two operands, of a type.
///
/// # Errors
///
/// The reason of the trap, where the operation traps.
pub fn binary(opcode: BinaryOpcode, ty: Type, x: u128, y: u128) -> Result<u128, TrapCode> {
    let bits = match opcode {
        BinaryOpcode::Iadd => x.wrapping_add(y),
        BinaryOpcode::Isub => x.wrapping_sub(y),
        BinaryOpcode::Imul => x.wrapping_mul(y),
        BinaryOpcode::Band => x & y,
        BinaryOpcode::Bor => x | y,
        BinaryOpcode::Bxor => x ^ y,
        BinaryOpcode::Ishl => x.wrapping_shl(amount(ty, y)),
        BinaryOpcode::Ushr => x.wrapping_shr(amount(ty, y)),
        BinaryOpcode::Sshr => shifted(ty, x, amount(ty, y)),
        BinaryOpcode::Udiv => divided(x, y)?.0,
        BinaryOpcode::Sdiv => quotient(ty, x, y)?,
        BinaryOpcode::Urem => divided(x, y)?.1,
        BinaryOpcode::Srem => divided_signed(ty, x, y)?.1,
    };
    Ok(bits & greatest(ty))
}

/// The integer of two halves of a type.
pub fn concat(ty: Type, low: u128, high: u128) -> u128 {
    low | high.wrapping_shl(ty.bits())
}

/// The low half and the high half of an integer of a type.
pub fn split(ty: Type, x: u128) -> (u128, u128) {
    let half = ty.bits() / 2;
    let high = x.wrapping_shr(half);
    (x ^ high.wrapping_shl(half), high)
}

/// Whether a condition holds of two numbers of a type. With their signs turned, signed numbers are in the order of
/// unsigned ones.
pub fn compares(cond: IntCC, ty: Type, x: u128, y: u128) -> bool {
    let sign = greatest(ty) ^ (greatest(ty) >> 1);
    match cond {
        IntCC::Equal => x == y,
        IntCC::NotEqual => x != y,
        IntCC::SignedLessThan => x ^ sign < y ^ sign,
        IntCC::SignedGreaterThanOrEqual => x ^ sign >= y ^ sign,
        IntCC::SignedGreaterThan => x ^ sign > y ^ sign,
        IntCC::SignedLessThanOrEqual => x ^ sign <= y ^ sign,
        IntCC::UnsignedLessThan => x < y,
        IntCC::UnsignedGreaterThanOrEqual => x >= y,
        IntCC::UnsignedGreaterThan => x > y,
        IntCC::UnsignedLessThanOrEqual => x <= y,
    }
}

/// Whether a trap under a condition comes.
pub fn traps(opcode: CondTrapOpcode, c: u128) -> bool {
    match opcode {
        CondTrapOpcode::Trapz => c == 0,
        CondTrapOpcode::Trapnz => c != 0,
    }
}
