//! Numbers in instructions, and how they are printed.
ghost use Rattle.std.specs.Prelude.{◌≡◌, ◌*◌, ◌^◌, ◌≤◌, ◌<◌, ◌++◌, ◌∷◌, [], Some, codes};
ghost use Rattle.std.specs.Fmt.{WritesOnOk};
ghost use Rattle.clif_instructions.specs.Immediates.{centred, signed_at, hex_groups, significant, imm64_text};
ghost use Rattle.clif_types.specs.Types.{bits_of};

use clif_opcodes::FloatConstOpcode;
use clif_types::Type;
use std::fmt;

// The number from `-half` up to `half - 1` that is `low` modulo twice `half`.
fn centred(half: u64, low: u64) -> i64
    requires narrow { half ≤ 2 ^ 62 }
    requires fits { low < 2 * half }
    ensures { result ≡ centred half low }
{
    if low < half {
        low.cast_signed()
    } else {
        -(2 * half - low).cast_signed()
    }
}

// The power of two with an exponent below 64.
fn power_of_two(exponent: u32) -> u64
    requires { exponent < 64 }
    ensures { result ≡ 2 ^ exponent }
{
    1 << exponent
}

/// The number that the low bits of `imm` mean as a signed number of the width of `ty`.
///
/// A width of 64 bits or more, or none, keeps the number.
pub fn signed_at(imm: i64, ty: Type) -> i64
    ensures { result ≡ signed_at (bits_of ty) imm }
{
    let bits = ty.bits();
    if bits == 0 || bits >= 64 {
        return imm;
    }
    centred(
        power_of_two(bits - 1),
        imm.cast_unsigned() % power_of_two(bits),
    )
}

/// A 64-bit number as it is printed: decimal from -9999 to 9999; else `0x` and its bits in groups of
/// four hexadecimal digits joined by `_`, without leading groups that are zero.
#[derive(Clone, Copy, Debug, PartialEq, Eq)]
pub struct Imm64(pub i64);

// Writes `0x` and the groups, without those at the head that are zero.
fn write_groups<W: fmt::Write>(
    f: &mut fmt::Formatter<W>,
    first: u64,
    second: u64,
    third: u64,
    last: u64,
) -> fmt::Result
    ensures { WritesOnOk W.write_str_gives f.old result (codes "0x" ++ hex_groups (significant (first ∷ second ∷ third ∷ last ∷ []))) f.new }
{
    if first != 0 {
        write!(f, "0x{first:04x}_{second:04x}_{third:04x}_{last:04x}")
    } else if second != 0 {
        write!(f, "0x{second:04x}_{third:04x}_{last:04x}")
    } else if third != 0 {
        write!(f, "0x{third:04x}_{last:04x}")
    } else {
        write!(f, "0x{last:04x}")
    }
}

impl fmt::Display for Imm64 {
    ghost output = { λ n. Some (imm64_text n.0) };

    fn fmt<W: fmt::Write>(&self, f: &mut fmt::Formatter<W>) -> fmt::Result {
        let number = self.0;
        if number.unsigned_abs() <= 9999 {
            return write!(f, "{number}");
        }
        let bits = number.cast_unsigned();
        write_groups(
            f,
            bits >> 48,
            (bits >> 32) % 0x1_0000,
            (bits >> 16) % 0x1_0000,
            bits % 0x1_0000,
        )
    }
}

/// The bits of a float as they are printed: `0.0` if they are all zero, and else `0x` and a digit for each four bits.
#[derive(Clone, Copy)]
pub struct FloatBits {
    /// Which float it is.
    pub opcode: FloatConstOpcode,
    /// Its bits, of which those above its width are zero.
    pub bits: u64,
}

impl fmt::Display for FloatBits {
    fn fmt<W: fmt::Write>(&self, f: &mut fmt::Formatter<W>) -> fmt::Result {
        let bits = self.bits;
        if bits == 0 {
            return f.write_str("0.0");
        }
        match self.opcode {
            FloatConstOpcode::F16const => write!(f, "0x{bits:04x}"),
            FloatConstOpcode::F32const => write!(f, "0x{bits:08x}"),
            FloatConstOpcode::F64const => write!(f, "0x{bits:016x}"),
        }
    }
}

/// The offset of an address as it is printed behind that: its sign and its amount, and nothing where it is zero. An
/// amount above 9999 is hexadecimal, as [`Imm64`] prints it.
#[derive(Clone, Copy)]
pub struct Offset32(pub i32);

impl fmt::Display for Offset32 {
    fn fmt<W: fmt::Write>(&self, f: &mut fmt::Formatter<W>) -> fmt::Result {
        let offset = self.0;
        if offset == 0 {
            return Ok(());
        }
        f.write_str(if offset < 0 { "-" } else { "+" })?;
        let amount = Imm64(i64::from(offset.unsigned_abs()));
        write!(f, "{amount}")
    }
}
