//! Bytes in hexadecimal digits.
ghost use Rattle.std.specs.Prelude.{Some, flat_map, reverse};
ghost use Rattle.std.specs.Fmt.{WritesOnOk};
ghost use Rattle.clif_types.specs.Texts.{byte_text, bytes_text};

use std::fmt;

/// Bytes of a constant, the lowest first. They print as `0x` and two hexadecimal digits a byte, from the last byte to the
/// first, as Cranelift writes constants.
#[derive(Clone, Copy)]
pub struct HexBytes<'a>(pub &'a [u8]);

impl fmt::Display for HexBytes<'_> {
    ghost output = { λ text. Some (bytes_text text.0.now) };

    fn fmt<W: fmt::Write>(&self, f: &mut fmt::Formatter<W>) -> fmt::Result {
        f.write_str("0x")?;
        write_from_last(f, self.0)
    }
}

// Writes bytes from the last one to the first.
fn write_from_last<W: fmt::Write>(f: &mut fmt::Formatter<W>, bytes: &[u8]) -> fmt::Result
    ensures { WritesOnOk W.write_str_gives f.old result (flat_map byte_text (reverse bytes.now)) f.new }
{
    for place in 0..bytes.len() {
        let byte = bytes[bytes.len() - 1 - place];
        write_byte(f, byte)?;
    }
    Ok(())
}

// Writes a byte in two digits.
fn write_byte<W: fmt::Write>(f: &mut fmt::Formatter<W>, byte: u8) -> fmt::Result
    ensures { WritesOnOk W.write_str_gives f.old result (byte_text byte) f.new }
{
    write!(f, "{byte:02x}")
}
