//! Numbers as words.
ghost use Rattle.std.specs.Prelude.{◌≡◌, ◌<◌, IfSome};
ghost use Rattle.std.specs.Char.{digit_value};
ghost use Rattle.std.specs.Str.Parse.{IsNumeral, digits_value};
ghost use Rattle.clif_words.specs.Spelling.{IsDecimal, IsMagnitude, IsNumber, IsOffset, figures};

/// The number that decimal digits write, if it is below 2^64.
pub fn decimal(digits: &str) -> Option<usize>
    ensures { IfSome result (IsDecimal digits.now) }
{
    if digits.starts_with('+') {
        return None;
    }
    digits.parse().ok()
}

/// The same, below 2^32.
pub fn short_decimal(digits: &str) -> Option<u32>
    ensures { IfSome result (IsDecimal digits.now) }
{
    if digits.starts_with('+') {
        return None;
    }
    digits.parse().ok()
}

// The value of a digit in a base.
fn digit_in(byte: u8, radix: u128) -> Option<u128>
    ensures { IfSome result (λ value. (value ≡ digit_value byte) × (value < radix)) }
{
    let value = match byte {
        b'0'..=b'9' => byte - b'0',
        b'a'..=b'f' => byte - b'a' + 10,
        b'A'..=b'F' => byte - b'A' + 10,
        _ => return None,
    };
    let value = u128::from(value);
    (value < radix).then_some(value)
}

// The number that digits write in a base, below 2^128; `_` may stand anywhere beside a digit.
fn digits_in(digits: &str, radix: u128) -> Option<u128>
    ensures { IfSome result (λ value. IsNumeral radix (figures digits.now) × (digits_value radix (figures digits.now) ≡ value)) }
{
    let mut value: Option<u128> = None;
    for byte in digits.as_bytes() {
        if *byte == b'_' {
            continue;
        }
        let digit = digit_in(*byte, radix)?;
        value = Some(value.unwrap_or(0).checked_mul(radix)?.checked_add(digit)?);
    }
    value
}

/// A number without a sign, below 2^128: digits in base 10, or in base 16 after `0x`.
pub fn wide_magnitude(word: &str) -> Option<u128>
    ensures { IfSome result (IsMagnitude word.now) }
{
    match word.strip_prefix("0x") {
        Some(digits) => digits_in(digits, 16),
        None => digits_in(word, 10),
    }
}

/// The same, below 2^64.
pub fn magnitude(word: &str) -> Option<u64>
    ensures { IfSome result (IsMagnitude word.now) }
{
    u64::try_from(wide_magnitude(word)?).ok()
}

/// A number of 64 bits: digits in base 10, or in base 16 after `0x`, and `-` before it. Up to 2^64 - 1 it
/// is read as its bits, and down to -2^63 with a sign.
pub fn number(word: &str) -> Option<i64>
    ensures { IfSome result (IsNumber word.now) }
{
    let Some(digits) = word.strip_prefix('-') else {
        return Some(magnitude(word)?.cast_signed());
    };
    let magnitude = magnitude(digits)?;
    if magnitude > 1 << 63 {
        return None;
    }
    Some(magnitude.wrapping_neg().cast_signed())
}

/// A distance from an address, within 32 bits: digits in base 10, and `+` or `-` before them or neither.
pub fn offset(word: &str) -> Option<i32>
    ensures { IfSome result (IsOffset word.now) }
{
    word.parse().ok()
}
