//! How the end of a run is printed.
use clif_operations::arithmetic::{is_negative, magnitude};
use clif_types::{AbiParam, Type};
use clif_worlds::End;
use std::fmt;

/// How a run ended that has a bound on its steps, for a function that returns these types. It prints as
/// `returned 7, 255 (-1)`, where a float or a vector is its bits in base 16, as `returned nothing`, `trapped: user1`,
/// `stuck` or `hasn't ended after 1000 steps`.
#[derive(Clone, Copy)]
pub struct Shown<'a> {
    /// How it ended.
    pub end: &'a End,
    /// What the function returns.
    pub returns: &'a [AbiParam],
    /// The bound.
    pub steps: u64,
}

impl fmt::Display for Shown<'_> {
    fn fmt<W: fmt::Write>(&self, f: &mut fmt::Formatter<W>) -> fmt::Result {
        match self.end {
            End::Returned(values) => write_values(f, values.as_slice(), self.returns),
            End::Trapped(code) => write!(f, "trapped: {code}"),
            End::Stuck => f.write_str("stuck"),
            End::OutOfSteps => {
                let steps = self.steps;
                write!(f, "hasn't ended after {steps} steps")
            }
        }
    }
}

fn write_values<W: fmt::Write>(
    f: &mut fmt::Formatter<W>,
    values: &[u128],
    returns: &[AbiParam],
) -> fmt::Result {
    f.write_str("returned ")?;
    if values.is_empty() {
        return f.write_str("nothing");
    }
    for (index, (bits, param)) in values.iter().zip(returns.iter()).enumerate() {
        if index > 0 {
            f.write_str(", ")?;
        }
        write_value(f, param.value_type, *bits)?;
    }
    Ok(())
}

// An integer, and what it is with its sign if it is negative so; else bits.
fn write_value<W: fmt::Write>(f: &mut fmt::Formatter<W>, ty: Type, bits: u128) -> fmt::Result {
    if !ty.is_int() {
        return write!(f, "{bits:#x}");
    }
    write!(f, "{bits}")?;
    if is_negative(ty, bits) {
        let size = magnitude(ty, bits);
        write!(f, " (-{size})")?;
    }
    Ok(())
}
