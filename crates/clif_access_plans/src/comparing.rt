//! Comparisons.
#![tactic(auto)]

ghost use Rattle.std.specs.Prelude.{◌≡◌, IsTrue};
ghost use Rattle.std.specs.Prelude.{◌*◌};
ghost use Rattle.clif_types.specs.Types.{int_of};
ghost use Rattle.clif_byte_laws.specs.Comparing.{sign_condition};
ghost use Rattle.clif_meaning.specs.ByteOperation.{is_by_loads, is_unsigned, order_meets, tells_equality};
ghost use Rattle.clif_access_plans.specs.Plans.{compare_plan, is_aligned_load};
ghost use Rattle.std.specs.declared.cmp.Ordering.TheVariants.{Equal};

use clif_types::types::{I8, I16, I32, I64, I128};
use clif_types::{IntCC, Type};

/// How bytes are compared.
#[derive(Clone, Copy, PartialEq, Eq, Debug)]
pub enum ComparePlan {
    /// There are none: a constant.
    Constant(i64),
    /// Each side is loaded as an integer of this type.
    Inline(Type),
    /// By a call of `Memcmp`, whose number is compared with zero by this condition.
    LibraryCall(IntCC),
}

/// How a comparison of so many bytes is made.
pub fn plan_compare(cond: IntCC, size: u64) -> ComparePlan
    requires { IsTrue (is_unsigned cond) }
    ensures { result ≡ compare_plan cond size }
{
    if size == 0 {
        return ComparePlan::Constant(i64::from(holds_of_same(cond)));
    }
    match loaded_type(size) {
        Some(ty) if tells_equality(cond) || size == 1 => ComparePlan::Inline(ty),
        _ => ComparePlan::LibraryCall(sign_condition(cond)),
    }
}

/// Whether a load of such a comparison is said to be aligned: where its alignment is the size, and if single bytes are ordered
/// always.
pub fn is_aligned_load(cond: IntCC, size: u64, alignment: u8) -> bool
    ensures { result ≡ is_aligned_load cond size alignment }
{
    !tells_equality(cond) || u64::from(alignment) == size
}

// Whether the condition tells if bytes are the same.
fn tells_equality(cond: IntCC) -> bool
    ensures { result ≡ tells_equality cond }
{
    matches!(cond, IntCC::Equal | IntCC::NotEqual)
}

// Whether the condition holds of bytes that are the same.
fn holds_of_same(cond: IntCC) -> bool
    requires { IsTrue (is_unsigned cond) }
    ensures { result ≡ order_meets cond Equal }
{
    match cond {
        IntCC::Equal | IntCC::UnsignedGreaterThanOrEqual | IntCC::UnsignedLessThanOrEqual => true,
        _ => false,
    }
}

// The condition that compares the number of `Memcmp` with zero.
fn sign_condition(cond: IntCC) -> IntCC
    ensures { result ≡ sign_condition cond }
{
    match cond {
        IntCC::UnsignedLessThan => IntCC::SignedLessThan,
        IntCC::UnsignedGreaterThanOrEqual => IntCC::SignedGreaterThanOrEqual,
        IntCC::UnsignedGreaterThan => IntCC::SignedGreaterThan,
        IntCC::UnsignedLessThanOrEqual => IntCC::SignedLessThanOrEqual,
        cond => cond,
    }
}

// The integer type of so many bytes, if there is one.
fn loaded_type(size: u64) -> Option<Type>
    ensures { result ≡ int_of (8 * size) }
{
    match size {
        1 => Some(I8),
        2 => Some(I16),
        4 => Some(I32),
        8 => Some(I64),
        16 => Some(I128),
        _ => None,
    }
}
