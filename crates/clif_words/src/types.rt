//! Types, conventions, conditions and reasons for traps as words.
ghost use Rattle.std.specs.Prelude.{◌≡◌, IfSome};
ghost use Rattle.clif_types.specs.Texts.{call_conv_text, int_cc_text, lane_text, lib_call_text};
ghost use Rattle.clif_types.specs.Types.{lanes_of};
ghost use Rattle.std.specs.Fmt.{decimal};
ghost use Rattle.clif_words.specs.Spelling.{IsTrapCode, IsTypeWord, pointer_text};

use crate::number::short_decimal;
use clif_types::{CallConv, IntCC, LaneCount, LaneType, LibCall, PointerWidth, TrapCode, Type};

fn lane_named(word: &str) -> Option<LaneType>
    ensures { IfSome result (λ lane. word.now ≡ lane_text lane) }
{
    match word {
        "i8" => Some(LaneType::I8),
        "i16" => Some(LaneType::I16),
        "i32" => Some(LaneType::I32),
        "i64" => Some(LaneType::I64),
        "i128" => Some(LaneType::I128),
        "f16" => Some(LaneType::F16),
        "f32" => Some(LaneType::F32),
        "f64" => Some(LaneType::F64),
        "f128" => Some(LaneType::F128),
        _ => None,
    }
}

fn lanes_named(word: &str) -> Option<LaneCount>
    ensures { IfSome result (λ lanes. word.now ≡ decimal (lanes_of lanes)) }
{
    match word {
        "2" => Some(LaneCount::Two),
        "4" => Some(LaneCount::Four),
        "8" => Some(LaneCount::Eight),
        "16" => Some(LaneCount::Sixteen),
        "32" => Some(LaneCount::ThirtyTwo),
        "64" => Some(LaneCount::SixtyFour),
        _ => None,
    }
}

/// The type of this name: a lane, as `i32`, or a vector of at most 64 bytes, as `i8x16`.
pub fn type_named(word: &str) -> Option<Type>
    ensures { IfSome result (IsTypeWord word.now) }
{
    let ty = match word.split_once('x') {
        None => Type::Lane(lane_named(word)?),
        Some((lane, lanes)) => Type::Vector(lane_named(lane)?, lanes_named(lanes)?),
    };
    ty.is_valid().then_some(ty)
}

/// The convention of this name.
pub fn call_conv_named(word: &str) -> Option<CallConv>
    ensures { IfSome result (λ conv. word.now ≡ call_conv_text conv) }
{
    match word {
        "fast" => Some(CallConv::Fast),
        "system_v" => Some(CallConv::SystemV),
        "tail" => Some(CallConv::Tail),
        _ => None,
    }
}

/// The function of the C library of this name.
pub fn lib_call_named(word: &str) -> Option<LibCall>
    ensures { IfSome result (λ call. word.now ≡ lib_call_text call) }
{
    match word {
        "Memcpy" => Some(LibCall::Memcpy),
        "Memmove" => Some(LibCall::Memmove),
        "Memset" => Some(LibCall::Memset),
        "Memcmp" => Some(LibCall::Memcmp),
        _ => None,
    }
}

/// The width of pointers, by its number of bits.
pub fn pointer_width_named(word: &str) -> Option<PointerWidth>
    ensures { IfSome result (λ width. word.now ≡ pointer_text width) }
{
    match word {
        "16" => Some(PointerWidth::U16),
        "32" => Some(PointerWidth::U32),
        "64" => Some(PointerWidth::U64),
        _ => None,
    }
}

/// The condition of this name.
pub fn condition_named(word: &str) -> Option<IntCC>
    ensures { IfSome result (λ cond. word.now ≡ int_cc_text cond) }
{
    match word {
        "eq" => Some(IntCC::Equal),
        "ne" => Some(IntCC::NotEqual),
        "slt" => Some(IntCC::SignedLessThan),
        "sge" => Some(IntCC::SignedGreaterThanOrEqual),
        "sgt" => Some(IntCC::SignedGreaterThan),
        "sle" => Some(IntCC::SignedLessThanOrEqual),
        "ult" => Some(IntCC::UnsignedLessThan),
        "uge" => Some(IntCC::UnsignedGreaterThanOrEqual),
        "ugt" => Some(IntCC::UnsignedGreaterThan),
        "ule" => Some(IntCC::UnsignedLessThanOrEqual),
        _ => None,
    }
}

/// The reason for a trap of this name.
pub fn trap_code_named(word: &str) -> Option<TrapCode>
    ensures { IfSome result (IsTrapCode word.now) }
{
    match word {
        "int_ovf" => Some(TrapCode::IntegerOverflow),
        "int_divz" => Some(TrapCode::DivisionByZero),
        "heap_oob" => Some(TrapCode::HeapOutOfBounds),
        _ => user_trap_code(word),
    }
}

// The reason of the program's own, as `user7`.
fn user_trap_code(word: &str) -> Option<TrapCode>
    ensures { IfSome result (IsTrapCode word.now) }
{
    let number = short_decimal(word.strip_prefix("user")?)?;
    Some(TrapCode::User(u8::try_from(number).ok()?))
}
