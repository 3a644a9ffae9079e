//! The types of values.
//!
//! A type is a lane, as `i32` or `f64`, or a vector of 2 to 64 equal lanes, as `i8x16`.
//! Floats are bit patterns: nothing here computes with them.
#![tactic(auto)]

ghost use Rattle.std.specs.Prelude.{◌≡◌, ◌≢◌, ◌*◌, ◌↔◌, ℕ, Some, None, IsTrue, SomeIff, List};
ghost use Rattle.clif_types.specs.Types.{int_of, lane_bits_of, lanes_of, bits_of, bytes_of, lane_type_of, lane_count_of, is_int, is_vector, is_type, least_of, greatest_of};
ghost use Rattle.clif_types.specs.Texts.{lane_text, type_text};

use std::fmt;

/// What one lane holds: an integer, or the bits of a float.
#[derive(Clone, Copy, PartialEq, Eq, Hash, Debug)]
pub enum LaneType {
    I8,
    I16,
    I32,
    I64,
    I128,
    F16,
    F32,
    F64,
    F128,
}

/// How many lanes a vector has.
#[derive(Clone, Copy, PartialEq, Eq, Hash, Debug)]
pub enum LaneCount {
    Two,
    Four,
    Eight,
    Sixteen,
    ThirtyTwo,
    SixtyFour,
}

/// The type of a value.
#[derive(Clone, Copy, PartialEq, Eq, Hash)]
pub enum Type {
    /// No type: it stands where an instruction has no controlling type.
    Invalid,
    /// A single integer, or the bits of a single float.
    Lane(LaneType),
    /// Equal lanes. More than 64 bytes can be written, but are no type of the IR (`is_valid`).
    Vector(LaneType, LaneCount),
}

impl LaneType {
    /// The width in bits.
    pub fn bits(self) -> u32
        ensures { result ≡ lane_bits_of self }
    {
        match self {
            LaneType::I8 => 8,
            LaneType::I16 | LaneType::F16 => 16,
            LaneType::I32 | LaneType::F32 => 32,
            LaneType::I64 | LaneType::F64 => 64,
            LaneType::I128 | LaneType::F128 => 128,
        }
    }

    /// The name, as `i32`.
    fn name(self) -> &'static str
        ensures { result.now ≡ lane_text self }
    {
        match self {
            LaneType::I8 => "i8",
            LaneType::I16 => "i16",
            LaneType::I32 => "i32",
            LaneType::I64 => "i64",
            LaneType::I128 => "i128",
            LaneType::F16 => "f16",
            LaneType::F32 => "f32",
            LaneType::F64 => "f64",
            LaneType::F128 => "f128",
        }
    }
}

impl LaneCount {
    /// The number of lanes.
    pub fn lanes(self) -> u32
        ensures { result ≡ lanes_of self }
    {
        match self {
            LaneCount::Two => 2,
            LaneCount::Four => 4,
            LaneCount::Eight => 8,
            LaneCount::Sixteen => 16,
            LaneCount::ThirtyTwo => 32,
            LaneCount::SixtyFour => 64,
        }
    }
}

impl Type {
    /// The integer type of this width: 8, 16, 32, 64 or 128 bits.
    pub fn int(bits: u16) -> Option<Type>
        ensures { result ≡ int_of bits }
    {
        match bits {
            8 => Some(I8),
            16 => Some(I16),
            32 => Some(I32),
            64 => Some(I64),
            128 => Some(I128),
            _ => None,
        }
    }

    /// The integer type of this size: 1, 2, 4, 8 or 16 bytes.
    pub fn int_with_byte_size(bytes: u16) -> Option<Type>
        ensures { result ≡ int_of (8 * bytes) }
    {
        Type::int(bytes.checked_mul(8)?)
    }

    /// The width in bits: of a vector all lanes together, of `INVALID` 0.
    pub fn bits(self) -> u32
        ensures { result ≡ bits_of self }
    {
        match self {
            Type::Invalid => 0,
            Type::Lane(lane) => lane.bits(),
            Type::Vector(lane, count) => count.lanes() * lane.bits(),
        }
    }

    /// The width in bytes.
    pub fn bytes(self) -> u32
        ensures { result ≡ bytes_of self }
    {
        self.bits() / 8
    }

    /// The type of one lane. A type with one lane, and `INVALID`, answers itself.
    pub fn lane_type(self) -> Type
        ensures { result ≡ lane_type_of self }
    {
        match self {
            Type::Vector(lane, _) => Type::Lane(lane),
            Type::Invalid | Type::Lane(_) => self,
        }
    }

    /// The number of lanes, 1 unless it is a vector.
    pub fn lane_count(self) -> u32
        ensures { result ≡ lane_count_of self }
    {
        match self {
            Type::Vector(_, count) => count.lanes(),
            Type::Invalid | Type::Lane(_) => 1,
        }
    }

    /// Whether it is a single integer.
    pub fn is_int(self) -> bool
        ensures { result ≡ is_int self }
    {
        match self {
            Type::Lane(lane) => matches!(
                lane,
                LaneType::I8 | LaneType::I16 | LaneType::I32 | LaneType::I64 | LaneType::I128
            ),
            Type::Invalid | Type::Vector(_, _) => false,
        }
    }

    /// Whether it has more than one lane.
    pub fn is_vector(self) -> bool
        ensures { result ≡ is_vector self }
    {
        matches!(self, Type::Vector(_, _))
    }

    /// Whether it is a type of the IR: a lane, or a vector of at most 64 bytes.
    pub fn is_valid(self) -> bool
        ensures { result ≡ is_type self }
    {
        match self {
            Type::Invalid => false,
            Type::Lane(_) => true,
            Type::Vector(_, _) => self.bytes() <= 64,
        }
    }

    /// The least and the greatest number that one lane holds, read as signed or unsigned.
    ///
    /// Both are bit patterns of 128 bits: a negative number is extended by its sign.
    pub fn bounds(self, signed: bool) -> (u128, u128)
        requires { self ≢ Type.Invalid }
        ensures least { result.0 ≡ least_of self signed }
        ensures greatest { result.1 ≡ greatest_of self signed }
    {
        let unused = 128 - self.lane_type().bits();
        if signed {
            let greatest = (u128::MAX >> 1) >> unused;
            (u128::MAX - greatest, greatest)
        } else {
            (0, u128::MAX >> unused)
        }
    }
}

impl fmt::Display for LaneType {
    ghost output = { λ l. Some (lane_text l) };

    fn fmt<W: fmt::Write>(&self, f: &mut fmt::Formatter<W>) -> fmt::Result {
        f.write_str(self.name())
    }
}

impl fmt::Display for Type {
    ghost output = { λ t. Some (type_text t) };

    fn fmt<W: fmt::Write>(&self, f: &mut fmt::Formatter<W>) -> fmt::Result {
        match self {
            Type::Invalid => f.write_str("types::INVALID"),
            Type::Lane(lane) => write!(f, "{lane}"),
            Type::Vector(lane, count) => {
                let lanes = count.lanes();
                write!(f, "{lane}x{lanes}")
            }
        }
    }
}

/// As Cranelift writes it: `types::I8X16`.
impl fmt::Debug for Type {
    fn fmt<W: fmt::Write>(&self, f: &mut fmt::Formatter<W>) -> fmt::Result {
        match self {
            Type::Invalid => f.write_str("types::INVALID"),
            Type::Lane(lane) => write!(f, "types::{lane:?}"),
            Type::Vector(lane, count) => {
                let lanes = count.lanes();
                write!(f, "types::{lane:?}X{lanes}")
            }
        }
    }
}

/// No type: it stands where an instruction has no controlling type.
pub const INVALID: Type = Type::Invalid;

/// An integer of 8 bits.
pub const I8: Type = Type::Lane(LaneType::I8);

/// An integer of 16 bits.
pub const I16: Type = Type::Lane(LaneType::I16);

/// An integer of 32 bits.
pub const I32: Type = Type::Lane(LaneType::I32);

/// An integer of 64 bits.
pub const I64: Type = Type::Lane(LaneType::I64);

/// An integer of 128 bits.
pub const I128: Type = Type::Lane(LaneType::I128);

/// The bits of a float of 16 bits.
pub const F16: Type = Type::Lane(LaneType::F16);

/// The bits of a float of 32 bits.
pub const F32: Type = Type::Lane(LaneType::F32);

/// The bits of a float of 64 bits.
pub const F64: Type = Type::Lane(LaneType::F64);

/// The bits of a float of 128 bits.
pub const F128: Type = Type::Lane(LaneType::F128);

/// A vector of 2 `i8`.
pub const I8X2: Type = Type::Vector(LaneType::I8, LaneCount::Two);

/// A vector of 4 `i8`.
pub const I8X4: Type = Type::Vector(LaneType::I8, LaneCount::Four);

/// A vector of 8 `i8`.
pub const I8X8: Type = Type::Vector(LaneType::I8, LaneCount::Eight);

/// A vector of 16 `i8`.
pub const I8X16: Type = Type::Vector(LaneType::I8, LaneCount::Sixteen);

/// A vector of 32 `i8`.
pub const I8X32: Type = Type::Vector(LaneType::I8, LaneCount::ThirtyTwo);

/// A vector of 64 `i8`.
pub const I8X64: Type = Type::Vector(LaneType::I8, LaneCount::SixtyFour);

/// A vector of 2 `i16`.
pub const I16X2: Type = Type::Vector(LaneType::I16, LaneCount::Two);

/// A vector of 4 `i16`.
pub const I16X4: Type = Type::Vector(LaneType::I16, LaneCount::Four);

/// A vector of 8 `i16`.
pub const I16X8: Type = Type::Vector(LaneType::I16, LaneCount::Eight);

/// A vector of 16 `i16`.
pub const I16X16: Type = Type::Vector(LaneType::I16, LaneCount::Sixteen);

/// A vector of 32 `i16`.
pub const I16X32: Type = Type::Vector(LaneType::I16, LaneCount::ThirtyTwo);

/// A vector of 2 `i32`.
pub const I32X2: Type = Type::Vector(LaneType::I32, LaneCount::Two);

/// A vector of 4 `i32`.
pub const I32X4: Type = Type::Vector(LaneType::I32, LaneCount::Four);

/// A vector of 8 `i32`.
pub const I32X8: Type = Type::Vector(LaneType::I32, LaneCount::Eight);

/// A vector of 16 `i32`.
pub const I32X16: Type = Type::Vector(LaneType::I32, LaneCount::Sixteen);

/// A vector of 2 `i64`.
pub const I64X2: Type = Type::Vector(LaneType::I64, LaneCount::Two);

/// A vector of 4 `i64`.
pub const I64X4: Type = Type::Vector(LaneType::I64, LaneCount::Four);

/// A vector of 8 `i64`.
pub const I64X8: Type = Type::Vector(LaneType::I64, LaneCount::Eight);

/// A vector of 2 `i128`.
pub const I128X2: Type = Type::Vector(LaneType::I128, LaneCount::Two);

/// A vector of 4 `i128`.
pub const I128X4: Type = Type::Vector(LaneType::I128, LaneCount::Four);

/// A vector of 2 `f16`.
pub const F16X2: Type = Type::Vector(LaneType::F16, LaneCount::Two);

/// A vector of 4 `f16`.
pub const F16X4: Type = Type::Vector(LaneType::F16, LaneCount::Four);

/// A vector of 8 `f16`.
pub const F16X8: Type = Type::Vector(LaneType::F16, LaneCount::Eight);

/// A vector of 16 `f16`.
pub const F16X16: Type = Type::Vector(LaneType::F16, LaneCount::Sixteen);

/// A vector of 32 `f16`.
pub const F16X32: Type = Type::Vector(LaneType::F16, LaneCount::ThirtyTwo);

/// A vector of 2 `f32`.
pub const F32X2: Type = Type::Vector(LaneType::F32, LaneCount::Two);

/// A vector of 4 `f32`.
pub const F32X4: Type = Type::Vector(LaneType::F32, LaneCount::Four);

/// A vector of 8 `f32`.
pub const F32X8: Type = Type::Vector(LaneType::F32, LaneCount::Eight);

/// A vector of 16 `f32`.
pub const F32X16: Type = Type::Vector(LaneType::F32, LaneCount::Sixteen);

/// A vector of 2 `f64`.
pub const F64X2: Type = Type::Vector(LaneType::F64, LaneCount::Two);

/// A vector of 4 `f64`.
pub const F64X4: Type = Type::Vector(LaneType::F64, LaneCount::Four);

/// A vector of 8 `f64`.
pub const F64X8: Type = Type::Vector(LaneType::F64, LaneCount::Eight);

/// A vector of 2 `f128`.
pub const F128X2: Type = Type::Vector(LaneType::F128, LaneCount::Two);

/// A vector of 4 `f128`.
pub const F128X4: Type = Type::Vector(LaneType::F128, LaneCount::Four);
