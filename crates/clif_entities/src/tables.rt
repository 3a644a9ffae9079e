//! The numbers of what a function declares in its preamble.
//!
//! Each is a newtype round a `u32`, is below 2^32 - 1, and prints a short name before its digits.
#![tactic(auto)]

ghost use Rattle.std.specs.Prelude.{◌≡◌, ℕ, ◌-◌, ◌^◌, ◌<◌, ◌++◌, Some, codes};
ghost use Rattle.std.specs.Fmt.{decimal};

use crate::entity::EntityRef;
use std::fmt;
use std::marker::Model;

/// A stack slot of a fixed size. It prints as `ss0`.
#[derive(Clone, Copy, PartialEq, Eq, PartialOrd, Ord, Hash)]
pub struct StackSlot(u32);

impl Model for StackSlot {
    ghost Value = { ℕ };

    ghost view = { λ e. e.0 };

    ghost invariant = { λ e. e.0 < 2 ^ 32 - 1 };

    ghost inverse = { λ n. record { 0 = n } };
}

impl StackSlot {
    /// The entry with this number, below 2^32 - 1.
    pub fn from_u32(number: u32) -> StackSlot
        requires { number < 2 ^ 32 - 1 }
        ensures { result ≡ number }
    {
        StackSlot(number)
    }

    /// The number of the entry.
    pub fn as_u32(self) -> u32
        ensures number { result ≡ self }
        ensures bounded { result < 2 ^ 32 - 1 }
    {
        let StackSlot(own_number) = self;
        own_number
    }
}

impl EntityRef for StackSlot {
    ghost index_of = { λ e. e };

    ghost same = { λ x y h. h };

    fn new(index: usize) -> StackSlot {
        StackSlot(index as u32)
    }

    fn index(self) -> usize {
        StackSlot::as_u32(self) as usize
    }
}

impl fmt::Display for StackSlot {
    ghost output = { λ e. Some (codes "ss" ++ decimal e) };

    fn fmt<W: fmt::Write>(&self, f: &mut fmt::Formatter<W>) -> fmt::Result {
        let number = self.0;
        write!(f, "ss{number}")
    }
}

impl fmt::Debug for StackSlot {
    ghost debug_output = { λ e. Some (codes "ss" ++ decimal e) };

    fn fmt<W: fmt::Write>(&self, f: &mut fmt::Formatter<W>) -> fmt::Result {
        let stack_slot = *self;
        write!(f, "{stack_slot}")
    }
}

/// A stack slot whose size is known only when the program runs. It prints as `dss0`.
#[derive(Clone, Copy, PartialEq, Eq, PartialOrd, Ord, Hash)]
pub struct DynamicStackSlot(u32);

impl Model for DynamicStackSlot {
    ghost Value = { ℕ };

    ghost view = { λ e. e.0 };

    ghost invariant = { λ e. e.0 < 2 ^ 32 - 1 };

    ghost inverse = { λ n. record { 0 = n } };
}

impl DynamicStackSlot {
    /// The entry with this number, below 2^32 - 1.
    pub fn from_u32(number: u32) -> DynamicStackSlot
        requires { number < 2 ^ 32 - 1 }
        ensures { result ≡ number }
    {
        Self(number)
    }

    /// The number of the entry.
    pub fn as_u32(self) -> u32
        ensures number { result ≡ self }
        ensures bounded { result < 2 ^ 32 - 1 }
    {
        let Self(own_number) = self;
        own_number
    }
}

impl EntityRef for DynamicStackSlot {
    ghost index_of = { λ e. e };

    ghost same = { λ x y h. h };

    fn new(index: usize) -> DynamicStackSlot {
        Self(index as u32)
    }

    fn index(self) -> usize {
        Self::as_u32(self) as usize
    }
}

impl fmt::Display for DynamicStackSlot {
    ghost output = { λ e. Some (codes "dss" ++ decimal e) };

    fn fmt<W: fmt::Write>(&self, f: &mut fmt::Formatter<W>) -> fmt::Result {
        let number = self.0;
        write!(f, "dss{number}")
    }
}

impl fmt::Debug for DynamicStackSlot {
    ghost debug_output = { λ e. Some (codes "dss" ++ decimal e) };

    fn fmt<W: fmt::Write>(&self, f: &mut fmt::Formatter<W>) -> fmt::Result {
        let dynamic_stack_slot = *self;
        write!(f, "{dynamic_stack_slot}")
    }
}

/// A value that is known before the function is entered. It prints as `gv0`.
#[derive(Clone, Copy, PartialEq, Eq, PartialOrd, Ord, Hash)]
pub struct GlobalValue(u32);

impl Model for GlobalValue {
    ghost Value = { ℕ };

    ghost view = { λ e. e.0 };

    ghost invariant = { λ e. e.0 < 2 ^ 32 - 1 };

    ghost inverse = { λ n. record { 0 = n } };
}

impl GlobalValue {
    /// The entry with this number, below 2^32 - 1.
    pub fn from_u32(number: u32) -> GlobalValue
        requires { number < 2 ^ 32 - 1 }
        ensures { result ≡ number }
    {
        GlobalValue(number)
    }

    /// The number of the entry.
    pub fn as_u32(self) -> u32
        ensures number { result ≡ self }
        ensures bounded { result < 2 ^ 32 - 1 }
    {
        let GlobalValue(own_number) = self;
        own_number
    }
}

impl EntityRef for GlobalValue {
    ghost index_of = { λ e. e };

    ghost same = { λ x y h. h };

    fn new(index: usize) -> GlobalValue {
        GlobalValue(index as u32)
    }

    fn index(self) -> usize {
        GlobalValue::as_u32(self) as usize
    }
}

impl fmt::Display for GlobalValue {
    ghost output = { λ e. Some (codes "gv" ++ decimal e) };

    fn fmt<W: fmt::Write>(&self, f: &mut fmt::Formatter<W>) -> fmt::Result {
        let number = self.0;
        write!(f, "gv{number}")
    }
}

impl fmt::Debug for GlobalValue {
    ghost debug_output = { λ e. Some (codes "gv" ++ decimal e) };

    fn fmt<W: fmt::Write>(&self, f: &mut fmt::Formatter<W>) -> fmt::Result {
        let global_value = *self;
        write!(f, "{global_value}")
    }
}

/// A region of memory that is apart from every other region. It prints as `region0`.
#[derive(Clone, Copy, PartialEq, Eq, PartialOrd, Ord, Hash)]
pub struct AliasRegion(u32);

impl Model for AliasRegion {
    ghost Value = { ℕ };

    ghost view = { λ e. e.0 };

    ghost invariant = { λ e. e.0 < 2 ^ 32 - 1 };

    ghost inverse = { λ n. record { 0 = n } };
}

impl AliasRegion {
    /// The entry with this number, below 2^32 - 1.
    pub fn from_u32(number: u32) -> AliasRegion
        requires { number < 2 ^ 32 - 1 }
        ensures { result ≡ number }
    {
        AliasRegion(number)
    }

    /// The number of the entry.
    pub fn as_u32(self) -> u32
        ensures number { result ≡ self }
        ensures bounded { result < 2 ^ 32 - 1 }
    {
        let AliasRegion(own_number) = self;
        own_number
    }
}

impl EntityRef for AliasRegion {
    ghost index_of = { λ e. e };

    ghost same = { λ x y h. h };

    fn new(index: usize) -> AliasRegion {
        AliasRegion(index as u32)
    }

    fn index(self) -> usize {
        AliasRegion::as_u32(self) as usize
    }
}

impl fmt::Display for AliasRegion {
    ghost output = { λ e. Some (codes "region" ++ decimal e) };

    fn fmt<W: fmt::Write>(&self, f: &mut fmt::Formatter<W>) -> fmt::Result {
        let number = self.0;
        write!(f, "region{number}")
    }
}

impl fmt::Debug for AliasRegion {
    ghost debug_output = { λ e. Some (codes "region" ++ decimal e) };

    fn fmt<W: fmt::Write>(&self, f: &mut fmt::Formatter<W>) -> fmt::Result {
        let alias_region = *self;
        write!(f, "{alias_region}")
    }
}

/// An imported signature. It prints as `sig0`.
#[derive(Clone, Copy, PartialEq, Eq, PartialOrd, Ord, Hash)]
pub struct SigRef(u32);

impl Model for SigRef {
    ghost Value = { ℕ };

    ghost view = { λ e. e.0 };

    ghost invariant = { λ e. e.0 < 2 ^ 32 - 1 };

    ghost inverse = { λ n. record { 0 = n } };
}

impl SigRef {
    /// The entry with this number, below 2^32 - 1.
    pub fn from_u32(number: u32) -> SigRef
        requires { number < 2 ^ 32 - 1 }
        ensures { result ≡ number }
    {
        SigRef(number)
    }

    /// The number of the entry.
    pub fn as_u32(self) -> u32
        ensures number { result ≡ self }
        ensures bounded { result < 2 ^ 32 - 1 }
    {
        let SigRef(own_number) = self;
        own_number
    }
}

impl EntityRef for SigRef {
    ghost index_of = { λ e. e };

    ghost same = { λ x y h. h };

    fn new(index: usize) -> SigRef {
        SigRef(index as u32)
    }

    fn index(self) -> usize {
        SigRef::as_u32(self) as usize
    }
}

impl fmt::Display for SigRef {
    ghost output = { λ e. Some (codes "sig" ++ decimal e) };

    fn fmt<W: fmt::Write>(&self, f: &mut fmt::Formatter<W>) -> fmt::Result {
        let number = self.0;
        write!(f, "sig{number}")
    }
}

impl fmt::Debug for SigRef {
    ghost debug_output = { λ e. Some (codes "sig" ++ decimal e) };

    fn fmt<W: fmt::Write>(&self, f: &mut fmt::Formatter<W>) -> fmt::Result {
        let sig_ref = *self;
        write!(f, "{sig_ref}")
    }
}

/// An imported function. It prints as `fn0`.
#[derive(Clone, Copy, PartialEq, Eq, PartialOrd, Ord, Hash)]
pub struct FuncRef(u32);

impl Model for FuncRef {
    ghost Value = { ℕ };

    ghost view = { λ e. e.0 };

    ghost invariant = { λ e. e.0 < 2 ^ 32 - 1 };

    ghost inverse = { λ n. record { 0 = n } };
}

impl FuncRef {
    /// The entry with this number, below 2^32 - 1.
    pub fn from_u32(number: u32) -> FuncRef
        requires { number < 2 ^ 32 - 1 }
        ensures { result ≡ number }
    {
        FuncRef(number)
    }

    /// The number of the entry.
    pub fn as_u32(self) -> u32
        ensures number { result ≡ self }
        ensures bounded { result < 2 ^ 32 - 1 }
    {
        let FuncRef(own_number) = self;
        own_number
    }
}

impl EntityRef for FuncRef {
    ghost index_of = { λ e. e };

    ghost same = { λ x y h. h };

    fn new(index: usize) -> FuncRef {
        FuncRef(index as u32)
    }

    fn index(self) -> usize {
        FuncRef::as_u32(self) as usize
    }
}

impl fmt::Display for FuncRef {
    ghost output = { λ e. Some (codes "fn" ++ decimal e) };

    fn fmt<W: fmt::Write>(&self, f: &mut fmt::Formatter<W>) -> fmt::Result {
        let number = self.0;
        write!(f, "fn{number}")
    }
}

impl fmt::Debug for FuncRef {
    ghost debug_output = { λ e. Some (codes "fn" ++ decimal e) };

    fn fmt<W: fmt::Write>(&self, f: &mut fmt::Formatter<W>) -> fmt::Result {
        let func_ref = *self;
        write!(f, "{func_ref}")
    }
}

/// A constant in the pool of a function. It prints as `const0`.
#[derive(Clone, Copy, PartialEq, Eq, PartialOrd, Ord, Hash)]
pub struct Constant(u32);

impl Model for Constant {
    ghost Value = { ℕ };

    ghost view = { λ e. e.0 };

    ghost invariant = { λ e. e.0 < 2 ^ 32 - 1 };

    ghost inverse = { λ n. record { 0 = n } };
}

impl Constant {
    /// The entry with this number, below 2^32 - 1.
    pub fn from_u32(number: u32) -> Constant
        requires { number < 2 ^ 32 - 1 }
        ensures { result ≡ number }
    {
        Constant(number)
    }

    /// The number of the entry.
    pub fn as_u32(self) -> u32
        ensures number { result ≡ self }
        ensures bounded { result < 2 ^ 32 - 1 }
    {
        let Constant(own_number) = self;
        own_number
    }
}

impl EntityRef for Constant {
    ghost index_of = { λ e. e };

    ghost same = { λ x y h. h };

    fn new(index: usize) -> Constant {
        Constant(index as u32)
    }

    fn index(self) -> usize {
        Constant::as_u32(self) as usize
    }
}

impl fmt::Display for Constant {
    ghost output = { λ e. Some (codes "const" ++ decimal e) };

    fn fmt<W: fmt::Write>(&self, f: &mut fmt::Formatter<W>) -> fmt::Result {
        let number = self.0;
        write!(f, "const{number}")
    }
}

impl fmt::Debug for Constant {
    ghost debug_output = { λ e. Some (codes "const" ++ decimal e) };

    fn fmt<W: fmt::Write>(&self, f: &mut fmt::Formatter<W>) -> fmt::Result {
        let constant = *self;
        write!(f, "{constant}")
    }
}

/// A label that ties a value to a variable of the source program. It prints as `val0`.
#[derive(Clone, Copy, PartialEq, Eq, PartialOrd, Ord, Hash)]
pub struct ValueLabel(u32);

impl Model for ValueLabel {
    ghost Value = { ℕ };

    ghost view = { λ e. e.0 };

    ghost invariant = { λ e. e.0 < 2 ^ 32 - 1 };

    ghost inverse = { λ n. record { 0 = n } };
}

impl ValueLabel {
    /// The entry with this number, below 2^32 - 1.
    pub fn from_u32(number: u32) -> ValueLabel
        requires { number < 2 ^ 32 - 1 }
        ensures { result ≡ number }
    {
        ValueLabel(number)
    }

    /// The number of the entry.
    pub fn as_u32(self) -> u32
        ensures number { result ≡ self }
        ensures bounded { result < 2 ^ 32 - 1 }
    {
        let ValueLabel(own_number) = self;
        own_number
    }
}

impl EntityRef for ValueLabel {
    ghost index_of = { λ e. e };

    ghost same = { λ x y h. h };

    fn new(index: usize) -> ValueLabel {
        ValueLabel(index as u32)
    }

    fn index(self) -> usize {
        ValueLabel::as_u32(self) as usize
    }
}

impl fmt::Display for ValueLabel {
    ghost output = { λ e. Some (codes "val" ++ decimal e) };

    fn fmt<W: fmt::Write>(&self, f: &mut fmt::Formatter<W>) -> fmt::Result {
        let number = self.0;
        write!(f, "val{number}")
    }
}

impl fmt::Debug for ValueLabel {
    ghost debug_output = { λ e. Some (codes "val" ++ decimal e) };

    fn fmt<W: fmt::Write>(&self, f: &mut fmt::Formatter<W>) -> fmt::Result {
        let value_label = *self;
        write!(f, "{value_label}")
    }
}
