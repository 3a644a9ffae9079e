//! The numbers of blocks, values and instructions.
//!
//! Each is a newtype round a `u32`, is below 2^32 - 1, and prints a short name before its digits.
#![tactic(auto)]

ghost use Rattle.std.specs.Prelude.{◌≡◌, ℕ, ◌-◌, ◌^◌, ◌<◌, ◌++◌, Some, codes};
ghost use Rattle.std.specs.Fmt.{decimal};

use crate::entity::EntityRef;
use std::fmt;
use std::marker::Model;

/// A basic block: a list of instructions with parameters at its head. It prints as `block0`.
#[derive(Clone, Copy, Default, PartialEq, Eq, PartialOrd, Ord, Hash)]
pub struct Block(u32);

impl Model for Block {
    ghost Value = { ℕ };

    ghost view = { λ e. e.0 };

    ghost invariant = { λ e. e.0 < 2 ^ 32 - 1 };

    ghost inverse = { λ n. record { 0 = n } };
}

impl Block {
    /// The entry with this number, below 2^32 - 1.
    pub fn from_u32(number: u32) -> Block
        requires { number < 2 ^ 32 - 1 }
        ensures { result ≡ number }
    {
        Block(number)
    }

    /// The number of the entry.
    pub fn as_u32(self) -> u32
        ensures number { result ≡ self }
        ensures bounded { result < 2 ^ 32 - 1 }
    {
        let Block(own_number) = self;
        own_number
    }
}

impl EntityRef for Block {
    ghost index_of = { λ e. e };

    ghost same = { λ x y h. h };

    fn new(index: usize) -> Block {
        Block(index as u32)
    }

    fn index(self) -> usize {
        Block::as_u32(self) as usize
    }
}

impl fmt::Display for Block {
    ghost output = { λ e. Some (codes "block" ++ decimal e) };

    fn fmt<W: fmt::Write>(&self, f: &mut fmt::Formatter<W>) -> fmt::Result {
        let number = self.0;
        write!(f, "block{number}")
    }
}

impl fmt::Debug for Block {
    ghost debug_output = { λ e. Some (codes "block" ++ decimal e) };

    fn fmt<W: fmt::Write>(&self, f: &mut fmt::Formatter<W>) -> fmt::Result {
        let block = *self;
        write!(f, "{block}")
    }
}

/// A value: a parameter of a block, a result of an instruction, or an alias of another value. It prints as `v0`.
#[derive(Clone, Copy, Default, PartialEq, Eq, PartialOrd, Ord, Hash)]
pub struct Value(u32);

impl Model for Value {
    ghost Value = { ℕ };

    ghost view = { λ e. e.0 };

    ghost invariant = { λ e. e.0 < 2 ^ 32 - 1 };

    ghost inverse = { λ n. record { 0 = n } };
}

impl Value {
    /// The entry with this number, below 2^32 - 1.
    pub fn from_u32(number: u32) -> Value
        requires { number < 2 ^ 32 - 1 }
        ensures { result ≡ number }
    {
        Value(number)
    }

    /// The number of the entry.
    pub fn as_u32(self) -> u32
        ensures number { result ≡ self }
        ensures bounded { result < 2 ^ 32 - 1 }
    {
        let Value(own_number) = self;
        own_number
    }
}

impl EntityRef for Value {
    ghost index_of = { λ e. e };

    ghost same = { λ x y h. h };

    fn new(index: usize) -> Value {
        Value(index as u32)
    }

    fn index(self) -> usize {
        Value::as_u32(self) as usize
    }
}

impl fmt::Display for Value {
    ghost output = { λ e. Some (codes "v" ++ decimal e) };

    fn fmt<W: fmt::Write>(&self, f: &mut fmt::Formatter<W>) -> fmt::Result {
        let number = self.0;
        write!(f, "v{number}")
    }
}

impl fmt::Debug for Value {
    ghost debug_output = { λ e. Some (codes "v" ++ decimal e) };

    fn fmt<W: fmt::Write>(&self, f: &mut fmt::Formatter<W>) -> fmt::Result {
        let value = *self;
        write!(f, "{value}")
    }
}

/// An instruction. It prints as `inst0`.
#[derive(Clone, Copy, Default, PartialEq, Eq, PartialOrd, Ord, Hash)]
pub struct Inst(u32);

impl Model for Inst {
    ghost Value = { ℕ };

    ghost view = { λ e. e.0 };

    ghost invariant = { λ e. e.0 < 2 ^ 32 - 1 };

    ghost inverse = { λ n. record { 0 = n } };
}

impl Inst {
    /// The entry with this number, below 2^32 - 1.
    pub fn from_u32(number: u32) -> Inst
        requires { number < 2 ^ 32 - 1 }
        ensures { result ≡ number }
    {
        Inst(number)
    }

    /// The number of the entry.
    pub fn as_u32(self) -> u32
        ensures number { result ≡ self }
        ensures bounded { result < 2 ^ 32 - 1 }
    {
        let Inst(own_number) = self;
        own_number
    }
}

impl EntityRef for Inst {
    ghost index_of = { λ e. e };

    ghost same = { λ x y h. h };

    fn new(index: usize) -> Inst {
        Inst(index as u32)
    }

    fn index(self) -> usize {
        Inst::as_u32(self) as usize
    }
}

impl fmt::Display for Inst {
    ghost output = { λ e. Some (codes "inst" ++ decimal e) };

    fn fmt<W: fmt::Write>(&self, f: &mut fmt::Formatter<W>) -> fmt::Result {
        let number = self.0;
        write!(f, "inst{number}")
    }
}

impl fmt::Debug for Inst {
    ghost debug_output = { λ e. Some (codes "inst" ++ decimal e) };

    fn fmt<W: fmt::Write>(&self, f: &mut fmt::Formatter<W>) -> fmt::Result {
        let inst = *self;
        write!(f, "{inst}")
    }
}

/// A table of branch targets. It prints as `jt0`.
#[derive(Clone, Copy, Default, PartialEq, Eq, PartialOrd, Ord, Hash)]
pub struct JumpTable(u32);

impl Model for JumpTable {
    ghost Value = { ℕ };

    ghost view = { λ e. e.0 };

    ghost invariant = { λ e. e.0 < 2 ^ 32 - 1 };

    ghost inverse = { λ n. record { 0 = n } };
}

impl JumpTable {
    /// The entry with this number, below 2^32 - 1.
    pub fn from_u32(number: u32) -> JumpTable
        requires { number < 2 ^ 32 - 1 }
        ensures { result ≡ number }
    {
        JumpTable(number)
    }

    /// The number of the entry.
    pub fn as_u32(self) -> u32
        ensures number { result ≡ self }
        ensures bounded { result < 2 ^ 32 - 1 }
    {
        let JumpTable(own_number) = self;
        own_number
    }
}

impl EntityRef for JumpTable {
    ghost index_of = { λ e. e };

    ghost same = { λ x y h. h };

    fn new(index: usize) -> JumpTable {
        JumpTable(index as u32)
    }

    fn index(self) -> usize {
        JumpTable::as_u32(self) as usize
    }
}

impl fmt::Display for JumpTable {
    ghost output = { λ e. Some (codes "jt" ++ decimal e) };

    fn fmt<W: fmt::Write>(&self, f: &mut fmt::Formatter<W>) -> fmt::Result {
        let number = self.0;
        write!(f, "jt{number}")
    }
}

impl fmt::Debug for JumpTable {
    ghost debug_output = { λ e. Some (codes "jt" ++ decimal e) };

    fn fmt<W: fmt::Write>(&self, f: &mut fmt::Formatter<W>) -> fmt::Result {
        let jump_table = *self;
        write!(f, "{jump_table}")
    }
}

/// A table of the targets of a call that may throw. It prints as `extable0`.
#[derive(Clone, Copy, Default, PartialEq, Eq, PartialOrd, Ord, Hash)]
pub struct ExceptionTable(u32);

impl Model for ExceptionTable {
    ghost Value = { ℕ };

    ghost view = { λ e. e.0 };

    ghost invariant = { λ e. e.0 < 2 ^ 32 - 1 };

    ghost inverse = { λ n. record { 0 = n } };
}

impl ExceptionTable {
    /// The entry with this number, below 2^32 - 1.
    pub fn from_u32(number: u32) -> ExceptionTable
        requires { number < 2 ^ 32 - 1 }
        ensures { result ≡ number }
    {
        ExceptionTable(number)
    }

    /// The number of the entry.
    pub fn as_u32(self) -> u32
        ensures number { result ≡ self }
        ensures bounded { result < 2 ^ 32 - 1 }
    {
        let ExceptionTable(own_number) = self;
        own_number
    }
}

impl EntityRef for ExceptionTable {
    ghost index_of = { λ e. e };

    ghost same = { λ x y h. h };

    fn new(index: usize) -> ExceptionTable {
        ExceptionTable(index as u32)
    }

    fn index(self) -> usize {
        ExceptionTable::as_u32(self) as usize
    }
}

impl fmt::Display for ExceptionTable {
    ghost output = { λ e. Some (codes "extable" ++ decimal e) };

    fn fmt<W: fmt::Write>(&self, f: &mut fmt::Formatter<W>) -> fmt::Result {
        let number = self.0;
        write!(f, "extable{number}")
    }
}

impl fmt::Debug for ExceptionTable {
    ghost debug_output = { λ e. Some (codes "extable" ++ decimal e) };

    fn fmt<W: fmt::Write>(&self, f: &mut fmt::Formatter<W>) -> fmt::Result {
        let exception_table = *self;
        write!(f, "{exception_table}")
    }
}
