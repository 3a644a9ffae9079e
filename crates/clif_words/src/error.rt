//! Why a text is no script.
ghost use Rattle.std.specs.Prelude.{◌≡◌, Some};
ghost use Rattle.clif_words.specs.declared.error.Fault.TheVariants as fault;
ghost use Rattle.clif_words.specs.declared.error.LineError.TheVariants as line_error;
ghost use Rattle.clif_words.specs.Errors.{expected_text, fault_text, read_error_text};

use std::alloc::{AllocError, AllocFailed};
use std::fmt;

/// What a line should have at a place where it has something else, or nothing.
#[derive(Clone, Copy, Debug, PartialEq, Eq)]
pub enum Expected {
    /// UTF-8.
    Text,
    /// The name of a call, or of a header line.
    Call,
    /// A name for an answer, before `=`.
    AnswerName,
    /// A block.
    Block,
    /// A value.
    Value,
    /// An instruction that was made.
    Inst,
    /// A variable.
    Variable,
    /// A stack slot.
    StackSlot,
    /// An edge that `block_call` answered.
    Edge,
    /// A jump table.
    JumpTable,
    /// An exception table.
    ExceptionTable,
    /// An item of an exception table.
    TableItem,
    /// A case of a switch: a key and a block, as `7:b1`.
    SwitchCase,
    /// A key of a switch, in 128 bits.
    SwitchKey,
    /// How many bytes are copied, filled or compared.
    ByteCount,
    /// A byte.
    Byte,
    /// The alignment of an address.
    Alignment,
    /// The alignment of an address, which isn't 0.
    NonZeroAlignment,
    /// Whether bytes overlap, as `overlap` or `nonoverlap`.
    Overlap,
    /// A signature that was imported.
    Signature,
    /// A function that was imported.
    Function,
    /// The size of a stack slot, in 32 bits.
    SlotSize,
    /// The shift that makes the alignment of a stack slot, in 8 bits.
    AlignShift,
    /// The number of a dynamic type, in 32 bits.
    DynamicType,
    /// A place in the source, in 32 bits.
    SourceLoc,
    /// A label of a value, which is below 2^32 - 1.
    ValueLabel,
    /// What a global value is.
    GlobalValue,
    /// A type.
    Type,
    /// A number of 64 bits.
    Number,
    /// The bits of an F16, as a number without a sign.
    F16Bits,
    /// The bits of an F32, as a number without a sign.
    F32Bits,
    /// The bits of an F64, as a number without a sign.
    F64Bits,
    /// The bytes of a constant, in hexadecimal digits.
    Bytes,
    /// A condition of a comparison.
    Condition,
    /// A reason for a trap.
    TrapCode,
    /// A distance from an address.
    Offset,
    /// The name of a function, as `%sample` or `u0:0`.
    FunctionName,
    /// The name of a symbol, as that of a function.
    SymbolName,
    /// A function of the C library.
    LibCall,
    /// A convention.
    CallConv,
    /// The width of a pointer.
    PointerWidth,
    /// The number of an item of an exception table, in 32 bits.
    ItemNumber,
    /// How a collector moves.
    Moves,
    /// How a callback answers that is asked for alias regions.
    RegionKind,
    /// The user id of an alias region, in 32 bits.
    UserId,
    /// The number of an alias region, which is below 2^32 - 1.
    Region,
    /// `(`.
    Open,
    /// A value or `)`.
    ValueOrClose,
    /// A type or `)`.
    TypeOrClose,
    /// `->` or a convention.
    ArrowOrCallConv,
    /// A type or a convention.
    TypeOrCallConv,
    /// Nothing more.
    End,
    /// A point and a type after the name of a call.
    PointType,
    /// An instruction that the cursor makes.
    CursorInst,
    /// `=`, after as many names as the call has answers.
    Equals,
    /// A header line of a kind of which there is none above.
    OtherHeader,
}

impl fmt::Display for Expected {
    ghost output = { λ expected. Some (expected_text expected) };

    fn fmt<W: fmt::Write>(&self, f: &mut fmt::Formatter<W>) -> fmt::Result {
        f.write_str(match self {
            Expected::Text => "UTF-8 text",
            Expected::Call => "a call",
            Expected::AnswerName => "a name",
            Expected::Block => "a block",
            Expected::Value => "a value",
            Expected::Inst => "an instruction",
            Expected::Variable => "a variable",
            Expected::StackSlot => "a stack slot",
            Expected::Edge => "a block call",
            Expected::JumpTable => "a jump table",
            Expected::ExceptionTable => "an exception table",
            Expected::TableItem => "tag7, default or context",
            Expected::SwitchCase => "a key, a colon and a block",
            Expected::SwitchKey => "a key of 128 bits",
            Expected::ByteCount => "a size of 64 bits",
            Expected::Byte => "a byte",
            Expected::Alignment => "an alignment of 8 bits",
            Expected::NonZeroAlignment => "an alignment from 1 to 255",
            Expected::Overlap => "overlap or nonoverlap",
            Expected::Signature => "a signature",
            Expected::Function => "a function",
            Expected::SlotSize => "a size of 32 bits",
            Expected::AlignShift => "a shift of 8 bits",
            Expected::DynamicType => "a dynamic type of 32 bits",
            Expected::SourceLoc => "a source place of 32 bits",
            Expected::ValueLabel => "a label",
            Expected::GlobalValue => "vmctx or symbol",
            Expected::Type => "a type",
            Expected::Number => "a number of 64 bits",
            Expected::F16Bits => "the bits of an f16",
            Expected::F32Bits => "the bits of an f32",
            Expected::F64Bits => "the bits of an f64",
            Expected::Bytes => "the bytes of a constant",
            Expected::Condition => "a condition",
            Expected::TrapCode => "a trap code",
            Expected::Offset => "an offset",
            Expected::FunctionName => "the name of a function",
            Expected::SymbolName => "the name of a symbol",
            Expected::LibCall => "Memcpy, Memmove, Memset or Memcmp",
            Expected::CallConv => "a convention",
            Expected::PointerWidth => "16, 32 or 64",
            Expected::ItemNumber => "the number of an item",
            Expected::Moves => "add, one or events",
            Expected::RegionKind => "refuse, intern, slot, slot_none, const or alternate",
            Expected::UserId => "a user id of 32 bits",
            Expected::Region => "the number of a region",
            Expected::Open => "(",
            Expected::ValueOrClose => "a value or )",
            Expected::TypeOrClose => "a type or )",
            Expected::ArrowOrCallConv => "-> or a convention",
            Expected::TypeOrCallConv => "a type or a convention",
            Expected::End => "the end of the line",
            Expected::PointType => "a point and a type after it",
            Expected::CursorInst => "an instruction for cursor",
            Expected::Equals => "=",
            Expected::OtherHeader => "another header line",
        })
    }
}

/// Why a line can't be read.
#[derive(Clone, Copy, Debug)]
pub enum Fault<'a> {
    /// Something else, or nothing, stands where this should.
    Expected(Expected),
    /// No call has this name.
    UnknownCall(&'a str),
    /// `cursor` stands before this, which is no instruction that it makes.
    NotForCursor(&'a str),
    /// No line before gave this name, and this is what it should name.
    UnknownName(&'a str, Expected),
    /// No type has this name, where this should be.
    UnknownType(&'a str, Expected),
    /// No type follows the name of the call.
    NoType,
    /// More names are given than the call has answers, which are so many.
    TooManyNames(usize),
    /// A header line of this kind stands above.
    Repeated(&'a str),
}

impl Fault<'_> {
    ghost use Rattle.std.specs.Prelude.{◌≡◌};
    ghost use Rattle.clif_words.specs.Errors.{wanted_by};

    /// What should be where the line is at fault.
    pub fn expected(&self) -> Expected
        ensures { result ≡ wanted_by self.now }
    {
        match self {
            Fault::Expected(expected)
            | Fault::UnknownName(_, expected)
            | Fault::UnknownType(_, expected) => *expected,
            Fault::NoType => Expected::PointType,
            Fault::UnknownCall(_) => Expected::Call,
            Fault::NotForCursor(_) => Expected::CursorInst,
            Fault::TooManyNames(_) => Expected::Equals,
            Fault::Repeated(_) => Expected::OtherHeader,
        }
    }
}

impl fmt::Display for Fault<'_> {
    ghost output = { λ fault. Some (fault_text fault) };

    fn fmt<W: fmt::Write>(&self, f: &mut fmt::Formatter<W>) -> fmt::Result {
        match self {
            Fault::Expected(expected) => write!(f, "expected {expected}"),
            Fault::UnknownCall(name) => write!(f, "unknown call: {name}"),
            Fault::NotForCursor(name) => write!(f, "no instruction for cursor: {name}"),
            Fault::UnknownName(name, _) => write!(f, "unknown name: {name}"),
            Fault::UnknownType(name, _) => write!(f, "unknown type: {name}"),
            Fault::NoType => write!(f, "expected a type"),
            Fault::TooManyNames(0) => write!(f, "expected no names"),
            Fault::TooManyNames(1) => write!(f, "expected at most 1 name"),
            Fault::TooManyNames(count) => write!(f, "expected at most {count} names"),
            Fault::Repeated(name) => write!(f, "expected no second line: {name}"),
        }
    }
}

/// Why a text wasn't read as a script.
#[derive(Clone, Copy, Debug)]
pub enum ReadError<'a> {
    /// Memory was refused. It prints as `no memory`.
    Memory,
    /// A line can't be read; lines are numbered from 1 on. It prints as
    /// `script error at line 12: expected a block`.
    Line {
        /// The number of the line.
        number: usize,
        /// Why.
        fault: Fault<'a>,
    },
}

impl fmt::Display for ReadError<'_> {
    ghost output = { λ error. Some (read_error_text error) };

    fn fmt<W: fmt::Write>(&self, f: &mut fmt::Formatter<W>) -> fmt::Result {
        match self {
            ReadError::Memory => write!(f, "no memory"),
            ReadError::Line { number, fault } => {
                write!(f, "script error at line {number}: {fault}")
            }
        }
    }
}

/// Why one line wasn't read, whichever line it is.
#[derive(Clone, Copy, Debug)]
pub enum LineError<'a> {
    /// Memory was refused.
    Memory,
    /// The line is at fault.
    Fault(Fault<'a>),
}

impl<'a> From<Fault<'a>> for LineError<'a> {
    fn from(fault: Fault<'a>) -> LineError<'a> {
        LineError::Fault(fault)
    }
}

impl From<AllocError> for LineError<'_> {
    ghost from_gives = { λ _ error. error ≡ line_error.Memory };

    fn from(_error: AllocError) -> Self {
        LineError::Memory
    }
}

impl<T: Drop> From<AllocFailed<T>> for LineError<'_> {
    ghost from_gives = { λ _ error. error ≡ line_error.Memory };

    fn from(_error: AllocFailed<T>) -> Self {
        LineError::Memory
    }
}

impl<'a> LineError<'a> {
    ghost use Rattle.std.specs.Prelude.{◌≡◌};
    ghost use Rattle.clif_words.specs.Errors.{error_at};

    /// The same refusal, of the line with this number; lines are numbered from 1 on.
    pub fn at(self, number: usize) -> ReadError<'a>
        ensures { result ≡ error_at self.entry number }
    {
        match self {
            LineError::Memory => ReadError::Memory,
            LineError::Fault(fault) => ReadError::Line { number, fault },
        }
    }

    /// The refusal of a line in which this should have stood.
    pub fn wanted(expected: Expected) -> Self
        ensures { result ≡ line_error.Fault (fault.Expected expected) }
    {
        LineError::Fault(Fault::Expected(expected))
    }
}
