//! The conditions of calls and of the end of a script, and how one that doesn't hold is told.
use clif_calls::Name;
use clif_opcodes::Opcode;
use clif_records::Variable;
use clif_types::{Block, EntityRef, ExceptionTable, Inst, IntCC, JumpTable, Type, Value};
use std::fmt;

/// A condition that doesn't hold. Blocks, values, instructions and tables have the numbers of the function.
#[derive(Clone, Copy)]
pub enum Condition {
    /// The name leads to no block.
    NoBlock(Name),
    /// The name leads to no value.
    NoValue(Name),
    /// The name leads to no edge.
    NoEdge(Name),
    /// The name leads to no instruction.
    NoInst(Name),
    /// The name leads to no stack slot.
    NoSlot(Name),
    /// The name leads to no jump table.
    NoTable(Name),
    /// The name leads to no exception table.
    NoExceptions(Name),
    /// The name leads to no signature.
    NoSignature(Name),
    /// The name leads to no function.
    NoFunction(Name),
    /// An entry that the instruction names wasn't made.
    NoEntry,
    /// The value isn't an integer.
    NoInteger(Value),
    /// The value isn't a byte.
    NoByte(Value),
    /// No edge of the instruction leads to the block.
    LeadsElsewhere(Inst, Block),
    /// The variable isn't declared.
    NoVariable(Variable),
    /// The jump table serves another instruction.
    TableServed(JumpTable),
    /// The exception table serves another instruction.
    ExceptionsServed(ExceptionTable),
    /// No block is current.
    NoCurrent,
    /// The block has a terminator.
    Filled(Block),
    /// The current block has no terminator yet, so it can't be left.
    Unfilled(Block),
    /// The block is sealed.
    Sealed(Block),
    /// Something was made in the block.
    Begun(Block),
    /// A branch leads to the block.
    Reached(Block),
    /// The block is in the layout.
    Placed(Block),
    /// The block isn't in the layout.
    Unplaced(Block),
    /// No variable can have this type.
    VariableType(Type),
    /// The variable was used or assigned.
    Touched(Variable),
    /// No stack map has room for a value of this type.
    NoRoom(Type),
    /// The variable's type, and another one that the value has.
    AssignedType(Type, Type),
    /// The alignment of a stack slot is too great.
    Alignment(u8),
    /// A constant of so many bytes is wanted, and has so many.
    Bytes(u32, usize),
    /// The instruction can't be made at this type.
    MadeAt(Opcode, Type),
    /// So many bytes are more than a pointer can count.
    Size(u64),
    /// The alignment is greater than each power of two that divides the number of bytes.
    MovedAlignment(u8, u64),
    /// Bytes are compared as signed numbers.
    Signed(IntCC),
    /// The key comes twice among those of a switch.
    KeyTwice(u128),
    /// The greatest key of a switch is no unsigned number of the value's type.
    KeyTooWide(Type, u128),
    /// Too many keys of a switch follow one another for a jump table.
    TableTooLong,
    /// The end comes, and the block isn't sealed.
    Unsealed(Block),
    /// The end comes, and the block has no terminator.
    Unended(Block),
    /// The end comes, and the context of the try call is a value that stack maps need.
    TrackedContext(Inst),
    /// An earlier call failed.
    Failed,
}

impl fmt::Display for Condition {
    fn fmt<W: fmt::Write>(&self, f: &mut fmt::Formatter<W>) -> fmt::Result {
        match self {
            Condition::NoBlock(name) => write_name(f, *name, "block"),
            Condition::NoValue(name) => write_name(f, *name, "value"),
            Condition::NoEdge(name) => write_name(f, *name, "block call"),
            Condition::NoInst(name) => write_name(f, *name, "instruction"),
            Condition::NoSlot(name) => write_name(f, *name, "stack slot"),
            Condition::NoTable(name) => write_name(f, *name, "jump table"),
            Condition::NoExceptions(name) => write_name(f, *name, "exception table"),
            Condition::NoSignature(name) => write_name(f, *name, "signature"),
            Condition::NoFunction(name) => write_name(f, *name, "function"),
            Condition::NoEntry => f.write_str("an entry that it names wasn't made"),
            Condition::NoInteger(value) => write!(f, "{value} is no integer"),
            Condition::NoByte(value) => write!(f, "{value} is no i8"),
            Condition::LeadsElsewhere(inst, block) => {
                write!(f, "{inst} doesn't lead to {block}")
            }
            Condition::NoVariable(variable) => write_variable(f, *variable, "isn't declared"),
            Condition::TableServed(table) => write!(f, "{table} serves another instruction"),
            Condition::ExceptionsServed(table) => write!(f, "{table} serves another instruction"),
            Condition::NoCurrent => f.write_str("no block is current"),
            Condition::Filled(block) => write!(f, "{block} is filled"),
            Condition::Unfilled(block) => write!(f, "{block} isn't filled yet"),
            Condition::Sealed(block) => write!(f, "{block} is sealed"),
            Condition::Begun(block) => write!(f, "{block} isn't empty"),
            Condition::Reached(block) => write!(f, "{block} has a predecessor"),
            Condition::Placed(block) => write!(f, "{block} is in the layout"),
            Condition::Unplaced(block) => write!(f, "{block} isn't in the layout"),
            Condition::VariableType(ty) => write!(f, "no variable can have type {ty}"),
            Condition::Touched(variable) => write_variable(f, *variable, "was used or assigned"),
            Condition::NoRoom(ty) => write!(f, "no stack map has room for {ty}"),
            Condition::AssignedType(wanted, found) => {
                write!(f, "the variable has type {wanted}, and the value {found}")
            }
            Condition::Alignment(shift) => write!(f, "the shift {shift} is above 31"),
            Condition::Bytes(wanted, found) => {
                write!(f, "the constant has {found} bytes, and its type {wanted}")
            }
            Condition::MadeAt(opcode, ty) => write!(f, "{opcode} can't be made at type {ty}"),
            Condition::Size(size) => write!(f, "a pointer can't count {size} bytes"),
            Condition::MovedAlignment(alignment, size) => {
                write!(
                    f,
                    "no power of two from {alignment} on divides the size {size}"
                )
            }
            Condition::Signed(cond) => write!(f, "{cond} is of signed numbers"),
            Condition::KeyTwice(key) => write!(f, "the key {key} comes twice"),
            Condition::KeyTooWide(ty, key) => write!(f, "the key {key} is no number of type {ty}"),
            Condition::TableTooLong => f.write_str("2^32 keys follow one another"),
            Condition::Unsealed(block) => write!(f, "{block} isn't sealed"),
            Condition::Unended(block) => write!(f, "{block} isn't filled"),
            Condition::TrackedContext(inst) => {
                write!(f, "the context of {inst} is a value that stack maps need")
            }
            Condition::Failed => f.write_str("an earlier call failed"),
        }
    }
}

fn write_name<W: fmt::Write>(f: &mut fmt::Formatter<W>, name: Name, kind: &str) -> fmt::Result {
    let place = name.place;
    let answer = name.answer;
    write!(f, "${place}.{answer} is no {kind}")
}

fn write_variable<W: fmt::Write>(
    f: &mut fmt::Formatter<W>,
    variable: Variable,
    is: &str,
) -> fmt::Result {
    let number = variable.index();
    write!(f, "var{number} {is}")
}
