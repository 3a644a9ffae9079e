//! What is wrong with the types of an instruction, and how it is told.
use clif_opcodes::{Demand, Opcode, OperandKind};
use clif_types::{Block, Inst, Type};
use std::fmt;

/// Values that an instruction takes.
#[derive(Clone, Copy)]
pub enum Values {
    /// Those whose number its opcode gives.
    Operands,
    /// The arguments of what it calls.
    Arguments,
    /// What it returns.
    Returned,
    /// What an edge to this block passes.
    Passed(Block),
}

impl Values {
    // What one of them is called.
    fn noun(self) -> &'static str {
        match self {
            Values::Operands => "operand",
            Values::Arguments | Values::Passed(_) => "argument",
            Values::Returned => "returned value",
        }
    }
}

/// A part of an instruction.
#[derive(Clone, Copy)]
pub enum Part {
    /// The type that it is made at, where no operand gives it.
    MadeAt,
    /// One of the values, by its place from 0 on.
    Value(Values, usize),
    /// How many values there are.
    Number(Values),
}

impl fmt::Display for Part {
    fn fmt<W: fmt::Write>(&self, f: &mut fmt::Formatter<W>) -> fmt::Result {
        let values = match self {
            Part::MadeAt => return f.write_str("the type"),
            Part::Value(values, place) => {
                let place = Ordinal(*place);
                let noun = values.noun();
                write!(f, "the {place} {noun}")?;
                *values
            }
            Part::Number(values) => {
                let noun = values.noun();
                write!(f, "the number of {noun}s")?;
                *values
            }
        };
        match values {
            Values::Passed(block) => write!(f, " to {block}"),
            Values::Operands | Values::Arguments | Values::Returned => Ok(()),
        }
    }
}

/// A place from 0 on, as `first` or `21st`.
#[derive(Clone, Copy)]
struct Ordinal(usize);

// The words of the first places.
const ORDINALS: [&str; 10] = [
    "first", "second", "third", "fourth", "fifth", "sixth", "seventh", "eighth", "ninth", "tenth",
];

impl fmt::Display for Ordinal {
    fn fmt<W: fmt::Write>(&self, f: &mut fmt::Formatter<W>) -> fmt::Result {
        if let Some(word) = ORDINALS.get(self.0) {
            return f.write_str(word);
        }
        let number = self.0.saturating_add(1);
        let ending = match (number % 100, number % 10) {
            (11..=13, _) => "th",
            (_, 1) => "st",
            (_, 2) => "nd",
            (_, 3) => "rd",
            _ => "th",
        };
        write!(f, "{number}{ending}")
    }
}

/// What the part is.
#[derive(Clone, Copy)]
pub enum Found {
    /// A value of this type, or the type itself; none where nothing gives the value.
    Type(Type),
    /// So many values.
    Count(usize),
}

impl fmt::Display for Found {
    fn fmt<W: fmt::Write>(&self, f: &mut fmt::Formatter<W>) -> fmt::Result {
        match self {
            Found::Type(Type::Invalid) => f.write_str("nothing"),
            Found::Type(ty) => write!(f, "{ty}"),
            Found::Count(count) => write!(f, "{count}"),
        }
    }
}

/// What the part has to be.
#[derive(Clone, Copy)]
pub enum Needed {
    /// What the opcode asks of the type that the instruction is made at.
    Demand(Demand),
    /// An operand of this kind, where the instruction is made at this type.
    Kind(OperandKind, Type),
    /// A value of this type.
    Type(Type),
    /// So many values.
    Count(usize),
}

impl fmt::Display for Needed {
    fn fmt<W: fmt::Write>(&self, f: &mut fmt::Formatter<W>) -> fmt::Result {
        match *self {
            Needed::Demand(demand) => f.write_str(demanded(demand)),
            Needed::Kind(kind, controlling) => write_kind(f, kind, controlling),
            Needed::Type(ty) => write!(f, "{ty}"),
            Needed::Count(count) => write!(f, "{count}"),
        }
    }
}

fn demanded(demand: Demand) -> &'static str {
    match demand {
        Demand::Nothing | Demand::AType => "a type",
        Demand::AnInteger => "an integer",
        Demand::ADoubled => "an integer of at most 64 bits",
        Demand::AHalved => "an integer of at least 16 bits",
        Demand::AVector => "a vector",
    }
}

fn write_kind<W: fmt::Write>(
    f: &mut fmt::Formatter<W>,
    kind: OperandKind,
    controlling: Type,
) -> fmt::Result {
    let ty = match kind {
        OperandKind::AnInteger => return f.write_str("an integer"),
        OperandKind::Address => return f.write_str("an address (i16, i32 or i64)"),
        OperandKind::Narrower => return write!(f, "an integer narrower than {controlling}"),
        OperandKind::Wider => return write!(f, "an integer wider than {controlling}"),
        OperandKind::Controlling => controlling,
        OperandKind::Lane => controlling.lane_type(),
        OperandKind::Exactly(ty) => ty,
    };
    write!(f, "{ty}")
}

/// What is wrong with the types of an instruction.
#[derive(Clone, Copy)]
pub struct TypeMessage {
    /// The instruction.
    pub inst: Inst,
    /// Its opcode.
    pub opcode: Opcode,
    /// The part of it that isn't as needed.
    pub part: Part,
    /// What this part is.
    pub found: Found,
    /// What it has to be.
    pub needed: Needed,
}

impl fmt::Display for TypeMessage {
    fn fmt<W: fmt::Write>(&self, f: &mut fmt::Formatter<W>) -> fmt::Result {
        let (inst, opcode) = (self.inst, self.opcode);
        let (part, found, needed) = (self.part, self.found, self.needed);
        write!(f, "{inst}: {opcode}: {part} is {found}, {needed} is needed")
    }
}
