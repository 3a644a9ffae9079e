//! The texts of calls: what is called with which arguments, where a try call goes, and stack maps.
ghost use Rattle.std.specs.Prelude.{◌≡◌};
ghost use Rattle.clif_instructions.specs.Instruction.{is_call};

use crate::operands::{write_edge, write_values};
use clif_instructions::block_call::BlockCall;
use clif_instructions::exception_table::{ExceptionItem, ExceptionTargets};
use clif_instructions::instructions::InstructionData;
use clif_instructions::value_list::ValueList;
use clif_types::{FuncRef, UserStackMapEntry};
use std::fmt;

/// A function, and in parentheses the arguments.
///
/// # Errors
///
/// `fmt::Error`, where the writer refuses the text.
pub fn write_call<W: fmt::Write>(
    f: &mut fmt::Formatter<W>,
    function: FuncRef,
    args: &ValueList,
) -> fmt::Result {
    write!(f, " {function}(")?;
    write_values(f, args.as_slice())?;
    f.write_str(")")
}

/// An address, and in parentheses the arguments, which follow it in the list.
///
/// # Errors
///
/// `fmt::Error`, where the writer refuses the text.
pub fn write_call_of_address<W: fmt::Write>(
    f: &mut fmt::Formatter<W>,
    args: &ValueList,
) -> fmt::Result {
    let Some((address, arguments)) = args.as_slice().split_first() else {
        return f.write_str(" ()");
    };
    write!(f, " {address}(")?;
    write_values(f, arguments)?;
    f.write_str(")")
}

/// The signature of a try call, its normal edge, and its items.
///
/// # Errors
///
/// `fmt::Error`, where the writer refuses the text.
pub fn write_exceptions<W: fmt::Write>(
    f: &mut fmt::Formatter<W>,
    exception: &ExceptionTargets,
) -> fmt::Result {
    let sig = exception.signature();
    write!(f, ", {sig}, ")?;
    write_edge(f, exception.normal_return())?;
    if exception.items().is_empty() {
        return f.write_str(", []");
    }
    f.write_str(", [ ")?;
    write_items(f, exception)?;
    f.write_str(" ]")
}

// The items of a try call, joined by `, `. Each tag and each default takes the next edge after the normal one.
fn write_items<W: fmt::Write>(
    f: &mut fmt::Formatter<W>,
    exception: &ExceptionTargets,
) -> fmt::Result {
    let mut edges = exception.all_branches().iter();
    let _normal = edges.next();
    for (place, item) in exception.items().iter().enumerate() {
        if place > 0 {
            f.write_str(", ")?;
        }
        match item {
            ExceptionItem::Tag(tag) => {
                write!(f, "tag{tag}: ")?;
                write_next_edge(f, edges.next())?;
            }
            ExceptionItem::Default => {
                f.write_str("default: ")?;
                write_next_edge(f, edges.next())?;
            }
            ExceptionItem::Context(value) => write!(f, "context {value}")?,
        }
    }
    Ok(())
}

fn write_next_edge<W: fmt::Write>(
    f: &mut fmt::Formatter<W>,
    edge: Option<&BlockCall>,
) -> fmt::Result {
    match edge {
        Some(edge) => write_edge(f, edge),
        None => Ok(()),
    }
}

/// Whether an instruction is a call, which alone shows its stack map.
pub fn is_call(shape: &InstructionData) -> bool
    ensures { result ≡ is_call shape.now }
{
    match shape {
        InstructionData::Call { .. }
        | InstructionData::CallIndirect { .. }
        | InstructionData::TryCall { .. }
        | InstructionData::TryCallIndirect { .. } => true,
        _ => false,
    }
}

/// The stack map of a call; nothing where it is empty.
///
/// # Errors
///
/// `fmt::Error`, where the writer refuses the text.
pub fn write_stack_map<W: fmt::Write>(
    f: &mut fmt::Formatter<W>,
    entries: &[UserStackMapEntry],
) -> fmt::Result {
    if entries.is_empty() {
        return Ok(());
    }
    let mut separator = ", stack_map=[";
    for entry in entries.iter() {
        let entry = *entry;
        write!(f, "{separator}{entry}")?;
        separator = ", ";
    }
    f.write_str("]")
}
