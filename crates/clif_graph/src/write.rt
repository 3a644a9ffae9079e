//! The text of the picture.
ghost use Rattle.std.specs.Prelude.{◌<◌, length};

use crate::reached::reached_blocks;
use clif_ir::{BlockArg, BlockCall, ExceptionItem, ExceptionTargets, Function, InstructionData};
use clif_types::{Block, EntityRef};
use std::alloc::{AllocError, Global};
use std::fmt;

/// A function whose graph prints as a text in DOT. Its name stands above. Each block of the layout is a box with its parameters, and
/// each edge of a branch an arrow with what it passes. A cold block is filled, and one that isn't reached from the entry has a dashed frame.
#[derive(Drop)]
pub struct Graph<'a> {
    func: &'a Function,
    // the function's name
    name: String,
    // whether each block is reached
    reached: Vec<bool>,
}

/// When an edge is taken. It prints as the name of its arrow.
#[derive(Clone, Copy)]
enum Arm {
    /// Always.
    Only,
    /// Where the condition of a branch holds.
    Then,
    /// Where it doesn't.
    Else,
    /// Where this is the index of a table.
    Entry(usize),
    /// Where none of the others is.
    Default,
    /// Where a call returns.
    Returned,
    /// Where a call throws an exception with this tag.
    Tag(u32),
}

impl fmt::Display for Arm {
    fn fmt<W: fmt::Write>(&self, f: &mut fmt::Formatter<W>) -> fmt::Result {
        match self {
            Arm::Only => Ok(()),
            Arm::Then => f.write_str("then"),
            Arm::Else => f.write_str("else"),
            Arm::Entry(number) => write!(f, "{number}"),
            Arm::Default => f.write_str("default"),
            Arm::Returned => f.write_str("returned"),
            Arm::Tag(tag) => write!(f, "tag{tag}"),
        }
    }
}

impl<'a> Graph<'a> {
    /// The graph of a function.
    ///
    /// # Errors
    ///
    /// Where memory is refused.
    pub fn of(alloc: Global, func: &'a Function) -> Result<Graph<'a>, AllocError> {
        let name = func.name();
        let name = format!(in alloc; "{name}")?;
        let reached = reached_blocks(alloc, func)?;
        Ok(Graph {
            func,
            name,
            reached,
        })
    }

    fn is_reached(&self, block: Block) -> bool {
        self.reached.get(block.index()).copied().unwrap_or(false)
    }

    // The box of a block, and the arrows that begin there.
    fn write_block<W: fmt::Write>(&self, f: &mut fmt::Formatter<W>, block: Block) -> fmt::Result
        requires { block < length self.now.func.now.blocks }
    {
        write!(f, "    {block} [label=\"{block}")?;
        write_params(f, self.func, block)?;
        f.write_str("\"")?;
        f.write_str(match (self.func.is_cold(block), self.is_reached(block)) {
            (false, true) => "",
            (true, true) => ", style=filled",
            (false, false) => ", style=dashed",
            (true, false) => ", style=\"filled,dashed\"",
        })?;
        f.write_str("]\n")?;
        write_arrows(f, self.func, block)
    }
}

impl fmt::Display for Graph<'_> {
    fn fmt<W: fmt::Write>(&self, f: &mut fmt::Formatter<W>) -> fmt::Result {
        f.write_str("digraph {\n    graph [labelloc=t, label=\"")?;
        write_quoted(f, self.name.as_str())?;
        f.write_str("\"]\n    node [shape=box]\n")?;
        let mut next = self.func.entry_block();
        for _ in 0..self.func.block_count() {
            let Some(block) = next else {
                break;
            };
            self.write_block(f, block)?;
            next = self.func.next_block(block);
        }
        f.write_str("}\n")
    }
}

// What stands between the quotes of a label for a text: in a label a quote ends it, and a backslash and `&` begin an escape.
fn write_quoted<W: fmt::Write>(f: &mut fmt::Formatter<W>, text: &str) -> fmt::Result {
    for character in text.chars() {
        match character {
            '"' => f.write_str("\\\"")?,
            '\\' => f.write_str("\\\\")?,
            '&' => f.write_str("&amp;")?,
            other => f.write_char(other)?,
        }
    }
    Ok(())
}

// The parameters of a block with their types, in parentheses; nothing where there are none.
fn write_params<W: fmt::Write>(
    f: &mut fmt::Formatter<W>,
    func: &Function,
    block: Block,
) -> fmt::Result
    requires { block < length func.now.blocks }
{
    let params = func.block_params(block);
    if params.is_empty() {
        return Ok(());
    }
    let mut separator = "(";
    for param in params.iter() {
        let param = *param;
        let ty = func.value_type(param);
        write!(f, "{separator}{param}: {ty}")?;
        separator = ", ";
    }
    f.write_str(")")
}

// The arrows of a block's last instruction.
fn write_arrows<W: fmt::Write>(
    f: &mut fmt::Formatter<W>,
    func: &Function,
    block: Block,
) -> fmt::Result
    requires { block < length func.now.blocks }
{
    let Some(inst) = func.last_inst(block) else {
        return Ok(());
    };
    let shape = func.inst_data(inst);
    if let Some(exception) = shape.exception_targets() {
        return write_try_arrows(f, block, exception);
    }
    for (place, edge) in shape.branch_destination().iter().enumerate() {
        write_arrow(f, block, edge, arm_of(shape, place))?;
    }
    Ok(())
}

// When the edge at a place of a branch is taken.
fn arm_of(shape: &InstructionData, place: usize) -> Arm {
    match (shape, place.checked_sub(1)) {
        (InstructionData::Brif { .. }, None) => Arm::Then,
        (InstructionData::Brif { .. }, Some(_)) => Arm::Else,
        (InstructionData::BranchTable { .. }, None) => Arm::Default,
        (InstructionData::BranchTable { .. }, Some(entry)) => Arm::Entry(entry),
        _ => Arm::Only,
    }
}

// The arrows of a try call. Each tag and each default takes the next edge after the normal one.
fn write_try_arrows<W: fmt::Write>(
    f: &mut fmt::Formatter<W>,
    block: Block,
    exception: &ExceptionTargets,
) -> fmt::Result {
    write_arrow(f, block, exception.normal_return(), Arm::Returned)?;
    let mut edges = exception.all_branches().iter().skip(1);
    for item in exception.items() {
        let arm = match item {
            ExceptionItem::Tag(tag) => Arm::Tag(*tag),
            ExceptionItem::Default => Arm::Default,
            ExceptionItem::Context(_) => continue,
        };
        if let Some(edge) = edges.next() {
            write_arrow(f, block, edge, arm)?;
        }
    }
    Ok(())
}

// The arrow of an edge.
fn write_arrow<W: fmt::Write>(
    f: &mut fmt::Formatter<W>,
    from: Block,
    edge: &BlockCall,
    arm: Arm,
) -> fmt::Result {
    let to = edge.block;
    write!(f, "    {from} -> {to}")?;
    match (arm, edge.args.as_slice()) {
        (Arm::Only, []) => f.write_str("\n"),
        (_, args) => {
            write!(f, " [label=\"{arm}")?;
            write_args(f, args)?;
            f.write_str("\"]\n")
        }
    }
}

// What an edge passes, in parentheses; nothing where it passes nothing.
fn write_args<W: fmt::Write>(f: &mut fmt::Formatter<W>, args: &[BlockArg]) -> fmt::Result {
    if args.is_empty() {
        return Ok(());
    }
    let mut separator = "(";
    for arg in args {
        let arg = *arg;
        write!(f, "{separator}{arg}")?;
        separator = ", ";
    }
    f.write_str(")")
}
