//! The text of a function, in the form of Cranelift's.
//!
//! The blocks stand in layout order, with an empty line between two; each has a header with its
//! parameters, the alias lines of these, and its instructions, each with its results, its operands as
//! they were given, a comment on the operands that stand for constants, and the alias lines of its
//! results.
//!
//! Nothing here takes memory or recurses: alias lines are found by a walk over each value's aliases, in
//! order. It is proved that each call is safe and ends, and tested which text it writes.
ghost use Rattle.std.specs.Prelude.{ℕ, ◌≡◌, ◌<◌, length, EachIndex, All, slice_index};
ghost use Rattle.clif_ir.specs.Body.{resolved};
ghost use Rattle.clif_ir.specs.Consistent.{EdgeExists, ValueExists};
ghost use Rattle.clif_ir.specs.Reading.{DefExists, def_of};
ghost use Rattle.clif_instructions.specs.ExceptionTables.{contexts_of};
ghost use Rattle.clif_instructions.specs.Instruction.{contexts, operands, destinations};

use crate::function::Function;
use clif_inst_text::calls::{
    is_call, write_call, write_call_of_address, write_exceptions, write_stack_map,
};
use clif_inst_text::operands::{
    float_bits, write_offset, write_operands, write_place, write_table, write_values,
};
use clif_instructions::block_call::{BlockArg, BlockCall};
use clif_instructions::exception_table::{ExceptionItem, ExceptionTargets};
use clif_instructions::immediates::{Imm64, signed_at};
use clif_instructions::instructions::InstructionData;
use clif_nodes::ValueOrigin;
use clif_nodes::aliases::AliasOrder;
use clif_opcodes::Control;
use clif_types::{Block, EntityRef, Inst, Type, Value};
use std::fmt;
use std::fmt::Display;

/// A function that prints as its text.
#[derive(Clone, Copy)]
pub struct DisplayFunction<'a>(pub &'a Function);

impl Function {
    /// The function as a value that prints as its text. The only error of the printing is the writer's.
    pub fn display(&self) -> DisplayFunction<'_>
        ensures { result.0.now ≡ self.now }
    {
        DisplayFunction(self)
    }
}

impl fmt::Display for DisplayFunction<'_> {
    fn fmt<W: fmt::Write>(&self, f: &mut fmt::Formatter<W>) -> fmt::Result {
        write_function(f, self.0)
    }
}

fn write_function<W: fmt::Write>(f: &mut fmt::Formatter<W>, func: &Function) -> fmt::Result {
    let name = &func.name;
    let signature = &func.signature;
    write!(f, "function {name}{signature} {{\n")?;
    func.tables.fmt(f)?;
    let mut next = func.entry_block();
    for place in 0..func.blocks.len() {
        let Some(block) = next else {
            break;
        };
        if place > 0 {
            f.write_str("\n")?;
        }
        write_block(f, func, block)?;
        next = func.next_block(block);
    }
    f.write_str("}\n")
}

fn write_block<W: fmt::Write>(
    f: &mut fmt::Formatter<W>,
    func: &Function,
    block: Block,
) -> fmt::Result
    requires { block < length func.now.blocks }
{
    write!(f, "{block}")?;
    write_params(f, func, block)?;
    if func.is_cold(block) {
        f.write_str(" cold")?;
    }
    f.write_str(":\n")?;
    write_alias_lines(f, func, func.block_params(block))?;
    let mut next = func.first_inst(block);
    for _ in 0..func.block_inst_count(block) {
        let Some(inst) = next else {
            break;
        };
        write_inst(f, func, inst)?;
        next = func.next_inst(inst);
    }
    Ok(())
}

// The parameters of a block with their types, in parentheses; nothing where there are none.
fn write_params<W: fmt::Write>(
    f: &mut fmt::Formatter<W>,
    func: &Function,
    block: Block,
) -> fmt::Result
    requires { block < length func.now.blocks }
{
    let params = func.block_params(block);
    if params.is_empty() {
        return Ok(());
    }
    let mut separator = "(";
    for param in params.iter() {
        let param = *param;
        let ty = func.value_type(param);
        write!(f, "{separator}{param}: {ty}")?;
        separator = ", ";
    }
    f.write_str(")")
}

fn write_inst<W: fmt::Write>(f: &mut fmt::Formatter<W>, func: &Function, inst: Inst) -> fmt::Result
    requires { inst < length func.now.insts }
{
    let results = func.inst_results(inst);
    f.write_str("    ")?;
    if !results.is_empty() {
        write_values(f, results)?;
        f.write_str(" = ")?;
    }
    write_operation(f, func, inst)?;
    if is_call(func.inst_data(inst)) {
        write_stack_map(f, func.stack_map(inst))?;
    }
    write_comment(f, func, func.inst_data(inst))?;
    f.write_str("\n")?;
    write_alias_lines(f, func, results)
}

// The name of an instruction, its type where one is printed, and its operands.
fn write_operation<W: fmt::Write>(
    f: &mut fmt::Formatter<W>,
    func: &Function,
    inst: Inst,
) -> fmt::Result
    requires { inst < length func.now.insts }
{
    let shape = func.inst_data(inst);
    f.write_str(shape.opcode().name())?;
    write_suffix(f, func, inst)?;
    match shape {
        InstructionData::UnaryImm { imm } => {
            let number = Imm64(signed_at(*imm, result_type(func, inst)));
            return write!(f, " {number}");
        }
        InstructionData::UnaryIeee { opcode, bits } => {
            let float = float_bits(*opcode, *bits);
            return write!(f, " {float}");
        }
        InstructionData::BranchTable { arg, table } => return write_table(f, *arg, table),
        InstructionData::Call { func_ref, args } => return write_call(f, *func_ref, args),
        InstructionData::CallIndirect { sig_ref, args } => {
            write!(f, " {sig_ref},")?;
            return write_call_of_address(f, args);
        }
        InstructionData::TryCall {
            func_ref,
            args,
            exception,
        } => {
            write_call(f, *func_ref, args)?;
            return write_exceptions(f, exception);
        }
        InstructionData::TryCallIndirect { args, exception } => {
            write_call_of_address(f, args)?;
            return write_exceptions(f, exception);
        }
        InstructionData::IntCompare { cond, .. } => write!(f, " {cond}")?,
        InstructionData::Load { flags, .. } => write!(f, "{flags}")?,
        InstructionData::Store { flags, .. } => write!(f, "{flags}")?,
        _ => {}
    }
    write_operands(f, shape)?;
    match shape {
        InstructionData::UnaryConst { constant, .. } => write!(f, " {constant}"),
        InstructionData::Load { offset, .. } => write_offset(f, *offset),
        InstructionData::Store { offset, .. } => write_offset(f, *offset),
        InstructionData::StackLoad { slot, offset, .. } => write_place(f, " ", *slot, *offset),
        InstructionData::StackStore { slot, offset, .. } => write_place(f, ", ", *slot, *offset),
        InstructionData::Trap { code } => write!(f, " {code}"),
        InstructionData::CondTrap { code, .. } => write!(f, ", {code}"),
        _ => Ok(()),
    }
}

// The type of the first result of an instruction.
fn result_type(func: &Function, inst: Inst) -> Type
    requires { inst < length func.now.insts }
{
    match func.inst_results(inst).first() {
        Some(result) => func.value_type(*result),
        None => Type::Invalid,
    }
}

// The controlling type of an instruction, where it is printed: if it is given, or if the operand that tells it is
// defined in another block.
fn write_suffix<W: fmt::Write>(
    f: &mut fmt::Formatter<W>,
    func: &Function,
    inst: Inst,
) -> fmt::Result
    requires { inst < length func.now.insts }
{
    let shape = func.inst_data(inst);
    match shape.control() {
        Control::Absent => Ok(()),
        Control::Given => write_type(f, result_type(func, inst)),
        Control::Operand(place) => match shape.arguments().get(place) {
            Some(operand) => write_type_elsewhere(f, func, inst, *operand),
            None => Ok(()),
        },
    }
}

// The type of an operand that is defined in another block than the instruction's.
fn write_type_elsewhere<W: fmt::Write>(
    f: &mut fmt::Formatter<W>,
    func: &Function,
    inst: Inst,
    operand: Value,
) -> fmt::Result
    requires inst_exists { inst < length func.now.insts }
    requires operand_exists { operand < length func.now.values }
{
    if home(func, operand) == func.inst_block(inst) {
        return Ok(());
    }
    write_type(f, func.value_type(operand))
}

fn write_type<W: fmt::Write>(f: &mut fmt::Formatter<W>, ty: Type) -> fmt::Result {
    f.write_str(".")?;
    write!(f, "{ty}")
}

// The block in which a value is defined.
fn home(func: &Function, value: Value) -> Option<Block>
    requires { value < length func.now.values }
{
    match origin(func, value) {
        ValueOrigin::Result(source, _) => func.inst_block(source),
        ValueOrigin::Param(block) => Some(block),
        ValueOrigin::Alias(_) => None,
    }
}

// Where the value that `value` stands for comes from. Of a parameter, `value_def` looks for the place among those of
// its block too, by a walk that no text needs.
fn origin(func: &Function, value: Value) -> ValueOrigin
    requires { value < length func.now.values }
    ensures { DefExists func.now (def_of func.now (resolved func.now value) result) }
{
    let resolved = func.resolve_aliases(value);
    func.values[resolved.index()].origin
}

// A comment that names each operand that stands for a constant, and then, as they are printed, each argument of an edge and each
// context of a try call that does.
fn write_comment<W: fmt::Write>(
    f: &mut fmt::Formatter<W>,
    func: &Function,
    shape: &InstructionData,
) -> fmt::Result
    requires operands_exist { EachIndex (operands shape.now) (λ k. slice_index (operands shape.now) k < length func.now.values) }
    requires edges_exist { All (EdgeExists func.now) (destinations shape.now) }
    requires contexts_exist { All (ValueExists func.now) (contexts shape.now) }
{
    let mut separator = "  ; ";
    for value in shape.arguments().iter() {
        separator = write_value_constant(f, func, *value, separator)?;
    }
    match shape.exception_targets() {
        Some(exception) => write_exception_constants(f, func, exception, separator),
        None => write_branch_constants(f, func, shape.branch_destination(), separator),
    }
}

// The part of a comment on what the edges of a branch pass.
fn write_branch_constants<W: fmt::Write>(
    f: &mut fmt::Formatter<W>,
    func: &Function,
    edges: &[BlockCall],
    separator: &str,
) -> fmt::Result
    requires { All (EdgeExists func.now) edges.now }
{
    let mut separator = separator;
    for edge in edges.iter() {
        separator = write_edge_constants(f, func, edge, separator)?;
    }
    Ok(())
}

// The part of a comment on a try call's edges and contexts: the normal edge comes first, and then the items in order.
fn write_exception_constants<W: fmt::Write>(
    f: &mut fmt::Formatter<W>,
    func: &Function,
    exception: &ExceptionTargets,
    separator: &str,
) -> fmt::Result
    requires edges_exist { All (EdgeExists func.now) exception.now.edges }
    requires contexts_exist { All (ValueExists func.now) (contexts_of exception.now) }
{
    let edges = exception.all_branches();
    let items = exception.items();
    let mut separator = write_constants_of_edge_at(f, func, edges, 0, separator)?;
    let mut next = 1;
    for place in 0..items.len() {
        match items[place] {
            ExceptionItem::Context(value) => {
                separator = write_value_constant(f, func, value, separator)?;
            }
            ExceptionItem::Tag(_) | ExceptionItem::Default => {
                separator = write_constants_of_edge_at(f, func, edges, next, separator)?;
                next += 1;
            }
        }
    }
    Ok(())
}

// The part of a comment on what the edge at a place passes, if there is one; answers what goes before the next part.
fn write_constants_of_edge_at<'a, W: fmt::Write>(
    f: &mut fmt::Formatter<W>,
    func: &Function,
    edges: &[BlockCall],
    place: usize,
    separator: &'a str,
) -> Result<&'a str, fmt::Error>
    requires { All (EdgeExists func.now) edges.now }
{
    match edges.get(place) {
        Some(edge) => write_edge_constants(f, func, edge, separator),
        None => Ok(separator),
    }
}

// The part of a comment on what an edge passes; answers what goes before the next part.
fn write_edge_constants<'a, W: fmt::Write>(
    f: &mut fmt::Formatter<W>,
    func: &Function,
    edge: &BlockCall,
    separator: &'a str,
) -> Result<&'a str, fmt::Error>
    requires { EdgeExists func.now edge.now }
{
    let mut separator = separator;
    for arg in edge.args.as_slice().iter() {
        if let BlockArg::Value(value) = arg {
            separator = write_value_constant(f, func, *value, separator)?;
        }
    }
    Ok(separator)
}

// The instruction that makes a value, if it is an `iconst`, a float constant or a pooled constant. Most operands are
// none, which is seen without a call.
#[inline(always)]
fn constant_of(func: &Function, value: Value) -> Option<&InstructionData>
    requires { value < length func.now.values }
{
    let ValueOrigin::Result(inst, _) = origin(func, value) else {
        return None;
    };
    let shape = func.inst_data(inst);
    match shape {
        InstructionData::UnaryImm { .. }
        | InstructionData::UnaryIeee { .. }
        | InstructionData::UnaryConst { .. } => Some(shape),
        _ => None,
    }
}

// The part of a comment on a value, if it stands for a constant; answers what goes before the next part.
#[inline(always)]
fn write_value_constant<'a, W: fmt::Write>(
    f: &mut fmt::Formatter<W>,
    func: &Function,
    value: Value,
    separator: &'a str,
) -> Result<&'a str, fmt::Error>
    requires { value < length func.now.values }
{
    match constant_of(func, value) {
        Some(constant) => write_constant(f, func, value, constant, separator),
        None => Ok(separator),
    }
}

// The part of a comment on one value, which the constant `shape` makes; answers what goes before the next part.
fn write_constant<'a, W: fmt::Write>(
    f: &mut fmt::Formatter<W>,
    func: &Function,
    value: Value,
    shape: &InstructionData,
    separator: &'a str,
) -> Result<&'a str, fmt::Error>
    requires { value < length func.now.values }
{
    match shape {
        InstructionData::UnaryImm { imm } => {
            let number = Imm64(signed_at(*imm, func.value_type(value)));
            write!(f, "{separator}{value} = {number}")?;
        }
        InstructionData::UnaryIeee { opcode, bits } => {
            let float = float_bits(*opcode, *bits);
            write!(f, "{separator}{value} = {float}")?;
        }
        InstructionData::UnaryConst { constant, .. } => {
            write!(f, "{separator}{value} = {constant}")?;
        }
        _ => return Ok(separator),
    }
    Ok(", ")
}

// The alias lines of each of these values, in order. Most functions have none, which is seen without a call.
#[inline(always)]
fn write_alias_lines<W: fmt::Write>(
    f: &mut fmt::Formatter<W>,
    func: &Function,
    values: &[Value],
) -> fmt::Result
    requires { EachIndex values.now (λ k. slice_index values.now k < length func.now.values) }
{
    if func.aliases.is_empty() {
        return Ok(());
    }
    write_aliases_of_each(f, func, values)
}

fn write_aliases_of_each<W: fmt::Write>(
    f: &mut fmt::Formatter<W>,
    func: &Function,
    values: &[Value],
) -> fmt::Result
    requires { EachIndex values.now (λ k. slice_index values.now k < length func.now.values) }
{
    for value in values.iter() {
        write_aliases_of(f, func, *value)?;
    }
    Ok(())
}

// The alias lines of one value. They come from a stack that holds the value at first: the top is taken
// off, its direct aliases are printed by rising number, and each is put on the stack. So the next top
// is the last of these aliases, or else the one before the value last handled.
fn write_aliases_of<W: fmt::Write>(
    f: &mut fmt::Formatter<W>,
    func: &Function,
    root: Value,
) -> fmt::Result
    requires { root < length func.now.values }
{
    let mut top = root;
    for _ in 0..func.values.len() {
        write_direct_aliases(f, func, top)?;
        let Some(next) = next_top(func, root, top) else {
            return Ok(());
        };
        top = next;
    }
    Ok(())
}

fn write_direct_aliases<W: fmt::Write>(
    f: &mut fmt::Formatter<W>,
    func: &Function,
    original: Value,
) -> fmt::Result {
    let mut next = func.aliases.first(original, AliasOrder::Rising);
    for _ in 0..func.values.len() {
        let Some(alias) = next else {
            return Ok(());
        };
        write!(f, "    {alias} -> {original}\n")?;
        next = func.aliases.next(original, alias, AliasOrder::Rising);
    }
    Ok(())
}

// The value that is on the stack's top once `top` was handled, where `root` was on it at first.
fn next_top(func: &Function, root: Value, top: Value) -> Option<Value> {
    if let Some(last) = func.aliases.first(top, AliasOrder::Falling) {
        return Some(last);
    }
    let mut handled = top;
    for _ in 0..func.values.len() {
        if handled == root || handled.index() >= func.values.len() {
            return None;
        }
        let original = func.alias_original(handled)?;
        if let Some(previous) = func.aliases.next(original, handled, AliasOrder::Falling) {
            return Some(previous);
        }
        handled = original;
    }
    None
}
