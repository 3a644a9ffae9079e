//! The calls that are understood: one arm each.
ghost use Rattle.std.specs.Prelude.{◌≡◌, ◌++◌, IfOk, IfSome, codes};
ghost use Rattle.clif_words.specs.Cursor.{texts, words_left};
ghost use Rattle.clif_arguments.specs.Given.{is_instruction};
ghost use Rattle.clif_text.specs.Grammar.{IsCall};
ghost use Rattle.clif_text.specs.Reading.{ReadsCall, ReadsStraight};
ghost use Rattle.clif_arguments.specs.Scope.{names_of};
ghost use Rattle.clif_arguments.specs.Taking.{names_in};

use crate::entries::read_entry_call;
use crate::immediate::read_immediate_call;
use crate::instructions::{opcode_named, read_typed_call, read_untyped_call};
use crate::memory::read_memory_call;
use crate::outside::read_outside_call;
use crate::switch::read_switch_call;
use crate::throwing::read_throwing_call;
use clif_arguments::args::Args;
use clif_arguments::scope::Scope;
use clif_calls::{Call, Lender, PlainInstruction, StraightInstruction};
use clif_types::SourceLoc;
use clif_words::error::{Expected, Fault, LineError};
use std::alloc::Global;

// The call of this name, with what follows it; not all of that may be taken.
fn read_call<'a>(
    alloc: Global,
    head: &'a str,
    args: &mut Args<'_, 'a>,
) -> Result<Call, LineError<'a>>
    ensures { IfOk result (ReadsCall args.old args.new head.now) }
{
    match head {
        "create_sized_stack_slot"
        | "create_dynamic_stack_slot"
        | "create_global_value"
        | "import_signature"
        | "import_function" => read_entry_call(alloc, head, args),
        "block_call" => Ok(Call::BlockCall {
            edge: args.table_edge(alloc)?,
        }),
        "create_jump_table" => Ok(Call::CreateJumpTable {
            default: args.edge_name()?,
            entries: args.last_edge_names(alloc)?,
        }),
        "declare_var" => Ok(Call::DeclareVar { ty: args.ty()? }),
        "declare_var_needs_stack_map" => Ok(Call::DeclareVarNeedsStackMap {
            variable: args.variable()?,
        }),
        "declare_value_needs_stack_map" => Ok(Call::DeclareValueNeedsStackMap {
            value: args.value()?,
        }),
        "def_var" => Ok(Call::DefVar {
            variable: args.variable()?,
            value: args.value()?,
        }),
        "use_var" => Ok(Call::UseVar {
            variable: args.variable()?,
        }),
        "try_def_var" => Ok(Call::TryDefVar {
            variable: args.variable()?,
            value: args.value()?,
        }),
        "try_use_var" => Ok(Call::TryUseVar {
            variable: args.variable()?,
        }),
        "jump" => Ok(Call::Jump {
            destination: args.last_edge(alloc)?,
        }),
        "brif" => Ok(Call::Brif {
            condition: args.value()?,
            block_then: args.edge(alloc)?,
            block_else: args.last_edge(alloc)?,
        }),
        "br_table" => Ok(Call::BrTable {
            index: args.value()?,
            table: args.jump_table()?,
        }),
        "return" => Ok(Call::Return {
            values: args.last_values(alloc)?,
        }),
        "trap" => Ok(Call::Trap {
            code: args.trap_code()?,
        }),
        "iadd_imm_s" | "icmp_imm_s" => read_immediate_call(head, args),
        "switch" => read_switch_call(alloc, head, args),
        "call_memcpy"
        | "call_memmove"
        | "call_memset"
        | "call_memcmp"
        | "emit_small_memory_copy"
        | "emit_small_memset"
        | "emit_small_memory_compare" => read_memory_call(head, args),
        "create_exception_table" | "try_call" | "try_call_indirect" => {
            read_throwing_call(alloc, head, args)
        }
        "set_srcloc" | "collect_debug_info" | "set_val_label" => read_note_call(head, args),
        "change_jump_destination" => read_change_call(head, args),
        "cursor" => read_cursor_call(alloc, head, args),
        "create_block"
        | "seal_all_blocks"
        | "ensure_inserted_block"
        | "switch_to_block"
        | "seal_block"
        | "insert_block_after"
        | "set_cold_block"
        | "append_block_param"
        | "append_block_params_for_function_params"
        | "append_block_params_for_function_returns" => read_block_call(head, args),
        _ => {
            let instruction = read_straight(alloc, head, args)?;
            Ok(Call::Straight(Lender::Ins, instruction))
        }
    }
}

// The same for a note: a place in the source, or a label.
fn read_note_call<'a>(head: &'a str, args: &mut Args<'_, 'a>) -> Result<Call, LineError<'a>>
    ensures { IfOk result (ReadsCall args.old args.new head.now) }
{
    match head {
        "set_srcloc" => {
            let bits = args.short_magnitude(Expected::SourceLoc)?;
            let srcloc = SourceLoc::new(bits);
            Ok(Call::SetSrcloc { srcloc })
        }
        "collect_debug_info" => Ok(Call::CollectDebugInfo),
        "set_val_label" => {
            let value = args.value()?;
            let label = args.label()?;
            Ok(Call::SetValLabel { value, label })
        }
        _ => Err(LineError::Fault(Fault::UnknownCall(head))),
    }
}

// The same for a branch that is changed: the branch, the block that it leads to, and the other one.
fn read_change_call<'a>(head: &'a str, args: &mut Args<'_, 'a>) -> Result<Call, LineError<'a>>
    requires { head.now ≡ codes "change_jump_destination" }
    ensures { IfOk result (ReadsCall args.old args.new head.now) }
{
    let branch = args.inst()?;
    let from = args.block()?;
    let to = args.block()?;
    Ok(Call::ChangeJumpDestination { branch, from, to })
}

// The same for `cursor`, which has an instruction behind it that ends no block.
fn read_cursor_call<'a>(
    alloc: Global,
    head: &'a str,
    args: &mut Args<'_, 'a>,
) -> Result<Call, LineError<'a>>
    requires { head.now ≡ codes "cursor" }
    ensures { IfOk result (ReadsCall args.old args.new head.now) }
{
    let name = args.head()?;
    match read_straight(alloc, name, args) {
        Ok(instruction) => Ok(Call::Straight(Lender::Cursor, instruction)),
        Err(error) => Err(behind_cursor(error)),
    }
}

// What is told behind `cursor`, where no instruction is read: the word there is none that it makes.
fn behind_cursor(error: LineError<'_>) -> LineError<'_> {
    match error {
        LineError::Fault(Fault::UnknownCall(word)) => LineError::Fault(Fault::NotForCursor(word)),
        other => other,
    }
}

// The instruction that ends no block with this name, which stands alone or has a type behind it, as `iconst.i32`.
fn read_straight<'a>(
    alloc: Global,
    head: &'a str,
    args: &mut Args<'_, 'a>,
) -> Result<StraightInstruction, LineError<'a>>
    ensures { IfOk result (ReadsStraight args.old args.new head.now) }
{
    if let Some(opcode) = opcode_named(head) {
        return read_untyped_call(alloc, head, opcode, args);
    }
    let Some((name, suffix)) = name_and_type(head) else {
        return read_outside_call(alloc, head, args);
    };
    match opcode_named(name) {
        Some(opcode) => read_typed_call(alloc, head, opcode, suffix, args),
        None => Err(LineError::Fault(Fault::UnknownCall(head))),
    }
}

// The same for a call that makes, marks or places blocks.
fn read_block_call<'a>(head: &'a str, args: &mut Args<'_, 'a>) -> Result<Call, LineError<'a>>
    ensures { IfOk result (ReadsCall args.old args.new head.now) }
{
    match head {
        "create_block" => Ok(Call::CreateBlock),
        "seal_all_blocks" => Ok(Call::SealAllBlocks),
        "ensure_inserted_block" => Ok(Call::EnsureInsertedBlock),
        "switch_to_block"
        | "seal_block"
        | "insert_block_after"
        | "set_cold_block"
        | "append_block_param"
        | "append_block_params_for_function_params"
        | "append_block_params_for_function_returns" => read_call_at_block(head, args),
        _ => Err(LineError::Fault(Fault::UnknownCall(head))),
    }
}

// The same for a call whose name has a block behind it.
fn read_call_at_block<'a>(head: &'a str, args: &mut Args<'_, 'a>) -> Result<Call, LineError<'a>>
    ensures { IfOk result (ReadsCall args.old args.new head.now) }
{
    let block = args.block()?;
    match head {
        "switch_to_block" => Ok(Call::SwitchToBlock { block }),
        "seal_block" => Ok(Call::SealBlock { block }),
        "insert_block_after" => Ok(Call::InsertBlockAfter {
            block,
            after: args.block()?,
        }),
        "set_cold_block" => Ok(Call::SetColdBlock { block }),
        "append_block_param" => Ok(Call::AppendBlockParam {
            block,
            ty: args.ty()?,
        }),
        "append_block_params_for_function_params" => {
            Ok(Call::AppendBlockParamsForFunctionParams { block })
        }
        "append_block_params_for_function_returns" => {
            Ok(Call::AppendBlockParamsForFunctionReturns { block })
        }
        _ => Err(LineError::Fault(Fault::UnknownCall(head))),
    }
}

// The name of a call, and the type behind it.
fn name_and_type(head: &str) -> Option<(&str, &str)>
    ensures { IfSome result (λ parts. head.now ≡ parts.0.now ++ (codes "." ++ parts.1.now)) }
{
    head.split_once('.')
}

/// The call that the words stand for, of which the first is its name.
pub(crate) fn call_of<'a>(
    alloc: Global,
    words: &[&'a str],
    scope: &Scope<'a>,
) -> Result<Call, LineError<'a>>
    ensures { IfOk result (IsCall (names_of scope.now) (texts words.now)) }
{
    let mut args = Args::new(words, scope);
    call_in(alloc, &mut args)
}

// The same of words none of which was taken.
fn call_in<'a>(alloc: Global, args: &mut Args<'_, 'a>) -> Result<Call, LineError<'a>>
    ensures { IfOk result (IsCall (names_in args.old) (words_left args.old.words)) }
{
    let head = args.head()?;
    let call = read_call(alloc, head, args)?;
    args.end()?;
    Ok(call)
}

/// The place, from 0 on, of the word for which these words are refused as a call. There is none where they are one, or where
/// memory is refused.
pub(crate) fn refused_in_call<'a>(
    alloc: Global,
    words: &[&'a str],
    scope: &Scope<'a>,
) -> Option<usize> {
    let mut args = Args::new(words, scope);
    match call_in(alloc, &mut args) {
        // the word after `cursor`
        Err(LineError::Fault(Fault::NotForCursor(_))) => Some(1),
        Err(LineError::Fault(fault)) => Some(args.refused(&fault)),
        Ok(_) | Err(LineError::Memory) => None,
    }
}

/// What a call answers, as far as names are given to it.
#[derive(Clone, Copy, Debug)]
pub(crate) struct Answers {
    /// Whether it is an instruction, which `@` names.
    pub instruction: bool,
    /// How many names it can have, beside that of an instruction. How many parameters or returns a signature has isn't
    /// known here: its line may come later.
    pub names: usize,
}

/// What this call answers.
pub(crate) fn answers_of(call: &Call) -> Answers
    ensures { result.instruction ≡ is_instruction call.now }
{
    let (instruction, names) = match call {
        Call::CreateBlock
        | Call::AppendBlockParam { .. }
        | Call::Entry(_)
        | Call::BlockCall { .. }
        | Call::CreateJumpTable { .. }
        | Call::CreateExceptionTable { .. }
        | Call::DeclareVar { .. }
        | Call::UseVar { .. }
        | Call::TryUseVar { .. }
        | Call::Immediate(_) => (false, 1),
        Call::Memory(called) => (false, usize::from(called.result().is_some())),
        Call::AppendBlockParamsForFunctionParams { .. }
        | Call::AppendBlockParamsForFunctionReturns { .. } => (false, usize::MAX),
        Call::SwitchToBlock { .. }
        | Call::SealBlock { .. }
        | Call::SealAllBlocks
        | Call::InsertBlockAfter { .. }
        | Call::SetColdBlock { .. }
        | Call::EnsureInsertedBlock
        | Call::DeclareVarNeedsStackMap { .. }
        | Call::DeclareValueNeedsStackMap { .. }
        | Call::DefVar { .. }
        | Call::TryDefVar { .. }
        | Call::SetSrcloc { .. }
        | Call::CollectDebugInfo
        | Call::SetValLabel { .. }
        | Call::ChangeJumpDestination { .. }
        | Call::Switch { .. } => (false, 0),
        Call::Straight(_, instruction) => (true, result_count(instruction)),
        Call::Jump { .. }
        | Call::Brif { .. }
        | Call::BrTable { .. }
        | Call::Throwing(_)
        | Call::Return { .. }
        | Call::Trap { .. } => (true, 0),
    };
    Answers { instruction, names }
}

// How many results an instruction has. How many a signature returns isn't known here: its line may come later.
fn result_count(instruction: &StraightInstruction) -> usize {
    match instruction {
        StraightInstruction::Plain(plain) => plain_result_count(plain),
        StraightInstruction::F128const { .. } | StraightInstruction::Vconst { .. } => 1,
        StraightInstruction::Outside(_) => usize::MAX,
    }
}

// How many results a plain instruction has.
fn plain_result_count(instruction: &PlainInstruction) -> usize {
    match instruction {
        PlainInstruction::Store { .. }
        | PlainInstruction::StackStore { .. }
        | PlainInstruction::Trapz { .. }
        | PlainInstruction::Trapnz { .. } => 0,
        PlainInstruction::Isplit { .. } => 2,
        _ => 1,
    }
}
