//! Scripts as text, written.
ghost use Rattle.std.specs.Prelude.{◌≡◌, ◌++◌, Some, IfOk, string_bytes};
ghost use Rattle.clif_text.specs.Texts.{answer_text, answers_text, argument_text, passed_text, edge_text, entry_text, global_text, immediate_text, imported_name_text, imported_text, item_text, items_text, lender_text, memory_text, offset_text, outside_text, arguments_text, plan_text, straight_text, switch_case_text, switch_cases_text, table_edge_text, throwing_text, call_text, calls_text, header_text};
ghost use Rattle.clif_text.specs.Operands.{operands_text};
ghost use Rattle.clif_words.specs.Spelling.{overlap_word};

use crate::memory::library_call_name;
use clif_calls::{
    Call, Edge, EntryCall, ImmediateCall, ImportedFunction, Lender, MemoryCall, Name, OutsideCall,
    Passed, Plan, StraightInstruction, SwitchEntry, TableEdge, TableItem, ThrowingCall,
};
use clif_records::Variable;
use clif_types::{
    ExternalName, GlobalValueData, HexBytes, PointerWidth, Signature, TargetFrontendConfig, Type,
    UserFuncName,
};
use std::alloc::{AllocError, Global};
use std::fmt;

// An answer, as `$P.K`.
#[derive(Clone, Copy)]
struct AnswerText(Name);

impl fmt::Display for AnswerText {
    ghost output = { λ text. Some (answer_text text.0) };

    fn fmt<W: fmt::Write>(&self, f: &mut fmt::Formatter<W>) -> fmt::Result {
        let Name { place, answer } = self.0;
        write!(f, "${place}.{answer}")
    }
}

// Answers, each behind a space.
#[derive(Clone, Copy)]
struct AnswersText<'a>(&'a [Name]);

impl fmt::Display for AnswersText<'_> {
    ghost output = { λ text. Some (answers_text text.0.now) };

    fn fmt<W: fmt::Write>(&self, f: &mut fmt::Formatter<W>) -> fmt::Result {
        for name in self.0 {
            let answer = AnswerText(*name);
            write!(f, " {answer}")?;
        }
        Ok(())
    }
}

// An edge, as `$P.K( $P.K $P.K)`.
#[derive(Clone, Copy)]
struct EdgeText<'a>(&'a Edge);

impl fmt::Display for EdgeText<'_> {
    ghost output = { λ text. Some (edge_text text.0.now) };

    fn fmt<W: fmt::Write>(&self, f: &mut fmt::Formatter<W>) -> fmt::Result {
        let block = AnswerText(self.0.block);
        let args = AnswersText(self.0.args.as_slice());
        write!(f, "{block}({args})")
    }
}

// What an edge of a table passes, as `$P.K`, `ret0` or `exn1`.
#[derive(Clone, Copy)]
struct ArgumentText(Passed);

impl fmt::Display for ArgumentText {
    ghost output = { λ text. Some (argument_text text.0) };

    fn fmt<W: fmt::Write>(&self, f: &mut fmt::Formatter<W>) -> fmt::Result {
        match self.0 {
            Passed::Value(name) => write!(f, "{}", AnswerText(name)),
            Passed::Returned(place) => write!(f, "ret{place}"),
            Passed::Thrown(place) => write!(f, "exn{place}"),
        }
    }
}

// All of it, each behind a space.
#[derive(Clone, Copy)]
struct PassedText<'a>(&'a [Passed]);

impl fmt::Display for PassedText<'_> {
    ghost output = { λ text. Some (passed_text text.0.now) };

    fn fmt<W: fmt::Write>(&self, f: &mut fmt::Formatter<W>) -> fmt::Result {
        for passed in self.0 {
            let argument = ArgumentText(*passed);
            write!(f, " {argument}")?;
        }
        Ok(())
    }
}

// An edge of a table, as `$P.K( $P.K ret0)`.
#[derive(Clone, Copy)]
struct TableEdgeText<'a>(&'a TableEdge);

impl fmt::Display for TableEdgeText<'_> {
    ghost output = { λ text. Some (table_edge_text text.0.now) };

    fn fmt<W: fmt::Write>(&self, f: &mut fmt::Formatter<W>) -> fmt::Result {
        let block = AnswerText(self.0.block);
        let args = PassedText(self.0.args.as_slice());
        write!(f, "{block}({args})")
    }
}

// An item of an exception table.
#[derive(Clone, Copy)]
struct ItemText(TableItem);

impl fmt::Display for ItemText {
    ghost output = { λ text. Some (item_text text.0) };

    fn fmt<W: fmt::Write>(&self, f: &mut fmt::Formatter<W>) -> fmt::Result {
        match self.0 {
            TableItem::Tag(tag, edge) => write!(f, "tag{tag} {}", AnswerText(edge)),
            TableItem::Default(edge) => write!(f, "default {}", AnswerText(edge)),
            TableItem::Context(value) => write!(f, "context {}", AnswerText(value)),
        }
    }
}

// Items, each behind a space.
#[derive(Clone, Copy)]
struct ItemsText<'a>(&'a [TableItem]);

impl fmt::Display for ItemsText<'_> {
    ghost output = { λ text. Some (items_text text.0.now) };

    fn fmt<W: fmt::Write>(&self, f: &mut fmt::Formatter<W>) -> fmt::Result {
        for one in self.0 {
            let item = ItemText(*one);
            write!(f, " {item}")?;
        }
        Ok(())
    }
}

// A case of a switch, as `7:$P.K`.
#[derive(Clone, Copy)]
struct SwitchCaseText(SwitchEntry);

impl fmt::Display for SwitchCaseText {
    ghost output = { λ text. Some (switch_case_text text.0) };

    fn fmt<W: fmt::Write>(&self, f: &mut fmt::Formatter<W>) -> fmt::Result {
        let SwitchEntry { key, block } = self.0;
        write!(f, "{key}:{}", AnswerText(block))
    }
}

// Cases, each behind a space.
#[derive(Clone, Copy)]
struct SwitchCasesText<'a>(&'a [SwitchEntry]);

impl fmt::Display for SwitchCasesText<'_> {
    ghost output = { λ text. Some (switch_cases_text text.0.now) };

    fn fmt<W: fmt::Write>(&self, f: &mut fmt::Formatter<W>) -> fmt::Result {
        for one in self.0 {
            let case = SwitchCaseText(*one);
            write!(f, " {case}")?;
        }
        Ok(())
    }
}

// An offset behind a space, and nothing where it is 0.
#[derive(Clone, Copy)]
struct OffsetText(i32);

impl fmt::Display for OffsetText {
    ghost output = { λ text. Some (offset_text text.0) };

    fn fmt<W: fmt::Write>(&self, f: &mut fmt::Formatter<W>) -> fmt::Result {
        let offset = self.0;
        if offset == 0 {
            return Ok(());
        }
        write!(f, " {offset}")
    }
}

// An instruction of this plan: its name, and what it takes.
#[derive(Clone, Copy)]
struct PlanText<'p, 'a>(&'p Plan<'a>);

impl fmt::Display for PlanText<'_, '_> {
    ghost output = { λ text. Some (plan_text text.0.now) };

    fn fmt<W: fmt::Write>(&self, f: &mut fmt::Formatter<W>) -> fmt::Result {
        match self.0 {
            Plan::UnaryImm { ty, imm } => write!(f, "iconst.{ty} {imm}"),
            Plan::UnaryIeee { opcode, bits } => write!(f, "{} {bits}", opcode.name()),
            Plan::Unary { opcode, arg } => write!(f, "{} {}", opcode.name(), AnswerText(*arg)),
            Plan::Binary { opcode, args } => write!(f, "{}{}", opcode.name(), AnswersText(args)),
            Plan::Convert { opcode, ty, arg } => {
                write!(f, "{}.{ty} {}", opcode.name(), AnswerText(*arg))
            }
            Plan::Concat { args } => write!(f, "iconcat{}", AnswersText(args)),
            Plan::Split { arg } => write!(f, "isplit {}", AnswerText(*arg)),
            Plan::IntCompare { cond, args } => write!(f, "icmp {cond}{}", AnswersText(args)),
            Plan::Ternary { args } => write!(f, "select{}", AnswersText(args)),
            Plan::Load {
                flags,
                ty,
                arg,
                offset,
            } => {
                let (p, offset) = (AnswerText(*arg), OffsetText(*offset));
                write!(f, "load.{ty}{flags} {p}{offset}")
            }
            Plan::Store {
                flags,
                args,
                offset,
            } => {
                let (args, offset) = (AnswersText(args), OffsetText(*offset));
                write!(f, "store{flags}{args}{offset}")
            }
            Plan::StackLoad {
                opcode,
                ty,
                slot,
                offset,
            } => {
                let (name, slot) = (opcode.name(), AnswerText(*slot));
                write!(f, "{name}.{ty} {slot}{}", OffsetText(*offset))
            }
            Plan::StackStore { arg, slot, offset } => {
                let (x, slot) = (AnswerText(*arg), AnswerText(*slot));
                write!(f, "stack_store {x} {slot}{}", OffsetText(*offset))
            }
            Plan::Trap { code } => write!(f, "trap {code}"),
            Plan::CondTrap { opcode, arg, code } => {
                write!(f, "{} {} {code}", opcode.name(), AnswerText(*arg))
            }
            Plan::Jump { destination } => write!(f, "jump {}", EdgeText(destination)),
            Plan::Brif {
                condition,
                block_then,
                block_else,
            } => {
                let condition = AnswerText(*condition);
                let (first, second) = (EdgeText(block_then), EdgeText(block_else));
                write!(f, "brif {condition} {first} {second}")
            }
            Plan::MultiAry { args } => write!(f, "return{}", AnswersText(args)),
        }
    }
}

// The name of a function or of a symbol.
#[derive(Clone, Copy)]
struct ImportedName<'a>(&'a ExternalName);

impl fmt::Display for ImportedName<'_> {
    ghost output = { λ text. Some (imported_name_text text.0.now) };

    fn fmt<W: fmt::Write>(&self, f: &mut fmt::Formatter<W>) -> fmt::Result {
        match self.0 {
            ExternalName::LibCall(call) => write!(f, "libcall {call}"),
            ExternalName::User(name) => write!(f, "{name}"),
            ExternalName::TestCase(name) => write!(f, "{name}"),
        }
    }
}

// What a global value is.
#[derive(Clone, Copy)]
struct GlobalText<'a>(&'a GlobalValueData);

impl fmt::Display for GlobalText<'_> {
    ghost output = { λ text. Some (global_text text.0.now) };

    fn fmt<W: fmt::Write>(&self, f: &mut fmt::Formatter<W>) -> fmt::Result {
        match self.0 {
            GlobalValueData::VMContext => f.write_str("vmctx"),
            GlobalValueData::Symbol(name) => write!(f, "symbol {}", ImportedName(name)),
        }
    }
}

// A function that is imported.
#[derive(Clone, Copy)]
struct Imported<'a>(&'a ImportedFunction);

impl fmt::Display for Imported<'_> {
    ghost output = { λ text. Some (imported_text text.0.now) };

    fn fmt<W: fmt::Write>(&self, f: &mut fmt::Formatter<W>) -> fmt::Result {
        let function = self.0;
        if function.colocated {
            f.write_str("colocated ")?;
        }
        if function.patchable {
            f.write_str("patchable ")?;
        }
        let (name, signature) = (ImportedName(&function.name), AnswerText(function.signature));
        write!(f, "{name} {signature}")
    }
}

// A call that makes an entry of a table.
#[derive(Clone, Copy)]
struct EntryText<'a>(&'a EntryCall);

impl fmt::Display for EntryText<'_> {
    ghost output = { λ text. Some (entry_text text.0.now) };

    fn fmt<W: fmt::Write>(&self, f: &mut fmt::Formatter<W>) -> fmt::Result {
        match self.0 {
            EntryCall::CreateSizedStackSlot { size, align_shift } => {
                write!(f, "create_sized_stack_slot {size} {align_shift}")
            }
            EntryCall::CreateDynamicStackSlot(slot) => {
                let dyn_ty = slot.dyn_ty;
                write!(f, "create_dynamic_stack_slot {dyn_ty}")
            }
            EntryCall::CreateGlobalValue(value) => {
                write!(f, "create_global_value {}", GlobalText(value))
            }
            EntryCall::ImportSignature(signature) => write!(f, "import_signature {signature}"),
            EntryCall::ImportFunction(function) => {
                write!(f, "import_function {}", Imported(function))
            }
        }
    }
}

// What is passed, in parentheses.
#[derive(Clone, Copy)]
struct ArgumentsText<'a>(&'a [Name]);

impl fmt::Display for ArgumentsText<'_> {
    ghost output = { λ text. Some (arguments_text text.0.now) };

    fn fmt<W: fmt::Write>(&self, f: &mut fmt::Formatter<W>) -> fmt::Result {
        write!(f, "({})", AnswersText(self.0))
    }
}

// An outside call.
#[derive(Clone, Copy)]
struct OutsideText<'a>(&'a OutsideCall);

impl fmt::Display for OutsideText<'_> {
    ghost output = { λ text. Some (outside_text text.0.now) };

    fn fmt<W: fmt::Write>(&self, f: &mut fmt::Formatter<W>) -> fmt::Result {
        match self.0 {
            OutsideCall::Call { function, args } => {
                let (function, arguments) = (AnswerText(*function), ArgumentsText(args.as_slice()));
                write!(f, "call {function}{arguments}")
            }
            OutsideCall::CallIndirect {
                signature,
                callee,
                args,
            } => {
                let (signature, callee) = (AnswerText(*signature), AnswerText(*callee));
                write!(
                    f,
                    "call_indirect {signature} {callee}{}",
                    ArgumentsText(args.as_slice())
                )
            }
        }
    }
}

// An instruction with a constant as an operand.
#[derive(Clone, Copy)]
struct ImmediateText(ImmediateCall);

impl fmt::Display for ImmediateText {
    ghost output = { λ text. Some (immediate_text text.0) };

    fn fmt<W: fmt::Write>(&self, f: &mut fmt::Formatter<W>) -> fmt::Result {
        match self.0 {
            ImmediateCall::IaddImmS { x, imm } => write!(f, "iadd_imm_s {} {imm}", AnswerText(x)),
            ImmediateCall::IcmpImmS { cond, x, imm } => {
                let x = AnswerText(x);
                write!(f, "icmp_imm_s {cond} {x} {imm}")
            }
        }
    }
}

// A memory helper.
#[derive(Clone, Copy)]
struct MemoryText(MemoryCall);

impl fmt::Display for MemoryText {
    ghost output = { λ text. Some (memory_text text.0) };

    fn fmt<W: fmt::Write>(&self, f: &mut fmt::Formatter<W>) -> fmt::Result {
        match self.0 {
            MemoryCall::CallLibrary {
                callee,
                first,
                second,
                size,
            } => {
                let operands = [first, second, size];
                write!(f, "{}{}", library_call_name(callee), AnswersText(&operands))
            }
            MemoryCall::Copy {
                dest,
                src,
                size,
                dest_align,
                src_align,
                non_overlapping,
                flags,
            } => {
                let operands = [dest, src];
                write!(f, "emit_small_memory_copy{}", AnswersText(&operands))?;
                let overlap = overlap_word(non_overlapping);
                write!(f, " {size} {dest_align} {src_align} {overlap}{flags}")
            }
            MemoryCall::Fill {
                buffer,
                ch,
                size,
                buffer_align,
                flags,
            } => {
                let buffer = AnswerText(buffer);
                write!(
                    f,
                    "emit_small_memset {buffer} {ch} {size} {buffer_align}{flags}"
                )
            }
            MemoryCall::Compare {
                int_cc,
                left,
                right,
                size,
                left_align,
                right_align,
                flags,
            } => {
                let operands = [left, right];
                write!(
                    f,
                    "emit_small_memory_compare {int_cc}{}",
                    AnswersText(&operands)
                )?;
                let (left_align, right_align) = (left_align.get(), right_align.get());
                write!(f, " {size} {left_align} {right_align}{flags}")
            }
        }
    }
}

// Whether it is said of bytes that they don't overlap.
fn overlap_word(non_overlapping: bool) -> &'static str
    ensures { result.now ≡ overlap_word non_overlapping }
{
    if non_overlapping {
        "nonoverlap"
    } else {
        "overlap"
    }
}

// A call along the edges of an exception table.
#[derive(Clone, Copy)]
struct ThrowingText<'a>(&'a ThrowingCall);

impl fmt::Display for ThrowingText<'_> {
    ghost output = { λ text. Some (throwing_text text.0.now) };

    fn fmt<W: fmt::Write>(&self, f: &mut fmt::Formatter<W>) -> fmt::Result {
        match self.0 {
            ThrowingCall::TryCall {
                function,
                args,
                table,
            } => {
                let (function, table) = (AnswerText(*function), AnswerText(*table));
                write!(
                    f,
                    "try_call {function}{} {table}",
                    ArgumentsText(args.as_slice())
                )
            }
            ThrowingCall::TryCallIndirect {
                callee,
                args,
                table,
            } => {
                let (callee, table) = (AnswerText(*callee), AnswerText(*table));
                write!(
                    f,
                    "try_call_indirect {callee}{} {table}",
                    ArgumentsText(args.as_slice())
                )
            }
        }
    }
}

// An instruction that ends no block, with its name.
#[derive(Clone, Copy)]
struct StraightText<'a>(&'a StraightInstruction);

impl fmt::Display for StraightText<'_> {
    ghost output = { λ text. Some (straight_text text.0.now) };

    fn fmt<W: fmt::Write>(&self, f: &mut fmt::Formatter<W>) -> fmt::Result {
        match self.0 {
            StraightInstruction::Plain(plain) => write!(f, "{}", PlanText(&plain.plan())),
            StraightInstruction::Outside(called) => write!(f, "{}", OutsideText(called)),
            StraightInstruction::F128const { bytes } => {
                write!(f, "f128const {}", HexBytes(bytes.as_slice()))
            }
            StraightInstruction::Vconst { ty, bytes } => {
                write!(f, "vconst.{ty} {}", HexBytes(bytes.as_slice()))
            }
        }
    }
}

// The word before an instruction, by the builder's method that lends it.
fn lender_word(lender: Lender) -> &'static str
    ensures { result.now ≡ lender_text lender }
{
    match lender {
        Lender::Ins => "",
        Lender::Cursor => "cursor ",
    }
}

// What is written behind the name of a call, or, of an instruction, an entry, a memory helper or an instruction with a constant, with
// its name.
#[derive(Clone, Copy)]
enum Operands<'a> {
    None,
    Answer(Name),
    Answers(Name, Name),
    Change(Name, Name, Name),
    Param(Name, Type),
    Type(Type),
    Entry(&'a EntryCall),
    Definition(Variable, Name),
    Variable(Variable),
    Edge(&'a TableEdge),
    Table(Name, &'a [Name]),
    Exceptions(Name, Name, &'a [TableItem]),
    Branch(Name, Name),
    Straight(&'a StraightInstruction),
    Immediate(ImmediateCall),
    Memory(MemoryCall),
    Switch(Name, Name, &'a [SwitchEntry]),
    Throwing(&'a ThrowingCall),
    Number(u32),
    Label(Name, u32),
    Instruction(Plan<'a>),
}

impl fmt::Display for Operands<'_> {
    ghost output = { λ operands. Some (operands_text operands) };

    fn fmt<W: fmt::Write>(&self, f: &mut fmt::Formatter<W>) -> fmt::Result {
        match self {
            Operands::None => Ok(()),
            Operands::Answer(x) => write!(f, " {}", AnswerText(*x)),
            Operands::Answers(x, y) => write!(f, " {} {}", AnswerText(*x), AnswerText(*y)),
            Operands::Change(branch, from, to) => {
                let (branch, from, to) = (AnswerText(*branch), AnswerText(*from), AnswerText(*to));
                write!(f, " {branch} {from} {to}")
            }
            Operands::Param(block, ty) => write!(f, " {} {ty}", AnswerText(*block)),
            Operands::Type(ty) => write!(f, " {ty}"),
            Operands::Entry(entry) => write!(f, "{}", EntryText(entry)),
            Operands::Definition(variable, x) => write!(f, " {variable} {}", AnswerText(*x)),
            Operands::Variable(variable) => write!(f, " {variable}"),
            Operands::Edge(edge) => write!(f, " {}", TableEdgeText(edge)),
            Operands::Table(default, entries) => {
                write!(f, " {}{}", AnswerText(*default), AnswersText(entries))
            }
            Operands::Exceptions(signature, normal, items) => {
                let (signature, normal) = (AnswerText(*signature), AnswerText(*normal));
                write!(f, " {signature} {normal}{}", ItemsText(items))
            }
            Operands::Branch(index, table) => {
                write!(f, " {} {}", AnswerText(*index), AnswerText(*table))
            }
            Operands::Straight(instruction) => write!(f, "{}", StraightText(instruction)),
            Operands::Immediate(called) => write!(f, "{}", ImmediateText(*called)),
            Operands::Memory(called) => write!(f, "{}", MemoryText(*called)),
            Operands::Switch(value, otherwise, entries) => {
                let (value, otherwise) = (AnswerText(*value), AnswerText(*otherwise));
                write!(f, " {value} {otherwise}{}", SwitchCasesText(entries))
            }
            Operands::Throwing(called) => write!(f, "{}", ThrowingText(called)),
            Operands::Number(number) => write!(f, " {number}"),
            Operands::Label(x, label) => write!(f, " {} {label}", AnswerText(*x)),
            Operands::Instruction(plan) => write!(f, "{}", PlanText(plan)),
        }
    }
}

// The names of the calls that add the parameters, and the returned values, of the function.
const PARAMS: &str = "append_block_params_for_function_params";

const RETURNS: &str = "append_block_params_for_function_returns";

// The names of the calls that ask for stack maps: of a variable, and of a value.
const MARK: &str = "declare_var_needs_stack_map";

const RECORD: &str = "declare_value_needs_stack_map";

// The name of a call and what is written behind it; an instruction brings its name.
fn parts(call: &Call) -> (&'static str, Operands<'_>)
    ensures { result.0.now ++ operands_text result.1 ≡ call_text call.now }
{
    match call {
        Call::CreateBlock => ("create_block", Operands::None),
        Call::SwitchToBlock { block } => ("switch_to_block", Operands::Answer(*block)),
        Call::SealBlock { block } => ("seal_block", Operands::Answer(*block)),
        Call::SealAllBlocks => ("seal_all_blocks", Operands::None),
        Call::InsertBlockAfter { block, after } => (
            "insert_block_after",
            Operands::Answers(*block, *after),
        ),
        Call::SetColdBlock { block } => ("set_cold_block", Operands::Answer(*block)),
        Call::EnsureInsertedBlock => ("ensure_inserted_block", Operands::None),
        Call::AppendBlockParam { block, ty } => (
            "append_block_param",
            Operands::Param(*block, *ty),
        ),
        Call::AppendBlockParamsForFunctionParams { block } => (PARAMS, Operands::Answer(*block)),
        Call::AppendBlockParamsForFunctionReturns { block } => (RETURNS, Operands::Answer(*block)),
        Call::Entry(entry) => ("", Operands::Entry(entry)),
        Call::BlockCall { edge } => ("block_call", Operands::Edge(edge)),
        Call::CreateJumpTable { default, entries } => (
            "create_jump_table",
            Operands::Table(*default, entries.as_slice()),
        ),
        Call::CreateExceptionTable {
            signature,
            normal,
            items,
        } => {
            let items = items.as_slice();
            let operands = Operands::Exceptions(*signature, *normal, items);
            ("create_exception_table", operands)
        }
        Call::DeclareVar { ty } => ("declare_var", Operands::Type(*ty)),
        Call::DeclareVarNeedsStackMap { variable } => (MARK, Operands::Variable(*variable)),
        Call::DeclareValueNeedsStackMap { value } => (RECORD, Operands::Answer(*value)),
        Call::DefVar { variable, value } => ("def_var", Operands::Definition(*variable, *value)),
        Call::UseVar { variable } => ("use_var", Operands::Variable(*variable)),
        Call::TryDefVar { variable, value } => (
            "try_def_var",
            Operands::Definition(*variable, *value),
        ),
        Call::TryUseVar { variable } => ("try_use_var", Operands::Variable(*variable)),
        Call::Straight(lender, instruction) => {
            (lender_word(*lender), Operands::Straight(instruction))
        }
        Call::Immediate(called) => ("", Operands::Immediate(*called)),
        Call::Memory(called) => ("", Operands::Memory(*called)),
        Call::SetSrcloc { srcloc } => ("set_srcloc", Operands::Number(srcloc.bits())),
        Call::CollectDebugInfo => ("collect_debug_info", Operands::None),
        Call::SetValLabel { value, label } => (
            "set_val_label",
            Operands::Label(*value, label.as_u32()),
        ),
        Call::ChangeJumpDestination { branch, from, to } => (
            "change_jump_destination",
            Operands::Change(*branch, *from, *to),
        ),
        Call::Jump { destination } => ("", Operands::Instruction(Plan::Jump { destination })),
        Call::Brif {
            condition,
            block_then,
            block_else,
        } => {
            let condition = *condition;
            let plan = Plan::Brif {
                condition,
                block_then,
                block_else,
            };
            ("", Operands::Instruction(plan))
        }
        Call::BrTable { index, table } => ("br_table", Operands::Branch(*index, *table)),
        Call::Switch {
            entries,
            value,
            otherwise,
        } => (
            "switch",
            Operands::Switch(*value, *otherwise, entries.as_slice()),
        ),
        Call::Throwing(called) => ("", Operands::Throwing(called)),
        Call::Return { values } => {
            let args = values.as_slice();
            ("", Operands::Instruction(Plan::MultiAry { args }))
        }
        Call::Trap { code } => ("", Operands::Instruction(Plan::Trap { code: *code })),
    }
}

/// A call as a line of a script, without the line's end. It is printed with `$P.K` for each answer and `varN` for each variable, so
/// it needs no names. The region of a load or a store is written as it is printed, though no script can name it.
#[derive(Clone, Copy)]
pub struct CallText<'a>(pub &'a Call);

impl fmt::Display for CallText<'_> {
    ghost output = { λ text. Some (call_text text.0.now) };

    fn fmt<W: fmt::Write>(&self, f: &mut fmt::Formatter<W>) -> fmt::Result {
        let (name, operands) = parts(self.0);
        write!(f, "{name}{operands}")
    }
}

/// A script of these calls, for a function with this name and signature on this target. It has no line `answer`.
///
/// The name is written as it is. So a name that is a text is read back only if it isn't empty and has no blank (a
/// space, a comma, a tab, a carriage return or a form feed), no `(`, `)`, `=` or `#`, and no end of a line.
///
/// # Errors
///
/// `AllocError`, where memory is refused.
pub fn write(
    alloc: Global,
    name: &UserFuncName,
    signature: &Signature,
    config: TargetFrontendConfig,
    calls: &[Call],
) -> Result<String, AllocError>
    ensures { IfOk result (λ text. string_bytes text ≡ header_text name.now signature.now config ++ calls_text calls.now) }
{
    let conv = config.default_call_conv;
    let width = match config.pointer_width {
        PointerWidth::U16 => "16",
        PointerWidth::U32 => "32",
        PointerWidth::U64 => "64",
    };
    let mut text = format!(in alloc;
        "function {name} {signature}\npointer {width}\nconv {conv}\n"
    )?;
    for call in calls {
        let line = CallText(call);
        writeln!(text, "{line}")?;
    }
    Ok(text)
}
