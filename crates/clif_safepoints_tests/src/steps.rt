//! Functions that are made by tables of steps, and what the analysis finds in them.
#![tactic(auto)]

ghost use Rattle.std.specs.Prelude.{◌≡◌, ◌<◌, ℕ, length, IsTrue, EachIndex, All, slice_index};
ghost use Rattle.clif_instructions.specs.Members.{IsPlaceOf};
ghost use Rattle.clif_ir.specs.Body.{value_at};
ghost use Rattle.clif_ir.specs.Changes.{home_of};
ghost use Rattle.clif_ir.specs.Consistent.{EdgeExists, PassedExists};

use clif_instructions::insert_at::InsertAt;
use clif_ir::{
    BlockArg, BlockCall, ExceptionTableData, ExceptionTableItem, ExceptionTargets, Function,
    InstructionData, ValueList, ValueOrigin,
};
use clif_safepoints::contexts::tracked_context;
use clif_safepoints::liveness::LivenessAnalysis;
use clif_types::types::I32;
use clif_types::{
    AbiParam, Block, CallConv, EntityRef, EntitySet, ExtFuncData, ExternalName, FuncRef, Inst,
    SigRef, Signature, SourceLoc, Type, UserFuncName, Value,
};
use std::alloc::{AllocError, Global};
use std::process::Abort;
use std::test::Fail;

/// A step in the making of a function, where all is told by numbers. Every value is an `i32`.
#[derive(Clone, Copy)]
pub enum Step<'a> {
    /// Makes a block and puts it at the end of the layout.
    Block,
    /// Makes a block outside the layout.
    Aside,
    /// Imports a function of this signature: how many values it takes and returns.
    Import(usize, usize),
    /// Puts a parameter at the end of those of a block.
    Param(u32),
    /// Puts an instruction at the end of a block.
    Put(u32, Plain<'a>),
    /// Makes a parameter another name of a value.
    Alias(u32, u32),
}

/// An instruction, where values are told by their numbers.
#[derive(Clone, Copy)]
pub enum Plain<'a> {
    Iconst,
    /// A call of a function.
    Call(u32, &'a [u32]),
    /// A call of a function that may throw: the edge where it returns, the one of all exceptions, and a context.
    TryCall(u32, &'a [u32], To<'a>, To<'a>, Option<u32>),
    Jump(To<'a>),
    Brif(u32, To<'a>, To<'a>),
    Return(&'a [u32]),
}

/// An edge: its target, and what it passes.
#[derive(Clone, Copy)]
pub struct To<'a>(pub u32, pub &'a [u32]);

/// The value of a number.
pub fn v(rt: &impl Abort, number: u32) -> Value {
    assert!(rt; number < 1000);
    Value::from_u32(number)
}

/// The block of a number.
pub fn b(rt: &impl Abort, number: u32) -> Block {
    assert!(rt; number < 1000);
    Block::from_u32(number)
}

/// A block of a function, by its number.
pub fn block_of(rt: &impl Abort, func: &Function, number: u32) -> Block
    ensures { result < length func.now.blocks }
{
    let block = b(rt, number);
    assert!(rt; block.index() < func.block_count());
    block
}

fn value_of(rt: &impl Abort, func: &Function, number: u32) -> Value
    ensures { result < length func.now.values }
{
    let value = v(rt, number);
    assert!(rt; value.index() < func.value_count());
    value
}

/// The values of these numbers.
pub fn values(rt: &impl Abort, alloc: Global, numbers: &[u32]) -> Result<ValueList, Fail> {
    let mut list = ValueList::new(alloc);
    for number in numbers {
        list.push(v(rt, *number))?;
    }
    Ok(list)
}

fn edge(rt: &impl Abort, alloc: Global, to: To<'_>) -> Result<BlockCall, Fail> {
    let mut call = BlockCall::new(alloc, b(rt, to.0), &[])?;
    for number in to.1 {
        call.args.push(BlockArg::Value(v(rt, *number)))?;
    }
    Ok(call)
}

/// The imported function of a number.
pub fn function_of(rt: &impl Abort, number: u32) -> FuncRef {
    assert!(rt; number < 1000);
    FuncRef::from_u32(number)
}

fn throws(
    rt: &impl Abort,
    alloc: Global,
    normal: To<'_>,
    other: To<'_>,
    context: Option<u32>,
) -> Result<ExceptionTargets, Fail> {
    let mut items = Vec::new(alloc);
    if let Some(number) = context {
        items.push(ExceptionTableItem::Context(v(rt, number)))?;
    }
    items.push(ExceptionTableItem::Default(edge(rt, alloc, other)?))?;
    let table = ExceptionTableData {
        sig: SigRef::from_u32(0),
        normal: edge(rt, alloc, normal)?,
        items,
    };
    Ok(ExceptionTargets::new(alloc, table)?)
}

fn shape_of(rt: &impl Abort, alloc: Global, plain: Plain<'_>) -> Result<InstructionData, Fail> {
    Ok(match plain {
        Plain::Iconst => InstructionData::UnaryImm { imm: 1 },
        Plain::Call(function, args) => InstructionData::Call {
            func_ref: function_of(rt, function),
            args: values(rt, alloc, args)?,
        },
        Plain::TryCall(function, args, normal, other, context) => InstructionData::TryCall {
            func_ref: function_of(rt, function),
            args: values(rt, alloc, args)?,
            exception: throws(rt, alloc, normal, other, context)?,
        },
        Plain::Jump(to) => InstructionData::Jump {
            destination: edge(rt, alloc, to)?,
        },
        Plain::Brif(condition, then, other) => InstructionData::Brif {
            arg: v(rt, condition),
            blocks: [edge(rt, alloc, then)?, edge(rt, alloc, other)?],
        },
        Plain::Return(args) => InstructionData::MultiAry {
            args: values(rt, alloc, args)?,
        },
    })
}

// Whether these values exist.
fn has_operands(func: &Function, args: &[Value]) -> bool
    ensures { IsTrue result → EachIndex args.now (λ k. slice_index args.now k < length func.now.values) }
{
    let count = func.value_count();
    args.iter().all(|value| value.index() < count)
}

// Whether what an edge passes exists.
fn has_argument(func: &Function, arg: BlockArg) -> bool
    ensures { IsTrue result → PassedExists func.now arg }
{
    match arg {
        BlockArg::Value(value) => value.index() < func.value_count(),
        BlockArg::TryCallRet(_) | BlockArg::TryCallExn(_) => true,
    }
}

// Whether the target of an edge exists, and what it passes.
fn has_edge(func: &Function, edge: &BlockCall) -> bool
    ensures { IsTrue result → EdgeExists func.now edge.now }
{
    let args = edge.args.as_slice();
    edge.block.index() < func.block_count() && args.iter().all(|arg| has_argument(func, *arg))
}

// Whether the targets of these edges exist, and what they pass.
fn has_edges(func: &Function, edges: &[BlockCall]) -> bool
    ensures { IsTrue result → All (EdgeExists func.now) edges.now }
{
    edges.iter().all(|edge| has_edge(func, edge))
}

fn put(rt: &impl Abort, func: &mut Function, block: u32, plain: Plain<'_>) -> Result<(), Fail> {
    let shape = shape_of(rt, func.allocator(), plain)?;
    put_shape(rt, func, b(rt, block), shape, InsertAt::Back)
}

/// Puts an instruction into a block. Its results are `i32`s.
pub fn put_shape(
    rt: &impl Abort,
    func: &mut Function,
    block: Block,
    shape: InstructionData,
    at: InsertAt,
) -> Result<(), Fail>
    requires { (count : ℕ) → IsPlaceOf at count }
{
    put_typed(rt, func, block, shape, at, I32)
}

/// Puts an instruction of this controlling type into a block.
pub fn put_typed(
    rt: &impl Abort,
    func: &mut Function,
    block: Block,
    shape: InstructionData,
    at: InsertAt,
    ty: Type,
) -> Result<(), Fail>
    requires { (count : ℕ) → IsPlaceOf at count }
{
    assert!(rt; block.index() < func.block_count());
    assert!(rt; has_operands(func, shape.arguments()));
    assert!(rt; has_edges(func, shape.branch_destination()));
    assert!(rt; func.has_contexts(&shape));
    assert!(rt; func.has_entries(&shape));
    func.insert_inst(block, at, shape, ty, SourceLoc::new(0))?;
    Ok(())
}

// Whether a value is a parameter of a block.
fn is_param(func: &Function, value: Value) -> bool
    requires { value < length func.now.values }
    ensures { IsTrue result → (value_at func.now value).origin ≡ ValueOrigin.Param (home_of (value_at func.now value).origin) }
{
    func.param_home(value).is_some()
}

/// Makes a parameter another name of a value.
pub fn alias(rt: &impl Abort, func: &mut Function, param: u32, original: u32) -> Result<(), Fail> {
    let param = value_of(rt, func, param);
    let original = value_of(rt, func, original);
    assert!(rt; is_param(func, param));
    assert!(rt; func.resolve_aliases(original) != param);
    func.change_param_to_alias(param, original)?;
    Ok(())
}

fn push_types(list: &mut Vec<AbiParam>, count: usize) -> Result<(), AllocError> {
    for _number in 0..count {
        list.push(AbiParam::new(I32))?;
    }
    Ok(())
}

/// Imports a function that takes and returns so many values.
pub fn import(
    rt: &impl Abort,
    func: &mut Function,
    params: usize,
    returns: usize,
) -> Result<(), Fail> {
    let mut signature = Signature::new(func.allocator(), CallConv::SystemV);
    push_types(&mut signature.params, params)?;
    push_types(&mut signature.returns, returns)?;
    let signature = func.import_signature(signature)?;
    assert!(rt; signature.index() < func.tables().signature_count());
    func.import_function(ExtFuncData {
        name: ExternalName::testcase(String::from_str(func.allocator(), "g")?),
        signature,
        colocated: false,
        patchable: false,
    })?;
    Ok(())
}

/// Makes a block and puts it at the end of the layout.
pub fn make_block(func: &mut Function) -> Result<(), Fail> {
    let block = func.create_block()?;
    func.ensure_block_inserted(block)?;
    Ok(())
}

fn make_aside(func: &mut Function) -> Result<(), Fail> {
    func.create_block()?;
    Ok(())
}

fn make_param(rt: &impl Abort, func: &mut Function, block: u32) -> Result<(), Fail> {
    let block = block_of(rt, func, block);
    func.append_block_param(block, I32)?;
    Ok(())
}

fn make(rt: &impl Abort, func: &mut Function, step: Step<'_>) -> Result<(), Fail> {
    match step {
        Step::Block => make_block(func),
        Step::Aside => make_aside(func),
        Step::Import(params, returns) => import(rt, func, params, returns),
        Step::Param(block) => make_param(rt, func, block),
        Step::Put(block, plain) => put(rt, func, block, plain),
        Step::Alias(param, original) => alias(rt, func, param, original),
    }
}

/// The function that these steps make.
pub fn function(rt: &impl Abort, alloc: Global, steps: &[Step<'_>]) -> Result<Function, Fail> {
    let name = UserFuncName::testcase(String::from_str(alloc, "t")?);
    let signature = Signature::new(alloc, CallConv::SystemV);
    let mut func = Function::with_name_signature(alloc, name, signature);
    for step in steps {
        make(rt, &mut func, *step)?;
    }
    Ok(func)
}

/// The set of the values with these numbers.
pub fn set_of(rt: &impl Abort, alloc: Global, numbers: &[u32]) -> Result<EntitySet<Value>, Fail> {
    let mut set = EntitySet::new(alloc);
    for number in numbers {
        set.insert(v(rt, *number))?;
    }
    Ok(set)
}

// Asserts what is found for an instruction.
fn tells(rt: &impl Abort, case: &str, analysis: &LivenessAnalysis, number: u32, expected: &[u32]) {
    assert!(rt; number < 1000);
    are_values(
        rt,
        case,
        analysis.live_across(Inst::from_u32(number)),
        expected,
    );
}

/// A function, and what the analysis finds in it.
pub struct Case {
    pub name: &'static str,
    pub steps: &'static [Step<'static>],
    pub recorded: &'static [u32],
    /// Instructions, and what is live across each.
    pub expected: &'static [(u32, &'static [u32])],
    /// Between which numbers that of the handled blocks lies.
    pub handled: (u128, u128),
}

// Asserts what the analysis finds in a case.
fn finds(rt: &impl Abort, alloc: Global, case: &Case) -> Result<(), Fail> {
    let func = function(rt, alloc, case.steps)?;
    let recorded = set_of(rt, alloc, case.recorded)?;
    let mut analysis = LivenessAnalysis::new(alloc);
    analysis.run(&func, &recorded)?;
    for (number, values) in case.expected {
        tells(rt, case.name, &analysis, *number, values);
    }
    let (least, most) = case.handled;
    assert!(rt; least <= analysis.handled(), "{}", case.name);
    assert!(rt; analysis.handled() <= most, "{}", case.name);
    Ok(())
}

/// Asserts what the analysis finds in each case.
pub fn finds_each(rt: &impl Abort, alloc: Global, cases: &[Case]) -> Result<(), Fail> {
    for case in cases {
        finds(rt, alloc, case)?;
    }
    Ok(())
}

// Asserts that these values were found.
fn are_values(rt: &impl Abort, case: &str, found: &[Value], expected: &[u32]) {
    assert_eq!(rt; found.len(), expected.len(), "{case}");
    for (value, number) in found.iter().zip(expected) {
        assert_eq!(rt; value.as_u32(), *number, "{case}");
    }
}

// Asserts that these blocks were found.
fn are_blocks(rt: &impl Abort, case: &str, found: &[Block], expected: &[u32]) {
    assert_eq!(rt; found.len(), expected.len(), "{case}");
    for (block, number) in found.iter().zip(expected) {
        assert_eq!(rt; block.as_u32(), *number, "{case}");
    }
}

/// A block, what is live before its parameters are given, and what is live after that.
pub struct Front(pub u32, pub &'static [u32], pub &'static [u32]);

/// A function, the order in which its blocks are left, and what is live at their fronts.
pub struct FrontCase {
    pub name: &'static str,
    pub steps: &'static [Step<'static>],
    pub recorded: &'static [u32],
    pub order: &'static [u32],
    pub fronts: &'static [Front],
}

/// Asserts what the analysis finds of the order and the fronts in each case.
pub fn finds_fronts(rt: &impl Abort, alloc: Global, cases: &[FrontCase]) -> Result<(), Fail> {
    for case in cases {
        let func = function(rt, alloc, case.steps)?;
        let recorded = set_of(rt, alloc, case.recorded)?;
        let mut analysis = LivenessAnalysis::new(alloc);
        analysis.run(&func, &recorded)?;
        are_blocks(rt, case.name, analysis.order(), case.order);
        are_fronts(rt, case, &analysis);
    }
    Ok(())
}

// Asserts what is found at the fronts of a case's blocks.
fn are_fronts(rt: &impl Abort, case: &FrontCase, analysis: &LivenessAnalysis) {
    for Front(block, before, after) in case.fronts {
        let block = b(rt, *block);
        are_values(rt, case.name, analysis.live_in(block), before);
        are_values(rt, case.name, analysis.live_after_params(block), after);
    }
}

/// Asserts which try call is told for its recorded context in the function that the steps make.
pub fn tells_context(
    rt: &impl Abort,
    alloc: Global,
    steps: &[Step<'_>],
    recorded: &[u32],
    expected: Option<u32>,
) -> Result<(), Fail> {
    let func = function(rt, alloc, steps)?;
    let recorded = set_of(rt, alloc, recorded)?;
    let told = tracked_context(&func, &recorded)?.map(|inst| inst.as_u32());
    assert!(rt; told == expected);
    Ok(())
}
