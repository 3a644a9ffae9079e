//! Functions that are made by tables of steps, where the conditions of each call are asserted.
#![tactic(auto)]

use crate::facts::{Fact, holds};
use crate::instructions::{Plain, shape_of};
use crate::support::{
    PLACE, b, below_1000, block_of, has_edge, has_item, has_slots, inst_of, is_param, is_place_of,
    map_of, names_what_exists, prints, signature_of, value_of,
};
use crate::transfers::{To, Transfer, edge_of, transfer_of};
use clif_instructions::insert_at::InsertAt;
use clif_instructions::instructions::InstructionData;
use clif_ir::ValueLabelStart;
use clif_ir::function::Function;
use clif_types::{
    AliasRegion, AliasRegionData, CallConv, EntityRef, ExtFuncData, ExternalName, SourceLoc,
    StackSlotData, Type, UserFuncName, ValueLabel,
};
use std::alloc::Global;
use std::process::Abort;
use std::test::Fail;

/// A function that is made by steps.
pub struct Case {
    /// What is said if a fact doesn't hold, or another text is printed.
    pub name: &'static str,
    /// The function without blocks.
    pub head: Head,
    /// How it is made.
    pub steps: &'static [Step<'static>],
}

/// The name and the signature of a function.
#[derive(Clone, Copy)]
pub enum Head {
    /// Those that a function has where none are given.
    Unnamed,
    /// This name, these parameters and returned values, and this convention.
    Named(&'static str, &'static [Type], &'static [Type], CallConv),
}

/// The name `%sample`, with no parameters and no returned values.
pub const SAMPLE: Head = Head::Named("sample", &[], &[], CallConv::SystemV);

/// A step in the making of a function, where all is named by numbers.
#[derive(Clone, Copy)]
pub enum Step<'a> {
    /// Makes a block.
    Create,
    /// Puts a block at the end of the layout.
    LayOut(u32),
    /// Makes a block and puts it at the end of the layout.
    LaidOut,
    /// Puts a block behind a block of the layout.
    LayOutAfter(u32, u32),
    /// Puts a block at the end of the layout, unless it is in the layout.
    Ensure(u32),
    /// Marks a block as cold.
    Cold(u32),
    /// Puts a parameter at the end of those of a block.
    Param(u32, Type),
    /// Makes a parameter another name of a value.
    Alias(u32, u32),
    /// Makes a stack slot of a size and the shift of an alignment.
    Slot(u32, u8),
    /// Pools so many bytes, each of which is this one.
    Pool(u8, u8),
    /// Interns an alias region of this data.
    Region(u32),
    /// Imports a signature of these parameters and returned values, and a function of it by this name. Both get the
    /// next number.
    Import(&'static str, &'static [Type], &'static [Type]),
    /// Puts an instruction at the end of a block, with its controlling type.
    Put(u32, Type, Plain),
    /// Puts an instruction behind so many of a block, with its controlling type.
    PutBehind(u32, usize, Type, Plain),
    /// Puts an instruction right before another one, with its controlling type.
    Before(u32, Type, Plain),
    /// Puts an instruction right behind another one, with its controlling type.
    After(u32, Type, Plain),
    /// Puts a return, a branch or a call at the end of a block.
    Go(u32, Transfer<'a>),
    /// Puts a value at the end of what each edge of an instruction passes that goes to a block.
    Append(u32, u32, u32),
    /// Makes the edges of an instruction that go to a block go to another one.
    Target(u32, u32, u32),
    /// Replaces the operand of an instruction at a place by a value.
    Operand(u32, usize, u32),
    /// Replaces what an edge of an instruction passes at a place by a value.
    Argument(u32, usize, usize, u32),
    /// Replaces an edge of an instruction.
    Edge(u32, usize, To<'a>),
    /// Replaces an item of the exception table of an instruction by this context.
    ReplaceContext(u32, usize, u32),
    /// Makes this region that of an access, or takes the access' region away.
    NameRegion(u32, Option<u32>),
    /// Gives an instruction a stack map: for each entry its type, its slot, and the distance from the slot's begin.
    StackMap(u32, &'static [(Type, u32, u32)]),
    /// Collects labels of values from here on.
    Collect,
    /// Gives a value a label: where it begins in the source, and its number.
    Label(u32, u32, u32),
    /// Finds that a fact holds.
    Is(Fact),
    /// Finds whether the functions and signatures exist that an instruction names.
    Entries(Transfer<'a>, bool),
    /// Finds that the function prints as this text.
    Prints(&'static str),
}

/// The function with this head, without blocks.
pub fn begun(alloc: Global, head: Head) -> Result<Function, Fail> {
    Ok(match head {
        Head::Unnamed => Function::new(alloc),
        Head::Named(name, params, returns, call_conv) => {
            let name = UserFuncName::testcase(String::from_str(alloc, name)?);
            let signature = signature_of(alloc, params, returns, call_conv)?;
            Function::with_name_signature(alloc, name, signature)
        }
    })
}

fn lay_out(rt: &impl Abort, func: &mut Function, block: u32) -> Result<(), Fail> {
    let block = block_of(rt, func, block);
    assert!(rt; !func.is_block_inserted(block));
    func.append_block(block)?;
    Ok(())
}

fn laid_out(func: &mut Function) -> Result<(), Fail> {
    let block = func.create_block()?;
    func.ensure_block_inserted(block)?;
    Ok(())
}

fn lay_out_after(rt: &impl Abort, func: &mut Function, block: u32, after: u32) {
    let block = block_of(rt, func, block);
    let after = block_of(rt, func, after);
    assert!(rt; !func.is_block_inserted(block));
    assert!(rt; func.is_block_inserted(after));
    func.insert_block_after(block, after);
}

fn alias(rt: &impl Abort, func: &mut Function, param: u32, original: u32) -> Result<(), Fail> {
    let param = value_of(rt, func, param);
    let original = value_of(rt, func, original);
    assert!(rt; is_param(func, param));
    assert!(rt; func.resolve_aliases(original) != param);
    func.change_param_to_alias(param, original)?;
    Ok(())
}

fn pool(func: &mut Function, byte: u8, count: u8) -> Result<(), Fail> {
    let mut bytes = Vec::new(func.allocator());
    for _ in 0..count {
        bytes.push(byte)?;
    }
    func.pool_constant(bytes.as_slice())?;
    Ok(())
}

fn import(func: &mut Function, name: &str, params: &[Type], returns: &[Type]) -> Result<(), Fail> {
    let signature = signature_of(func.allocator(), params, returns, CallConv::SystemV)?;
    let signature = func.import_signature(signature)?;
    let name = ExternalName::testcase(String::from_str(func.allocator(), name)?);
    func.import_function(ExtFuncData {
        name,
        signature,
        colocated: false,
        patchable: false,
    })?;
    Ok(())
}

fn put(
    rt: &impl Abort,
    func: &mut Function,
    block: u32,
    at: InsertAt,
    ty: Type,
    shape: InstructionData,
) -> Result<(), Fail> {
    let block = block_of(rt, func, block);
    names_what_exists(rt, func, &shape);
    assert!(rt; is_place_of(at, func.block_inst_count(block)));
    func.insert_inst(block, at, shape, ty, SourceLoc::new(PLACE))?;
    Ok(())
}

fn beside(
    rt: &impl Abort,
    func: &mut Function,
    inst: u32,
    ty: Type,
    shape: InstructionData,
    is_behind: bool,
) -> Result<(), Fail> {
    let inst = inst_of(rt, func, inst);
    names_what_exists(rt, func, &shape);
    let place = SourceLoc::new(PLACE);
    if is_behind {
        func.insert_inst_after(inst, shape, ty, place)?;
    } else {
        func.insert_inst_before(inst, shape, ty, place)?;
    }
    Ok(())
}

fn append(
    rt: &impl Abort,
    func: &mut Function,
    inst: u32,
    block: u32,
    value: u32,
) -> Result<(), Fail> {
    let inst = inst_of(rt, func, inst);
    let value = value_of(rt, func, value);
    func.append_branch_argument(inst, b(rt, block), value)?;
    Ok(())
}

fn target(rt: &impl Abort, func: &mut Function, inst: u32, from: u32, to: u32) {
    let inst = inst_of(rt, func, inst);
    let to = block_of(rt, func, to);
    func.change_branch_target(inst, b(rt, from), to);
}

fn operand(rt: &impl Abort, func: &mut Function, inst: u32, place: usize, value: u32) {
    let inst = inst_of(rt, func, inst);
    let value = value_of(rt, func, value);
    assert!(rt; place < func.inst_data(inst).arguments().len());
    func.replace_operand(inst, place, value);
}

fn argument(
    rt: &impl Abort,
    func: &mut Function,
    inst: u32,
    edge: usize,
    place: usize,
    value: u32,
) {
    let inst = inst_of(rt, func, inst);
    let value = value_of(rt, func, value);
    let edges = func.inst_data(inst).branch_destination();
    assert!(rt; edge < edges.len());
    assert!(rt; place < edges[edge].args.as_slice().len());
    func.replace_branch_argument(inst, edge, place, value);
}

fn region(func: &mut Function, user_id: u32) -> Result<(), Fail> {
    func.alias_regions_mut()
        .insert(AliasRegionData { user_id })?;
    Ok(())
}

fn edge(
    rt: &impl Abort,
    func: &mut Function,
    inst: u32,
    edge: usize,
    to: To<'_>,
) -> Result<(), Fail> {
    let inst = inst_of(rt, func, inst);
    let call = edge_of(rt, func.allocator(), to)?;
    assert!(rt; edge < func.inst_data(inst).branch_destination().len());
    assert!(rt; has_edge(func, &call));
    func.replace_edge(inst, edge, call);
    Ok(())
}

fn context(rt: &impl Abort, func: &mut Function, inst: u32, item: usize, value: u32) {
    let inst = inst_of(rt, func, inst);
    let value = value_of(rt, func, value);
    assert!(rt; has_item(func.inst_data(inst), item));
    func.replace_context(inst, item, value);
}

fn name_region(rt: &impl Abort, func: &mut Function, inst: u32, region: Option<u32>) {
    let inst = inst_of(rt, func, inst);
    match region {
        Some(number) => {
            assert!(rt; number < 1000);
            func.set_alias_region(inst, Some(AliasRegion::from_u32(number)));
        }
        None => func.set_alias_region(inst, None),
    }
}

fn stack_map(
    rt: &impl Abort,
    func: &mut Function,
    inst: u32,
    entries: &[(Type, u32, u32)],
) -> Result<(), Fail> {
    let map = map_of(rt, func.allocator(), entries)?;
    let inst = inst_of(rt, func, inst);
    assert!(rt; has_slots(func, map.as_slice()));
    func.set_stack_map(inst, map)?;
    Ok(())
}

fn label(
    rt: &impl Abort,
    func: &mut Function,
    value: u32,
    from: u32,
    label: u32,
) -> Result<(), Fail> {
    let value = value_of(rt, func, value);
    let from = SourceLoc::new(from);
    let label = ValueLabel::from_u32(below_1000(rt, label));
    func.set_val_label(value, ValueLabelStart { from, label })?;
    Ok(())
}

fn create(func: &mut Function) -> Result<(), Fail> {
    func.create_block()?;
    Ok(())
}

fn ensure(rt: &impl Abort, func: &mut Function, block: u32) -> Result<(), Fail> {
    let block = block_of(rt, func, block);
    func.ensure_block_inserted(block)?;
    Ok(())
}

fn cool(rt: &impl Abort, func: &mut Function, block: u32) {
    let block = block_of(rt, func, block);
    func.set_cold_block(block);
}

fn param(rt: &impl Abort, func: &mut Function, block: u32, ty: Type) -> Result<(), Fail> {
    let block = block_of(rt, func, block);
    func.append_block_param(block, ty)?;
    Ok(())
}

fn slot(rt: &impl Abort, func: &mut Function, size: u32, align_shift: u8) -> Result<(), Fail> {
    assert!(rt; align_shift < 32);
    func.create_sized_stack_slot(StackSlotData::new(size, align_shift))?;
    Ok(())
}

fn go(
    rt: &impl Abort,
    func: &mut Function,
    block: u32,
    transfer: Transfer<'_>,
) -> Result<(), Fail> {
    let shape = transfer_of(rt, func, transfer)?;
    put(rt, func, block, InsertAt::Back, Type::Invalid, shape)
}

// Asserts whether the functions and signatures exist that an instruction names.
fn has_entries(
    rt: &impl Abort,
    func: &mut Function,
    transfer: Transfer<'_>,
    exist: bool,
    name: &str,
) -> Result<(), Fail> {
    let shape = transfer_of(rt, func, transfer)?;
    assert!(rt; func.has_entries(&shape) == exist, "{name}");
    Ok(())
}

// Makes a step that always succeeds.
fn make_surely(rt: &impl Abort, func: &mut Function, step: Step<'_>, name: &str) {
    match step {
        Step::LayOutAfter(block, after) => lay_out_after(rt, func, block, after),
        Step::Cold(block) => cool(rt, func, block),
        Step::Target(inst, from, to) => target(rt, func, inst, from, to),
        Step::Operand(inst, place, value) => operand(rt, func, inst, place, value),
        Step::Argument(inst, edge, place, value) => argument(rt, func, inst, edge, place, value),
        Step::ReplaceContext(inst, item, value) => context(rt, func, inst, item, value),
        Step::NameRegion(inst, region) => name_region(rt, func, inst, region),
        Step::Collect => func.collect_debug_info(),
        Step::Is(fact) => assert!(rt; holds(rt, func, fact), "{name}"),
        _ => assert!(rt; false, "{name}"),
    }
}

fn make(rt: &impl Abort, func: &mut Function, step: Step<'_>, name: &str) -> Result<(), Fail> {
    match step {
        Step::Create => create(func),
        Step::LayOut(block) => lay_out(rt, func, block),
        Step::LaidOut => laid_out(func),
        Step::Ensure(block) => ensure(rt, func, block),
        Step::Param(block, ty) => param(rt, func, block, ty),
        Step::Alias(param, original) => alias(rt, func, param, original),
        Step::Slot(size, align_shift) => slot(rt, func, size, align_shift),
        Step::Pool(byte, count) => pool(func, byte, count),
        Step::Region(user_id) => region(func, user_id),
        Step::Import(name, params, returns) => import(func, name, params, returns),
        Step::Put(block, ty, plain) => {
            put(rt, func, block, InsertAt::Back, ty, shape_of(rt, plain))
        }
        Step::PutBehind(block, count, ty, plain) => {
            put(
                rt,
                func,
                block,
                InsertAt::Behind(count),
                ty,
                shape_of(rt, plain),
            )
        }
        Step::Before(inst, ty, plain) => beside(rt, func, inst, ty, shape_of(rt, plain), false),
        Step::After(inst, ty, plain) => beside(rt, func, inst, ty, shape_of(rt, plain), true),
        Step::Go(block, transfer) => go(rt, func, block, transfer),
        Step::Append(inst, block, value) => append(rt, func, inst, block, value),
        Step::Edge(inst, number, to) => edge(rt, func, inst, number, to),
        Step::StackMap(inst, entries) => stack_map(rt, func, inst, entries),
        Step::Label(value, from, number) => label(rt, func, value, from, number),
        Step::Entries(transfer, exist) => has_entries(rt, func, transfer, exist, name),
        Step::Prints(text) => prints(rt, func, text, name),
        Step::LayOutAfter(..)
        | Step::Cold(_)
        | Step::Target(..)
        | Step::Operand(..)
        | Step::Argument(..)
        | Step::ReplaceContext(..)
        | Step::NameRegion(..)
        | Step::Collect
        | Step::Is(_) => {
            make_surely(rt, func, step, name);
            Ok(())
        }
    }
}

/// The function with this head that steps make. The name is that of the case.
pub fn made_by(
    rt: &impl Abort,
    alloc: Global,
    head: Head,
    steps: &[Step<'_>],
    name: &str,
) -> Result<Function, Fail> {
    let mut func = begun(alloc, head)?;
    for step in steps {
        make(rt, &mut func, *step, name)?;
    }
    Ok(func)
}

/// The function that the first steps make, and then those of a case.
pub fn made(
    rt: &impl Abort,
    alloc: Global,
    first: &[Step<'_>],
    case: &Case,
) -> Result<Function, Fail> {
    let mut func = made_by(rt, alloc, case.head, first, case.name)?;
    for step in case.steps {
        make(rt, &mut func, *step, case.name)?;
    }
    Ok(func)
}

/// Makes each function: by the first steps, and then by those of its case.
pub fn make_all(
    rt: &impl Abort,
    alloc: Global,
    first: &[Step<'_>],
    cases: &[Case],
) -> Result<(), Fail> {
    for case in cases {
        made(rt, alloc, first, case)?;
    }
    Ok(())
}
