//! Functions that are made by tables of steps and spilled, and their texts.
#![tactic(auto)]

use crate::fits::all_fit;
use crate::steps::{alias, b, block_of, function_of, make_block, put_typed, set_of, v, values};
use clif_instructions::insert_at::InsertAt;
use clif_ir::{
    BlockArg, BlockCall, ExceptionTableData, ExceptionTableItem, ExceptionTargets, Function,
    InstructionData,
};
use clif_spiller::SafepointSpiller;
use clif_types::types::{I32, I64};
use clif_types::{
    AbiParam, CallConv, EntityRef, EntitySet, ExtFuncData, ExternalName, Inst, SigRef, Signature,
    TrapCode, Type, UserFuncName,
};
use std::alloc::Global;
use std::process::Abort;
use std::test::Fail;

/// A step in the making of a function, where all is said by numbers.
#[derive(Clone, Copy)]
pub enum Make {
    /// Imports a function of this name, and of these types.
    Import(&'static str, &'static [Type], &'static [Type]),
    /// Imports a function of this name, with a signature that was imported before.
    ImportAs(&'static str, u32),
    /// Makes a block and puts it at the end of the layout.
    Block,
    /// Marks a block as cold.
    Cold(u32),
    /// Puts a parameter at the end of those of a block.
    Param(u32, Type),
    /// Puts an instruction at the end of a block.
    Put(u32, Type, Put),
    /// Makes a parameter another name of a value.
    Alias(u32, u32),
}

/// An instruction.
#[derive(Clone, Copy)]
pub enum Put {
    Iconst(i64),
    Call(u32, &'static [u32]),
    /// A call of a function that may throw: its normal edge, and those of all exceptions.
    TryCall(u32, &'static [u32], Edge, &'static [Edge]),
    Jump(Edge),
    Brif(u32, Edge, Edge),
    Return(&'static [u32]),
    Trap(u8),
}

/// An edge: its target, and what it passes.
#[derive(Clone, Copy)]
pub struct Edge(pub u32, pub &'static [Pass]);

/// What an edge passes.
#[derive(Clone, Copy)]
pub enum Pass {
    V(u32),
    Ret(u32),
    Exn(u32),
}

/// A function that is spilled, and its text.
#[derive(Clone, Copy)]
pub struct Spill {
    pub name: &'static str,
    pub params: &'static [Type],
    pub returns: &'static [Type],
    pub makes: &'static [Make],
    pub recorded: &'static [u32],
    pub text: &'static str,
}

fn edge_of(rt: &impl Abort, alloc: Global, Edge(target, passes): Edge) -> Result<BlockCall, Fail> {
    let mut call = BlockCall::new(alloc, b(rt, target), &[])?;
    for pass in passes {
        call.args.push(match *pass {
            Pass::V(number) => BlockArg::Value(v(rt, number)),
            Pass::Ret(place) => BlockArg::TryCallRet(place),
            Pass::Exn(place) => BlockArg::TryCallExn(place),
        })?;
    }
    Ok(call)
}

fn throws(
    rt: &impl Abort,
    alloc: Global,
    normal: Edge,
    others: &[Edge],
) -> Result<ExceptionTargets, Fail> {
    let mut items = Vec::new(alloc);
    for other in others {
        items.push(ExceptionTableItem::Default(edge_of(rt, alloc, *other)?))?;
    }
    let table = ExceptionTableData {
        sig: SigRef::from_u32(0),
        normal: edge_of(rt, alloc, normal)?,
        items,
    };
    Ok(ExceptionTargets::new(alloc, table)?)
}

fn shape_of(rt: &impl Abort, alloc: Global, put: Put) -> Result<InstructionData, Fail> {
    Ok(match put {
        Put::Iconst(imm) => InstructionData::UnaryImm { imm },
        Put::Call(function, args) => InstructionData::Call {
            func_ref: function_of(rt, function),
            args: values(rt, alloc, args)?,
        },
        Put::TryCall(function, args, normal, others) => InstructionData::TryCall {
            func_ref: function_of(rt, function),
            args: values(rt, alloc, args)?,
            exception: throws(rt, alloc, normal, others)?,
        },
        Put::Jump(to) => InstructionData::Jump {
            destination: edge_of(rt, alloc, to)?,
        },
        Put::Brif(condition, then, other) => InstructionData::Brif {
            arg: v(rt, condition),
            blocks: [edge_of(rt, alloc, then)?, edge_of(rt, alloc, other)?],
        },
        Put::Return(args) => InstructionData::MultiAry {
            args: values(rt, alloc, args)?,
        },
        Put::Trap(code) => InstructionData::Trap {
            code: TrapCode::User(code),
        },
    })
}

fn signature(alloc: Global, params: &[Type], returns: &[Type]) -> Result<Signature, Fail> {
    let mut signature = Signature::new(alloc, CallConv::SystemV);
    for ty in params {
        signature.params.push(AbiParam::new(*ty))?;
    }
    for ty in returns {
        signature.returns.push(AbiParam::new(*ty))?;
    }
    Ok(signature)
}

/// Imports a function of this name, and of these types.
pub fn import(
    rt: &impl Abort,
    func: &mut Function,
    name: &str,
    params: &[Type],
    returns: &[Type],
) -> Result<(), Fail> {
    let signature = func.import_signature(signature(func.allocator(), params, returns)?)?;
    import_as(rt, func, name, signature)
}

fn import_as(
    rt: &impl Abort,
    func: &mut Function,
    name: &str,
    signature: SigRef,
) -> Result<(), Fail> {
    assert!(rt; signature.index() < func.tables().signature_count());
    func.import_function(ExtFuncData {
        name: ExternalName::testcase(String::from_str(func.allocator(), name)?),
        signature,
        colocated: false,
        patchable: false,
    })?;
    Ok(())
}

fn make_param(rt: &impl Abort, func: &mut Function, block: u32, ty: Type) -> Result<(), Fail> {
    let block = block_of(rt, func, block);
    func.append_block_param(block, ty)?;
    Ok(())
}

fn make_cold(rt: &impl Abort, func: &mut Function, block: u32) {
    let block = block_of(rt, func, block);
    func.set_cold_block(block);
}

fn take_step(rt: &impl Abort, func: &mut Function, step: Make) -> Result<(), Fail> {
    match step {
        Make::Import(name, params, returns) => import(rt, func, name, params, returns),
        Make::ImportAs(name, signature) => {
            assert!(rt; signature < 1000);
            import_as(rt, func, name, SigRef::from_u32(signature))
        }
        Make::Block => make_block(func),
        Make::Cold(block) => {
            make_cold(rt, func, block);
            Ok(())
        }
        Make::Param(block, ty) => make_param(rt, func, block, ty),
        Make::Put(block, ty, put) => {
            let shape = shape_of(rt, func.allocator(), put)?;
            put_typed(rt, func, b(rt, block), shape, InsertAt::Back, ty)
        }
        Make::Alias(param, original) => alias(rt, func, param, original),
    }
}

/// The function of a case, before it is spilled.
pub fn function(rt: &impl Abort, alloc: Global, case: &Spill) -> Result<Function, Fail> {
    let name = UserFuncName::testcase(String::from_str(alloc, case.name)?);
    let signature = signature(alloc, case.params, case.returns)?;
    let mut func = Function::with_name_signature(alloc, name, signature);
    for step in case.makes {
        take_step(rt, &mut func, *step)?;
    }
    Ok(func)
}

/// Asserts the text of each of these functions, spilled by one spiller, twice.
pub fn spills_each(rt: &impl Abort, alloc: Global, cases: &[&Spill]) -> Result<(), Fail> {
    let mut spiller = SafepointSpiller::new(alloc);
    for case in cases {
        for _ in 0..2 {
            let mut func = function(rt, alloc, case)?;
            let recorded = set_of(rt, alloc, case.recorded)?;
            assert!(rt; all_fit(&func, &recorded));
            spiller.run(&mut func, &recorded, I64, &None)?;
            let text = format!(in alloc; "{}", func.display())?;
            assert_eq!(rt; text.as_str(), case.text);
        }
    }
    Ok(())
}

// A function that makes so many values, calls out once, and then uses each of them once.
fn many(rt: &impl Abort, alloc: Global, count: u32) -> Result<Function, Fail> {
    let name = UserFuncName::testcase(String::from_str(alloc, "many")?);
    let mut func = Function::with_name_signature(alloc, name, signature(alloc, &[], &[])?);
    import(rt, &mut func, "g", &[], &[])?;
    import(rt, &mut func, "use", &[I32], &[])?;
    make_block(&mut func)?;
    for _ in 0..count {
        append(rt, &mut func, Put::Iconst(1))?;
    }
    append(rt, &mut func, Put::Call(0, &[]))?;
    for number in 0..count {
        let args = values(rt, alloc, &[number])?;
        let func_ref = function_of(rt, 1);
        let shape = InstructionData::Call { func_ref, args };
        put_typed(rt, &mut func, b(rt, 0), shape, InsertAt::Back, I32)?;
    }
    append(rt, &mut func, Put::Return(&[]))?;
    Ok(func)
}

// Puts an instruction at the end of the first block.
fn append(rt: &impl Abort, func: &mut Function, put: Put) -> Result<(), Fail> {
    let shape = shape_of(rt, func.allocator(), put)?;
    put_typed(rt, func, b(rt, 0), shape, InsertAt::Back, I32)
}

/// Asserts that so many values which live across one call have an entry each in its stack map, and a slot each.
pub fn spills_many(rt: &impl Abort, alloc: Global, count: u32) -> Result<(), Fail> {
    let mut func = many(rt, alloc, count)?;
    let mut recorded = EntitySet::new(alloc);
    for number in 0..count {
        recorded.insert(v(rt, number))?;
    }
    let mut spiller = SafepointSpiller::new(alloc);
    assert!(rt; all_fit(&func, &recorded));
    spiller.run(&mut func, &recorded, I64, &None)?;
    assert_eq!(rt; func.tables().stack_slot_count(), count as usize);
    assert!(rt; count < 1000);
    let call = Inst::from_u32(count);
    assert!(rt; call.index() < func.inst_count());
    let entries = func.stack_map(call);
    assert_eq!(rt; entries.len(), count as usize);
    // The value that is used last takes the first slot.
    for (place, entry) in entries.iter().enumerate() {
        assert_eq!(rt; entry.slot.index() + place + 1, count as usize);
    }
    Ok(())
}
