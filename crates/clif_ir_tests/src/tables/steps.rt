//! Tables that are made by lists of steps.
#![tactic(auto)]

use crate::support::{below_1000, signature_of};
use clif_tables::Tables;
use clif_types::{
    AliasRegionData, BuildError, CallConv, DynamicStackSlotData, ExtFuncData, ExternalName,
    GlobalValueData, LibCall, SigRef, StackSlotData, Type,
};
use std::alloc::{AllocError, Global};
use std::process::Abort;
use std::test::Fail;

/// Whether an imported function is colocated, and whether it is patchable.
#[derive(Clone, Copy)]
pub struct Marks {
    pub colocated: bool,
    pub patchable: bool,
}

/// A function that is neither.
pub const UNMARKED: Marks = Marks {
    colocated: false,
    patchable: false,
};

/// A step in the making of tables.
#[derive(Clone, Copy)]
pub enum Step<'a> {
    /// Makes a stack slot of this size and this alignment, as its number of zero bits.
    Slot(u32, u8),
    /// Makes a stack slot of this dynamic type.
    DynamicSlot(u32),
    /// Makes a global value, the context.
    Context,
    /// Makes a global value, a symbol.
    Symbol(&'a str),
    /// Adds a region of this number.
    Region(u32),
    /// Imports a signature of these parameters and returned values.
    Import(&'a [Type], &'a [Type]),
    /// Imports a function of this name and signature.
    Function(&'a str, u32, Marks),
    /// Imports a function of the C library.
    Library(LibCall, u32),
    /// Pools bytes, the lowest first.
    Bytes(&'a [u8]),
}

fn testcase(alloc: Global, name: &str) -> Result<ExternalName, AllocError> {
    Ok(ExternalName::testcase(String::from_str(alloc, name)?))
}

// Imports a function, where the signature may not exist.
fn import_function(
    rt: &impl Abort,
    tables: &mut Tables,
    name: ExternalName,
    signature: u32,
    marks: Marks,
) -> Result<(), BuildError> {
    let Marks {
        colocated,
        patchable,
    } = marks;
    tables.import_function(ExtFuncData {
        name,
        signature: SigRef::from_u32(below_1000(rt, signature)),
        colocated,
        patchable,
    })?;
    Ok(())
}

fn import_signature(
    alloc: Global,
    tables: &mut Tables,
    params: &[Type],
    returns: &[Type],
) -> Result<(), BuildError> {
    tables.import_signature(signature_of(alloc, params, returns, CallConv::SystemV)?)?;
    Ok(())
}

fn create_slot(
    rt: &impl Abort,
    tables: &mut Tables,
    size: u32,
    align_shift: u8,
) -> Result<(), BuildError> {
    assert!(rt; align_shift < 32);
    tables.create_sized_stack_slot(StackSlotData::new(size, align_shift))?;
    Ok(())
}

fn create_dynamic_slot(tables: &mut Tables, dyn_ty: u32) -> Result<(), BuildError> {
    tables.create_dynamic_stack_slot(DynamicStackSlotData { dyn_ty })?;
    Ok(())
}

fn create_global(tables: &mut Tables, data: GlobalValueData) -> Result<(), BuildError> {
    tables.create_global_value(data)?;
    Ok(())
}

fn add_region(tables: &mut Tables, user_id: u32) -> Result<(), BuildError> {
    let regions = tables.alias_regions_mut();
    regions.insert(AliasRegionData { user_id })?;
    Ok(())
}

fn pool(tables: &mut Tables, bytes: &[u8]) -> Result<(), BuildError> {
    tables.pool_constant(bytes)?;
    Ok(())
}

fn make(
    rt: &impl Abort,
    alloc: Global,
    tables: &mut Tables,
    step: Step<'_>,
) -> Result<(), BuildError> {
    match step {
        Step::Slot(size, align_shift) => create_slot(rt, tables, size, align_shift),
        Step::DynamicSlot(dyn_ty) => create_dynamic_slot(tables, dyn_ty),
        Step::Context => create_global(tables, GlobalValueData::VMContext),
        Step::Symbol(name) => {
            create_global(tables, GlobalValueData::Symbol(testcase(alloc, name)?))
        }
        Step::Region(user_id) => add_region(tables, user_id),
        Step::Import(params, returns) => import_signature(alloc, tables, params, returns),
        Step::Function(name, sig, marks) => {
            import_function(rt, tables, testcase(alloc, name)?, sig, marks)
        }
        Step::Library(call, sig) => {
            import_function(rt, tables, ExternalName::LibCall(call), sig, UNMARKED)
        }
        Step::Bytes(bytes) => pool(tables, bytes),
    }
}

/// Makes what steps say.
pub fn make_all(
    rt: &impl Abort,
    alloc: Global,
    tables: &mut Tables,
    steps: &[Step<'_>],
) -> Result<(), Fail> {
    for step in steps {
        make(rt, alloc, tables, *step)?;
    }
    Ok(())
}

// Asserts the text of tables.
fn has_text(rt: &impl Abort, alloc: Global, tables: &Tables, text: &str) -> Result<(), Fail> {
    let found = format!(in alloc; "{tables}")?;
    assert!(rt; found.as_str() == text);
    Ok(())
}

/// Asserts the text of the tables that steps make.
pub fn prints(rt: &impl Abort, alloc: Global, steps: &[Step<'_>], text: &str) -> Result<(), Fail> {
    let mut tables = Tables::new(alloc);
    make_all(rt, alloc, &mut tables, steps)?;
    has_text(rt, alloc, &tables, text)
}
