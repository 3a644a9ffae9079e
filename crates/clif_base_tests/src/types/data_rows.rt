//! Plain data: makers, readers and texts.
#![tactic(auto)]

use crate::types::support::{Datum, all_show, copies, prints, shows};
use clif_types::alias_region::{AliasRegionData, AliasRegionSet};
use clif_types::call_conv::CallConv;
use clif_types::condcodes::IntCC;
use clif_types::error::BuildError;
use clif_types::extfunc::{AbiParam, ExtFuncData, Signature};
use clif_types::extname::{ExternalName, TestcaseName, UserExternalName, UserFuncName};
use clif_types::globalvalue::GlobalValueData;
use clif_types::hex::HexBytes;
use clif_types::libcall::LibCall;
use clif_types::memflags::MemFlagsData;
use clif_types::sourceloc::SourceLoc;
use clif_types::stackmap::UserStackMapEntry;
use clif_types::stackslot::{DynamicStackSlotData, StackSlotData};
use clif_types::target::{PointerWidth, TargetFrontendConfig};
use clif_types::trapcode::TrapCode;
use clif_types::{AliasRegion, SigRef, StackSlot, types};
use std::alloc::{AllocError, Global};
use std::fmt;
use std::fmt::Write;
use std::process::Abort;
use std::test::Fail;

#[test]
fn words(rt: HostRuntime) -> Result<(), Fail> {
    let rows = [
        (Datum::CallConv(CallConv::Fast), "fast"),
        (Datum::CallConv(CallConv::SystemV), "system_v"),
        (Datum::CallConv(CallConv::Tail), "tail"),
        (Datum::TrapCode(TrapCode::User(7)), "user7"),
        (Datum::TrapCode(TrapCode::IntegerOverflow), "int_ovf"),
        (Datum::TrapCode(TrapCode::DivisionByZero), "int_divz"),
        (Datum::TrapCode(TrapCode::HeapOutOfBounds), "heap_oob"),
        (Datum::LibCall(LibCall::Memmove), "Memmove"),
        (Datum::BuildError(BuildError::Memory), "no memory"),
        (Datum::BuildError(BuildError::Full), "table full"),
        (Datum::BuildError(BuildError::Failed), "failed before"),
    ];
    all_show(&rt, rt.alloc(), &rows)
}

fn is_called(rt: &impl Abort, alloc: Global, condition: IntCC, text: &str) -> Result<(), Fail> {
    assert!(rt; condition.to_static_str() == text);
    shows(rt, alloc, Datum::Condition(condition), text)
}

#[test]
fn conditions(rt: HostRuntime) -> Result<(), Fail> {
    let rows = [
        (IntCC::Equal, "eq"),
        (IntCC::NotEqual, "ne"),
        (IntCC::SignedLessThan, "slt"),
        (IntCC::SignedGreaterThanOrEqual, "sge"),
        (IntCC::SignedGreaterThan, "sgt"),
        (IntCC::SignedLessThanOrEqual, "sle"),
        (IntCC::UnsignedLessThan, "ult"),
        (IntCC::UnsignedGreaterThanOrEqual, "uge"),
        (IntCC::UnsignedGreaterThan, "ugt"),
        (IntCC::UnsignedLessThanOrEqual, "ule"),
    ];
    for (condition, text) in rows.iter() {
        is_called(&rt, rt.alloc(), *condition, text)?;
    }
    Ok(())
}

fn testcase(alloc: Global, text: &str) -> Result<TestcaseName, AllocError> {
    Ok(TestcaseName::new(String::from_str(alloc, text)?))
}

// Asserts that a copy of a name is the same name.
fn is_copied(rt: &impl Abort, name: &TestcaseName) -> Result<TestcaseName, Fail> {
    let copy = name.clone()?;
    assert!(rt; copy == *name);
    Ok(copy)
}

fn differs(rt: &impl Abort, name: &TestcaseName, other: TestcaseName) {
    assert!(rt; *name != other);
}

#[test]
fn testcase_names(rt: HostRuntime) -> Result<(), Fail> {
    let name = testcase(rt.alloc(), "sample")?;
    assert!(rt; name.as_str() == "sample");
    let copy = is_copied(&rt, &name)?;
    differs(&rt, &copy, testcase(rt.alloc(), "simple")?);
    prints(&rt, rt.alloc(), &copy, "%sample")
}

#[test]
fn names_of_functions(rt: HostRuntime) -> Result<(), Fail> {
    let alloc = rt.alloc();
    copies(&rt, alloc, UserFuncName::user(1, 2), "u1:2")?;
    let sample = UserFuncName::testcase(String::from_str(alloc, "sample")?);
    copies(&rt, alloc, sample, "%sample")
}

// The external name `%NAME`.
fn external(alloc: Global, name: &str) -> Result<ExternalName, AllocError> {
    Ok(ExternalName::testcase(String::from_str(alloc, name)?))
}

#[test]
fn external_names(rt: HostRuntime) -> Result<(), Fail> {
    let alloc = rt.alloc();
    prints(&rt, alloc, &UserExternalName::new(0, 0), "u0:0")?;
    copies(&rt, alloc, ExternalName::user(3, 4), "u3:4")?;
    copies(&rt, alloc, external(alloc, "g")?, "%g")?;
    let memcpy = ExternalName::LibCall(LibCall::Memcpy);
    copies(&rt, alloc, memcpy, "%Memcpy")
}

fn push_types(list: &mut Vec<AbiParam>, types: &[types::Type]) -> Result<(), AllocError> {
    for ty in types {
        list.push(AbiParam::new(*ty))?;
    }
    Ok(())
}

/// The signature of these parameters and returns.
fn signature(
    alloc: Global,
    params: &[types::Type],
    returns: &[types::Type],
    call_conv: CallConv,
) -> Result<Signature, AllocError> {
    let mut signature = Signature::new(alloc, call_conv);
    push_types(&mut signature.params, params)?;
    push_types(&mut signature.returns, returns)?;
    Ok(signature)
}

// Asserts the text of the signature of these parameters and returns.
fn signs(
    rt: &impl Abort,
    alloc: Global,
    params: &[types::Type],
    returns: &[types::Type],
    call_conv: CallConv,
    text: &str,
) -> Result<(), Fail> {
    let made = signature(alloc, params, returns, call_conv)?;
    copies(rt, alloc, made, text)
}

#[test]
fn signatures(rt: HostRuntime) -> Result<(), Fail> {
    let alloc = rt.alloc();
    signs(&rt, alloc, &[], &[], CallConv::Fast, "() fast")?;
    let one = [types::I32];
    signs(&rt, alloc, &one, &[], CallConv::SystemV, "(i32) system_v")?;
    let pointers = [types::I64, types::I64, types::I64];
    let copy = "(i64, i64, i64) -> i64 system_v";
    signs(
        &rt,
        alloc,
        &pointers,
        &[types::I64],
        CallConv::SystemV,
        copy,
    )?;
    let vectors = [types::I8X16, types::I8X16, types::F32X4];
    let undefined = "() -> i8x16, i8x16, f32x4 system_v";
    signs(&rt, alloc, &[], &vectors, CallConv::SystemV, undefined)
}

// Asserts the text of a callee `%g`.
fn calls(
    rt: &impl Abort,
    alloc: Global,
    colocated: bool,
    patchable: bool,
    text: &str,
) -> Result<(), Fail> {
    let callee = ExtFuncData {
        name: external(alloc, "g")?,
        signature: SigRef::from_u32(0),
        colocated,
        patchable,
    };
    copies(rt, alloc, callee, text)
}

#[test]
fn callees(rt: HostRuntime) -> Result<(), Fail> {
    let alloc = rt.alloc();
    calls(&rt, alloc, false, false, "%g sig0")?;
    calls(&rt, alloc, true, false, "colocated %g sig0")?;
    calls(&rt, alloc, true, true, "colocated patchable %g sig0")?;
    let symbol = GlobalValueData::Symbol(external(alloc, "name")?);
    copies(&rt, alloc, symbol, "symbol %name")?;
    prints(&rt, alloc, &GlobalValueData::VMContext, "vmctx")
}

// Bytes of a constant are written from the last one, which is the highest, to the first.
#[test]
fn bytes_of_constants(rt: HostRuntime) -> Result<(), Fail> {
    let alloc = rt.alloc();
    prints(&rt, alloc, &HexBytes(&[0x01, 0x20, 0xab]), "0xab2001")?;
    prints(&rt, alloc, &HexBytes(&[0]), "0x00")?;
    prints(&rt, alloc, &HexBytes(&[]), "0x")
}

#[test]
fn slots(rt: HostRuntime) -> Result<(), Fail> {
    let slot = StackSlotData::new(4, 2);
    assert!(rt; slot.size() == 4);
    assert!(rt; slot.align_shift() == 2);
    assert!(rt; slot.align() == 4);
    let entry = UserStackMapEntry {
        ty: types::I64,
        slot: StackSlot::from_u32(1),
        offset: 0,
    };
    let rows = [
        (Datum::StackSlot(slot), "explicit_slot 4, align = 4"),
        (
            Datum::StackSlot(StackSlotData::new(3, 0)),
            "explicit_slot 3",
        ),
        (
            Datum::StackSlot(StackSlotData::new(8, 31)),
            "explicit_slot 8, align = 2147483648",
        ),
        (
            Datum::DynamicStackSlot(DynamicStackSlotData { dyn_ty: 0 }),
            "explicit_dynamic_slot dt0",
        ),
        (Datum::StackMapEntry(entry), "i64 @ ss1+0"),
    ];
    all_show(&rt, rt.alloc(), &rows)
}

#[test]
fn flags(rt: HostRuntime) -> Result<(), Fail> {
    let none = MemFlagsData::new();
    let mut aligned = none;
    aligned.set_aligned();
    assert!(rt; aligned.aligned() && !aligned.notrap());
    let mut trusted = aligned;
    trusted.set_notrap();
    assert!(rt; trusted == MemFlagsData::trusted());
    assert!(rt; trusted.alias_region() == None);
    trusted.set_alias_region(Some(AliasRegion::from_u32(0)));
    let rows = [
        (Datum::MemFlags(none), ""),
        (Datum::MemFlags(aligned), " aligned"),
        (Datum::MemFlags(trusted), " notrap aligned region0"),
    ];
    all_show(&rt, rt.alloc(), &rows)
}

// Puts an alias region into a set, and asserts its number.
fn inserts(rt: &impl Abort, set: &mut AliasRegionSet, region: AliasRegionData, number: u32) {
    let inserted = set.insert(region);
    assert!(rt; number < 1000);
    assert!(rt; inserted == Ok(AliasRegion::from_u32(number)));
}

// Asserts which alias region has a number.
fn has_region(rt: &impl Abort, set: &AliasRegionSet, number: u32, region: Option<AliasRegionData>) {
    assert!(rt; number < 1000);
    assert!(rt; set.get(AliasRegion::from_u32(number)) == region);
}

#[test]
fn regions(rt: HostRuntime) -> Result<(), Fail> {
    let mut set = AliasRegionSet::new(rt.alloc());
    let seventh = AliasRegionData { user_id: 7 };
    let eighth = AliasRegionData { user_id: 8 };
    inserts(&rt, &mut set, seventh, 0);
    inserts(&rt, &mut set, eighth, 1);
    inserts(&rt, &mut set, seventh, 0);
    assert!(rt; set.as_slice().len() == 2);
    has_region(&rt, &set, 1, Some(eighth));
    has_region(&rt, &set, 2, None);
    assert!(rt; set.refusal() == None);
    prints(&rt, rt.alloc(), &seventh, "user 7")
}

#[test]
fn places(rt: HostRuntime) {
    assert!(rt; SourceLoc::new(5).bits() == 5);
    assert!(rt; SourceLoc::new(4_294_967_295).is_default());
    assert!(rt; !SourceLoc::new(0).is_default());
}

fn points(rt: &impl Abort, pointer_width: PointerWidth, ty: types::Type) {
    let target = TargetFrontendConfig {
        default_call_conv: CallConv::SystemV,
        pointer_width,
        page_size_align_log2: 12,
    };
    assert!(rt; target.pointer_type() == ty);
}

#[test]
fn pointers(rt: HostRuntime) {
    points(&rt, PointerWidth::U16, types::I16);
    points(&rt, PointerWidth::U32, types::I32);
    points(&rt, PointerWidth::U64, types::I64);
}

/// A writer that takes a few pieces and then refuses.
#[derive(Drop)]
struct Refusing {
    left: u32,
}

impl Write for Refusing {
    fn write_str(&mut self, _text: &str) -> fmt::Result {
        if self.left == 0 {
            return Err(fmt::Error);
        }
        self.left -= 1;
        Ok(())
    }
}

// Whether a signature can be written into a writer that takes so many pieces.
fn fits(signature: &Signature, left: u32) -> bool {
    write!(Refusing { left }, "{signature}").is_ok()
}

#[test]
fn refused_writes(rt: HostRuntime) -> Result<(), Fail> {
    let pointers = [types::I64, types::I64];
    let copy = signature(rt.alloc(), &pointers, &[types::I64], CallConv::SystemV)?;
    for left in 0..5 {
        assert!(rt; !fits(&copy, left));
    }
    assert!(rt; fits(&copy, 100));
    Ok(())
}
