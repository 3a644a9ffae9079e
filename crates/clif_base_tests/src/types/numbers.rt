//! Numbers and sets of them.
#![tactic(auto)]

use crate::types::support::{debugs, prints};
use clif_types::entity_set::EntitySet;
use clif_types::{
    AliasRegion, Block, Constant, DynamicStackSlot, EntityRef, ExceptionTable, FuncRef,
    GlobalValue, Inst, JumpTable, SigRef, StackSlot, Value, ValueLabel,
};
use std::alloc::Global;
use std::fmt::{Debug, Display};
use std::process::Abort;
use std::test::Fail;

/// What a number names.
#[derive(Clone, Copy)]
enum Kind {
    Block,
    Value,
    Inst,
    JumpTable,
    ExceptionTable,
    StackSlot,
    DynamicStackSlot,
    GlobalValue,
    AliasRegion,
    SigRef,
    FuncRef,
    Constant,
    ValueLabel,
}

/// A number at its own type, through the bound that tables are generic over.
fn names<K: EntityRef + Display + Debug>(
    rt: &impl Abort,
    alloc: Global,
    text: &str,
) -> Result<(), Fail> {
    let third = K::new(3);
    assert!(rt; third.index() == 3);
    prints(rt, alloc, &third, text)?;
    debugs(rt, alloc, &third, text)
}

fn names_kind(rt: &impl Abort, alloc: Global, kind: Kind, text: &str) -> Result<(), Fail> {
    match kind {
        Kind::Block => names::<Block>(rt, alloc, text),
        Kind::Value => names::<Value>(rt, alloc, text),
        Kind::Inst => names::<Inst>(rt, alloc, text),
        Kind::JumpTable => names::<JumpTable>(rt, alloc, text),
        Kind::ExceptionTable => names::<ExceptionTable>(rt, alloc, text),
        Kind::StackSlot => names::<StackSlot>(rt, alloc, text),
        Kind::DynamicStackSlot => names::<DynamicStackSlot>(rt, alloc, text),
        Kind::GlobalValue => names::<GlobalValue>(rt, alloc, text),
        Kind::AliasRegion => names::<AliasRegion>(rt, alloc, text),
        Kind::SigRef => names::<SigRef>(rt, alloc, text),
        Kind::FuncRef => names::<FuncRef>(rt, alloc, text),
        Kind::Constant => names::<Constant>(rt, alloc, text),
        Kind::ValueLabel => names::<ValueLabel>(rt, alloc, text),
    }
}

#[test]
fn texts(rt: HostRuntime) -> Result<(), Fail> {
    let rows = [
        (Kind::Block, "block3"),
        (Kind::Value, "v3"),
        (Kind::Inst, "inst3"),
        (Kind::JumpTable, "jt3"),
        (Kind::ExceptionTable, "extable3"),
        (Kind::StackSlot, "ss3"),
        (Kind::DynamicStackSlot, "dss3"),
        (Kind::GlobalValue, "gv3"),
        (Kind::AliasRegion, "region3"),
        (Kind::SigRef, "sig3"),
        (Kind::FuncRef, "fn3"),
        (Kind::Constant, "const3"),
        (Kind::ValueLabel, "val3"),
    ];
    for (kind, text) in rows.iter() {
        names_kind(&rt, rt.alloc(), *kind, text)?;
    }
    Ok(())
}

/// What is read of the number that is made of a number.
fn made_of(rt: &impl Abort, kind: Kind, number: u32) -> u32 {
    assert!(rt; number < u32::MAX);
    match kind {
        Kind::Block => Block::from_u32(number).as_u32(),
        Kind::Value => Value::from_u32(number).as_u32(),
        Kind::Inst => Inst::from_u32(number).as_u32(),
        Kind::JumpTable => JumpTable::from_u32(number).as_u32(),
        Kind::ExceptionTable => ExceptionTable::from_u32(number).as_u32(),
        Kind::StackSlot => StackSlot::from_u32(number).as_u32(),
        Kind::DynamicStackSlot => DynamicStackSlot::from_u32(number).as_u32(),
        Kind::GlobalValue => GlobalValue::from_u32(number).as_u32(),
        Kind::AliasRegion => AliasRegion::from_u32(number).as_u32(),
        Kind::SigRef => SigRef::from_u32(number).as_u32(),
        Kind::FuncRef => FuncRef::from_u32(number).as_u32(),
        Kind::Constant => Constant::from_u32(number).as_u32(),
        Kind::ValueLabel => ValueLabel::from_u32(number).as_u32(),
    }
}

#[test]
fn numbers(rt: HostRuntime) {
    let rows = [
        (Kind::Block, 7),
        (Kind::Value, 4_294_967_294),
        (Kind::Inst, 7),
        (Kind::JumpTable, 7),
        (Kind::ExceptionTable, 7),
        (Kind::StackSlot, 7),
        (Kind::DynamicStackSlot, 7),
        (Kind::GlobalValue, 7),
        (Kind::AliasRegion, 7),
        (Kind::SigRef, 7),
        (Kind::FuncRef, 7),
        (Kind::Constant, 7),
        (Kind::ValueLabel, 7),
    ];
    for (kind, number) in rows.iter() {
        assert!(rt; made_of(&rt, *kind, *number) == *number);
    }
    assert!(rt; Value::from_u32(1) < Value::from_u32(2));
}

// The block with this number.
fn b(rt: &impl Abort, number: u32) -> Block {
    assert!(rt; number < 1000);
    Block::from_u32(number)
}

// Puts a block into a set, and asserts whether it is new there.
fn inserts(
    rt: &impl Abort,
    set: &mut EntitySet<Block>,
    number: u32,
    is_new: bool,
) -> Result<(), Fail> {
    assert!(rt; set.insert(b(rt, number))? == is_new);
    Ok(())
}

fn has(rt: &impl Abort, set: &EntitySet<Block>, number: u32, is_member: bool) {
    assert!(rt; set.contains(b(rt, number)) == is_member);
}

// Asserts the text of a set's members, in order.
fn has_members(
    rt: &impl Abort,
    alloc: Global,
    set: &EntitySet<Block>,
    text: &str,
) -> Result<(), Fail> {
    let members = set.iter().collect::<Vec<Block>>(alloc)?;
    debugs(rt, alloc, &members, text)
}

/// A set through its whole life, with each member inserted out of order.
#[test]
fn sets(rt: HostRuntime) -> Result<(), Fail> {
    let mut set = EntitySet::new(rt.alloc());
    assert!(rt; set.is_empty());
    inserts(&rt, &mut set, 3, true)?;
    inserts(&rt, &mut set, 1, true)?;
    inserts(&rt, &mut set, 3, false)?;
    inserts(&rt, &mut set, 70, true)?;
    assert!(rt; !set.is_empty());
    has(&rt, &set, 1, true);
    has(&rt, &set, 2, false);
    has(&rt, &set, 71, false);
    has_members(&rt, rt.alloc(), &set, "[block1, block3, block70]")
}
