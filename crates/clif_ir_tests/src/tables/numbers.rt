//! The numbers and counts of entries, and what is read of them.
#![tactic(auto)]

use crate::tables::steps::Step::{Bytes, Context, DynamicSlot, Function, Import, Region, Slot};
use crate::tables::steps::{UNMARKED, make_all};
use clif_tables::Tables;
use clif_types::types::I32;
use clif_types::{
    AliasRegion, AliasRegionData, Constant, DynamicStackSlot, DynamicStackSlotData, ExceptionTable,
    FuncRef, GlobalValue, GlobalValueData, JumpTable, SigRef, StackSlot, StackSlotData,
};
use std::process::Abort;
use std::test::Fail;

// Bytes that are pooled, and their numbers: equal bytes get one number, other bytes the next one, no bytes as well.
const POOLED: [(&[u8], u32); 7] = [
    (&[1, 2], 0),
    (&[2, 1], 1),
    (&[1, 2], 0),
    (&[], 2),
    (&[1], 3),
    (&[2, 1], 1),
    (&[], 2),
];

#[test]
fn pooling(rt: HostRuntime) -> Result<(), Fail> {
    let mut tables = Tables::new(rt.alloc());
    for (bytes, number) in POOLED.iter() {
        let constant = tables.pool_constant(bytes)?;
        assert!(rt; constant.as_u32() == *number);
    }
    assert!(rt; tables.constant_count() == 4);
    Ok(())
}

// Asserts how many entries there are: of stack slots of both kinds, global values, signatures, functions and constants.
fn counts(rt: &impl Abort, tables: &Tables, expected: [usize; 6]) {
    assert!(rt; tables.stack_slot_count() == expected[0]);
    assert!(rt; tables.dynamic_stack_slot_count() == expected[1]);
    assert!(rt; tables.global_value_count() == expected[2]);
    assert!(rt; tables.signature_count() == expected[3]);
    assert!(rt; tables.function_count() == expected[4]);
    assert!(rt; tables.constant_count() == expected[5]);
}

fn reads_slots(rt: &impl Abort, tables: &Tables) {
    assert!(rt; tables.stack_slot(StackSlot::from_u32(1)) == Some(&StackSlotData::new(8, 3)));
    assert!(rt; tables.stack_slot(StackSlot::from_u32(2)).is_none());
    let dynamic = DynamicStackSlotData { dyn_ty: 5 };
    assert!(rt; tables.dynamic_stack_slot(DynamicStackSlot::from_u32(0)) == Some(&dynamic));
    assert!(rt;
        tables
            .dynamic_stack_slot(DynamicStackSlot::from_u32(1))
            .is_none()
    );
}

fn reads_globals(rt: &impl Abort, tables: &Tables) {
    assert!(rt; tables.global_value(GlobalValue::from_u32(0)) == Some(&GlobalValueData::VMContext));
    assert!(rt; tables.global_value(GlobalValue::from_u32(1)).is_none());
    let region = tables.alias_regions().get(AliasRegion::from_u32(0));
    assert!(rt; region == Some(AliasRegionData { user_id: 7 }));
}

fn reads_calls(rt: &impl Abort, tables: &Tables) {
    let signature = tables
        .signature(SigRef::from_u32(0))
        .expect(rt, "a signature");
    assert!(rt; signature.params.len() == 1 && signature.returns.is_empty());
    assert!(rt; tables.signature(SigRef::from_u32(1)).is_none());
    let function = tables
        .function(FuncRef::from_u32(0))
        .expect(rt, "a function");
    assert!(rt; function.signature == SigRef::from_u32(0) && !function.colocated);
    assert!(rt; tables.function(FuncRef::from_u32(1)).is_none());
    let constant = tables
        .constant(Constant::from_u32(0))
        .expect(rt, "a constant");
    assert!(rt; constant.as_slice() == [9, 8].as_slice());
    assert!(rt; tables.constant(Constant::from_u32(1)).is_none());
}

fn reads_no_edges(rt: &impl Abort, tables: &Tables) {
    assert!(rt; tables.jump_table(JumpTable::from_u32(0)).is_none());
    assert!(rt; tables.jump_table_count() == 0);
    assert!(rt;
        tables
            .exception_table(ExceptionTable::from_u32(0))
            .is_none()
    );
    assert!(rt; tables.exception_table_count() == 0);
}

fn reads(rt: &impl Abort, tables: &Tables) {
    counts(rt, tables, [2, 1, 1, 1, 1, 1]);
    reads_slots(rt, tables);
    reads_globals(rt, tables);
    reads_calls(rt, tables);
    reads_no_edges(rt, tables);
}

#[test]
fn reading(rt: HostRuntime) -> Result<(), Fail> {
    let steps = [
        Slot(4, 2),
        Slot(8, 3),
        DynamicSlot(5),
        Context,
        Region(7),
        Import(&[I32], &[]),
        Function("g", 0, UNMARKED),
        Bytes(&[9, 8]),
        Bytes(&[9, 8]),
    ];
    let mut tables = Tables::new(rt.alloc());
    make_all(&rt, rt.alloc(), &mut tables, &steps)?;
    reads(&rt, &tables);
    Ok(())
}
