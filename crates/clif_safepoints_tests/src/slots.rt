//! Which stack slots values get, one after the other.
#![tactic(auto)]

ghost use Rattle.std.specs.Prelude.{◌<◌, length, IsTrue};
ghost use Rattle.clif_ir.specs.Body.{value_at};
ghost use Rattle.clif_stack_slots.specs.Sizes.{FitsStackMap};

use clif_ir::Function;
use clif_stack_slots::{SlotSize, SlotSizeMap, StackSlots};
use clif_types::types::{I8, I8X16, I16, I32, I32X8, I64, INVALID};
use clif_types::{Block, EntityRef, StackSlot, Type, Value};
use std::process::Abort;
use std::test::Fail;

/// What is done with the slots. Values and slots are given by their numbers.
#[derive(Clone, Copy)]
enum Act {
    /// The value gets this slot.
    Gives(u32, u32),
    /// The slot of the value is free for another one.
    Frees(u32),
    /// The value has this slot, or none.
    Has(u32, Option<u32>),
    /// All is forgotten.
    Clears,
}

// The types of the values, by rising number.
const TYPES: &[Type] = &[I32, I32, I64, I8, I8X16, I32, I16];

// Of a size the slot that was freed last is given first, and a slot of another size never.
const ACTS: &[Act] = &[
    Act::Has(0, None),
    Act::Gives(0, 0),
    Act::Gives(0, 0),
    Act::Gives(2, 1),
    Act::Gives(1, 2),
    Act::Frees(0),
    Act::Frees(1),
    Act::Gives(5, 2),
    Act::Gives(3, 3),
    Act::Gives(4, 4),
    Act::Gives(6, 5),
    Act::Frees(2),
    Act::Has(1, Some(2)),
    Act::Has(2, Some(1)),
    Act::Clears,
    Act::Has(0, None),
    Act::Gives(0, 6),
];

const SLOTS: &str = "function u0:0() fast {
    ss0 = explicit_slot 4, align = 4
    ss1 = explicit_slot 8, align = 8
    ss2 = explicit_slot 4, align = 4
    ss3 = explicit_slot 1
    ss4 = explicit_slot 16, align = 16
    ss5 = explicit_slot 2, align = 2
    ss6 = explicit_slot 4, align = 4

block0(v0: i32, v1: i32, v2: i64, v3: i8, v4: i8x16, v5: i32, v6: i16):
}
";

fn value_of(rt: &impl Abort, func: &Function, number: u32) -> Value
    ensures { result < length func.now.values }
{
    assert!(rt; number < 1000);
    let value = Value::from_u32(number);
    assert!(rt; value.index() < func.value_count());
    value
}

fn size_of(rt: &impl Abort, ty: Type) -> SlotSize
    ensures { FitsStackMap ty }
{
    let bytes = ty.bytes();
    assert!(rt; 1 <= bytes && bytes <= 16);
    let size = SlotSize::new(bytes);
    assert!(rt; size.is_some());
    size.unwrap()
}

fn param(rt: &impl Abort, func: &mut Function, block: Block, ty: Type) -> Result<(), Fail> {
    assert!(rt; block.index() < func.block_count());
    func.append_block_param(block, ty)?;
    Ok(())
}

fn does(
    rt: &impl Abort,
    slots: &mut StackSlots,
    func: &mut Function,
    act: Act,
) -> Result<(), Fail> {
    match act {
        Act::Gives(value, slot) => {
            let value = value_of(rt, func, value);
            size_of(rt, func.value_type(value));
            let given = slots.get_or_create_stack_slot(func, value)?;
            assert!(rt; given.index() == slot as usize);
        }
        Act::Frees(value) => {
            let value = value_of(rt, func, value);
            let size = size_of(rt, func.value_type(value));
            let slot = slots.get(value);
            assert!(rt; slot.is_some());
            slots.free_stack_slot(size, slot.unwrap())?;
        }
        Act::Has(value, slot) => {
            let found = slots.get(value_of(rt, func, value));
            assert!(rt; found.map(|slot: StackSlot| slot.as_u32()) == slot);
        }
        Act::Clears => slots.clear(),
    }
    Ok(())
}

#[test]
fn the_last_freed_is_given_first(rt: HostRuntime) -> Result<(), Fail> {
    let alloc = rt.alloc();
    let mut func = Function::new(alloc);
    let block = func.create_block()?;
    func.ensure_block_inserted(block)?;
    for ty in TYPES {
        param(&rt, &mut func, block, *ty)?;
    }
    let mut slots = StackSlots::new(alloc);
    for step in ACTS {
        does(&rt, &mut slots, &mut func, *step)?;
    }
    let shown = func.display();
    let text = format!(in alloc; "{shown}")?;
    assert!(&rt; text.as_str() == SLOTS);
    Ok(())
}

#[test]
fn other_types_are_refused(rt: HostRuntime) -> Result<(), Fail> {
    let alloc = rt.alloc();
    for ty in [I32X8, INVALID] {
        match SlotSize::try_from(ty) {
            Ok(_) => assert!(&rt; false),
            Err(refusal) => {
                let text = format!(in alloc; "{refusal}")?;
                assert!(&rt; text.as_str() == "type is not supported in stack maps");
            }
        }
    }
    assert!(&rt; SlotSize::try_from(I16) == Ok(SlotSize::Size16));
    Ok(())
}

#[test]
fn each_size_has_a_thing(rt: HostRuntime) {
    let map = SlotSizeMap::of_each([1u32, 2, 4, 8, 16]);
    for size in [
        SlotSize::Size8,
        SlotSize::Size16,
        SlotSize::Size32,
        SlotSize::Size64,
        SlotSize::Size128,
    ] {
        assert!(&rt; *map.get(size) == size.bytes());
    }
}
