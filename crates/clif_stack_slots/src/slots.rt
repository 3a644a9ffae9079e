//! The slots of spilled values.
#![tactic(auto)]

ghost use Rattle.std.specs.Prelude.{◌≡◌, ◌<◌, length, Some, None};
ghost use Rattle.std.specs.FinMap as map;
ghost use Rattle.clif_ir.specs.Body.{value_at};
ghost use Rattle.clif_stack_slots.specs.Sizes.{FitsStackMap, size_of_type};
ghost use Rattle.clif_stack_slots.specs.Slots.{assigned_in, free_in, FreesSlot, GivesSlot, HasNone, TakesSlot};
ghost use Rattle.clif_stack_slots.specs.declared.size.SlotSize.{SlotSize};

use crate::size::{SlotSize, SlotSizeMap};
use clif_ir::function::Function;
use clif_types::{BuildError, StackSlot, StackSlotData, Value};
use std::alloc::Global;
use std::collections::HashMap;

/// The slot of each spilled value, and the slots that are free.
///
/// A value keeps its slot here also after the slot was freed, so that each use of it finds the same one.
#[derive(Drop)]
pub struct StackSlots {
    slots: HashMap<Value, StackSlot>,
    free: SlotSizeMap<Vec<StackSlot>>,
}

impl StackSlots {
    /// No value has a slot, and none is free.
    pub fn new(alloc: Global) -> StackSlots
        ensures { HasNone result }
    {
        StackSlots {
            slots: HashMap::new(alloc),
            free: SlotSizeMap::of_each([
                Vec::new(alloc),
                Vec::new(alloc),
                Vec::new(alloc),
                Vec::new(alloc),
                Vec::new(alloc),
            ]),
        }
    }

    /// The slot of a value, if it has one.
    pub fn get(&self, value: Value) -> Option<StackSlot>
        ensures { result ≡ map.get (assigned_in self.now) value }
    {
        self.slots.get(&value).copied()
    }

    /// The slot of a value: the one that it has, else the one of its size that was freed last, else a new one of the
    /// function.
    ///
    /// # Errors
    ///
    /// `Memory`, or `Full` where the function has 2^32 - 1 stack slots. All is as it was then.
    pub fn get_or_create_stack_slot(
        &mut self,
        func: &mut Function,
        value: Value,
    ) -> Result<StackSlot, BuildError>
        requires exists { value < length func.now.values }
        requires fits { FitsStackMap (value_at func.now value).ty }
        ensures { (size : SlotSize) → size_of_type (value_at func.old value).ty ≡ Some size → GivesSlot value size self.old self.new func.old func.new result }
    {
        match self.get(value) {
            Some(slot) => Ok(slot),
            None => {
                let size = SlotSize::unwrap_new(func.value_type(value).bytes());
                self.give(func, value, size)
            }
        }
    }

    // Gives a value of a size, which has none, a slot. After an error all is as it was.
    fn give(
        &mut self,
        func: &mut Function,
        value: Value,
        size: SlotSize,
    ) -> Result<StackSlot, BuildError>
        requires { map.get (assigned_in self.now) value ≡ None }
        ensures { GivesSlot value size self.old self.new func.old func.new result }
    {
        self.slots.reserve(1)?;
        let slot = self.take(func, size)?;
        self.slots.insert(value, slot)?;
        Ok(slot)
    }

    /// Makes a slot free for another value of its size.
    ///
    /// # Errors
    ///
    /// `Memory`. All is as it was then.
    pub fn free_stack_slot(&mut self, size: SlotSize, slot: StackSlot) -> Result<(), BuildError>
        ensures { FreesSlot size slot self.old self.new result }
    {
        self.free.get_mut(size).push(slot)?;
        Ok(())
    }

    /// Forgets all slots, and keeps the memory.
    pub fn clear(&mut self)
        ensures { HasNone self.new }
    {
        self.slots.clear();
        self.free.get_mut(SlotSize::Size8).clear();
        self.free.get_mut(SlotSize::Size16).clear();
        self.free.get_mut(SlotSize::Size32).clear();
        self.free.get_mut(SlotSize::Size64).clear();
        self.free.get_mut(SlotSize::Size128).clear();
    }

    // A slot of a size: the one that was freed last, else a new one. After an error all is as it was.
    fn take(&mut self, func: &mut Function, size: SlotSize) -> Result<StackSlot, BuildError>
        ensures slots { self.new.slots ≡ self.old.slots }
        ensures taken { TakesSlot size (free_in self.old) (free_in self.new) func.old func.new result }
    {
        match self.free.get_mut(size).pop() {
            Some(slot) => Ok(slot),
            None => func.create_sized_stack_slot(StackSlotData::new(
                size.bytes(),
                size.align_shift(),
            )),
        }
    }
}
