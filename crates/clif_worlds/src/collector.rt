//! What moves at an outside call, and what becomes of its bits.
use crate::error::Cause;
use crate::outside::cut;
use clif_calls::Moves;
use clif_ir::Function;
use clif_opcodes::StackOpcode;
use clif_operations::{Fault, Operation, Outcome, SlotRange, Store, Typed, carry_out, kept};
use clif_types::{EntityRef, EntitySet, Type, UserStackMapEntry, Value};
use std::alloc::Global;

/// What becomes of the bits of what is moved. Zero stays zero.
#[derive(Clone, Copy)]
pub enum Mover {
    /// This is added to other numbers.
    Adds(u128),
    /// Other numbers become 1.
    MakesOne,
    /// The count of the outside calls so far, the call's own included, is added to other numbers.
    AddsCalls,
}

impl Mover {
    /// As a script says it.
    pub fn of(moves: Moves) -> Mover {
        match moves {
            Moves::Add(distance) => Mover::Adds(i128::from(distance).cast_unsigned()),
            Moves::One => Mover::MakesOne,
            Moves::Events => Mover::AddsCalls,
        }
    }

    /// What becomes of the bits of a type at the last of so many outside calls.
    pub fn moved(self, ty: Type, bits: u128, calls: usize) -> u128 {
        if bits == 0 {
            return 0;
        }
        match self {
            Mover::Adds(distance) => cut(ty, bits.wrapping_add(distance)),
            Mover::MakesOne => 1,
            Mover::AddsCalls => cut(ty, bits.wrapping_add(calls as u128)),
        }
    }

    /// Moves what lies in the slot that an entry of a stack map names, at the last of so many outside calls.
    ///
    /// # Errors
    ///
    /// Where the entry doesn't lie in memory, and where memory is refused.
    pub fn move_entry(
        self,
        alloc: Global,
        entry: UserStackMapEntry,
        store: &mut Store,
        calls: usize,
    ) -> Result<(), Cause> {
        let UserStackMapEntry { ty, slot, offset } = entry;
        let Ok(offset) = i32::try_from(offset) else {
            return Err(Cause::Fault(Fault::NoPlace));
        };
        let opcode = StackOpcode::StackLoad;
        let read = Operation::Stack {
            opcode,
            slot,
            offset,
        };
        let held = kept(ty, access(alloc, &read, ty, &[], store)?)?;
        let bits = self.moved(ty, held.bits, calls);
        let write = Operation::StackStore { slot, offset };
        access(alloc, &write, ty, &[Typed { ty, bits }], store)?;
        Ok(())
    }

    /// Moves the values of a set that a function has and that were given, at the last of so many outside calls. Aliases
    /// never are given.
    pub fn move_members(
        self,
        members: &EntitySet<Value>,
        func: &Function,
        values: &mut [Option<u128>],
        calls: usize,
    ) {
        let mut members = members.iter();
        while let Some(member) = members.next() {
            self.move_member(member, func, values, calls);
        }
    }

    fn move_member(self, value: Value, func: &Function, values: &mut [Option<u128>], calls: usize) {
        if value.index() >= func.value_count() {
            return;
        }
        let ty = func.value_type(value);
        if let Some(Some(bits)) = values.get_mut(value.index()) {
            *bits = self.moved(ty, *bits, calls);
        }
    }
}

// Reads or writes a stack slot. The answer is what was read.
fn access(
    alloc: Global,
    operation: &Operation,
    ty: Type,
    operands: &[Typed],
    store: &mut Store,
) -> Result<u128, Cause> {
    match carry_out(alloc, operation, ty, operands, &[], store)? {
        (_, Outcome::Gave(bits)) => Ok(bits.first().copied().unwrap_or(0)),
        _ => Err(Cause::Fault(Fault::NoPlace)),
    }
}

/// What a script is run beside: a collector, and a finished function that keeps in stack slots what this moves.
#[derive(Clone, Copy)]
pub struct Beside<'a> {
    /// What becomes of marked variables and of tracked names at an outside call, behind its arguments and before what it gives, if
    /// anything does.
    pub mover: Option<Mover>,
    /// The stack slots of the function that no call of the script made. No access of the script touches them.
    pub hidden: &'a [SlotRange],
}

impl Beside<'_> {
    /// Nothing moves, and nothing is hidden.
    pub const NOTHING: Beside<'static> = Beside {
        mover: None,
        hidden: &[],
    };
}

/// What an outside call of a function moves, behind its arguments and before what it gives. Calls of the C library move nothing.
#[derive(Clone, Copy)]
pub enum Collector<'a> {
    /// Nothing.
    Nothing,
    /// What lies in the slots that the call's stack map names, in the order of its entries, by their types.
    ByMaps(Mover),
    /// Each value of this set that was given and isn't an alias, once.
    OverSet(&'a EntitySet<Value>, Mover),
}
