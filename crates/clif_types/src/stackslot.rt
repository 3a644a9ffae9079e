//! Stack slots.
#![tactic(auto)]

ghost use Rattle.std.specs.Prelude.{◌≡◌, ◌<◌, ◌++◌, Some, codes};
ghost use Rattle.std.specs.Fmt.{decimal};
ghost use Rattle.clif_types.specs.StackSlot.{align_of};
ghost use Rattle.clif_types.specs.Texts.{stack_slot_text};

use std::fmt;
use std::marker::Model;

/// A stack slot of a fixed size. It prints as `explicit_slot 4, align = 4`, and as
/// `explicit_slot 4` where the alignment is 1.
#[derive(Clone, Copy, PartialEq, Eq, Hash, Debug)]
pub struct StackSlotData {
    size: u32,
    align_shift: u8,
}

impl Model for StackSlotData {
    ghost use Rattle.std.specs.Prelude.{◌<◌};
    ghost use Rattle.clif_types.specs.StackSlot.{StackSlotShape};

    ghost Value = { StackSlotShape };

    ghost view = { λ s. record { size = s.size; align_shift = s.align_shift } };

    ghost invariant = { λ s. s.align_shift < 32 };

    ghost inverse = { λ s. record { size = s.size; align_shift = s.align_shift } };
}

impl StackSlotData {
    /// A slot of `size` bytes, aligned to 2^`align_shift` bytes, at most 2^31.
    pub fn new(size: u32, align_shift: u8) -> StackSlotData
        requires { align_shift < 32 }
        ensures { result ≡ record { size = size; align_shift = align_shift } }
    {
        StackSlotData { size, align_shift }
    }

    /// The size in bytes.
    pub fn size(self) -> u32
        ensures { result ≡ self.size }
    {
        let StackSlotData { size, .. } = self;
        size
    }

    /// The number of low bits that are zero in the slot's address.
    pub fn align_shift(self) -> u8
        ensures shift { result ≡ self.align_shift }
        ensures bounded { result < 32 }
    {
        let StackSlotData { align_shift, .. } = self;
        align_shift
    }

    /// The alignment in bytes.
    pub fn align(self) -> u32
        ensures { result ≡ align_of self }
    {
        1 << self.align_shift
    }
}

impl fmt::Display for StackSlotData {
    ghost output = { λ s. Some (stack_slot_text s) };

    fn fmt<W: fmt::Write>(&self, f: &mut fmt::Formatter<W>) -> fmt::Result {
        let slot = *self;
        let size = slot.size();
        write!(f, "explicit_slot {size}")?;
        if slot.align_shift() == 0 {
            return Ok(());
        }
        let align = slot.align();
        write!(f, ", align = {align}")
    }
}

/// A stack slot whose size is known only when the program runs. It prints as
/// `explicit_dynamic_slot dt0`.
#[derive(Clone, Copy, PartialEq, Eq, Hash, Debug)]
pub struct DynamicStackSlotData {
    /// The number of its dynamic type.
    pub dyn_ty: u32,
}

impl fmt::Display for DynamicStackSlotData {
    ghost output = { λ s. Some (codes "explicit_dynamic_slot dt" ++ decimal s.dyn_ty) };

    fn fmt<W: fmt::Write>(&self, f: &mut fmt::Formatter<W>) -> fmt::Result {
        let dyn_ty = self.dyn_ty;
        write!(f, "explicit_dynamic_slot dt{dyn_ty}")
    }
}
