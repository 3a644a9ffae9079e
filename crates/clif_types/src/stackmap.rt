//! Stack maps.
#![tactic(auto)]

ghost use Rattle.std.specs.Prelude.{Some};
ghost use Rattle.clif_types.specs.Texts.{stack_map_entry_text};

use crate::types::Type;
use clif_entities::tables::StackSlot;
use std::fmt;

/// A value that a collector finds, and may move, while a call runs. It prints as `i32 @ ss0+0`.
#[derive(Clone, Copy, PartialEq, Eq, Hash, Debug)]
pub struct UserStackMapEntry {
    /// The type of the value.
    pub ty: Type,
    /// The slot that holds it.
    pub slot: StackSlot,
    /// Where in the slot it begins, in bytes.
    pub offset: u32,
}

impl fmt::Display for UserStackMapEntry {
    ghost output = { λ e. Some (stack_map_entry_text e) };

    fn fmt<W: fmt::Write>(&self, f: &mut fmt::Formatter<W>) -> fmt::Result {
        let ty = self.ty;
        let slot = self.slot;
        let offset = self.offset;
        write!(f, "{ty} @ {slot}+{offset}")
    }
}
