//! The answers that a script's line `region` gives, asked for the alias regions of accesses to stack slots.
#![tactic(auto)]

ghost use Rattle.std.specs.Prelude.{◌≡◌};
ghost use Rattle.clif_region_kinds.specs.Kinds.{IsAnswered, IsInterned, user_id_of};

use clif_types::{AliasRegion, AliasRegionData, AliasRegionSet, StackSlot};

/// How a callback answers that is asked for the alias region of each access to a stack slot.
#[derive(Clone, Copy, PartialEq, Eq, Debug)]
pub enum RegionKind {
    /// No region.
    Refuse,
    /// The region of this user id, which is added if it isn't there; none where that is refused.
    Intern(u32),
    /// The same, by the slot's number.
    Slot,
    /// No region, though that of the slot's number is added.
    SlotNone,
    /// This region, whether it is there or not.
    Const(AliasRegion),
    /// The region of this user id, as for `Intern`, at the first call, the third and so on; at the others none.
    Alternate(u32),
}

impl RegionKind {
    /// The answer for an access to this slot, after so many calls: the region, if there is one.
    pub fn ask(&self, calls: u32, set: &mut AliasRegionSet, slot: StackSlot) -> Option<AliasRegion>
        ensures { IsAnswered self.now calls slot set.old result set.new }
    {
        let interned = intern(set, self.user_id(calls, slot));
        match self {
            RegionKind::Const(region) => Some(*region),
            RegionKind::SlotNone => None,
            _ => interned,
        }
    }

    // The user id of the region that is added.
    fn user_id(&self, calls: u32, slot: StackSlot) -> Option<u32>
        ensures { result ≡ user_id_of self.now calls slot }
    {
        match self {
            RegionKind::Intern(user_id) => Some(*user_id),
            RegionKind::Slot | RegionKind::SlotNone => Some(slot.as_u32()),
            RegionKind::Alternate(user_id) if calls % 2 == 0 => Some(*user_id),
            RegionKind::Alternate(_) | RegionKind::Refuse | RegionKind::Const(_) => None,
        }
    }
}

// The region of a user id, if there is one; it is added if it isn't there.
fn intern(set: &mut AliasRegionSet, user_id: Option<u32>) -> Option<AliasRegion>
    ensures { IsInterned user_id set.old result set.new }
{
    match set.insert(AliasRegionData { user_id: user_id? }) {
        Ok(region) => Some(region),
        Err(_) => None,
    }
}
