//! Regions of memory.
#![tactic(auto)]

ghost use Rattle.std.specs.Prelude.{◌≡◌, ◌<◌, ◌++◌, Some, IfSome, codes, length};
ghost use Rattle.std.specs.Fmt.{decimal};
ghost use Rattle.clif_types.specs.AliasRegions.{place_of};

use crate::error::BuildError;
use clif_entities::tables::AliasRegion;
use std::alloc::Global;
use std::fmt;
use std::marker::Model;

/// A region of memory that is apart from every other region. It prints as `user 7`.
#[derive(Clone, Copy, PartialEq, Eq, Hash, Debug)]
pub struct AliasRegionData {
    /// A number that only the program that makes the function understands.
    pub user_id: u32,
}

impl fmt::Display for AliasRegionData {
    ghost output = { λ r. Some (codes "user " ++ decimal r.user_id) };

    fn fmt<W: fmt::Write>(&self, f: &mut fmt::Formatter<W>) -> fmt::Result {
        let user_id = self.user_id;
        write!(f, "user {user_id}")
    }
}

/// The place of a region with this data, if there is one.
fn place_of(regions: &[AliasRegionData], region: AliasRegionData) -> Option<usize>
    ensures place { result ≡ place_of regions.now region }
    ensures bounded { IfSome result (λ place. place < length regions.now) }
{
    regions.iter().position(|r| region.user_id == r.user_id)
}

/// The regions that a function names. Equal data is one region.
///
/// A region is looked for from the first to the last: a function names few, often one.
#[derive(Debug, Drop)]
pub struct AliasRegionSet {
    regions: Vec<AliasRegionData>,
    refusal: Option<BuildError>,
}

impl Model for AliasRegionSet {
    ghost use Rattle.std.specs.Prelude.{◌-◌, ◌^◌, ◌≤◌, length};
    ghost use Rattle.clif_types.specs.AliasRegions.{AliasRegionTable, MayRefuse};

    ghost Value = { AliasRegionTable };

    ghost view = { λ s. record { regions = s.regions.items; refusal = s.refusal } };

    ghost invariant = { λ s. (length s.regions.items ≤ 2 ^ 32 - 1) × MayRefuse s.regions.items s.refusal };
}

impl AliasRegionSet {
    ghost use Rattle.std.specs.Prelude.{◌≡◌, ◌-◌, ◌^◌, ◌<◌, ◌≤◌, ◌↔◌, [], None, Some, false, length, slice_get, IfOk, IfErr, IsErrOf, IsOk, IsTrue, OnOk};
    ghost use Rattle.clif_types.specs.AliasRegions.{has_region, region_of, with_region, with_refusal, MayRefuse};

    /// The set with no region.
    pub fn new(alloc: Global) -> AliasRegionSet
        ensures { result ≡ record { regions = []; refusal = None } }
    {
        AliasRegionSet {
            regions: Vec::new(alloc),
            refusal: None,
        }
    }

    /// The region of this data, which is added if it isn't there.
    ///
    /// # Errors
    ///
    /// `Memory`, where memory is refused, and `Full`, where 2^32 - 1 other regions are there. No region is added
    /// then, and the set keeps the first such refusal (`refusal`).
    pub fn insert(&mut self, region: AliasRegionData) -> Result<AliasRegion, BuildError>
        ensures region { IfOk result (λ number. number ≡ region_of self.old region) }
        ensures ok { OnOk result (self.new ≡ with_region self.old region) }
        ensures known { IsTrue (has_region self.old region) → IsOk result }
        ensures full { IsErrOf result BuildError.Full ↔ ((has_region self.old region ≡ false) × (length self.old.regions ≡ 2 ^ 32 - 1)) }
        ensures never_failed { ¬ IsErrOf result BuildError.Failed }
        ensures refused { IfErr result (λ e. self.new ≡ with_refusal self.old e) }
    {
        if let Some(place) = place_of(self.regions.as_slice(), region) {
            return Ok(AliasRegion::from_u32(place as u32));
        }
        let place = self.regions.len();
        if place == u32::MAX as usize {
            return Err(self.refuse(BuildError::Full));
        }
        match self.regions.push(region) {
            Ok(()) => Ok(AliasRegion::from_u32(place as u32)),
            Err(_) => Err(self.refuse(BuildError::Memory)),
        }
    }

    /// Keeps the first refusal, and answers this one.
    fn refuse(&mut self, refusal: BuildError) -> BuildError
        requires { MayRefuse self.now.regions (Some refusal) }
        ensures kept { self.new ≡ with_refusal self.old refusal }
        ensures answer { result ≡ refusal }
    {
        if self.refusal.is_none() {
            self.refusal = Some(refusal);
        }
        refusal
    }

    /// The law that the first refusal is `Memory`, or `Full` with 2^32 - 1 regions.
    pub fn law_refusal(&self)
        ensures { MayRefuse self.now.regions self.now.refusal }
    {
        let _ = &self.refusal;
    }

    /// The first refusal of an `insert`, if there was one.
    pub fn refusal(&self) -> Option<BuildError>
        ensures { result ≡ self.now.refusal }
    {
        let AliasRegionSet { refusal, .. } = self;
        *refusal
    }

    /// The data of a region, if the set has it.
    pub fn get(&self, region: AliasRegion) -> Option<AliasRegionData>
        ensures { result ≡ slice_get self.now.regions region }
    {
        self.regions.get(region.as_u32() as usize).copied()
    }

    /// The regions, by rising number.
    pub fn as_slice(&self) -> &[AliasRegionData]
        ensures { result.now ≡ self.now.regions }
    {
        &self.regions[..]
    }
}
