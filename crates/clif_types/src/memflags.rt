//! Flags of loads and stores.
#![tactic(auto)]

ghost use Rattle.std.specs.Prelude.{◌≡◌, Some, None, true, false};
ghost use Rattle.clif_types.specs.Texts.{mem_flags_text};

use clif_entities::tables::AliasRegion;
use std::fmt;
use std::marker::Model;

/// What is known of a load or a store. It prints as its flags, each after a space:
/// ` notrap aligned region0`, and as nothing where none is set.
#[derive(Clone, Copy, PartialEq, Eq, Hash, Debug)]
pub struct MemFlagsData {
    notrap: bool,
    aligned: bool,
    alias_region: Option<AliasRegion>,
}

impl Model for MemFlagsData {
    ghost use Rattle.clif_types.specs.MemFlags.{MemFlagsShape};

    ghost Value = { MemFlagsShape };

    ghost view = { λ m. record { notrap = m.notrap; aligned = m.aligned; alias_region = m.alias_region } };

    ghost inverse = { λ m. record { notrap = m.notrap; aligned = m.aligned; alias_region = m.alias_region } };
}

impl MemFlagsData {
    /// No flag: the access may trap and may have any alignment.
    pub fn new() -> MemFlagsData
        ensures { result ≡ record { notrap = false; aligned = false; alias_region = None } }
    {
        MemFlagsData {
            notrap: false,
            aligned: false,
            alias_region: None,
        }
    }

    /// The flags of an access that is known to be good: it doesn't trap and is aligned.
    pub fn trusted() -> MemFlagsData
        ensures { result ≡ record { notrap = true; aligned = true; alias_region = None } }
    {
        MemFlagsData {
            notrap: true,
            aligned: true,
            alias_region: None,
        }
    }

    /// Whether the access is known not to trap.
    pub fn notrap(self) -> bool
        ensures { result ≡ self.notrap }
    {
        let MemFlagsData { notrap, .. } = self;
        notrap
    }

    /// Whether the address is known to have the alignment of the accessed type.
    pub fn aligned(self) -> bool
        ensures { result ≡ self.aligned }
    {
        let MemFlagsData { aligned, .. } = self;
        aligned
    }

    /// The region of memory that the access stays in, if one is named.
    pub fn alias_region(self) -> Option<AliasRegion>
        ensures { result ≡ self.alias_region }
    {
        let MemFlagsData { alias_region, .. } = self;
        alias_region
    }

    /// Says that the access doesn't trap.
    pub fn set_notrap(&mut self)
        ensures { self.new ≡ record self.old { notrap = true } }
    {
        self.notrap = true;
    }

    /// Says that the address has the alignment of the accessed type.
    pub fn set_aligned(&mut self)
        ensures { self.new ≡ record self.old { aligned = true } }
    {
        self.aligned = true;
    }

    /// Names the region of memory that the access stays in, or none.
    pub fn set_alias_region(&mut self, region: Option<AliasRegion>)
        ensures { self.new ≡ record self.old { alias_region = region } }
    {
        self.alias_region = region;
    }
}

impl fmt::Display for MemFlagsData {
    ghost output = { λ m. Some (mem_flags_text m) };

    fn fmt<W: fmt::Write>(&self, f: &mut fmt::Formatter<W>) -> fmt::Result {
        let flags = *self;
        if flags.notrap() {
            f.write_str(" notrap")?;
        }
        if flags.aligned() {
            f.write_str(" aligned")?;
        }
        match flags.alias_region() {
            Some(region) => write!(f, " {region}"),
            None => Ok(()),
        }
    }
}
