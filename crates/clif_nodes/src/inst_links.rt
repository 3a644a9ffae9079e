//! The links from each instruction of a block to the one before it and to the one after it.
ghost use Rattle.std.specs.Prelude.{◌≡◌, ◌<◌, length, IfSome};
ghost use Rattle.clif_nodes.specs.Links.{linked_before, linked_behind, links_at};

use clif_types::{EntityRef, Inst};
use std::marker::Model;

// Stands for no instruction. No instruction has this number.
const NO_INST: u32 = 0xffff_ffff;

/// An instruction or none, in four bytes.
#[derive(Drop)]
pub struct InstLink {
    number: u32,
}

const _: () = prove!(size_of::<InstLink>() == 4);

impl Model for InstLink {
    ghost use Rattle.std.specs.Prelude.{ℕ, Option};
    ghost use Rattle.clif_nodes.specs.Packed.{inst_of_number};

    ghost Value = { Option ℕ };

    ghost view = { λ l. inst_of_number l.number };
}

impl InstLink {
    /// A link to an instruction, or to none.
    pub fn new(inst: Option<Inst>) -> Self
        ensures { result ≡ inst }
    {
        match inst {
            None => InstLink { number: NO_INST },
            Some(inst) => InstLink {
                number: inst.as_u32(),
            },
        }
    }

    /// The instruction, if there is one.
    pub fn get(&self) -> Option<Inst>
        ensures { result ≡ self.now }
    {
        if self.number == NO_INST {
            return None;
        }
        Some(Inst::from_u32(self.number))
    }
}

/// The neighbours of an instruction in its block.
#[derive(Drop)]
pub struct InstLinks {
    pub previous: InstLink,
    pub next: InstLink,
}

const _: () = prove!(size_of::<InstLinks>() == 8);

impl InstLinks {
    /// The links of an instruction between these two.
    pub fn new(previous: Option<Inst>, next: Option<Inst>) -> Self
        ensures { result ≡ record { previous = previous; next = next } }
    {
        let previous = InstLink::new(previous);
        let next = InstLink::new(next);
        InstLinks { previous, next }
    }
}

/// The instruction after `inst` in its block, if `inst` isn't the last.
pub fn next_of(links: &[InstLinks], inst: Inst) -> Option<Inst>
    requires { inst < length links.now }
    ensures { result ≡ (links_at links.now inst).next }
{
    links[inst.index()].next.get()
}

/// The instruction before `inst` in its block, if `inst` isn't the first.
pub fn previous_of(links: &[InstLinks], inst: Inst) -> Option<Inst>
    requires { inst < length links.now }
    ensures { result ≡ (links_at links.now inst).previous }
{
    links[inst.index()].previous.get()
}

/// Makes `inst` what follows the instruction before it, if there is one.
pub fn link_from_previous(links: &mut [InstLinks], inst: Inst)
    requires exists { inst < length links.old }
    requires previous_exists { IfSome (links_at links.old inst).previous (λ previous. previous < length links.old) }
    ensures { links.new ≡ linked_behind links.old (links_at links.old inst).previous inst }
{
    let Some(previous) = previous_of(links, inst) else {
        return;
    };
    links[previous.index()].next = InstLink::new(Some(inst));
}

/// Makes `inst` what comes before the instruction after it, if there is one.
pub fn link_from_next(links: &mut [InstLinks], inst: Inst)
    requires exists { inst < length links.old }
    requires next_exists { IfSome (links_at links.old inst).next (λ next. next < length links.old) }
    ensures { links.new ≡ linked_before links.old (links_at links.old inst).next inst }
{
    let Some(next) = next_of(links, inst) else {
        return;
    };
    links[next.index()].previous = InstLink::new(Some(inst));
}
