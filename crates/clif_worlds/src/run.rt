//! What a run is given, and how it ends.
use crate::error::Cause;
use crate::outside::Event;
use clif_operations::arithmetic::greatest;
use clif_operations::{Memory, Slots, Store, Typed, kept};
use clif_types::{PointerWidth, TrapCode, Type};
use std::alloc::{AllocError, Global};

/// How many steps a run has at most if nobody says it.
pub const STEPS: u64 = 100_000;

/// What a run is given.
#[derive(Clone, Copy)]
pub struct World<'a, O> {
    /// The bits of the arguments.
    pub arguments: &'a [u128],
    /// Memory as the run begins.
    pub memory: &'a Memory,
    /// The width of a pointer.
    pub pointer_width: PointerWidth,
    /// The accessible address from which on the stack slots lie, in order, each at the next address that its alignment
    /// allows.
    pub slots: u64,
    /// Who answers outside calls.
    pub outside: &'a O,
    /// Whether the blocks that are passed are kept.
    pub is_traced: bool,
}

impl<O> World<'_, O> {
    /// An argument for a parameter of a type.
    ///
    /// # Errors
    ///
    /// Where the type has fewer bits than the argument, or more than are kept.
    pub fn argument(&self, ty: Type, bits: u128) -> Result<Typed, Cause> {
        if bits > greatest(ty) {
            return Err(Cause::Arguments);
        }
        Ok(kept(ty, bits)?)
    }

    /// Memory as the run begins, with no slot placed in it yet.
    ///
    /// # Errors
    ///
    /// Where memory is refused.
    pub fn store(&self, alloc: Global) -> Result<Store, Cause> {
        Ok(Store {
            memory: self.memory.clone()?,
            slots: Slots::new(alloc, self.pointer_width, self.slots),
        })
    }

    /// No block, as the run begins.
    pub fn trace(&self, alloc: Global) -> Trace {
        Trace {
            is_kept: self.is_traced,
            blocks: Vec::new(alloc),
        }
    }
}

/// The blocks that a run passed so far, if they are kept.
#[derive(Drop)]
pub struct Trace {
    is_kept: bool,
    /// Their numbers, in order.
    pub blocks: Vec<usize>,
}

impl Trace {
    /// The run enters the block with this number.
    ///
    /// # Errors
    ///
    /// Where memory is refused.
    pub fn pass(&mut self, number: usize) -> Result<(), AllocError> {
        if self.is_kept {
            self.blocks.push(number)?;
        }
        Ok(())
    }
}

/// How a run ended.
#[derive(PartialEq, Eq, Drop)]
pub enum End {
    /// With these bits.
    Returned(Vec<u128>),
    /// With this trap.
    Trapped(TrapCode),
    /// There is nothing to run: no block is the entry, or it has no terminator.
    Stuck,
    /// It hasn't, within the steps that it may make.
    OutOfSteps,
}

/// How often a run of a function chose its way.
#[derive(Clone, Copy, PartialEq, Eq, Debug)]
pub struct Choices {
    /// The conditional branches that it took.
    pub branches: u64,
    /// The jump tables by which it went.
    pub tables: u64,
}

impl Choices {
    /// Not at all.
    pub const NONE: Choices = Choices {
        branches: 0,
        tables: 0,
    };
}

/// What a run showed: its outside calls, how it ended, what is in memory then, and which blocks it passed.
#[derive(PartialEq, Eq, Drop)]
pub struct Ending {
    /// Its outside calls, in order.
    pub events: Vec<Event>,
    /// How it ended.
    pub end: End,
    /// What is in memory then.
    pub memory: Memory,
    /// The numbers of the blocks that it passed, in order; none unless the world is traced.
    pub passed: Vec<usize>,
}
