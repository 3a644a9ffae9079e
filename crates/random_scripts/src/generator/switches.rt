//! Switches, which pass nothing: each of their blocks jumps on to one that has a parameter.
use super::Generator;
use clif_calls::{Call, Name, PlainInstruction, SwitchEntry};
use clif_types::Type;
use clif_types::types::{I8, I16, I32, I64, I128};
use rand::RngExt;
use rand::seq::IndexedRandom;
use std::alloc::AllocError;

/// The types of what is switched on.
const SWITCHED: [Type; 5] = [I8, I16, I32, I64, I128];

/// Keys and values are below it.
const KEYS: i64 = 16;

/// How many blocks a switch goes to.
const CASES: usize = 3;

impl Generator {
    // The current block, which has this number, ends with a switch, and so do blocks to which control goes from there alone.
    pub(super) fn end_by_switch(&mut self, number: usize) -> Result<(), AllocError> {
        let mut blocks = Vec::new(self.alloc);
        for _ in 0..CASES {
            blocks.push(self.call(Call::CreateBlock)?)?;
        }
        let otherwise = self.call(Call::CreateBlock)?;
        let entries = self.entries(blocks.as_slice())?;
        let value = self.switched()?;
        self.call(Call::Switch {
            entries,
            value,
            otherwise,
        })?;
        for block in blocks.iter() {
            self.jump_on(*block, number)?;
        }
        self.jump_on(otherwise, number)
    }

    // Each key leads to one of the blocks, or has no case.
    fn entries(&mut self, blocks: &[Name]) -> Result<Vec<SwitchEntry>, AllocError> {
        let mut entries = Vec::new(self.alloc);
        for key in 0..KEYS {
            if self.random.random_range(0u32..2) == 0 {
                continue;
            }
            if let Some(block) = blocks.choose(&mut self.random) {
                let key = u128::from(key.unsigned_abs());
                let block = *block;
                entries.push(SwitchEntry { key, block })?;
            }
        }
        Ok(entries)
    }

    // The low bits of a value, at one of the types.
    fn switched(&mut self) -> Result<Name, AllocError> {
        let (x, y) = (self.value(), self.constant(KEYS - 1)?);
        let x = self.instruction(PlainInstruction::Band { x, y })?;
        match SWITCHED.as_slice().choose(&mut self.random) {
            Some(ty) if ty.bits() < 64 => {
                let ty = *ty;
                self.instruction(PlainInstruction::Ireduce { ty, x })
            }
            Some(ty) if ty.bits() > 64 => {
                let ty = *ty;
                self.instruction(PlainInstruction::Uextend { ty, x })
            }
            _ => Ok(x),
        }
    }

    // A block of the switch, to which no other branch leads.
    fn jump_on(&mut self, block: Name, number: usize) -> Result<(), AllocError> {
        self.call(Call::SwitchToBlock { block })?;
        self.call(Call::SealBlock { block })?;
        let destination = self.edge(number)?;
        self.call(Call::Jump { destination })?;
        Ok(())
    }
}
