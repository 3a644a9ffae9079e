//! Random scripts whose runs all end, and name nothing before it is given.
//!
//! A script has one variable that counts blocks down, and traps when there are no more, and others that it uses and
//! assigns at random, of which some are marked. A block names its parameter and what was given in it, and asks for stack maps for
//! some of that. A block isn't sealed before the last block is filled that may lead to it.
mod helpers;
mod marks;
mod steps;
mod switches;
mod terminators;

use crate::generator::marks::Given;
use clif_calls::{Call, EntryCall, ImportedFunction, Name, PlainInstruction};
use clif_records::Variable;
use clif_types::types::I64;
use clif_types::{AbiParam, CallConv, ExternalName, Signature, TrapCode};
use rand::seq::IndexedRandom;
use rand::{RngExt, SeedableRng};
use rand_pcg::Pcg32;
use std::alloc::{AllocError, Global};

/// The variable that counts blocks down.
const FUEL: usize = 0;

/// How many blocks a run enters before it traps.
const BLOCKS_ENTERED: i64 = 12;

/// How many variables there are.
const VARIABLES: usize = 4;

/// A block that a branch may lead to.
#[derive(Clone, Copy)]
struct Target {
    block: Name,
    // its parameter
    param: Name,
    // the last block, by its number, that may lead to it
    last: usize,
}

/// A script that is being made.
#[derive(Drop)]
struct Generator {
    alloc: Global,
    random: Pcg32,
    calls: Vec<Call>,
    targets: Vec<Target>,
    // for each variable whether it is marked
    marked: Vec<bool>,
    // what was given in the current block
    values: Vec<Given>,
    // what was given first in the current block
    first: Name,
    // the target that is sealed behind all blocks
    open: Name,
    // the function that is called, and its signature
    function: Name,
    signature: Name,
}

/// What each function takes and returns.
///
/// # Errors
///
/// Memory is refused.
pub fn signature(alloc: Global) -> Result<Signature, AllocError> {
    let mut signature = Signature::new(alloc, CallConv::SystemV);
    signature.params.push(AbiParam::new(I64))?;
    signature.params.push(AbiParam::new(I64))?;
    signature.returns.push(AbiParam::new(I64))?;
    signature.returns.push(AbiParam::new(I64))?;
    Ok(signature)
}

/// The script of a seed: the same seed has the same script.
///
/// # Errors
///
/// Memory is refused.
pub fn random_script(alloc: Global, seed: u64) -> Result<Vec<Call>, AllocError> {
    let nowhere = Name {
        place: 0,
        answer: 0,
    };
    let mut generator = Generator {
        alloc,
        random: Pcg32::seed_from_u64(seed),
        calls: Vec::new(alloc),
        targets: Vec::new(alloc),
        marked: Vec::new(alloc),
        values: Vec::new(alloc),
        first: nowhere,
        open: nowhere,
        function: nowhere,
        signature: nowhere,
    };
    generator.declare()?;
    let entry = generator.call(Call::CreateBlock)?;
    generator.create_targets()?;
    generator.fill_entry(entry)?;
    generator.fill_targets()?;
    generator.call(Call::SealAllBlocks)?;
    Ok(generator.calls)
}

impl Generator {
    // Makes a call; answers the name of its answer 0.
    fn call(&mut self, call: Call) -> Result<Name, AllocError> {
        let place = self.calls.len();
        if self.calls.push(call).is_err() {
            return Err(AllocError);
        }
        Ok(Name { place, answer: 0 })
    }

    // Makes an instruction with one result; answers that.
    fn instruction(&mut self, instruction: PlainInstruction) -> Result<Name, AllocError> {
        let name = self.call(Call::plain(instruction))?;
        let place = name.place;
        Ok(Name { place, answer: 1 })
    }

    fn constant(&mut self, imm: i64) -> Result<Name, AllocError> {
        self.instruction(PlainInstruction::Iconst { ty: I64, imm })
    }

    // One of the values that were given in the current block.
    fn value(&mut self) -> Name {
        match self.values.as_slice().choose(&mut self.random) {
            Some(given) => given.name,
            None => self.first,
        }
    }

    // The signature, the function that is called, and the variables.
    fn declare(&mut self) -> Result<(), AllocError> {
        let signature = signature(self.alloc)?;
        let signature = self.call(Call::Entry(EntryCall::ImportSignature(signature)))?;
        self.signature = signature;
        self.function = self.call(Call::Entry(EntryCall::ImportFunction(ImportedFunction {
            name: ExternalName::user(0, 1),
            signature,
            colocated: false,
            patchable: false,
        })))?;
        self.declare_variables()
    }

    // The blocks that branches lead to, with a parameter each.
    fn create_targets(&mut self) -> Result<(), AllocError> {
        let count = self.random.random_range(2usize..7);
        for number in 0..count {
            let block = self.call(Call::CreateBlock)?;
            let param = self.call(Call::AppendBlockParam { block, ty: I64 })?;
            let mut last = count;
            if number == 0 {
                self.open = block;
            } else {
                last = self.random.random_range(0usize..7);
            }
            self.targets.push(Target { block, param, last })?;
        }
        Ok(())
    }

    // The entry names its parameters, and says how many blocks may be entered.
    fn fill_entry(&mut self, entry: Name) -> Result<(), AllocError> {
        let params = self.call(Call::AppendBlockParamsForFunctionParams { block: entry })?;
        self.call(Call::SwitchToBlock { block: entry })?;
        self.call(Call::SealBlock { block: entry })?;
        self.begin(params)?;
        self.give(Name {
            place: params.place,
            answer: 1,
        })?;
        let value = self.constant(BLOCKS_ENTERED)?;
        let variable = Variable::new(FUEL);
        self.call(Call::DefVar { variable, value })?;
        self.fill(0)
    }

    fn fill_targets(&mut self) -> Result<(), AllocError> {
        for number in 0..self.targets.len() {
            if let Some(target) = self.targets.get(number) {
                let target = *target;
                self.call(Call::SwitchToBlock {
                    block: target.block,
                })?;
                self.begin(target.param)?;
                self.burn()?;
                self.fill(number.saturating_add(1))?;
            }
        }
        Ok(())
    }

    // A block begins with its first value.
    fn begin(&mut self, first: Name) -> Result<(), AllocError> {
        self.first = first;
        self.values.clear();
        self.give(first)
    }

    // One block fewer may be entered.
    fn burn(&mut self) -> Result<(), AllocError> {
        let variable = Variable::new(FUEL);
        let x = self.call(Call::UseVar { variable })?;
        let y = self.constant(1)?;
        let value = self.instruction(PlainInstruction::Isub { x, y })?;
        self.call(Call::DefVar { variable, value })?;
        let code = TrapCode::User(1);
        self.call(Call::plain(PlainInstruction::Trapz { c: value, code }))?;
        Ok(())
    }

    // The current block, which has this number, gets some steps and a terminator. Then blocks are sealed that no later block leads to.
    fn fill(&mut self, number: usize) -> Result<(), AllocError> {
        for _ in 0..self.random.random_range(0usize..6) {
            self.step()?;
        }
        self.end(number)?;
        self.seal(number)
    }

    fn seal(&mut self, number: usize) -> Result<(), AllocError> {
        for place in 1..self.targets.len() {
            if let Some(target) = self.targets.get(place) {
                let target = *target;
                if target.last == number {
                    self.call(Call::SealBlock {
                        block: target.block,
                    })?;
                }
            }
        }
        Ok(())
    }
}
