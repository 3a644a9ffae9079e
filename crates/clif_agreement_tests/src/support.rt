//! Runs of scripts and of the functions that are built of them.
#![tactic(auto)]

use clif_builder::FunctionBuilderContext;
use clif_interpreter::{function, script};
use clif_ir::Function;
use clif_script::replay;
use clif_text::{Script, read};
use clif_worlds::outside::Zeros;
use clif_worlds::{End, Ending, Memory, Outside, World};
use std::alloc::Global;
use std::process::Abort;
use std::test::Fail;

/// How many bytes are accessible, from address 4096 on.
pub const SIZE: usize = 32;

/// How many steps a run has at most.
pub const STEPS: u64 = 1000;

/// So many accessible bytes from an address on, which begin with these, and are zero behind them.
pub fn memory_of(alloc: Global, start: u64, size: usize, bytes: &[u8]) -> Result<Memory, Fail> {
    let mut memory = Memory::zeros(alloc, start, size)?;
    for (place, byte) in bytes.iter().enumerate() {
        memory.put(place, *byte);
    }
    Ok(memory)
}

/// Memory whose accessible bytes are all zero.
pub fn zeros(alloc: Global) -> Result<Memory, Fail> {
    Ok(Memory::zeros(alloc, 4096, SIZE)?)
}

/// A text that is a script.
pub fn script_of(alloc: Global, text: &str) -> Result<Script, Fail> {
    match read(alloc, text) {
        Ok(script) => Ok(script),
        Err(_) => Err("no script")?,
    }
}

/// The function that a script builds.
pub fn built(alloc: Global, text: &Script) -> Result<Function, Fail> {
    let (name, signature) = (text.name.clone()?, text.signature.clone()?);
    let mut ctx = FunctionBuilderContext::new(alloc);
    let calls = text.calls.as_slice();
    Ok(replay(alloc, calls, name, signature, &mut ctx, text.config, None)?)
}

/// What a run of a script or of its function is given. Stack slots lie in memory, too.
pub fn world_of<'a, O: Outside>(
    text: &Script,
    arguments: &'a [u128],
    memory: &'a Memory,
    outside: &'a O,
) -> World<'a, O> {
    World {
        arguments,
        memory,
        pointer_width: text.config.pointer_width,
        slots: memory.start(),
        outside,
        is_traced: false,
    }
}

/// A script and its function, in a world, end so within so many steps.
pub fn both_end<O: Outside>(
    rt: &impl Abort,
    alloc: Global,
    text: &Script,
    func: &Function,
    world: &World<'_, O>,
    steps: u64,
    ending: &Ending,
) -> Result<(), Fail> {
    let calls = text.calls.as_slice();
    let shown = script::run(alloc, calls, &text.signature, world, steps)?;
    assert!(rt; shown == *ending);
    let shown = function::run(alloc, func, world, steps)?;
    assert!(rt; shown == *ending);
    Ok(())
}

/// A script, and the function that is built of it.
#[derive(Drop)]
pub struct Pair {
    pub script: Script,
    pub func: Function,
}

impl Pair {
    /// The script of this text.
    pub fn new(alloc: Global, text: &str) -> Result<Pair, Fail> {
        let script = script_of(alloc, text)?;
        let func = built(alloc, &script)?;
        Ok(Pair { script, func })
    }

    /// Both end so, with this in memory then, where they get these arguments and this memory, and call nothing outside.
    pub fn ends(
        &self,
        rt: &impl Abort,
        alloc: Global,
        arguments: &[u128],
        before: &Memory,
        end: End,
        after: Memory,
    ) -> Result<(), Fail> {
        let ending = Ending {
            events: Vec::new(alloc),
            end,
            memory: after,
            passed: Vec::new(alloc),
        };
        let world = world_of(&self.script, arguments, before, &Zeros);
        both_end(rt, alloc, &self.script, &self.func, &world, STEPS, &ending)
    }

    /// The same where memory is zero and stays so.
    pub fn ends_in_zeros(
        &self,
        rt: &impl Abort,
        alloc: Global,
        arguments: &[u128],
        end: End,
    ) -> Result<(), Fail> {
        let before = zeros(alloc)?;
        self.ends(rt, alloc, arguments, &before, end, zeros(alloc)?)
    }
}

/// These values are returned.
pub fn returned(alloc: Global, values: &[u128]) -> Result<End, Fail> {
    let mut returned = Vec::new(alloc);
    returned.extend_from_slice(values)?;
    Ok(End::Returned(returned))
}
