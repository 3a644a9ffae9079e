//! Random functions, before and after they are spilled, run side by side: the one under a collector over what is recorded, the
//! other under a collector by stack maps.
#![tactic(auto)]

use crate::counts::{Spilled, tells_spills};
use crate::fits::all_fit;
use crate::random::{below, inst_at, value_at};
use crate::spilled_rows::FAR;
use crate::spills::function;
use crate::steps::set_of;
use crate::well_placed::well_placed;
use clif_check::check;
use clif_interpreter::function::run_collected;
use clif_ir::Function;
use clif_spiller::SafepointSpiller;
use clif_types::types::I64;
use clif_types::{EntityRef, EntitySet, PointerWidth, Value};
use clif_worlds::{Collector, End, Ending, Event, Memory, Mover, Outside, RunError, World};
use rand::SeedableRng;
use rand_pcg::Pcg32;
use std::alloc::Global;
use std::process::Abort;
use std::test::Fail;

// How many functions each test makes.
const FUNCTIONS: u64 = 100;

// The address of the first accessible byte, which the functions are given.
const START: u64 = 4096;

// How many bytes from there on they access. The slots lie behind these.
const SHOWN: usize = 64;

const SLOTS: u64 = 4160;

// How many bytes are accessible.
const SIZE: usize = 1024;

// How many instructions a function makes before it is spilled.
const STEPS: u64 = 100;

// How many it makes after that: each comes with less than 20 others.
const MORE_STEPS: u64 = 2000;

// What the functions are given: an address and five numbers.
const ARGUMENTS: [u128; 6] = [START as u128, 2, 0, 3, 1, 7];

const MOVERS: [Mover; 3] = [Mover::Adds(16), Mover::MakesOne, Mover::AddsCalls];

// Answers calls by their arguments and the count of calls so far: every third one throws, if it can.
struct Answering;

impl Outside for Answering {
    fn thrown(&self, events: &[Event], items: usize) -> Option<usize> {
        if events.len() % 3 == 0 && items > 0 {
            return Some(0);
        }
        None
    }

    fn value(&self, events: &[Event], place: usize) -> u128 {
        let mut sum = (events.len() as u128).wrapping_add(place as u128);
        if let Some(event) = events.last() {
            for bits in event.arguments.as_slice() {
                sum = sum.wrapping_mul(3).wrapping_add(*bits);
            }
        }
        sum % 5
    }

    fn change(&self, events: &[Event], memory: &mut Memory) {
        let count = events.len();
        memory.put(count % SHOWN, (count % 256) as u8);
    }
}

// How a function runs under a collector.
fn run(
    alloc: Global,
    func: &Function,
    arguments: &[u128],
    collector: Collector<'_>,
    bound: u64,
) -> Result<Ending, RunError> {
    let Ok(memory) = Memory::zeros(alloc, START, SIZE) else {
        return Err(RunError::memory());
    };
    let world = World {
        arguments,
        memory: &memory,
        pointer_width: PointerWidth::U64,
        slots: SLOTS,
        outside: &Answering,
        is_traced: false,
    };
    let (ending, _) = run_collected(alloc, func, &world, collector, bound)?;
    Ok(ending)
}

// What is in memory outside spill slots.
fn shown(ending: &Ending) -> &[u8] {
    ending.memory.bytes().get(..SHOWN).unwrap_or(&[])
}

// Whether the calls of a run begin with those of another one.
fn begins_with(longer: &[Event], shorter: &[Event]) -> bool {
    shorter.len() <= longer.len()
        && shorter
            .iter()
            .zip(longer)
            .all(|(left, right)| left == right)
}

// Whether two runs show the same. Where the first one hasn't ended, the second one doesn't come as far.
fn are_alike(before: &Ending, after: &Ending) -> bool {
    match &before.end {
        End::OutOfSteps => begins_with(before.events.as_slice(), after.events.as_slice()),
        end => {
            *end == after.end && before.events == after.events && shown(before) == shown(after)
        }
    }
}

// A function before it was spilled and after that, and what was recorded.
#[derive(Drop)]
struct Pair {
    spilled: Spilled,
    recorded: EntitySet<Value>,
}

impl Pair {
    // How both run on the same, where bits move so.
    fn run(
        &self,
        alloc: Global,
        arguments: &[u128],
        mover: Mover,
    ) -> Result<(Ending, Ending), RunError> {
        let (old, new) = (&self.spilled.before, &self.spilled.after);
        let over_set = Collector::OverSet(&self.recorded, mover);
        let before = run(alloc, old, arguments, over_set, STEPS)?;
        let bound = match before.end {
            End::OutOfSteps => STEPS,
            _ => MORE_STEPS,
        };
        let after = run(alloc, new, arguments, Collector::ByMaps(mover), bound)?;
        Ok((before, after))
    }
}

// The numbers of some values, but not of the first one, which is an address. Aliases are among them.
fn any_recorded(rt: &impl Abort, random: &mut Pcg32, func: &Function) -> Result<Vec<u32>, Fail> {
    let mut numbers = Vec::new(func.allocator());
    let share = below(random, 3).saturating_add(2);
    for number in 1..func.value_count() {
        if below(random, share) > 0 {
            numbers.push(value_at(rt, number).as_u32())?;
        }
    }
    Ok(numbers)
}

// Spills these values of a function.
fn spill(
    rt: &impl Abort,
    alloc: Global,
    func: &mut Function,
    recorded: &[u32],
) -> Result<EntitySet<Value>, Fail> {
    let set = set_of(rt, alloc, recorded)?;
    assert!(rt; all_fit(func, &set));
    SafepointSpiller::new(alloc).run(func, &set, I64, &None)?;
    Ok(set)
}

// The function of a seed, spilled.
fn pair_of(rt: &impl Abort, alloc: Global, seed: u64) -> Result<Pair, Fail> {
    let before = well_placed(rt, alloc, seed)?;
    let mut after = well_placed(rt, alloc, seed)?;
    let numbers = any_recorded(rt, &mut Pcg32::seed_from_u64(seed), &before)?;
    let recorded = spill(rt, alloc, &mut after, numbers.as_slice())?;
    let spilled = Spilled {
        seed,
        before,
        after,
        recorded: numbers,
    };
    Ok(Pair { spilled, recorded })
}

// What was found in some functions.
#[derive(Default, Drop)]
struct Tally {
    // those in which something is spilled
    spilled: usize,
    // runs that ended, and the outside calls of all
    ended: usize,
    calls: usize,
}

impl Tally {
    // Asserts what is spilled, and that the function is well typed and runs as it did before.
    fn compare(&mut self, rt: &impl Abort, alloc: Global, pair: &Pair) -> Result<(), Fail> {
        let Spilled {
            seed,
            before,
            after,
            ..
        } = &pair.spilled;
        assert!(rt; check(before).is_ok(), "types of seed {seed}");
        assert!(rt; check(after).is_ok(), "types of spilled seed {seed}");
        if tells_spills(rt, &pair.spilled)? > 0 {
            self.spilled = self.spilled.saturating_add(1);
        }
        for mover in MOVERS {
            let (old, new) = pair.run(alloc, &ARGUMENTS, mover)?;
            assert!(rt; are_alike(&old, &new), "runs of seed {seed}");
            self.count(&old);
        }
        Ok(())
    }

    fn count(&mut self, ending: &Ending) {
        if ending.end != End::OutOfSteps {
            self.ended = self.ended.saturating_add(1);
        }
        self.calls = self.calls.saturating_add(ending.events.len());
    }
}

// Compares the functions of so many seeds from this one on. Most have something to spill, and most runs end.
fn compare_from(rt: &impl Abort, alloc: Global, first: u64) -> Result<(), Fail> {
    let mut tally = Tally::default();
    for seed in first..first.saturating_add(FUNCTIONS) {
        let pair = pair_of(rt, alloc, seed)?;
        tally.compare(rt, alloc, &pair)?;
    }
    assert!(rt;
        tally.spilled >= 50,
        "{} functions with entries",
        tally.spilled
    );
    assert!(rt; tally.ended >= 150, "{} runs ended", tally.ended);
    assert!(rt; tally.calls >= 500, "{} calls", tally.calls);
    Ok(())
}

#[test]
fn spilled_functions_run_alike(rt: HostRuntime) -> Result<(), Fail> {
    compare_from(&rt, rt.alloc(), 0)
}

#[test]
fn spilled_functions_run_alike_from_100(rt: HostRuntime) -> Result<(), Fail> {
    compare_from(&rt, rt.alloc(), 100)
}

#[test]
fn spilled_functions_run_alike_from_200(rt: HostRuntime) -> Result<(), Fail> {
    compare_from(&rt, rt.alloc(), 200)
}

// Asserts what the two functions return that take this, where each call adds 16.
fn return_each(
    rt: &impl Abort,
    pair: &Pair,
    argument: u128,
    expected: [u128; 2],
) -> Result<(), Fail> {
    let alloc = pair.spilled.before.allocator();
    let (old, new) = pair.run(alloc, &[argument], Mover::Adds(16))?;
    assert!(rt; returns(&old, expected[0]));
    assert!(rt; returns(&new, expected[1]));
    assert_eq!(rt; are_alike(&old, &new), expected[0] == expected[1]);
    Ok(())
}

// Whether a run returned this.
fn returns(ending: &Ending, expected: u128) -> bool {
    match &ending.end {
        End::Returned(values) => values.as_slice() == [expected].as_slice(),
        _ => false,
    }
}

// The value lives across two calls. Where the first one's stack map lacks it, it moves once.
#[test]
fn a_missing_entry_is_found(rt: HostRuntime) -> Result<(), Fail> {
    let alloc = rt.alloc();
    let before = function(&rt, alloc, &FAR)?;
    let mut after = function(&rt, alloc, &FAR)?;
    let recorded = spill(&rt, alloc, &mut after, FAR.recorded)?;
    let spilled = Spilled {
        seed: 0,
        before,
        after,
        recorded: Vec::new(alloc),
    };
    let mut pair = Pair { spilled, recorded };
    return_each(&rt, &pair, 3, [35, 35])?;
    let call = inst_at(&rt, 0);
    assert!(&rt; call.index() < pair.spilled.after.inst_count());
    pair.spilled.after.set_stack_map(call, Vec::new(alloc))?;
    return_each(&rt, &pair, 3, [35, 19])
}
