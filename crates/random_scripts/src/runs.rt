//! Runs of a script and of its function, and what they show.
ghost use Rattle.std.specs.Prelude.{◌≡◌};

use crate::generator::{random_script, signature};
use crate::worlds::{Answering, SIZE, SLOTS, SLOTS_SIZE, START};
use clif_builder::FunctionBuilderContext;
use clif_calls::Call;
use clif_interpreter::function::{run_collected, slots_behind};
use clif_interpreter::script::run_beside;
use clif_ir::Function;
use clif_replay::{ReplayError, replay};
use clif_types::{CallConv, PointerWidth, Signature, TargetFrontendConfig, UserFuncName};
use clif_worlds::{Beside, Collector, End, Ending, Memory, Mover, RunError, World};
use std::alloc::{AllocError, Global};
use std::fmt;

const CONFIG: TargetFrontendConfig = TargetFrontendConfig {
    default_call_conv: CallConv::SystemV,
    pointer_width: PointerWidth::U64,
    page_size_align_log2: 12,
};

/// How many steps a run has at most. No script needs as many.
const STEPS: u64 = 10_000;

/// The arguments of each run.
const ARGUMENTS: [u128; 2] = [1, 4100];

/// Why a script isn't in order.
#[derive(Clone, Copy)]
pub enum Failure {
    /// Memory is refused.
    Memory,
    /// No function is built.
    NotBuilt(ReplayError),
    /// A run can't go on.
    NotRun(RunError),
    /// A run doesn't return or trap within the bound on steps.
    NotEnded,
    /// The two runs differ.
    Differs,
}

impl fmt::Display for Failure {
    fn fmt<W: fmt::Write>(&self, f: &mut fmt::Formatter<W>) -> fmt::Result {
        match self {
            Failure::Memory => f.write_str("no memory"),
            Failure::NotBuilt(error) => write!(f, "{error}"),
            Failure::NotRun(error) => write!(f, "{error}"),
            Failure::NotEnded => f.write_str("a run doesn't return or trap"),
            Failure::Differs => f.write_str("the runs differ"),
        }
    }
}

impl From<AllocError> for Failure {
    fn from(_error: AllocError) -> Failure {
        Failure::Memory
    }
}

/// What the scripts showed, all together.
#[derive(Clone, Copy, Default)]
pub struct Tally {
    /// Runs that returned.
    pub returned: u64,
    /// Runs that trapped.
    pub trapped: u64,
    /// Runs that made an outside call.
    pub called: u64,
    /// Scripts whose run differs where calls throw.
    pub thrown: u64,
    /// Scripts whose run differs where calls write to memory.
    pub written: u64,
    /// Scripts whose run differs where calls move what is tracked.
    pub moved: u64,
}

impl Tally {
    /// Whether each of them is so many.
    pub fn reaches(&self, bound: u64) -> bool {
        self.returned >= bound
            && self.trapped >= bound
            && self.called >= bound
            && self.thrown >= bound
            && self.written >= bound
            && self.moved >= bound
    }

    // A run ended so.
    fn count(&mut self, ending: &Ending) {
        if let End::Trapped(_) = &ending.end {
            self.trapped = self.trapped.saturating_add(1);
        } else {
            self.returned = self.returned.saturating_add(1);
        }
        if !ending.events.is_empty() {
            self.called = self.called.saturating_add(1);
        }
    }
}

impl fmt::Display for Tally {
    fn fmt<W: fmt::Write>(&self, f: &mut fmt::Formatter<W>) -> fmt::Result {
        let returned = self.returned;
        let trapped = self.trapped;
        let called = self.called;
        write!(f, "{returned} returned, {trapped} trapped, {called} called")?;
        let thrown = self.thrown;
        let written = self.written;
        let moved = self.moved;
        write!(f, ", {thrown} thrown, {written} written, {moved} moved")
    }
}

/// Makes the script of a seed, builds its function, and runs both in each world.
///
/// # Errors
///
/// The script is refused, a run can't go on or doesn't end, or two runs differ. Or memory is refused.
pub fn try_script(alloc: Global, seed: u64, tally: &mut Tally) -> Result<(), Failure> {
    let calls = random_script(alloc, seed)?;
    let signature = signature(alloc)?;
    let func = built(alloc, calls.as_slice(), &signature)?;
    let pair = Pair {
        alloc,
        calls: calls.as_slice(),
        signature: &signature,
        func: &func,
    };
    let counting = pair.run(Answering::Counting, None, tally)?;
    let throwing = pair.run(Answering::Throwing, None, tally)?;
    let writing = pair.run(Answering::Writing, None, tally)?;
    let moving = pair.run(Answering::Counting, Some(Mover::Adds(16)), tally)?;
    pair.run(Answering::Throwing, Some(Mover::AddsCalls), tally)?;
    pair.run(Answering::Writing, Some(Mover::MakesOne), tally)?;
    tally.thrown = tally
        .thrown
        .saturating_add(u64::from(differs(&throwing, &counting)));
    tally.written = tally
        .written
        .saturating_add(u64::from(differs(&writing, &counting)));
    tally.moved = tally
        .moved
        .saturating_add(u64::from(differs(&moving, &counting)));
    Ok(())
}

// Whether two runs show other calls, or end otherwise.
fn differs(one: &Ending, other: &Ending) -> bool {
    one.end != other.end || one.events != other.events
}

// The function of a script.
fn built(alloc: Global, calls: &[Call], signature: &Signature) -> Result<Function, Failure> {
    let mut ctx = FunctionBuilderContext::new(alloc);
    let name = UserFuncName::user(0, 0);
    match replay(
        alloc,
        calls,
        name,
        signature.clone()?,
        &mut ctx,
        CONFIG,
        None,
    ) {
        Ok(func) => Ok(func),
        Err(error) => Err(Failure::NotBuilt(error)),
    }
}

/// A script and its function.
#[derive(Clone, Copy)]
struct Pair<'a> {
    alloc: Global,
    calls: &'a [Call],
    signature: &'a Signature,
    func: &'a Function,
}

impl Pair<'_> {
    // How both end in a world that moves, or moves nothing, where they end alike.
    fn run(
        self,
        outside: Answering,
        mover: Option<Mover>,
        tally: &mut Tally,
    ) -> Result<Ending, Failure> {
        let alloc = self.alloc;
        let memory = Memory::zeros(alloc, START, SIZE + SLOTS_SIZE)?;
        let world = World {
            arguments: &ARGUMENTS,
            memory: &memory,
            pointer_width: CONFIG.pointer_width,
            slots: SLOTS,
            outside: &outside,
            is_traced: false,
        };
        let hidden = match slots_behind(alloc, self.func, &world, 0) {
            Ok(hidden) => hidden,
            Err(error) => return Err(Failure::NotRun(error)),
        };
        let hidden = hidden.as_slice();
        let beside = Beside { mover, hidden };
        let expected = ended(run_beside(
            alloc,
            self.calls,
            self.signature,
            &world,
            &beside,
            STEPS,
        ))?;
        let collector = match mover {
            Some(mover) => Collector::ByMaps(mover),
            None => Collector::Nothing,
        };
        let ending = match run_collected(alloc, self.func, &world, collector, STEPS) {
            Ok((ending, _)) => ended(Ok(ending))?,
            Err(error) => return Err(Failure::NotRun(error)),
        };
        if differs(&ending, &expected)
            || expected.memory.first_difference(&ending.memory).is_some()
        {
            return Err(Failure::Differs);
        }
        tally.count(&ending);
        Ok(ending)
    }
}

// How a run ended, if it did.
fn ended(run: Result<Ending, RunError>) -> Result<Ending, Failure> {
    match run {
        Ok(ending) => match &ending.end {
            End::Returned(_) | End::Trapped(_) => Ok(ending),
            End::Stuck | End::OutOfSteps => Err(Failure::NotEnded),
        },
        Err(error) => Err(Failure::NotRun(error)),
    }
}
