//! Scripts are replayed: each call is made on a builder, in order, if its condition holds.
ghost use Rattle.std.specs.Prelude.{◌≡◌, ◌≢◌, ◌⊎◌, ℕ, ◌<◌, List, [], length, Some, None, option_map, IfSome, false, OnOk, IfOk, IfErr, Err};
ghost use Rattle.clif_meaning.specs.Request.{AnsweredCall};
ghost use Rattle.clif_meaning.specs.Acceptance as acceptance;
ghost use Rattle.clif_builder.specs.StandsFor.{StandsFor};
ghost use Rattle.clif_meaning.specs.View.{view_of};
ghost use Rattle.clif_expansion.specs.CallsHeadline.{CallersEdgesMatchInCalls, CallsMeanTheSame};
ghost use Rattle.clif_expansion.specs.CallsVerdict.{verdict_on_call_attempts};
ghost use Rattle.clif_meaning.specs.Typing.{EdgesMatch};
ghost use Rattle.clif_replay.specs.Replay.{ReplayMakes, ReplayTells};
ghost use Rattle.clif_replay.specs.Requests.{attempts_of, calls_of};
ghost use Rattle.clif_replay.specs.Replayed.{IsBuiltAsking, IsReplayed, IsStoppedByTable, IsStoppedInSpilling, MayBeRefused, TellsVerdict};
ghost use Rattle.clif_ir.specs.Body.{empty_body};
ghost use Rattle.clif_builder.specs.Builder.{KeepsAllButRegion, SameLoans};
ghost use Rattle.clif_builder.specs.Clear.{IsClear};
ghost use Rattle.clif_types.specs.Signature.{SignatureShape};
ghost use Rattle.clif_replay.specs.Errors.{end_error_at, replay_error_at, replay_memory, replay_error_text};

use crate::make::make_call;
use clif_builder::laws::ledger_is_read_by_number;
use clif_builder::{FinalizeError, FunctionBuilder, FunctionBuilderContext};
use clif_calls::Call;
use clif_ir::Function;
use clif_regions::RegionOf;
use clif_resolution::{Answer, CallError, Condition};
use clif_types::{EntityRef, Signature, TargetFrontendConfig, UserFuncName};
use std::alloc::{AllocFailed, Global};
use std::error::Error;
use std::fmt;

/// Why a script didn't become a function.
///
/// Calls are numbered from 0 on; `finalize`, which follows the last call, has the number of calls as its
/// place. What is told is the first call that didn't succeed, and no call after it was made.
#[derive(Clone, Copy, Debug, PartialEq, Eq)]
pub enum ReplayError {
    /// A condition of the call at this place doesn't hold, or a name in it leads to no such answer: the
    /// script is wrong. It prints as `misuse at call 3`.
    Misuse(usize),
    /// The call at this place was refused, for another cause than memory or a full table: `finalize`, where a block
    /// was begun and not sealed or not filled, or where a try call that is reached has a value as its context that
    /// stack maps need; a switch; or a call that is only tried. It prints as `refused at call 4`.
    Refused(usize),
    /// Memory was refused. It prints as `no memory`.
    Memory,
    /// A call that may be made met a table that holds 2^32 - 1 entries. It prints as `table full`.
    Full,
}

impl fmt::Display for ReplayError {
    ghost output = { λ e. Some (replay_error_text e) };

    fn fmt<W: fmt::Write>(&self, f: &mut fmt::Formatter<W>) -> fmt::Result {
        match self {
            ReplayError::Misuse(place) => write!(f, "misuse at call {place}"),
            ReplayError::Refused(place) => write!(f, "refused at call {place}"),
            ReplayError::Memory => write!(f, "no memory"),
            ReplayError::Full => write!(f, "table full"),
        }
    }
}

impl Error for ReplayError {}

impl<T: Drop> From<AllocFailed<T>> for ReplayError {
    ghost from_gives = { λ _ error. error ≡ replay_memory };

    fn from(_error: AllocFailed<T>) -> ReplayError {
        Self::Memory
    }
}

// The same, of the call at a place.
fn told_at(error: CallError, place: usize) -> ReplayError
    ensures { result ≡ replay_error_at error place }
{
    match error {
        CallError::Misuse(_) => ReplayError::Misuse(place),
        CallError::Refused(_) => ReplayError::Refused(place),
        CallError::Memory => ReplayError::Memory,
        CallError::Full => ReplayError::Full,
    }
}

/// What a replay tells beside its answer.
#[derive(Drop)]
pub struct ReplayNotes {
    /// Of the call that was misused or refused, or of the end of a script that was: the first condition that doesn't hold.
    pub condition: Option<Condition>,
    /// How many instructions the function had after each call that was made, in the order of the calls.
    pub inst_counts: Vec<usize>,
    /// The numbers of the blocks that the calls created, in their order.
    pub blocks: Vec<usize>,
}

impl ReplayNotes {
    /// Nothing is told so far.
    pub fn new(alloc: Global) -> ReplayNotes {
        ReplayNotes {
            condition: None,
            inst_counts: Vec::new(alloc),
            blocks: Vec::new(alloc),
        }
    }

    // Notes what there is after a call that gave this answer.
    fn note_call(&mut self, func: &Function, answer: &Answer) -> Result<(), AllocFailed<usize>> {
        self.inst_counts.push(func.inst_count())?;
        match answer {
            Answer::Block(block) => self.blocks.push(block.index()),
            _ => Ok(()),
        }
    }

    // Notes why a call wasn't made.
    fn note_error(&mut self, error: &CallError) {
        self.condition = match error {
            CallError::Misuse(condition) | CallError::Refused(condition) => Some(*condition),
            CallError::Memory | CallError::Full => None,
        };
    }

    // Notes why the function wasn't finished.
    fn note_end(&mut self, error: &FinalizeError) {
        self.condition = match error {
            FinalizeError::Unsealed(block) => Some(Condition::Unsealed(*block)),
            FinalizeError::Unfilled(block) => Some(Condition::Unended(*block)),
            FinalizeError::TrackedContext(inst) => Some(Condition::TrackedContext(*inst)),
            FinalizeError::Failed => Some(Condition::Failed),
            FinalizeError::Memory | FinalizeError::Full => None,
        };
    }
}

/// Makes the calls, in order, on a builder of a new function with this name and signature, and finishes
/// the function by `finalize(config)`.
///
/// Each call is made only if its conditions hold, which are tested here, so every list of calls may be
/// passed. `ctx` is empty, and is empty afterwards in every case, so it serves the next script. `region`, which may be called
/// with every argument, is asked for the alias regions of the accesses that `finalize` inserts
/// ([`FunctionBuilder::make_stack_map_alias_region`]).
///
/// # Errors
///
/// The first call that doesn't succeed ends the replay, and is told as [`ReplayError`] says.
pub fn replay(
    alloc: Global,
    calls: &[Call],
    name: UserFuncName,
    signature: Signature,
    ctx: &mut FunctionBuilderContext,
    config: TargetFrontendConfig,
    region: Option<RegionOf>,
) -> Result<Function, ReplayError>
    requires empty { IsClear ctx.old }
    requires callable { IfSome region RegionOf.IsAlwaysCallable }
    ensures same_meaning { IfOk result (λ function.
        CallsMeanTheSame (calls_of config signature calls.now) signature config.pointer_width
        (view_of function)) }
    ensures built { IfOk result (λ function. IsBuiltAsking config calls.now signature
        region (λ ask. RegionOf.post ask) function) }
    ensures edges_match { IfOk result (λ function.
        CallersEdgesMatchInCalls (calls_of config signature calls.now)
        → EdgesMatch (view_of function)) }
    ensures name { IfOk result (λ function. function.name ≡ name) }
    ensures context { IsClear ctx.new }
    ensures misuse { (i : ℕ) → result ≡ Err (ReplayError.Misuse i) → i < length calls.now }
    ensures refused { (i : ℕ) → result ≡ Err (ReplayError.Refused i) → MayBeRefused calls.now i }
    ensures table_full { result ≡ Err ReplayError.Full
        → IsStoppedByTable config calls.now name signature
        ⊎ IsStoppedInSpilling config calls.now signature }
    ensures verdict { result ≢ Err ReplayError.Memory
        → result ≢ Err ReplayError.Full
        → TellsVerdict config calls.now signature result }
{
    let mut notes = ReplayNotes::new(alloc);
    replay_noted(
        alloc, calls, name, signature, ctx, config, region, &mut notes,
    )
}

/// The same, with notes of the condition of a call that was misused or refused, and of what there was after each call.
///
/// # Errors
///
/// Those of [`replay`].
pub fn replay_noted(
    alloc: Global,
    calls: &[Call],
    name: UserFuncName,
    signature: Signature,
    ctx: &mut FunctionBuilderContext,
    config: TargetFrontendConfig,
    region: Option<RegionOf>,
    notes: &mut ReplayNotes,
) -> Result<Function, ReplayError>
    requires empty { IsClear ctx.old }
    requires callable { IfSome region RegionOf.IsAlwaysCallable }
    ensures same_meaning { IfOk result (λ function.
        CallsMeanTheSame (calls_of config signature calls.now) signature config.pointer_width
        (view_of function)) }
    ensures built { IfOk result (λ function. IsBuiltAsking config calls.now signature
        region (λ ask. RegionOf.post ask) function) }
    ensures edges_match { IfOk result (λ function.
        CallersEdgesMatchInCalls (calls_of config signature calls.now)
        → EdgesMatch (view_of function)) }
    ensures name { IfOk result (λ function. function.name ≡ name) }
    ensures context { IsClear ctx.new }
    ensures misuse { (i : ℕ) → result ≡ Err (ReplayError.Misuse i) → i < length calls.now }
    ensures refused { (i : ℕ) → result ≡ Err (ReplayError.Refused i) → MayBeRefused calls.now i }
    ensures table_full { result ≡ Err ReplayError.Full
        → IsStoppedByTable config calls.now name signature
        ⊎ IsStoppedInSpilling config calls.now signature }
    ensures verdict { result ≢ Err ReplayError.Memory
        → result ≢ Err ReplayError.Full
        → TellsVerdict config calls.now signature result }
{
    let mut func = Function::with_name_signature(alloc, name, signature);
    build(alloc, calls, &mut func, ctx, config, region, notes)?;
    Ok(func)
}

// What `finalize` refuses after so many calls.
fn ended_at(error: FinalizeError, place: usize) -> ReplayError
    ensures { result ≡ end_error_at error place }
{
    match error {
        FinalizeError::Memory => ReplayError::Memory,
        FinalizeError::Full => ReplayError::Full,
        FinalizeError::Failed
        | FinalizeError::Unsealed(_)
        | FinalizeError::Unfilled(_)
        | FinalizeError::TrackedContext(_) => ReplayError::Refused(place),
    }
}

// Has the builder ask the callback, if there is one.
fn register(builder: &mut FunctionBuilder<'_>, region: Option<RegionOf>)
    requires none { builder.old.ctx.now.region ≡ None }
    requires callable { IfSome region RegionOf.IsAlwaysCallable }
    ensures asks { option_map (λ c. c.ask) builder.new.ctx.now.region ≡ region }
    ensures keeps { KeepsAllButRegion builder.old builder.new }
    ensures stands { (signature : SignatureShape) (calls : List AnsweredCall)
        → StandsFor signature calls builder.old → StandsFor signature calls builder.new }
{
    if let Some(ask) = region {
        builder.make_stack_map_alias_region(ask);
    }
}

// Makes the calls, in order, on a builder of a function that is empty, and finishes it.
fn build(
    alloc: Global,
    calls: &[Call],
    func: &mut Function,
    ctx: &mut FunctionBuilderContext,
    config: TargetFrontendConfig,
    region: Option<RegionOf>,
    notes: &mut ReplayNotes,
) -> Result<(), ReplayError>
    requires fresh { func.old ≡ empty_body func.old.name func.old.signature }
    requires empty { IsClear ctx.old }
    requires callable { IfSome region RegionOf.IsAlwaysCallable }
    ensures finished { OnOk result (ReplayMakes calls.now func.old.name func.old.signature config
        region (λ ask. RegionOf.post ask) func.new) }
    ensures told { IfErr result (λ error.
        ReplayTells calls.now func.old.name func.old.signature config (Err error)) }
    ensures context { IsClear ctx.new }
{
    let mut builder = FunctionBuilder::new(func, ctx);
    register(&mut builder, region);
    let made = make_calls(alloc, &mut builder, calls, config, notes);
    let finished = builder.finalize(config);
    made?;
    match finished {
        Ok(()) => Ok(()),
        Err(error) => {
            notes.note_end(&error);
            Err(ended_at(error, calls.len()))
        }
    }
}

// Makes the calls, in order.
fn make_calls(
    alloc: Global,
    builder: &mut FunctionBuilder<'_>,
    calls: &[Call],
    config: TargetFrontendConfig,
    notes: &mut ReplayNotes,
) -> Result<(), ReplayError>
    requires ready { StandsFor builder.old.func.now.signature [] builder.old }
    requires types { builder.old.ctx.now.parts.variables ≡ [] }
    requires tables { builder.old.func.now.tables.jump_tables ≡ [] }
    requires exceptions { builder.old.func.now.tables.exception_tables ≡ [] }
    requires sound { builder.old.failed ≡ false }
    ensures loans { SameLoans builder.old builder.new }
    ensures name { OnOk result (builder.new.func.now.name ≡ builder.old.func.now.name) }
    ensures ready { OnOk result ((made : List AnsweredCall)
        × StandsFor builder.old.func.now.signature made builder.new
        × IsReplayed config builder.old.func.now.signature calls.now (length calls.now) made) }
    ensures sound { OnOk result (builder.new.failed ≡ false) }
    ensures misuse { (i : ℕ) → result ≡ Err (ReplayError.Misuse i) → i < length calls.now }
    ensures judged { (i : ℕ)
        → result ≡ Err (ReplayError.Misuse i)
        → verdict_on_call_attempts (attempts_of config builder.old.func.now.signature calls.now)
        ≡ acceptance.Misuse i }
    ensures tried { (i : ℕ) → result ≡ Err (ReplayError.Refused i) → MayBeRefused calls.now i }
    ensures refused { (i : ℕ)
        → result ≡ Err (ReplayError.Refused i)
        → verdict_on_call_attempts (attempts_of config builder.old.func.now.signature calls.now)
        ≡ acceptance.Refused i }
    ensures table_full { result ≡ Err ReplayError.Full
        → IsStoppedByTable config calls.now builder.old.func.now.name
        builder.old.func.now.signature }
{
    ledger_is_read_by_number();
    let mut answers = Vec::new(alloc);
    let mut types = Vec::new(alloc);
    for (place, call) in calls.iter().enumerate() {
        match make_call(builder, answers.as_slice(), types.as_slice(), config, call) {
            Ok(answer) => {
                notes.note_call(builder.func(), &answer)?;
                answers.push(answer)?;
            }
            Err(error) => {
                notes.note_error(&error);
                return Err(told_at(error, place));
            }
        }
        if let Call::DeclareVar { ty } = call {
            types.push(*ty)?;
        }
    }
    Ok(())
}
