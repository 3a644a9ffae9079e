//! The end of a function's building.
ghost use Rattle.std.specs.Prelude.{OnErr, OnOk, ◌≡◌, ◌<◌, ◌^◌, ◌⊎◌, [], List, length, false};
ghost use Rattle.clif_types.specs.Signature.{SignatureShape};
ghost use Rattle.clif_types.specs.Target.{pointer_type_of};
ghost use Rattle.clif_meaning.specs.Acceptance.{refusal_of};
ghost use Rattle.clif_meaning.specs.Headline.{MeansTheSame};
ghost use Rattle.clif_meaning.specs.Premises.{CallersEdgesMatch};
ghost use Rattle.clif_meaning.specs.Request.{AnsweredCall, Finalize, script_of};
ghost use Rattle.clif_meaning.specs.Typing.{EdgesMatch};
ghost use Rattle.clif_meaning.specs.View.{view_of};
ghost use Rattle.clif_ir.specs.Body.{empty_function};
ghost use Rattle.clif_records.specs.Tracking.{recorded_of};
ghost use Rattle.clif_builder.specs.Builder.{answer_of, block_fault, first_fault};
ghost use Rattle.clif_builder.specs.Clear.{IsClear};
ghost use Rattle.clif_builder.specs.Ending.{AnswersAfter, AsFound, BecomesFinished, Ends, EndsByLedger, IsBeforeSpilling, TellsContext, TellsSpilling, recorded_in};
ghost use Rattle.clif_builder.specs.Ledger.{AgreesWithLedger, ledger_of};
ghost use Rattle.clif_builder.specs.StandsFor.{StandsFor};
ghost use Rattle.clif_builder.specs.StandsForCalls.{FinishesCalls, StandsForCalls};
ghost use Rattle.clif_expansion.specs.ScriptCall.{ScriptCall};
ghost use Rattle.clif_builder.specs.Tracking.{RecordedFits};

use crate::builder::FunctionBuilder;
use crate::context::{BlockStatus, ContextParts, FunctionBuilderContext};
use crate::error::FinalizeError;
use clif_finished_laws::{carrying_keeps_in_order, spilled_means_the_script};
use clif_ir::Function;
use clif_region_laws::alike_functions_mean_the_same;
use clif_safepoints::contexts::tracked_context;
use clif_types::{Block, EntityRef, EntitySet, TargetFrontendConfig, Type, Value};

impl<'a> FunctionBuilder<'a> {
    /// Ends the building. The function is finished if each block that isn't pristine is sealed and has its
    /// terminator; otherwise the first one that lacks either, by number, is returned as `Unsealed` or `Unfilled`. A
    /// builder that failed returns `Failed`.
    ///
    /// A try call that is reached and whose context is one of the recorded values, the first by number, is returned
    /// as `TrackedContext`: an unwinder keeps its context, and no collector can move that.
    ///
    /// Recorded values that live across calls that are reached are spilled: each is stored to a stack slot where it is
    /// given, and loaded again where it is used. The stack map of each such call names the slots of those that live
    /// across it, by their numbers. Where nothing is recorded the function isn't changed here.
    ///
    /// Then the callback of [`FunctionBuilder::make_stack_map_alias_region`], if there is one, is asked for the alias
    /// region of each access that was inserted, in the order of insertion, which the access names then. The callback is
    /// dropped in every case.
    ///
    /// A finished function does what the calls said, with variables: its events, and how it returns or traps, are the
    /// same, although a collector moves references at each outside call and knows only what the stack maps name. The
    /// context is cleared in every case, and so serves for the next function.
    ///
    /// # Errors
    ///
    /// `Unsealed`, `Unfilled` or `TrackedContext`, as above, and `Failed` after an error of an earlier call: the
    /// function isn't changed then. Where values were recorded, `Memory`, where memory is refused, or `Full`, where a
    /// table of the function has 2^32 - 1 entries, and what the set of regions refused to the callback: if values were
    /// being spilled then, the function is left empty, since a part of the spills is of no use. The context is empty in
    /// every case.
    pub fn finalize(self, config: TargetFrontendConfig) -> Result<(), FinalizeError>
        ensures answer { Ends self.entry result }
        ensures ledger { (calls : List AnsweredCall) → AgreesWithLedger calls self.entry
            → self.entry.failed ≡ false
            → EndsByLedger calls (refusal_of (ledger_of calls) Finalize) self.entry.func.now
            (recorded_in self.entry) result }
        ensures same_meaning { (signature : SignatureShape) (calls : List AnsweredCall)
            → StandsFor signature calls self.entry
            → OnOk result (MeansTheSame (script_of calls) signature config.pointer_width (view_of
            self.exit.0.now)) }
        ensures edges_match { (signature : SignatureShape) (calls : List AnsweredCall)
            → StandsFor signature calls self.entry → CallersEdgesMatch (script_of calls)
            → OnOk result (EdgesMatch (view_of self.exit.0.now)) }
        ensures found { (signature : SignatureShape) (calls : List AnsweredCall)
            → StandsFor signature calls self.entry
            → OnOk result (AsFound signature config.pointer_width calls self.entry) }
        ensures calls { (signature : SignatureShape) (calls : List ScriptCall)
            → StandsForCalls config.pointer_width signature calls self.entry
            → OnOk result (FinishesCalls calls signature config.pointer_width self.entry.func.now
            self.exit.0.now) }
        ensures spilled { OnOk result (BecomesFinished self.entry.func.now (recorded_in self.entry)
            (pointer_type_of config.pointer_width)
            self.entry.ctx.now.region (λ c. post (c.ask.vtable, c.ask.value)) self.exit.0.now) }
        ensures function { (recorded_in self.entry ≡ []) ⊎ IsBeforeSpilling result
            → self.exit.0.now ≡ self.entry.func.now }
        ensures emptied { OnErr result
            ((self.exit.0.now ≡ self.entry.func.now) ⊎ (self.exit.0.now ≡ empty_function)) }
        ensures context { IsClear self.exit.1.0.now }
    {
        self.func.law_consistent();
        carrying_keeps_in_order();
        spilled_means_the_script();
        alike_functions_mean_the_same();
        let verdict = self.verdict();
        // Named in this order: the context is given back cleared before the function, as the builder's invariant needs.
        let FunctionBuilder { ctx, func, .. } = self;
        let answer = finish(verdict, ctx, func, config.pointer_type());
        answer
    }
}

impl<'a, R> FunctionBuilder<'a, R> {
    // What of the parts isn't finished, or can't be spilled.
    fn verdict(&self) -> Result<(), FinalizeError>
        ensures { Ends self.now result }
    {
        if self.failed {
            return Err(FinalizeError::Failed);
        }
        check_blocks(&self.ctx.parts, self.func.block_count())?;
        let ctx = &self.ctx.parts;
        check_contexts(self.func, ctx.ssa.stack_map_values())
    }
}

// The first block, by number, in which something was made and that isn't sealed or isn't filled.
fn check_blocks(ctx: &ContextParts, count: usize) -> Result<(), FinalizeError>
    requires { count < 2 ^ 32 }
    ensures { result ≡ answer_of (first_fault ctx.now 0 count) }
{
    for number in 0..count {
        check_block(ctx, Block::new(number))?;
    }
    Ok(())
}

// What a block lacks.
fn check_block(ctx: &ContextParts, block: Block) -> Result<(), FinalizeError>
    ensures { result ≡ answer_of (block_fault ctx.now block) }
{
    let status = ctx.status.get(block);
    if status == BlockStatus::Empty {
        return Ok(());
    }
    if !ctx.ssa.is_sealed(block) {
        return Err(FinalizeError::Unsealed(block));
    }
    if status != BlockStatus::Filled {
        return Err(FinalizeError::Unfilled(block));
    }
    Ok(())
}

// The first try call that is reached and has a recorded context. Nothing is looked at where no value is recorded.
fn check_contexts(func: &Function, recorded: &EntitySet<Value>) -> Result<(), FinalizeError>
    ensures { TellsContext func.now recorded.now result }
{
    if recorded.is_empty() {
        return Ok(());
    }
    match tracked_context(func, recorded)? {
        Some(inst) => Err(FinalizeError::TrackedContext(inst)),
        None => Ok(()),
    }
}

// Unless the verdict refuses the function, spills what is recorded and asks for the regions of accesses; then it clears the context.
fn finish(
    verdict: Result<(), FinalizeError>,
    ctx: &mut FunctionBuilderContext,
    func: &mut Function,
    pointer: Type,
) -> Result<(), FinalizeError>
    requires { OnOk verdict (RecordedFits func.old (recorded_of ctx.old.parts.ssa.tracking)) }
    ensures answer { AnswersAfter verdict (recorded_of ctx.old.parts.ssa.tracking) result }
    ensures spilled { OnOk result (BecomesFinished func.old (recorded_of ctx.old.parts.ssa.tracking)
        pointer ctx.old.region (λ c. post (c.ask.vtable, c.ask.value)) func.new) }
    ensures function { (recorded_of ctx.old.parts.ssa.tracking ≡ []) ⊎ IsBeforeSpilling result
        → func.new ≡ func.old }
    ensures emptied { OnErr result ((func.new ≡ func.old) ⊎ (func.new ≡ empty_function)) }
    ensures context { IsClear ctx.new }
{
    let answer = match verdict {
        Ok(()) => spill_recorded(ctx, func, pointer),
        Err(lack) => Err(lack),
    };
    ctx.clear();
    answer
}

// Spills what is recorded, and asks for the regions of accesses. Nothing is done where no value is recorded.
fn spill_recorded(
    ctx: &mut FunctionBuilderContext,
    func: &mut Function,
    pointer: Type,
) -> Result<(), FinalizeError>
    requires { RecordedFits func.old (recorded_of ctx.old.parts.ssa.tracking) }
    ensures answer { TellsSpilling (recorded_of ctx.old.parts.ssa.tracking) result }
    ensures spilled { OnOk result (BecomesFinished func.old (recorded_of ctx.old.parts.ssa.tracking)
        pointer ctx.old.region (λ c. post (c.ask.vtable, c.ask.value)) func.new) }
    ensures function { recorded_of ctx.old.parts.ssa.tracking ≡ [] → func.new ≡ func.old }
    ensures emptied { OnErr result (func.new ≡ empty_function) }
{
    if ctx.parts.ssa.stack_map_values().is_empty() {
        return Ok(());
    }
    ctx.parts.spill(func, pointer, &ctx.region)
}
