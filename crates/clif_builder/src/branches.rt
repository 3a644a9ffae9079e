//! The builder's call that changes where a branch leads.
ghost use Rattle.std.specs.Prelude.{◌≡◌, ◌≢◌, ◌<◌, ◌++◌, ◌∷◌, [], ℕ, List, OnOk, OnErr, Err, IsTrue, ◌↔◌, is_err, length, false};
ghost use Rattle.clif_builder.specs.GoesOn.{GoesOn};
ghost use Rattle.clif_builder.specs.Growth.{Grows, RemembersIn};
ghost use Rattle.clif_builder.specs.Calls.{IsCall, answered};
ghost use Rattle.clif_builder.specs.Builder.{HasCurrent};
ghost use Rattle.clif_builder.specs.Redirecting.{Redirects};
ghost use Rattle.clif_instructions.specs.Members.{Stands};
ghost use Rattle.clif_records.specs.Tables.{is_yes};
ghost use Rattle.clif_ssa.specs.Ssa.{SamePredecessors, predecessors_of, sealed_of};
ghost use Rattle.clif_meaning.specs.Name.{Name};
ghost use Rattle.clif_meaning.specs.Request.{AnsweredCall, ChangeJumpDestination};
ghost use Rattle.clif_types.specs.Signature.{SignatureShape};
ghost use Rattle.clif_builder.specs.StandsFor.{StandsFor};
ghost use Rattle.clif_builder.specs.Ledger.{NamesBlock, NamesInstruction};

use crate::builder::FunctionBuilder;
use clif_types::{Block, BuildError, Inst};

impl<'a, R> FunctionBuilder<'a, R> {
    /// Whether a branch was declared as a predecessor of a block: whether one of its edges leads there.
    pub fn leads_to(&self, inst: Inst, block: Block) -> bool
        ensures { IsTrue result ↔ Stands inst (predecessors_of self.now.ctx.now.parts.ssa block) }
    {
        let ctx = &self.ctx.parts;
        ctx.ssa.leads_to(inst, block)
    }

    /// Lets each edge of a branch that leads to `old_block` lead to `new_block`, and pass what it passed. The edges
    /// of jump tables and exception tables that serve the branch are its own.
    ///
    /// The branch leads to `old_block` ([`FunctionBuilder::leads_to`] tests it), and both blocks are unsealed: seal a
    /// block only once no branch to it changes anymore. The branch is one predecessor of `new_block`, behind those
    /// that were, unless it was one of them, and none of `old_block`. Where both are one block nothing changes.
    ///
    /// # Errors
    ///
    /// `Memory`, where memory is refused, and `Failed` after an error of an earlier call. The function and all
    /// predecessors are as they were then, and the builder has failed.
    pub fn change_jump_destination(
        &mut self,
        inst: Inst,
        old_block: Block,
        new_block: Block,
    ) -> Result<(), BuildError>
        requires inst_exists { inst < length self.old.func.now.insts }
        requires target_exists { new_block < length self.old.func.now.blocks }
        requires old_unsealed { is_yes (sealed_of self.old.ctx.now.parts.ssa old_block) ≡ false }
        requires new_unsealed { is_yes (sealed_of self.old.ctx.now.parts.ssa new_block) ≡ false }
        requires leads { Stands inst (predecessors_of self.old.ctx.now.parts.ssa old_block) }
        ensures call { IsCall self.old self.new result }
        ensures redirects { OnOk result (Redirects self.old.func.now self.old.ctx.now.parts
            self.new.func.now self.new.ctx.now.parts inst old_block new_block) }
        ensures kept { OnErr result ((self.new.func.now ≡ self.old.func.now)
            × SamePredecessors self.old.ctx.now.parts.ssa self.new.ctx.now.parts.ssa) }
        ensures never_full { result ≢ Err BuildError.Full }
        ensures stands { (signature : SignatureShape) (calls : List AnsweredCall)
            (branch from to : Name) → StandsFor signature calls self.old
            → NamesInstruction calls branch inst → NamesBlock calls from old_block
            → NamesBlock calls to new_block → OnOk result (StandsFor signature (calls ++ answered
            (ChangeJumpDestination branch from to) [] ∷ []) self.new) }
        ensures goes_on { GoesOn self.old self.new result }
    {
        if self.failed {
            return Err(BuildError::Failed);
        }
        self.func.law_consistent();
        let moved = self
            .ctx
            .parts
            .move_branch(inst, old_block, new_block, self.func);
        self.failed = moved.is_err();
        moved
    }
}
