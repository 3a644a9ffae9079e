//! The builder's calls that mark blocks, bring them into the layout and give them parameters.
ghost use Rattle.std.specs.Prelude.{◌≡◌, ◌≢◌, ◌<◌, ◌+◌, ◌-◌, ◌^◌, ◌++◌, ◌∷◌, [], ℕ, List, OnOk, IfOk, IfSome, is_err, length, slice_index, EachIndex};
ghost use Rattle.clif_builder.specs.GoesOn.{GoesOn, succeeded};
ghost use Rattle.clif_builder.specs.Context.{status_of, begun, SetsStatus};
ghost use Rattle.clif_ssa.specs.Ssa.{predecessors_of};
ghost use Rattle.clif_simulation.specs.Carries.{with_params};
ghost use Rattle.clif_builder.specs.Growth.{Grows, NoRoomFor, RemembersIn};
ghost use Rattle.clif_builder.specs.Calls.{IsCall, IsTold, answered, appended_params, appended_returns};
ghost use Rattle.clif_builder.specs.Builder.{SameLoans, HasCurrent};
ghost use Rattle.clif_ir.specs.Body.{block_at, value_at};
ghost use Rattle.clif_ir.specs.Changes.{inserted_in, with_cold, with_layout_after, with_param};
ghost use Rattle.clif_instructions.specs.Members.{Stands};
ghost use Rattle.clif_tables.specs.Callees.{types_of};
ghost use Rattle.clif_meaning.specs.Name.{Name};
ghost use Rattle.clif_meaning.specs.Request.{AnsweredCall, AppendBlockParams, EnsureInsertedBlock, InsertBlockAfter, SetColdBlock};
ghost use Rattle.clif_types.specs.Signature.{SignatureShape};
ghost use Rattle.clif_builder.specs.StandsFor.{StandsFor};
ghost use Rattle.clif_builder.specs.Ledger.{AgreesWithLedger, NamesBlock};

use crate::builder::FunctionBuilder;
use crate::context::BlockStatus;
use crate::frontend::begin_block;
use clif_ir::Function;
use clif_types::{Block, BuildError, Type, Value};

impl<'a, R> FunctionBuilder<'a, R> {
    /// The parameters of a block, in order: the caller's own, followed by those that were made for variables.
    pub fn block_params(&self, block: Block) -> &[Value]
        requires { block < length self.now.func.now.blocks }
        ensures exact { result.now ≡ (block_at self.now.func.now block).params }
        ensures exist { EachIndex result.now (λ k. slice_index result.now k < length
            self.now.func.now.values) }
    {
        self.func.block_params(block)
    }

    /// Puts a block into the layout right after another one. This affects nothing but the order of the text.
    ///
    /// `after` is in the layout and `block` isn't. Without this call a block enters the layout as its last one, once
    /// something is made in it.
    ///
    /// # Errors
    ///
    /// `Failed` alone, after an error of an earlier call: it takes no memory.
    pub fn insert_block_after(&mut self, block: Block, after: Block) -> Result<(), BuildError>
        requires exists { block < length self.old.func.now.blocks }
        requires outside { Stands block self.old.func.now.layout → ⊥ }
        requires inside { Stands after self.old.func.now.layout }
        ensures call { IsCall self.old self.new result }
        ensures function { OnOk result (self.new.func.now ≡ with_layout_after self.old.func.now
            block after) }
        ensures context { self.new.ctx.now.parts ≡ self.old.ctx.now.parts }
        ensures never_full { result ≢ Err BuildError.Full }
        ensures never_memory { result ≢ Err BuildError.Memory }
        ensures told { (name behind : Name) → IsTold self.old self.new result
            (λ calls. NamesBlock calls name block × NamesBlock calls behind after)
            (λ _. answered (InsertBlockAfter name behind) []) }
        ensures goes_on { GoesOn self.old self.new result }
    {
        if self.failed {
            return Err(BuildError::Failed);
        }
        self.func.insert_block_after(block, after);
        Ok(())
    }

    /// Marks a block as cold, which tells later stages that it is seldom reached (an error path, say). What the
    /// function means doesn't change. It takes no memory and can't fail.
    pub fn set_cold_block(&mut self, block: Block)
        requires exists { block < length self.old.func.now.blocks }
        ensures loans { SameLoans self.old self.new }
        ensures function { self.new.func.now ≡ with_cold self.old.func.now block }
        ensures context { self.new.ctx.now.parts ≡ self.old.ctx.now.parts }
        ensures position { self.new.position ≡ self.old.position }
        ensures srcloc { self.new.srcloc ≡ self.old.srcloc }
        ensures failed { self.new.failed ≡ self.old.failed }
        ensures ledger { (calls : List AnsweredCall) (name : Name) → AgreesWithLedger calls self.old
            → NamesBlock calls name block → AgreesWithLedger (calls ++ answered
            (SetColdBlock name) [] ∷ []) self.new }
        ensures stands { (signature : SignatureShape) (calls : List AnsweredCall) (name : Name)
            → StandsFor signature calls self.old → NamesBlock calls name block
            → StandsFor signature (calls ++ answered (SetColdBlock name) [] ∷ []) self.new }
        ensures goes_on { GoesOn self.old self.new succeeded }
    {
        self.func.set_cold_block(block);
    }

    /// Brings the current block into the layout now, as its last block, even if nothing is made in it yet. It is no
    /// longer pristine then.
    ///
    /// There is a current block, which isn't filled.
    ///
    /// # Errors
    ///
    /// `Memory`, where memory is refused, and `Failed` after an error of an earlier call. The builder has failed
    /// then.
    pub fn ensure_inserted_block(&mut self) -> Result<(), BuildError>
        requires current { HasCurrent self.old }
        ensures call { IsCall self.old self.new result }
        ensures function { IfSome self.old.position (λ block. OnOk result
            (self.new.func.now ≡ inserted_in self.old.func.now block)) }
        ensures status { IfSome self.old.position (λ block. OnOk result
            (SetsStatus self.old.ctx.now.parts self.new.ctx.now.parts block (begun
            (status_of self.old.ctx.now.parts block)))) }
        ensures ssa { self.new.ctx.now.parts.ssa ≡ self.old.ctx.now.parts.ssa }
        ensures variables { self.new.ctx.now.parts.variables ≡ self.old.ctx.now.parts.variables }
        ensures never_full { result ≢ Err BuildError.Full }
        ensures told { IsTold self.old self.new result
            (λ _. Unit {0})
            (λ _. answered EnsureInsertedBlock []) }
        ensures goes_on { GoesOn self.old self.new result }
    {
        if self.failed {
            return Err(BuildError::Failed);
        }
        let Some(block) = self.position else {
            unreachable!();
        };
        let begun = begin_block(self.func, &mut self.ctx.parts, block);
        self.failed = begun.is_err();
        begun
    }

    /// Appends a parameter to a block, and returns its value. Pass an argument for it on each branch to the block;
    /// that isn't checked.
    ///
    /// The block is pristine ([`FunctionBuilder::is_pristine`]); later, parameters of variables may follow.
    ///
    /// # Errors
    ///
    /// `Memory`, where memory is refused, `Full`, where there are 2^32 - 1 values, and `Failed` after an error of an
    /// earlier call. The block has the parameters that it had then, and the builder has failed.
    pub fn append_block_param(&mut self, block: Block, ty: Type) -> Result<Value, BuildError>
        requires exists { block < length self.old.func.now.blocks }
        requires pristine { status_of self.old.ctx.now.parts block ≡ BlockStatus.Empty }
        ensures call { IsCall self.old self.new result }
        ensures function { OnOk result (self.new.func.now ≡ with_param self.old.func.now block ty) }
        ensures number { IfOk result (λ value. value ≡ length self.old.func.now.values) }
        ensures typed { IfOk result (λ value. (value_at self.new.func.now value).ty ≡ ty) }
        ensures context { self.new.ctx.now.parts ≡ self.old.ctx.now.parts }
        ensures full { result ≡ Err BuildError.Full → length self.old.func.now.values ≡ 2 ^ 32 - 1 }
        ensures told { (name : Name) → IsTold self.old self.new result
            (λ calls. NamesBlock calls name block)
            (λ value. answered (AppendBlockParams name (ty ∷ [])) (value ∷ [])) }
        ensures exists { IfOk result (λ value. value < length self.new.func.now.values) }
        ensures goes_on { GoesOn self.old self.new result }
    {
        if self.failed {
            return Err(BuildError::Failed);
        }
        self.func.law_consistent();
        let appended = self.func.append_block_param(block, ty);
        self.failed = appended.is_err();
        appended
    }

    /// Appends the function's parameters, as its signature lists them, to a block: the entry block, which
    /// [`FunctionBuilder::block_params`] then tells the values of.
    ///
    /// The block is pristine, and no branch leads to it ([`FunctionBuilder::has_any_predecessors`]).
    ///
    /// # Errors
    ///
    /// `Memory`, where memory is refused, `Full`, where there are 2^32 - 1 values now, and so no room for all of the
    /// parameters, and `Failed` after an error of an earlier call. Some may have been appended then, and the builder
    /// has failed.
    pub fn append_block_params_for_function_params(
        &mut self,
        block: Block,
    ) -> Result<(), BuildError>
        requires exists { block < length self.old.func.now.blocks }
        requires pristine { status_of self.old.ctx.now.parts block ≡ BlockStatus.Empty }
        requires alone { predecessors_of self.old.ctx.now.parts.ssa block ≡ [] }
        ensures call { IsCall self.old self.new result }
        ensures function { OnOk result (self.new.func.now ≡ with_params self.old.func.now block
            (types_of self.old.func.now.signature.params)) }
        ensures context { self.new.ctx.now.parts ≡ self.old.ctx.now.parts }
        ensures full { result ≡ Err BuildError.Full → length self.new.func.now.values ≡ 2 ^ 32 - 1 }
        ensures room { result ≡ Err BuildError.Full →
            NoRoomFor self.old.func.now (length self.old.func.now.signature.params) }
        ensures told { (name : Name) → IsTold self.old self.new result
            (λ calls. NamesBlock calls name block)
            (λ _. appended_params self.old name) }
        ensures goes_on { GoesOn self.old self.new result }
    {
        if self.failed {
            return Err(BuildError::Failed);
        }
        self.func.law_consistent();
        let appended = append_function_params(self.func, block);
        self.failed = appended.is_err();
        appended
    }

    /// Appends a parameter to a block for each value that the function returns: for a block that all returns jump to.
    ///
    /// The block is pristine.
    ///
    /// # Errors
    ///
    /// Those of [`FunctionBuilder::append_block_params_for_function_params`].
    pub fn append_block_params_for_function_returns(
        &mut self,
        block: Block,
    ) -> Result<(), BuildError>
        requires exists { block < length self.old.func.now.blocks }
        requires pristine { status_of self.old.ctx.now.parts block ≡ BlockStatus.Empty }
        ensures call { IsCall self.old self.new result }
        ensures function { OnOk result (self.new.func.now ≡ with_params self.old.func.now block
            (types_of self.old.func.now.signature.returns)) }
        ensures context { self.new.ctx.now.parts ≡ self.old.ctx.now.parts }
        ensures full { result ≡ Err BuildError.Full → length self.new.func.now.values ≡ 2 ^ 32 - 1 }
        ensures room { result ≡ Err BuildError.Full →
            NoRoomFor self.old.func.now (length self.old.func.now.signature.returns) }
        ensures told { (name : Name) → IsTold self.old self.new result
            (λ calls. NamesBlock calls name block)
            (λ _. appended_returns self.old name) }
        ensures goes_on { GoesOn self.old self.new result }
    {
        if self.failed {
            return Err(BuildError::Failed);
        }
        self.func.law_consistent();
        let appended = append_function_returns(self.func, block);
        self.failed = appended.is_err();
        appended
    }
}

// Appends a parameter to a block for each parameter of the function.
fn append_function_params(func: &mut Function, block: Block) -> Result<(), BuildError>
    requires { block < length func.old.blocks }
    ensures ok { OnOk result (func.new ≡ with_params func.old block
        (types_of func.old.signature.params)) }
    ensures grows { Grows func.old func.new }
    ensures full { result ≡ Err BuildError.Full → length func.new.values ≡ 2 ^ 32 - 1 }
    ensures room { result ≡ Err BuildError.Full →
        NoRoomFor func.old (length func.old.signature.params) }
    ensures never_failed { result ≢ Err BuildError.Failed }
{
    for index in 0..func.signature().params.len() {
        let ty = func.signature().params[index].value_type;
        func.append_block_param(block, ty)?;
    }
    Ok(())
}

// Appends a parameter to a block for each value that the function returns.
fn append_function_returns(func: &mut Function, block: Block) -> Result<(), BuildError>
    requires { block < length func.old.blocks }
    ensures ok { OnOk result (func.new ≡ with_params func.old block
        (types_of func.old.signature.returns)) }
    ensures grows { Grows func.old func.new }
    ensures full { result ≡ Err BuildError.Full → length func.new.values ≡ 2 ^ 32 - 1 }
    ensures room { result ≡ Err BuildError.Full →
        NoRoomFor func.old (length func.old.signature.returns) }
    ensures never_failed { result ≢ Err BuildError.Failed }
{
    for index in 0..func.signature().returns.len() {
        let ty = func.signature().returns[index].value_type;
        func.append_block_param(block, ty)?;
    }
    Ok(())
}
