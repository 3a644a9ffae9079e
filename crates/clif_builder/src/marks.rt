//! The builder's calls that ask for stack maps, by which a collector finds the objects that it moves. `finalize` makes
//! them.
ghost use Rattle.std.specs.Prelude.{◌≡◌, [], IsTrue, List, false};
ghost use Rattle.clif_meaning.specs.Name.{Name};
ghost use Rattle.clif_meaning.specs.Request.{AnsweredCall, NeedStackMap, OfValue, OfVariable};
ghost use Rattle.clif_builder.specs.Calls.{IsTold, answered};
ghost use Rattle.clif_builder.specs.Context.{is_untouched};
ghost use Rattle.clif_builder.specs.Ledger.{AgreesWithLedger, NamesValue, ledger_of, never_touched};
ghost use Rattle.clif_builder.specs.Marks.{IsUnused, MarksVariable, RecordsValue, ValueFits, VariableFits};

use crate::builder::FunctionBuilder;
use clif_ssa::Variable;
use clif_types::{BuildError, Value};

impl<'a, R> FunctionBuilder<'a, R> {
    /// Whether a variable is declared, and was neither used nor assigned so far, so that it may be marked
    /// ([`FunctionBuilder::declare_var_needs_stack_map`]).
    ///
    /// An assignment that [`FunctionBuilder::try_def_var`] refuses is none. After an error of an earlier call the answer is
    /// false. It takes no memory.
    pub fn is_untouched(&self, variable: Variable) -> bool
        ensures exact { self.now.failed ≡ false → result ≡ is_untouched self.now.ctx.now.parts
            variable }
        ensures failed { IsTrue self.now.failed → result ≡ false }
        ensures unused { IsTrue result → IsUnused self.now.ctx.now.parts variable }
        ensures ledger { (calls : List AnsweredCall) → AgreesWithLedger calls self.now
            → self.now.failed ≡ false → result ≡ never_touched (ledger_of calls) variable }
    {
        if self.failed {
            return false;
        }
        self.ctx.parts.is_untouched(variable)
    }

    /// Has stack maps name each value that a variable gets: those that are assigned to it, and the block parameters
    /// that are made for it.
    ///
    /// The variable is declared, was neither used nor assigned so far ([`FunctionBuilder::is_untouched`]), and has a
    /// type of 1 to 16 bytes ([`FunctionBuilder::variable_type`]). No
    /// instruction is made, and no other call answers otherwise.
    ///
    /// # Errors
    ///
    /// `Memory`, where memory is refused, and `Failed` after an error of an earlier call. Nothing else has changed
    /// then, and the builder has failed.
    pub fn declare_var_needs_stack_map(&mut self, variable: Variable) -> Result<(), BuildError>
        requires fits { VariableFits self.old.ctx.now.parts variable }
        requires unused { IsUnused self.old.ctx.now.parts variable }
        ensures marks { MarksVariable self.old self.new result variable }
        ensures told { IsTold self.old self.new result (λ calls. Unit {0}) (λ u. answered
            (NeedStackMap (OfVariable variable)) []) }
    {
        if self.failed {
            return Err(BuildError::Failed);
        }
        let marked = self.ctx.parts.mark_var(variable);
        self.failed = marked.is_err();
        marked
    }

    /// Has stack maps name a value, where it is live across a call.
    ///
    /// The value has a type of 1 to 16 bytes. No instruction is made, and no other call answers otherwise.
    ///
    /// # Errors
    ///
    /// Those of [`FunctionBuilder::declare_var_needs_stack_map`].
    pub fn declare_value_needs_stack_map(&mut self, value: Value) -> Result<(), BuildError>
        requires { ValueFits self.old value }
        ensures records { RecordsValue self.old self.new result value }
        ensures told { (name : Name) → IsTold self.old self.new result
            (λ calls. NamesValue calls name value) (λ u. answered (NeedStackMap
            (OfValue name)) []) }
    {
        if self.failed {
            return Err(BuildError::Failed);
        }
        let recorded = self.ctx.parts.record_value(value);
        self.failed = recorded.is_err();
        recorded
    }
}
