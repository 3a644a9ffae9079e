//! Uses and assignments of variables that may not be declared: each is tried, and refused where the variable is to blame.
ghost use Rattle.std.specs.Prelude.{◌≡◌, ◌≢◌, ◌↔◌, ◌<◌, ℕ, List, [], ◌∷◌, Err, Ok, OnOk, IfErr, IfOk, IfSome, IsTrue, Some, false, is_some, length, slice_get};
ghost use Rattle.clif_ir.specs.Body.{value_at};
ghost use Rattle.clif_ir.specs.Changes.{inserted_in};
ghost use Rattle.clif_meaning.specs.Name.{Name};
ghost use Rattle.clif_meaning.specs.Request.{AnsweredCall, DefVar};
ghost use Rattle.clif_simulation.specs.Structure.{KeepsNoParameter};
ghost use Rattle.clif_ssa.specs.Constructs.{OnlyConstructs};
ghost use Rattle.clif_ssa.specs.Pools.{MayPool, UseIsFull};
ghost use Rattle.clif_ssa.specs.Ssa.{Records, SealedStays};
ghost use Rattle.clif_types.specs.Signature.{SignatureShape};
ghost use Rattle.clif_types.specs.declared.types.«Type».{«Type»};
ghost use Rattle.clif_builder.specs.GoesOn.{GoesOn, GoesOnWhere, IsUnassigned};
ghost use Rattle.clif_builder.specs.Uses.{UsesVariable, value_given};
ghost use Rattle.clif_builder.specs.Attempts.{IsMistyped, RefusesAssignment, RefusesUse, use_told};
ghost use Rattle.clif_builder.specs.Builder.{HasCurrent, Uses};
ghost use Rattle.clif_builder.specs.Calls.{IsCall, IsTold, answered};
ghost use Rattle.clif_builder.specs.Construction.{IsUse};
ghost use Rattle.clif_builder.specs.Context.{Begins, SetsStatus, begun, status_of};
ghost use Rattle.clif_builder.specs.Growth.{Grows, HasRecordIn, RemembersIn};
ghost use Rattle.clif_builder.specs.Ledger.{AgreesWithLedger, NamesValue};
ghost use Rattle.clif_builder.specs.StandsFor.{StandsFor};
ghost use Rattle.clif_builder.specs.Tracking.{TracksBinding};

use crate::builder::FunctionBuilder;
use crate::error::{DefVariableError, UseVariableError};
use clif_ssa::Variable;
use clif_types::{BuildError, Type, Value};

impl<'a, R> FunctionBuilder<'a, R> {
    /// The value that a variable has at this point of the current block, as [`FunctionBuilder::use_var`] returns it,
    /// if the variable is declared.
    ///
    /// There is a current block, which isn't filled.
    ///
    /// # Errors
    ///
    /// `UsedBeforeDeclared` for a variable that isn't declared: the current block is in the layout then, as after
    /// [`FunctionBuilder::ensure_inserted_block`], nothing else has changed, and the builder goes on. `Memory`,
    /// `Full` or `Failed` as [`FunctionBuilder::use_var`].
    pub fn try_use_var(
        &mut self,
        variable: Variable,
    ) -> Result<Result<Value, UseVariableError>, BuildError>
        requires current { HasCurrent self.old }
        ensures call { IsCall self.old self.new result }
        ensures declared { IfOk result (λ answer. OnOk answer
            (variable < length self.old.ctx.now.parts.variables)) }
        ensures refused { IfOk result (λ answer. IfErr answer
            (RefusesUse self.old self.new variable)) }
        ensures full_declared { result ≡ Err BuildError.Full
            → variable < length self.old.ctx.now.parts.variables }
        ensures told { IsTold self.old self.new result
            (λ _. Unit {0})
            (use_told variable) }
        ensures parameters { (signature : SignatureShape) (calls : List AnsweredCall)
            → StandsFor signature calls self.new → KeepsNoParameter calls self.new.func.now
            self.new.ctx.now.parts.ssa }
        ensures goes_on { GoesOn self.old self.new result }
        ensures used { UsesVariable value_given variable self.old self.new result }
    {
        if !self.is_declared(variable) {
            self.ensure_inserted_block()?;
            return Ok(Err(UseVariableError::UsedBeforeDeclared(variable)));
        }
        let value = self.use_var(variable)?;
        Ok(Ok(value))
    }

    /// Assigns a value to a variable, as [`FunctionBuilder::def_var`] does, if the variable is declared and its type
    /// is the value's.
    ///
    /// There is a current block, which isn't filled.
    ///
    /// # Errors
    ///
    /// `DefinedBeforeDeclared`, exactly where the builder hasn't failed and the variable isn't declared; else `TypeMismatch`,
    /// exactly where the value has another type: nothing has changed then, and the builder goes on. `Memory` or `Failed` as
    /// [`FunctionBuilder::def_var`].
    pub fn try_def_var(
        &mut self,
        variable: Variable,
        value: Value,
    ) -> Result<Result<(), DefVariableError>, BuildError>
        requires current { HasCurrent self.old }
        requires value_exists { value < length self.old.func.now.values }
        ensures call { IsCall self.old self.new result }
        ensures same_type { IfOk result (λ answer. OnOk answer
            (slice_get self.old.ctx.now.parts.variables variable ≡ Some
            (value_at self.old.func.now value).ty)) }
        ensures refused { IfOk result (λ answer. IfErr answer
            (RefusesAssignment self.old self.new variable value)) }
        ensures refusal { (error : DefVariableError) → (result ≡ Ok (Err error))
            ↔ ((self.old.failed ≡ false) × IsMistyped self.old variable value error) }
        ensures function { self.new.func.now ≡ self.old.func.now }
        ensures records { IfSome self.old.position (λ block. IfOk result (λ answer. OnOk answer
            (Records self.old.ctx.now.parts.ssa self.new.ctx.now.parts.ssa variable block value))) }
        ensures tracks { IfOk result (λ answer. OnOk answer
            (TracksBinding self.old.ctx.now.parts self.new.ctx.now.parts variable value)) }
        ensures sealed { self.new.ctx.now.parts.ssa.blocks ≡ self.old.ctx.now.parts.ssa.blocks }
        ensures status { self.new.ctx.now.parts.status ≡ self.old.ctx.now.parts.status }
        ensures variables { self.new.ctx.now.parts.variables ≡ self.old.ctx.now.parts.variables }
        ensures never_full { result ≢ Err BuildError.Full }
        ensures told { (name : Name) → IfOk result (λ answer. IsTold self.old self.new answer
            (λ calls. NamesValue calls name value)
            (λ _. answered (DefVar variable name) [])) }
        ensures goes_on { GoesOnWhere (IsUnassigned self.old variable) self.old self.new result }
    {
        if self.failed {
            return Err(BuildError::Failed);
        }
        if let Err(error) = self.check_assignment(variable, value) {
            return Ok(Err(error));
        }
        self.def_var(variable, value)?;
        Ok(Ok(()))
    }

    /// The type of a variable, if it is declared.
    pub fn variable_type(&self, variable: Variable) -> Option<Type>
        ensures { result ≡ slice_get self.now.ctx.now.parts.variables variable }
    {
        self.ctx.parts.var_type(variable)
    }

    // Whether a variable is declared.
    fn is_declared(&self, variable: Variable) -> bool
        ensures { result ≡ is_some (slice_get self.now.ctx.now.parts.variables variable) }
    {
        self.variable_type(variable).is_some()
    }

    // Whether a value may be assigned to a variable.
    fn check_assignment(&self, variable: Variable, value: Value) -> Result<(), DefVariableError>
        requires { value < length self.now.func.now.values }
        ensures same_type { OnOk result (slice_get self.now.ctx.now.parts.variables variable ≡ Some
            (value_at self.now.func.now value).ty) }
        ensures mistyped { IfErr result (IsMistyped self.now variable value) }
    {
        let Some(ty) = self.ctx.parts.var_type(variable) else {
            return Err(DefVariableError::DefinedBeforeDeclared(variable));
        };
        if is_same_type(ty, self.func.value_type(value)) {
            Ok(())
        } else {
            Err(DefVariableError::TypeMismatch(variable, value))
        }
    }
}

// Whether two types are equal.
fn is_same_type(a: Type, b: Type) -> bool
    ensures { IsTrue result ↔ (a ≡ b) }
{
    a == b
}
