//! What makes an instruction of any shape.
ghost use Rattle.std.specs.Prelude.{◌≡◌, ◌∷◌, [], length, Err, All};
ghost use Rattle.clif_instructions.specs.Instruction.{AConstant, contexts, entries_of, operands, destinations};
ghost use Rattle.clif_inst_builder.specs.Served.{exception_tables, jump_tables};
ghost use Rattle.clif_inst_builder.specs.Shapes.{AfterPooling, AfterTaking, AfterValue, GivesPair, GivesValue, IsStraight, LikeIsValue};

use clif_instructions::exception_table::ExceptionTargets;
use clif_instructions::instructions::InstructionData;
use clif_instructions::jump_table::JumpTableData;
use clif_types::{BuildError, Constant, ExceptionTable, Inst, JumpTable, Type, Value};
use std::alloc::Global;

/// What makes an instruction of any shape at the end of the current block.
///
/// The implementor chooses what its methods answer: a `Result`, or the plain value, where it keeps what went wrong itself.
pub trait InstBuilderBase {
    /// What is answered where an instruction has one result: its value.
    type ValueAnswer;

    /// What is answered where it has two: their values in order.
    type PairAnswer;

    /// What is answered of any other instruction: its number.
    type InstAnswer;

    ghost use Rattle.std.specs.Prelude.{ℕ, List, Result, Err};
    ghost use Rattle.clif_types.specs.declared.error.BuildError.{BuildError};
    ghost use Rattle.clif_types.specs.declared.types.«Type».{«Type»};
    ghost use Rattle.clif_instructions.specs.declared.block_call.BlockCall.{BlockCall};
    ghost use Rattle.clif_instructions.specs.ExceptionTables.{ExceptionShape};
    ghost use Rattle.clif_instructions.specs.declared.instructions.InstructionData.{InstructionData};
    ghost use Rattle.clif_instructions.specs.Instruction.{EntryRef, AConstant};

    // what is asked of a caller, of a condition on types: the condition itself, or nothing
    ghost asks: { Type 0 → Type 0 };

    // the answer that is made of this result
    ghost answer_value: { Result ℕ BuildError → Self.ValueAnswer };

    ghost answer_inst: { Result ℕ BuildError → Self.InstAnswer };

    // the result that an answer was made of
    ghost value_in: { Self.ValueAnswer → Result ℕ BuildError };

    // there is a current block, which may get an instruction
    ghost can_build: { Self → Type 0 };

    // the function has this value
    ghost has_value: { Self → ℕ → Type 0 };

    // the function has this entry of a table
    ghost has_entry: { Self → EntryRef → Type 0 };

    // an edge may be made: its target exists and isn't sealed, and the function has what it passes
    ghost can_lead: { Self → BlockCall → Type 0 };

    // the type of a value
    ghost type_of: { Self → ℕ → «Type» };

    // what `pool_constant` makes of the builder, by the bytes and its result
    ghost pools: { Self → Self → List ℕ → Result ℕ BuildError → Type 0 };

    // there is a jump table of this number that serves no instruction so far, and its edges may be made
    ghost has_jump_table: { Self → ℕ → Type 0 };

    // what `take_jump_table` makes of the builder, by the table and its result
    ghost takes: { Self → Self → ℕ → Result (List BlockCall) BuildError → Type 0 };

    // there is an exception table of this number that serves no instruction so far, its edges may be made, and its
    // contexts and its signature exist
    ghost has_exception_table: { Self → ℕ → Type 0 };

    // what `take_exception_table` makes of the builder, by the table and its result
    ghost takes_exception: { Self → Self → ℕ → Result ExceptionShape BuildError → Type 0 };

    // what `build` makes of the builder, by its answer
    ghost builds: { Self → Self → InstructionData → «Type» → Self.InstAnswer → Type 0 };

    // what `build_value` makes of it
    ghost builds_value: { Self → Self → InstructionData → «Type» → Self.ValueAnswer → Type 0 };

    // what `build_like` makes of it
    ghost builds_like: { Self → Self → InstructionData → ℕ → Self.ValueAnswer → Type 0 };

    // what `build_pair` makes of it
    ghost builds_pair: { Self → Self → InstructionData → ℕ → Self.PairAnswer → Type 0 };

    /// The answer that is made of a result.
    fn answer_value(made: Result<Value, BuildError>) -> Self::ValueAnswer
        ensures { result ≡ answer_value made };

    /// The same, of an instruction.
    fn answer_inst(made: Result<Inst, BuildError>) -> Self::InstAnswer
        ensures { result ≡ answer_inst made };

    /// The value that an answer has, to build on with it, or why there is none.
    fn value_in(answer: Self::ValueAnswer) -> Result<Value, BuildError>
        ensures { result ≡ value_in answer };

    /// The type of a value.
    fn value_type(&self, value: Value) -> Type
        requires exists { has_value self.now value }
        ensures { result ≡ type_of self.now value };

    /// The allocator of what an instruction holds.
    fn allocator(&self) -> Global;

    /// The constant of these bytes, the lowest first. It is made if there is none: equal bytes are one constant.
    fn pool_constant(&mut self, bytes: &[u8]) -> Result<Constant, BuildError>
        ensures pooled { pools self.old self.new bytes.now result };

    /// Takes the edges of a jump table for the instruction that it serves from now on.
    fn take_jump_table(&mut self, table: JumpTable) -> Result<JumpTableData, BuildError>
        requires serves { has_jump_table self.old table }
        ensures taken { takes self.old self.new table result };

    /// Takes what an exception table holds for the instruction that it serves from now on.
    fn take_exception_table(
        &mut self,
        table: ExceptionTable,
    ) -> Result<ExceptionTargets, BuildError>
        requires serves { has_exception_table self.old table }
        ensures taken { takes_exception self.old self.new table result };

    /// Appends an instruction; `ctrl_type` is its controlling type.
    ///
    /// A terminator fills the block. A branch becomes a predecessor of the target of each edge, once.
    fn build(&mut self, shape: InstructionData, ctrl_type: Type) -> Self::InstAnswer
        requires current { can_build self.old }
        requires operands_exist { All (has_value self.old) (operands shape) }
        requires contexts_exist { All (has_value self.old) (contexts shape) }
        requires edges { All (can_lead self.old) (destinations shape) }
        requires entries_exist { All (has_entry self.old) (entries_of shape) }
        ensures built { builds self.old self.new shape ctrl_type result };

    #[tactic(auto, using(crate::proofs::NoCalls::straight_rules))]
    /// Appends an instruction that neither branches nor ends the block, so that one can build on; `ctrl_type` is its
    /// controlling type.
    final fn build_aux_inst(&mut self, shape: InstructionData, ctrl_type: Type) -> Self::InstAnswer
        requires current { Self.can_build self.old }
        requires operands_exist { All (Self.has_value self.old) (operands shape) }
        requires entries_exist { All (Self.has_entry self.old) (entries_of shape) }
        requires straight { IsStraight shape }
        ensures built { Self.builds self.old self.new shape ctrl_type result }
    {
        self.build(shape, ctrl_type)
    }

    /// Appends an instruction that has one result and goes on behind it, and returns the result's value.
    fn build_value(&mut self, shape: InstructionData, ctrl_type: Type) -> Self::ValueAnswer
        requires current { can_build self.old }
        requires operands_exist { All (has_value self.old) (operands shape) }
        requires entries_exist { All (has_entry self.old) (entries_of shape) }
        requires value { GivesValue shape }
        ensures built { builds_value self.old self.new shape ctrl_type result };

    /// The same, with the type of `like` as the controlling type.
    fn build_like(&mut self, shape: InstructionData, like: Value) -> Self::ValueAnswer
        requires current { can_build self.old }
        requires operands_exist { All (has_value self.old) (operands shape) }
        requires entries_exist { All (has_entry self.old) (entries_of shape) }
        requires value { GivesValue shape }
        requires like_exists { has_value self.old like }
        ensures built { builds_like self.old self.new shape like result };

    /// Appends an instruction that has two results and goes on behind it, with the type of `like` as the controlling
    /// type, and returns the values of the results in order.
    fn build_pair(&mut self, shape: InstructionData, like: Value) -> Self::PairAnswer
        requires current { can_build self.old }
        requires operands_exist { All (has_value self.old) (operands shape) }
        requires entries_exist { All (has_entry self.old) (entries_of shape) }
        requires pair { GivesPair shape }
        requires like_exists { has_value self.old like }
        ensures built { builds_pair self.old self.new shape like result };

    /// Fails, since memory was refused for what an instruction was to hold.
    fn refuse(&mut self) -> BuildError
        ensures refused { (shape : InstructionData) (ty : «Type») →
            builds self.old self.new shape ty (answer_inst (Err result)) };

    // after a value was built one can build on, with this value, and with the values and entries that there were before
    ghost builds_on: { AfterValue answer_value builds_value (λ old new value. can_build new) };

    ghost built_exists: { AfterValue answer_value builds_value
        (λ old new value. has_value new value) };

    ghost others_exist: { AfterValue answer_value builds_value
        (λ old new value. (x : ℕ) → has_value old x → has_value new x) };

    ghost entries_stay: { AfterValue answer_value builds_value
        (λ old new value. (entry : EntryRef) → has_entry old entry → has_entry new entry) };

    // after a constant was pooled it is there, and one can build as before
    ghost pooled_exists: { AfterPooling pools
        (λ old new constant. has_entry new (AConstant constant)) };

    ghost pooled_builds: { AfterPooling pools (λ old new constant. can_build old → can_build new) };

    // after a jump table was taken its edges may be made, the values are there, and one can build as before
    ghost taken_leads: { AfterTaking takes (λ old new table edges. has_jump_table old table
        → jump_tables.CanBeNamed (can_lead new) (has_value new) (has_entry new) edges) };

    ghost taken_values: { AfterTaking takes
        (λ old new table edges. (x : ℕ) → has_value old x → has_value new x) };

    ghost taken_builds: { AfterTaking takes
        (λ old new table edges. can_build old → can_build new) };

    // after an exception table was taken what it holds may be named, the values and entries are there, and one can build
    // as before
    ghost exception_can_be_named: { AfterTaking takes_exception
        (λ old new table exception. has_exception_table old table
        → exception_tables.CanBeNamed (can_lead new) (has_value new) (has_entry new) exception) };

    ghost exception_values: { AfterTaking takes_exception
        (λ old new table exception. (x : ℕ) → has_value old x → has_value new x) };

    ghost exception_entries: { AfterTaking takes_exception
        (λ old new table exception. (entry : EntryRef) → has_entry old entry → has_entry new entry) };

    ghost exception_builds: { AfterTaking takes_exception
        (λ old new table exception. can_build old → can_build new) };

    // an answer is made of the result in it
    ghost answer_is: { (answer : Self.ValueAnswer) → answer_value (value_in answer) ≡ answer };

    ghost like_is_value: { LikeIsValue builds_like builds_value type_of };
}

/// The two values of a list.
pub fn both_values(values: &[Value]) -> (Value, Value)
    requires { length values.now ≡ 2 }
    ensures { values.now ≡ result.0 ∷ result.1 ∷ [] }
{
    (values[0], values[1])
}
