//! Notes for a debugger: places in the source, and labels of values. Each is made on a builder if its condition holds.
ghost use Rattle.std.specs.Prelude.{◌≡◌, OnOk};
ghost use Rattle.clif_builder.specs.Builder.{with_srcloc};
ghost use Rattle.clif_builder.specs.Labels.{CollectsLabels};
ghost use Rattle.clif_replay.specs.Makes.{LabelsValue, MakesCall};
ghost use Rattle.clif_replay.specs.Ready.{IsSound};

use clif_builder::FunctionBuilder;
use clif_builder::laws::notes_add_nothing;
use clif_calls::{Call, Name};
use clif_resolution::{Answer, CallError, Condition, value_named};
use clif_types::{SourceLoc, ValueLabel};

// `set_srcloc(srcloc)`.
pub(crate) fn set_srcloc(
    builder: &mut FunctionBuilder<'_>,
    answers: &[Answer],
    srcloc: SourceLoc,
) -> Result<Answer, CallError>
    requires { IsSound builder.old answers.now }
    ensures made { MakesCall (Call.SetSrcloc srcloc) builder.old builder.new answers.now result }
    ensures place { builder.new ≡ with_srcloc builder.old srcloc }
{
    notes_add_nothing();
    builder.set_srcloc(srcloc);
    Ok(Answer::Nothing)
}

// `collect_debug_info()`.
pub(crate) fn collect_debug_info(
    builder: &mut FunctionBuilder<'_>,
    answers: &[Answer],
) -> Result<Answer, CallError>
    requires { IsSound builder.old answers.now }
    ensures made { MakesCall Call.CollectDebugInfo builder.old builder.new answers.now result }
    ensures collects { CollectsLabels builder.old builder.new }
{
    notes_add_nothing();
    builder.collect_debug_info();
    Ok(Answer::Nothing)
}

// `set_val_label(value, label)`, of a value that a name leads to.
pub(crate) fn set_val_label(
    builder: &mut FunctionBuilder<'_>,
    answers: &[Answer],
    name: Name,
    label: ValueLabel,
) -> Result<Answer, CallError>
    requires { IsSound builder.old answers.now }
    ensures made { MakesCall (Call.SetValLabel name label)
        builder.old builder.new answers.now result }
    ensures labels { OnOk result (LabelsValue builder.old builder.new answers.now name label) }
{
    notes_add_nothing();
    let Some(value) = value_named(builder.func(), answers, name) else {
        return Err(CallError::Misuse(Condition::NoValue(name)));
    };
    builder.set_val_label(value, label)?;
    Ok(Answer::Nothing)
}
