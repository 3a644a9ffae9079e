//! Labels: types, or whether a collector tracks something. They go with instances along paths, and in sound tables each
//! value has the label of what it was made for.

ghost use Rattle.clif_paths.specs.LabelLaws.{LabelsAreKept, LabelsGoAlong};
ghost use Rattle.clif_paths.specs.Labels.{ProgramKeepsLabels, FunctionKeepsLabels};

/// Variables and names keep their labels along each path.
pub fn program_keeps_labels()
    ensures { ProgramKeepsLabels }
{}

/// Values keep their labels along each path.
pub fn function_keeps_labels()
    ensures { FunctionKeepsLabels }
{}

/// In sound tables values have the labels of what they stand for.
pub fn labels_are_kept()
    ensures { LabelsAreKept }
{}

/// So these labels are kept along all edges that the program may turn out to have.
pub fn labels_go_along()
    ensures { LabelsGoAlong }
{}
