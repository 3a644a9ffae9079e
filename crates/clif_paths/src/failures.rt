//! Laws of failure: what a wrong step breaks.

ghost use Rattle.clif_paths.specs.Failures.{DropBreaks, CopyBreaks, AssignBreaks, ZeroBreaks, CopyFromNowhereBreaks};

/// Dropping a parameter where another value also comes in.
pub fn drop_breaks()
    ensures { DropBreaks }
{}

/// Copying a record where one predecessor's differs.
pub fn copy_breaks()
    ensures { CopyBreaks }
{}

/// Assigning at a place that an arm into a sealed place leaves.
pub fn assign_breaks()
    ensures { AssignBreaks }
{}

/// Taking a zero where a value comes in.
pub fn zero_breaks()
    ensures { ZeroBreaks }
{}

/// Copying a record of another label into a block to which nothing leads.
pub fn copy_from_nowhere_breaks()
    ensures { CopyFromNowhereBreaks }
{}
