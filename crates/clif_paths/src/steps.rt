//! Every step keeps soundness.

ghost use Rattle.clif_paths.specs.Laws.{FirstIsSound, SealKeeps, RecordKeeps, WaitKeeps, FillKeeps, DropKeeps, ZeroKeeps, UndefineKeeps, GiveKeeps, UseKeeps, AssignKeeps, RestateKeeps, StepsKeep};

/// The first state is sound.
pub fn first_is_sound()
    ensures { FirstIsSound }
{}

/// Sealing a place keeps soundness.
pub fn seal_keeps()
    ensures { SealKeeps }
{}

/// Copying and forgetting records keeps soundness.
pub fn record_keeps()
    ensures { RecordKeeps }
{}

/// Adding a waiting parameter keeps soundness.
pub fn wait_keeps()
    ensures { WaitKeeps }
{}

/// Giving a waiting parameter its arguments keeps soundness.
pub fn fill_keeps()
    ensures { FillKeeps }
{}

/// Dropping a parameter to which one other value alone comes keeps soundness.
pub fn drop_keeps()
    ensures { DropKeeps }
{}

/// Putting a zero keeps soundness.
pub fn zero_keeps()
    ensures { ZeroKeeps }
{}

/// Making a parameter to which nothing comes an alias of the zero keeps soundness.
pub fn undefine_keeps()
    ensures { UndefineKeeps }
{}

/// Giving a name keeps soundness.
pub fn give_keeps()
    ensures { GiveKeeps }
{}

/// Using a variable keeps soundness.
pub fn use_keeps()
    ensures { UseKeeps }
{}

/// Assigning a name keeps soundness.
pub fn assign_keeps()
    ensures { AssignKeeps }
{}

/// Restating what no path can see keeps soundness.
pub fn restate_keeps()
    ensures { RestateKeeps }
{}

/// Any steps keep soundness.
pub fn steps_keep()
    ensures { StepsKeep }
{}
