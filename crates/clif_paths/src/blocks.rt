//! The tables of blocks, as a builder keeps them: each change of theirs keeps soundness of the state they stand for, and
//! the labels of values.

ghost use Rattle.clif_paths.specs.BlockLaws.{FirstBlocksSound, BlockSealKeeps, BlocksSealKeeps, ItemKeeps, BornKeeps, ReadKeeps, WriteKeeps, CopyKeeps, ChainKeeps, ParameterKeeps, FilledKeeps, DroppedKeeps, ZeroInKeeps, UndefinedKeeps, RestatedKeeps, ForgetKeeps, RolesExtend, EndsAreEnds, NewLinkResolves, EndsAreUnique};

/// The first tables are sound.
pub fn first_blocks_sound()
    ensures { FirstBlocksSound }
{}

/// Sealing a block keeps soundness.
pub fn block_seal_keeps()
    ensures { BlockSealKeeps }
{}

/// Sealing several blocks at once keeps soundness.
pub fn blocks_seal_keeps()
    ensures { BlocksSealKeeps }
{}

/// Going on to a block's next item keeps soundness.
pub fn item_keeps()
    ensures { ItemKeeps }
{}

/// Giving a name by a new value keeps soundness.
pub fn born_keeps()
    ensures { BornKeeps }
{}

/// Using a variable that a block has a record of keeps soundness.
pub fn read_keeps()
    ensures { ReadKeeps }
{}

/// Assigning a name to a variable in a block that nothing leaves yet keeps soundness.
pub fn write_keeps()
    ensures { WriteKeeps }
{}

/// Copying a record into a block keeps soundness.
pub fn copy_keeps()
    ensures { CopyKeeps }
{}

/// A look-up along a chain of single predecessors keeps soundness.
pub fn chain_keeps()
    ensures { ChainKeeps }
{}

/// Adding a parameter that waits keeps soundness.
pub fn parameter_keeps()
    ensures { ParameterKeeps }
{}

/// Giving a parameter an argument on each arm keeps soundness.
pub fn filled_keeps()
    ensures { FilledKeeps }
{}

/// Dropping a parameter to which one other value alone comes keeps soundness.
pub fn dropped_keeps()
    ensures { DroppedKeeps }
{}

/// Putting a zero at a block's front keeps soundness.
pub fn zero_in_keeps()
    ensures { ZeroInKeeps }
{}

/// Making a parameter to which nothing comes an alias of the zero keeps soundness.
pub fn undefined_keeps()
    ensures { UndefinedKeeps }
{}

/// Tables that say the same of all that a path can see are as sound.
pub fn restated_keeps()
    ensures { RestatedKeeps }
{}

/// Records may be forgotten.
pub fn forget_keeps()
    ensures { ForgetKeeps }
{}

/// A new instruction has the home that the map gives it, and all other values keep theirs.
pub fn roles_extend()
    ensures { RolesExtend }
{}

/// The end of a value's links is its own end.
pub fn ends_are_ends()
    ensures { EndsAreEnds }
{}

/// A new link from an unlinked value to another makes that one an alias.
pub fn new_link_resolves()
    ensures { NewLinkResolves }
{}

/// Where no links run in a circle, they resolve in one way.
pub fn ends_are_unique()
    ensures { EndsAreUnique }
{}
