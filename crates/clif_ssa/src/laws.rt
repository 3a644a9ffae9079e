//! Laws for the builder above: the tables of the theory of variables on paths describe what it makes of a function by
//! itself, and stay sound.

ghost use Rattle.clif_ssa.specs.SoundLaws.{FirstDescribes, SameStateKeeps, InsertionKeeps, NewBlockKeeps, ReadItemKeeps, WriteHereKeeps, WriteItemKeeps, OwnInstructionKeeps, OwnParameterKeeps, WaitingUseKeeps, ZeroUseKeeps, SealingKeeps, PredecessorDeclared, PredecessorRemoved, NewNameStays};
ghost use Rattle.clif_ssa.specs.Structure.{UsesAgree};
ghost use Rattle.clif_ssa.specs.Structured.{FirstStructured, NewBlockStructured, InsertionStructured, InstructionStructured, ParameterStructured};
ghost use Rattle.clif_ssa.specs.Within.{WaitingHeld};

/// The first tables describe a function without blocks, of which nothing is known.
pub fn first_describes()
    ensures { FirstDescribes }
{}

/// What the tables say of a state depends on its records and its blocks alone.
pub fn same_state_keeps()
    ensures { SameStateKeeps }
{}

/// A block enters the layout.
pub fn insertion_keeps()
    ensures { InsertionKeeps }
{}

/// A new block changes nothing that the tables say.
pub fn new_block_keeps()
    ensures { NewBlockKeeps }
{}

/// An item uses a variable.
pub fn read_item_keeps()
    ensures { ReadItemKeeps }
{}

/// A variable is assigned at the last place of a block.
pub fn write_here_keeps()
    ensures { WriteHereKeeps }
{}

/// An item assigns a variable.
pub fn write_item_keeps()
    ensures { WriteItemKeeps }
{}

/// The caller's own instruction, by whose results new names are given.
pub fn own_instruction_keeps()
    ensures { OwnInstructionKeeps }
{}

/// The caller's own parameter of a block, which a new name is given.
pub fn own_parameter_keeps()
    ensures { OwnParameterKeeps }
{}

/// A use in an unsealed block makes a parameter that waits.
pub fn waiting_use_keeps()
    ensures { WaitingUseKeeps }
{}

/// A use in a sealed block to which no branch leads makes a parameter that is a name of a zero.
pub fn zero_use_keeps()
    ensures { ZeroUseKeeps }
{}

/// A block to which no branch leads is sealed, and what waited in it is completed.
pub fn sealing_keeps()
    ensures { SealingKeeps }
{}

/// A branch is put behind those that lead to an unsealed block.
pub fn predecessor_keeps()
    ensures { PredecessorDeclared }
{}

/// A branch leads no longer to an unsealed block.
pub fn removed_predecessor_keeps()
    ensures { PredecessorRemoved }
{}

/// Tables with the same program have the same new names.
pub fn new_name_stays()
    ensures { NewNameStays }
{}

/// Two uses of a variable in a block stand for one value, where nothing between them assigns it there.
pub fn uses_agree()
    ensures { UsesAgree }
{}

/// A function without blocks, of which nothing is known, has the structure.
pub fn first_structured()
    ensures { FirstStructured }
{}

/// A new block leaves the structure.
pub fn new_block_structured()
    ensures { NewBlockStructured }
{}

/// A block that enters the layout leaves the structure.
pub fn insertion_structured()
    ensures { InsertionStructured }
{}

/// One more instruction of the caller's leaves the structure.
pub fn instruction_structured()
    ensures { InstructionStructured }
{}

/// A parameter of the caller's leaves the structure, in a block that has no parameter of a variable so far.
pub fn parameter_structured()
    ensures { ParameterStructured }
{}

/// A set holds what waits in a block as soon as it holds the block, where anything waits.
pub fn waiting_held()
    ensures { WaitingHeld }
{}
