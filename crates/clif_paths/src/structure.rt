//! The structure of blocks, over all of them, reached or not, with no premise on the program.

ghost use Rattle.clif_paths.specs.Shape.{FirstShapeStructured, StructureKept, ShapesAreStructured, EdgesMatch, SinglePredecessorKeepsNone, LookedUpOnce, UnrecordedIsUntouched};

/// The empty shape is structured.
pub fn first_shape_structured()
    ensures { FirstShapeStructured }
{}

/// Each step keeps the structure.
pub fn structure_kept()
    ensures { StructureKept }
{}

/// After any steps the shape is structured.
pub fn shapes_are_structured()
    ensures { ShapesAreStructured }
{}

/// Edges and parameters agree in number, order and type where nothing waits.
pub fn edges_match()
    ensures { EdgesMatch }
{}

/// A block with at most one predecessor keeps no variable's parameter.
pub fn single_predecessor_keeps_none()
    ensures { SinglePredecessorKeepsNone }
{}

/// At most one look-up of a variable begins in a block.
pub fn looked_up_once()
    ensures { LookedUpOnce }
{}

/// A block without a record for a variable neither uses nor assigns it.
pub fn unrecorded_is_untouched()
    ensures { UnrecordedIsUntouched }
{}
