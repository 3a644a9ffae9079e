//! Laws of bytes: what inline code of a copy, a fill or a comparison comes to in memory. The functions here have empty
//! bodies, and their contracts are the laws of the definitions.
#![tactic(auto)]

ghost use Rattle.clif_byte_laws.specs.Comparing.{ComparisonExamples, ComparisonsAgree};
ghost use Rattle.clif_byte_laws.specs.Pieces.{PieceExamples, PiecesLieWithin, PiecesMakeWhole};

/// Loads of all pieces and then stores of them copy, and stores of a repeated byte fill.
pub fn pieces_make_whole()
    ensures { PiecesMakeWhole }
{}

/// Pieces lie within the whole, are accessible where it is, and aligned where it is.
pub fn pieces_lie_within()
    ensures { PiecesLieWithin }
{}

/// Copies over themselves, repeated bytes, and stores over the end of the addresses.
pub fn piece_examples()
    ensures { PieceExamples }
{}

/// Integers, and the number that `Memcmp` answers, agree with the order of bytes.
pub fn comparisons_agree()
    ensures { ComparisonsAgree }
{}

/// Comparisons of no bytes, and of bytes whose integers are in another order.
pub fn comparison_examples()
    ensures { ComparisonExamples }
{}
