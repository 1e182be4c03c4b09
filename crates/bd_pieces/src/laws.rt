//! What holds of pieces. Each call does nothing: its contract is the law.
ghost use Rattle.bd_pieces.specs.Laws.{PiecesAreTheRange};
ghost use Rattle.std.specs.Prelude.{◌≡◌};
ghost use Rattle.bd_pieces.specs.declared.piece_list.TheConstants.{MOST_PIECES};

/// The pieces of a byte range are its bytes, each once.
pub fn pieces_are_the_range()
    ensures { PiecesAreTheRange }
{}

/// A list has room for five pieces.
pub fn most_pieces_are_five()
    ensures { MOST_PIECES ≡ 5 }
{}
