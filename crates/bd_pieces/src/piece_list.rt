//! A short list of pieces.
ghost use Rattle.std.specs.Prelude.{◌≡◌, ℕ, ◌<◌, [], ◌∷◌, ◌++◌, length};
ghost use Rattle.bd_pieces.specs.declared.piece_list.TheConstants.{MOST_PIECES};

use crate::piece::Piece;
use bd_base::{PIECES, Range};
use std::marker::Model;

/// How many pieces a list has room for: as many as the bytes of a call may have.
pub const MOST_PIECES: usize = PIECES as usize;

/// At most [`MOST_PIECES`] pieces in their order, in an array. Contracts see it as the list of its pieces.
#[derive(Debug, Drop)]
pub struct PieceList {
    items: [Piece; MOST_PIECES],
    count: usize,
}

impl Model for PieceList {
    ghost use Rattle.std.specs.Prelude.{List, ◌≤◌, take};
    ghost use Rattle.bd_pieces.specs.declared.piece_list.TheConstants.{MOST_PIECES};
    ghost use Rattle.bd_base.specs.Pieces.{Piece};

    ghost Value = { List Piece };

    ghost view = { λ a. take a.count a.items };

    ghost invariant = { λ a. a.count ≤ MOST_PIECES };
}

impl PieceList {
    /// A list with no piece.
    pub fn new() -> PieceList
        ensures { result ≡ [] }
    {
        let unused = Piece {
            index: 0,
            range: Range { lo: 0, hi: 1 },
        };
        PieceList {
            items: [unused; MOST_PIECES],
            count: 0,
        }
    }

    /// Appends a piece, for which there is room.
    pub fn push(&mut self, item: Piece)
        requires { length self.old < MOST_PIECES }
        ensures { self.new ≡ self.old ++ item ∷ [] }
    {
        self.items[self.count] = item;
        self.count += 1;
    }

    /// The pieces in their order.
    pub fn as_slice(&self) -> &[Piece]
        ensures { result.now ≡ self.now }
    {
        &self.items[..self.count]
    }
}
