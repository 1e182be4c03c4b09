//! One piece of a byte range of a file.
ghost use Rattle.std.specs.Prelude.{◌↔◌, ℕ, ◌+◌, ◌*◌, ◌≤◌, IsTrue};
ghost use Rattle.bd_base.specs.declared.limits.TheConstants.{BLOCK_SIZE};

use bd_base::{BLOCK_SIZE, Range};
use std::marker::Model;

/// The bytes of a range that lie in one block of a file. Contracts see it as the piece of the definitions.
#[derive(Clone, Copy, Debug, PartialEq, Eq)]
pub struct Piece {
    /// Which block of the file, from 0 on.
    pub index: u32,
    /// The bytes within that block, from 0 to 4096.
    pub range: Range,
}

impl Model for Piece {
    ghost use Rattle.bd_base.specs.Pieces.{Piece};

    ghost Value = { Piece };

    ghost view = { λ a. record { index = a.index; range = a.range } };

    ghost inverse = { λ p. record { index = p.index; range = p.range } };
}

/// Whether a process reaches the piece directly: where it ends at or below `known`, the size of the file in bytes that
/// the process knows of.
pub fn goes_direct(piece: Piece, known: u64) -> bool
    ensures { IsTrue result ↔ (BLOCK_SIZE * piece.index + piece.range.hi ≤ known) }
{
    BLOCK_SIZE * u64::from(piece.index) + u64::from(piece.range.hi) <= known
}
