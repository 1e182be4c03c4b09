//! The pieces of a byte range.
ghost use Rattle.std.specs.Prelude.{◌≡◌, ℕ, ◌+◌, ◌*◌, ◌<◌, ◌≤◌, length};
ghost use Rattle.bd_base.specs.declared.limits.TheConstants.{BLOCK_SIZE, CALL_BYTES, LAST_PLACE};
ghost use Rattle.bd_base.specs.Pieces.{piece_at, pieces};
ghost use Rattle.bd_pieces.specs.declared.piece_list.TheConstants.{MOST_PIECES};

use crate::piece::Piece;
use crate::piece_list::PieceList;
use bd_base::{BLOCK_SIZE, Range};

// The part of the `len` bytes from `off` on that lies in block number `index`.
fn cut_at(off: u64, len: u64, index: u64) -> Piece
    requires off { off ≤ LAST_PLACE }
    requires least { 1 ≤ len }
    requires most { len ≤ CALL_BYTES }
    requires begins { BLOCK_SIZE * index < off + len }
    requires ends { off < BLOCK_SIZE * index + BLOCK_SIZE }
    ensures { result ≡ piece_at off len index }
{
    let start = BLOCK_SIZE * index;
    let lo = off.max(start) - start;
    let hi = (off + len).min(start + BLOCK_SIZE) - start;
    Piece {
        index: index as u32,
        range: Range {
            lo: lo as u16,
            hi: hi as u16,
        },
    }
}

/// The pieces of the `len` bytes from place `off` of a file on, one for each block that they touch, in order.
pub fn pieces(off: u64, len: u64) -> PieceList
    requires off { off ≤ LAST_PLACE }
    requires least { 1 ≤ len }
    requires most { len ≤ CALL_BYTES }
    ensures pieces { result ≡ pieces off len }
    ensures least { 1 ≤ length result }
    ensures most { length result ≤ MOST_PIECES }
{
    let first = off / BLOCK_SIZE;
    let end = (off + len - 1) / BLOCK_SIZE + 1;
    let mut list = PieceList::new();
    for index in first..end {
        list.push(cut_at(off, len, index));
    }
    list
}
