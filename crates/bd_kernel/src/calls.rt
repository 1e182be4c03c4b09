//! What a call asks for: its descriptor, its pieces and the bytes that it writes.
ghost use Rattle.std.specs.Prelude.{◌≡◌, ℕ, [], ◌∷◌, ◌%◌, List, Some};
ghost use Rattle.bd_base.specs.declared.limits.TheConstants.{FILE_BLOCKS};
ghost use Rattle.bd_base.specs.Scripts.{IsCall};
ghost use Rattle.bd_entry.specs.declared.entry.Entry.{Entry};
ghost use Rattle.bd_entry.specs.Calls.{bytes_for_piece, does_write, fd_of_address, fd_of_call, is_raw, named_fd, opened_fd, piece_end, piece_of_call, pieces_of_call};

use bd_base::{BLOCK_SIZE, Call, FILE_BLOCKS, Fd, Range, Vba};
use bd_pieces::{Piece, PieceList, pieces};

/// The descriptor that the call names.
pub fn named_fd(call: &Call) -> Option<u8>
    ensures { result ≡ named_fd call.now }
{
    match call {
        Call::Read { fd, .. }
        | Call::Write { fd, .. }
        | Call::Truncate { fd, .. }
        | Call::Size { fd }
        | Call::Map { fd }
        | Call::Close { fd } => Some(*fd),
        Call::Enter { .. }
        | Call::Create { .. }
        | Call::Unlink { .. }
        | Call::RawRead { .. }
        | Call::RawWrite { .. } => None,
    }
}

/// The descriptor of an address.
fn fd_of_address(vba: Vba) -> u8
    ensures { result ≡ fd_of_address vba }
{
    (vba.get() / FILE_BLOCKS) as u8
}

/// The descriptor of a call, where it opened this one.
pub fn fd_of_call(call: &Call, opened: Option<Fd>) -> Option<u8>
    ensures { (entries : List Entry) → opened ≡ opened_fd entries → result ≡ fd_of_call call.now entries }
{
    match call {
        Call::Enter { .. } => Some(opened?.get() as u8),
        Call::RawRead { vba, .. } | Call::RawWrite { vba, .. } => Some(fd_of_address(*vba)),
        Call::Create { .. }
        | Call::Read { .. }
        | Call::Write { .. }
        | Call::Truncate { .. }
        | Call::Unlink { .. }
        | Call::Size { .. }
        | Call::Map { .. }
        | Call::Close { .. } => named_fd(call),
    }
}

/// Whether the call writes bytes.
pub fn does_write(call: &Call) -> bool
    ensures { result ≡ does_write call.now }
{
    matches!(call, Call::Write { .. } | Call::RawWrite { .. })
}

/// Whether the call is a raw command.
pub fn is_raw(call: &Call) -> bool
    ensures { result ≡ is_raw call.now }
{
    matches!(call, Call::RawRead { .. } | Call::RawWrite { .. })
}

/// The one piece of a raw command: the range of the block at its address.
fn raw_pieces(vba: Vba, range: Range) -> PieceList
    ensures { result ≡ record { index = vba % FILE_BLOCKS; range = range } ∷ [] }
{
    let mut list = PieceList::new();
    let index = (vba.get() % FILE_BLOCKS) as u32;
    list.push(Piece { index, range });
    list
}

/// The pieces of a call in order.
pub fn pieces_of(call: &Call) -> PieceList
    requires { IsCall call.now }
    ensures { result ≡ pieces_of_call call.now }
{
    match call {
        Call::Read { off, len, .. } => pieces(*off, u64::from(*len)),
        Call::Write { off, bytes, .. } => pieces(*off, bytes.len() as u64),
        Call::RawRead { vba, range } => raw_pieces(*vba, *range),
        Call::RawWrite { vba, lo, bytes } => {
            let range = Range {
                lo: *lo,
                hi: *lo + bytes.len() as u16,
            };
            raw_pieces(*vba, range)
        }
        Call::Enter { .. }
        | Call::Create { .. }
        | Call::Truncate { .. }
        | Call::Unlink { .. }
        | Call::Size { .. }
        | Call::Map { .. }
        | Call::Close { .. } => PieceList::new(),
    }
}

/// The piece of this number.
pub fn piece_of(call: &Call, number: u8) -> Option<Piece>
    requires { IsCall call.now }
    ensures { result ≡ piece_of_call call.now number }
{
    let pieces = pieces_of(call);
    pieces.as_slice().get(usize::from(number)).copied()
}

/// The place in its file where a piece ends.
pub fn piece_end(piece: Piece) -> u64
    ensures { result ≡ piece_end piece }
{
    BLOCK_SIZE * u64::from(piece.index) + u64::from(piece.range.hi)
}

/// The bytes that the call writes by this piece, which is one of its own; none where it writes none.
pub fn bytes_for_piece(call: &Call, piece: Piece) -> &[u8]
    requires call { IsCall call.now }
    requires piece { (number : ℕ) × (piece_of_call call.now number ≡ Some piece) }
    ensures { result.now ≡ bytes_for_piece call.now piece }
{
    match call {
        Call::Write { off, bytes, .. } => {
            let start = BLOCK_SIZE * u64::from(piece.index) + u64::from(piece.range.lo) - off;
            let start = start as usize;
            &bytes.as_slice()[start..start + piece.range.count()]
        }
        Call::RawWrite { bytes, .. } => bytes.as_slice(),
        Call::Enter { .. }
        | Call::Create { .. }
        | Call::Read { .. }
        | Call::Truncate { .. }
        | Call::Unlink { .. }
        | Call::Size { .. }
        | Call::Map { .. }
        | Call::Close { .. }
        | Call::RawRead { .. } => &[],
    }
}
