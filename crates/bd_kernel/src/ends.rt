//! What an entry means for its call: whether it ends it, and whether it tells it a size.
ghost use Rattle.std.specs.Prelude.{◌≡◌, ◌++◌, ◌∷◌, [], List, false};
ghost use Rattle.bd_base.specs.Scripts.{IsCall};
ghost use Rattle.bd_entry.specs.declared.entry.Entry.{Entry};
ghost use Rattle.bd_entry.specs.Calls.{is_end_of, is_ended_by};
ghost use Rattle.bd_entry.specs.Effects.{tells_size};
ghost use Rattle.bd_kernel.specs.Kinds.{ends_by_pieces, is_of_piece, is_whole_refusal};
ghost use Rattle.bd_kernel.specs.Marks.{AreMarksOf};

use crate::calls::pieces_of;
use crate::running_call::RunningCall;
use bd_base::{Call, How, Way};
use bd_entry::Entry;

/// Whether the entry refuses its whole call.
pub fn is_whole_refusal(entry: &Entry) -> bool
    ensures { result ≡ is_whole_refusal entry.now }
{
    matches!(entry, Entry::Refused { piece: None, .. })
}

/// Whether the entry tells what became of the walk of a piece: its access, or its miss.
pub fn is_of_piece(entry: &Entry) -> bool
    ensures { result ≡ is_of_piece entry.now }
{
    matches!(entry, Entry::Access { .. } | Entry::Missed { .. })
}

/// Whether the entry alone ends the call.
pub fn is_end_of(call: &Call, entry: &Entry) -> bool
    ensures { result ≡ is_end_of call.now entry.now }
{
    if is_whole_refusal(entry) {
        return true;
    }
    match call {
        Call::Enter {
            how: How::Direct,
            ..
        }
        | Call::Map { .. } => matches!(entry, Entry::Mapped { .. }),
        Call::Enter {
            how: How::Plain,
            ..
        } => matches!(entry, Entry::Opened { .. }),
        Call::Create { .. } => matches!(entry, Entry::Created { .. }),
        Call::Truncate { .. } => matches!(entry, Entry::Sized { .. }),
        Call::Unlink { .. } => matches!(entry, Entry::Unlinked { .. }),
        Call::Size { .. } => matches!(entry, Entry::SizeRead { .. }),
        Call::Close { .. } => matches!(entry, Entry::Closed { .. }),
        Call::RawRead { .. } | Call::RawWrite { .. } => is_of_piece(entry),
        Call::Read { .. } | Call::Write { .. } => false,
    }
}

/// Whether the call ends as all its pieces are answered.
fn ends_by_pieces(call: &Call) -> bool
    ensures { result ≡ ends_by_pieces call.now }
{
    matches!(call, Call::Read { .. } | Call::Write { .. })
}

/// Whether the entry tells its process the size of its call's file.
pub fn tells_size(entry: &Entry) -> bool
    ensures { result ≡ tells_size entry.now }
{
    match entry {
        Entry::Access { way, .. } => *way != Way::Direct,
        Entry::Opened { .. }
        | Entry::Mapped { .. }
        | Entry::Extended { .. }
        | Entry::Sized { .. }
        | Entry::SizeRead { .. } => true,
        Entry::Created { .. }
        | Entry::Attached { .. }
        | Entry::Cleared { .. }
        | Entry::Detached { .. }
        | Entry::Missed { .. }
        | Entry::Released { .. }
        | Entry::Closed { .. }
        | Entry::Unlinked { .. }
        | Entry::Refused { .. } => false,
    }
}

impl RunningCall {
    /// Whether the entries of the call, of which this is the last, end it.
    pub fn is_ended_by(&self, call: &Call, last: &Entry) -> bool
        requires { IsCall call.now }
        ensures { (before : List Entry) → AreMarksOf self.now (before ++ last.now ∷ [])
            → is_ended_by call.now before ≡ false
            → result ≡ is_ended_by call.now (before ++ last.now ∷ []) }
    {
        if is_end_of(call, last) {
            return true;
        }
        if !ends_by_pieces(call) {
            return false;
        }
        self.are_answered(pieces_of(call).as_slice().len())
    }
}
