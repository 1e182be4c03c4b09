//! Which entries belong to a call.
ghost use Rattle.std.specs.Prelude.{◌≡◌};
ghost use Rattle.bd_entry.specs.Calls.{is_made_by};
ghost use Rattle.bd_store.specs.Kinds.{is_of_revocation};

use bd_base::{Call, How};
use bd_entry::Entry;
use bd_kernel::{is_end_of, is_of_piece, is_whole_refusal};

/// Whether entries of this kind belong to the call.
pub(crate) fn is_made_by(call: &Call, entry: &Entry) -> bool
    ensures { result ≡ is_made_by call.now entry.now }
{
    if is_whole_refusal(entry) || is_end_of(call, entry) {
        return true;
    }
    match call {
        Call::Enter {
            how: How::Direct,
            ..
        } => matches!(entry, Entry::Opened { .. } | Entry::Attached { .. }),
        Call::Map { .. } => matches!(entry, Entry::Attached { .. }),
        Call::Enter {
            how: How::Plain,
            ..
        }
        | Call::Close { .. } => is_of_revocation(entry),
        Call::Truncate { .. } => {
            is_of_revocation(entry)
                || matches!(entry, Entry::Released { .. } | Entry::Extended { .. })
        }
        Call::Unlink { .. } => matches!(entry, Entry::Released { .. }),
        Call::Read { .. } => is_of_piece(entry),
        Call::Write { .. } => {
            is_of_piece(entry)
                || matches!(
                    entry,
                    Entry::Extended { .. } | Entry::Refused { piece: Some(_), .. }
                )
        }
        Call::Create { .. } | Call::Size { .. } | Call::RawRead { .. } | Call::RawWrite { .. } =>
            false,
    }
}

/// Whether the entry tells that a right is cleared or detached.
fn is_of_revocation(entry: &Entry) -> bool
    ensures { result ≡ is_of_revocation entry.now }
{
    matches!(entry, Entry::Cleared { .. } | Entry::Detached { .. })
}
