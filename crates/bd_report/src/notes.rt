//! What the entries of a call tell of its reply.
ghost use Rattle.std.specs.Prelude.{◌≡◌, ℕ, ◌<◌, [], ◌∷◌, ◌++◌, List, IfSome, length, get_or};
ghost use Rattle.std.specs.Option.{option_copied};
ghost use Rattle.bd_base.specs.declared.script.Call.{Call};
ghost use Rattle.bd_entry.specs.Calls.{is_answer_of, is_end_of};
ghost use Rattle.bd_entry.specs.declared.entry.Entry.{Entry};
ghost use Rattle.bd_pieces.specs.declared.piece_list.TheConstants.{MOST_PIECES};
ghost use Rattle.bd_report.specs.Notes.{AreNotesOf, answered_piece, first_of};

use bd_base::{Call, How};
use bd_entry::Entry;
use bd_pieces::MOST_PIECES;

/// Whether the entry alone ends the call.
fn does_end(call: &Call, entry: &Entry) -> bool
    ensures { result ≡ is_end_of call.now entry.now }
{
    match (call, entry) {
        (_, Entry::Refused { piece: None, .. })
        | (
            Call::Enter {
                how: How::Direct,
                ..
            },
            Entry::Mapped { .. },
        )
        | (
            Call::Enter {
                how: How::Plain,
                ..
            },
            Entry::Opened { .. },
        )
        | (Call::Create { .. }, Entry::Created { .. })
        | (Call::Truncate { .. }, Entry::Sized { .. })
        | (Call::Unlink { .. }, Entry::Unlinked { .. })
        | (Call::Size { .. }, Entry::SizeRead { .. })
        | (Call::Map { .. }, Entry::Mapped { .. })
        | (Call::Close { .. }, Entry::Closed { .. })
        | (
            Call::RawRead { .. } | Call::RawWrite { .. },
            Entry::Access { .. } | Entry::Missed { .. },
        ) => true,
        _ => false,
    }
}

/// The number of the piece that the entry answers.
fn answered_piece(entry: &Entry) -> Option<u8>
    ensures { result ≡ answered_piece entry.now }
{
    match entry {
        Entry::Access { piece, .. } => Some(*piece),
        Entry::Refused { piece, .. } => *piece,
        _ => None,
    }
}

/// The entry that ends the call alone: the one so far, or this one.
fn first_end<'a>(end: Option<&'a Entry>, call: &Call, entry: &'a Entry) -> Option<&'a Entry>
    ensures { option_copied result
        ≡ first_of (option_copied end.entry) (is_end_of call.now entry.now) entry.now }
{
    match end {
        None if does_end(call, entry) => Some(entry),
        _ => end,
    }
}

/// Keeps the entry among the answers, where it is the first that answers its piece.
fn note_answer<'a>(answers: &mut [Option<&'a Entry>], entry: &'a Entry)
    requires { IfSome (answered_piece entry.now) (λ piece. piece < length answers.old) }
    ensures { (number : ℕ) → number < length answers.old →
        option_copied (get_or answers.new number None)
        ≡ first_of (option_copied (get_or answers.old number None))
        (is_answer_of number entry.now) entry.now }
{
    if let Some(piece) = answered_piece(entry) {
        let place = usize::from(piece);
        if answers[place].is_none() {
            answers[place] = Some(entry);
        }
    }
}

/// What the entries of a call tell of its reply.
#[derive(Clone, Copy, Debug)]
pub(crate) struct Notes<'a> {
    /// The entry that alone ends the call.
    pub(crate) end: Option<&'a Entry>,
    /// The answers of the pieces, by their numbers.
    pub(crate) answers: [Option<&'a Entry>; MOST_PIECES],
}

impl<'a> Notes<'a> {
    /// What no entry tells.
    pub(crate) fn new() -> Notes<'a>
        ensures { (call : Call) → AreNotesOf call [] result }
    {
        Notes {
            end: None,
            answers: [None; MOST_PIECES],
        }
    }

    /// Notes one more entry of the call.
    pub(crate) fn note(&mut self, call: &Call, entry: &'a Entry)
        requires { IfSome (answered_piece entry.now) (λ piece. piece < MOST_PIECES) }
        ensures { (entries : List Entry) → AreNotesOf call.now entries self.old
            → AreNotesOf call.now (entries ++ entry.now ∷ []) self.new }
    {
        self.end = first_end(self.end, call, entry);
        note_answer(&mut self.answers, entry);
    }
}
