//! The words that tell what an entry is about.
ghost use Rattle.std.specs.Prelude.{◌≡◌};
ghost use Rattle.bd_blocks.specs.Texts.{Reads};
ghost use Rattle.bd_entry.specs.Texts.{word_of, word_text};

use crate::entry::Entry;

/// What an entry is about.
#[derive(Clone, Copy, Debug, PartialEq, Eq)]
pub enum Word {
    Opened,
    Created,
    Attached,
    Mapped,
    Cleared,
    Detached,
    Access,
    Missed,
    Extended,
    Released,
    Sized,
    Size,
    Closed,
    Unlinked,
    Refused,
}

/// The word that a text is.
pub fn read_word(text: &[u8]) -> Option<Word>
    ensures { Reads word_text (λ _. Unit {0}) text.now result }
{
    match text {
        b"opened" => Some(Word::Opened),
        b"created" => Some(Word::Created),
        b"attached" => Some(Word::Attached),
        b"mapped" => Some(Word::Mapped),
        b"cleared" => Some(Word::Cleared),
        b"detached" => Some(Word::Detached),
        b"access" => Some(Word::Access),
        b"missed" => Some(Word::Missed),
        b"extended" => Some(Word::Extended),
        b"released" => Some(Word::Released),
        b"sized" => Some(Word::Sized),
        b"size" => Some(Word::Size),
        b"closed" => Some(Word::Closed),
        b"unlinked" => Some(Word::Unlinked),
        b"refused" => Some(Word::Refused),
        _ => None,
    }
}

/// The text of a word.
pub fn word_bytes(word: Word) -> &'static [u8]
    ensures { result.now ≡ word_text word }
{
    match word {
        Word::Opened => b"opened",
        Word::Created => b"created",
        Word::Attached => b"attached",
        Word::Mapped => b"mapped",
        Word::Cleared => b"cleared",
        Word::Detached => b"detached",
        Word::Access => b"access",
        Word::Missed => b"missed",
        Word::Extended => b"extended",
        Word::Released => b"released",
        Word::Sized => b"sized",
        Word::Size => b"size",
        Word::Closed => b"closed",
        Word::Unlinked => b"unlinked",
        Word::Refused => b"refused",
    }
}

/// The word of an entry.
pub fn word_of(entry: &Entry) -> Word
    ensures { result ≡ word_of entry.now }
{
    match entry {
        Entry::Opened { .. } => Word::Opened,
        Entry::Created { .. } => Word::Created,
        Entry::Attached { .. } => Word::Attached,
        Entry::Mapped { .. } => Word::Mapped,
        Entry::Cleared { .. } => Word::Cleared,
        Entry::Detached { .. } => Word::Detached,
        Entry::Access { .. } => Word::Access,
        Entry::Missed { .. } => Word::Missed,
        Entry::Extended { .. } => Word::Extended,
        Entry::Released { .. } => Word::Released,
        Entry::Sized { .. } => Word::Sized,
        Entry::SizeRead { .. } => Word::Size,
        Entry::Closed { .. } => Word::Closed,
        Entry::Unlinked { .. } => Word::Unlinked,
        Entry::Refused { .. } => Word::Refused,
    }
}
