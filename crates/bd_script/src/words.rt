//! The first words of lines.
ghost use Rattle.std.specs.Prelude.{◌≡◌, ◌≢◌, IfSome, IfNone};
ghost use Rattle.bd_script.specs.declared.words.Word.{Word};
ghost use Rattle.bd_script.specs.Words.{word_text};

/// What a line is about.
#[derive(Clone, Copy, Debug, PartialEq, Eq)]
pub enum Word {
    Proc,
    Open,
    Create,
    Read,
    Write,
    Truncate,
    Unlink,
    Size,
    Map,
    Close,
    RawRead,
    RawWrite,
    Schedule,
}

/// The word that a text is.
pub fn read_word(text: &[u8]) -> Option<Word>
    ensures some { IfSome result (λ w. text.now ≡ word_text w) }
    ensures none { IfNone result ((w : Word) → text.now ≢ word_text w) }
{
    match text {
        b"proc" => Some(Word::Proc),
        b"open" => Some(Word::Open),
        b"create" => Some(Word::Create),
        b"read" => Some(Word::Read),
        b"write" => Some(Word::Write),
        b"truncate" => Some(Word::Truncate),
        b"unlink" => Some(Word::Unlink),
        b"size" => Some(Word::Size),
        b"map" => Some(Word::Map),
        b"close" => Some(Word::Close),
        b"raw-read" => Some(Word::RawRead),
        b"raw-write" => Some(Word::RawWrite),
        b"schedule" => Some(Word::Schedule),
        _ => None,
    }
}
