//! The words of the command line.
ghost use Rattle.std.specs.Prelude.{◌≡◌, [], ◌∷◌, map};
ghost use Rattle.std.specs.Option.{option_map};
ghost use Rattle.std.specs.String.{string_bytes};
ghost use Rattle.bd_top.specs.Words.{asked_by, is_flag, is_path, make_request, number_in, other_in, replay_in, replay_of_paths, replay_request, request_of, verify_request};

use bd_blocks::text::{Number, read_number};

/// A command with the paths of its files, and where it makes them the number.
#[derive(Clone, Copy, Debug, PartialEq, Eq)]
pub enum Command<'a> {
    /// `replay IMAGE SCRIPT OUT`, with `--journal` or without
    Replay {
        image: &'a str,
        script: &'a str,
        out: &'a str,
        /// Whether the journal is printed after the report.
        journal: bool,
    },
    /// `verify IMAGE SCRIPT JOURNAL`
    Verify {
        image: &'a str,
        script: &'a str,
        journal: &'a str,
    },
    /// `check IMAGE`
    Check {
        image: &'a str,
    },
    /// `make N IMAGE SCRIPT`
    Make {
        n: u64,
        image: &'a str,
        script: &'a str,
    },
}

/// Whether the word may name a file: it is not empty and does not begin with `-`.
fn may_be_path(word: &String) -> bool
    ensures { result ≡ is_path (string_bytes word.now) }
{
    match word.as_bytes() {
        [] => false,
        [first, ..] => *first != b'-',
    }
}

/// The number that the word is, where it has at most 64 bits.
fn number_in(word: &String) -> Option<u64>
    ensures { result ≡ number_in (string_bytes word.now) }
{
    match read_number(word.as_bytes())? {
        Number::Small(n) => Some(n),
        Number::Large => None,
    }
}

/// Whether the word asks for the journal.
fn is_flag(word: &String) -> bool
    ensures { result ≡ is_flag (string_bytes word.now) }
{
    word.as_bytes() == b"--journal".as_slice()
}

/// The command `replay` with these words, if they are paths.
fn replay_of<'a>(
    image: &'a String,
    script: &'a String,
    out: &'a String,
    journal: bool,
) -> Option<Command<'a>>
    ensures { option_map asked_by result ≡ replay_of_paths journal
        (string_bytes image.now ∷ string_bytes script.now ∷ string_bytes out.now ∷ []) }
{
    if may_be_path(image) && may_be_path(script) && may_be_path(out) {
        Some(Command::Replay {
            image: image.as_str(),
            script: script.as_str(),
            out: out.as_str(),
            journal,
        })
    } else {
        None
    }
}

/// The command `replay` with four words, of which one is to ask for the journal.
fn replay_with_flag<'a>(
    first: &'a String,
    second: &'a String,
    third: &'a String,
    fourth: &'a String,
) -> Option<Command<'a>>
    ensures { option_map asked_by result ≡ replay_request
        (string_bytes first.now ∷ string_bytes second.now ∷ string_bytes third.now
        ∷ string_bytes fourth.now ∷ []) }
{
    if is_flag(first) {
        replay_of(second, third, fourth, true)
    } else if is_flag(second) {
        replay_of(first, third, fourth, true)
    } else if is_flag(third) {
        replay_of(first, second, fourth, true)
    } else if is_flag(fourth) {
        replay_of(first, second, third, true)
    } else {
        None
    }
}

/// The command `verify` with these words, if they are paths.
fn read_verify<'a>(
    image: &'a String,
    script: &'a String,
    journal: &'a String,
) -> Option<Command<'a>>
    ensures { option_map asked_by result ≡ verify_request
        (string_bytes image.now) (string_bytes script.now) (string_bytes journal.now) }
{
    if may_be_path(image) && may_be_path(script) && may_be_path(journal) {
        Some(Command::Verify {
            image: image.as_str(),
            script: script.as_str(),
            journal: journal.as_str(),
        })
    } else {
        None
    }
}

/// The command `make` with these words, if they are a number and paths.
fn read_make<'a>(number: &String, image: &'a String, script: &'a String) -> Option<Command<'a>>
    ensures { option_map asked_by result ≡ make_request
        (string_bytes number.now) (string_bytes image.now) (string_bytes script.now) }
{
    if may_be_path(image) && may_be_path(script) {
        let n = number_in(number)?;
        Some(Command::Make {
            n,
            image: image.as_str(),
            script: script.as_str(),
        })
    } else {
        None
    }
}

/// The command `replay` with these words, if they are its own.
fn read_replay(words: &[String]) -> Option<Command<'_>>
    ensures { option_map asked_by result ≡ replay_in (map string_bytes words.now) }
{
    match words {
        [first, second, third] => replay_of(first, second, third, false),
        [first, second, third, fourth] => replay_with_flag(first, second, third, fourth),
        _ => None,
    }
}

/// Another command with these words, if they are its own.
fn read_other<'a>(command: &String, words: &'a [String]) -> Option<Command<'a>>
    ensures { option_map asked_by result
        ≡ other_in (string_bytes command.now) (map string_bytes words.now) }
{
    match words {
        [first, second, third] => {
            if command.as_bytes() == b"verify".as_slice() {
                read_verify(first, second, third)
            } else if command.as_bytes() == b"make".as_slice() {
                read_make(first, second, third)
            } else {
                None
            }
        }
        [image] => {
            if command.as_bytes() == b"check".as_slice() && may_be_path(image) {
                Some(Command::Check {
                    image: image.as_str(),
                })
            } else {
                None
            }
        }
        _ => None,
    }
}

/// The command that the words after the program's name say, if any.
pub fn read_words(words: &[String]) -> Option<Command<'_>>
    ensures { option_map asked_by result ≡ request_of words.now }
{
    match words {
        [] => None,
        [command, rest @ ..] => {
            if command.as_bytes() == b"replay".as_slice() {
                read_replay(rest)
            } else {
                read_other(command, rest)
            }
        }
    }
}
