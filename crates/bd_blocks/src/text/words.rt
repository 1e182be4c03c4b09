//! The words of modes, ways and directions.
ghost use Rattle.std.specs.Prelude.{◌≡◌};
ghost use Rattle.bd_blocks.specs.Texts.{Reads};
ghost use Rattle.bd_blocks.specs.Words.{direction_text, how_text, mode_and_how_text, mode_text, way_text};

use crate::text::{SPACE, split_at_byte};
use bd_base::{How, Mode, Way};

/// The word of a mode.
pub fn mode_word(mode: Mode) -> &'static [u8]
    ensures { result.now ≡ mode_text mode }
{
    match mode {
        Mode::R => b"r",
        Mode::Rw => b"rw",
    }
}

// The mode that a text is.
fn read_mode(text: &[u8]) -> Option<Mode>
    ensures { Reads mode_text (λ _. Unit {0}) text.now result }
{
    match text {
        b"r" => Some(Mode::R),
        b"rw" => Some(Mode::Rw),
        _ => None,
    }
}

/// The word of the way of an open.
pub fn how_word(how: How) -> &'static [u8]
    ensures { result.now ≡ how_text how }
{
    match how {
        How::Plain => b"plain",
        How::Direct => b"direct",
    }
}

// The way of an open that a text is.
fn read_how(text: &[u8]) -> Option<How>
    ensures { Reads how_text (λ _. Unit {0}) text.now result }
{
    match text {
        b"plain" => Some(How::Plain),
        b"direct" => Some(How::Direct),
        _ => None,
    }
}

/// The mode and the way of an open that a text is.
pub fn read_mode_and_how(text: &[u8]) -> Option<(Mode, How)>
    ensures { Reads mode_and_how_text (λ _. Unit {0}) text.now result }
{
    let (mode, how) = split_at_byte(text, SPACE)?;
    Some((read_mode(mode)?, read_how(how)?))
}

/// The word for bytes that were written, or read.
pub fn direction_word(wrote: bool) -> &'static [u8]
    ensures { result.now ≡ direction_text wrote }
{
    if wrote { b"wrote" } else { b"read" }
}

/// Whether bytes were written, as a text says it.
pub fn read_direction(text: &[u8]) -> Option<bool>
    ensures { Reads direction_text (λ _. Unit {0}) text.now result }
{
    match text {
        b"wrote" => Some(true),
        b"read" => Some(false),
        _ => None,
    }
}

/// The word of the way of an access.
pub fn way_word(way: Way) -> &'static [u8]
    ensures { result.now ≡ way_text way }
{
    match way {
        Way::Direct => b"direct",
        Way::Plain => b"plain",
        Way::PastKnown => b"past-known",
        Way::AfterMiss => b"after-miss",
    }
}

/// The way of an access that a text is.
pub fn read_way(text: &[u8]) -> Option<Way>
    ensures { Reads way_text (λ _. Unit {0}) text.now result }
{
    match text {
        b"direct" => Some(Way::Direct),
        b"plain" => Some(Way::Plain),
        b"past-known" => Some(Way::PastKnown),
        b"after-miss" => Some(Way::AfterMiss),
        _ => None,
    }
}
