//! Appending why a call is refused, and what a walk found.
ghost use Rattle.std.specs.Prelude.{◌≡◌, ◌++◌, OnOk};
ghost use Rattle.bd_blocks.specs.Texts.{before, number_text};
ghost use Rattle.bd_entry.specs.Texts.{found_text, reason_text};

use bd_base::{Found, OutOfMemory, Reason};
use bd_blocks::text::{push_bytes, push_field, push_number, push_two_numbers};

// Appends a word and a number.
fn push_word_and_number(text: &mut Vec<u8>, word: &[u8], number: u64) -> Result<(), OutOfMemory>
    ensures { OnOk result
        (text.new.items ≡ text.old.items ++ before word.now (number_text number)) }
{
    push_field(text, word)?;
    push_number(text, number)
}

/// Appends what a walk found.
pub fn push_found(text: &mut Vec<u8>, found: Found) -> Result<(), OutOfMemory>
    ensures { OnOk result (text.new.items ≡ text.old.items ++ found_text found) }
{
    match found {
        Found::NoDirectory => push_bytes(text, b"no-directory"),
        Found::NoRight => push_bytes(text, b"no-right"),
        Found::NoEntry => push_bytes(text, b"no-entry"),
        Found::Beyond(bytes) => push_word_and_number(text, b"beyond", u64::from(bytes)),
    }
}

/// Appends why a call is refused.
pub fn push_reason(text: &mut Vec<u8>, reason: Reason) -> Result<(), OutOfMemory>
    ensures { OnOk result (text.new.items ≡ text.old.items ++ reason_text reason) }
{
    match reason {
        Reason::NoFile => push_bytes(text, b"no-file"),
        Reason::Exists => push_bytes(text, b"exists"),
        Reason::Denied(rule) => push_word_and_number(text, b"denied", u64::from(rule)),
        Reason::Inodes => push_bytes(text, b"inodes"),
        Reason::NoSpace => push_bytes(text, b"no-space"),
        Reason::Extents => push_bytes(text, b"extents"),
        Reason::TooBig => push_bytes(text, b"too-big"),
        Reason::OpenBy(process, fd) => {
            push_field(text, b"open-by")?;
            push_two_numbers(text, process.get(), fd.get())
        }
        Reason::BadFd => push_bytes(text, b"bad-fd"),
        Reason::ReadOnly => push_bytes(text, b"read-only"),
        Reason::FdsFull => push_bytes(text, b"fds-full"),
        Reason::KernelOpen(process) => push_word_and_number(text, b"kernel-open", process.get()),
    }
}
