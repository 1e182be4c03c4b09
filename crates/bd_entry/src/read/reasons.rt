//! Reading why a call is refused, and what a walk found.
ghost use Rattle.std.specs.Prelude.{◌≤◌};
ghost use Rattle.bd_base.specs.declared.limits.TheConstants.{BLOCK_SIZE};
ghost use Rattle.bd_blocks.specs.Texts.{Reads, number_text};
ghost use Rattle.bd_entry.specs.Ranges.{IsFound, IsReason};
ghost use Rattle.bd_entry.specs.Reading.{HasNoNumbers, HasNumbers};
ghost use Rattle.bd_entry.specs.Texts.{beyond_text, found_text, reason_text};

use crate::read::numbers::{one_number, two_numbers};
use bd_base::{BLOCK_SIZE, DESCRIPTORS, Fd, Found, POLICY_RULES, PROCESSES, Pid, Reason};
use bd_blocks::text::{SPACE, split_at_byte};

// The number from 1 on that a text is.
fn read_count(text: &[u8], most: u64) -> Option<u64>
    ensures { Reads number_text (λ n. (1 ≤ n) × (n ≤ most)) text.now result }
{
    let number = one_number(text, most)?;
    if number == 0 {
        return None;
    }
    Some(number)
}

// How many bytes of a block belong to the file, as a text says it.
fn read_beyond(text: &[u8]) -> Option<u64>
    ensures { Reads beyond_text (λ n. (1 ≤ n) × (n ≤ BLOCK_SIZE)) text.now result }
{
    let (word, rest) = split_at_byte(text, SPACE)?;
    if word != b"beyond".as_slice() {
        return None;
    }
    read_count(rest, BLOCK_SIZE)
}

/// What a walk found.
pub fn read_found(text: &[u8]) -> Option<Found>
    ensures { Reads found_text IsFound text.now result }
{
    if text == b"no-directory".as_slice() {
        Some(Found::NoDirectory)
    } else if text == b"no-right".as_slice() {
        Some(Found::NoRight)
    } else if text == b"no-entry".as_slice() {
        Some(Found::NoEntry)
    } else {
        Some(Found::Beyond(read_beyond(text)? as u16))
    }
}

// The reason with numbers that a text is.
fn read_numbered(text: &[u8]) -> Option<Reason>
    ensures { Reads reason_text (λ r. IsReason r × HasNumbers r) text.now result }
{
    let (word, rest) = split_at_byte(text, SPACE)?;
    if word == b"denied".as_slice() {
        Some(Reason::Denied(read_count(rest, POLICY_RULES)? as u8))
    } else if word == b"open-by".as_slice() {
        let (process, fd) = two_numbers(rest, PROCESSES - 1, DESCRIPTORS - 1)?;
        Some(Reason::OpenBy(Pid::new(process)?, Fd::new(fd)?))
    } else if word == b"kernel-open".as_slice() {
        let process = one_number(rest, PROCESSES - 1)?;
        Some(Reason::KernelOpen(Pid::new(process)?))
    } else {
        None
    }
}

// The reason without numbers that a text is.
fn read_plain(text: &[u8]) -> Option<Reason>
    ensures { Reads reason_text HasNoNumbers text.now result }
{
    if text == b"no-file".as_slice() {
        Some(Reason::NoFile)
    } else if text == b"exists".as_slice() {
        Some(Reason::Exists)
    } else if text == b"inodes".as_slice() {
        Some(Reason::Inodes)
    } else if text == b"no-space".as_slice() {
        Some(Reason::NoSpace)
    } else if text == b"extents".as_slice() {
        Some(Reason::Extents)
    } else if text == b"too-big".as_slice() {
        Some(Reason::TooBig)
    } else if text == b"bad-fd".as_slice() {
        Some(Reason::BadFd)
    } else if text == b"read-only".as_slice() {
        Some(Reason::ReadOnly)
    } else if text == b"fds-full".as_slice() {
        Some(Reason::FdsFull)
    } else {
        None
    }
}

/// Why a call is refused.
pub fn read_reason(text: &[u8]) -> Option<Reason>
    ensures { Reads reason_text IsReason text.now result }
{
    match read_plain(text) {
        Some(reason) => Some(reason),
        None => read_numbered(text),
    }
}
