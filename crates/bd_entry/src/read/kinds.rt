//! Reading the fields of each kind of entry.
ghost use Rattle.std.specs.Prelude.{IfSome, IfNone, IfOk};
ghost use Rattle.bd_entry.specs.Reading.{HasNoTargetFirst, HasTargetFirst, ReadsFields};
ghost use Rattle.bd_entry.specs.declared.words.Word.TheVariants as word;

use crate::entry::Entry;
use crate::limits::ASKED_PERMS;
use crate::read::fields::{
    front_block, front_direction, front_piece, front_range, front_way, read_block, read_bytes,
};
use crate::read::numbers::{front_number, one_number, two_numbers};
use crate::read::reasons::{read_found, read_reason};
use crate::words::Word;
use bd_base::{
    At, BLOCKS, BlockNo, DESCRIPTORS, FILE_SIZE, FILES, Fd, FileId, LAST_INDEX, List, OutOfMemory,
    PARTS, PIECES, PROCESSES, Part, Pid, Range, Way,
};
use bd_blocks::text::{front_name, read_mode_and_how};
use std::alloc::Global;

fn read_opened(at: At, text: &[u8]) -> Option<Entry>
    ensures { ReadsFields at word.Opened text.now result }
{
    let (file, rest) = front_number(text, FILES - 1)?;
    let (fd, rest) = front_number(rest, DESCRIPTORS - 1)?;
    let (mode, how) = read_mode_and_how(rest)?;
    Some(Entry::Opened {
        at,
        file: FileId::new(file)?,
        fd: Fd::new(fd)?,
        mode,
        how,
    })
}

fn read_created(alloc: Global, at: At, text: &[u8]) -> Result<Option<Entry>, OutOfMemory>
    ensures { IfOk result (ReadsFields at word.Created text.now) }
{
    let Some((file, rest)) = front_number(text, FILES - 1) else {
        return Ok(None);
    };
    let Some((name, rest)) = front_name(rest) else {
        return Ok(None);
    };
    let Some(perms) = one_number(rest, ASKED_PERMS - 1) else {
        return Ok(None);
    };
    let Some(file) = FileId::new(file) else {
        return Ok(None);
    };
    let name = List::from_slice(alloc, name)?;
    Ok(Some(Entry::Created {
        at,
        file,
        name,
        perms: perms as u8,
    }))
}

fn read_attached(at: At, text: &[u8]) -> Option<Entry>
    ensures { ReadsFields at word.Attached text.now result }
{
    let (fd, part) = two_numbers(text, DESCRIPTORS - 1, PARTS - 1)?;
    Some(Entry::Attached {
        at,
        fd: Fd::new(fd)?,
        part: Part::new(part)?,
    })
}

fn read_mapped(at: At, text: &[u8]) -> Option<Entry>
    ensures { ReadsFields at word.Mapped text.now result }
{
    let (fd, count) = two_numbers(text, DESCRIPTORS - 1, PARTS)?;
    Some(Entry::Mapped {
        at,
        fd: Fd::new(fd)?,
        count: count as u8,
    })
}

fn read_cleared(at: At, text: &[u8]) -> Option<Entry>
    ensures { ReadsFields at word.Cleared text.now result }
{
    let (owner, rest) = front_number(text, PROCESSES - 1)?;
    let (fd, part) = two_numbers(rest, DESCRIPTORS - 1, PARTS - 1)?;
    Some(Entry::Cleared {
        at,
        owner: Pid::new(owner)?,
        fd: Fd::new(fd)?,
        part: Part::new(part)?,
    })
}

fn read_detached(at: At, text: &[u8]) -> Option<Entry>
    ensures { ReadsFields at word.Detached text.now result }
{
    let (owner, rest) = front_number(text, PROCESSES - 1)?;
    let (fd, part) = two_numbers(rest, DESCRIPTORS - 1, PARTS - 1)?;
    Some(Entry::Detached {
        at,
        owner: Pid::new(owner)?,
        fd: Fd::new(fd)?,
        part: Part::new(part)?,
    })
}

/// What an access tells before its bytes.
#[derive(Clone, Copy)]
pub struct Target {
    pub piece: u8,
    pub fd: Fd,
    pub file: FileId,
    pub index: u32,
    pub block: Option<BlockNo>,
    pub range: Range,
    pub wrote: bool,
    pub way: Way,
}

// What an access tells before its bytes, in the first fields of a text, and what follows them.
fn front_target(text: &[u8]) -> Option<(Target, &[u8])>
    ensures some { IfSome result (λ f. HasTargetFirst text.now f.0 f.1.now) }
    ensures none { IfNone result (HasNoTargetFirst text.now) }
{
    let (piece, rest) = front_number(text, PIECES - 1)?;
    let (fd, rest) = front_number(rest, DESCRIPTORS - 1)?;
    let (file, rest) = front_number(rest, FILES - 1)?;
    let (index, rest) = front_number(rest, LAST_INDEX)?;
    let Some((block, rest)) = front_block(rest) else {
        return None;
    };
    let range = front_range(rest)?;
    let (wrote, rest) = front_direction(range.rest)?;
    let (way, rest) = front_way(rest)?;
    let target = Target {
        piece: piece as u8,
        fd: Fd::new(fd)?,
        file: FileId::new(file)?,
        index: index as u32,
        block,
        range: Range::new(range.lo, range.hi)?,
        wrote,
        way,
    };
    Some((target, rest))
}

fn read_access(alloc: Global, at: At, text: &[u8]) -> Result<Option<Entry>, OutOfMemory>
    ensures { IfOk result (ReadsFields at word.Access text.now) }
{
    let Some((target, rest)) = front_target(text) else {
        return Ok(None);
    };
    let Some(bytes) = read_bytes(alloc, rest)? else {
        return Ok(None);
    };
    Ok(Some(Entry::Access {
        at,
        piece: target.piece,
        fd: target.fd,
        file: target.file,
        index: target.index,
        block: target.block,
        range: target.range,
        wrote: target.wrote,
        way: target.way,
        bytes,
    }))
}

fn read_missed(at: At, text: &[u8]) -> Option<Entry>
    ensures { ReadsFields at word.Missed text.now result }
{
    let (piece, rest) = front_number(text, PIECES - 1)?;
    Some(Entry::Missed {
        at,
        piece: piece as u8,
        found: read_found(rest)?,
    })
}

fn read_extended(at: At, text: &[u8]) -> Option<Entry>
    ensures { ReadsFields at word.Extended text.now result }
{
    let (file, rest) = front_number(text, FILES - 1)?;
    let (to, rest) = front_number(rest, FILE_SIZE)?;
    Some(Entry::Extended {
        at,
        file: FileId::new(file)?,
        to,
        block: read_block(rest)?,
    })
}

fn read_released(at: At, text: &[u8]) -> Option<Entry>
    ensures { ReadsFields at word.Released text.now result }
{
    let (file, rest) = front_number(text, FILES - 1)?;
    let (index, block) = two_numbers(rest, LAST_INDEX, BLOCKS - 1)?;
    Some(Entry::Released {
        at,
        file: FileId::new(file)?,
        index: index as u32,
        block: BlockNo::new(block)?,
    })
}

fn read_sized(at: At, text: &[u8]) -> Option<Entry>
    ensures { ReadsFields at word.Sized text.now result }
{
    let (fd, size) = two_numbers(text, DESCRIPTORS - 1, FILE_SIZE)?;
    Some(Entry::Sized {
        at,
        fd: Fd::new(fd)?,
        size,
    })
}

fn read_size(at: At, text: &[u8]) -> Option<Entry>
    ensures { ReadsFields at word.Size text.now result }
{
    let (fd, size) = two_numbers(text, DESCRIPTORS - 1, FILE_SIZE)?;
    Some(Entry::SizeRead {
        at,
        fd: Fd::new(fd)?,
        size,
    })
}

fn read_closed(at: At, text: &[u8]) -> Option<Entry>
    ensures { ReadsFields at word.Closed text.now result }
{
    let fd = one_number(text, DESCRIPTORS - 1)?;
    Some(Entry::Closed {
        at,
        fd: Fd::new(fd)?,
    })
}

fn read_unlinked(at: At, text: &[u8]) -> Option<Entry>
    ensures { ReadsFields at word.Unlinked text.now result }
{
    let file = one_number(text, FILES - 1)?;
    Some(Entry::Unlinked {
        at,
        file: FileId::new(file)?,
    })
}

fn read_refused(at: At, text: &[u8]) -> Option<Entry>
    ensures { ReadsFields at word.Refused text.now result }
{
    let (piece, rest) = front_piece(text)?;
    Some(Entry::Refused {
        at,
        piece,
        reason: read_reason(rest)?,
    })
}

/// Reads the fields of an entry of this call and this word.
pub fn read_fields(
    alloc: Global,
    at: At,
    word: Word,
    text: &[u8],
) -> Result<Option<Entry>, OutOfMemory>
    ensures { IfOk result (ReadsFields at word text.now) }
{
    match word {
        Word::Opened => Ok(read_opened(at, text)),
        Word::Created => read_created(alloc, at, text),
        Word::Attached => Ok(read_attached(at, text)),
        Word::Mapped => Ok(read_mapped(at, text)),
        Word::Cleared => Ok(read_cleared(at, text)),
        Word::Detached => Ok(read_detached(at, text)),
        Word::Access => read_access(alloc, at, text),
        Word::Missed => Ok(read_missed(at, text)),
        Word::Extended => Ok(read_extended(at, text)),
        Word::Released => Ok(read_released(at, text)),
        Word::Sized => Ok(read_sized(at, text)),
        Word::Size => Ok(read_size(at, text)),
        Word::Closed => Ok(read_closed(at, text)),
        Word::Unlinked => Ok(read_unlinked(at, text)),
        Word::Refused => Ok(read_refused(at, text)),
    }
}
