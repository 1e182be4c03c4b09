//! What a journal tells, entry by entry.
ghost use Rattle.std.specs.Prelude.{◌≡◌};
ghost use Rattle.bd_entry.specs.Calls.{at_of};

use bd_base::{
    At, BlockNo, Bytes, Fd, FileId, Found, How, List, Mode, Name, Part, Pid, Range, Reason, Way,
};

/// An entry of a journal: what a call did, at its place among all entries.
#[derive(Debug, Drop)]
pub enum Entry {
    /// An open began: the file has this descriptor.
    Opened {
        at: At,
        file: FileId,
        fd: Fd,
        mode: Mode,
        how: How,
    },
    /// An empty file was made.
    Created {
        at: At,
        file: FileId,
        name: Name,
        perms: u8,
    },
    /// A right on a part of the file was given to the descriptor.
    Attached {
        at: At,
        fd: Fd,
        part: Part,
    },
    /// An open or a map ended, with so many parts attached, at most 8.
    Mapped {
        at: At,
        fd: Fd,
        count: u8,
    },
    /// The right of a descriptor, of the process `owner`, is no longer given to walks that begin.
    Cleared {
        at: At,
        owner: Pid,
        fd: Fd,
        part: Part,
    },
    /// The right of a descriptor, of the process `owner`, was taken away: its invalidation is complete.
    Detached {
        at: At,
        owner: Pid,
        fd: Fd,
        part: Part,
    },
    /// Bytes of a block were read or written. `block` is None where the file has no block at that index.
    Access {
        at: At,
        /// The number of the piece in its call, from 0.
        piece: u8,
        fd: Fd,
        file: FileId,
        /// The number of the block in its file.
        index: u32,
        block: Option<BlockNo>,
        range: Range,
        wrote: bool,
        way: Way,
        bytes: Bytes,
    },
    /// The walk of a piece found no translation.
    Missed {
        at: At,
        piece: u8,
        found: Found,
    },
    /// The file grew to `to` bytes, by the block, if it took one.
    Extended {
        at: At,
        file: FileId,
        to: u64,
        block: Option<BlockNo>,
    },
    /// The file lost its last block.
    Released {
        at: At,
        file: FileId,
        index: u32,
        block: BlockNo,
    },
    /// A truncation ended, with this size.
    Sized {
        at: At,
        fd: Fd,
        size: u64,
    },
    /// The size was told.
    SizeRead {
        at: At,
        fd: Fd,
        size: u64,
    },
    /// The descriptor was given back.
    Closed {
        at: At,
        fd: Fd,
    },
    /// The file was removed.
    Unlinked {
        at: At,
        file: FileId,
    },
    /// A call, or the piece of this number, was refused.
    Refused {
        at: At,
        piece: Option<u8>,
        reason: Reason,
    },
}

/// The entries in order.
pub type EntryList = List<Entry>;

/// The call that an entry belongs to.
pub fn at_of(entry: &Entry) -> At
    ensures { result ≡ at_of entry.now }
{
    match entry {
        Entry::Opened { at, .. }
        | Entry::Created { at, .. }
        | Entry::Attached { at, .. }
        | Entry::Mapped { at, .. }
        | Entry::Cleared { at, .. }
        | Entry::Detached { at, .. }
        | Entry::Access { at, .. }
        | Entry::Missed { at, .. }
        | Entry::Extended { at, .. }
        | Entry::Released { at, .. }
        | Entry::Sized { at, .. }
        | Entry::SizeRead { at, .. }
        | Entry::Closed { at, .. }
        | Entry::Unlinked { at, .. }
        | Entry::Refused { at, .. } => *at,
    }
}
