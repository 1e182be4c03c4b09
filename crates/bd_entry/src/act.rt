//! What a call does next.
use bd_base::{Fd, FileId, KeyList, Part, Pid, Reason, Way};

/// The next action of a call. Numbers of pieces are 0 to 4, sizes are in bytes.
#[derive(Debug, Drop)]
pub enum Act {
    /// It waits: another process, this one, holds the file.
    Busy(FileId, Pid),
    /// It is refused, or a piece of it is, for this reason.
    Refuse(Option<u8>, Reason),
    /// An open begins, or a plain one ends: the file gets this descriptor.
    Opened(FileId, Fd),
    /// The file is made.
    Created,
    /// A right on this part of the file is attached.
    Attach(Part),
    /// An open or a map ends, with so many parts attached.
    Mapped(u8),
    /// The rights of these keys, at least one, are revoked.
    Revoke(KeyList),
    /// The file grows to this size, by a block at most.
    Extend(FileId, u64),
    /// The file's last block is released.
    Release(FileId),
    /// The command of this piece is submitted.
    Submit(u8),
    /// A completion is taken.
    Poll,
    /// The kernel reads or writes this piece, in this way.
    Access(u8, Way),
    /// A truncation ends, with this size.
    Sized(u64),
    /// The size is told.
    SizeRead(u64),
    /// The descriptor is closed.
    Closed,
    /// The file is removed.
    Unlinked,
}
