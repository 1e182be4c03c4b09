//! Why a call of a process is refused.
use crate::numbers::{Fd, Pid};

/// The reason of a refusal.
#[derive(Clone, Copy, Debug, PartialEq, Eq)]
pub enum Reason {
    /// There is no file of that name.
    NoFile,
    /// A file of that name is there.
    Exists,
    /// The policy denies it, by the rule of that number: 1 to 5.
    Denied(u8),
    /// All inodes are used.
    Inodes,
    /// A block is needed, and none is free.
    NoSpace,
    /// The next block needs more extents than a file may have.
    Extents,
    /// The file would be larger than a file may be.
    TooBig,
    /// The file is open: by that process, as that descriptor.
    OpenBy(Pid, Fd),
    /// The descriptor is not open.
    BadFd,
    /// The descriptor may only read.
    ReadOnly,
    /// All descriptors of the process are open.
    FdsFull,
    /// The file is open by the kernel alone, for that process.
    KernelOpen(Pid),
}
