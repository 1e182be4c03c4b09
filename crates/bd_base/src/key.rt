//! What the translation tables name: rights on parts of files, and what an entry holds.
use crate::numbers::{BlockNo, Fd, Part, Pid};

/// Names a right: the one of a process on a part of a file, through one of its descriptors.
#[derive(Clone, Copy, Debug, PartialEq, Eq)]
pub struct Key {
    pub process: Pid,
    pub fd: Fd,
    /// Which part of the descriptor's file.
    pub part: Part,
}

/// What an entry of a translation fragment holds: a block of a file, and how much of it belongs to the file.
#[derive(Clone, Copy, Debug, PartialEq, Eq)]
pub struct Cell {
    pub block: BlockNo,
    /// How many bytes of the block may be reached: 1 to 4096.
    pub limit: u16,
}
