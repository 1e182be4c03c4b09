//! What an engine asks of the tables and what they answer, named after the messages of PCIe Address Translation
//! Services.
use bd_base::{BlockNo, Found, Key};

/// A Translation Request: where a block of a file lies, under a right.
#[derive(Clone, Copy, Debug, PartialEq, Eq)]
pub struct Request {
    pub key: Key,
    /// Which block of the file, from 0.
    pub index: u32,
    /// How many bytes from the block's first one have to be within reach: 1 to 4096.
    pub hi: u16,
    /// Whether the block is to be written.
    pub write: bool,
}

/// A Translation Completion.
#[derive(Clone, Copy, Debug, PartialEq, Eq)]
pub struct Completion {
    /// Whether the block may be read, which is always so.
    pub read: bool,
    /// Whether the block may be written.
    pub write: bool,
    pub block: BlockNo,
    /// How many bytes of the block may be reached: 1 to 4096.
    pub limit: u16,
}

/// How a step of a walk went.
#[derive(Clone, Copy, Debug, PartialEq, Eq)]
pub enum Walked {
    Granted,
    /// What was found in place of what was asked for.
    Missed(Found),
}

/// How a look into the cache went.
#[derive(Clone, Copy, Debug, PartialEq, Eq)]
pub enum Looked {
    Hit,
    Miss,
}

/// Whether a cleared key has no engine in it any more.
#[derive(Clone, Copy, Debug, PartialEq, Eq)]
pub enum Drained {
    Yes,
    /// So many engines are in it, at least 1.
    NotYet(u64),
}
