//! What the entries of a journal name: calls, how an access reached its block, and what a walk found.
use crate::numbers::Pid;

/// A call of a process.
#[derive(Clone, Copy, Debug, PartialEq, Eq)]
pub struct At {
    pub process: Pid,
    /// The number of the call, from 0.
    pub call: u16,
}

/// How an access reached its block.
#[derive(Clone, Copy, Debug, PartialEq, Eq)]
pub enum Way {
    /// From the device, under an attached right.
    Direct,
    /// By the kernel, on a plain descriptor.
    Plain,
    /// By the kernel, since it ends past the known size.
    PastKnown,
    /// By the kernel, after a walk that found no translation.
    AfterMiss,
}

/// What a walk of the translation tables found in place of an entry with the right asked for.
#[derive(Clone, Copy, Debug, PartialEq, Eq)]
pub enum Found {
    /// No right on the part is attached.
    NoDirectory,
    /// The right attached does not allow writing.
    NoRight,
    /// The file has no block at that index.
    NoEntry,
    /// So many bytes of the block belong to the file, and more were asked for.
    Beyond(u16),
}
