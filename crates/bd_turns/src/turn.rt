//! What a turn answers, and what the trace keeps of it.
use bd_base::{Actor, FileId, Found, Key, List, Pid};
use bd_tables::Looked;

/// What an effective turn did.
#[derive(Clone, Copy, Debug, PartialEq, Eq)]
pub enum Row {
    /// A processor opened a file.
    Opened,
    /// A processor made a file.
    Created,
    /// A processor attached a right.
    Attach,
    /// A processor ended an open or a map, with the number of rights attached.
    Mapped,
    /// A processor cleared a right.
    Clear,
    /// A processor posted the invalidation of a right.
    Post,
    /// A processor grew a file by one step.
    Extend,
    /// A processor released a file's last block.
    Release,
    /// A processor ended a truncation.
    Sized,
    /// A processor told the size of a file.
    SizeRead,
    /// A processor closed a descriptor.
    Closed,
    /// A processor removed a file.
    Unlinked,
    /// A processor refused a call or a piece.
    Refused,
    /// A processor submitted a command to its engine.
    Submit,
    /// A processor took a completion.
    Poll,
    /// A processor accessed a piece as the kernel.
    KernelAccess,
    /// An engine took a command and entered its key; what it found in place of the right, if it was refused.
    Enter(Option<Found>),
    /// An engine looked into the cache.
    Look(Looked),
    /// An engine read an entry; what it found in place of one that reaches far enough.
    ReadEntry(Option<Found>),
    /// An engine put its translation into the cache.
    Fill,
    /// An engine moved the bytes of a block.
    Move,
    /// An engine noted that its walk found no translation.
    Missed,
    /// An engine left its key.
    Retire,
    /// An engine gave a completion back.
    Complete,
    /// The invalidation engine found no engine in the key that was posted first.
    Drain,
    /// The invalidation engine swept this line.
    Sweep(u8),
    /// The invalidation engine detached the right.
    DetachDone,
}

/// Why a turn waits, with the value that shows it.
#[derive(Clone, Copy, Debug, PartialEq, Eq)]
pub enum Wait {
    /// Another process, this one, holds the file.
    Busy(FileId, Pid),
    /// So many engines are in the key.
    InFlight(Key, u64),
    /// So many invalidations are posted.
    QueueFull(u32),
    /// So many rights are not yet detached.
    Detaching(u32),
    /// No completion has come; this is the least piece outstanding.
    Completion(u8),
}

/// What a turn answers.
#[derive(Clone, Copy, Debug, PartialEq, Eq)]
pub enum Turn {
    /// It had this effect.
    Did(Row),
    /// There was nothing to do for this actor.
    Idle,
    /// It has to wait; nothing changed.
    Waits(Wait),
}

/// An effective turn.
#[derive(Clone, Copy, Debug, PartialEq, Eq)]
pub struct Event {
    /// The number of the turn, from 0; turns without effect count too.
    pub turn: u64,
    /// Who took it.
    pub actor: Actor,
    /// What it did.
    pub row: Row,
}

/// The events of a run in order.
pub type EventList = List<Event>;
