//! Scripts: what the processes call, and in which order actors take turns.
use crate::list::{Bytes, List};
use crate::numbers::{Actor, Vba};
use crate::range::Range;
use crate::volume::Name;

/// What a descriptor may do.
#[derive(Clone, Copy, Debug, PartialEq, Eq)]
pub enum Mode {
    /// Read.
    R,
    /// Read and write.
    Rw,
}

/// How a descriptor reaches its file.
#[derive(Clone, Copy, Debug, PartialEq, Eq)]
pub enum How {
    /// By the kernel alone.
    Plain,
    /// From the device, where a right is attached.
    Direct,
}

/// A call of a process. Descriptors are numbers that the process names: they may be of none that is open.
#[derive(Debug, Drop)]
pub enum Call {
    /// `open NAME MODE HOW`
    Enter { name: Name, mode: Mode, how: How },
    /// `create NAME PERMS`: an empty file.
    Create { name: Name, perms: u8 },
    /// `read FD OFF LEN`: `len` bytes from the place `off` of the file.
    Read { fd: u8, off: u64, len: u16 },
    /// `write FD OFF RUNS`: these bytes to the place `off` of the file.
    Write { fd: u8, off: u64, bytes: Bytes },
    /// `truncate FD SIZE`: the file gets this size.
    Truncate { fd: u8, size: u64 },
    /// `unlink NAME`: the file is removed.
    Unlink { name: Name },
    /// `size FD`: the size of the file.
    Size { fd: u8 },
    /// `map FD`: rights on the parts that have none yet.
    Map { fd: u8 },
    /// `close FD`: the descriptor is given back.
    Close { fd: u8 },
    /// `raw-read VBA LO LEN`: the bytes of the range of the block at this address.
    RawRead { vba: Vba, range: Range },
    /// `raw-write VBA LO RUNS`: these bytes to the block at this address, from the place `lo` on.
    RawWrite { vba: Vba, lo: u16, bytes: Bytes },
}

/// The calls of a process in their order.
pub type CallList = List<Call>;

/// A process.
#[derive(Debug, Drop)]
pub struct Process {
    /// The user whom the policy asks about.
    pub uid: u32,
    /// Its calls.
    pub calls: CallList,
}

/// The processes by their numbers.
pub type ProcessList = List<Process>;

/// Turns of one actor in a row.
#[derive(Clone, Copy, Debug, PartialEq, Eq)]
pub struct Item {
    /// Who takes the turns.
    pub actor: Actor,
    /// How many.
    pub turns: u32,
}

/// The items of one schedule line.
pub type ItemList = List<Item>;

/// One schedule line.
#[derive(Debug, Drop)]
pub struct ScheduleLine {
    /// Its items in order.
    pub items: ItemList,
}

/// The schedule lines in order.
pub type ScheduleList = List<ScheduleLine>;

/// A whole script.
#[derive(Debug, Drop)]
pub struct Script {
    /// What the processes call.
    pub processes: ProcessList,
    /// The order of turns; after it the actors take turns in rounds.
    pub schedule: ScheduleList,
}
