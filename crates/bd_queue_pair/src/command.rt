//! What a process asks of its device engine, and what the engine answers.
use bd_base::{Found, Range, Vba};

/// Asks to move a range of one block.
#[derive(Clone, Copy, Debug, PartialEq, Eq)]
pub struct Command {
    /// The number of the piece among those of its call.
    pub piece: u8,
    /// The block address.
    pub vba: Vba,
    /// Which bytes of the block.
    pub range: Range,
    /// Whether the bytes go to the block, or come from it.
    pub wrote: bool,
}

/// What became of a command.
#[derive(Clone, Copy, Debug, PartialEq, Eq)]
pub enum DoneKind {
    /// The bytes were moved.
    Moved,
    /// The walk found this in place of a translation, and no byte was moved.
    Missed(Found),
}

/// The completion of a command.
#[derive(Clone, Copy, Debug, PartialEq, Eq)]
pub struct Done {
    /// The piece number of the command.
    pub piece: u8,
    pub outcome: DoneKind,
}
