//! What the tables are about: rights, and the walks of engines.
use crate::request::{Completion, Request};
use bd_base::{FileId, Found};
use bd_lines::LINES;

/// How far the revocation of an attached right is.
#[derive(Clone, Copy, Debug, PartialEq, Eq)]
pub enum RightState {
    /// It is not revoked.
    On,
    /// Its directory entry is cleared; engines may still be in it.
    Cleared,
    /// No engine is granted in it any more. By line, whether the line was swept since then.
    Drained([bool; LINES]),
}

/// An attached right of a key.
#[derive(Clone, Copy, Debug, PartialEq, Eq)]
pub struct Right {
    pub file: FileId,
    /// Whether it allows writing.
    pub write: bool,
    pub state: RightState,
}

/// Where an engine is in its walk, and what it holds.
#[derive(Clone, Copy, Debug, PartialEq, Eq)]
pub enum Walk {
    Idle,
    /// It is in the key of its request, granted.
    Entered(Request),
    /// It is in the key of its request, and was refused by what it found.
    Refused(Request, Found),
    /// It is in the key of its request, granted, and holds a translation.
    Translated(Request, Completion),
}
