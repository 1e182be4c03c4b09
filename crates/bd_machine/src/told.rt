//! What the machine tells an engine.
use bd_base::Found;
use bd_tables::Request;

/// A command in the hand of an engine.
#[derive(Clone, Copy, Debug, PartialEq, Eq)]
pub struct InHand {
    /// What the engine asks of the tables for it.
    pub request: Request,
    /// Whether the journal tells what became of it.
    pub answered: bool,
}

/// What became of a miss.
#[derive(Clone, Copy, Debug, PartialEq, Eq)]
pub enum Fell {
    /// The entry that tells of it was added.
    Noted,
    /// What the walk found does not hold here: the engine retires, and walks again.
    Again(Found),
}
