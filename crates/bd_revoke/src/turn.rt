//! What a step of a revocation did, or waits for.
use bd_base::Key;

/// What a step did, or waits for.
#[derive(Clone, Copy, Debug, PartialEq, Eq)]
pub enum RevokeTurn {
    /// It took the right of this key out of its directory entry.
    Cleared(Key),
    /// It posted this key, which was cleared before.
    Posted(Key),
    /// It waits for room: so many requests are posted, which is as many as there may be.
    QueueFull(u32),
    /// All keys are posted. It waits for those that are not yet detached, which are so many.
    Detaching(u32),
}
