//! The commands of a process to its device engine, and their completions on the way back.
#![tactic(auto)]

mod command;
mod laws;
mod queue_pair;

pub use command::{Command, Done, DoneKind};
pub use laws::depth_is_eight;
pub use queue_pair::{DEPTH, QueuePair};

#[cfg(test)]
mod tests;
