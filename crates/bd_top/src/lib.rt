//! The commands: what each reads, does and writes.
#![tactic(auto)]

mod check;
mod inputs;
mod make;
mod program;
mod replay;
mod status;
mod unbuilt;
mod verify;
mod words;
mod writes;

pub use bd_outside::{ReadSource, WriteSink};
pub use check::check_all;
pub use make::make_all;
pub use program::top;
pub use replay::replay_all;
pub use status::{Outcome, Status, To, Which, code, fault_text};
pub use verify::verify_all;
pub use words::{Command, read_words};

#[cfg(test)]
mod tests;
