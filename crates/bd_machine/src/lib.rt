//! The machine: it runs a script over a volume, one turn of one actor after the other.
#![tactic(auto)]

mod built;
mod cells;
mod commands;
mod course;
mod engine;
mod entries;
mod log;
mod machine;
mod notes;
mod parts;
mod process;
mod processor;
mod run;
mod told;

pub use bd_turns::{Event, EventList, Row, Turn, Wait};
pub use built::is_built;
pub use course::{PlainMachine, replay};
pub use machine::Machine;
pub use run::Run;
pub use told::{Fell, InHand};
