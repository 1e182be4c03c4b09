//! Where bytes come from and go to: sources, sinks, and calls that read or write all.
#![tactic(auto)]

mod adapters;
mod memory_sinks;
mod memory_sources;
mod numbered;
mod sinks;
mod sources;
mod whole;

pub use adapters::{ReadSource, WriteSink};
pub use memory_sinks::{MemSink, SureSink};
pub use memory_sources::{MemSource, SureSource};
pub use numbered::NumberList;
pub use sinks::{Sink, Took};
pub use sources::{Got, Source};
pub use whole::{ReadError, WriteError, read_all, write_all};

#[cfg(test)]
mod tests;
