//! The translation tables: what an engine walks and what the kernel changes, as traits and for one thread.
#![tactic(auto)]

mod laws;
mod plain;
mod request;
mod sides;
mod state;

pub use bd_base::{Cell, Key};
pub use bd_file_table::Full;
pub use bd_lines::{LINES, Line};
pub use laws::{
    engines_keep_the_tables_sound, growth_lowers_nothing, revocation_leaves_nothing,
    the_kernel_keeps_the_tables_sound, walks_answer_the_lookup,
};
pub use plain::{PlainPass, PlainTables};
pub use request::{Completion, Drained, Looked, Request, Walked};
pub use sides::{EngineSide, KernelSide, Tables};
pub use state::{Right, RightState, Walk};

#[cfg(test)]
mod tests;
