//! Blocks of bytes, the text in which bytes are written as runs, and what all texts have in common: fields, numbers, lines.
#![tactic(auto)]

mod block;
pub mod laws;
mod print;
mod read;
pub mod text;

pub use block::Block;
pub use print::{push_runs, runs};
pub use read::{RunsError, read_runs};

#[cfg(test)]
mod tests;
