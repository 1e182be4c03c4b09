//! The private entries of processes: for each key whether a right is there, whether it allows writing, and how many
//! engines are in it.
#![tactic(auto)]

mod directory;

pub use bd_base::Key;
pub use directory::{Directory, Entry, Grant, key_number};

#[cfg(test)]
mod tests;
