//! The bytes of all blocks of a device: how a range of a block is moved in and out, and a block
//! zeroed.
#![tactic(auto)]

mod laws;
mod medium;
mod plain;

pub use laws::{other_bytes_stay, what_is_put_is_there};
pub use medium::Medium;
pub use plain::Plain;

#[cfg(test)]
mod tests;
