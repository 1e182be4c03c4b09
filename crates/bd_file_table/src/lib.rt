//! The fragments of the file table: for each pair of a file and a part in use, where the blocks of that part lie.
#![tactic(auto)]

mod pool;

pub use bd_base::Cell;
pub use pool::{CELLS, Full, Pool, pair_number};

#[cfg(test)]
mod tests;
