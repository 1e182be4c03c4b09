//! The cache of translations: sixteen lines, each of which holds one translation or none.
#![tactic(auto)]

mod laws;
mod lines;

pub use bd_base::{Cell, Key};
pub use laws::lines_are_sixteen;
pub use lines::{LINES, Line, Lines};

#[cfg(test)]
mod tests;
