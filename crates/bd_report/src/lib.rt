//! The texts of replies and of the report of a run, from its script and its journal alone.
#![tactic(auto)]

mod journal;
pub mod laws;
mod looks;
mod notes;
mod replies;
mod reporting;
mod totals;

pub use looks::counts;
pub use reporting::{reply, report};

#[cfg(test)]
mod tests;
