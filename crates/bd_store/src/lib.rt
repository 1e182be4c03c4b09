//! A plain store of files, which decides each entry of a journal, and a checker of whole journals.
#![tactic(auto)]

mod calls;
mod check;
mod effects;
mod order;
mod place;
mod refusals;
mod rules;
mod store;

pub use bd_kernel::pieces_of;
pub use check::{Verdict, check_journal};
pub use store::{ApplyError, PlainStore, UidList};

#[cfg(test)]
mod tests;
