//! The entries of a journal, what a legal journal is, and the journal as text.
#![tactic(auto)]

mod act;
mod entry;
mod error;
pub mod laws;
mod limits;
pub mod next_laws;
mod print;
pub mod promises;
mod read;
mod text_laws;
mod words;

pub use act::Act;
pub use bd_base::{At, Found, Reason, Way};
pub use entry::{Entry, EntryList, at_of};
pub use error::JournalError;
pub use limits::{ASKED_PERMS, entry_limits};
pub use print::{print_journal, push_found, push_reason};
pub use read::{after_report, read_entry, read_journal};
pub use text_laws::{bad_is_no_journal, one_bad_line, one_journal};

#[cfg(test)]
mod tests;
