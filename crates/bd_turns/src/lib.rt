//! The abstract machine: what each actor's turn answers, and the state after it.
#![tactic(auto)]

mod course_laws;
mod laws;
mod progress_laws;
mod promises;
mod turn;
mod turn_laws;

pub use course_laws::{ends_are_in_order, events_show_journals, runs_are_reached, runs_end};
pub use laws::{journal_grows, one_course, turns_without_effect};
pub use progress_laws::{busy_names_the_holder, never_stuck, rest_falls};
pub use promises::{held_translations_are_current, released_blocks_are_unnamed};
pub use turn::{Event, EventList, Row, Turn, Wait};
pub use turn_laws::{boot_is_reached, turns_add_legally, turns_keep_it};
