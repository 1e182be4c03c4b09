//! Scripts as text: reading a text into a script, or the first bad line and the least rule that it breaks, and writing a script as text.
#![tactic(auto)]

mod calls;
mod draft;
mod error;
mod fault;
mod fields;
mod laws;
mod lines;
mod numbers;
mod printer;
mod reader;
mod schedules;
mod words;

pub use bd_base::{
    Call, CallList, How, Item, ItemList, Mode, Process, ProcessList, ScheduleLine, ScheduleList,
    Script,
};
pub use error::ScriptError;
pub use laws::{one_refusal, one_script, printed_is_read, read_is_printed, refused_is_no_script};
pub use printer::print_script;
pub use reader::read_script;

#[cfg(test)]
mod tests;
