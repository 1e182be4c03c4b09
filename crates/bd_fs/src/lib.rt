//! The files of a volume: their names, their blocks and the policy.
#![tactic(auto)]

mod errors;
mod fs;
mod policy;

pub use errors::{CreateError, GrowError};
pub use fs::Fs;
pub use policy::{Ask, May, denial};
