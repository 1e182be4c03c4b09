//! How the rights of a list of keys are revoked: each is cleared and posted, and counted off once
//! it is detached.
#![tactic(auto)]

mod laws;
mod revoke;
mod turn;

pub use laws::{no_key_is_lost, waits_exactly_where};
pub use revoke::Revoke;
pub use turn::RevokeTurn;

#[cfg(test)]
mod tests;
