//! The invalidations that are posted and not yet done, in order.
#![tactic(auto)]

mod inval;
mod laws;

pub use bd_base::{Key, POSTS};
pub use inval::{Full, Inval, Post};
pub use laws::posts_are_thirty_two;

#[cfg(test)]
mod tests;
