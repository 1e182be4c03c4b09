//! A large image and a large script, made from one number.
#![tactic(auto)]

mod bytes;
mod calls;
mod draws;
mod generator;
mod processes;
mod volume;

pub use generator::make;

#[cfg(test)]
mod tests;
