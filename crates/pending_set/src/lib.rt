//! The readers that wait for their run.
//!
//! A reader is a number, and has a priority. [`Pending`] holds those that wait, and gives the next:
//! the one of highest priority, and of equal priority the one of least number. Only making a set
//! takes memory, so what changed can always be told to it.
#![tactic(auto)]

mod order;
mod pending;
mod tree;

pub use pending::Pending;
