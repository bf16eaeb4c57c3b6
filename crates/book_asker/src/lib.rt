//! An asker over one cache, for the sessions that are replayed one after another.
#![tactic(auto)]

mod asker;
mod owner;

pub use asker::{BookAsker, BookLeave};
pub use owner::OWNER;
