//! Which reader depends on which source.
//!
//! Each reader of a session has a reactive context: it is idle, alive or running, and has reached
//! sources, by itself or through the expressions that it read. A [`Graph`] holds the contexts. A change
//! of a source invalidates the readers that had reached it, and tells them in [`Marked`].
#![tactic(auto)]

mod context;
mod graph;
mod marked;
mod on;
mod phase;

pub use graph::Graph;
pub use marked::Marked;
pub use on::On;
