//! One session with its link and its journal: what its client sends and the ends of its tasks are journaled and applied one at
//! a time, and what they come to is sent.
//!
//! A [`Hosted`] is open until something ends it, and then it becomes a [`Closed`]. Each keeps in its type that its journal is the
//! true record of the session (`session_model::Faithful`).
#![tactic(auto)]

mod answering;
mod applying;
mod closed;
mod host;
mod hosted;
mod journal;
mod sending;
mod tape;
mod turned;
mod turning;

pub use closed::Closed;
pub use hosted::{Hosted, Opened};
pub use journal::Journal;
pub use session_model::{Event, Reason};
pub use turned::Turned;
