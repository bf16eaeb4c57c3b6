//! One session's events: what a client message or the end of a task sets, the flush that follows, and the texts that tell it.
#![tactic(auto)]

mod applying;
mod events;
mod flushed;
mod flusher;
mod flushing;
mod observing;
mod output;
mod report;
mod runs;
mod stage;
mod starting;
mod statements;
mod targets;
mod tasks;
mod telling;
mod texts;
mod work;

pub use flushed::{Flushed, Texts};
pub use flusher::Flusher;
pub use report::{Numbers, Report};
pub use stage::Stage;
