//! The events of one session: what a client message sets, the flush after it, and the texts that it
//! sends.
//!
//! Today's body is the plain one: it keeps for each output the list of the sources that its last run
//! read, and scans all outputs at each change.
#![tactic(auto)]

mod apply;
mod change;
mod event;
mod flushed;
mod flusher;
mod flushing;
mod forms;
mod names;
mod running;
mod sizes;
mod stage;
mod start;
mod taken;
mod targets;
mod texts;
mod waiting;

pub use flushed::Flushed;
pub use flusher::Flusher;
pub use forms::built;
pub use stage::Stage;
pub use taken::read_taken;
pub use texts::Texts;
