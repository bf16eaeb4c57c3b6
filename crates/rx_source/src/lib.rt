//! The current values of a session's sources, by number, and what a read of one is answered.
//!
//! The numbers are those of `app_tree`: the inputs, the values, the tasks, the widths of the outputs
//! and their heights, each in the order of the text.
#![tactic(auto)]

mod answering;
mod sources;
mod starting;

pub use sources::{Change, Sources};
pub use starting::starting_values;
