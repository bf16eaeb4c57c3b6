//! The canonical text of an app.
//!
//! [`print`] writes an app in the one form that the definition `canonical_text` gives: a line for the
//! budget and a line for each item, with at most one space between two tokens. What it writes is read
//! as the same draft again, which is said by the laws.
#![tactic(auto)]

mod constants;
mod examples;
mod items;
mod laws;
mod names;
mod scope;
mod statements;
mod terms;
mod words;

pub use examples::worked_examples;
pub use items::print;
pub use laws::{named_is_unplaced, text_is_read, tokens_are_spelling};
