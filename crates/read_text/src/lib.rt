//! How a read is spelled: the text that stands for it in an app file.
#![tactic(auto)]

mod examples;
mod spelling;

pub use examples::spelling_examples;
pub use spelling::{name_of_read, text_of_read, write_enclosed, write_read};
