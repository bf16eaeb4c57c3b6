//! The grammar of app files.
//!
//! [`read`] makes a draft of an app file's tokens. It looks at one token at a time, and never goes
//! back; it refuses the tokens at the first one, from the left, that the grammar doesn't allow where
//! it stands, or that begins a part beyond the limits of depth.
#![tactic(auto)]

mod atoms;
mod constants;
mod error;
mod examples;
mod items;
mod laws;
mod operators;
mod reader;
mod statements;
mod terms;

pub use error::ReadError;
pub use examples::{worked_examples, worked_limits, worked_spellings};
pub use items::read;
pub use laws::{
    canonical_is_read, cut_tokens_fit, draft_is_one, read_is_spelled, refused_is_none,
    spelled_is_read,
};
