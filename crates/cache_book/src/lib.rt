//! A cache of outcomes that one caller at a time uses.
//!
//! A caller that wants the outcome of a key claims the key. It gets the outcome where it is kept, and
//! else either the key, to work the outcome out and hand it in, or the owner that has the key already.
//! The outcomes that were used last are kept, within a number of entries and a weight.
#![tactic(auto)]

mod answer;
mod book;
mod limits;
mod shelf;

pub use answer::{BookClaim, Filled};
pub use book::Book;
pub use limits::{BYTE_LIMIT, CacheLimits, ENTRY_LIMIT};
