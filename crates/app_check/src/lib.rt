//! The checks of an app file, and the app that it stands for.
//!
//! [`load`] makes an app of a file's bytes: it cuts them into tokens, reads the draft that they stand for,
//! and checks it. [`check`] is the last of these steps. Of several checks that fail the refusal is the one
//! whose place is smallest; whether the keys of cached readers cover their bodies is checked where no other
//! check fails.
#![tactic(auto)]

mod checking;
mod error;
mod examples;
mod found;
mod index;
mod item_faults;
mod item_resolve;
mod laws;
mod limits;
mod parameters;
mod resolver;
mod spot;
mod statement_faults;
mod table;
mod term_faults;
mod term_resolve;
mod uncovered;

pub use checking::{check, load};
pub use error::LoadError;
pub use examples::{worked_cached_readers, worked_examples, worked_files};
pub use laws::{cached_reader_laws, first_refusal_laws};
pub use limits::FILE_LIMIT;
