//! What is expected of the definitions of an app: of what an evaluation asks, of what a text can give, and of what the
//! keys of a cached reader say of its body.
//!
//! No definition stands on this crate: a law that changes here changes nothing of what a session is.
#![tactic(auto)]

mod laws;

pub use laws::{app_laws, cover_laws, evaluation_laws, keyed_examples, statement_laws};
