//! Whether the keys of a cached reader cover its body.
//!
//! A cached reader is run again only where the values of its keys are others. So whatever its body reads has to
//! be said by its keys: [`cover`] tells whether it is, or what is met first that isn't.
#![tactic(auto)]

mod coverage;
mod examples;
mod laws;
mod walking;

pub use coverage::Coverage;
pub use examples::cover_examples;
pub use laws::cover_laws;
pub use walking::cover;
