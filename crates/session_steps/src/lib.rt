//! What a session that keeps outcomes does, in words of the session alone, and what that leaves of each state that it stands
//! for.
#![tactic(auto)]

mod body_laws;
mod examples;
mod laws;

pub use body_laws::{bound_laws, once_laws, quiet_laws, want_laws};
pub use examples::{bodies_examples, determined_laws};
pub use laws::stand_laws;
