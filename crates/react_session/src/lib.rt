//! A session that keeps outcomes.
#![tactic(auto)]

mod attempt;
mod forcing;
mod kept;
mod making;
mod reached;
mod reading;
mod session;
mod storing;
mod term;

pub use session::Session;
