//! Evaluation of terms and of readers' bodies over any reader, with the answers that the reader has.
//!
//! A [`Reader`] answers what a term reads, or wants an expression to be run first; then the evaluation
//! stops there. An [`Asker`] is asked for the outcomes of cached readers. [`Steps`] counts the bodies
//! that were run.
#![tactic(auto)]

mod asker;
mod body;
mod ending;
mod evaled;
mod keys;
mod no_cache;
mod pieces;
mod reader;
mod shown;
mod sites;
mod steps;
mod walk;

pub use asker::{Asked, Asker};
pub use body::run_body;
pub use evaled::{Evaled, eval};
pub use keys::{Keyed, run_cached_body, run_keys};
pub use no_cache::{NoCache, Ticket};
pub use reader::{Answer, Entered, Reader};
pub use shown::{last_step, picture};
pub use sites::sites_in;
pub use steps::Steps;
