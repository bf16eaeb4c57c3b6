//! What the outputs of an app come to, by evaluating each reader once and keeping nothing.
//!
//! This is the meaning of an app in its plainest form: the expressions in the order of the text, and
//! then the outputs, each as in a first run.
#![tactic(auto)]

mod evaluating;
mod examples;
mod outputs;
mod reading;

pub use examples::first_outcome_examples;
pub use outputs::{Outcomes, outputs_of};
