//! Running the jobs of an app's tasks.
//!
//! A board says which job is to be run. [`run_job`] runs it, and gives a [`Done`], whose outcome is that
//! of the task's body on the job's arguments.
#![tactic(auto)]

mod done;
mod no_reads;

pub use done::{Done, run_job};
