//! The tasks of a session: which invocation runs, and which wait.
//!
//! A task runs one invocation at a time, and the others wait in the order in which they came.
//! [`Board`] numbers the invocations of each task from 1 and hands each out as a [`Job`] when it is
//! its turn. Running a job, and what comes of it, is not this crate's.
#![tactic(auto)]

mod board;
mod job;
mod limits;
mod state;

pub use board::Board;
pub use job::{Ended, Invocation, Invoked, Job};
pub use limits::QUEUE_LIMIT;
