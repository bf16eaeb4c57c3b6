//! Tests of the libraries that evaluate an app's readers and keep what they come to, each through its
//! public calls.
//!
//! They stand in a crate above those libraries, so that no library is proved a second time with its
//! tests. Nothing is to be cited from here. The expected values are worked out by hand.
#![tactic(auto)]

#[cfg(test)]
mod asker_tests;
#[cfg(test)]
mod cache_tests;
#[cfg(test)]
mod drawn;
#[cfg(test)]
mod drawn_tests;
#[cfg(test)]
mod eval_tests;
#[cfg(test)]
mod graph_tests;
#[cfg(test)]
mod lookup;
#[cfg(test)]
mod memory_tests;
#[cfg(test)]
mod observer_tests;
#[cfg(test)]
mod plain_reader;
#[cfg(test)]
mod playing;
#[cfg(test)]
mod samples;
#[cfg(test)]
mod session_tests;
#[cfg(test)]
mod turn_tests;
#[cfg(test)]
mod watched;
