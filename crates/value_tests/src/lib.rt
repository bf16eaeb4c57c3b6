//! Tests of the libraries of values, ports, texts, tasks, caches and plots, each through its public
//! calls.
//!
//! They stand in a crate above those libraries, so that no library is proved a second time with its
//! tests. Nothing is to be cited from here. The expected values are worked out by hand.
#![tactic(auto)]

#[cfg(test)]
mod board_tests;
#[cfg(test)]
mod book_tests;
#[cfg(test)]
mod function_tests;
#[cfg(test)]
mod json_tests;
#[cfg(test)]
mod link_tests;
#[cfg(test)]
mod operator_tests;
#[cfg(test)]
mod outcome_tests;
#[cfg(test)]
mod pending_tests;
#[cfg(test)]
mod plot_tests;
#[cfg(test)]
mod port_tests;
#[cfg(test)]
mod samples;
