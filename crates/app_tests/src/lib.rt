//! Tests of the libraries that make an app of a file, print it and start its sources, each through
//! its public calls.
//!
//! They stand in a crate above those libraries, so that no library is proved a second time with its
//! tests. Nothing is to be cited from here. The expected values are worked out by hand.
#![tactic(auto)]

#[cfg(test)]
mod check_tests;
#[cfg(test)]
mod files;
#[cfg(test)]
mod printer_tests;
#[cfg(test)]
mod reader_tests;
#[cfg(test)]
mod source_tests;
#[cfg(test)]
mod token_tests;
#[cfg(test)]
mod tree_tests;
