//! The limits of values. What is longer, or greater, is a failure or a refusal, as each use says.

/// How many bytes a text may have.
pub const TEXT_LIMIT: usize = 65_536;

/// How many numbers a list may have.
pub const LIST_LIMIT: usize = 1_000;

/// The greatest number: whole numbers have 64 bits with sign.
pub const GREATEST_NUMBER: u64 = 9_223_372_036_854_775_807;

/// The least width and the least height of a plot, in pixels.
pub const PLOT_SIDE_MIN: u32 = 64;

/// The greatest width and the greatest height of a plot, in pixels.
pub const PLOT_SIDE_MAX: u32 = 4_096;
