//! The limit of an app file.

/// The most bytes that an app file may have.
pub const FILE_LIMIT: usize = 262_144;
