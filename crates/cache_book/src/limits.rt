/// How many entries a cache may be allowed to keep.
pub const ENTRY_LIMIT: usize = 20_000;

/// What a cache's entries may be allowed to weigh together.
pub const BYTE_LIMIT: u64 = 1_000_000_000;

/// How much a cache keeps.
#[derive(Clone, Copy, Debug, PartialEq, Eq)]
pub struct CacheLimits {
    /// The greatest number of entries.
    pub entries: usize,
    /// The greatest weight of all entries together.
    pub bytes: u64,
}
