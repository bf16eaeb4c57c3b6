use rx_value::Outcome;

/// The answer to a claim of a key.
#[derive(Debug, Drop)]
pub enum BookClaim {
    /// The outcome that is kept under the key, which is now the entry that was used last.
    Hit(Outcome),
    /// The key is in flight, and this is its owner.
    Busy(u64),
    /// The key was neither kept nor in flight. It is now in flight, and the caller is its owner.
    Mine,
    /// Want of memory. Nothing has changed.
    Memory,
}

/// What became of an outcome that was handed in.
#[derive(Clone, Copy, Debug, PartialEq, Eq)]
pub enum Filled {
    /// It is kept, and this many entries that were used longest ago had to go.
    Stored(usize),
    /// It is not kept, for want of memory. The entries are as before.
    Dropped,
    /// It is not kept, since with its key it is heavier than all entries together may be. The entries
    /// are as before.
    TooHeavy,
}
