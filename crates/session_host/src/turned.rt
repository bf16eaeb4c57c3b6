/// What a turn of a session, or the end of one of its tasks, came to.
#[derive(Clone, Copy, Debug, PartialEq, Eq)]
pub enum Turned {
    /// An event was journaled and answered, and the session goes on.
    Worked,
    /// The link has no item now. A later turn may find one.
    Idle,
    /// The invocation that ended isn't the one that runs, which is told; nothing was done.
    Stale { running: Option<u64> },
    /// The session is over.
    Over,
}
