/// How far the session of a Flusher has come.
#[derive(Clone, Copy, Debug, PartialEq, Eq)]
pub enum Stage {
    /// No event was applied.
    New,
    /// The init was applied, and the session goes on.
    Open,
    /// An event ended the session, or met want of memory.
    Over,
}
