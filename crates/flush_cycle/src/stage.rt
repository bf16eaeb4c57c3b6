/// How far a session has come.
#[derive(Clone, Copy, Debug, PartialEq, Eq)]
pub enum Stage {
    /// No event was applied.
    New,
    /// The init was applied, and the session goes on.
    Open,
    /// An event ended the session, or memory was wanting.
    Over,
}
