/// Where a reader stands.
#[derive(Clone, Copy, Debug, PartialEq, Eq)]
pub enum Phase {
    Idle,
    Alive,
    Running,
    /// It runs, and a source that it had reached was changed.
    Overtaken,
}
