/// A piece of work of a worker: a turn of a session, or a job of a task.
#[derive(Clone, Copy, Debug, PartialEq, Eq)]
pub enum Kind {
    Turn,
    Job,
}

/// What a worker passes before each piece of work, so that a test can settle their order.
pub trait Gate: Sync {
    /// `slot` is the place of the session that the work is for.
    fn pass(&self, kind: Kind, slot: usize);
}

/// A gate that does nothing.
#[derive(Clone, Copy, Debug, PartialEq, Eq)]
pub struct NoGate;

impl Gate for NoGate {
    fn pass(&self, _kind: Kind, _slot: usize) {}
}
