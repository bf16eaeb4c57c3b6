use rx_value::RxText;

/// One event of a session, as its journal keeps it.
#[derive(Debug, Drop)]
pub enum Event {
    /// A client message.
    Text(RxText),
    /// An item from the client that is no text.
    Other,
    /// The end of an invocation of a task, by the task's number and the invocation's.
    TaskEnd { task: u32, number: u64 },
    /// The end of the link.
    End,
}
