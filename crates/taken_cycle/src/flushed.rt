use crate::texts::Texts;

/// What an event came to. After any other answer than `Done` the session is over.
#[derive(Debug, Drop)]
pub enum Flushed {
    /// Nothing waits any more. The texts are to be sent in their order.
    Done(Texts),
    /// As many runs as the budget were made in this flush, and an output still waits. The texts are
    /// those of the runs so far.
    BudgetSpent(Texts),
    /// Want of memory. Nothing of the event is to be sent.
    Memory,
}
