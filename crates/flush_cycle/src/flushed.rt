use rx_value::{RxList, RxText};

/// The texts of an event, in the order in which they are sent.
pub type Texts = RxList<RxText>;

/// What an event came to. After any other answer than `Done` the session is over.
#[derive(Debug, Drop)]
pub enum Flushed {
    /// Nothing waits any more. The texts are to be sent in their order.
    Done(Texts),
    /// As many runs as the budget were made in this flush, and a reader still waits. The texts are those of the runs so far.
    BudgetSpent(Texts),
    /// An observer failed with this text. The texts are those of the runs so far.
    ObserverFailed(RxText, Texts),
    /// Want of memory. Nothing of the event is to be sent.
    Memory,
}
